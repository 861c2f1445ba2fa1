//! The laws of the definitions: what every legal history keeps. A call does nothing; its clause is the law.
#![tactic(auto)]

pub mod laws;
