//! The tables of a host as one state.
#![tactic(auto)]

mod found;
mod tables;

pub use tables::HostTables;
