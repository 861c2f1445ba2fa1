//! The spelling of durable changes as bytes, and reading them back.
//!
//! `specs/Spelling` gives the bytes of each change, `specs/Reading` what bytes spell; the calls of `laws` say that the
//! two are inverse, and that no spelling begins another.
#![tactic(auto)]

mod error;
pub mod laws;
mod reading;
mod writing;

pub use error::ReadError;
pub use reading::read;
pub use writing::write;
