//! A journal over one part of a disk: records behind gates, each on the disk whole before its gate is opened.
#![tactic(auto)]

mod formatting;
mod gate;
mod journal;
mod parse;
mod read;
mod reopening;
mod version;

pub use formatting::{InitError, init};
pub use journal::{AppendError, Journal};
pub use reopening::ReopenError;
