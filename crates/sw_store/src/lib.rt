//! A host and what its disk keeps: events happen in groups, whose changes are written as one record before their answers
//! are handed out; and from time to time what is kept is written anew.
#![tactic(auto)]

mod applying;
mod errors;
mod group;
mod limits;
mod opening;
mod staging;
mod store;
mod writing;

pub use errors::{ApplyError, CommitError, OpenError, StageError, TendError};
pub use store::Store;
