//! The workers by number, with their handlers and the fetch events that are pending on them.
#![tactic(auto)]

mod copies;
mod edit;
mod made;
mod workers;

pub use made::{BeginFault, NewEvent, NewWorker, NoEvent, WrongState};
pub use workers::Workers;
