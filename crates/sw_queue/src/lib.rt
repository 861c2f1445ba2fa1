//! Jobs by number, and their queues by storage key and scope.
#![tactic(auto)]

mod calls;
mod equivalent;
mod followers;
mod index;
mod line;
mod queues;
mod ready;
mod scopes;

pub use calls::{JobNotes, NewJob, NotReady, Scheduled};
pub use queues::Queues;
