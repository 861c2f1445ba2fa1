//! Registering, updating and installing: the events of jobs, lent the five tables.
#![tactic(auto)]

mod calls;
mod dropping;
mod ending;
mod evaluation;
mod fetching;
mod notes;
mod registering;
mod starting;
mod updating;

pub use calls::{FetchOutcome, FetchedAnswer, Ran, Rows};
pub use ending::installed;
pub use evaluation::evaluated;
pub use fetching::fetched;
pub use registering::run_register;
pub use updating::run_update;
