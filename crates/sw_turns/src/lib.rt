//! A host at work on a recording: what comes next happens, in groups whose changes are written before their entries are
//! the history's.
#![tactic(auto)]

mod ends;
mod filling;
mod next;
mod progress;
mod settling;
mod turning;

pub use ends::{DriveEnd, Refusal, Turn};
pub use filling::enter;
pub use next::{action_event, due_event};
pub use progress::{Progress, beginning};
pub use settling::{settle, tend, write_group};
