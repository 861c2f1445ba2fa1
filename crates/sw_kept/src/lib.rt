//! What a disk keeps: the content that the changes in its journal make, reopened, appended to, and checkpointed.
#![tactic(auto)]

mod appending;
mod checkpoint;
mod content;
mod opening;

pub use appending::append;
pub use checkpoint::{contents_of, go_over};
pub use opening::{OpenError, open};
pub use sw_twin::{AppendError, CheckpointError, InitError, Twin, init};
