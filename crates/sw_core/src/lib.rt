//! The state machine of a host: its tables, made anew from a kept content, what each event answers and does, worked out
//! with all its room before it is done, what may happen next, and the events of ready tasks with the lines that a
//! recording gives for their fetches.
#![tactic(auto)]

mod apply;
mod asking;
mod board;
mod core_tables;
mod fetching;
mod few;
mod keeping;
mod kept;
mod lent;
mod plans;
mod restart;
mod rows;
mod tables;

pub use board::CoreBoard;
pub use core_tables::Core;
pub use fetching::{added, fetched, task_event};
