//! A journal over a Root and two parts: Root tells which part is current, and a checkpoint goes over to the other.
#![tactic(auto)]

mod formatting;
mod going;
mod ones;
mod twin;
mod whole;

pub use formatting::init;
pub use sw_journal::{AppendError, InitError, ReopenError};
pub use twin::{CheckpointError, Twin};
pub use whole::part_of;
