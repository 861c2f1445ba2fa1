//! Reads a recording: one JSON object on each line, which is an answer of the network or an action of a lane.
//!
//! What is read is exactly what the grammar gives, over JSON values as `serde_json` reads them.
#![tactic(auto)]

mod actions;
mod clients;
mod lanes;
pub mod laws;
mod lines;
mod reading;
mod recording;

pub use actions::{action_member, lane_member};
pub use clients::partition_member;
pub use lines::{FromLines, read_lines};
pub use reading::{Reading, has_promise, nothing_read};
pub use recording::read_recording;
pub use sw_forms::{Limit, LineCause, RECORDING_LIMIT, RecordingError};
