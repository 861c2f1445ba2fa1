//! The lines of the commands beside `replay`, as plain data, and their readers: checks of imported scripts, a roster, and look-ups beside a replay; and
//! divides a source into a recording and a transcript.
//!
//! What is read is exactly what each grammar gives, over JSON values as `serde_json` reads them.
#![tactic(auto)]

mod division;
mod imports;
mod inputs;
mod roster;
mod watched;

pub use division::divided;
pub use imports::read_imports;
pub use inputs::{
    ImportFetch, ImportRecording, LookLine, RosterLine, RosterRecording, WatchedRecording,
};
pub use roster::read_roster;
pub use watched::{LOOKS_LIMIT, read_watched};
