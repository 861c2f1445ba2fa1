//! The update check over imported scripts as a dry run: a script is checked together with what it imports, on a
//! recorded network.
//!
//! A check is `check`, and the text of many checks is `checks_text`, both in `specs/`. A check reads the network, the
//! draws and the stores alone; what it comes to is carried out at its end, once there is room for all of it.
#![tactic(auto)]

mod address;
mod answers;
mod checks;
mod course;
mod lines;
mod network;

pub use answers::{Checked, ImportCause, Resource};
pub use checks::Imports;
pub use lines::print_checks;
