//! The host: it formats a disk, runs a recording on it and prints the transcript, prints what the disk keeps, or how it is called.
#![tactic(auto)]

mod auditing;
mod bounding;
mod checking;
mod command;
mod ending;
mod generating;
mod pages;
mod reading;
mod report;
mod rostering;
mod statuses;
mod storing;
mod top;
mod watching;

pub use command::needs_disk;
pub use report::Report;
pub use statuses::Status;
pub use storing::{format, show};
pub use top::{Outcome, replay_alone, run};
