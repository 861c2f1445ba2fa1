//! A transcript is checked against a host: whether it is that of a legal history from a content that follows a recording;
//! and what a transcript names.
#![tactic(auto)]

mod auditing;
mod calls;
mod checking;
mod enabled;
mod ends;
mod entering;
mod hosts;
mod laning;
mod machines;
mod marks;
mod naming;
mod taking;
mod verdicts;

pub use auditing::audit;
pub use hosts::Host;
pub use machines::{Ending, Machine};
pub use marks::{Kind, Mark, read_mark};
pub use naming::transcripts_name_one_history;
pub use verdicts::Verdict;
