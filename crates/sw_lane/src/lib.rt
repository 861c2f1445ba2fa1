//! The lanes of a recording, and what is picked next of their actions and the ready tasks.
#![tactic(auto)]

mod lane;
mod lanes;
pub mod laws;
mod picks;

pub use lanes::Lanes;
pub use picks::{Board, Pick, Work};
pub use sw_data::event_of_action;
