//! A lock of tickets round a value with a history. Threads take turns with the value, each through a pass of its own.
//!
//! The history of the value is the history of the turns: each turn adds entries of its own pass, after all that
//! the pass had seen, and `close` gives the value with all of them.
#![tactic(auto)]

mod close;
mod lock;
mod logged;
mod make;
mod pass;
mod rule;
mod turn;
mod view;

pub use lock::{Missing, Shared};
pub use logged::Logged;
pub use pass::{Pass, Spent};
