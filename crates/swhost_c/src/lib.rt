//! The host for callers in C: what `init`, `replay` by one worker and `show` make of three parts in memory. No call keeps
//! anything for the next one, and none starts a thread, takes a lock or waits. `c/swhost.h` declares the calls.
#![tactic(auto)]

mod calls;
mod disk;
mod handing;

pub use calls::{swhost_init, swhost_replay, swhost_show};
pub use handing::Lengths;
