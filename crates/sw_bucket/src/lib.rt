//! Quota and eviction: which key was used last, which is forgotten next, and a recording under a bound: the host forgets
//! keys before the pick order goes on, while one is due.
//!
//! `specs/Uses` says which key an entry uses, and `specs/Eviction` which key is the victim and what a history with evictions
//! follows; what a key takes is in `sw_sizes`.
#![tactic(auto)]

mod bound;
mod bucket;
mod ends;
mod evicting;
mod keys;
pub mod laws;
mod order;
mod places;
mod playing;
mod run;
mod storage;
mod touched;
mod turn;
mod uses;
mod victims;
mod writing;

pub use bound::Bound;
pub use bucket::Bucket;
pub use ends::BoundedEnd;
pub use evicting::evict;
pub use places::forget_event;
pub use run::run_bounded;
pub use storage::{counted_key_usage, counted_usage, usage};
pub use uses::Uses;
