//! What kept contents take of the storage: the bytes that the changes of a checkpoint are spelled in. For caches they are
//! counted by `sw_caches`, and for registrations here, from change to change.
#![tactic(auto)]

pub mod laws;
mod row;
mod scan;
mod sizes;
mod sums;

pub use scan::scanned_usage;
pub use sizes::Sizes;
