//! Workers on one host: they take turns with it under a lock, and pass a gate with what they fetch outside of it. A worker
//! alone needs neither.
#![tactic(auto)]

mod crew;
mod driving;
mod ends;
mod looking;
mod working;
mod yard;

pub use driving::{drive, drive_watched};
pub use ends::{Brief, Nothing, Turned};
pub use looking::{Asked, work_watched};
pub use working::{Worked, work, work_alone};
pub use yard::Yard;
