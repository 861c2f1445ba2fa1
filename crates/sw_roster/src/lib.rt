//! Client lists: the clients that a worker is told of, in the order of focus, on a host whose lines are played one after
//! another.
#![tactic(auto)]

mod asking;
mod beats;
mod faults;
pub mod laws;
mod playing;
mod printing;
mod recent;
mod roster;

pub use beats::{Beat, RosterAnswer, RosterEnd};
pub use faults::RosterFault;
pub use playing::run_roster;
pub use printing::print_roster;
pub use roster::Roster;
