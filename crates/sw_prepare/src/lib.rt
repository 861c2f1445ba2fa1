//! Events, worked out on the tables of a host with all their room before they are done, and the durable changes that they
//! will have.
#![tactic(auto)]

mod activating;
mod asked;
mod calls;
mod claiming;
mod forgetting;
mod hosts;
mod jobs;
mod kept;
mod lanes;
mod laws;
mod lists;
mod planning;
mod preloading;
mod preparing;
mod telling;

pub use preparing::prepare;
pub use telling::changes;
