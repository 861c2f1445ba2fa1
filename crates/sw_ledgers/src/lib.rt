//! The small tables that the lifecycle keeps beside its registrations, workers, clients, jobs and caches: the drawn
//! fetches, the promises, the addAlls and the navigation preloads.
#![tactic(auto)]

mod draws;
mod preloads;
mod promises;
mod tasks;

pub use draws::{Draws, NewDraw, NewDraws};
pub use preloads::{NewPreload, Preloads};
pub use promises::{Awaited, NewPromise, Promises};
pub use tasks::{NewTask, TaskRow, Tasks};
