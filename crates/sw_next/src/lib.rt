//! What may happen next, asked of the tables of a host: whether an event is enabled, which task is the next, and what is
//! told of a task, a key and what a lane waits for.
#![tactic(auto)]

mod behind;
mod counts;
mod events;
mod flights;
mod keys;
mod task_events;
mod task_fetches;
mod tasks;
mod waits;

pub use counts::{cache_count, mapped_count};
pub use events::{enabled, ready};
pub use flights::many_in_flight;
pub use keys::task_key;
pub use task_events::event_of;
pub use task_fetches::fetches;
pub use tasks::next_task;
pub use waits::{has_settled, is_ready, may_begin};
