//! The tables of a host, and what an event comes to before it is done: the host's events and the calls of handlers, worked
//! out on the tables that they are lent; the answers of the host's events.
#![tactic(auto)]

mod answers;
mod calls;
mod fetches;
mod plan;
mod runs;

pub use answers::{
    activate_answer, draw_where, evaluated_answer, fetched_answer, finished_answer,
    installed_answer, ok_answer, ran_answer,
};
pub use calls::call_work;
pub use fetches::{fetch_ended, fetched_of};
pub use plan::{Act, Asked, NewFetch, Plan, Reply, Then, Work};
pub use runs::run_work;
