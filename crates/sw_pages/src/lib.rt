//! The actions of pages on clients, registrations and jobs, worked out with all their room before they are done.
#![tactic(auto)]

mod events;
mod jobs;
mod look;
mod open;
mod preload;
mod slots;
mod worked;

pub use events::{begin, end};
pub use jobs::{register, schedule_asked, soft_update, unregister, update, update_named};
pub use look::{
    await_promise, promised_value, ready, ready_answer, registration_at, registrations_of,
};
pub use open::{close_client, open_client};
pub use preload::{preload_state, preload_switch, preload_value};
pub use slots::{claim, claim_of, skip_waiting, skip_waiting_of};
pub use worked::{PageAct, Worked};
