//! The tables of the lifecycle, lent together: how they are linked, and the parts of the algorithms that several events
//! share.
#![tactic(auto)]

mod activation;
mod found;
mod handlers;
mod jobs;
mod leaving;
mod mapping;
mod refusal;
mod slots;

pub use activation::{
    activate, chosen, clear, has_pending_worker, is_used, try_activate, try_clear,
};
pub use found::{is_mapped, mapped_row, matched, newest_row, slot_row, used_registration};
pub use handlers::ended_handler;
pub use jobs::{finish, may_run, resolve_and_finish, settle};
pub use leaving::{add, leave, remove, take_control};
pub use mapping::{map_registration, pay, set_mode, unmap};
pub use refusal::NotNow;
pub use slots::{
    become_activated, become_waiting, discard, end_handler, note_call, set_skip, to_installing,
};
