//! Activation, clearing and clients: the events lent the five tables.
#![tactic(auto)]

mod checks;
mod claiming;
mod claims;
mod clients;
mod events;
mod handler;
mod owed;
mod unregister;

pub use claiming::claimed;
pub use claims::{claim, claims_client};
pub use clients::unload;
pub use events::{end_event, skip_waiting};
pub use handler::activated;
pub use owed::try_activate;
pub use unregister::run_unregister;
