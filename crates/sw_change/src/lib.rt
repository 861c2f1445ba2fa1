//! The kept content as a table, on which durable changes are carried out one after the other.
#![tactic(auto)]

mod cached;
mod checkpoint;
mod content;
pub mod laws;
mod registration;
mod registrations;

pub use checkpoint::changes_of;
pub use content::{Content, fold_all};
