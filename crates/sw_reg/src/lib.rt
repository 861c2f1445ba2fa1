//! The registrations by number, each with its installing, waiting and active worker.
#![tactic(auto)]

mod by_key;
mod copies;
mod edit;
mod registrations;

pub use registrations::{NewRegistration, Registrations};
