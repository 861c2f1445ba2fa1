//! Writes changes as bytes.
mod changes;
mod exchange;
mod fields;

pub use changes::write;
