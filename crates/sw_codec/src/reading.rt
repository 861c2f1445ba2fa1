//! Reads changes from bytes.
mod changes;
mod exchange;
mod fields;

pub use changes::read;
