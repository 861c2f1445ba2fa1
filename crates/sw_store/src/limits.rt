//! The limit of a store.

/// The growth of the current part, in bytes, from which on what is kept is written anew.
pub const GROWTH: u64 = 1_048_576;
