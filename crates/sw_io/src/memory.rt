//! A source and a sink in memory, whose calls fail where they are told to.

pub mod sink;
pub mod source;
