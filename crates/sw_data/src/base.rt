//! Texts, byte strings and lists that contracts see as plain lists, and the answer for want of memory.

pub mod boxed;
pub mod bytes;
pub mod failed;
pub mod items;
pub mod no_memory;
pub mod shared;
pub mod text;
