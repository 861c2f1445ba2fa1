//! Sources of bytes and sinks for bytes, each with a count of its faults, and reading and writing whole.
//!
//! A source or a sink may tell its bytes, as one in memory does, or tell nothing, as standard input does.
#![tactic(auto)]

pub mod handed;
pub mod memory;
pub mod never;
mod remaining;
pub mod sink;
pub mod source;
pub mod standard;
pub mod whole;

pub use handed::Trace;
pub use memory::sink::MemorySink;
pub use memory::source::MemorySource;
pub use never::{NeverSink, NeverSource};
pub use sink::Sink;
pub use source::Source;
pub use standard::{StdSink, StdSource};
pub use sw_data::Failed;
pub use whole::{ReadAllError, read_all, write_all};
