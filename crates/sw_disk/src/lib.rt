//! A disk of three parts, as the journal sees it: what reads give, and what a crash may leave at every moment.
//!
//! `Disk` is the trait; `MemoryDisk` and `PlainDisk` are disks in memory, and `FileDisk` is over files.
#![tactic(auto)]

mod disk;
mod file;
mod laws;
mod memory;
mod part;
mod plain;
mod span;
mod synced;

pub use disk::Disk;
pub use file::FileDisk;
pub use laws::left_alone;
pub use memory::{CallKind, Failing, MemoryDisk};
pub use part::Part;
pub use plain::PlainDisk;
pub use sw_data::Failed;
pub use synced::write_synced;
