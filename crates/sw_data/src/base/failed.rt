//! Faults of what stands outside.

use thiserror::Error;

/// A call of a source, a sink or a disk failed, and its count of faults rose, or stands at 2^64 - 1.
#[derive(Debug, Clone, Copy, PartialEq, Eq, Error)]
#[error("a read, a write or a sync failed")]
pub struct Failed;
