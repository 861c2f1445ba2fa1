//! The limits of a recording.

/// The most bytes of a recording.
pub const RECORDING_LIMIT: u64 = 16_777_216;

/// The most actions of all lanes.
pub const ACTIONS_LIMIT: usize = 65_536;

/// The most lanes.
pub const LANES_LIMIT: u64 = 64;

/// The most bytes of an address, a cache name or a preload value, as written.
pub const TEXT_LIMIT: usize = 4096;

/// The most headers in one list.
pub const HEADERS_LIMIT: usize = 64;

/// The most operations or requests in one action or call.
pub const OPERATIONS_LIMIT: usize = 256;

/// The most calls of one handler.
pub const CALLS_LIMIT: usize = 64;

/// The most bytes of a partition.
pub const PARTITION_LIMIT: usize = 64;
