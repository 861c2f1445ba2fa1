//! Why a call on a cache is refused.

ghost use Rattle.std.specs.Prelude.{◌≡◌};

use std::alloc::{AllocError, AllocFailed};
use sw_data::{Cause, NoMemory};

/// Why a batch changes nothing.
#[derive(Debug, Clone, Copy, PartialEq, Eq)]
pub enum BatchFault {
    /// A growth was refused by the allocator, or a count would pass its type.
    NoMemory,
    /// No cache of the key has the name.
    CacheGone,
    /// The operation at this place is a put of what may not be put.
    TypeError { at: u32, cause: Cause },
    /// The request of the operation at this place matches a pair that the batch added.
    InvalidState { at: u32 },
    /// The operations have this many bytes together, which is too many.
    Quota { size: u64 },
}

/// Why a look-up in a cache has no answer.
#[derive(Debug, Clone, Copy, PartialEq, Eq)]
pub enum CacheFault {
    /// A growth was refused by the allocator.
    NoMemory,
    /// No cache of the key has the name.
    CacheGone,
}

impl From<NoMemory> for BatchFault {
    ghost use Rattle.sw_caches.specs.declared.fault.BatchFault.TheVariants.{NoMemory};

    ghost from_gives = { λ _ e. e ≡ NoMemory };

    fn from(_: NoMemory) -> BatchFault {
        BatchFault::NoMemory
    }
}

impl From<AllocError> for BatchFault {
    ghost use Rattle.sw_caches.specs.declared.fault.BatchFault.TheVariants.{NoMemory};

    ghost from_gives = { λ _ e. e ≡ NoMemory };

    fn from(_: AllocError) -> BatchFault {
        BatchFault::NoMemory
    }
}

impl<T: Drop> From<AllocFailed<T>> for BatchFault {
    ghost use Rattle.sw_caches.specs.declared.fault.BatchFault.TheVariants.{NoMemory};

    ghost from_gives = { λ _ e. e ≡ NoMemory };

    fn from(_: AllocFailed<T>) -> BatchFault {
        BatchFault::NoMemory
    }
}

impl From<NoMemory> for CacheFault {
    ghost use Rattle.sw_caches.specs.declared.fault.CacheFault.TheVariants.{NoMemory};

    ghost from_gives = { λ _ e. e ≡ NoMemory };

    fn from(_: NoMemory) -> CacheFault {
        CacheFault::NoMemory
    }
}
