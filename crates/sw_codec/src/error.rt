//! Why bytes could not be read.

ghost use Rattle.std.specs.Prelude.{◌≡◌};

use std::alloc::{AllocError, AllocFailed};
use sw_data::NoMemory;

/// Why a payload gave no changes.
#[derive(Debug, Clone, Copy, PartialEq, Eq)]
pub enum ReadError {
    /// A growth was refused by the allocator.
    NoMemory,
    /// From this offset, the first byte of a change, no front of the bytes spells a change. Bytes that are none are bad
    /// at 0.
    BadAt(u64),
}

// Why a front of the bytes gave no value.
#[derive(Debug, Clone, Copy, PartialEq, Eq)]
pub(crate) enum Fault {
    NoMemory,
    /// No front of the bytes is a spelling.
    Bad,
}

impl From<AllocError> for ReadError {
    ghost use Rattle.sw_codec.specs.declared.error.ReadError.TheVariants.{NoMemory};

    ghost from_gives = { λ _ e. e ≡ NoMemory };

    fn from(_: AllocError) -> ReadError {
        ReadError::NoMemory
    }
}

impl<T: Drop> From<AllocFailed<T>> for ReadError {
    ghost use Rattle.sw_codec.specs.declared.error.ReadError.TheVariants.{NoMemory};

    ghost from_gives = { λ _ e. e ≡ NoMemory };

    fn from(_: AllocFailed<T>) -> ReadError {
        ReadError::NoMemory
    }
}

impl From<NoMemory> for Fault {
    ghost use Rattle.sw_codec.specs.declared.error.Fault.TheVariants.{NoMemory};

    ghost from_gives = { λ _ e. e ≡ NoMemory };

    fn from(_: NoMemory) -> Fault {
        Fault::NoMemory
    }
}
