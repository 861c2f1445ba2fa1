//! Why a call of a store was refused.

ghost use Rattle.std.specs.Prelude.{◌≡◌};

use sw_data::{Entry, Event, NoMemory};

/// Why a disk was not opened.
#[derive(Drop)]
pub enum OpenError {
    NoMemory,
    /// The disk's count of faults rose, or stands at its type's end.
    DiskFault,
    /// The current part begins with the header of neither format.
    NotFormatted,
    /// The journal is bad at this offset.
    BadJournal(u64),
    /// The restart, or what is kept in the newer format, passes the limit.
    Full { length: u64, needed: u64 },
}

impl From<NoMemory> for OpenError {
    ghost use Rattle.sw_store.specs.declared.errors.OpenError.TheVariants.{NoMemory};

    ghost from_gives = { λ _ e. e ≡ NoMemory };

    fn from(_: NoMemory) -> OpenError {
        OpenError::NoMemory
    }
}

/// Why an event didn't happen.
#[derive(Drop)]
pub enum StageError {
    NoMemory,
    /// Nothing waits, and the event, which is handed back, has changes whose record needs so much behind the next free
    /// offset that it passes the limit.
    Full {
        event: Event,
        length: u64,
        needed: u64,
    },
    /// Something waits, and with the changes of this event, which is handed back, its record passes the limit.
    NoRoom(Event),
    /// An earlier call met a fault of the disk, at this clock.
    Broken {
        since: u64,
    },
}

/// Why the answers of the events that waited are not handed out.
#[derive(Drop)]
pub enum CommitError {
    /// The disk's count of faults rose, or stands at its type's end. The entries of the events are handed back.
    DiskFault(Vec<Entry>),
    /// An earlier call met a fault of the disk, at this clock.
    Broken { since: u64 },
}

/// Why an event didn't happen, or its answer is not handed out.
#[derive(Drop)]
pub enum ApplyError {
    NoMemory,
    /// The event, which is handed back, has changes whose record needs so much behind the next free offset that it passes
    /// the limit.
    Full {
        event: Event,
        length: u64,
        needed: u64,
    },
    /// The disk's count of faults rose, or stands at its type's end. The entry of the event is handed back.
    DiskFault(Entry),
    /// An earlier call met a fault of the disk, at this clock.
    Broken {
        since: u64,
    },
}

/// Why what is kept was not written anew.
#[derive(Debug, Clone, Copy, PartialEq, Eq)]
pub enum TendError {
    NoMemory,
    /// The disk's count of faults rose, or stands at its type's end.
    DiskFault,
}

impl From<NoMemory> for TendError {
    ghost use Rattle.sw_store.specs.declared.errors.TendError.TheVariants.{NoMemory};

    ghost from_gives = { λ _ e. e ≡ NoMemory };

    fn from(_: NoMemory) -> TendError {
        TendError::NoMemory
    }
}
