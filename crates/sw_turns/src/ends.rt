//! How the work on a recording ends.

use sw_data::{Entry, Event, Task, Text};
use sw_lock::Spent;

/// How the work on a recording ends.
#[derive(Drop)]
pub enum DriveEnd {
    /// Every lane is at its end, and nothing is left to do.
    Done,
    /// Nothing may happen, and this is the lowest lane with actions left.
    Stalled(u32),
    /// The disk failed. The entries of the events that it refused, in order; there may be none.
    DiskFault(Vec<Entry>),
    /// The record of the changes of this event needs so much behind the next free offset that it passes the limit.
    Full {
        event: Event,
        length: u64,
        needed: u64,
    },
    NoMemory,
    /// A pass of the run has made all the turns that a pass makes, and no other end is known.
    Spent(Spent),
}

/// What a turn of a pass came to.
#[derive(Drop)]
pub enum Turn {
    /// Entries were added.
    Entered,
    /// The pass has taken up this task; these are the addresses and the drawn numbers of its fetches.
    Fetch {
        task: Task,
        fetches: Vec<(Text, u32)>,
    },
    /// Nothing is ready but what other passes have taken up.
    Idle,
}

/// Why an event joins no group.
#[derive(Drop)]
pub enum Refusal {
    /// With its changes the record of the group would pass the limit.
    NoRoom(Event),
    /// Nothing waits, and the record of its changes would pass the limit.
    Full {
        event: Event,
        length: u64,
        needed: u64,
    },
    NoMemory,
}

// Why no further event joins a group.
#[derive(Drop)]
pub(crate) enum Stop {
    /// It has sixteen events.
    Whole,
    /// With the changes of what comes next the record of the group would pass the limit.
    NoRoom,
    /// The pass has taken up this task; these are the addresses and the drawn numbers of its fetches.
    Fetch {
        task: Task,
        fetches: Vec<(Text, u32)>,
    },
    /// Nothing is ready but what other passes have taken up.
    Idle,
    Done,
    Stalled(u32),
    Full {
        event: Event,
        length: u64,
        needed: u64,
    },
    NoMemory,
}
