//! What a step answers.

ghost use Rattle.std.specs.Prelude.{◌≡◌};
ghost use Rattle.sw_pool.specs.Yards.{brief_of, shown};

use sw_data::{Task, Text};
use sw_turns::{DriveEnd, Turn};

/// A step is given nothing.
#[derive(Debug, Clone, Copy, PartialEq, Eq)]
pub struct Nothing;

/// How the work has ended, without the events that were refused.
#[derive(Debug, Clone, Copy, PartialEq, Eq)]
pub enum Brief {
    Done,
    Stalled(u32),
    DiskFault,
    Full,
    NoMemory,
    /// The pass has made 2^40 turns. No step answers it.
    Spent,
}

/// What a step came to.
#[derive(Drop)]
pub enum Turned {
    /// Entries were added.
    Entered,
    /// The pass has taken up this task; these are the addresses and the drawn numbers of its fetches.
    Fetch {
        task: Task,
        fetches: Vec<(Text, u32)>,
    },
    /// Nothing is ready but what other passes have taken up.
    Idle,
    /// The work has ended.
    Ended(Brief),
}

// The end without its events; it takes no memory.
pub(crate) fn brief_of(end: &DriveEnd) -> Brief
    ensures { result ≡ brief_of end.now }
{
    match end {
        DriveEnd::Done => Brief::Done,
        DriveEnd::Stalled(lane) => Brief::Stalled(*lane),
        DriveEnd::DiskFault(_) => Brief::DiskFault,
        DriveEnd::Full { .. } => Brief::Full,
        DriveEnd::NoMemory => Brief::NoMemory,
        DriveEnd::Spent(_) => Brief::Spent,
    }
}

// What a turn came to, as a step answers it.
pub(crate) fn shown(turn: Turn) -> Turned
    ensures { result ≡ shown turn }
{
    match turn {
        Turn::Entered => Turned::Entered,
        Turn::Fetch { task, fetches } => Turned::Fetch { task, fetches },
        Turn::Idle => Turned::Idle,
    }
}
