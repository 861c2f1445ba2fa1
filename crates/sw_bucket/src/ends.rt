//! How the work on a recording under a bound ends.

ghost use Rattle.std.specs.Prelude.{◌≡◌};
ghost use Rattle.sw_bucket.specs.Bounded.{IsAlone, cut_by, refused_by};
ghost use Rattle.sw_turns.specs.Ends.{IsCutShort};

use sw_data::{Entry, Event};
use sw_turns::{DriveEnd, Refusal};

/// How the work on a recording under a bound ends.
#[derive(Drop)]
pub enum BoundedEnd {
    /// Every lane is at its end, nothing is left to do, and nothing is due to be forgotten.
    Done,
    /// Nothing may happen, and this is the lowest lane with actions left.
    Stalled(u32),
    /// The disk failed. The entries of the events that it refused, in order; there may be none.
    DiskFault(Vec<Entry>),
    /// The record of the changes of this event needs so much behind the next free offset that it passes the limit.
    Full {
        event: Event,
        length: u64,
        needed: u64,
    },
    /// There are 4294967296 entries.
    Spent,
    NoMemory,
}

// An event ends the run that is refused though nothing waits.
pub(crate) fn refused(refusal: Refusal) -> BoundedEnd
    requires { IsAlone refusal }
    ensures { result ≡ refused_by refusal }
{
    match refusal {
        Refusal::NoRoom(_) => unreachable!(),
        Refusal::Full {
            event,
            length,
            needed,
        } => BoundedEnd::Full {
            event,
            length,
            needed,
        },
        Refusal::NoMemory => BoundedEnd::NoMemory,
    }
}

// The disk or want of memory ends the run.
pub(crate) fn cut(end: DriveEnd) -> BoundedEnd
    requires { IsCutShort end }
    ensures { result ≡ cut_by end }
{
    match end {
        DriveEnd::DiskFault(refused) => BoundedEnd::DiskFault(refused),
        DriveEnd::NoMemory => BoundedEnd::NoMemory,
        _ => unreachable!(),
    }
}
