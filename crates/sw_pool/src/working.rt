//! A recording is worked on to its end.

ghost use Rattle.std.specs.Prelude.{◌≡◌, ◌<◌, ◌≤◌, unwrap_or};
ghost use Rattle.sw_pool.specs.Yards.{IsUnkept, IsWorked};

use crate::crew::{Crew, drive};
use crate::ends::{Nothing, Turned};
use crate::yard::Yard;
use std::alloc::Global;
use std::sync::Wait;
use std::thread::Threads;
use sw_disk::Disk;
use sw_lock::Logged;
use sw_net::Gate;
use sw_turns::{DriveEnd, Progress};

/// What workers have made of a recording: its disk, what has happened, and how it has ended.
pub struct Worked<D> {
    pub disk: D,
    pub progress: Progress,
    pub end: DriveEnd,
}

// What a yard comes to where no end is kept but this one.
pub(crate) fn end_of<D: Disk>(yard: Yard<D>, otherwise: DriveEnd) -> Worked<D>
    requires { IsUnkept (D.clock yard.origin.start) otherwise }
    ensures worked { IsWorked D.Disk yard.origin result.disk result.progress result.end }
    ensures progress { result.progress ≡ yard.progress }
    ensures end { result.end ≡ unwrap_or yard.end otherwise }
{
    let (disk, progress, end) = yard.into_parts();
    Worked {
        disk,
        progress,
        end: end.unwrap_or(otherwise),
    }
}

/// Works on a recording to its end, with as many workers as it has passes, each on a thread of its own where one can be
/// made. The run has the number that the clock of its disk had at the start, and so has its lock.
pub fn work<R: Threads + Wait + Sync, D: Disk + Send, G: Gate + Sync>(
    rt: &R,
    alloc: Global,
    yard: Yard<D>,
    number: u64,
    gate: &G,
) -> Worked<D>
    requires some { 0 < yard.origin.passes }
    requires few { yard.origin.passes ≤ 64 }
    requires number { number ≡ D.clock yard.origin.start }
    ensures { IsWorked D.Disk yard.origin result.disk result.progress result.end }
{
    let passes = yard.passes();
    match Crew::new(alloc, yard, passes, number) {
        Ok(mut crew) => {
            drive(rt, gate, &mut crew);
            let (yard, otherwise) = crew.close();
            end_of(yard, otherwise)
        }
        Err(yard) => end_of(yard, DriveEnd::NoMemory),
    }
}

// The steps of the only pass. Each adds an entry, or takes up a fetch whose entry the next one adds, so memory is at its end
// before the rounds are.
fn drive_alone<D: Disk>(yard: &mut Yard<D>)
    requires { 0 < yard.old.origin.passes }
    ensures { yard.new.origin ≡ yard.old.origin }
{
    'steps: for _ in 0..u64::MAX {
        if let Turned::Ended(_) = yard.step(Nothing, 0) {
            return;
        }
    }
}

/// Works on a recording to its end with one worker, on the thread of the call: without a lock, and without a wait. There is no
/// gate between its turns.
pub fn work_alone<D: Disk>(mut yard: Yard<D>) -> Worked<D>
    requires { yard.origin.passes ≡ 1 }
    ensures { IsWorked D.Disk yard.origin result.disk result.progress result.end }
{
    drive_alone(&mut yard);
    end_of(yard, DriveEnd::NoMemory)
}
