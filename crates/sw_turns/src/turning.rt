//! Turns of passes: a group of events each.

ghost use Rattle.std.specs.Prelude.{◌≡◌, ◌<◌, length, IfErr, IfOk};
ghost use Rattle.sw_data.specs.declared.recordings.Recording.{Recording};
ghost use Rattle.sw_data.specs.declared.storage.Kept.{Kept};
ghost use Rattle.sw_lock.specs.Entries.{ThenOwn};
ghost use Rattle.sw_turns.specs.Ends.{IsTurnEnd};
ghost use Rattle.sw_turns.specs.Groups.{over_by};
ghost use Rattle.sw_turns.specs.Settling.{IsOneRecord};
ghost use Rattle.sw_turns.specs.Turns.{HasTurned, IsGoing, IsOneGroup, IsTurn};

use crate::ends::{DriveEnd, Stop, Turn};
use crate::filling::{MOST, begin};
use crate::progress::Progress;
use crate::settling::settle;
use std::alloc::Global;
use sw_disk::Disk;

// What stopped the group is over with the run. A stop that a larger function would drop itself at an early end costs the check
// minutes.
fn cut(stop: Stop, end: DriveEnd) -> DriveEnd
    ensures { result ≡ end }
{
    drop(stop);
    end
}

// What a turn came to whose group has stopped, with some events or none; or the run has ended.
fn over(stop: Stop, some: bool) -> Result<Turn, DriveEnd>
    ensures { result ≡ over_by stop some }
{
    match stop {
        Stop::Whole => Ok(Turn::Entered),
        Stop::NoRoom => Ok(Turn::Entered),
        Stop::Fetch { task, fetches } => Ok(Turn::Fetch { task, fetches }),
        Stop::Idle => Ok(if some { Turn::Entered } else { Turn::Idle }),
        Stop::Done => Err(DriveEnd::Done),
        Stop::Stalled(lane) => Err(DriveEnd::Stalled(lane)),
        Stop::Full {
            event,
            length,
            needed,
        } => Err(DriveEnd::Full {
            event,
            length,
            needed,
        }),
        Stop::NoMemory => Err(DriveEnd::NoMemory),
    }
}

impl Progress {
    /// A turn of a pass: the event of the fetch that it has taken up happens, then what comes next, in a group whose
    /// changes are written as one record. What has no room in that ends the turn, and happens in a later one. A fetch that
    /// comes next is taken up, and ends the turn.
    pub fn turn<D: Disk>(
        &mut self,
        alloc: Global,
        disk: &mut D,
        pass: u32,
    ) -> Result<Turn, DriveEnd>
        requires pass { pass < length self.old.flights.items }
        requires going { (recording : Recording) × (base : Kept) × (start : D)
            × IsGoing D.Disk start disk.old recording base self.old }
        ensures turned { (recording : Recording) (base : Kept) (start : D)
            → IsGoing D.Disk start disk.old recording base self.old
            → HasTurned D.Disk start disk.new recording base self.new result }
        ensures group { IsOneGroup pass self.old self.new }
        ensures turn { IfOk result (IsTurn pass self.old self.new) }
        ensures calls { IsOneRecord (D.clock disk.old) (D.clock disk.new) self.new.store }
        ensures own { ThenOwn (λ entry. entry.pass) pass self.old.history.items
            self.new.history.items }
        ensures workers { length self.new.flights.items ≡ length self.old.flights.items }
        ensures net { self.new.net ≡ self.old.net }
        ensures kept { IfErr result IsTurnEnd }
    {
        if self.history.reserve(MOST).is_err() {
            return Err(DriveEnd::NoMemory);
        }
        let stop = begin(
            alloc,
            &mut self.store,
            &mut self.lanes,
            self.flights.as_mut_slice(),
            &self.net,
            pass,
        );
        let some = self.store.waiting() > 0;
        match settle(alloc, &mut self.store, &mut self.history, disk) {
            Ok(()) => over(stop, some),
            Err(end) => Err(cut(stop, end)),
        }
    }
}
