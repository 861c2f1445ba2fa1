//! The value that workers take turns with.

ghost use Rattle.std.specs.Prelude.{◌≡◌, ◌<◌, None, Some, length, unwrap_or};
ghost use Rattle.sw_lock.specs.Entries.{ThenOwn};
ghost use Rattle.sw_pool.specs.Yards.{HasStepped, IsYardOf, brief_of, is_known};
ghost use Rattle.sw_turns.specs.Turns.{IsGoing};
ghost use Rattle.sw_turns.specs.declared.ends.DriveEnd.TheVariants as drive_end;

use crate::ends::{Brief, Nothing, Turned, brief_of, shown};
use std::alloc::Global;
use std::marker::Model;
use std::snapshot::Snapshot;
use sw_data::{Entry, Kept, NoMemory, Recording};
use sw_disk::Disk;
use sw_lock::Logged;
use sw_turns::{DriveEnd, Progress};
use sw_view::{Mapped, Move, moves_since};

// The end is kept. A larger function that let the old one go itself would have a case for each kind of event.
fn keep(kept: &mut Option<DriveEnd>, end: DriveEnd)
    ensures { kept.new ≡ Some end }
{
    drop(kept.replace(end));
}

// The end that is kept. Where none is, that for want of memory is kept.
fn stopped(kept: &mut Option<DriveEnd>) -> Brief
    ensures kept { kept.new ≡ Some (unwrap_or kept.old drive_end.NoMemory) }
    ensures brief { result ≡ brief_of (unwrap_or kept.old drive_end.NoMemory) }
{
    match kept {
        Some(end) => brief_of(end),
        None => {
            keep(kept, DriveEnd::NoMemory);
            Brief::NoMemory
        }
    }
}

// Whether the state of the host is the one that its history leaves, where this end is kept or none.
fn is_known(end: &Option<DriveEnd>) -> bool
    ensures { result ≡ is_known end.now }
{
    match end {
        None => true,
        Some(DriveEnd::Done) => true,
        Some(DriveEnd::Stalled(_)) => true,
        Some(DriveEnd::Full { .. }) => true,
        Some(_) => false,
    }
}

/// A host at work on a recording, on its disk, and how the work has ended, if it has. Of the run it knows the recording, the
/// content and the disk at the opening, in proofs alone.
pub struct Yard<D: Disk> {
    pub(crate) alloc: Global,
    pub(crate) disk: D,
    pub(crate) progress: Progress,
    pub(crate) end: Option<DriveEnd>,
    pub(crate) passes: u32,
    pub(crate) recording: Snapshot<Recording>,
    pub(crate) base: Snapshot<Kept>,
    pub(crate) start: Snapshot<D>,
}

impl<D: Disk> Model for Yard<D> {
    ghost use Rattle.sw_pool.specs.Yards.{IsYard, YardState, yard_of};

    ghost Value = { YardState D };

    ghost view = { λ yard.
        yard_of yard.passes yard.recording.value yard.base.value yard.start.value yard.disk
        yard.progress yard.end };

    ghost invariant = { λ yard. IsYard D.Disk
        (yard_of yard.passes yard.recording.value yard.base.value yard.start.value yard.disk
        yard.progress yard.end) };
}

impl<D: Disk> Yard<D> {
    /// A host at whose work a recording is under way.
    pub fn new(
        alloc: Global,
        disk: D,
        progress: Progress,
        passes: u32,
        recording: Snapshot<Recording>,
        base: Snapshot<Kept>,
        start: Snapshot<D>,
    ) -> Yard<D>
        requires passes { length progress.flights.items ≡ passes }
        requires going { IsGoing D.Disk start.value disk recording.value base.value progress }
        ensures origin { result.origin ≡ record {
          passes = passes;
          recording = recording.value;
          base = base.value;
          start = start.value;
        } }
        ensures disk { result.disk ≡ disk }
        ensures progress { result.progress ≡ progress }
        ensures end { result.end ≡ None }
    {
        Yard {
            alloc,
            disk,
            progress,
            end: None,
            passes,
            recording,
            base,
            start,
        }
    }

    // How many passes there are.
    pub(crate) fn passes(&self) -> u32
        ensures { result ≡ self.now.origin.passes }
    {
        self.passes
    }

    // The disk, what has happened, and how the work has ended, if it has. It takes no memory.
    pub(crate) fn into_parts(self) -> (D, Progress, Option<DriveEnd>)
        ensures disk { result.0 ≡ self.disk }
        ensures progress { result.1 ≡ self.progress }
        ensures end { result.2 ≡ self.end }
        ensures stands { IsYardOf D.Disk result.0 self.origin result.1 result.2 }
        ensures passes { length result.1.flights.items ≡ self.origin.passes }
    {
        let Yard {
            alloc: _,
            disk,
            progress,
            end,
            passes: _,
            recording,
            base,
            start,
        } = self;
        drop(recording);
        drop(base);
        drop(start);
        (disk, progress, end)
    }

    // A turn of a pass while the work has not ended.
    fn turn(&mut self, pass: u32) -> Turned
        requires pass { pass < self.old.origin.passes }
        requires going { self.old.end ≡ None }
        ensures origin { self.new.origin ≡ self.old.origin }
        ensures log { ThenOwn (λ entry. entry.pass) pass self.old.progress.history.items
            self.new.progress.history.items }
        ensures stepped { HasStepped D.Disk self.old pass self.new result }
    {
        match self.progress.turn(self.alloc, &mut self.disk, pass) {
            Ok(turn) => shown(turn),
            Err(end) => {
                let brief = brief_of(&end);
                keep(&mut self.end, end);
                Turned::Ended(brief)
            }
        }
    }
}

impl<D: Disk> Logged for Yard<D> {
    ghost use Rattle.sw_pool.specs.Yards.{HasStepped, Origin};

    type Entry = Entry;

    type Given = Nothing;

    type Out = Turned;

    ghost Base = { Origin D };

    ghost base = { λ yard. yard.origin };

    ghost passes = { λ origin. origin.passes };

    ghost log = { λ yard. yard.progress.history.items };

    ghost maker = { λ entry. entry.pass };

    ghost steps = { λ before given pass after answer. HasStepped D.Disk before pass after answer };

    fn step(&mut self, _given: Nothing, pass: u32) -> Turned {
        match &self.end {
            Some(end) => Turned::Ended(brief_of(end)),
            None => self.turn(pass),
        }
    }

    fn entries(&self) -> u64 {
        self.progress.history().len() as u64
    }
}

impl<D: Disk> Mapped for Yard<D> {
    ghost use Rattle.std.specs.Prelude.{is_some};
    ghost use Rattle.std.proofs.Common.{ap};
    ghost use Rattle.sw_pool.specs.Yards.{HasStopped, Origin};

    ghost kept = { λ yard. yard.origin.base };

    ghost is_over = { λ yard. is_some yard.end };

    ghost stops = { λ before after answer. HasStopped D.Disk before after answer };

    ghost kept_is = { λ one other same. ap (λ (origin : Origin D). origin.base) same };

    fn entries_since(&self, from: u64) -> &[Entry] {
        self.progress.history().split_at(from as usize).1
    }

    // Where the disk or want of memory has ended the work, the host may be ahead of its history. A worker stopped then, and what
    // it had published stays.
    fn moves_since(&self, from: u64) -> Result<Vec<Move>, NoMemory> {
        if from == self.entries() {
            return Ok(Vec::new(self.alloc));
        }
        if !is_known(&self.end) {
            return Err(NoMemory);
        }
        let core = self.progress.core();
        moves_since(
            self.alloc,
            core.registrations(),
            core.map(),
            self.progress.history(),
            from as usize,
        )
    }

    #[tactic(auto, using(crate::proofs::WorkLemmas::stopped))]
    fn stop(&mut self) -> Turned {
        Turned::Ended(stopped(&mut self.end))
    }
}
