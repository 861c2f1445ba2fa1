//! Which jobs are ready, found without a scan of all.

ghost use Rattle.std.specs.Prelude.{◌≡◌, ◌++◌, ◌∷◌, [], ◌-◌, ◌<◌, Bool, false, drop, find, length, map, slice_set, OnOk};
ghost use Rattle.std.specs.Option.{option_copied};
ghost use Rattle.sw_data.specs.declared.rows.JobRow.{JobRow};
ghost use Rattle.sw_queue.specs.Ready.{HasFlags, beyond_waiting};

use std::alloc::Global;
use std::marker::Model;
use sw_data::{JobPhase, JobRow, NoMemory};
use sw_list::Flags;

// A flag for each job and each phase that it may be ready in.
#[derive(Drop)]
pub(crate) struct Ready {
    // The jobs that joined no other, wait, and stand first in their queues.
    starting: Flags,
    fetching: Flags,
    evaluating: Flags,
    installing: Flags,
}

impl Model for Ready {
    ghost use Rattle.std.specs.Prelude.{min};
    ghost use Rattle.sw_queue.specs.Ready as specs;

    ghost Value = { specs.Ready };

    ghost view = { λ ready. record {
      starting = ready.starting.flags;
      fetching = ready.fetching.flags;
      evaluating = ready.evaluating.flags;
      installing = ready.installing.flags;
      spare = min (min ready.starting.spare ready.fetching.spare)
          (min ready.evaluating.spare ready.installing.spare);
    } };
}

impl Ready {
    // No job; it takes no memory.
    pub(crate) fn new(alloc: Global) -> Ready
        ensures starting { result.starting ≡ [] }
        ensures fetching { result.fetching ≡ [] }
        ensures evaluating { result.evaluating ≡ [] }
        ensures installing { result.installing ≡ [] }
    {
        Ready {
            starting: Flags::new(alloc),
            fetching: Flags::new(alloc),
            evaluating: Flags::new(alloc),
            installing: Flags::new(alloc),
        }
    }

    // Makes room for one more job.
    pub(crate) fn make_room(&mut self) -> Result<(), NoMemory>
        ensures same { self.new ≡ record self.old { spare = self.new.spare } }
        ensures room { OnOk result (0 < self.new.spare) }
    {
        self.starting.make_room()?;
        self.fetching.make_room()?;
        self.evaluating.make_room()?;
        self.installing.make_room()?;
        Ok(())
    }

    // Adds a job that waits, and may start or not; it takes no memory.
    pub(crate) fn add(&mut self, starts: bool)
        requires { 0 < self.old.spare }
        ensures { self.new ≡ record {
          starting = self.old.starting ++ starts ∷ [];
          fetching = self.old.fetching ++ false ∷ [];
          evaluating = self.old.evaluating ++ false ∷ [];
          installing = self.old.installing ++ false ∷ [];
          spare = self.old.spare - 1;
        } }
    {
        self.starting.add(starts);
        self.fetching.add(false);
        self.evaluating.add(false);
        self.installing.add(false);
    }

    // The job of a place may start, or not; it takes no memory.
    pub(crate) fn set_starting(&mut self, place: usize, starts: bool)
        requires { place < length self.old.starting }
        ensures { self.new ≡ record self.old {
          starting = slice_set self.old.starting place starts;
        } }
    {
        self.starting.set(place, starts);
    }

    // The job of a place is past waiting, in this phase; it takes no memory.
    pub(crate) fn set_phase(&mut self, place: usize, phase: JobPhase)
        requires { HasFlags place self.old }
        ensures { self.new ≡ beyond_waiting place phase self.old }
    {
        self.starting.set(place, false);
        self.fetching
            .set(place, matches!(phase, JobPhase::Fetching));
        self.evaluating
            .set(place, matches!(phase, JobPhase::Evaluating));
        self.installing
            .set(place, matches!(phase, JobPhase::Installing));
    }

    // The first job that may start, where the flags tell which do; it takes no memory.
    pub(crate) fn first_starting<'a>(&self, rows: &'a [JobRow]) -> Option<&'a JobRow>
        ensures { (test : JobRow → Bool) → map test rows.now ≡ self.now.starting
            → option_copied result ≡ find test rows.now }
    {
        self.starting.first_row(rows, 0)
    }

    // The first job at or behind a place that fetches, where the flags tell which do; it takes no memory.
    pub(crate) fn next_fetching<'a>(&self, rows: &'a [JobRow], from: u32) -> Option<&'a JobRow>
        ensures { (test : JobRow → Bool) → map test rows.now ≡ self.now.fetching
            → option_copied result ≡ find test (drop from rows.now) }
    {
        self.fetching.first_row(rows, from as usize)
    }

    // The first job that is to be evaluated, where the flags tell which are; it takes no memory.
    pub(crate) fn first_evaluating<'a>(&self, rows: &'a [JobRow]) -> Option<&'a JobRow>
        ensures { (test : JobRow → Bool) → map test rows.now ≡ self.now.evaluating
            → option_copied result ≡ find test rows.now }
    {
        self.evaluating.first_row(rows, 0)
    }

    // The first job at or behind a place that installs, where the flags tell which do; it takes no memory.
    pub(crate) fn next_installing<'a>(&self, rows: &'a [JobRow], from: u32) -> Option<&'a JobRow>
        ensures { (test : JobRow → Bool) → map test rows.now ≡ self.now.installing
            → option_copied result ≡ find test (drop from rows.now) }
    {
        self.installing.first_row(rows, from as usize)
    }
}
