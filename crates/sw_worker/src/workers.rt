//! The table of workers and of the fetch events that are pending on them.

ghost use Rattle.std.specs.Prelude.{◌≡◌, ◌++◌, ◌∷◌, [], ◌+◌, ◌-◌, ◌<◌, ◌≤◌, ◌^◌, ◌↔◌, true, false, not, drop, find, length, option_map, IfOk, OnOk, OnErr, IsErr, IsErrOf, IsTrue, Some};
ghost use Rattle.std.specs.Option.{option_copied};
ghost use Rattle.sw_rules.specs.Rows.{changed, is_number, without};
ghost use Rattle.sw_worker.specs.Edits.{advanced, allows, call_counted, edited, ended, new_worker, skipping, started, task_counted, with_handler};
ghost use Rattle.sw_worker.specs.Fits.{FitsEvent, FitsWorker};
ghost use Rattle.sw_worker.specs.Table.{event_at, events_on, has_calls_left, has_pending, has_unsettled, has_worker, is_activated, is_event, is_idle, is_pending, is_running, is_there, is_worker, may_advance, may_follow, runs_activate, worker_at};

use crate::copies::{activating_of, copy_counts, copy_events, copy_rows};
use crate::edit::{Edit, carry_out};
use crate::made::{BeginFault, NewEvent, NewWorker, NoEvent, WrongState};
use std::alloc::Global;
use std::marker::Model;
use sw_data::{Bytes, Handlers, Kind, NoMemory, Phase, Shared, Text, WorkerRow, WorkerState};
use sw_list::{Flags, Ordered};

/// The workers in order of making, where a worker's number is its place, and the fetch events that are pending, in order
/// of beginning.
#[derive(Drop)]
pub struct Workers {
    rows: Vec<WorkerRow>,
    // How many fetch events are pending on each worker.
    counts: Vec<u64>,
    // The worker of each fetch event that is pending.
    events: Ordered<u32>,
    // On which of them a handler of phase activate runs.
    activating: Flags,
}

impl Model for Workers {
    ghost use Rattle.std.specs.Prelude.{◌-◌, min};
    ghost use Rattle.std.specs.Vec.{vec_len, vec_capacity};
    ghost use Rattle.sw_worker.specs.Kept.{IndexesWorkers, events_of};
    ghost use Rattle.sw_worker.specs.Table.{Table};

    ghost Value = { Table };

    ghost view = { λ w. record {
      rows = w.rows.items;
      events = events_of w.events.entries;
      spare_rows = min
          (min (vec_capacity w.rows - vec_len w.rows) (vec_capacity w.counts - vec_len w.counts))
          w.activating.spare;
      spare_events = w.events.spare;
    } };

    ghost invariant = { λ w.
        IndexesWorkers w.rows.items w.counts.items w.events.entries w.activating.flags };
}

// Whether a worker may go from one state to another.
fn may_follow(from: WorkerState, to: WorkerState) -> bool
    ensures { result ≡ may_follow from to }
{
    match (from, to) {
        (WorkerState::Redundant, _) => false,
        (_, WorkerState::Redundant) => true,
        (WorkerState::Parsed, WorkerState::Installing) => true,
        (WorkerState::Installing, WorkerState::Installed) => true,
        (WorkerState::Installed, WorkerState::Activating) => true,
        (WorkerState::Activating, WorkerState::Activated) => true,
        _ => false,
    }
}

// Whether a number is there, and is this one.
fn is_number(number: Option<u32>, other: u32) -> bool
    ensures { result ≡ is_number number other }
{
    match number {
        Some(number) => number == other,
        None => false,
    }
}

// Whether a handler of phase activate of a worker runs.
pub(crate) fn runs_activate(row: &WorkerRow) -> bool
    ensures { result ≡ runs_activate row.now }
{
    match row.handler {
        Some(handler) => handler.phase == Phase::Activate,
        None => false,
    }
}

// Whether the calls of each handler can be counted.
fn are_countable(handlers: &Handlers) -> bool
    ensures { IsTrue result
        ↔ (length handlers.now.install < 2 ^ 32) × (length handlers.now.activate < 2 ^ 32) }
{
    u32::try_from(handlers.install.as_slice().len()).is_ok()
        && u32::try_from(handlers.activate.as_slice().len()).is_ok()
}

impl Workers {
    /// No workers. It takes no memory.
    pub fn new(alloc: Global) -> Workers
        ensures rows { result.rows ≡ [] }
        ensures events { result.events ≡ [] }
    {
        Workers {
            rows: Vec::new(alloc),
            counts: Vec::new(alloc),
            events: Ordered::new(alloc),
            activating: Flags::new(alloc),
        }
    }

    /// A table of its own that equals this one, but for the room for more. It takes time and memory in the numbers of workers
    /// and of fetch events that are pending, and in the addresses of scripts; bodies and handlers are shared.
    pub fn copy(&self, alloc: Global) -> Result<Workers, NoMemory>
        ensures { IfOk result (λ copy. copy ≡ record self.now {
          spare_rows = copy.spare_rows;
          spare_events = copy.spare_events;
        }) }
    {
        let rows = copy_rows(alloc, &self.rows)?;
        let counts = copy_counts(alloc, &self.counts)?;
        let events = copy_events(alloc, &self.events)?;
        let activating = activating_of(alloc, &self.rows)?;
        Ok(Workers {
            rows,
            counts,
            events,
            activating,
        })
    }

    /// How many workers there are.
    pub fn len(&self) -> usize
        ensures { result ≡ length self.now.rows }
    {
        self.rows.len()
    }

    /// The rows of all workers, by their numbers. It takes no memory.
    pub fn rows(&self) -> &[WorkerRow]
        ensures { result.now ≡ self.now.rows }
    {
        &self.rows
    }

    /// The row of a worker. It takes no memory.
    #[tactic(auto, using(crate::proofs::Placed::row_here, crate::proofs::Placed::row_gone))]
    pub fn row(&self, worker: u32) -> Option<&WorkerRow>
        ensures { option_copied result ≡ worker_at worker self.now.rows }
    {
        let place = worker as usize;
        if place < self.rows.len() {
            Some(&self.rows[place])
        } else {
            None
        }
    }

    /// The state of a worker. It takes no memory.
    pub fn state(&self, worker: u32) -> Option<WorkerState>
        ensures { result ≡ option_map (λ row. row.state) (worker_at worker self.now.rows) }
    {
        self.row(worker).map(|row| row.state)
    }

    /// The worker on which a fetch event is pending. It takes no memory.
    #[tactic(auto, using(crate::proofs::Events::worker_found))]
    pub fn worker_of(&self, event: u32) -> Option<u32>
        ensures { result ≡ option_map (λ found. found.worker) (event_at event self.now.events) }
    {
        self.events.get(event).copied()
    }

    /// How many fetch events are pending on a worker. It takes no memory.
    #[tactic(auto, using(crate::proofs::Events::counted_here, crate::proofs::Events::counted_past))]
    pub fn pending(&self, worker: u32) -> u64
        ensures { result ≡ length (events_on worker self.now.events) }
    {
        let place = worker as usize;
        if place < self.counts.len() {
            self.counts[place]
        } else {
            0
        }
    }

    /// No handler of a worker runs, and no fetch event is pending on it. It takes no memory.
    #[tactic(auto, using(crate::proofs::Events::none_on))]
    pub fn has_no_pending(&self, worker: u32) -> bool
        ensures { result ≡ not (has_pending worker self.now) }
    {
        match self.row(worker) {
            Some(row) => row.handler.is_none() && self.pending(worker) == 0,
            None => self.pending(worker) == 0,
        }
    }

    // How many fetch events are pending on a worker, without this one. It takes no memory.
    fn other_pending(&self, event: u32, worker: u32) -> u64
        ensures { result ≡ length (events_on worker (without (is_event event) self.now.events)) }
    {
        if is_number(self.events.get(event).copied(), worker) {
            self.pending(worker) - 1
        } else {
            self.pending(worker)
        }
    }

    /// No handler of a worker runs, and no fetch event is pending on it, this one left out. It takes no memory.
    #[tactic(auto, using(crate::proofs::Events::none_on))]
    pub fn has_no_other_pending(&self, event: u32, worker: u32) -> bool
        ensures { result ≡ not (has_pending worker (record self.now {
          events = without (is_event event) self.now.events;
        })) }
    {
        match self.row(worker) {
            Some(row) => row.handler.is_none() && self.other_pending(event, worker) == 0,
            None => self.other_pending(event, worker) == 0,
        }
    }

    /// The first worker at or behind a number on which a handler of phase activate runs. It takes no memory, and time in
    /// the number of the blocks of flags and in the length of two of them.
    pub fn next_activating(&self, from: u32) -> Option<&WorkerRow>
        ensures { option_copied result ≡ find runs_activate (drop from self.now.rows) }
    {
        self.activating.first_row(&self.rows, from as usize)
    }

    /// Makes room for a worker, and its row.
    pub fn make_row(
        &mut self,
        alloc: Global,
        registration: u32,
        script: &Text,
        kind: Kind,
        body: Shared<Bytes>,
        from: Option<u32>,
        handlers: Handlers,
    ) -> Result<NewWorker, NoMemory>
        ensures same { self.new ≡ record self.old { spare_rows = self.new.spare_rows } }
        ensures room { self.old.spare_rows ≤ self.new.spare_rows }
        ensures row { IfOk result (λ new. new
            ≡ new_worker (length self.old.rows) registration script.now kind body from handlers) }
        ensures fits { IfOk result (λ new. FitsWorker new self.new) }
    {
        let Ok(number) = u32::try_from(self.rows.len()) else {
            return Err(NoMemory);
        };
        if !are_countable(&handlers) {
            return Err(NoMemory);
        }
        self.rows.reserve(1)?;
        self.counts.reserve(1)?;
        self.activating.make_room()?;
        let script = Text::of(alloc, script.as_str())?;
        let handlers = Shared::new(alloc, handlers)?;
        Ok(NewWorker {
            row: WorkerRow {
                number,
                registration,
                script,
                kind,
                body,
                state: WorkerState::Parsed,
                skip_waiting: false,
                fetch: from,
                handlers,
                handler: None,
            },
        })
    }

    /// Adds a worker whose row was made, and gives its number. It takes no memory.
    #[tactic(auto, using(crate::proofs::Placed::kept_more))]
    pub fn make_put(&mut self, new: NewWorker) -> u32
        requires { FitsWorker new self.old }
        ensures put { self.new ≡ record self.old {
          rows = self.old.rows ++ new ∷ [];
          spare_rows = self.old.spare_rows - 1;
        } }
        ensures number { result ≡ length self.old.rows }
    {
        let number = new.row.number;
        self.activating.add(runs_activate(&new.row));
        self.rows.push_reserved(new.row);
        self.counts.push_reserved(0);
        number
    }

    /// Adds a worker: parsed, without a handler that runs, its skip waiting flag not set.
    pub fn make(
        &mut self,
        alloc: Global,
        registration: u32,
        script: &Text,
        kind: Kind,
        body: Shared<Bytes>,
        from: Option<u32>,
        handlers: Handlers,
    ) -> Result<u32, NoMemory>
        ensures number { IfOk result (λ number. number ≡ length self.old.rows) }
        ensures made { OnOk result (self.new.rows ≡ self.old.rows
            ++ new_worker (length self.old.rows) registration script.now kind body from handlers
            ∷ []) }
        ensures refused { OnErr result (self.new.rows ≡ self.old.rows) }
        ensures same { self.new ≡ record self.old {
          rows = self.new.rows;
          spare_rows = self.new.spare_rows;
        } }
    {
        let new = self.make_row(alloc, registration, script, kind, body, from, handlers)?;
        Ok(self.make_put(new))
    }

    // Carries an edit out on the row of a worker. It takes no memory.
    #[tactic(auto, using(crate::proofs::Placed::row_edited, crate::proofs::Placed::within, crate::proofs::Placed::passes))]
    fn edit(&mut self, worker: u32, edit: Edit)
        requires { has_worker (allows edit) worker self.old.rows ≡ true }
        ensures { self.new ≡ record self.old {
          rows = changed (is_worker worker) (edited edit) self.old.rows;
        } }
    {
        let place = worker as usize;
        let row = &mut self.rows[place];
        carry_out(row, edit);
        self.activating.set(place, runs_activate(row));
    }

    /// A worker goes on to a state. It takes no memory.
    pub fn advance(&mut self, worker: u32, to: WorkerState) -> Result<(), WrongState>
        requires { is_there worker self.old.rows ≡ true }
        ensures wrong { IsErr result ↔ (may_advance worker to self.old.rows ≡ false) }
        ensures ok { OnOk result (self.new ≡ record self.old {
          rows = changed (is_worker worker) (advanced to) self.old.rows;
        }) }
        ensures err { OnErr result (self.new ≡ self.old) }
    {
        match self.state(worker) {
            Some(from) if may_follow(from, to) => {
                self.edit(worker, Edit::State(to));
                Ok(())
            }
            _ => Err(WrongState),
        }
    }

    // Whether a worker is activated. It takes no memory.
    fn is_activated(&self, worker: u32) -> bool
        ensures { result ≡ has_worker is_activated worker self.now.rows }
    {
        match self.row(worker) {
            Some(row) => row.state == WorkerState::Activated,
            None => false,
        }
    }

    // Whether a fetch event is pending. It takes no memory.
    #[tactic(auto, using(crate::proofs::Events::pending_found))]
    fn is_pending(&self, event: u32) -> bool
        ensures { result ≡ is_pending event self.now.events }
    {
        self.events.contains(event)
    }

    // Makes room for a fetch event. It changes nothing else.
    fn make_event_room(&mut self) -> Result<(), NoMemory>
        ensures same { self.new ≡ record self.old { spare_events = self.new.spare_events } }
        ensures room { self.old.spare_events ≤ self.new.spare_events }
        ensures ok { OnOk result (0 < self.new.spare_events) }
    {
        self.events.make_room()?;
        Ok(())
    }

    /// Makes room for a fetch event on a worker, and the event.
    pub fn begin_row(&mut self, worker: u32, event: u32) -> Result<NewEvent, BeginFault>
        requires { is_there worker self.old.rows ≡ true }
        ensures same { self.new ≡ record self.old { spare_events = self.new.spare_events } }
        ensures room { self.old.spare_events ≤ self.new.spare_events }
        ensures event { IfOk result (λ new. new ≡ record { number = event; worker = worker }) }
        ensures fits { IfOk result (λ new. FitsEvent new self.new) }
        ensures not_active { IsErrOf result BeginFault.NotActive
            ↔ (has_worker is_activated worker self.old.rows ≡ false) }
        ensures in_use { IsErrOf result BeginFault.InUse
            ↔ ((has_worker is_activated worker self.old.rows ≡ true)
            × (is_pending event self.old.events ≡ true)) }
    {
        if !self.is_activated(worker) {
            return Err(BeginFault::NotActive);
        }
        if self.is_pending(event) {
            return Err(BeginFault::InUse);
        }
        if self.pending(worker) == u64::MAX {
            return Err(BeginFault::NoMemory);
        }
        match self.make_event_room() {
            Ok(()) => Ok(NewEvent {
                number: event,
                worker,
            }),
            Err(NoMemory) => Err(BeginFault::NoMemory),
        }
    }

    /// A fetch event that was made begins. It takes no memory.
    #[tactic(auto, using(crate::proofs::Events::begun, crate::proofs::Events::kept_begun, crate::proofs::Events::unused, crate::proofs::Events::counted_here, crate::proofs::Placed::within))]
    pub fn begin_put(&mut self, new: NewEvent)
        requires { FitsEvent new self.old }
        ensures put { self.new ≡ record self.old {
          events = self.old.events ++ new ∷ [];
          spare_events = self.new.spare_events;
        } }
        ensures room { self.old.spare_events ≤ self.new.spare_events + 1 }
    {
        let NewEvent { number, worker } = new;
        self.events.add(number, worker);
        self.counts[worker as usize] += 1;
    }

    /// A fetch event begins on a worker.
    pub fn begin(&mut self, worker: u32, event: u32) -> Result<(), BeginFault>
        requires { is_there worker self.old.rows ≡ true }
        ensures begun { OnOk result (self.new.events
            ≡ self.old.events ++ record { number = event; worker = worker } ∷ []) }
        ensures refused { OnErr result (self.new.events ≡ self.old.events) }
        ensures same { self.new ≡ record self.old {
          events = self.new.events;
          spare_events = self.new.spare_events;
        } }
        ensures not_active { IsErrOf result BeginFault.NotActive
            ↔ (has_worker is_activated worker self.old.rows ≡ false) }
        ensures in_use { IsErrOf result BeginFault.InUse
            ↔ ((has_worker is_activated worker self.old.rows ≡ true)
            × (is_pending event self.old.events ≡ true)) }
    {
        let new = self.begin_row(worker, event)?;
        self.begin_put(new);
        Ok(())
    }

    /// A fetch event ends; the answer is its worker. It takes no memory.
    #[tactic(auto, using(crate::proofs::Events::ended, crate::proofs::Events::count_there, crate::proofs::Events::worker_within, crate::proofs::Events::found_event, crate::proofs::Events::found_pending, crate::proofs::Events::none_pending, crate::proofs::Events::none_ended))]
    pub fn end(&mut self, event: u32) -> Result<u32, NoEvent>
        ensures no_event { IsErr result ↔ (is_pending event self.old.events ≡ false) }
        ensures worker { IfOk result (λ worker. event_at event self.old.events
            ≡ Some (record { number = event; worker = worker })) }
        ensures ended { self.new ≡ record self.old {
          events = without (is_event event) self.old.events;
          spare_events = self.new.spare_events;
        } }
        ensures room { self.old.spare_events ≤ self.new.spare_events }
        ensures err { OnErr result (self.new ≡ self.old) }
    {
        match self.events.get(event).copied() {
            Some(worker) => {
                let _ = self.events.remove(event);
                self.counts[worker as usize] -= 1;
                Ok(worker)
            }
            None => Err(NoEvent),
        }
    }

    /// The skip waiting flag of a worker is set. It takes no memory.
    pub fn set_skip(&mut self, worker: u32)
        requires { is_there worker self.old.rows ≡ true }
        ensures { self.new ≡ record self.old {
          rows = changed (is_worker worker) skipping self.old.rows;
        } }
    {
        self.edit(worker, Edit::Skip);
    }

    /// A handler of this phase starts: it has made no call, and none of its addAlls is unsettled. It takes no memory.
    pub fn start_handler(&mut self, worker: u32, phase: Phase)
        requires { has_worker is_idle worker self.old.rows ≡ true }
        ensures { self.new ≡ record self.old {
          rows = changed (is_worker worker) (started phase) self.old.rows;
        } }
    {
        self.edit(worker, Edit::Start(phase));
    }

    /// The handler of a worker has made a call, which was answered by a fault or not, and made an addAll or not. It takes
    /// no memory.
    pub fn call_made(&mut self, worker: u32, fault: bool, task: bool)
        requires { has_worker has_calls_left worker self.old.rows ≡ true }
        ensures { self.new ≡ record self.old {
          rows = changed (is_worker worker) (with_handler (call_counted fault task)) self.old.rows;
        } }
    {
        self.edit(worker, Edit::CallMade { fault, task });
    }

    /// An addAll of the handler of a worker has settled, with a fault or not. It takes no memory.
    pub fn task_settled(&mut self, worker: u32, fault: bool)
        requires { has_worker has_unsettled worker self.old.rows ≡ true }
        ensures { self.new ≡ record self.old {
          rows = changed (is_worker worker) (with_handler (task_counted fault)) self.old.rows;
        } }
    {
        self.edit(worker, Edit::TaskSettled { fault });
    }

    /// The handler of a worker has ended. It takes no memory.
    pub fn end_handler(&mut self, worker: u32)
        requires { has_worker is_running worker self.old.rows ≡ true }
        ensures { self.new ≡ record self.old {
          rows = changed (is_worker worker) ended self.old.rows;
        } }
    {
        self.edit(worker, Edit::End);
    }
}
