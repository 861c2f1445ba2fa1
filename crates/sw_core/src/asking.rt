//! What may happen next on a host, and what it tells of its state.

ghost use Rattle.std.specs.Prelude.{◌≡◌, ℕ, true, not, Some, is_some, IfOk, IfSome, length, option_map};
ghost use Rattle.std.specs.List.{list_all, list_any};
ghost use Rattle.std.specs.Option.{option_copied};
ghost use Rattle.sw_activate.specs.Claiming as activating;
ghost use Rattle.sw_data.specs.declared.events.Who.TheVariants as maker;
ghost use Rattle.sw_data.specs.declared.recordings.Recording.{Recording};
ghost use Rattle.sw_lane.specs.Picked.{in_flight, is_fetch, is_task, task_left};
ghost use Rattle.sw_next.specs.Fetching.{fetches_of};
ghost use Rattle.sw_rules.specs.Forgetting.{is_busy};
ghost use Rattle.sw_rules.specs.Clients as clients;
ghost use Rattle.sw_rules.specs.History.{mapped_registrations};
ghost use Rattle.sw_rules.specs.Rows.{task_row};
ghost use Rattle.sw_rules.specs.Step.{enabled};
ghost use Rattle.sw_rules.specs.Tasks as rules;
ghost use Rattle.sw_state.specs.Hosted.{state_of};

use crate::core_tables::Core;
use std::alloc::Global;
use sw_activate::claimed;
use sw_cachestorage::is_busy;
use sw_data::{Event, NoMemory, Task, Text};
use sw_next::{
    cache_count, enabled, event_of, fetches, has_settled, is_ready, mapped_count, may_begin,
    next_task, ready, task_key,
};
use sw_state::HostTables;

// The registrations that a claim by this worker would activate, on the tables of a host.
fn claimed_of(alloc: Global, host: &HostTables, worker: u32) -> Result<Vec<u32>, NoMemory>
    ensures { IfOk result (λ numbers. numbers.items
        ≡ activating.claimed (state_of host.now) worker) }
{
    claimed(
        alloc,
        worker,
        &host.map,
        &host.workers,
        &host.registrations,
        &host.clients,
    )
}

impl Core {
    /// Whether an event is enabled, so that it may be worked out: its maker makes events of its kind, and the state lets it
    /// happen. It takes no memory.
    pub fn enabled(&self, event: &Event) -> bool
        ensures { result ≡ enabled (state_of self.now) event.now }
    {
        enabled(&self.host, event)
    }

    /// Whether a task is ready. It takes no memory.
    pub fn ready(&self, task: Task) -> bool
        ensures { result ≡ list_any (is_task task) (rules.ready_tasks (state_of self.now)) }
    {
        ready(&self.host, task)
    }

    /// The first ready task that isn't one of the fetches in flight. It takes no memory, and time in the blocks of flags
    /// of the tables and in the rows that are ready but for what is in flight or for a handler that can't go on.
    pub fn next_task(&self, flights: &[Option<Task>]) -> Option<Task>
        requires { list_all is_fetch (in_flight flights.now) ≡ true }
        ensures { result ≡ task_left (state_of self.now) (in_flight flights.now) }
    {
        next_task(&self.host, flights)
    }

    /// The event of a ready task. None exactly where it ends fetches.
    pub fn event_of(&self, alloc: Global, task: Task) -> Result<Option<Event>, NoMemory>
        requires ready { list_any (is_task task) (rules.ready_tasks (state_of self.now)) ≡ true }
        ensures none { IfOk result (λ event. is_some event ≡ not (is_fetch task)) }
        ensures event { IfOk result (λ event. IfSome event (λ happened. (recording : Recording)
            → rules.event_of recording (state_of self.now) task ≡ Some happened)) }
    {
        event_of(&self.host, alloc, task)
    }

    /// The addresses and the drawn numbers of the fetches of a task, in order. Only a job's fetch and an addAll have any.
    pub fn fetches(&self, alloc: Global, task: Task) -> Result<Vec<(Text, u32)>, NoMemory>
        ensures { IfOk result (λ all. all.items ≡ fetches_of (state_of self.now) task) }
    {
        fetches(&self.host, alloc, task)
    }

    /// Whether a key is busy, so that forgetting it would answer that it is: it has an open client, an unfinished job, a
    /// running handler, a pending fetch event or an unsettled addAll. It takes no memory.
    pub fn busy(&self, key: &Text) -> bool
        ensures { result ≡ is_busy (state_of self.now) key.now }
    {
        is_busy(&self.host, key)
    }

    /// The key of an addAll. None exactly where there is no such addAll. It takes no memory.
    pub fn task_key(&self, task: u32) -> Option<&Text>
        ensures { option_copied result
            ≡ option_map (λ row. row.key) (task_row (state_of self.now) task) }
    {
        task_key(&self.host, task)
    }

    /// The registrations that a claim by this worker would activate now, in that order; none where the worker isn't active
    /// (Service Workers, Clients, "claim()"). Where a worker waits, the claim is done on copies of the tables of
    /// workers, registrations and clients, in time and memory that grow with these; where none waits, it takes no memory,
    /// and time in the registrations.
    pub fn claimed(&self, alloc: Global, worker: u32) -> Result<Vec<u32>, NoMemory>
        ensures { IfOk result (λ numbers. numbers.items ≡ activating.claimed (state_of self.now) worker) }
    {
        claimed_of(alloc, &self.host, worker)
    }

    /// How many registrations are mapped. It takes no memory, and time in the number of all registrations.
    pub fn mapped_count(&self) -> usize
        ensures { result ≡ mapped_registrations (state_of self.now) }
    {
        mapped_count(&self.host)
    }

    /// How many caches there are. It takes no memory.
    pub fn cache_count(&self) -> usize
        ensures { result ≡ length (state_of self.now).caches }
    {
        cache_count(&self.host)
    }

    // Whether the promise of an action of a lane has settled.
    pub(crate) fn has_settled(&self, lane: u32, of: u32) -> bool
        ensures { (at : ℕ)
            → result ≡ is_some (clients.await (state_of self.now) (maker.Lane lane at) of) }
    {
        has_settled(&self.host, lane, of)
    }

    // Whether the ready promise of a client has a registration, or the client isn't open.
    pub(crate) fn is_ready(&self, client: u32) -> bool
        ensures { result ≡ is_some (clients.ready (state_of self.now) client) }
    {
        is_ready(&self.host, client)
    }

    // Whether a fetch event of a client may begin, or is refused at once.
    pub(crate) fn may_begin(&self, client: u32) -> bool
        ensures { (event : ℕ) → result ≡ is_some (clients.begin (state_of self.now) client event) }
    {
        may_begin(&self.host, client)
    }
}
