//! What may happen next: the ready tasks of a host that aren't in flight.

ghost use Rattle.std.specs.Prelude.{◌≡◌, true, false, find, slice_get, option_and_then, option_map};
ghost use Rattle.std.specs.List.{list_all};
ghost use Rattle.std.specs.Option.{option_map_or, option_or};
ghost use Rattle.sw_next.specs.Flying.{add_all_left, fetch_left, left_of};
ghost use Rattle.sw_next.specs.Free.{activates, free_of};
ghost use Rattle.sw_data.specs.declared.histories.Task.TheVariants as task;
ghost use Rattle.sw_lane.specs.Picked.{in_flight, is_fetch, task_left};
ghost use Rattle.sw_rules.specs.Rows.{free_handler, is_install};
ghost use Rattle.sw_rules.specs.Tasks as rules;
ghost use Rattle.sw_tables.specs.Lent.{shown_handler, shown_worker};
ghost use Rattle.sw_tables.specs.Linked.{ArePlaces};
ghost use Rattle.sw_state.specs.Hosted.{state_of};

use crate::behind::{job_behind, task_behind, worker_behind};
use crate::flights::is_in_flight;
use sw_data::{HandlerRow, Phase, Task, WorkerRow};
use sw_ledgers::Tasks;
use sw_queue::Queues;
use sw_state::HostTables;
use sw_worker::Workers;

// The handler of a worker that runs, where none of its addAlls is unsettled.
fn free_of(row: &WorkerRow) -> Option<HandlerRow>
    ensures { result ≡ free_of row.now }
{
    match row.handler {
        Some(handler) => {
            if handler.unsettled == 0 {
                Some(handler)
            } else {
                None
            }
        }
        None => None,
    }
}

// The fetch of the first job that fetches and isn't in flight.
fn script_fetch(queues: &Queues, flights: &[Option<Task>]) -> Option<Task>
    ensures { result ≡ option_map (λ row. task.Fetch row.job.number)
        (find (fetch_left (in_flight flights.now)) queues.now.rows) }
{
    queues.are_numbered();
    let mut from = 0;
    while let Some(row) = queues.next_fetching(from) {
        let fetch = Task::Fetch(row.job.number);
        if !is_in_flight(flights, fetch) {
            return Some(fetch);
        }
        from = job_behind(queues, row.job.number)?;
    }
    None
}

// The fetches of the first addAll that has not settled and isn't in flight.
fn add_all_fetch(tasks: &Tasks, flights: &[Option<Task>]) -> Option<Task>
    ensures { result ≡ option_map (λ row. task.FetchAll row.number)
        (find (add_all_left (in_flight flights.now)) tasks.now.rows) }
{
    tasks.are_numbered();
    let mut from = 0;
    while let Some(row) = tasks.next_unsettled(from) {
        let fetches = Task::FetchAll(row.number);
        if !is_in_flight(flights, fetches) {
            return Some(fetches);
        }
        from = task_behind(tasks, row.number)?;
    }
    None
}

// The first job whose install handler may go on.
fn installing(host: &HostTables, queues: &Queues) -> Option<Task>
    ensures { result ≡ option_map (λ row. task.Install row.job.number)
        (find (rules.may_install (state_of host.now)) queues.now.rows) }
{
    queues.are_numbered();
    let mut from = 0;
    while let Some(row) = queues.next_installing(from) {
        if goes_on(host, row.worker) {
            return Some(Task::Install(row.job.number));
        }
        from = job_behind(queues, row.job.number)?;
    }
    None
}

// The first worker whose activate handler runs and may go on.
fn activating(host: &HostTables, workers: &Workers) -> Option<Task>
    requires { ArePlaces (λ row. row.number) workers.now.rows }
    ensures { result ≡ option_map (λ row. task.Activate row.number)
        (find (activates (state_of host.now)) workers.now.rows) }
{
    let mut from = 0;
    while let Some(row) = workers.next_activating(from) {
        if may_activate(host, row) {
            return Some(Task::Activate(row.number));
        }
        from = worker_behind(workers, row.number)?;
    }
    None
}

// The handler of a worker that may go on.
#[tactic(auto, using(crate::proofs::Handling::free_found))]
pub(crate) fn free_handler(host: &HostTables, worker: u32) -> Option<HandlerRow>
    ensures { option_map shown_handler result ≡ free_handler (state_of host.now) worker }
{
    free_of(host.workers.row(worker)?)
}

// Whether a worker, where there is one, has an install handler that may go on.
pub(crate) fn goes_on(host: &HostTables, worker: Option<u32>) -> bool
    ensures { result ≡ option_map_or (λ handler. is_install handler.phase)
        (option_and_then (free_handler (state_of host.now)) worker) false }
{
    let Some(worker) = worker else {
        return false;
    };
    match free_handler(host, worker) {
        Some(handler) => handler.phase == Phase::Install,
        None => false,
    }
}

// Whether the activate handler of a worker may go on.
pub(crate) fn may_activate(host: &HostTables, row: &WorkerRow) -> bool
    ensures { result ≡ rules.may_activate (state_of host.now) (shown_worker row.now) }
{
    match free_handler(host, row.number) {
        Some(handler) => handler.phase == Phase::Activate,
        None => false,
    }
}

// The first job that may run.
fn first_run(host: &HostTables) -> Option<Task>
    ensures { result ≡ slice_get (rules.runs (state_of host.now)) 0 }
{
    Some(Task::Run(host.queues.first_waiting()?.job.number))
}

// The first fetch of a job that isn't in flight.
#[tactic(auto, using(crate::proofs::Left::job_left))]
fn next_fetch(host: &HostTables, flights: &[Option<Task>]) -> Option<Task>
    ensures { result
        ≡ left_of (in_flight flights.now) (rules.script_fetches (state_of host.now)) }
{
    script_fetch(&host.queues, flights)
}

// The first addAll's fetches that aren't in flight.
#[tactic(auto, using(crate::proofs::Left::task_left_of))]
fn next_fetch_all(host: &HostTables, flights: &[Option<Task>]) -> Option<Task>
    ensures { result
        ≡ left_of (in_flight flights.now) (rules.add_all_fetches (state_of host.now)) }
{
    add_all_fetch(&host.tasks, flights)
}

// The first job whose worker is to be evaluated.
#[tactic(auto, using(crate::proofs::FirstReady::first_evaluate))]
fn first_evaluate(host: &HostTables) -> Option<Task>
    ensures { result ≡ slice_get (rules.evaluations (state_of host.now)) 0 }
{
    Some(Task::Evaluate(host.queues.first_evaluating()?.job.number))
}

// The first job whose install handler may go on.
fn first_install(host: &HostTables) -> Option<Task>
    ensures { result ≡ slice_get (rules.installs (state_of host.now)) 0 }
{
    installing(host, &host.queues)
}

// The first registration that is owed a Try Activate.
#[tactic(auto, using(crate::proofs::FirstReady::first_try_activate))]
fn first_try_activate(host: &HostTables) -> Option<Task>
    ensures { result ≡ slice_get (rules.try_activates (state_of host.now)) 0 }
{
    Some(Task::TryActivate(host.registrations.first_owed()?.number))
}

// The first worker whose activate handler may go on.
fn first_activate(host: &HostTables) -> Option<Task>
    ensures { result ≡ slice_get (rules.activates (state_of host.now)) 0 }
{
    activating(host, &host.workers)
}

// The first task that goes on with a job or an addAll: a run, a fetch that isn't in flight, or an evaluation.
fn next_of_jobs(host: &HostTables, flights: &[Option<Task>]) -> Option<Task>
    ensures { result ≡ option_or (option_or (option_or
        (slice_get (rules.runs (state_of host.now)) 0)
        (left_of (in_flight flights.now) (rules.script_fetches (state_of host.now))))
        (left_of (in_flight flights.now) (rules.add_all_fetches (state_of host.now))))
        (slice_get (rules.evaluations (state_of host.now)) 0) }
{
    match first_run(host) {
        Some(task) => Some(task),
        None => match next_fetch(host, flights) {
            Some(task) => Some(task),
            None => match next_fetch_all(host, flights) {
                Some(task) => Some(task),
                None => first_evaluate(host),
            },
        },
    }
}

// The first task that goes on with a worker: an install, a Try Activate, or an activation.
fn first_of_workers(host: &HostTables) -> Option<Task>
    ensures { result ≡ option_or (option_or
        (slice_get (rules.installs (state_of host.now)) 0)
        (slice_get (rules.try_activates (state_of host.now)) 0))
        (slice_get (rules.activates (state_of host.now)) 0) }
{
    match first_install(host) {
        Some(task) => Some(task),
        None => match first_try_activate(host) {
            Some(task) => Some(task),
            None => first_activate(host),
        },
    }
}

/// The first ready task that isn't one of the fetches in flight. It takes no memory, and time in the blocks of flags
/// of the tables and in the rows that are ready but for what is in flight or for a handler that can't go on.
pub fn next_task(host: &HostTables, flights: &[Option<Task>]) -> Option<Task>
    requires { list_all is_fetch (in_flight flights.now) ≡ true }
    ensures { result ≡ task_left (state_of host.now) (in_flight flights.now) }
{
    match next_of_jobs(host, flights) {
        Some(task) => Some(task),
        None => first_of_workers(host),
    }
}
