//! Whether an event may happen now, and whether a task is ready.

ghost use Rattle.std.specs.Prelude.{◌≡◌, ◌&&◌, ℕ, Option, false, is_some, option_and_then, option_map};
ghost use Rattle.std.specs.List.{list_any};
ghost use Rattle.std.specs.Option.{option_copied, option_map_or};
ghost use Rattle.sw_state.specs.Hosted.{state_of};
ghost use Rattle.sw_data.specs.declared.events.Who.TheVariants as maker;
ghost use Rattle.sw_data.specs.declared.recordings.FetchLine.{FetchLine};
ghost use Rattle.sw_data.specs.Events.{who_of};
ghost use Rattle.sw_lane.specs.Picked.{is_task};
ghost use Rattle.sw_queue.specs.Tables.{has_job};
ghost use Rattle.sw_rules.specs.Activating as activating;
ghost use Rattle.sw_rules.specs.Calls as calls;
ghost use Rattle.sw_rules.specs.Installing as installing;
ghost use Rattle.sw_rules.specs.Registering as registering;
ghost use Rattle.sw_rules.specs.Rows.{is_in_phase, is_evaluating, is_fetching, is_installing, job_row, registration_row, worker_row};
ghost use Rattle.sw_rules.specs.Step.{enabled};
ghost use Rattle.sw_rules.specs.Tasks as tasks;
ghost use Rattle.sw_tables.specs.Ends.{is_in};
ghost use Rattle.sw_tables.specs.Lent.{shown_handler, shown_worker};

use crate::task_events::call_at;
use crate::tasks::{free_handler, goes_on, may_activate};
use crate::waits::{has_settled, is_ready, may_begin};
use sw_data::{Call, Event, HandlerRow, JobPhase, JobRow, Phase, Task, Who, WorkerRow, same_call};
use sw_state::HostTables;
use sw_tables::ended_handler;

// ---- by one row

// Whether a job joined no other, and its fetch is in flight.
fn fetches(row: &JobRow) -> bool
    ensures { result ≡ is_in_phase is_fetching row.now }
{
    row.leader.is_none() && row.phase == JobPhase::Fetching
}

// Whether a job joined no other, and its script is to be evaluated.
fn evaluates(row: &JobRow) -> bool
    ensures { result ≡ is_in_phase is_evaluating row.now }
{
    row.leader.is_none() && row.phase == JobPhase::Evaluating
}

// Whether a job joined no other, and its worker installs.
fn installs(row: &JobRow) -> bool
    ensures { result ≡ is_in_phase is_installing row.now }
{
    row.leader.is_none() && row.phase == JobPhase::Installing
}

// Whether a handler is of this phase, and has made this many calls.
fn is_at(handler: HandlerRow, phase: Phase, number: u32) -> bool
    ensures { result ≡ calls.is_at phase number (shown_handler handler) }
{
    handler.phase == phase && handler.made == number
}

// ---- rows by their numbers

// The row of a job.
fn row_of_job(host: &HostTables, job: u32) -> Option<&JobRow>
    ensures { option_copied result ≡ job_row (state_of host.now) job }
{
    host.queues.row(job)
}

// The row of a worker.
fn row_of_worker(host: &HostTables, worker: u32) -> Option<&WorkerRow>
    ensures { option_map shown_worker (option_copied result)
        ≡ worker_row (state_of host.now) worker }
{
    host.workers.row(worker)
}

// Whether a registration is there.
fn has_registration(host: &HostTables, registration: u32) -> bool
    ensures { result ≡ is_some (registration_row (state_of host.now) registration) }
{
    host.registrations.row(registration).is_some()
}

// Whether a registration is owed a Try Activate.
fn is_owed(host: &HostTables, registration: u32) -> bool
    ensures { result ≡ activating.is_owed (state_of host.now) registration }
{
    match host.registrations.row(registration) {
        Some(row) => row.owed,
        None => false,
    }
}

// Whether the handler of this phase of a worker is at its end.
fn is_at_end(host: &HostTables, phase: Phase, worker: u32) -> bool
    ensures { result ≡ is_some (option_and_then
        (installing.ended_handler (state_of host.now) (is_in phase))
        (worker_row (state_of host.now) worker)) }
{
    match host.workers.row(worker) {
        Some(row) => ended_handler(phase, row).is_some(),
        None => false,
    }
}

// ---- events of the host

// Whether a job may run.
fn may_run(host: &HostTables, job: u32) -> bool
    ensures { result ≡ is_some (registering.run (state_of host.now) job) }
{
    sw_tables::may_run(job, &host.queues)
}

// Whether the fetch of a job may end.
#[tactic(auto, using(crate::proofs::Enabling::fetched_where))]
fn may_end_fetch(host: &HostTables, job: u32) -> bool
    ensures { (line : Option FetchLine)
        → result ≡ is_some (installing.fetched (state_of host.now) job line) }
{
    match row_of_job(host, job) {
        Some(row) => fetches(row) && row.registration.is_some(),
        None => false,
    }
}

// Whether the script of a job's worker may be evaluated.
#[tactic(auto, using(crate::proofs::Enabling::evaluated_where))]
fn may_evaluate(host: &HostTables, job: u32) -> bool
    ensures { result ≡ is_some (installing.evaluated (state_of host.now) job) }
{
    let Some(row) = row_of_job(host, job) else {
        return false;
    };
    match row.worker {
        Some(worker) => {
            evaluates(row) && row.registration.is_some() && row_of_worker(host, worker).is_some()
        }
        None => false,
    }
}

// Whether the install handler of a job's worker may end.
#[tactic(auto, using(crate::proofs::Enabling::installed_where))]
fn may_end_install(host: &HostTables, job: u32) -> bool
    ensures { result ≡ is_some (installing.installed (state_of host.now) job) }
{
    let Some(row) = row_of_job(host, job) else {
        return false;
    };
    match row.worker {
        Some(worker) => {
            installs(row) && row.registration.is_some() && is_at_end(host, Phase::Install, worker)
        }
        None => false,
    }
}

// Whether an event of the host may happen.
#[tactic(auto, unfolding(sw_rules::specs::Step::step, sw_data::specs::Events::who_of))]
fn host_enabled(host: &HostTables, event: &Event) -> bool
    requires { who_of event.now ≡ maker.Host }
    ensures { result ≡ enabled (state_of host.now) event.now }
{
    match event {
        Event::Run { job, .. } => may_run(host, *job),
        Event::Fetched { job, .. } => may_end_fetch(host, *job),
        Event::Evaluated { job, .. } => may_evaluate(host, *job),
        Event::Installed { job, .. } => may_end_install(host, *job),
        Event::TryActivate { registration, .. } => is_owed(host, *registration),
        Event::Activated { worker, .. } => is_at_end(host, Phase::Activate, *worker),
        Event::Added { task, .. } => host.is_unsettled(*task),
        Event::Forget { .. } => true,
        // The host makes no others.
        _ => false,
    }
}

// ---- calls of handlers

// Whether this is the next call of the handler of a worker, which may go on.
fn is_next_call(host: &HostTables, row: &WorkerRow, phase: Phase, number: u32, call: &Call) -> bool
    ensures { result ≡ calls.is_next_call (state_of host.now) (shown_worker row.now)
        phase number call.now }
{
    let Some(handler) = free_handler(host, row.number) else {
        return false;
    };
    if !is_at(handler, phase, number) {
        return false;
    }
    match call_at(row, handler) {
        Some(next) => same_call(call, next),
        None => false,
    }
}

// Whether a call of the handler of a worker may happen.
#[tactic(auto, using(crate::proofs::Enabling::called_where))]
fn may_call(host: &HostTables, worker: u32, phase: Phase, number: u32, call: &Call) -> bool
    ensures { result ≡ is_some (calls.make_call (state_of host.now)
        (maker.Handler worker phase number) call.now) }
{
    let Some(row) = row_of_worker(host, worker) else {
        return false;
    };
    is_next_call(host, row, phase, number, call) && has_registration(host, row.registration)
}

// Whether an event of a handler may happen.
#[tactic(auto, unfolding(sw_rules::specs::Step::step, sw_data::specs::Events::who_of))]
fn handler_enabled(host: &HostTables, worker: u32, phase: Phase, number: u32, event: &Event) -> bool
    requires { who_of event.now ≡ maker.Handler worker phase number }
    ensures { result ≡ enabled (state_of host.now) event.now }
{
    match event {
        Event::Call { call, .. } => may_call(host, worker, phase, number, call),
        // Handlers make no others.
        _ => false,
    }
}

// ---- all events

// Whether an event of a lane may happen.
#[tactic(auto, unfolding(sw_rules::specs::Step::step, sw_data::specs::Events::who_of))]
fn lane_enabled(host: &HostTables, lane: u32, event: &Event) -> bool
    ensures { (at : ℕ) → who_of event.now ≡ maker.Lane lane at
        → result ≡ enabled (state_of host.now) event.now }
{
    match event {
        Event::Await { of, .. } => has_settled(host, lane, *of),
        Event::Ready { client, .. } => is_ready(host, *client),
        Event::Begin { client, .. } => may_begin(host, *client),
        // No lane makes these.
        Event::Call { .. }
        | Event::Run { .. }
        | Event::Fetched { .. }
        | Event::Evaluated { .. }
        | Event::Installed { .. }
        | Event::TryActivate { .. }
        | Event::Activated { .. }
        | Event::Added { .. }
        | Event::Restarted { .. } => false,
        _ => true,
    }
}

/// Whether an event is enabled, so that it may be worked out: its maker makes events of its kind, and the state lets it
/// happen. It takes no memory.
pub fn enabled(host: &HostTables, event: &Event) -> bool
    ensures { result ≡ enabled (state_of host.now) event.now }
{
    match event.who() {
        Who::Lane { lane, .. } => lane_enabled(host, lane, event),
        Who::Handler {
            worker,
            phase,
            call: number,
        } => handler_enabled(host, worker, phase, number, event),
        Who::Host => host_enabled(host, event),
    }
}

// ---- tasks

// Whether the fetch of a job is in flight.
fn has_fetch(host: &HostTables, job: u32) -> bool
    ensures { result ≡ has_job (is_in_phase is_fetching) job (state_of host.now).jobs }
{
    match row_of_job(host, job) {
        Some(row) => fetches(row),
        None => false,
    }
}

// Whether the script of a job's worker is to be evaluated.
fn has_evaluation(host: &HostTables, job: u32) -> bool
    ensures { result ≡ has_job (is_in_phase is_evaluating) job (state_of host.now).jobs }
{
    match row_of_job(host, job) {
        Some(row) => evaluates(row),
        None => false,
    }
}

// Whether the install handler of a job's worker may go on.
fn may_install(host: &HostTables, job: u32) -> bool
    ensures { result ≡ has_job (tasks.may_install (state_of host.now)) job
        (state_of host.now).jobs }
{
    match row_of_job(host, job) {
        Some(row) => installs(row) && goes_on(host, row.worker),
        None => false,
    }
}

// Whether the activate handler of a worker may go on.
fn activates(host: &HostTables, worker: u32) -> bool
    ensures { result ≡ option_map_or (tasks.may_activate (state_of host.now))
        (worker_row (state_of host.now) worker) false }
{
    match row_of_worker(host, worker) {
        Some(row) => may_activate(host, row),
        None => false,
    }
}

/// Whether a task is ready. It takes no memory.
pub fn ready(host: &HostTables, task: Task) -> bool
    ensures { result ≡ list_any (is_task task) (tasks.ready_tasks (state_of host.now)) }
{
    host.queues.are_numbered();
    host.tasks.are_numbered();
    match task {
        Task::Run(job) => may_run(host, job),
        Task::Fetch(job) => has_fetch(host, job),
        Task::FetchAll(number) => host.is_unsettled(number),
        Task::Evaluate(job) => has_evaluation(host, job),
        Task::Install(job) => may_install(host, job),
        Task::TryActivate(registration) => is_owed(host, registration),
        Task::Activate(worker) => activates(host, worker),
    }
}
