//! The events of ready tasks.

ghost use Rattle.std.specs.Prelude.{◌≡◌, true, not, is_some, None, Some, IfOk, IfSome, option_and_then, option_map, slice_get, if◌then◌else◌};
ghost use Rattle.std.specs.List.{list_any};
ghost use Rattle.std.specs.Option.{option_copied};
ghost use Rattle.sw_lane.specs.Picked.{is_fetch};
ghost use Rattle.sw_data.specs.declared.events.Event.TheVariants as event;
ghost use Rattle.sw_data.specs.declared.events.Who.TheVariants as maker;
ghost use Rattle.sw_data.specs.declared.recordings.Recording.{Recording};
ghost use Rattle.sw_lane.specs.Picked.{is_task};
ghost use Rattle.sw_rules.specs.Installing.{calls_of};
ghost use Rattle.sw_rules.specs.Rows.{job_row};
ghost use Rattle.sw_rules.specs.Tasks as rules;
ghost use Rattle.sw_tables.specs.Lent.{shown_handler, shown_worker};
ghost use Rattle.sw_state.specs.Hosted.{state_of};

use crate::tasks::free_handler;
use std::alloc::Global;
use sw_data::{Call, Event, HandlerRow, NoMemory, Phase, Task, Who, WorkerRow, copy_call};
use sw_state::HostTables;

// The calls of a worker's handler.
fn calls_of(row: &WorkerRow, phase: Phase) -> &[Call]
    ensures { result.now ≡ calls_of (shown_worker row.now) phase }
{
    match phase {
        Phase::Install => row.handlers.get().install.as_slice(),
        Phase::Activate => row.handlers.get().activate.as_slice(),
    }
}

// The next call of a worker's handler, none where it has made all.
pub(crate) fn call_at(row: &WorkerRow, handler: HandlerRow) -> Option<&Call>
    ensures { option_copied result
        ≡ slice_get (calls_of (shown_worker row.now) handler.phase) handler.made }
{
    calls_of(row, handler.phase).get(handler.made as usize)
}

// A call of the handler of a worker as an event.
fn call_event(
    alloc: Global,
    worker: u32,
    handler: HandlerRow,
    call: &Call,
) -> Result<Event, NoMemory>
    ensures { IfOk result (λ happened. happened
        ≡ event.Call (maker.Handler worker handler.phase handler.made) call.now) }
{
    Ok(Event::Call {
        who: Who::Handler {
            worker,
            phase: handler.phase,
            call: handler.made,
        },
        call: copy_call(alloc, call)?,
    })
}

// The next call of the handler of a worker, none where it has made all.
#[tactic(auto, using(crate::proofs::TaskEvents::next_shown))]
fn next_call(host: &HostTables, worker: u32, handler: HandlerRow) -> Option<&Call>
    ensures { option_copied result
        ≡ rules.next_call (state_of host.now) worker (shown_handler handler) }
{
    let row = host.workers.row(worker)?;
    call_at(row, handler)
}

// The next call of the handler of a worker as an event, none where it has made all.
fn next_event(
    host: &HostTables,
    alloc: Global,
    worker: u32,
    handler: HandlerRow,
) -> Result<Option<Event>, NoMemory>
    ensures { IfOk result (λ happened. happened
        ≡ option_map (event.Call (maker.Handler worker handler.phase handler.made))
        (rules.next_call (state_of host.now) worker (shown_handler handler))) }
{
    match next_call(host, worker, handler) {
        Some(call) => Ok(Some(call_event(alloc, worker, handler, call)?)),
        None => Ok(None),
    }
}

// What the install handler of a worker that a job made does next: a call, or its end.
fn install_or_end(
    host: &HostTables,
    alloc: Global,
    job: u32,
    worker: u32,
    handler: HandlerRow,
) -> Result<Event, NoMemory>
    ensures { IfOk result (λ happened. happened ≡ rules.call_or (state_of host.now)
        (event.Installed maker.Host job) worker (shown_handler handler)) }
{
    match next_event(host, alloc, worker, handler)? {
        Some(event) => Ok(event),
        None => Ok(Event::Installed {
            who: Who::Host,
            job,
        }),
    }
}

// What the install handler of a worker that a job made does next, where it may go on.
fn install_by(
    host: &HostTables,
    alloc: Global,
    job: u32,
    worker: u32,
) -> Result<Option<Event>, NoMemory>
    ensures { IfOk result (λ happened. happened ≡ rules.handler_event (state_of host.now)
        (event.Installed maker.Host job) worker) }
{
    match free_handler(host, worker) {
        Some(handler) => Ok(Some(install_or_end(host, alloc, job, worker, handler)?)),
        None => Ok(None),
    }
}

// What the install handler of the worker that a job made does next, where it may go on.
fn install_event(host: &HostTables, alloc: Global, job: u32) -> Result<Option<Event>, NoMemory>
    ensures { IfOk result (λ happened. happened ≡ option_and_then
        (rules.handler_event (state_of host.now) (event.Installed maker.Host job))
        (option_and_then (λ row. row.worker) (job_row (state_of host.now) job))) }
{
    let Some(row) = host.queues.row(job) else {
        return Ok(None);
    };
    match row.worker {
        Some(worker) => install_by(host, alloc, job, worker),
        None => Ok(None),
    }
}

// What the activate handler of a worker does next: a call, or its end.
fn activate_or_end(
    host: &HostTables,
    alloc: Global,
    worker: u32,
    handler: HandlerRow,
) -> Result<Event, NoMemory>
    ensures { IfOk result (λ happened. happened ≡ rules.call_or (state_of host.now)
        (event.Activated maker.Host worker) worker (shown_handler handler)) }
{
    match next_event(host, alloc, worker, handler)? {
        Some(event) => Ok(event),
        None => Ok(Event::Activated {
            who: Who::Host,
            worker,
        }),
    }
}

// What the activate handler of a worker does next, where it may go on.
fn activate_event(host: &HostTables, alloc: Global, worker: u32) -> Result<Option<Event>, NoMemory>
    ensures { IfOk result (λ happened. happened ≡ rules.handler_event (state_of host.now)
        (event.Activated maker.Host worker) worker) }
{
    match free_handler(host, worker) {
        Some(handler) => Ok(Some(activate_or_end(host, alloc, worker, handler)?)),
        None => Ok(None),
    }
}

// The event of a task, none where it ends fetches.
fn own_event(host: &HostTables, alloc: Global, task: Task) -> Result<Option<Event>, NoMemory>
    ensures { IfOk result (λ happened. (recording : Recording) → happened
        ≡ (if is_fetch task then None
        else rules.event_of recording (state_of host.now) task)) }
{
    let who = Who::Host;
    match task {
        Task::Run(job) => Ok(Some(Event::Run { who, job })),
        Task::Fetch(_) => Ok(None),
        Task::FetchAll(_) => Ok(None),
        Task::Evaluate(job) => Ok(Some(Event::Evaluated { who, job })),
        Task::Install(job) => install_event(host, alloc, job),
        Task::TryActivate(registration) => { Ok(Some(Event::TryActivate { who, registration })) }
        Task::Activate(worker) => activate_event(host, alloc, worker),
    }
}

/// The event of a ready task. None exactly where it ends fetches.
pub fn event_of(host: &HostTables, alloc: Global, task: Task) -> Result<Option<Event>, NoMemory>
    requires ready { list_any (is_task task) (rules.ready_tasks (state_of host.now)) ≡ true }
    ensures none { IfOk result (λ event. is_some event ≡ not (is_fetch task)) }
    ensures event { IfOk result (λ event. IfSome event (λ happened. (recording : Recording)
        → rules.event_of recording (state_of host.now) task ≡ Some happened)) }
{
    host.queues.are_numbered();
    own_event(host, alloc, task)
}
