//! The next call of a handler that runs.

ghost use Rattle.std.specs.Prelude.{◌≡◌, slice_get, option_map, IfOk};
ghost use Rattle.std.specs.Option.{option_copied};
ghost use Rattle.sw_audit.specs.Running.{event_of_row, running_event};
ghost use Rattle.sw_data.specs.declared.events.Event.TheVariants as event;
ghost use Rattle.sw_data.specs.declared.events.Who.TheVariants as maker;
ghost use Rattle.sw_rules.specs.Installing.{calls_of};
ghost use Rattle.sw_tables.specs.Lent.{shown_worker};
ghost use Rattle.sw_state.specs.Hosted.{state_of};

use std::alloc::Global;
use sw_core::Core;
use sw_data::{Call, Event, HandlerRow, NoMemory, Phase, Who, WorkerRow, copy_call};

// The calls of a worker's handler.
fn calls_of(row: &WorkerRow, phase: Phase) -> &[Call]
    ensures { result.now ≡ calls_of (shown_worker row.now) phase }
{
    match phase {
        Phase::Install => row.handlers.get().install.as_slice(),
        Phase::Activate => row.handlers.get().activate.as_slice(),
    }
}

// The next call of a worker's handler. None where it has made all.
fn next_call(row: &WorkerRow, handler: HandlerRow) -> Option<&Call>
    ensures { option_copied result
        ≡ slice_get (calls_of (shown_worker row.now) handler.phase) handler.made }
{
    calls_of(row, handler.phase).get(handler.made as usize)
}

// The next call of a worker's handler as an event. None where it has made all.
fn call_event(
    alloc: Global,
    worker: u32,
    row: &WorkerRow,
    handler: HandlerRow,
) -> Result<Option<Event>, NoMemory>
    ensures { IfOk result (λ found. found
        ≡ option_map (event.Call (maker.Handler worker handler.phase handler.made))
        (slice_get (calls_of (shown_worker row.now) handler.phase) handler.made)) }
{
    let who = Who::Handler {
        worker,
        phase: handler.phase,
        call: handler.made,
    };
    match next_call(row, handler) {
        Some(call) => Ok(Some(Event::Call {
            who,
            call: copy_call(alloc, call)?,
        })),
        None => Ok(None),
    }
}

// The next call of the handler of a worker that runs, as an event. None where none runs, or it has made all.
fn row_event(alloc: Global, worker: u32, row: &WorkerRow) -> Result<Option<Event>, NoMemory>
    ensures { IfOk result (λ found. found ≡ event_of_row worker (shown_worker row.now)) }
{
    match row.handler {
        Some(handler) => call_event(alloc, worker, row, handler),
        None => Ok(None),
    }
}

// The next call of the handler that runs on a worker, as an event. None where there is no such worker, or none runs, or it
// has made all. It may not happen while an addAll of the handler has not settled.
pub(crate) fn running_event(
    alloc: Global,
    core: &Core,
    worker: u32,
) -> Result<Option<Event>, NoMemory>
    ensures { IfOk result (λ found. found ≡ running_event (state_of core.now) worker) }
{
    match core.workers().row(worker) {
        Some(row) => row_event(alloc, worker, row),
        None => Ok(None),
    }
}
