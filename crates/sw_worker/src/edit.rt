//! What becomes of the row of a worker.

ghost use Rattle.std.specs.Prelude.{◌≡◌, true, Some};
ghost use Rattle.sw_worker.specs.Edits.{allows, edited};
ghost use Rattle.sw_worker.specs.Kept.{Counts};
ghost use Rattle.sw_worker.specs.Table.{has_calls_left, has_unsettled};

use sw_data::{HandlerRow, Phase, WorkerRow, WorkerState};

// What a call does to the row of a worker.
#[derive(Debug, Clone, Copy)]
pub(crate) enum Edit {
    /// It goes on to this state.
    State(WorkerState),
    /// Its skip waiting flag is set.
    Skip,
    /// A handler of this phase starts.
    Start(Phase),
    /// Its handler has made a call.
    CallMade { fault: bool, task: bool },
    /// An addAll of its handler has settled.
    TaskSettled { fault: bool },
    /// Its handler has ended.
    End,
}

// The handler has made a call. It takes no memory.
fn call_made(row: &mut WorkerRow, fault: bool, task: bool)
    requires calls { has_calls_left row.old ≡ true }
    requires counts { Counts row.old }
    ensures { row.new ≡ edited (Edit.CallMade fault task) row.old }
{
    if let Some(handler) = &mut row.handler {
        handler.made += 1;
        if task {
            handler.unsettled += 1;
        }
        handler.faulted = handler.faulted || fault;
    }
}

// An addAll of the handler has settled. It takes no memory.
fn task_settled(row: &mut WorkerRow, fault: bool)
    requires { has_unsettled row.old ≡ true }
    ensures { row.new ≡ edited (Edit.TaskSettled fault) row.old }
{
    if let Some(handler) = &mut row.handler {
        handler.unsettled -= 1;
        handler.faulted = handler.faulted || fault;
    }
}

// Carries an edit out on a row. It takes no memory.
pub(crate) fn carry_out(row: &mut WorkerRow, edit: Edit)
    requires allowed { allows edit row.old ≡ true }
    requires counts { Counts row.old }
    ensures { row.new ≡ edited edit row.old }
{
    match edit {
        Edit::State(to) => row.state = to,
        Edit::Skip => row.skip_waiting = true,
        Edit::Start(phase) => {
            row.handler = Some(HandlerRow {
                phase,
                made: 0,
                unsettled: 0,
                faulted: false,
            });
        }
        Edit::CallMade { fault, task } => call_made(row, fault, task),
        Edit::TaskSettled { fault } => task_settled(row, fault),
        Edit::End => row.handler = None,
    }
}
