//! Handlers that have come to their end.

ghost use Rattle.std.specs.Prelude.{◌≡◌, true, option_and_then, option_map, Some, None, IfSome, if◌then◌else◌};
ghost use Rattle.sw_client.specs.Table as clients;
ghost use Rattle.sw_reg.specs.Table as registrations;
ghost use Rattle.sw_rules.specs.Installing as rules;
ghost use Rattle.sw_scope.specs.Scopes.{Scopes};
ghost use Rattle.sw_tables.specs.Ends.{has_ended, is_in};
ghost use Rattle.sw_tables.specs.Happened.{CountsTasks};
ghost use Rattle.sw_tables.specs.Lent.{Rest, lent, shown_handler, shown_worker};
ghost use Rattle.sw_worker.specs.Table as workers;
ghost use Rattle.sw_worker.specs.Table.{calls_of, worker_at};

use sw_data::{Call, HandlerRow, Handlers, Phase, WorkerRow};

// The calls of the handler of a phase.
fn calls_of(phase: Phase, handlers: &Handlers) -> &[Call]
    ensures { result.now ≡ calls_of phase handlers.now }
{
    match phase {
        Phase::Install => handlers.install.as_slice(),
        Phase::Activate => handlers.activate.as_slice(),
    }
}

// Whether a handler of this phase has made its calls, and its addAlls have settled.
fn has_ended(phase: Phase, handlers: &Handlers, handler: HandlerRow) -> bool
    ensures { result ≡ has_ended phase handlers.now handler }
{
    handler.phase == phase
        && calls_of(phase, handlers).len() <= handler.made as usize
        && handler.unsettled == 0
}

// The handler of this phase that is at its end, by the worker's row alone.
fn ended(phase: Phase, row: &WorkerRow) -> Option<HandlerRow>
    ensures { result ≡ option_and_then
        (λ handler. if has_ended phase row.now.handlers handler then Some handler else None)
        row.now.handler }
{
    match row.handler {
        Some(handler) => {
            if has_ended(phase, row.handlers.get(), handler) {
                Some(handler)
            } else {
                None
            }
        }
        None => None,
    }
}

/// The handler of a worker that is at its end, in this phase: it has made its calls, and its addAlls have settled. It
/// takes no memory.
#[tactic(auto, using(crate::proofs::Ending::runs, crate::proofs::Ending::settles))]
pub fn ended_handler(phase: Phase, row: &WorkerRow) -> Option<HandlerRow>
    ensures ended { (scopes : Scopes) (of_workers : workers.Table)
        (of_registrations : registrations.Table) (of_clients : clients.Table) (rest : Rest)
        → worker_at row.now.number of_workers.rows ≡ Some row.now
        → CountsTasks of_workers rest.tasks
        → option_map shown_handler result
        ≡ rules.ended_handler (lent scopes of_workers of_registrations of_clients rest)
        (is_in phase) (shown_worker row.now) }
    ensures runs { IfSome result (λ handler. (row.now.handler ≡ Some handler)
        × (is_in phase handler.phase ≡ true)) }
    ensures settled { IfSome result (λ handler. handler.unsettled ≡ 0) }
{
    ended(phase, row)
}
