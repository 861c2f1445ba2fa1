//! What clients do with a registration that they name: skipWaiting and claim of a worker of it.

ghost use Rattle.std.specs.Prelude.{◌≡◌, true, Some, IfErr, IfOk, option_map, if◌then◌else◌};
ghost use Rattle.sw_data.specs.declared.events.Who.{Who};
ghost use Rattle.sw_pages.specs.Acts.{Gives, outcome_of};
ghost use Rattle.sw_pages.specs.Fits.{FitsHost};
ghost use Rattle.sw_pages.specs.Named.{FindsNone, FindsRow, NamesNone, NamesRow};
ghost use Rattle.sw_reg.specs.Table.{is_there};
ghost use Rattle.sw_rules.specs.Clients as rules;
ghost use Rattle.sw_rules.specs.Rows.{is_active};
ghost use Rattle.sw_rules.specs.State.{State};
ghost use Rattle.sw_tables.specs.Lent.{shown_worker};
ghost use Rattle.sw_worker.specs.Table.{worker_at};

use crate::jobs::{named_scope, type_error};
use crate::worked::{PageAct, Worked, answered};
use std::alloc::Global;
use sw_data::{
    Answer, Cause, ClientScope, Fault, NoMemory, RegistrationRow, Slot, StateCause, WorkerRow,
    WorkerState,
};
use sw_state::HostTables;

// The mapped registration of a client's key and a scope that it names, or the answer where there is none.
pub(crate) fn named<'a>(
    host: &'a HostTables,
    alloc: Global,
    of: &ClientScope,
) -> Result<Result<&'a RegistrationRow, Answer>, NoMemory>
    ensures found { IfOk result (λ found. IfOk found (λ row. NamesRow of.now row.now host.now)) }
    ensures there { IfOk result (λ found. IfOk found (λ row.
        is_there row.now.number host.now.registrations.rows ≡ true)) }
    ensures none { IfOk result (λ found. IfErr found (λ reply. NamesNone of.now reply host.now)) }
{
    let Some(client) = host.client_row(of.client) else {
        return Ok(Err(Answer::NoClient));
    };
    let Some(scope) = named_scope(alloc, client, &of.scope)? else {
        return Ok(Err(Answer::Fault(type_error(Cause::Unparsed))));
    };
    match host.mapped_row(&client.key, &scope) {
        Some(row) => Ok(Ok(row)),
        None => Ok(Err(Answer::Fault(Fault::NoRegistration))),
    }
}

// The worker in a slot of that registration, or the answer where there is none.
fn slotted<'a>(
    host: &'a HostTables,
    alloc: Global,
    of: &ClientScope,
    place: Slot,
) -> Result<Result<&'a WorkerRow, Answer>, NoMemory>
    ensures found { IfOk result (λ found. IfOk found (λ row.
        FindsRow of.now place row.now host.now)) }
    ensures there { IfOk result (λ found. IfOk found (λ row.
        option_map shown_worker (worker_at row.now.number host.now.workers.rows)
        ≡ Some (shown_worker row.now))) }
    ensures none { IfOk result (λ found. IfErr found (λ reply.
        FindsNone of.now place reply host.now)) }
{
    let registration = match named(host, alloc, of)? {
        Ok(row) => row.number,
        Err(reply) => return Ok(Err(reply)),
    };
    match host.slot_row(place, registration) {
        Some(row) => Ok(Ok(row)),
        None => Ok(Err(Answer::NoWorker)),
    }
}

/// The skip waiting flag of a worker is set (Service Workers, ServiceWorkerGlobalScope, "skipWaiting()"). It takes no
/// memory.
pub fn skip_waiting_of(row: &WorkerRow) -> Worked
    ensures act { result.act ≡ PageAct.SkipWaiting row.now.registration row.now.number }
    ensures outcome { (state : State) (who : Who)
        → rules.skip_waiting_of state (shown_worker row.now) ≡ outcome_of who result state }
{
    Worked {
        answer: Answer::Ok,
        act: PageAct::SkipWaiting {
            registration: row.registration,
            worker: row.number,
        },
        awaited: None,
    }
}

/// A client sets the skip waiting flag of the worker in a slot (Service Workers, ServiceWorkerGlobalScope,
/// "skipWaiting()").
#[tactic(auto, using(crate::proofs::Owned::owner_shown))]
pub fn skip_waiting(
    host: &HostTables,
    alloc: Global,
    of: &ClientScope,
    place: Slot,
) -> Result<Worked, NoMemory>
    ensures fits { IfOk result (λ worked. FitsHost worked host.now) }
    ensures gives { IfOk result (λ worked. Gives (λ state who.
        rules.with_slot state of.now place (rules.skip_waiting_of state))
        worked host.now) }
{
    match slotted(host, alloc, of, place)? {
        Ok(row) => Ok(skip_waiting_of(row)),
        Err(reply) => Ok(answered(reply)),
    }
}

// Whether a worker in this state is active.
fn is_active(state: WorkerState) -> bool
    ensures { result ≡ is_active state }
{
    matches!(state, WorkerState::Activating | WorkerState::Activated)
}

/// An active worker claims the clients that match its registration (Service Workers, Clients, "claim()"). It takes no
/// memory.
pub fn claim_of(row: &WorkerRow) -> Worked
    ensures act { result.act ≡ (if is_active row.now.state
        then PageAct.Claim row.now.registration row.now.number else PageAct.Nothing) }
    ensures outcome { (state : State) (who : Who)
        → rules.claim_of state (shown_worker row.now) ≡ outcome_of who result state }
{
    if !is_active(row.state) {
        return answered(Answer::Fault(Fault::InvalidState(StateCause::NotActive)));
    }
    Worked {
        answer: Answer::Ok,
        act: PageAct::Claim {
            registration: row.registration,
            worker: row.number,
        },
        awaited: None,
    }
}

/// The worker in a slot claims the clients that match its registration, for a client (Service Workers, Clients,
/// "claim()").
#[tactic(auto, using(crate::proofs::Owned::active_shown))]
pub fn claim(
    host: &HostTables,
    alloc: Global,
    of: &ClientScope,
    place: Slot,
) -> Result<Worked, NoMemory>
    ensures fits { IfOk result (λ worked. FitsHost worked host.now) }
    ensures gives { IfOk result (λ worked. Gives (λ state who.
        rules.with_slot state of.now place (rules.claim_of state))
        worked host.now) }
{
    match slotted(host, alloc, of, place)? {
        Ok(row) => Ok(claim_of(row)),
        Err(reply) => Ok(answered(reply)),
    }
}
