//! Fetch events that begin and end (Service Workers, Appendix A, "Handle Fetch").

ghost use Rattle.std.specs.Prelude.{◌≡◌, true, IfOk, IfSome, IsSome, option_map};
ghost use Rattle.sw_data.specs.declared.events.Who.{Who};
ghost use Rattle.sw_laws.specs.Coherent.{Coherent};
ghost use Rattle.sw_pages.specs.Acts.{Gives, MayGive, outcome_of};
ghost use Rattle.sw_pages.specs.Fits.{FitsHost};
ghost use Rattle.sw_rules.specs.Clients as rules;
ghost use Rattle.sw_rules.specs.Rows.{is_active, worker_row};
ghost use Rattle.sw_state.specs.Hosted.{SameRows, state_of};
ghost use Rattle.sw_tables.specs.Linked.{registration_of};
ghost use Rattle.sw_worker.specs.Table.{has_worker};

use crate::worked::{PageAct, Worked, answered};
use sw_data::{Answer, NoMemory};
use sw_state::HostTables;
use sw_worker::{BeginFault, NewEvent};

// What a fetch event comes to that begins.
fn begun(new: NewEvent, worker: u32) -> Worked
    ensures { result
        ≡ record { answer = Answer.Worker worker; act = PageAct.Begin new; awaited = None } }
{
    Worked {
        answer: Answer::Worker(worker),
        act: PageAct::Begin(new),
        awaited: None,
    }
}

// A fetch event begins on an active worker, unless that is activating.
fn begin_on(host: &mut HostTables, worker: u32, event: u32) -> Result<Option<Worked>, NoMemory>
    requires { has_worker (λ row. is_active row.state) worker host.old.workers.rows ≡ true }
    ensures same { SameRows host.old host.new }
    ensures fits { IfOk result (λ answer. IfSome answer (λ worked. FitsHost worked host.new)) }
    ensures outcome { IfOk result (λ answer. (who : Who)
        → option_map (λ worked. outcome_of who worked (state_of host.old)) answer
        ≡ rules.begin_on (state_of host.old) event (worker_row (state_of host.old) worker)) }
{
    let new = match host.workers.begin_row(worker, event) {
        Ok(new) => new,
        Err(BeginFault::NotActive) => return Ok(None),
        Err(BeginFault::InUse) => return Ok(Some(answered(Answer::InUse))),
        Err(BeginFault::NoMemory) => return Err(NoMemory),
    };
    Ok(Some(begun(new, worker)))
}

// A fetch event of a client begins on its controller. None where the controller is activating.
fn begin_where(host: &mut HostTables, client: u32, event: u32) -> Result<Option<Worked>, NoMemory>
    requires { Coherent (state_of host.old) }
    ensures same { SameRows host.old host.new }
    ensures fits { IfOk result (λ answer. IfSome answer (λ worked. FitsHost worked host.new)) }
    ensures outcome { IfOk result (λ answer. (who : Who)
        → option_map (λ worked. outcome_of who worked (state_of host.old)) answer
        ≡ rules.begin (state_of host.old) client event) }
{
    let Some(row) = host.client_row(client) else {
        return Ok(Some(answered(Answer::NoClient)));
    };
    match row.controller {
        Some(worker) => begin_on(host, worker, event),
        None => Ok(Some(answered(Answer::NoController))),
    }
}

/// A fetch event of a client begins on its controller, which isn't activating.
pub fn begin(host: &mut HostTables, client: u32, event: u32) -> Result<Worked, NoMemory>
    requires coherent { Coherent (state_of host.old) }
    requires enabled { IsSome (rules.begin (state_of host.old) client event) }
    ensures same { SameRows host.old host.new }
    ensures fits { IfOk result (λ worked. FitsHost worked host.new) }
    ensures gives { IfOk result (λ worked. MayGive (λ state who.
        rules.begin state client event) worked host.old) }
{
    Ok(begin_where(host, client, event)?.unwrap())
}

// The registration of a worker.
fn registration_of(host: &HostTables, worker: u32) -> Option<u32>
    ensures { result ≡ registration_of host.now.workers.rows worker }
{
    Some(host.workers.row(worker)?.registration)
}

/// A fetch event ends. It takes no memory.
pub fn end(host: &HostTables, event: u32) -> Worked
    ensures fits { FitsHost result host.now }
    ensures gives { Gives (λ state who. rules.end state event) result host.now }
{
    let Some(worker) = host.workers.worker_of(event) else {
        return answered(Answer::NoEvent);
    };
    match registration_of(host, worker) {
        Some(registration) => Worked {
            answer: Answer::Ok,
            act: PageAct::End {
                event,
                registration,
            },
            awaited: None,
        },
        // No event is pending on a worker that isn't there.
        None => answered(Answer::NoEvent),
    }
}
