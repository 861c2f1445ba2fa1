//! skipWaiting, and the end of a fetch event (Service Workers, ServiceWorkerGlobalScope, "skipWaiting()"; Appendix A,
//! "Handle Fetch").

ghost use Rattle.std.specs.Prelude.{◌≡◌, ◌+◌, ◌≤◌, true, Some, IfSome, option_and_then};
ghost use Rattle.sw_activate.specs.Answers.{end_answer, ok_answer};
ghost use Rattle.sw_client.specs.Table.{users_of};
ghost use Rattle.sw_reg.specs.Table.{is_there};
ghost use Rattle.sw_rules.specs.Clients as rules;
ghost use Rattle.sw_rules.specs.Noticing.{Did};
ghost use Rattle.sw_rules.specs.Rows.{worker_row};
ghost use Rattle.sw_tables.specs.Happened.{Happened, KeepCounts};
ghost use Rattle.sw_tables.specs.Lent.{Rest, lent};
ghost use Rattle.sw_tables.specs.Linked.{HasSlots, Linked, registration_of};
ghost use Rattle.sw_tables.specs.Parts.{SlotsBecome, StayLinked};
ghost use Rattle.sw_worker.specs.Table as workers_of;
ghost use Rattle.sw_worker.specs.Table.{event_at, worker_at};

use crate::checks::recheck;
use sw_client::Clients;
use sw_queue::Queues;
use sw_reg::Registrations;
use sw_rules::Notices;
use sw_scope::ScopeMap;
use sw_tables::{NotNow, set_skip, try_activate};
use sw_worker::Workers;

// The skip waiting flag of a worker of a registration is set, then Try Activate.
fn skip(
    registration: u32,
    worker: u32,
    map: &ScopeMap,
    workers: &mut Workers,
    registrations: &mut Registrations,
    clients: &mut Clients,
    notices: &mut Notices,
)
    requires linked { Linked map.now workers.old registrations.old clients.old }
    requires there { workers_of.is_there worker workers.old.rows ≡ true }
    requires room { 2 + users_of registration clients.old.rows ≤ notices.old.spare }
    ensures did { (rest : Rest) → Did (rules.skip_waiting
        (lent map.now workers.old registrations.old clients.old rest) registration worker)
        notices.old notices.new
        (lent map.now workers.new registrations.new clients.new rest) }
    ensures linked { Linked map.now workers.new registrations.new clients.new }
    ensures counts { KeepCounts workers.old workers.new }
{
    set_skip(worker, workers, registrations);
    try_activate(registration, workers, registrations, clients, notices);
}

/// A worker waits no longer than it must: its flag is set, and its registration's waiting worker becomes active where it
/// may. It takes no memory.
pub fn skip_waiting(
    worker: u32,
    map: &mut ScopeMap,
    _queues: &mut Queues,
    workers: &mut Workers,
    registrations: &mut Registrations,
    clients: &mut Clients,
    notices: &mut Notices,
) -> Result<(), NotNow>
    requires linked { Linked map.old workers.old registrations.old clients.old }
    requires there { workers_of.is_there worker workers.old.rows ≡ true }
    requires room { IfSome (worker_at worker workers.old.rows)
        (λ row. 2 + users_of row.registration clients.old.rows ≤ notices.old.spare) }
    ensures did { (rest : Rest) → IfSome
        (worker_row (lent map.old workers.old registrations.old clients.old rest) worker)
        (λ row. Happened
        (Some (rules.skip_waiting_of
        (lent map.old workers.old registrations.old clients.old rest) row))
        (ok_answer result) notices.old notices.new
        (lent map.old workers.old registrations.old clients.old rest)
        (lent map.new workers.new registrations.new clients.new rest)) }
    ensures linked { Linked map.new workers.new registrations.new clients.new }
    ensures counts { KeepCounts workers.old workers.new }
    ensures queues { _queues.new ≡ _queues.old }
{
    match workers.row(worker) {
        Some(row) => {
            let registration = row.registration;
            skip(
                registration,
                worker,
                map,
                workers,
                registrations,
                clients,
                notices,
            );
            Ok(())
        }
        None => Err(NotNow),
    }
}

// A fetch event is no longer pending.
fn remove_event(event: u32, workers: &mut Workers, registrations: &Registrations)
    requires { HasSlots workers.old registrations.now }
    ensures state { SlotsBecome (λ state. (rules.remove_event state event).state)
        workers.old registrations.now workers.new registrations.now }
    ensures linked { StayLinked workers.old registrations.now workers.new registrations.now }
    ensures counts { KeepCounts workers.old workers.new }
{
    let _ = workers.end(event);
}

// A fetch event of a worker of this registration ends.
fn end_of(
    event: u32,
    registration: u32,
    map: &ScopeMap,
    workers: &mut Workers,
    registrations: &mut Registrations,
    clients: &mut Clients,
    notices: &mut Notices,
)
    requires linked { Linked map.now workers.old registrations.old clients.old }
    requires there { is_there registration registrations.old.rows ≡ true }
    requires room { 5 + users_of registration clients.old.rows ≤ notices.old.spare }
    ensures did { (rest : Rest) → Did (rules.end_event
        (lent map.now workers.old registrations.old clients.old rest) event registration)
        notices.old notices.new
        (lent map.now workers.new registrations.new clients.new rest) }
    ensures linked { Linked map.now workers.new registrations.new clients.new }
    ensures counts { KeepCounts workers.old workers.new }
{
    remove_event(event, workers, registrations);
    recheck(registration, map, workers, registrations, clients, notices);
}

// The registration of the worker on which a fetch event is pending.
fn registration_of(event: u32, workers: &Workers) -> Option<u32>
    ensures { result ≡ option_and_then (λ pending. registration_of workers.now.rows pending.worker)
        (event_at event workers.now.events) }
{
    let worker = workers.worker_of(event)?;
    Some(workers.row(worker)?.registration)
}

/// A fetch event ends; the answer is whether it was pending. It takes no memory.
pub fn end_event(
    event: u32,
    map: &mut ScopeMap,
    _queues: &mut Queues,
    workers: &mut Workers,
    registrations: &mut Registrations,
    clients: &mut Clients,
    notices: &mut Notices,
) -> Result<bool, NotNow>
    requires linked { Linked map.old workers.old registrations.old clients.old }
    requires room { IfSome (event_at event workers.old.events) (λ pending. IfSome
        (worker_at pending.worker workers.old.rows)
        (λ row. 5 + users_of row.registration clients.old.rows ≤ notices.old.spare)) }
    ensures did { (rest : Rest) → Happened
        (Some (rules.end (lent map.old workers.old registrations.old clients.old rest) event))
        (end_answer result) notices.old notices.new
        (lent map.old workers.old registrations.old clients.old rest)
        (lent map.new workers.new registrations.new clients.new rest) }
    ensures linked { Linked map.new workers.new registrations.new clients.new }
    ensures counts { KeepCounts workers.old workers.new }
    ensures queues { _queues.new ≡ _queues.old }
{
    match registration_of(event, workers) {
        Some(registration) => {
            end_of(
                event,
                registration,
                map,
                workers,
                registrations,
                clients,
                notices,
            );
            Ok(true)
        }
        None => Ok(false),
    }
}
