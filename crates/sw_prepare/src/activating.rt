//! The durable changes of an activation: of the owed Try Activate, and of what is looked at again where a fetch event ends,
//! a client leaves, a worker skips waiting or an activate handler ends.

ghost use Rattle.std.specs.Prelude.{◌≡◌, ◌||◌, ◌∷◌, ◌++◌, [], true, nat_lt, IfOk, IfSome, Some, is_some, if◌then◌else◌};
ghost use Rattle.sw_activate.specs.Running.{RunsWhileActivating};
ghost use Rattle.sw_client.specs.Table as clients_of;
ghost use Rattle.sw_client.specs.Table.{users_of};
ghost use Rattle.sw_data.specs.declared.storage.Change.TheVariants as change;
ghost use Rattle.sw_data.specs.declared.workers.Slot.TheVariants as in_place;
ghost use Rattle.sw_prepare.specs.Kept.{activation_changes};
ghost use Rattle.sw_prepare.specs.Taking.{is_busy, is_busy_in, skips_in, takes_place, without_event};
ghost use Rattle.sw_reg.specs.Table.{slot_of};
ghost use Rattle.sw_rules.specs.Activating as activating;
ghost use Rattle.sw_rules.specs.Clients as rules;
ghost use Rattle.sw_rules.specs.Registrations as registering;
ghost use Rattle.sw_rules.specs.Rows.{is_number};
ghost use Rattle.sw_rules.specs.Told.{kept_change};
ghost use Rattle.sw_tables.specs.Happened.{CountsTasks};
ghost use Rattle.sw_tables.specs.Lent.{Rest, lent};
ghost use Rattle.sw_tables.specs.Linked.{HasSlots, Linked, registration_of};
ghost use Rattle.sw_tables.specs.Parts.{is_activating, is_of_in};
ghost use Rattle.sw_worker.specs.Table as workers_of;
ghost use Rattle.sw_worker.specs.Table.{has_worker, is_running};

use crate::kept::{active_change, kept_row};
use crate::lists::one;
use std::alloc::Global;
use sw_client::Clients;
use sw_data::{Change, NoMemory, Phase, RegistrationRow, Slot, WorkerState};
use sw_reg::Registrations;
use sw_scope::ScopeMap;
use sw_tables::{chosen, ended_handler, used_registration};
use sw_worker::Workers;

// Whether a worker is activating.
fn is_activating(worker: u32, workers: &Workers) -> bool
    ensures { result ≡ has_worker (λ row. is_activating row.state) worker workers.now.rows }
{
    match workers.row(worker) {
        Some(row) => row.state == WorkerState::Activating,
        None => false,
    }
}

// Whether the skip waiting flag of a worker is set.
fn skips_waiting(worker: u32, workers: &Workers) -> bool
    ensures { result ≡ has_worker (λ row. row.skip_waiting) worker workers.now.rows }
{
    match workers.row(worker) {
        Some(row) => row.skip_waiting,
        None => false,
    }
}

// Whether a worker is activating, or a handler or a fetch event of it is pending.
fn is_busy(worker: u32, workers: &Workers) -> bool
    ensures { result ≡ is_busy worker workers.now }
{
    is_activating(worker, workers) || !workers.has_no_pending(worker)
}

// The same without a fetch event.
fn is_busy_without(event: u32, worker: u32, workers: &Workers) -> bool
    ensures { result ≡ is_busy worker (without_event event workers.now) }
{
    is_activating(worker, workers) || !workers.has_no_other_pending(event, worker)
}

// Whether a registration has an active worker, which is busy.
fn is_busy_in(registration: u32, workers: &Workers, registrations: &Registrations) -> bool
    ensures { result ≡ is_busy_in registration workers.now registrations.now }
{
    match registrations.slot(registration, Slot::Active) {
        Some(active) => is_busy(active, workers),
        None => false,
    }
}

// The same without a fetch event.
fn is_busy_in_without(
    event: u32,
    registration: u32,
    workers: &Workers,
    registrations: &Registrations,
) -> bool
    ensures { result ≡ is_busy_in registration (without_event event workers.now) registrations.now }
{
    match registrations.slot(registration, Slot::Active) {
        Some(active) => is_busy_without(event, active, workers),
        None => false,
    }
}

// Whether a registration has a waiting worker, whose skip waiting flag is set.
fn skips_in(registration: u32, workers: &Workers, registrations: &Registrations) -> bool
    ensures { result ≡ skips_in registration workers.now registrations.now }
{
    match registrations.slot(registration, Slot::Waiting) {
        Some(waiting) => skips_waiting(waiting, workers),
        None => false,
    }
}

// Whether a worker is the waiting one of a registration.
fn is_waiting(registration: u32, worker: u32, registrations: &Registrations) -> bool
    ensures { result
        ≡ is_number (slot_of in_place.Waiting registration registrations.now.rows) worker }
{
    match registrations.slot(registration, Slot::Waiting) {
        Some(waiting) => waiting == worker,
        None => false,
    }
}

// Whether a registration has a waiting worker, which is this one or whose skip waiting flag is set.
fn will_skip(
    registration: u32,
    worker: u32,
    workers: &Workers,
    registrations: &Registrations,
) -> bool
    ensures { result
        ≡ (is_number (slot_of in_place.Waiting registration registrations.now.rows) worker
        || skips_in registration workers.now registrations.now) }
{
    is_waiting(registration, worker, registrations)
        || skips_in(registration, workers, registrations)
}

// Whether a client uses a registration.
fn is_used(registration: u32, clients: &Clients) -> bool
    ensures { result ≡ nat_lt 0 (users_of registration clients.now.rows) }
{
    clients.users(registration) > 0
}

// Whether the waiting worker takes the place of the active one, where that one is busy or not, the flag of the waiting one
// is set or not, and a client uses the registration or not.
fn takes_place(
    busy: bool,
    skips: bool,
    used: bool,
    registration: u32,
    registrations: &Registrations,
) -> bool
    ensures { result ≡ takes_place busy skips used registration registrations.now }
{
    registrations.slot(registration, Slot::Waiting).is_some()
        && (registrations.slot(registration, Slot::Active).is_none() || !busy && (skips || !used))
}

// The changes of a Try Activate, by whether the waiting worker takes the place of the active one.
fn tried_changes(
    alloc: Global,
    takes: bool,
    registration: u32,
    map: &ScopeMap,
    registrations: &Registrations,
) -> Result<Vec<Change>, NoMemory>
    ensures { (of_workers : workers_of.Table) (of_clients : clients_of.Table) (rest : Rest)
        → HasSlots of_workers registrations.now
        → takes ≡ is_some (registering.chosen
        (lent map.now of_workers registrations.now of_clients rest) registration)
        → IfOk result (λ changes. changes.items ≡ activation_changes
        (lent map.now of_workers registrations.now of_clients rest) registration) }
{
    if takes {
        active_change(alloc, registration, map, registrations)
    } else {
        Ok(Vec::new(alloc))
    }
}

// The durable changes of an owed Try Activate. It needs memory for them alone.
pub(crate) fn try_activate_changes(
    alloc: Global,
    registration: u32,
    map: &ScopeMap,
    workers: &Workers,
    registrations: &Registrations,
    clients: &Clients,
) -> Result<Vec<Change>, NoMemory>
    requires linked { Linked map.now workers.now registrations.now clients.now }
    ensures { (rest : Rest) → IfOk result (λ changes. IfSome
        (activating.tryactivate
        (lent map.now workers.now registrations.now clients.now rest) registration)
        (λ outcome. changes.items ≡ outcome.told.changes)) }
{
    let takes = chosen(registration, workers, registrations, clients).is_some();
    tried_changes(alloc, takes, registration, map, registrations)
}

// The durable changes where a fetch event of a worker of this registration ends. It needs memory for them alone.
pub(crate) fn end_changes(
    alloc: Global,
    event: u32,
    registration: u32,
    map: &ScopeMap,
    workers: &Workers,
    registrations: &Registrations,
    clients: &Clients,
) -> Result<Vec<Change>, NoMemory>
    requires linked { Linked map.now workers.now registrations.now clients.now }
    ensures { (rest : Rest) → IfOk result (λ changes. changes.items
        ≡ (rules.end_event
        (lent map.now workers.now registrations.now clients.now rest) event registration).changes) }
{
    let takes = takes_place(
        is_busy_in_without(event, registration, workers, registrations),
        skips_in(registration, workers, registrations),
        is_used(registration, clients),
        registration,
        registrations,
    );
    tried_changes(alloc, takes, registration, map, registrations)
}

// The durable changes where a client has left this registration.
fn left_changes(
    alloc: Global,
    client: u32,
    registration: u32,
    map: &ScopeMap,
    workers: &Workers,
    registrations: &Registrations,
    clients: &Clients,
) -> Result<Vec<Change>, NoMemory>
    requires linked { Linked map.now workers.now registrations.now clients.now }
    ensures { (rest : Rest) → registering.used_registration
        (lent map.now workers.now registrations.now clients.now rest) client ≡ Some registration
        → IfOk result (λ changes. changes.items ≡ (rules.leave
        (lent map.now workers.now registrations.now clients.now rest) client).changes) }
{
    if clients.other_users(client, registration) > 0 {
        return Ok(Vec::new(alloc));
    }
    let takes = takes_place(
        is_busy_in(registration, workers, registrations),
        skips_in(registration, workers, registrations),
        false,
        registration,
        registrations,
    );
    tried_changes(alloc, takes, registration, map, registrations)
}

// The durable changes where a client closes. It needs memory for them alone.
pub(crate) fn close_changes(
    alloc: Global,
    client: u32,
    map: &ScopeMap,
    workers: &Workers,
    registrations: &Registrations,
    clients: &Clients,
) -> Result<Vec<Change>, NoMemory>
    requires linked { Linked map.now workers.now registrations.now clients.now }
    ensures { (rest : Rest) → IfOk result (λ changes. changes.items ≡ (rules.leave
        (lent map.now workers.now registrations.now clients.now rest) client).changes) }
{
    match used_registration(client, clients) {
        Some(registration) => left_changes(
            alloc,
            client,
            registration,
            map,
            workers,
            registrations,
            clients,
        ),
        None => Ok(Vec::new(alloc)),
    }
}

// The durable changes where a worker of this registration skips waiting. It needs memory for them alone.
pub(crate) fn skip_waiting_changes(
    alloc: Global,
    registration: u32,
    worker: u32,
    map: &ScopeMap,
    workers: &Workers,
    registrations: &Registrations,
    clients: &Clients,
) -> Result<Vec<Change>, NoMemory>
    requires linked { Linked map.now workers.now registrations.now clients.now }
    requires owner { registration_of workers.now.rows worker ≡ Some registration }
    ensures { (rest : Rest) → IfOk result (λ changes. changes.items ≡ (rules.skip_waiting
        (lent map.now workers.now registrations.now clients.now rest)
        registration worker).changes) }
{
    let takes = takes_place(
        is_busy_in(registration, workers, registrations),
        will_skip(registration, worker, workers, registrations),
        is_used(registration, clients),
        registration,
        registrations,
    );
    tried_changes(alloc, takes, registration, map, registrations)
}

// That the active worker of a registration is activated.
fn activated_of(alloc: Global, row: &RegistrationRow) -> Result<Change, NoMemory>
    ensures { IfOk result (λ made. made ≡ change.Activated row.now.key row.now.scope) }
{
    Ok(Change::Activated {
        key: row.key.copy(alloc)?,
        scope: row.scope.copy(alloc)?,
    })
}

// That the waiting worker of a registration becomes the active one.
fn active_of(alloc: Global, row: &RegistrationRow) -> Result<Change, NoMemory>
    ensures { IfOk result (λ made. made ≡ change.Active row.now.key row.now.scope) }
{
    Ok(Change::Active {
        key: row.key.copy(alloc)?,
        scope: row.scope.copy(alloc)?,
    })
}

// One change more.
fn more(mut changes: Vec<Change>, change: Change) -> Result<Vec<Change>, NoMemory>
    ensures { IfOk result (λ now. now.items ≡ changes.items ++ change ∷ []) }
{
    changes.push(change)?;
    Ok(changes)
}

// The active worker of a registration that is kept is activated, and the waiting one takes its place or not.
fn row_changes(alloc: Global, takes: bool, row: &RegistrationRow) -> Result<Vec<Change>, NoMemory>
    ensures { IfOk result (λ changes. changes.items
        ≡ change.Activated row.now.key row.now.scope
        ∷ (if takes then change.Active row.now.key row.now.scope ∷ [] else [])) }
{
    let activated = one(alloc, activated_of(alloc, row)?)?;
    if takes {
        more(activated, active_of(alloc, row)?)
    } else {
        Ok(activated)
    }
}

// The active worker of a registration is activated, and the waiting one takes its place or not, where it is kept.
fn both_changes(
    alloc: Global,
    takes: bool,
    registration: u32,
    map: &ScopeMap,
    registrations: &Registrations,
) -> Result<Vec<Change>, NoMemory>
    ensures { (before after : workers_of.Table) (of_clients : clients_of.Table) (rest : Rest)
        → HasSlots before registrations.now → HasSlots after registrations.now
        → takes ≡ is_some (registering.chosen
        (lent map.now after registrations.now of_clients rest) registration)
        → IfOk result (λ changes. changes.items ≡ kept_change
        (lent map.now before registrations.now of_clients rest) registration
        (λ row. change.Activated row.key row.scope)
        ++ activation_changes
        (lent map.now after registrations.now of_clients rest) registration) }
{
    match kept_row(registration, map, registrations) {
        Some(row) => row_changes(alloc, takes, row),
        None => Ok(Vec::new(alloc)),
    }
}

// The durable changes where the activate handler of a worker ends.
fn finish_changes(
    alloc: Global,
    registration: u32,
    worker: u32,
    map: &ScopeMap,
    workers: &Workers,
    registrations: &Registrations,
    clients: &Clients,
) -> Result<Vec<Change>, NoMemory>
    requires linked { Linked map.now workers.now registrations.now clients.now }
    requires running { has_worker is_running worker workers.now.rows ≡ true }
    requires worker { has_worker (is_of_in is_activating registration) worker workers.now.rows
        ≡ true }
    ensures { (rest : Rest) → IfOk result (λ changes. changes.items ≡ (activating.finish_activate
        (lent map.now workers.now registrations.now clients.now rest)
        registration worker).changes) }
{
    let takes = takes_place(
        workers.pending(worker) > 0,
        skips_in(registration, workers, registrations),
        is_used(registration, clients),
        registration,
        registrations,
    );
    both_changes(alloc, takes, registration, map, registrations)
}

// The durable changes where the activate handler of a worker ends. It needs memory for them alone.
pub(crate) fn activated_changes(
    alloc: Global,
    worker: u32,
    map: &ScopeMap,
    workers: &Workers,
    registrations: &Registrations,
    clients: &Clients,
) -> Result<Vec<Change>, NoMemory>
    requires linked { Linked map.now workers.now registrations.now clients.now }
    requires handler { RunsWhileActivating worker workers.now.rows }
    ensures { (rest : Rest) → CountsTasks workers.now rest.tasks → IfOk result (λ changes. IfSome
        (activating.activated
        (lent map.now workers.now registrations.now clients.now rest) worker)
        (λ outcome. changes.items ≡ outcome.told.changes)) }
{
    let Some(row) = workers.row(worker) else {
        return Ok(Vec::new(alloc));
    };
    let Some(_) = ended_handler(Phase::Activate, row) else {
        return Ok(Vec::new(alloc));
    };
    finish_changes(
        alloc,
        row.registration,
        worker,
        map,
        workers,
        registrations,
        clients,
    )
}
