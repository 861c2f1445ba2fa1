//! The registrations that a claim activates, found before it (Service Workers, Clients, "claim()").

ghost use Rattle.std.specs.Prelude.{◌≡◌, ◌++◌, IfOk, IfSome, OnOk, Some, flat_map, is_some, option_to_list};
ghost use Rattle.std.specs.List.{list_any};
ghost use Rattle.sw_activate.specs.Claiming.{activated_by, activated_in, activation_change, claimed};
ghost use Rattle.sw_activate.specs.Names.{numbers_of};
ghost use Rattle.sw_client.specs.Table as clients_table;
ghost use Rattle.sw_reg.specs.Table as registrations_table;
ghost use Rattle.sw_rules.specs.Clients as rules;
ghost use Rattle.sw_rules.specs.Rows.{worker_row};
ghost use Rattle.sw_scope.specs.Scopes.{Scopes};
ghost use Rattle.sw_tables.specs.Lent.{Rest, lent};
ghost use Rattle.sw_tables.specs.Linked.{Linked, registration_of};

use crate::claims::{claim_clients, is_active};
use std::alloc::Global;
use sw_client::Clients;
use sw_data::{Items, NoMemory, Notice, WorkerState};
use sw_reg::Registrations;
use sw_rules::Notices;
use sw_scope::ScopeMap;
use sw_worker::Workers;

// What the claim of all clients by a worker of a registration would tell: it is done on copies of the tables.
fn told(
    alloc: Global,
    worker: u32,
    registration: u32,
    map: &ScopeMap,
    workers: &Workers,
    registrations: &Registrations,
    clients: &Clients,
) -> Result<Items<Notice>, NoMemory>
    requires linked { Linked map.now workers.now registrations.now clients.now }
    requires owner { registration_of workers.now.rows worker ≡ Some registration }
    ensures { (rest : Rest) → IfOk result (λ notices. notices ≡ (rules.claim_clients
        (lent map.now workers.now registrations.now clients.now rest) worker registration
        (numbers_of clients.now)).notices) }
{
    let mut notices = Notices::with_room(alloc, 6 * clients.len() as usize)?;
    let mut workers = workers.copy(alloc)?;
    let mut registrations = registrations.copy(alloc)?;
    let mut clients = clients.copy(alloc)?;
    claim_clients(
        worker,
        registration,
        map,
        &mut workers,
        &mut registrations,
        &mut clients,
        &mut notices,
    );
    Ok(notices.into_items())
}

// The registration of a worker.
fn registration_of(worker: u32, workers: &Workers) -> Option<u32>
    ensures { result ≡ registration_of workers.now.rows worker }
{
    match workers.row(worker) {
        Some(row) => Some(row.registration),
        None => None,
    }
}

// The registration of a worker that a notice makes the active one.
fn activated_by(notice: Notice, workers: &Workers) -> Option<u32>
    ensures { (scopes : Scopes) (of_registrations : registrations_table.Table)
        (of_clients : clients_table.Table) (rest : Rest) → result ≡ activated_by
        (lent scopes workers.now of_registrations of_clients rest) notice }
{
    match notice {
        Notice::Worker {
            worker,
            state: WorkerState::Activating,
        } => registration_of(worker, workers),
        _ => None,
    }
}

// Adds a number, where there is one.
fn push_some(numbers: &mut Vec<u32>, number: Option<u32>) -> Result<(), NoMemory>
    ensures { OnOk result (numbers.new.items ≡ numbers.old.items ++ option_to_list number) }
{
    if let Some(number) = number {
        numbers.push(number)?;
    }
    Ok(())
}

// The registrations whose waiting worker became the active one, by what was told.
fn activated_in(alloc: Global, notices: &[Notice], workers: &Workers) -> Result<Vec<u32>, NoMemory>
    ensures { (scopes : Scopes) (of_registrations : registrations_table.Table)
        (of_clients : clients_table.Table) (rest : Rest) → IfOk result (λ numbers. numbers.items
        ≡ activated_in (lent scopes workers.now of_registrations of_clients rest) notices.now) }
{
    let mut numbers = Vec::new(alloc);
    for notice in notices {
        push_some(&mut numbers, activated_by(*notice, workers))?;
    }
    Ok(numbers)
}

// Whether a registration has a waiting worker. It takes no memory.
fn any_waits(registrations: &Registrations) -> bool
    ensures { result ≡ list_any (λ row. is_some row.waiting) registrations.now.rows }
{
    registrations.rows().iter().any(|row| row.waiting.is_some())
}

// The registrations that the claim of all clients by a worker of a registration activates: none where no worker waits, and
// then nothing is copied.
fn claimed_by(
    alloc: Global,
    worker: u32,
    registration: u32,
    map: &ScopeMap,
    workers: &Workers,
    registrations: &Registrations,
    clients: &Clients,
) -> Result<Vec<u32>, NoMemory>
    requires linked { Linked map.now workers.now registrations.now clients.now }
    requires owner { registration_of workers.now.rows worker ≡ Some registration }
    ensures { (rest : Rest) → IfOk result (λ numbers. numbers.items ≡ activated_in
        (lent map.now workers.now registrations.now clients.now rest)
        (rules.claim_clients (lent map.now workers.now registrations.now clients.now rest)
        worker registration (numbers_of clients.now)).notices) }
{
    if !any_waits(registrations) {
        return Ok(Vec::new(alloc));
    }
    let notices = told(
        alloc,
        worker,
        registration,
        map,
        workers,
        registrations,
        clients,
    )?;
    activated_in(alloc, notices.as_slice(), workers)
}

/// The registrations that a claim by this worker would activate now, in that order; none where the worker isn't active
/// (Service Workers, Clients, "claim()"). A registration is activated where its last client is claimed and its waiting
/// worker then becomes the active one. Nothing changes: where a worker waits, the claim is done on copies of the tables,
/// in time and memory that grow with the numbers of workers, registrations and clients, and with their addresses, keys and
/// scopes; the workers' bodies and handlers are shared. Where none waits, it takes no memory, and time in the registrations.
pub fn claimed(
    alloc: Global,
    worker: u32,
    map: &ScopeMap,
    workers: &Workers,
    registrations: &Registrations,
    clients: &Clients,
) -> Result<Vec<u32>, NoMemory>
    requires linked { Linked map.now workers.now registrations.now clients.now }
    ensures numbers { (rest : Rest) → IfOk result (λ numbers. numbers.items ≡ claimed
        (lent map.now workers.now registrations.now clients.now rest) worker) }
    ensures changes { (rest : Rest) → IfOk result (λ numbers. IfSome
        (worker_row (lent map.now workers.now registrations.now clients.now rest) worker) (λ row.
        flat_map (activation_change (lent map.now workers.now registrations.now clients.now rest))
        numbers.items ≡ (rules.claim_of
        (lent map.now workers.now registrations.now clients.now rest) row).told.changes)) }
{
    match workers.row(worker) {
        Some(row) => {
            if !is_active(row.state) {
                return Ok(Vec::new(alloc));
            }
            claimed_by(
                alloc,
                worker,
                row.registration,
                map,
                workers,
                registrations,
                clients,
            )
        }
        None => Ok(Vec::new(alloc)),
    }
}
