//! The claim of clients (Service Workers, Clients, "claim()").

ghost use Rattle.std.specs.Prelude.{◌≡◌, ◌+◌, ◌*◌, ◌≤◌, ◌<◌, ℕ, true, false, length, not, ◌&&◌, get_or, Some, IfSome};
ghost use Rattle.std.specs.Option.{option_map_or};
ghost use Rattle.sw_activate.specs.Answers.{claim_answer};
ghost use Rattle.sw_activate.specs.Names.{KeepNames, numbers_of};
ghost use Rattle.sw_rules.specs.Clients as rules;
ghost use Rattle.sw_rules.specs.Noticing.{Did};
ghost use Rattle.sw_rules.specs.Rows as rows_of;
ghost use Rattle.sw_tables.specs.Happened.{Happened, KeepCounts};
ghost use Rattle.sw_tables.specs.Lent.{Rest, lent};
ghost use Rattle.sw_tables.specs.Linked.{ArePlaces, HasScopes, Linked, registration_of};
ghost use Rattle.sw_worker.specs.Table as workers_of;
ghost use Rattle.sw_worker.specs.Table.{is_there};

use crate::clients::unload_client;
use sw_client::Clients;
use sw_data::{ClientRow, WorkerState};
use sw_queue::Queues;
use sw_reg::Registrations;
use sw_rules::Notices;
use sw_scope::ScopeMap;
use sw_tables::{NotNow, matched, take_control};
use sw_worker::Workers;

// Whether a number is there and is this one.
fn is_number(number: Option<u32>, other: u32) -> bool
    ensures { result ≡ rows_of.is_number number other }
{
    match number {
        Some(number) => number == other,
        None => false,
    }
}

// Whether a worker of a registration claims a client that matches this registration.
fn claims_row(worker: u32, registration: u32, row: &ClientRow, matched: Option<u32>) -> bool
    ensures { result ≡ (row.now.secure && rows_of.is_number matched registration
        && not (rows_of.is_number row.now.controller worker)) }
{
    row.secure && is_number(matched, registration) && !is_number(row.controller, worker)
}

/// Whether a worker of a registration claims a client. It takes no memory.
pub fn claims_client(
    worker: u32,
    registration: u32,
    client: u32,
    map: &ScopeMap,
    registrations: &Registrations,
    clients: &Clients,
) -> bool
    requires scopes { HasScopes map.now registrations.now }
    requires places { ArePlaces (λ row. row.number) registrations.now.rows }
    ensures { (of_workers : workers_of.Table) (rest : Rest) → result ≡ option_map_or
        (rules.claims (lent map.now of_workers registrations.now clients.now rest)
        worker registration)
        (rows_of.client_row (lent map.now of_workers registrations.now clients.now rest) client)
        false }
{
    match clients.row(client) {
        Some(row) => {
            let found = matched(&row.key, row.url.as_bytes(), map, registrations);
            claims_row(worker, registration, row, found)
        }
        None => false,
    }
}

// One client is claimed, where it is to be: it leaves its registration, and gets the worker as controller.
fn claim_client(
    client: u32,
    worker: u32,
    registration: u32,
    map: &ScopeMap,
    workers: &mut Workers,
    registrations: &mut Registrations,
    clients: &mut Clients,
    notices: &mut Notices,
)
    requires linked { Linked map.now workers.old registrations.old clients.old }
    requires owner { registration_of workers.old.rows worker ≡ Some registration }
    requires room { 6 ≤ notices.old.spare }
    ensures did { (rest : Rest) → Did (rules.claim_client
        (lent map.now workers.old registrations.old clients.old rest) worker registration client)
        notices.old notices.new
        (lent map.now workers.new registrations.new clients.new rest) }
    ensures linked { Linked map.now workers.new registrations.new clients.new }
    ensures counts { KeepCounts workers.old workers.new }
    ensures names { KeepNames workers.old registrations.old clients.old
        workers.new registrations.new clients.new }
    ensures room { notices.old.spare ≤ notices.new.spare + 6 }
{
    if !claims_client(worker, registration, client, map, registrations, clients) {
        return;
    }
    unload_client(client, map, workers, registrations, clients, notices);
    take_control(client, worker, registration, clients, notices);
}

// The client at a place is claimed, where it is to be.
fn claim_at(
    place: u32,
    worker: u32,
    registration: u32,
    map: &ScopeMap,
    workers: &mut Workers,
    registrations: &mut Registrations,
    clients: &mut Clients,
    notices: &mut Notices,
)
    requires place { place < length clients.old.rows }
    requires linked { Linked map.now workers.old registrations.old clients.old }
    requires owner { registration_of workers.old.rows worker ≡ Some registration }
    requires room { 6 ≤ notices.old.spare }
    ensures did { (rest : Rest) (d : ℕ) → Did (rules.claim_client
        (lent map.now workers.old registrations.old clients.old rest) worker registration
        (get_or (numbers_of clients.old) place d))
        notices.old notices.new
        (lent map.now workers.new registrations.new clients.new rest) }
    ensures linked { Linked map.now workers.new registrations.new clients.new }
    ensures counts { KeepCounts workers.old workers.new }
    ensures names { KeepNames workers.old registrations.old clients.old
        workers.new registrations.new clients.new }
    ensures room { notices.old.spare ≤ notices.new.spare + 6 }
{
    match clients.at(place) {
        Some(row) => {
            let client = row.number;
            claim_client(
                client,
                worker,
                registration,
                map,
                workers,
                registrations,
                clients,
                notices,
            );
        }
        None => {}
    }
}

// Clients are claimed, in order of opening.
pub(crate) fn claim_clients(
    worker: u32,
    registration: u32,
    map: &ScopeMap,
    workers: &mut Workers,
    registrations: &mut Registrations,
    clients: &mut Clients,
    notices: &mut Notices,
)
    requires linked { Linked map.now workers.old registrations.old clients.old }
    requires owner { registration_of workers.old.rows worker ≡ Some registration }
    requires room { 6 * length clients.old.rows ≤ notices.old.spare }
    ensures did { (rest : Rest) → Did (rules.claim_clients
        (lent map.now workers.old registrations.old clients.old rest) worker registration
        (numbers_of clients.old))
        notices.old notices.new
        (lent map.now workers.new registrations.new clients.new rest) }
    ensures linked { Linked map.now workers.new registrations.new clients.new }
    ensures counts { KeepCounts workers.old workers.new }
{
    for place in 0..clients.len() {
        claim_at(
            place,
            worker,
            registration,
            map,
            workers,
            registrations,
            clients,
            notices,
        );
    }
}

/// An active worker claims the clients that match its registration, in order of opening; the answer is whether the
/// worker is active. It takes no memory.
pub fn claim(
    worker: u32,
    map: &mut ScopeMap,
    _queues: &mut Queues,
    workers: &mut Workers,
    registrations: &mut Registrations,
    clients: &mut Clients,
    notices: &mut Notices,
) -> Result<bool, NotNow>
    requires linked { Linked map.old workers.old registrations.old clients.old }
    requires there { is_there worker workers.old.rows ≡ true }
    requires room { 6 * length clients.old.rows ≤ notices.old.spare }
    ensures did { (rest : Rest) → IfSome
        (rows_of.worker_row (lent map.old workers.old registrations.old clients.old rest) worker)
        (λ row. Happened
        (Some (rules.claim_of (lent map.old workers.old registrations.old clients.old rest) row))
        (claim_answer result) notices.old notices.new
        (lent map.old workers.old registrations.old clients.old rest)
        (lent map.new workers.new registrations.new clients.new rest)) }
    ensures linked { Linked map.new workers.new registrations.new clients.new }
    ensures counts { KeepCounts workers.old workers.new }
    ensures queues { _queues.new ≡ _queues.old }
{
    match workers.row(worker) {
        Some(row) => {
            if !is_active(row.state) {
                return Ok(false);
            }
            let registration = row.registration;
            claim_clients(
                worker,
                registration,
                map,
                workers,
                registrations,
                clients,
                notices,
            );
            Ok(true)
        }
        None => Err(NotNow),
    }
}

// Whether a worker in this state is the active one.
pub(crate) fn is_active(state: WorkerState) -> bool
    ensures { result ≡ rows_of.is_active state }
{
    matches!(state, WorkerState::Activating | WorkerState::Activated)
}
