//! What is found in the tables: workers by their slots, and registrations by key, scope and address.

ghost use Rattle.std.specs.Prelude.{◌≡◌, ◌<◌, All, option_and_then, option_map};
ghost use Rattle.std.specs.Option.{option_copied};
ghost use Rattle.sw_client.specs.Table as clients;
ghost use Rattle.sw_reg.specs.Table as registrations;
ghost use Rattle.sw_reg.specs.Table.{registration_at, slot_of};
ghost use Rattle.sw_rules.specs.Registrations.{used_registration};
ghost use Rattle.sw_rules.specs.Rows as rules;
ghost use Rattle.sw_tables.specs.Lent.{Rest, lent, shown_registration, shown_worker};
ghost use Rattle.sw_tables.specs.Linked.{ArePlaces, HasScopes, HasSlots, IsNoted};
ghost use Rattle.sw_scope.specs.Scopes.{Scopes, longest_front, maps};
ghost use Rattle.sw_worker.specs.Table as workers;
ghost use Rattle.sw_worker.specs.Table.{worker_at};

use std::marker::Brand;
use std::sync::ledger::{Blank, Ledger};
use sw_client::Clients;
use sw_data::{RegistrationRow, Slot, Text, WorkerRow};
use sw_reg::Registrations;
use sw_scope::laws::match_is_the_longest_front;
use sw_scope::{ScopeMap, Steps};
use sw_worker::Workers;

// The worker of a number, where there is a number.
fn numbered(number: Option<u32>, workers: &Workers) -> Option<&WorkerRow>
    ensures { option_copied result
        ≡ option_and_then (λ n. worker_at n workers.now.rows) number }
{
    match number {
        Some(number) => workers.row(number),
        None => None,
    }
}

/// The worker in a slot of a registration. It takes no memory.
pub fn slot_row<'a>(
    place: Slot,
    registration: u32,
    workers: &'a Workers,
    registrations: &Registrations,
) -> Option<&'a WorkerRow>
    requires { HasSlots workers.now registrations.now }
    ensures row { (scopes : Scopes) (of_clients : clients.Table) (rest : Rest)
        → option_map shown_worker (option_copied result)
        ≡ rules.slot_worker (lent scopes workers.now registrations.now of_clients rest)
        place registration }
    ensures number { option_map (λ row. row.number) (option_copied result)
        ≡ slot_of place registration registrations.now.rows }
{
    numbered(registrations.slot(registration, place), workers)
}

/// The newest worker of a registration. It takes no memory.
pub fn newest_row<'a>(
    registration: u32,
    workers: &'a Workers,
    registrations: &Registrations,
) -> Option<&'a WorkerRow>
    requires { HasSlots workers.now registrations.now }
    ensures { (scopes : Scopes) (of_clients : clients.Table) (rest : Rest)
        → option_map shown_worker (option_copied result)
        ≡ rules.newest_worker (lent scopes workers.now registrations.now of_clients rest)
        registration }
{
    numbered(registrations.newest(registration), workers)
}

// The registration of a number, where there is a number.
fn registered(number: Option<u32>, registrations: &Registrations) -> Option<&RegistrationRow>
    ensures { option_copied result
        ≡ option_and_then (λ n. registration_at n registrations.now.rows) number }
{
    match number {
        Some(number) => registrations.row(number),
        None => None,
    }
}

/// The mapped registration of a key and a scope. It takes no memory.
pub fn mapped_row<'a>(
    key: &Text,
    scope: &Text,
    map: &ScopeMap,
    registrations: &'a Registrations,
) -> Option<&'a RegistrationRow>
    requires scopes { HasScopes map.now registrations.now }
    requires places { ArePlaces (λ row. row.number) registrations.now.rows }
    ensures row { (of_workers : workers.Table) (of_clients : clients.Table) (rest : Rest)
        → option_map (shown_registration map.now rest) (option_copied result)
        ≡ rules.mapped_registration (lent map.now of_workers registrations.now of_clients rest)
        key.now scope.now }
    ensures number { option_map (λ row. row.number) (option_copied result)
        ≡ maps map.now key.now scope.now }
{
    registered(map.get(key, scope), registrations)
}

// Whether a number is there and is this one.
pub(crate) fn is_number(number: Option<u32>, other: u32) -> bool
    ensures { result ≡ rules.is_number number other }
{
    match number {
        Some(number) => number == other,
        None => false,
    }
}

/// Whether a registration is mapped. It takes no memory.
pub fn is_mapped(registration: u32, map: &ScopeMap, registrations: &Registrations) -> bool
    requires { ArePlaces (λ row. row.number) registrations.now.rows }
    ensures { (of_workers : workers.Table) (of_clients : clients.Table) (rest : Rest)
        → result
        ≡ rules.is_mapped (lent map.now of_workers registrations.now of_clients rest)
        registration }
{
    match registrations.row(registration) {
        Some(row) => is_number(map.get(&row.key, &row.scope), registration),
        None => false,
    }
}

// The registration of the longest scope of a key that an address starts with, by this counter.
fn longest<L: Ledger>(key: &Text, address: &[u8], map: &ScopeMap, blank: Blank) -> Option<u32>
    requires name { blank.name ≡ L.name }
    requires parts { blank.parts ≡ L.parts }
    requires one { 0 < L.parts }
    ensures { result ≡ longest_front (maps map.now key.now) address.now }
{
    let mut steps = Steps::<L>::new(blank);
    map.longest(key, address, &mut steps)
}

/// The registration that an address of a key matches. It takes no memory.
pub fn matched(
    key: &Text,
    address: &[u8],
    map: &ScopeMap,
    registrations: &Registrations,
) -> Option<u32>
    requires scopes { HasScopes map.now registrations.now }
    requires places { ArePlaces (λ row. row.number) registrations.now.rows }
    ensures { (of_workers : workers.Table) (of_clients : clients.Table) (rest : Rest)
        → result
        ≡ rules.matched_registration_number (lent map.now of_workers registrations.now of_clients rest)
        key.now address.now }
{
    match_is_the_longest_front();
    longest::<Brand>(key, address, map, Blank::new(1))
}

/// The registration that a client uses. It takes no memory.
pub fn used_registration(client: u32, clients: &Clients) -> Option<u32>
    ensures { (scopes : Scopes) (of_workers : workers.Table)
        (of_registrations : registrations.Table) (rest : Rest)
        → All (IsNoted of_workers) clients.now.rows
        → result ≡ used_registration (lent scopes of_workers of_registrations clients.now rest)
        client }
{
    clients.registration(client)
}
