//! What pages look up: registrations by address, and what their promises came to.

ghost use Rattle.std.specs.Prelude.{◌≡◌, ◌++◌, ℕ, None, Some, IfOk, IfSome, IsSome, OnOk, filter, map, option_map};
ghost use Rattle.std.specs.Option.{option_to_list};
ghost use Rattle.sw_data.specs.declared.answers.Fault.TheVariants as fault;
ghost use Rattle.sw_data.specs.declared.events.Who.TheVariants as maker;
ghost use Rattle.sw_ledgers.specs.Promised.{meaning};
ghost use Rattle.sw_pages.specs.Active.{active_match};
ghost use Rattle.sw_pages.specs.Acts.{Gives, MayGive, outcome_of};
ghost use Rattle.sw_pages.specs.Fits.{FitsHost};
ghost use Rattle.sw_pages.specs.Listed.{is_listed};
ghost use Rattle.sw_reg.specs.Table.{registration_at};
ghost use Rattle.sw_rules.specs.Clients as rules;
ghost use Rattle.sw_rules.specs.Jobs.{awaited_value, promised_value};
ghost use Rattle.sw_rules.specs.Rows.{active_worker_number};
ghost use Rattle.sw_rules.specs.Told as told;
ghost use Rattle.sw_state.specs.Hosted.{IsOwned, state_of};
ghost use Rattle.sw_tables.specs.Linked.{ArePlaces};

use crate::worked::{PageAct, Worked, answered};
use std::alloc::Global;
use sw_data::{
    Answer, Cause, ClientRow, Fault, Items, NoMemory, RegistrationRow, SecurityCause, Settlement,
    Slot, Text,
};
use sw_ledgers::Awaited;
use sw_reg::Registrations;
use sw_scope::ScopeMap;
use sw_state::HostTables;
use sw_url::{UrlFault, resolve, same_origin};

// A TypeError of this cause, which leaves all as it is.
pub(crate) fn refused(cause: Cause) -> Worked
    ensures { result ≡ record {
      answer = Answer.Fault (fault.TypeError cause None);
      act = PageAct.Nothing;
      awaited = None;
    } }
{
    answered(Answer::Fault(Fault::TypeError { cause, index: None }))
}

// The active worker of a registration, with that registration.
fn active_of(host: &HostTables, registration: u32) -> Option<(u32, u32)>
    ensures found { result ≡ option_map (λ worker. (worker, registration))
        (active_worker_number (state_of host.now) registration) }
    ensures owner { IfSome result (IsOwned host.now) }
{
    match host.slot_row(Slot::Active, registration) {
        Some(row) => Some((row.number, registration)),
        None => None,
    }
}

// The active worker of the registration that an address of a key matches, with that registration.
pub(crate) fn active_at(host: &HostTables, key: &Text, address: &[u8]) -> Option<(u32, u32)>
    ensures found { result ≡ active_match (state_of host.now) key.now address.now }
    ensures owner { IfSome result (IsOwned host.now) }
{
    match host.matched(key, address) {
        Some(registration) => active_of(host, registration),
        None => None,
    }
}

/// The registration that a client's address matches, once it has an active worker, as an answer. It takes no memory.
pub fn ready_answer(host: &HostTables, client: u32) -> Option<Answer>
    ensures { option_map (told.answered (state_of host.now)) result
        ≡ rules.ready (state_of host.now) client }
{
    let Some(row) = host.client_row(client) else {
        return Some(Answer::NoClient);
    };
    match active_at(host, &row.key, row.url.as_bytes()) {
        Some(found) => Some(Answer::Registration(found.1)),
        None => None,
    }
}

/// The registration that a client's address matches, which has an active worker (Service Workers,
/// ServiceWorkerContainer, "ready"). It takes no memory.
pub fn ready(host: &HostTables, client: u32) -> Worked
    requires { IsSome (rules.ready (state_of host.now) client) }
    ensures fits { FitsHost result host.now }
    ensures gives { MayGive (λ state who. rules.ready state client) result host.now }
{
    answered(ready_answer(host, client).unwrap())
}

// The answer of a registration, where there is one.
fn registration_or_undefined(registration: Option<u32>) -> Answer
    ensures { result ≡ rules.registration_or_undefined registration }
{
    match registration {
        Some(number) => Answer::Registration(number),
        None => Answer::Undefined,
    }
}

// The registration that an address matches, of a client of its origin.
fn matched_at(
    host: &HostTables,
    alloc: Global,
    row: &ClientRow,
    url: &Text,
) -> Result<Worked, NoMemory>
    ensures fits { IfOk result (λ worked. FitsHost worked host.now) }
    ensures gives { IfOk result (λ worked. Gives (λ state who.
        rules.registration_at state row.now url.now) worked host.now) }
{
    if same_origin(alloc, url, &row.url)? {
        let found = host.matched(&row.key, url.as_bytes());
        Ok(answered(registration_or_undefined(found)))
    } else {
        Ok(answered(Answer::Fault(Fault::SecurityError(SecurityCause::Origin))))
    }
}

/// The registration that an address matches, its text being parsed against the client's address (Service Workers,
/// ServiceWorkerContainer, "getRegistration()").
pub fn registration_at(
    host: &HostTables,
    alloc: Global,
    client: u32,
    url: &Text,
) -> Result<Worked, NoMemory>
    ensures fits { IfOk result (λ worked. FitsHost worked host.now) }
    ensures gives { IfOk result (λ worked. Gives (λ state who.
        rules.get_registration state client url.now) worked host.now) }
{
    let Some(row) = host.client_row(client) else {
        return Ok(answered(Answer::NoClient));
    };
    match resolve(alloc, url, &row.url) {
        Ok(url) => matched_at(host, alloc, row, &url),
        Err(UrlFault::NoMemory) => Err(NoMemory),
        Err(_) => Ok(refused(Cause::Unparsed)),
    }
}

// Whether a registration is mapped, and of this key.
fn is_listed(row: &RegistrationRow, key: &Text, map: &ScopeMap) -> bool
    ensures { result ≡ is_listed map.now key.now row.now }
{
    match map.get(&row.key, &row.scope) {
        Some(number) => number == row.number && row.key == *key,
        None => false,
    }
}

// The number of a registration is added where it is mapped and of this key.
fn add_listed(
    found: &mut Vec<u32>,
    number: u32,
    key: &Text,
    scopes: &ScopeMap,
    registrations: &Registrations,
) -> Result<(), NoMemory>
    ensures { OnOk result (found.new.items ≡ found.old.items ++ map (λ row. row.number)
        (filter (is_listed scopes.now key.now)
        (option_to_list (registration_at number registrations.now.rows)))) }
{
    if let Some(row) = registrations.row(number) {
        if is_listed(row, key, scopes) {
            found.push(row.number)?;
        }
    }
    Ok(())
}

// The numbers of the mapped registrations of a key.
fn numbers_of(
    alloc: Global,
    key: &Text,
    scopes: &ScopeMap,
    registrations: &Registrations,
) -> Result<Vec<u32>, NoMemory>
    requires { ArePlaces (λ row. row.number) registrations.now.rows }
    ensures { IfOk result (λ found. found.items ≡ map (λ row. row.number)
        (filter (is_listed scopes.now key.now) registrations.now.rows)) }
{
    let Ok(count) = u32::try_from(registrations.len()) else {
        return Err(NoMemory);
    };
    let mut found = Vec::new(alloc);
    for number in 0..count {
        add_listed(&mut found, number, key, scopes, registrations)?;
    }
    Ok(found)
}

/// The mapped registrations of a client's key (Service Workers, ServiceWorkerContainer, "getRegistrations()").
pub fn registrations_of(host: &HostTables, alloc: Global, client: u32) -> Result<Worked, NoMemory>
    ensures fits { IfOk result (λ worked. FitsHost worked host.now) }
    ensures gives { IfOk result (λ worked. Gives (λ state who.
        rules.get_registrations state client) worked host.now) }
{
    let Some(row) = host.client_row(client) else {
        return Ok(answered(Answer::NoClient));
    };
    let found = numbers_of(alloc, &row.key, &host.map, &host.registrations)?;
    Ok(answered(Answer::Registrations(Items::from_vec(found))))
}

// The value of what a promise waits for, where it has one.
fn value_of(host: &HostTables, awaited: Awaited) -> Option<Settlement>
    ensures { result ≡ awaited_value (state_of host.now) (meaning awaited) }
{
    match awaited {
        Awaited::Value(value) => Some(value),
        Awaited::Job(job) => host.queues.row(job)?.settled,
        Awaited::Task(task) => host.tasks.row(task)?.settled,
    }
}

/// The value of the promise of an action of a lane. None where it has not settled, and where there is no such promise. It
/// takes no memory.
pub fn promised_value(host: &HostTables, lane: u32, of: u32) -> Option<Settlement>
    ensures { result ≡ promised_value (state_of host.now) lane of }
{
    value_of(host, host.promises.awaited(lane, of)?)
}

// The answer of the value of a promise.
fn settlement_answer(value: Settlement) -> Answer
    ensures { result ≡ rules.settlement_answer value }
{
    match value {
        Settlement::Done => Answer::Ok,
        Settlement::Registration(number) => Answer::Registration(number),
        Settlement::Truth(truth) => Answer::Truth(truth),
        Settlement::Fault(why) => Answer::Fault(why),
    }
}

/// The value of the promise of an action of this lane, which has settled. It takes no memory.
pub fn await_promise(host: &HostTables, lane: u32, of: u32) -> Worked
    requires { (at : ℕ) → IsSome (rules.await (state_of host.now) (maker.Lane lane at) of) }
    ensures fits { FitsHost result host.now }
    ensures gives { (at : ℕ) → rules.await (state_of host.now) (maker.Lane lane at) of
        ≡ Some (outcome_of (maker.Lane lane at) result (state_of host.now)) }
{
    answered(settlement_answer(promised_value(host, lane, of).unwrap()))
}
