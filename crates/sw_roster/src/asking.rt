//! What a worker is told of the clients of a host.

ghost use Rattle.std.specs.Prelude.{◌≡◌, ◌&&◌, ◌||◌, ◌++◌, ◌∷◌, [], false, not, bytes_eq, filter, filter_map, find, if◌then◌else◌, is_some, slice_get, IfOk, OnOk};
ghost use Rattle.std.specs.List.{list_any};
ghost use Rattle.std.specs.Option.{option_copied, option_map, option_map_or, option_to_list};
ghost use Rattle.sw_reg.specs.Table.{registration_at};
ghost use Rattle.sw_roster.specs.Members as rules;
ghost use Rattle.sw_roster.specs.Members.{is_other, is_redundant, is_same, numbers_of};
ghost use Rattle.sw_rules.specs.Rows as rows;
ghost use Rattle.sw_rules.specs.Rows.{is_client, is_number};
ghost use Rattle.sw_state.specs.Hosted.{state_of};

use crate::recent::Recent;
use std::alloc::Global;
use sw_core::Core;
use sw_data::{ClientRow, NoMemory, Text, WorkerState};

// Whether a worker in this state is redundant.
fn is_redundant(state: WorkerState) -> bool
    ensures { result ≡ is_redundant state }
{
    state == WorkerState::Redundant
}

// Whether a number is there and is this one.
fn is_number(number: Option<u32>, other: u32) -> bool
    ensures { result ≡ is_number number other }
{
    match number {
        Some(number) => number == other,
        None => false,
    }
}

// Whether a worker may ask.
#[tactic(auto, using(crate::proofs::Askers::asks))]
pub(crate) fn may_ask(core: &Core, worker: u32) -> bool
    ensures { result ≡ rules.may_ask (state_of core.now) worker }
{
    match core.workers().state(worker) {
        Some(state) => !is_redundant(state),
        None => false,
    }
}

// The key of a registration.
fn key_of(core: &Core, registration: u32) -> Option<&Text>
    ensures { option_copied result ≡ option_map (λ row. row.key)
        (registration_at registration core.now.registrations.rows) }
{
    Some(&core.registrations().row(registration)?.key)
}

// The key of the registration of a worker.
fn key_of_worker(core: &Core, worker: u32) -> Option<&Text>
    ensures { option_copied result ≡ rows.key_of_worker (state_of core.now) worker }
{
    match core.workers().row(worker) {
        Some(row) => key_of(core, row.registration),
        None => None,
    }
}

// Whether a worker of a registration of this key may see a client.
fn may_see(key: Option<&Text>, client: &ClientRow) -> bool
    ensures { result ≡ (client.now.secure
        && option_map_or (λ key. bytes_eq client.now.key key) (option_copied key.entry) false) }
{
    match key {
        Some(key) => client.secure && client.key == *key,
        None => false,
    }
}

// Whether a worker may see a client.
fn is_member(core: &Core, worker: u32, client: &ClientRow) -> bool
    ensures { result ≡ rules.is_member (state_of core.now) worker client.now }
{
    may_see(key_of_worker(core, worker), client)
}

// Whether a worker asks for a client.
fn is_listed(core: &Core, worker: u32, uncontrolled: bool, client: &ClientRow) -> bool
    ensures { result ≡ rules.is_listed (state_of core.now) worker uncontrolled client.now }
{
    is_member(core, worker, client) && (uncontrolled || is_number(client.controller, worker))
}

// The number of a client that a worker may see.
pub(crate) fn got(core: &Core, client: u32, worker: u32) -> Option<u32>
    ensures { result ≡ rules.got (state_of core.now) client worker }
{
    match core.clients().row(client) {
        Some(row) if is_member(core, worker, row) => Some(client),
        _ => None,
    }
}

// Whether a worker asks for the client of a number.
#[tactic(auto, using(crate::proofs::Askers::found_kept, crate::proofs::Askers::none_found_kept))]
fn has_listed(core: &Core, worker: u32, uncontrolled: bool, client: u32) -> bool
    ensures { result ≡ is_some (find (is_client client)
        (rules.members (state_of core.now) worker uncontrolled)) }
{
    core.clients().are_apart();
    match core.clients().row(client) {
        Some(row) => is_listed(core, worker, uncontrolled, row),
        None => false,
    }
}

// Adds a number, where it is to be.
fn add_if(all: &mut Vec<u32>, number: u32, is_wanted: bool) -> Result<(), NoMemory>
    ensures { OnOk result (all.new.items
        ≡ (if is_wanted then all.old.items ++ number ∷ [] else all.old.items)) }
{
    if is_wanted {
        all.push(number)?;
    }
    Ok(())
}

// Of these clients those that a worker asks for, as they stand.
pub(crate) fn listed_of(
    core: &Core,
    alloc: Global,
    recent: &[u32],
    worker: u32,
    uncontrolled: bool,
) -> Result<Vec<u32>, NoMemory>
    ensures { IfOk result (λ all. all.items ≡ numbers_of (filter_map
        (λ number. find (is_client number) (rules.members (state_of core.now) worker uncontrolled))
        recent.now)) }
{
    let mut all = Vec::new(alloc);
    for client in recent {
        let is_wanted = has_listed(core, worker, uncontrolled, *client);
        add_if(&mut all, *client, is_wanted)?;
    }
    Ok(all)
}

// Adds the client at a place, where a worker asks for it and it has no focus.
#[tactic(auto, using(crate::proofs::Askers::one_kept))]
fn add_other(
    core: &Core,
    recent: &Recent,
    worker: u32,
    uncontrolled: bool,
    place: u32,
    all: &mut Vec<u32>,
) -> Result<(), NoMemory>
    ensures { OnOk result (all.new.items ≡ all.old.items ++ numbers_of (filter
        (is_other (state_of core.now) recent.now worker uncontrolled)
        (option_to_list (slice_get (state_of core.now).clients place)))) }
{
    match core.clients().at(place) {
        Some(row) => {
            let is_wanted = is_listed(core, worker, uncontrolled, row) && !recent.has(row.number);
            add_if(all, row.number, is_wanted)
        }
        None => Ok(()),
    }
}

// Adds the clients without a focus that a worker asks for, in order of opening.
pub(crate) fn add_others(
    core: &Core,
    recent: &Recent,
    worker: u32,
    uncontrolled: bool,
    all: &mut Vec<u32>,
) -> Result<(), NoMemory>
    ensures { OnOk result (all.new.items ≡ all.old.items
        ++ numbers_of (filter (λ row. not (list_any (is_same row.number) recent.now))
        (rules.members (state_of core.now) worker uncontrolled))) }
{
    for place in 0..core.clients().len() {
        add_other(core, recent, worker, uncontrolled, place, all)?;
    }
    Ok(())
}
