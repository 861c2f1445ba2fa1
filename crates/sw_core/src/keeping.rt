//! The kept content of the tables of a host.

ghost use Rattle.std.specs.Prelude.{◌≡◌, ◌<◌, ◌==◌, ◌++◌, ◌∷◌, [], ℕ, false, length, map, slice_index_or, IfOk, OnOk, None, Option, Some, if◌then◌else◌};
ghost use Rattle.std.specs.List.{filter_map, range_with_len};
ghost use Rattle.std.specs.Option.{option_copied, option_map_or, option_or};
ghost use Rattle.sw_client.specs.Table as clients_table;
ghost use Rattle.sw_ledgers.specs.Preloaded.{preload_of, preload_value_of};
ghost use Rattle.sw_core.specs.Keeping.{is_kept, is_kept_at, kept_numbered, kept_of, kept_registration, number_at, numbered};
ghost use Rattle.sw_rules.specs.Durable.{durable};
ghost use Rattle.sw_tables.specs.Lent.{Rest, lent};
ghost use Rattle.sw_tables.specs.Linked.{HasSlots};
ghost use Rattle.sw_worker.specs.Table.{is_activated};

use std::alloc::Global;
use sw_caches::Caches;
use sw_data::{
    Items, Kept, KeptRegistration, KeptWorker, NoMemory, RegistrationRow, Text, WorkerRow,
    WorkerState,
};
use sw_ledgers::Preloads;
use sw_reg::Registrations;
use sw_scope::ScopeMap;
use sw_worker::Workers;

// Whether a registration is kept: it is mapped, and has a waiting or an active worker. It takes no memory.
fn is_kept(row: &RegistrationRow, map: &ScopeMap) -> bool
    ensures { result ≡ is_kept map.now row.now }
{
    let mapped = match map.get(&row.key, &row.scope) {
        Some(number) => number == row.number,
        None => false,
    };
    mapped && (row.waiting.is_some() || row.active.is_some())
}

// Notes a number at a place, where the place is there and none is noted. It takes no memory.
fn note(firsts: &mut Vec<Option<u32>>, place: u32, number: u32)
    ensures noted { (asked : ℕ) → asked < length firsts.old.items
        → slice_index_or firsts.new.items asked None
        ≡ option_or (slice_index_or firsts.old.items asked None)
        (if place == asked then Some number else None) }
    ensures len { length firsts.new.items ≡ length firsts.old.items }
{
    let place = place as usize;
    if place < firsts.len() && firsts[place].is_none() {
        firsts[place] = Some(number);
    }
}

// Notes the number of a registration, where it is kept, at the place at which it got its first waiting worker. It takes
// no memory.
fn note_row(firsts: &mut Vec<Option<u32>>, row: &RegistrationRow, map: &ScopeMap)
    ensures noted { (asked : ℕ) → asked < length firsts.old.items
        → slice_index_or firsts.new.items asked None
        ≡ option_or (slice_index_or firsts.old.items asked None)
        (if is_kept_at map.now asked row.now then Some row.now.number else None) }
    ensures len { length firsts.new.items ≡ length firsts.old.items }
{
    if is_kept(row, map) {
        if let Some(place) = row.first {
            note(firsts, place, row.number);
        }
    }
}

// By place, the number of the kept registration that was the one of that place to get a waiting worker.
fn kept_numbers(
    alloc: Global,
    scopes: &ScopeMap,
    rows: &[RegistrationRow],
) -> Result<Vec<Option<u32>>, NoMemory>
    ensures { IfOk result (λ firsts. firsts.items
        ≡ map (number_at scopes.now rows.now) (range_with_len 0 (length rows.now))) }
{
    let mut firsts = vec![in alloc; None; rows.len()]?;
    for row in rows {
        note_row(&mut firsts, row, scopes);
    }
    Ok(firsts)
}

// The worker of a number, where there is one. It takes no memory.
fn numbered(number: Option<u32>, workers: &Workers) -> Option<&WorkerRow>
    ensures { option_copied result ≡ numbered workers.now.rows number }
{
    match number {
        Some(number) => workers.row(number),
        None => None,
    }
}

// What is kept of the worker of a number, where there is one.
fn kept_worker(
    alloc: Global,
    number: Option<u32>,
    workers: &Workers,
) -> Result<Option<KeptWorker>, NoMemory>
    ensures { IfOk result (λ kept. kept ≡ kept_of (numbered workers.now.rows number)) }
{
    match numbered(number, workers) {
        Some(row) => Ok(Some(KeptWorker {
            script: row.script.copy(alloc)?,
            kind: row.kind,
            body: row.body.share()?,
        })),
        None => Ok(None),
    }
}

// Whether the worker of a number is there and activated. It takes no memory.
fn is_activated(number: Option<u32>, workers: &Workers) -> bool
    ensures { result ≡ option_map_or is_activated (numbered workers.now.rows number) false }
{
    match numbered(number, workers) {
        Some(row) => row.state == WorkerState::Activated,
        None => false,
    }
}

// What is kept of a registration.
fn kept_registration(
    alloc: Global,
    row: &RegistrationRow,
    workers: &Workers,
    preloads: &Preloads,
) -> Result<KeptRegistration, NoMemory>
    ensures { IfOk result (λ kept. kept
        ≡ kept_registration workers.now.rows preloads.now.rows row.now) }
{
    Ok(KeptRegistration {
        key: row.key.copy(alloc)?,
        scope: row.scope.copy(alloc)?,
        mode: row.mode,
        waiting: kept_worker(alloc, row.waiting, workers)?,
        active: kept_worker(alloc, row.active, workers)?,
        activated: is_activated(row.active, workers),
        preload: preloads.is_on(row.number),
        preload_value: Text::of(alloc, preloads.value(row.number))?,
    })
}

// What is kept of the registration of a number, where there is one.
fn kept_numbered(
    alloc: Global,
    number: Option<u32>,
    workers: &Workers,
    registrations: &Registrations,
    preloads: &Preloads,
) -> Result<Option<KeptRegistration>, NoMemory>
    ensures { IfOk result (λ kept. kept
        ≡ kept_numbered workers.now.rows preloads.now.rows registrations.now.rows number) }
{
    let Some(number) = number else {
        return Ok(None);
    };
    match registrations.row(number) {
        Some(row) => Ok(Some(kept_registration(alloc, row, workers, preloads)?)),
        None => Ok(None),
    }
}

// Adds what is kept of the registration of a number, where there is one.
fn push_kept(
    alloc: Global,
    rows: &mut Vec<KeptRegistration>,
    number: Option<u32>,
    workers: &Workers,
    registrations: &Registrations,
    preloads: &Preloads,
) -> Result<(), NoMemory>
    ensures { OnOk result (rows.new.items ≡ rows.old.items ++ filter_map
        (kept_numbered workers.now.rows preloads.now.rows registrations.now.rows)
        (number ∷ [])) }
{
    match kept_numbered(alloc, number, workers, registrations, preloads)? {
        Some(row) => rows.push(row)?,
        None => {}
    }
    Ok(())
}

// What is kept of the registrations of these numbers.
fn kept_rows(
    alloc: Global,
    numbers: &[Option<u32>],
    workers: &Workers,
    registrations: &Registrations,
    preloads: &Preloads,
) -> Result<Vec<KeptRegistration>, NoMemory>
    ensures { IfOk result (λ rows. rows.items ≡ filter_map
        (kept_numbered workers.now.rows preloads.now.rows registrations.now.rows) numbers.now) }
{
    let mut rows = Vec::new(alloc);
    for number in numbers {
        push_kept(alloc, &mut rows, *number, workers, registrations, preloads)?;
    }
    Ok(rows)
}

// The kept content of these tables: the kept registrations in the order in which they got a waiting worker, and the
// caches. Its time is linear in the registrations and in what is kept.
pub(crate) fn kept(
    alloc: Global,
    map: &ScopeMap,
    workers: &Workers,
    registrations: &Registrations,
    caches: &Caches,
    preloads: &Preloads,
) -> Result<Kept, NoMemory>
    requires slots { HasSlots workers.now registrations.now }
    ensures { (of_clients : clients_table.Table) (rest : Rest)
        → rest.preload ≡ preload_of preloads.now.rows
        → rest.preload_value ≡ preload_value_of preloads.now.rows
        → rest.caches ≡ caches.now.rows
        → IfOk result (λ kept. kept
        ≡ durable (lent map.now workers.now registrations.now of_clients rest)) }
{
    let numbers = kept_numbers(alloc, map, registrations.rows())?;
    let rows = kept_rows(alloc, &numbers, workers, registrations, preloads)?;
    Ok(Kept {
        registrations: Items::from_vec(rows),
        caches: Items::from_vec(caches.to_kept(alloc)?),
    })
}
