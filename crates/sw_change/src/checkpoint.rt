//! The changes that make a kept content of nothing.

ghost use Rattle.std.specs.Prelude.{◌≡◌, ◌++◌, flat_map, map, IfOk, OnOk};
ghost use Rattle.sw_data.specs.declared.storage.KeptCache.{KeptCache};
ghost use Rattle.sw_rules.specs.Durable.{active_changes, cache_changes, checkpoint_changes, pair_change, preload_changes, registration_changes, waiting_changes};

use crate::registration::copy_worker;
use std::alloc::Global;
use sw_data::{
    Change, Items, Kept, KeptCache, KeptRegistration, KeptWorker, NoMemory, Op, Request, Response,
};

// Adds the change that gives a registration this waiting worker, where there is one.
fn push_waiting(
    changes: &mut Vec<Change>,
    alloc: Global,
    row: &KeptRegistration,
    worker: &Option<KeptWorker>,
) -> Result<(), NoMemory>
    ensures { OnOk result (changes.new.items
        ≡ changes.old.items ++ waiting_changes row.now worker.now) }
{
    match worker {
        Some(worker) => changes.push(Change::Waiting {
            key: row.key.copy(alloc)?,
            scope: row.scope.copy(alloc)?,
            mode: row.mode,
            worker: copy_worker(alloc, worker)?,
        })?,
        None => {}
    }
    Ok(())
}

// Adds the changes that make the waiting worker the active one, and activated, where it is.
fn push_active(
    changes: &mut Vec<Change>,
    alloc: Global,
    row: &KeptRegistration,
) -> Result<(), NoMemory>
    ensures { OnOk result (changes.new.items ≡ changes.old.items ++ active_changes row.now) }
{
    if row.active.is_none() {
        return Ok(());
    }
    changes.push(Change::Active {
        key: row.key.copy(alloc)?,
        scope: row.scope.copy(alloc)?,
    })?;
    if row.activated {
        changes.push(Change::Activated {
            key: row.key.copy(alloc)?,
            scope: row.scope.copy(alloc)?,
        })?;
    }
    Ok(())
}

// Adds the change of the navigation preload, where it isn't off with the value `true`.
fn push_preload(
    changes: &mut Vec<Change>,
    alloc: Global,
    row: &KeptRegistration,
) -> Result<(), NoMemory>
    ensures { OnOk result (changes.new.items ≡ changes.old.items ++ preload_changes row.now) }
{
    if !row.preload && row.preload_value.as_str() == "true" {
        return Ok(());
    }
    changes.push(Change::Preload {
        key: row.key.copy(alloc)?,
        scope: row.scope.copy(alloc)?,
        on: row.preload,
        value: row.preload_value.copy(alloc)?,
    })?;
    Ok(())
}

// Adds the changes that make a registration.
fn push_registration(
    changes: &mut Vec<Change>,
    alloc: Global,
    row: &KeptRegistration,
) -> Result<(), NoMemory>
    ensures { OnOk result (changes.new.items ≡ changes.old.items ++ registration_changes row.now) }
{
    push_waiting(changes, alloc, row, &row.active)?;
    push_active(changes, alloc, row)?;
    push_waiting(changes, alloc, row, &row.waiting)?;
    push_preload(changes, alloc, row)
}

// Adds the changes that make these registrations.
fn push_registrations(
    changes: &mut Vec<Change>,
    alloc: Global,
    rows: &[KeptRegistration],
) -> Result<(), NoMemory>
    ensures { OnOk result (changes.new.items
        ≡ changes.old.items ++ flat_map registration_changes rows.now) }
{
    for row in rows {
        push_registration(changes, alloc, row)?;
    }
    Ok(())
}

// The batch that puts one pair.
fn put_of(alloc: Global, cache: &KeptCache, pair: &(Request, Response)) -> Result<Change, NoMemory>
    ensures { IfOk result (λ change. change ≡ pair_change cache.now pair.now) }
{
    let mut operations = Items::new(alloc);
    operations.push(Op::Put {
        request: pair.0.copy(alloc)?,
        response: pair.1.copy(alloc)?,
    })?;
    Ok(Change::CacheOps {
        key: cache.key.copy(alloc)?,
        name: cache.name.copy(alloc)?,
        operations,
    })
}

// Adds a batch for each of these pairs of a cache.
fn push_pairs(
    changes: &mut Vec<Change>,
    alloc: Global,
    cache: &KeptCache,
    pairs: &[(Request, Response)],
) -> Result<(), NoMemory>
    ensures { OnOk result (changes.new.items
        ≡ changes.old.items ++ map (pair_change cache.now) pairs.now) }
{
    for pair in pairs {
        changes.push(put_of(alloc, cache, pair)?)?;
    }
    Ok(())
}

// Adds the changes that make a cache.
fn push_cache(changes: &mut Vec<Change>, alloc: Global, cache: &KeptCache) -> Result<(), NoMemory>
    ensures { OnOk result (changes.new.items ≡ changes.old.items ++ cache_changes cache.now) }
{
    changes.push(Change::CacheNew {
        key: cache.key.copy(alloc)?,
        name: cache.name.copy(alloc)?,
    })?;
    push_pairs(changes, alloc, cache, cache.pairs.as_slice())
}

// Adds the changes that make these caches.
fn push_caches(
    changes: &mut Vec<Change>,
    alloc: Global,
    caches: &[KeptCache],
) -> Result<(), NoMemory>
    ensures { OnOk result (changes.new.items
        ≡ changes.old.items ++ flat_map cache_changes caches.now) }
{
    for cache in caches {
        push_cache(changes, alloc, cache)?;
    }
    Ok(())
}

/// The changes of a checkpoint: they make this content of nothing, where changes made it of nothing.
pub fn changes_of(alloc: Global, kept: &Kept) -> Result<Vec<Change>, NoMemory>
    ensures { IfOk result (λ changes. changes.items ≡ checkpoint_changes kept.now) }
{
    let mut changes = Vec::new(alloc);
    push_registrations(&mut changes, alloc, kept.registrations.as_slice())?;
    push_caches(&mut changes, alloc, kept.caches.as_slice())?;
    Ok(changes)
}
