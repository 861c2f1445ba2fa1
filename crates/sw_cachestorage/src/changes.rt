//! The durable changes of the actions on caches.

ghost use Rattle.std.specs.Prelude.{◌≡◌, ◌∷◌, [], IfOk};
ghost use Rattle.sw_data.specs.declared.storage.Change.TheVariants as change;
ghost use Rattle.sw_rules.specs.Caching.{batch_changes};

use std::alloc::Global;
use sw_data::{Change, Items, NoMemory, Op, Text, copy_ops};

// One change.
fn one(alloc: Global, change: Change) -> Result<Items<Change>, NoMemory>
    ensures { IfOk result (λ changes. changes ≡ change ∷ []) }
{
    let mut changes = Items::new(alloc);
    changes.push(change)?;
    Ok(changes)
}

/// A cache was made.
pub fn made(alloc: Global, key: &Text, name: &Text) -> Result<Items<Change>, NoMemory>
    ensures { IfOk result (λ changes. changes ≡ change.CacheNew key.now name.now ∷ []) }
{
    let key = key.copy(alloc)?;
    let name = name.copy(alloc)?;
    one(alloc, Change::CacheNew { key, name })
}

/// A cache was removed.
pub fn dropped(alloc: Global, key: &Text, name: &Text) -> Result<Items<Change>, NoMemory>
    ensures { IfOk result (λ changes. changes ≡ change.CacheDrop key.now name.now ∷ []) }
{
    let key = key.copy(alloc)?;
    let name = name.copy(alloc)?;
    one(alloc, Change::CacheDrop { key, name })
}

// A batch with an operation was carried out.
fn carried(alloc: Global, key: &Text, name: &Text, ops: &[Op]) -> Result<Items<Change>, NoMemory>
    ensures { IfOk result (λ changes. changes ≡ change.CacheOps key.now name.now ops.now ∷ []) }
{
    let key = key.copy(alloc)?;
    let name = name.copy(alloc)?;
    let operations = copy_ops(alloc, ops)?;
    one(
        alloc,
        Change::CacheOps {
            key,
            name,
            operations,
        },
    )
}

/// A batch was carried out.
pub fn batch_changes(
    alloc: Global,
    key: &Text,
    name: &Text,
    ops: &[Op],
) -> Result<Items<Change>, NoMemory>
    ensures { IfOk result (λ changes. changes ≡ batch_changes key.now name.now ops.now) }
{
    if ops.is_empty() {
        Ok(Items::new(alloc))
    } else {
        carried(alloc, key, name, ops)
    }
}
