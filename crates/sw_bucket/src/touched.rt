//! The keys that an entry touches.

ghost use Rattle.std.specs.Prelude.{◌≡◌, ◌++◌, List, Some, IfOk, OnOk};
ghost use Rattle.std.specs.List.{filter_map};
ghost use Rattle.std.specs.Option.{option_copied, option_to_list};
ghost use Rattle.sw_bucket.specs.Touched.{change_key, touched};
ghost use Rattle.sw_codec.specs.Spelling.{spelled_all};
ghost use Rattle.sw_data.specs.declared.storage.Change as storage;

use std::alloc::Global;
use sw_codec::read;
use sw_data::{Change, NoMemory, Text};

// The key that a change is of.
fn change_key(change: &Change) -> Option<&Text>
    ensures { option_copied result ≡ change_key change.now }
{
    match change {
        Change::Waiting { key, .. }
        | Change::Active { key, .. }
        | Change::Activated { key, .. }
        | Change::Mode { key, .. }
        | Change::Gone { key, .. }
        | Change::CacheNew { key, .. }
        | Change::CacheDrop { key, .. }
        | Change::CacheOps { key, .. }
        | Change::Forgot { key }
        | Change::Preload { key, .. } => Some(key),
        Change::Restarted => None,
    }
}

// Adds a key, where there is one.
fn push_key(keys: &mut Vec<Text>, alloc: Global, key: Option<&Text>) -> Result<(), NoMemory>
    ensures { OnOk result
        (keys.new.items ≡ keys.old.items ++ option_to_list (option_copied key.entry)) }
{
    match key {
        Some(key) => {
            keys.push(key.copy(alloc)?)?;
            Ok(())
        }
        None => Ok(()),
    }
}

// Adds the keys of changes.
fn push_changed(keys: &mut Vec<Text>, alloc: Global, changes: &[Change]) -> Result<(), NoMemory>
    ensures { OnOk result (keys.new.items ≡ keys.old.items ++ filter_map change_key changes.now) }
{
    for change in changes {
        push_key(keys, alloc, change_key(change))?;
    }
    Ok(())
}

/// The keys that are touched by the use of a key, where one is used, and by changes.
pub(crate) fn touched(
    alloc: Global,
    used: Option<&Text>,
    changes: &[Change],
) -> Result<Vec<Text>, NoMemory>
    ensures { IfOk result (λ keys. keys.items ≡ touched (option_copied used.entry) changes.now) }
{
    let mut keys = Vec::new(alloc);
    push_key(&mut keys, alloc, used)?;
    push_changed(&mut keys, alloc, changes)?;
    Ok(keys)
}

/// The changes that these bytes spell. No bytes spell none; bytes that spell no changes are taken as want of memory.
pub(crate) fn changes_in(alloc: Global, bytes: &[u8]) -> Result<Vec<Change>, NoMemory>
    ensures { (changes : List storage.Change) → spelled_all changes ≡ Some bytes.now
        → IfOk result (λ all. all.items ≡ changes) }
{
    if bytes.is_empty() {
        return Ok(Vec::new(alloc));
    }
    match read(alloc, bytes) {
        Ok(changes) => Ok(changes),
        Err(_) => Err(NoMemory),
    }
}
