//! Which key is evicted next.

ghost use Rattle.std.specs.Prelude.{◌≡◌, ◌++◌, List, true, filter, map, IfOk, OnOk};
ghost use Rattle.std.specs.Option.{option_copied, option_map_or};
ghost use Rattle.sw_bucket.specs.Choosing.{first_to_go};
ghost use Rattle.sw_bucket.specs.Eviction.{first_of, goes_before, may_go, victim};
ghost use Rattle.sw_bucket.specs.Noted.{IsNotedOf, last_noted};
ghost use Rattle.sw_data.specs.declared.histories.Entry.{Entry};
ghost use Rattle.sw_data.specs.declared.storage.Kept as storage;
ghost use Rattle.sw_rules.specs.Durable.{durable};
ghost use Rattle.sw_sizes.specs.Usage.{keys_of_kept};
ghost use Rattle.sw_state.specs.Hosted.{state_of};

use crate::keys::copied;
use crate::places::is_reached;
use crate::uses::Uses;
use std::alloc::Global;
use sw_core::Core;
use sw_data::{Kept, KeptCache, KeptRegistration, NoMemory, Text};

// Adds the keys of registrations.
fn push_registrations(
    keys: &mut Vec<Text>,
    alloc: Global,
    rows: &[KeptRegistration],
) -> Result<(), NoMemory>
    ensures { OnOk result (keys.new.items ≡ keys.old.items ++ map (λ row. row.key) rows.now) }
{
    for row in rows {
        keys.push(row.key.copy(alloc)?)?;
    }
    Ok(())
}

// Adds the keys of caches.
fn push_caches(keys: &mut Vec<Text>, alloc: Global, rows: &[KeptCache]) -> Result<(), NoMemory>
    ensures { OnOk result (keys.new.items ≡ keys.old.items ++ map (λ row. row.key) rows.now) }
{
    for row in rows {
        keys.push(row.key.copy(alloc)?)?;
    }
    Ok(())
}

/// The keys of a content.
pub(crate) fn keys_of(alloc: Global, kept: &Kept) -> Result<Vec<Text>, NoMemory>
    ensures { IfOk result (λ keys. keys.items ≡ keys_of_kept kept.now) }
{
    let mut keys = Vec::new(alloc);
    push_registrations(&mut keys, alloc, kept.registrations.as_slice())?;
    push_caches(&mut keys, alloc, kept.caches.as_slice())?;
    Ok(keys)
}

// The keys of what a host keeps.
fn held_keys(alloc: Global, core: &Core) -> Result<Vec<Text>, NoMemory>
    ensures { IfOk result (λ keys. keys.items ≡ keys_of_kept (durable (state_of core.now))) }
{
    let kept = core.kept(alloc)?;
    keys_of(alloc, &kept)
}

/// Whether the host's forget of a key would be answered by ok.
pub(crate) fn may_go(alloc: Global, core: &Core, key: &Text) -> Result<bool, NoMemory>
    ensures { IfOk result (λ may. may ≡ may_go (state_of core.now) key.now) }
{
    let reached = is_reached(alloc, key)?;
    Ok(reached && !core.busy(key))
}

impl Uses {
    // Whether a key goes before another.
    fn goes_before(&self, one: &Text, other: &Text) -> bool
        ensures { result ≡ goes_before (last_noted self.now) one.now other.now }
    {
        let (last, other_last) = (self.last(one), self.last(other));
        last < other_last || (last == other_last && one.as_str().cmp(other.as_str()).is_lt())
    }

    // Whether a key goes before the first so far, where there is one.
    fn leads(&self, key: &Text, first: Option<&Text>) -> bool
        ensures { result ≡ option_map_or (λ other. goes_before (last_noted self.now) key.now other)
            (option_copied first.entry) true }
    {
        match first {
            Some(other) => self.goes_before(key, other),
            None => true,
        }
    }

    // The first so far, or this key where it leads and may go.
    fn first_so_far<'a>(
        &self,
        alloc: Global,
        core: &Core,
        first: Option<&'a Text>,
        key: &'a Text,
    ) -> Result<Option<&'a Text>, NoMemory>
        ensures { IfOk result (λ next. option_copied next
            ≡ first_to_go (goes_before (last_noted self.now)) (may_go (state_of core.now))
            (option_copied first.entry) key.now) }
    {
        if !self.leads(key, first) {
            return Ok(first);
        }
        if may_go(alloc, core, key)? {
            Ok(Some(key))
        } else {
            Ok(first)
        }
    }

    // The first of the keys that may go.
    fn first_of<'a>(
        &self,
        alloc: Global,
        core: &Core,
        keys: &'a [Text],
    ) -> Result<Option<&'a Text>, NoMemory>
        ensures { IfOk result (λ first. option_copied first
            ≡ first_of (goes_before (last_noted self.now))
            (filter (may_go (state_of core.now)) keys.now)) }
    {
        let mut first: Option<&'a Text> = None;
        for key in keys {
            first = self.first_so_far(alloc, core, first, key)?;
        }
        Ok(first)
    }

    /// The key that is evicted next from a host: of those that have usage and may be forgotten the least recently used one,
    /// and among equals the one with the smaller text. None exactly where there is no such key. It scans, and copies, all
    /// that is kept, and asks whether a key is busy only where the key goes before those before it.
    pub fn victim(&self, alloc: Global, core: &Core) -> Result<Option<Text>, NoMemory>
        ensures { (base : storage.Kept) (history : List Entry) → IsNotedOf base history self.now
            → IfOk result (λ key. key ≡ victim base history (state_of core.now)) }
    {
        let keys = held_keys(alloc, core)?;
        let first = self.first_of(alloc, core, keys.as_slice())?;
        copied(alloc, first)
    }
}
