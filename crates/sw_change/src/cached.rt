//! What changes do to the caches.

ghost use Rattle.std.specs.Prelude.{◌≡◌, ◌++◌, ◌∷◌, [], OnOk, OnErr, if◌then◌else◌};
ghost use Rattle.std.specs.List.{list_any};
ghost use Rattle.sw_caches.specs.declared.fault.BatchFault.TheVariants as fault;
ghost use Rattle.sw_caches.specs.Tables.{empty_cache};
ghost use Rattle.sw_rules.specs.Storage.{is_cache, with_batch};

use std::alloc::Global;
use sw_caches::{BatchFault, Caches};
use sw_data::{NoMemory, Op, Text};

// Makes an empty cache where the key has none of this name.
pub(crate) fn make_cache(
    caches: &mut Caches,
    alloc: Global,
    key: &Text,
    name: &Text,
) -> Result<(), NoMemory>
    ensures ok { OnOk result (caches.new.rows
        ≡ (if list_any (is_cache key.now name.now) caches.old.rows then caches.old.rows
        else caches.old.rows ++ empty_cache key.now name.now ∷ [])) }
    ensures err { OnErr result (caches.new.rows ≡ caches.old.rows) }
{
    caches.make(alloc, key, name)?;
    Ok(())
}

// Want of memory is a failure; what a batch throws is none.
fn want_of_memory(why: BatchFault) -> Result<(), NoMemory>
    ensures { OnOk result (¬ (why ≡ fault.NoMemory)) }
{
    match why {
        BatchFault::NoMemory => Err(NoMemory),
        _ => Ok(()),
    }
}

// Carries a batch out on the cache of this name. One that throws changes nothing, and so does one
// for a cache that isn't there.
pub(crate) fn change_pairs(
    caches: &mut Caches,
    alloc: Global,
    key: &Text,
    name: &Text,
    operations: Vec<Op>,
) -> Result<(), NoMemory>
    ensures ok { OnOk result (caches.new.rows
        ≡ with_batch key.now name.now operations.items caches.old.rows) }
    ensures err { OnErr result (caches.new.rows ≡ caches.old.rows) }
{
    match caches.batch(alloc, key, name, operations) {
        Ok(()) => Ok(()),
        Err(why) => want_of_memory(why),
    }
}
