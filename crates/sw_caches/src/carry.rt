//! A plan is carried out: pairs are taken out where all room was made before.

ghost use Rattle.std.specs.Prelude.{◌≡◌, ◌≤◌, [], vec_capacity, vec_len};
ghost use Rattle.sw_list.specs.Numbered.{KeepsAbove};
ghost use Rattle.sw_caches.specs.Bytes.{made_size};
ghost use Rattle.sw_caches.specs.Entries.{AreIndexed, DropMarks, number, pairs};
ghost use Rattle.sw_caches.specs.Plans.{left_by};

use crate::entries::drop_matching;
use crate::entry::Entry;
use crate::plan::NO_OPTIONS;
use sw_data::{Options, Request};
use sw_list::Slots;

// Takes out what the queries match, and its bytes; it takes no memory.
pub(crate) fn drop_deleted(
    entries: &mut Vec<Entry>,
    slots: &mut Slots,
    names: u64,
    bytes: &mut u64,
    deletes: &[(Request, Options)],
)
    requires indexed { AreIndexed entries.old.items slots.old }
    requires bytes { bytes.old ≡ made_size names (pairs entries.old.items) }
    ensures indexed { AreIndexed entries.new.items slots.new }
    ensures bytes { bytes.new ≡ made_size names (pairs entries.new.items) }
    ensures pairs { pairs entries.new.items
        ≡ left_by deletes.now [] (pairs entries.old.items) }
    ensures above { KeepsAbove number entries.old.items slots.old entries.new.items slots.new }
    ensures marks { DropMarks entries.old.items slots.old entries.new.items slots.new }
    ensures bound { vec_len entries.new ≤ vec_len entries.old }
    ensures capacity { vec_capacity entries.new ≡ vec_capacity entries.old }
{
    for query in deletes {
        drop_matching(entries, slots, names, bytes, &query.0, query.1);
    }
}

// Takes out the pairs in whose place others are put, and their bytes; it takes no memory.
pub(crate) fn drop_replaced(
    entries: &mut Vec<Entry>,
    slots: &mut Slots,
    names: u64,
    bytes: &mut u64,
    added: &[Entry],
)
    requires indexed { AreIndexed entries.old.items slots.old }
    requires bytes { bytes.old ≡ made_size names (pairs entries.old.items) }
    ensures indexed { AreIndexed entries.new.items slots.new }
    ensures bytes { bytes.new ≡ made_size names (pairs entries.new.items) }
    ensures pairs { pairs entries.new.items
        ≡ left_by [] (pairs added.now) (pairs entries.old.items) }
    ensures above { KeepsAbove number entries.old.items slots.old entries.new.items slots.new }
    ensures marks { DropMarks entries.old.items slots.old entries.new.items slots.new }
    ensures bound { vec_len entries.new ≤ vec_len entries.old }
    ensures capacity { vec_capacity entries.new ≡ vec_capacity entries.old }
{
    for entry in added {
        drop_matching(entries, slots, names, bytes, &entry.pair.0, NO_OPTIONS);
    }
}
