//! The pairs of a cache, seen as a list beside the room for a plan.

ghost use Rattle.std.specs.Prelude.{◌≡◌, ◌<◌, ◌≤◌, ◌+◌, ◌^◌, [], List, length, sum_by, Ok, IfOk, IfErr, OnOk, OnErr, vec_capacity, vec_len, option_map, option_copied, slice_get};
ghost use Rattle.std.specs.List.{range_with_len};
ghost use Rattle.std.specs.Option.{IfSome};
ghost use Rattle.sw_rules.specs.Matching.{Pair, first_match, query_of};
ghost use Rattle.sw_data.specs.Sizes.{op_size};
ghost use Rattle.sw_rules.specs.Batch.{batch};
ghost use Rattle.sw_list.specs.Marks.{KeepsBelow, KeepsSlots};
ghost use Rattle.sw_caches.specs.Bytes.{made_size, puts_size};
ghost use Rattle.sw_caches.specs.Entries.{marks, pairs};
ghost use Rattle.sw_caches.specs.Plans.{FitsCache, IsDraft, IsThrown, carried};

use crate::carry::{drop_deleted, drop_replaced};
use crate::entries::{copy_pairs, first_of, into_pairs, marks_of, places_of, puts_size};
use crate::entry::{Entry, Pair};
use crate::fault::BatchFault;
use crate::plan::{PairsPlan, add_all, unmark_all, work_out};
use crate::rules::{QUOTA, size_of, sum};
use std::alloc::Global;
use std::collections::BTreeSet;
use std::marker::Model;
use sw_data::{Items, NoMemory, Op, Options, Request};
use sw_list::{Mark, Slots, take_marks};
use sw_match::number_of;

// The most pairs that a cache may have.
const PAIRS_LIMIT: usize = 4_294_967_295;

// The pairs of a cache in the order of their puts. An index finds those of an address in the time
// that they take themselves.
#[derive(Drop)]
pub(crate) struct Pairs {
    entries: Vec<Entry>,
    slots: Slots,
    next: u64,
    // The marks of a plan that was made, until it or another one is carried out.
    ahead: Vec<Mark>,
    // The bytes of the key and the name of the cache.
    names: u64,
    // The bytes of the changes that make the cache.
    bytes: u64,
}

impl Model for Pairs {
    ghost use Rattle.std.specs.Prelude.{◌≡◌, ◌<◌, ◌-◌, ◌^◌, length, vec_len, vec_capacity};
    ghost use Rattle.sw_list.specs.Numbered.{AllBelow};
    ghost use Rattle.sw_caches.specs.Bytes.{made_size};
    ghost use Rattle.sw_caches.specs.Entries.{AreIndexed, AreTight, number, pairs};
    ghost use Rattle.sw_caches.specs.Plans.{Indexed};

    ghost Value = { Indexed };

    ghost view = { λ kept. record {
      pairs = pairs kept.entries.items;
      slots = kept.slots;
      next = kept.next;
      spare = vec_capacity kept.entries - vec_len kept.entries;
      names = kept.names;
    } };

    ghost invariant = { λ kept. AreIndexed kept.entries.items kept.slots
        × AllBelow number kept.next kept.entries.items
        × (0 < kept.next)
        × (length kept.entries.items < 2 ^ 32)
        × AreTight kept.entries.items kept.slots kept.next kept.ahead.items
        × (kept.bytes ≡ made_size kept.names (pairs kept.entries.items)) };
}

impl Pairs {
    // The pairs of a list, with their index, in a cache whose key and name have so many bytes.
    pub(crate) fn from_items(alloc: Global, names: u64, items: Vec<Pair>) -> Result<Pairs, NoMemory>
        ensures pairs { IfOk result (λ kept. kept.pairs ≡ items.items) }
        ensures names { IfOk result (λ kept. kept.names ≡ names) }
    {
        if items.len() > PAIRS_LIMIT {
            return Err(NoMemory);
        }
        let mut slots = BTreeSet::new(alloc);
        let plan = add_all(alloc, &mut slots, items)?;
        let bytes = sum(sum(1, names)?, puts_size(names, &plan.added)?)?;
        Ok(Pairs {
            entries: plan.added,
            slots,
            next: plan.next,
            ahead: Vec::new(alloc),
            names,
            bytes,
        })
    }

    // A list of its own that equals the pairs.
    pub(crate) fn to_items(&self, alloc: Global) -> Result<Items<Pair>, NoMemory>
        ensures { IfOk result (λ items. items ≡ self.now.pairs) }
    {
        copy_pairs(alloc, &self.entries)
    }

    // The pairs as a list, none of them copied.
    pub(crate) fn into_items(self, alloc: Global) -> Result<Items<Pair>, NoMemory>
        ensures { IfOk result (λ items. items ≡ self.pairs) }
    {
        into_pairs(alloc, self.entries)
    }

    // How many pairs.
    pub(crate) fn len(&self) -> usize
        ensures { result ≡ length self.now.pairs }
    {
        self.entries.len()
    }

    // The bytes of the key and the name of the cache.
    pub(crate) fn names(&self) -> u64
        ensures { result ≡ self.now.names }
    {
        self.names
    }

    // The bytes of the changes that make the cache.
    pub(crate) fn bytes(&self) -> u64
        ensures { result ≡ made_size self.now.names self.now.pairs }
    {
        self.bytes
    }

    // The pairs in order.
    pub(crate) fn entries(&self) -> &[Entry]
        ensures { pairs result.now ≡ self.now.pairs }
    {
        &self.entries
    }

    // The pair at a place.
    pub(crate) fn get(&self, place: usize) -> Option<&Pair>
        ensures { option_copied result ≡ slice_get self.now.pairs place }
    {
        if place < self.entries.len() {
            let pair: &Pair = &self.entries[place].pair;
            Some(pair)
        } else {
            None
        }
    }

    // The first pair that a query finds, behind its place; it takes no memory.
    pub(crate) fn first(&self, query: &Request, options: Options) -> Option<(usize, &Pair)>
        ensures found { option_map (λ found. (found.0, found.1.now)) result
            ≡ first_match self.now.pairs query.now options }
        ensures low { IfSome result (λ found. found.0 < 2 ^ 32) }
    {
        first_of(&self.entries, &self.slots, query, options)
    }

    // The places of the pairs that a query finds, rising.
    pub(crate) fn places(
        &self,
        alloc: Global,
        query: &Request,
        options: Options,
    ) -> Result<Vec<u32>, NoMemory>
        ensures { IfOk result (λ places. places.items ≡ query_of self.now.pairs query.now options) }
    {
        places_of(alloc, &self.entries, &self.slots, query, options)
    }

    // All places.
    pub(crate) fn all(&self, alloc: Global) -> Result<Vec<u32>, NoMemory>
        ensures { IfOk result (λ places. places.items ≡ range_with_len 0 (length self.now.pairs)) }
    {
        let mut places = Vec::new(alloc);
        for place in 0..self.len() {
            places.push(number_of(place)?)?;
        }
        Ok(places)
    }

    // A batch, worked out with all its room. Any refusal leaves the pairs as they were, and the
    // index without a new mark.
    pub(crate) fn plan(&mut self, alloc: Global, ops: Vec<Op>) -> Result<PairsPlan, BatchFault>
        ensures same { self.new.pairs ≡ self.old.pairs }
        ensures names { self.new.names ≡ self.old.names }
        ensures fits { IfOk result (λ plan. FitsCache plan self.new) }
        ensures ok { IfOk result (λ plan.
            batch self.old.pairs ops.items ≡ Ok (carried plan self.old.pairs)) }
        ensures err { IfErr result (λ fault. IsThrown fault (batch self.old.pairs ops.items)) }
        ensures marks { OnErr result (KeepsSlots self.new.slots self.old.slots) }
    {
        let size = size_of(&ops)?;
        take_marks(&mut self.slots, &self.ahead);
        self.ahead.clear();
        let mut plan = PairsPlan::new(alloc, self.next);
        match prepare(
            &mut plan,
            alloc,
            &mut self.entries,
            &mut self.slots,
            ops,
            size,
        ) {
            Ok(made) => {
                self.ahead = made;
                Ok(plan)
            }
            Err(fault) => {
                unmark_all(&mut self.slots, &plan.added);
                Err(fault)
            }
        }
    }

    // Carries a plan out, which adds so many bytes; it takes no memory.
    pub(crate) fn carry_out(&mut self, plan: PairsPlan, added_bytes: u64)
        requires fits { FitsCache plan self.old }
        requires bytes { added_bytes ≡ puts_size self.old.names (pairs plan.added.items) }
        requires room { made_size self.old.names self.old.pairs + added_bytes < 2 ^ 64 }
        ensures pairs { self.new.pairs ≡ carried plan self.old.pairs }
        ensures names { self.new.names ≡ self.old.names }
    {
        let PairsPlan {
            deletes,
            mut added,
            first: _,
            next,
        } = plan;
        let names = self.names;
        drop_deleted(
            &mut self.entries,
            &mut self.slots,
            names,
            &mut self.bytes,
            &deletes,
        );
        drop_replaced(
            &mut self.entries,
            &mut self.slots,
            names,
            &mut self.bytes,
            &added,
        );
        let _ = self.entries.append(&mut added);
        self.bytes += added_bytes;
        self.next = next;
        self.ahead.clear();
    }
}

// A batch, worked out with room behind the entries for what it adds; the marks that it made.
fn prepare(
    plan: &mut PairsPlan,
    alloc: Global,
    entries: &mut Vec<Entry>,
    slots: &mut Slots,
    ops: Vec<Op>,
    size: u64,
) -> Result<Vec<Mark>, BatchFault>
    requires draft { IsDraft plan.old slots.old }
    requires new { (plan.old.deletes.items ≡ []) × (plan.old.added.items ≡ []) }
    requires size { size ≡ sum_by op_size ops.items }
    requires few { length entries.old.items < 2 ^ 32 }
    ensures entries { entries.new.items ≡ entries.old.items }
    ensures draft { IsDraft plan.new slots.new }
    ensures first { plan.new.first ≡ plan.old.first }
    ensures below { KeepsBelow plan.old.first slots.old slots.new }
    ensures made { IfOk result (λ made. made.items ≡ marks plan.new.added.items) }
    ensures room { OnOk result
        (vec_len plan.new.added + vec_len entries.new ≤ vec_capacity entries.new) }
    ensures few { OnOk result (vec_len entries.new + vec_len plan.new.added < 2 ^ 32) }
    ensures ok { OnOk result ((old : List Pair)
        → batch old ops.items ≡ Ok (carried plan.new old)) }
    ensures err { IfErr result (λ fault. (old : List Pair)
        → IsThrown fault (batch old ops.items)) }
{
    if ops.len() > PAIRS_LIMIT {
        return Err(BatchFault::NoMemory);
    }
    work_out(plan, alloc, slots, ops)?;
    if size > QUOTA {
        return Err(BatchFault::Quota { size });
    }
    make_room(entries, plan.added.len())?;
    let made = marks_of(alloc, &plan.added)?;
    Ok(made)
}

// Makes room for further pairs.
fn make_room(entries: &mut Vec<Entry>, count: usize) -> Result<(), NoMemory>
    requires { length entries.old.items < 2 ^ 32 }
    ensures same { entries.new.items ≡ entries.old.items }
    ensures room { OnOk result (count + vec_len entries.new ≤ vec_capacity entries.new) }
    ensures few { OnOk result (vec_len entries.new + count < 2 ^ 32) }
{
    if count > PAIRS_LIMIT - entries.len() {
        return Err(NoMemory);
    }
    entries.reserve(count)?;
    Ok(())
}
