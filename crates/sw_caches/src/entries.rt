//! The numbered entries of a cache.

ghost use Rattle.std.specs.Prelude.{◌≡◌, ◌<◌, ◌≤◌, true, MatchOption, slice_index_or, vec_capacity, vec_len, IfOk, option_map};
ghost use Rattle.std.specs.List.{All, AllPairs};
ghost use Rattle.sw_rules.specs.Matching.{first_match, matches_pair, query_of};
ghost use Rattle.sw_rules.specs.Batch.{matches_added, without_matching};
ghost use Rattle.sw_list.specs.Numbered.{KeepsAbove, NoneOfNumber, StandsAt, first_by};
ghost use Rattle.sw_caches.specs.Bytes.{made_size, puts_size};
ghost use Rattle.sw_caches.specs.Places.{places_by};
ghost use Rattle.sw_caches.specs.Entries.{AreIndexed, DropMarks, marks, number, pair, pairs};

use crate::entry::{Entry, Pair};
use crate::rules::sum;
use crate::slots::{address_digest, mark_of};
use std::alloc::Global;
use sw_data::{Items, NoMemory, Options, Request};
use sw_list::{Mark, Slots, next_number, take_mark};
use sw_match::{finds_nothing, matches_pair, number_of};

// The place of the entry of a number.
fn place_of(entries: &[Entry], number: u64) -> Option<usize>
    requires { AllPairs (λ left right. left.number < right.number) entries.now }
    ensures { MatchOption result (All (λ entry. ¬ (entry.number ≡ number)) entries.now)
        (StandsAt (λ entry. entry.number) entries.now number) }
{
    let place = entries.partition_point(|entry| entry.number < number);
    if place < entries.len() && entries[place].number == number {
        Some(place)
    } else {
        None
    }
}

// The entry of a number with its place, if the query matches its pair.
fn hit<'a>(
    entries: &'a [Entry],
    at: u64,
    query: &Request,
    options: Options,
) -> Option<(usize, &'a Pair)>
    requires { AllPairs (λ left right. left.number < right.number) entries.now }
    ensures { MatchOption result
        (NoneOfNumber number pair (matches_pair query.now options) entries.now at)
        (λ found. StandsAt number entries.now at found.0
        × ((d : _) → pair (slice_index_or entries.now found.0 d) ≡ found.1.now)
        × (matches_pair query.now options found.1.now ≡ true)) }
{
    match place_of(entries, at) {
        Some(place) => {
            let pair: &Pair = &entries[place].pair;
            if matches_pair(query, options, pair) {
                Some((place, pair))
            } else {
                None
            }
        }
        None => None,
    }
}

// The first pair that a query matches, whatever its method, behind its place.
fn first_matching<'a>(
    entries: &'a [Entry],
    slots: &Slots,
    query: &Request,
    options: Options,
) -> Option<(usize, &'a Pair)>
    requires { AreIndexed entries.now slots.now }
    ensures { option_map (λ found. (found.0, found.1.now)) result
        ≡ first_by (matches_pair query.now options) (pairs entries.now) }
{
    let key = address_digest(options.ignore_search, &query.url);
    let mut after = 0;
    while let Some(number) = next_number(slots, key, after) {
        match hit(entries, number, query, options) {
            Some((place, pair)) => return Some((place, pair)),
            None => after = number,
        }
    }
    None
}

// A query matches one of the pairs.
#[tactic(auto, using(sw_list::proofs::FindLemmas::found_any))]
pub(crate) fn has_matching(
    entries: &[Entry],
    slots: &Slots,
    query: &Request,
    options: Options,
) -> bool
    requires { AreIndexed entries.now slots.now }
    ensures { result ≡ matches_added query.now options (pairs entries.now) }
{
    first_matching(entries, slots, query, options).is_some()
}

// The first pair that a query finds, behind its place.
pub(crate) fn first_of<'a>(
    entries: &'a [Entry],
    slots: &Slots,
    query: &Request,
    options: Options,
) -> Option<(usize, &'a Pair)>
    requires { AreIndexed entries.now slots.now }
    ensures { option_map (λ found. (found.0, found.1.now)) result
        ≡ first_match (pairs entries.now) query.now options }
{
    if finds_nothing(query, options) {
        return None;
    }
    first_matching(entries, slots, query, options)
}

// The places of the pairs that a query finds, rising.
pub(crate) fn places_of(
    alloc: Global,
    entries: &[Entry],
    slots: &Slots,
    query: &Request,
    options: Options,
) -> Result<Vec<u32>, NoMemory>
    requires { AreIndexed entries.now slots.now }
    ensures { IfOk result (λ places. places.items
        ≡ query_of (pairs entries.now) query.now options) }
{
    if finds_nothing(query, options) {
        return Ok(Vec::new(alloc));
    }
    matching_places(alloc, entries, slots, query, options)
}

fn matching_places(
    alloc: Global,
    entries: &[Entry],
    slots: &Slots,
    query: &Request,
    options: Options,
) -> Result<Vec<u32>, NoMemory>
    requires { AreIndexed entries.now slots.now }
    ensures { IfOk result (λ places. places.items
        ≡ places_by (matches_pair query.now options) (pairs entries.now)) }
{
    let key = address_digest(options.ignore_search, &query.url);
    let mut places = Vec::new(alloc);
    let mut after = 0;
    while let Some(number) = next_number(slots, key, after) {
        if let Some((place, _)) = hit(entries, number, query, options) {
            places.push(number_of(place)?)?;
        }
        after = number;
    }
    Ok(places)
}

// Takes out the pairs that a query matches, whatever its method, and their bytes; it takes no memory.
pub(crate) fn drop_matching(
    entries: &mut Vec<Entry>,
    slots: &mut Slots,
    names: u64,
    bytes: &mut u64,
    query: &Request,
    options: Options,
)
    requires indexed { AreIndexed entries.old.items slots.old }
    requires bytes { bytes.old ≡ made_size names (pairs entries.old.items) }
    ensures indexed { AreIndexed entries.new.items slots.new }
    ensures bytes { bytes.new ≡ made_size names (pairs entries.new.items) }
    ensures pairs { pairs entries.new.items
        ≡ without_matching query.now options (pairs entries.old.items) }
    ensures above { KeepsAbove number entries.old.items slots.old entries.new.items slots.new }
    ensures marks { DropMarks entries.old.items slots.old entries.new.items slots.new }
    ensures bound { vec_len entries.new ≤ vec_len entries.old }
    ensures capacity { vec_capacity entries.new ≡ vec_capacity entries.old }
{
    while let Some((place, _)) = first_matching(entries, slots, query, options) {
        let entry = entries.remove(place);
        *bytes = *bytes - 5 - names - entry.size;
        take_mark(slots, mark_of(&entry.pair.0.url, entry.number));
    }
}

// The bytes of the changes that put the pairs of entries into a cache whose key and name have so
// many bytes.
pub(crate) fn puts_size(names: u64, entries: &[Entry]) -> Result<u64, NoMemory>
    ensures { IfOk result (λ size. size ≡ puts_size names (pairs entries.now)) }
{
    let mut size = 0;
    for entry in entries {
        size = sum(size, sum(sum(5, names)?, entry.size)?)?;
    }
    Ok(size)
}

// The marks of entries.
pub(crate) fn marks_of(alloc: Global, entries: &[Entry]) -> Result<Vec<Mark>, NoMemory>
    ensures { IfOk result (λ made. made.items ≡ marks entries.now) }
{
    let mut made = Vec::new(alloc);
    for entry in entries {
        made.push(mark_of(&entry.pair.0.url, entry.number))?;
    }
    Ok(made)
}

// The pairs of entries, as a list of its own.
pub(crate) fn copy_pairs(alloc: Global, entries: &[Entry]) -> Result<Items<Pair>, NoMemory>
    ensures { IfOk result (λ items. items ≡ pairs entries.now) }
{
    let mut items = Items::new(alloc);
    for entry in entries {
        items.push(copy_pair(alloc, &entry.pair)?)?;
    }
    Ok(items)
}

// The pairs of entries, which are taken apart.
pub(crate) fn into_pairs(alloc: Global, entries: Vec<Entry>) -> Result<Items<Pair>, NoMemory>
    ensures { IfOk result (λ items. items ≡ pairs entries.items) }
{
    let mut items = Items::new(alloc);
    for entry in entries {
        items.push(Box::into_inner(entry.pair))?;
    }
    Ok(items)
}

// A pair of its own that equals this one.
pub(crate) fn copy_pair(alloc: Global, pair: &Pair) -> Result<Pair, NoMemory>
    ensures { IfOk result (λ copy. copy ≡ pair.now) }
{
    let request = pair.0.copy(alloc)?;
    Ok((request, pair.1.copy(alloc)?))
}
