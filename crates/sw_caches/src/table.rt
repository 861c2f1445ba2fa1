//! The caches of all keys.

ghost use Rattle.sw_caches.specs.declared.fault.BatchFault.TheVariants as BatchFault;
ghost use Rattle.sw_caches.specs.declared.fault.CacheFault.TheVariants as CacheFault;
ghost use Rattle.std.specs.Prelude.{◌≡◌, ◌+◌, ◌^◌, ◌↔◌, None, IsErrOf, ◌<◌, Some, Ok, ◌++◌, ◌∷◌, [], IfOk, IfErr, OnOk, OnErr, not, map, filter, length, is_some, bytes_eq, option_map, option_copied, option_and_then, slice_get, if◌then◌else◌};
ghost use Rattle.std.specs.List.{list_any, range_with_len};
ghost use Rattle.sw_rules.specs.Matching.{first_match, query_of};
ghost use Rattle.sw_rules.specs.Storage.{is_cache};
ghost use Rattle.sw_rules.specs.Caching.{asked_caches, first_hit, pairs_of};
ghost use Rattle.sw_data.specs.declared.storage.KeptCache.{KeptCache};
ghost use Rattle.sw_rules.specs.Batch.{batch};
ghost use Rattle.sw_data.specs.declared.answers.Answer.TheVariants as answer;
ghost use Rattle.std.specs.Option.{option_map_or};
ghost use Rattle.sw_caches.specs.Bytes.{bytes_of, key_bytes, puts_size};
ghost use Rattle.sw_caches.specs.Entries.{pairs};
ghost use Rattle.sw_caches.specs.Hits.{found_answer};
ghost use Rattle.sw_caches.specs.Plans.{FitsCache, IsThrown, carried};
ghost use Rattle.sw_caches.specs.Tables.{FitsNew, FitsTable, IsBatch, IsRefused, asked_places, caches_of, carried_rows, empty_cache, hit_from, key_and_name};

use crate::entries::puts_size;
use crate::entry::{Entry, Pair};
use crate::fault::{BatchFault, CacheFault};
use crate::hits::{Found, first_found, first_hit};
use crate::pairs::Pairs;
use crate::plan::PairsPlan;
use crate::rows::{carry_row, into_kept, kept_of, named_bytes, names_of, next_cache};
use crate::rules::names_size;
use crate::sums::Sums;
use std::alloc::Global;
use std::marker::Model;
use sw_data::{KeptCache, NoMemory, Op, Options, Request, Response, Text};
use sw_list::{Named, NewRow};

/// The caches of all keys, in order of creation (Service Workers, "name to cache map"). An index
/// finds those of a key, or that of a key and a name, in the time that they take themselves. Their
/// bytes are counted where they change.
#[derive(Drop)]
pub struct Caches {
    rows: Named<Pairs>,
    sums: Sums,
}

impl Model for Caches {
    ghost use Rattle.indexmap.specs.IndexMap.{spare};
    ghost use Rattle.sw_caches.specs.Tables.{CountsBytes, Table, table};

    ghost Value = { Table };

    ghost view = { λ caches. table caches.rows (spare caches.sums.keys) };

    ghost invariant = { λ caches. CountsBytes caches.rows.rows caches.sums };
}

/// Where a match is: the place of the cache among those of its key, and the place of the pair.
#[derive(Debug, Clone, Copy, PartialEq, Eq)]
pub struct Hit {
    pub cache: u32,
    pub place: u32,
}

/// A cache that was made and isn't in the table yet.
#[derive(Drop)]
pub struct NewCache {
    row: NewRow,
    // The key once more, for the bytes of its caches.
    key: Text,
    pairs: Pairs,
}

impl Model for NewCache {
    ghost use Rattle.std.specs.Prelude.{◌≡◌};
    ghost use Rattle.sw_data.specs.declared.storage.KeptCache.{KeptCache};
    ghost use Rattle.sw_caches.specs.Bytes.{names_size};

    ghost Value = { KeptCache };

    ghost view = { λ new. record {
      key = new.row.key;
      name = new.row.name;
      pairs = new.pairs.pairs;
    } };

    ghost invariant = { λ new. (new.key ≡ new.row.key)
        × (new.pairs.names ≡ names_size new.row.key new.row.name) };
}

/// A batch on a cache, worked out.
#[derive(Drop)]
pub struct CachePlan {
    pub(crate) place: usize,
    pub(crate) change: PairsPlan,
    // The bytes of what it adds.
    pub(crate) bytes: u64,
}

// A plan for the cache at a place, whose key and name have so many bytes, where what it adds fits
// beside the bytes of all caches.
fn sized(change: PairsPlan, place: usize, names: u64, total: u64) -> Result<CachePlan, BatchFault>
    ensures place { IfOk result (λ plan. plan.place ≡ place) }
    ensures change { IfOk result (λ plan. plan.change ≡ change) }
    ensures bytes { IfOk result (λ plan.
        plan.bytes ≡ puts_size names (pairs change.added.items)) }
    ensures room { IfOk result (λ plan. total + plan.bytes < 2 ^ 64) }
    ensures err { IfErr result (λ fault. fault ≡ BatchFault.NoMemory) }
{
    let bytes = puts_size(names, &change.added)?;
    if bytes > u64::MAX - total {
        return Err(BatchFault::NoMemory);
    }
    Ok(CachePlan {
        place,
        change,
        bytes,
    })
}

// A batch on this cache, which stands at a place, worked out.
fn plan_pairs(
    cache: &mut Pairs,
    alloc: Global,
    place: usize,
    ops: Vec<Op>,
    total: u64,
) -> Result<CachePlan, BatchFault>
    ensures same { cache.new.pairs ≡ cache.old.pairs }
    ensures names { cache.new.names ≡ cache.old.names }
    ensures place { IfOk result (λ plan. plan.place ≡ place) }
    ensures fits { IfOk result (λ plan. FitsCache plan.change cache.new) }
    ensures bytes { IfOk result (λ plan.
        plan.bytes ≡ puts_size cache.old.names (pairs plan.change.added.items)) }
    ensures room { IfOk result (λ plan. total + plan.bytes < 2 ^ 64) }
    ensures ok { IfOk result (λ plan.
        batch cache.old.pairs ops.items ≡ Ok (carried plan.change cache.old.pairs)) }
    ensures err { IfErr result (λ fault. IsThrown fault (batch cache.old.pairs ops.items)) }
{
    match cache.plan(alloc, ops) {
        Ok(change) => sized(change, place, cache.names(), total),
        Err(fault) => Err(fault),
    }
}

impl Caches {
    /// No caches; it takes no memory.
    pub fn new(alloc: Global) -> Caches
        ensures { result.rows ≡ [] }
    {
        Caches {
            rows: Named::new(alloc),
            sums: Sums::new(alloc),
        }
    }

    /// The caches of a kept content.
    pub fn from_kept(alloc: Global, kept: Vec<KeptCache>) -> Result<Caches, NoMemory>
        ensures { IfOk result (λ caches. caches.rows ≡ kept.items) }
    {
        let mut caches = Caches::new(alloc);
        for cache in kept {
            caches.add(alloc, cache)?;
        }
        Ok(caches)
    }

    // Adds a kept cache at the end.
    fn add(&mut self, alloc: Global, cache: KeptCache) -> Result<(), NoMemory>
        ensures { OnOk result (self.new.rows ≡ self.old.rows ++ cache ∷ []) }
    {
        let KeptCache { key, name, pairs } = cache;
        let new = self.make_with(alloc, key, name, pairs.into_vec())?;
        self.make_put(new);
        Ok(())
    }

    /// The caches as they are kept, as a list of its own.
    pub fn to_kept(&self, alloc: Global) -> Result<Vec<KeptCache>, NoMemory>
        ensures { IfOk result (λ kept. kept.items ≡ self.now.rows) }
    {
        kept_of(alloc, &self.rows)
    }

    /// The caches as they are kept, none of their pairs copied.
    pub fn into_kept(self, alloc: Global) -> Result<Vec<KeptCache>, NoMemory>
        ensures { IfOk result (λ kept. kept.items ≡ self.rows) }
    {
        into_kept(alloc, self.rows.into_rows(alloc)?)
    }

    /// Whether a key has a cache of this name; it takes no memory.
    pub fn has(&self, key: &Text, name: &Text) -> bool
        ensures { result ≡ is_some (pairs_of key.now name.now self.now.rows) }
    {
        self.cache(key, name).is_some()
    }

    // The cache of this name.
    fn cache(&self, key: &Text, name: &Text) -> Option<&Pairs>
        ensures { option_map (λ pairs. pairs.now.pairs) result
            ≡ pairs_of key.now name.now self.now.rows }
    {
        match self.rows.place(key, name) {
            Some(place) => Some(&self.rows.row(place).value),
            None => None,
        }
    }

    /// An empty cache of this name, which isn't there yet, and the room for it.
    pub fn make_row(&mut self, alloc: Global, key: &Text, name: &Text) -> Result<NewCache, NoMemory>
        ensures same { self.new.rows ≡ self.old.rows }
        ensures row { IfOk result (λ new. new ≡ empty_cache key.now name.now) }
        ensures fits { IfOk result (λ new. FitsNew new self.new) }
    {
        self.make_with(alloc, key.copy(alloc)?, name.copy(alloc)?, Vec::new(alloc))
    }

    // A cache of these pairs, and the room for it.
    fn make_with(
        &mut self,
        alloc: Global,
        key: Text,
        name: Text,
        items: Vec<Pair>,
    ) -> Result<NewCache, NoMemory>
        ensures same { self.new.rows ≡ self.old.rows }
        ensures row { IfOk result (λ new.
            new ≡ record { key = key; name = name; pairs = items.items }) }
        ensures fits { IfOk result (λ new. FitsNew new self.new) }
    {
        let names = names_size(&key, &name)?;
        let pairs = Pairs::from_items(alloc, names, items)?;
        let own = key.copy(alloc)?;
        self.sums.make_room(pairs.bytes())?;
        let row = self.rows.make_row(key, name)?;
        Ok(NewCache {
            row,
            key: own,
            pairs,
        })
    }

    /// Adds a cache that was made; it takes no memory.
    pub fn make_put(&mut self, new: NewCache)
        requires { FitsNew new self.old }
        ensures { self.new.rows ≡ self.old.rows ++ new ∷ [] }
    {
        let NewCache { row, key, pairs } = new;
        self.sums.add(key, pairs.bytes());
        self.rows.put(row, pairs);
    }

    /// Makes an empty cache where the key has none of this name, and says whether it did.
    pub fn make(&mut self, alloc: Global, key: &Text, name: &Text) -> Result<bool, NoMemory>
        ensures made { IfOk result (λ made.
            made ≡ not (is_some (pairs_of key.now name.now self.old.rows))) }
        ensures rows { OnOk result (self.new.rows
            ≡ (if is_some (pairs_of key.now name.now self.old.rows) then self.old.rows
            else self.old.rows ++ empty_cache key.now name.now ∷ [])) }
        ensures err { OnErr result (self.new.rows ≡ self.old.rows) }
    {
        if self.has(key, name) {
            return Ok(false);
        }
        let new = self.make_row(alloc, key, name)?;
        self.make_put(new);
        Ok(true)
    }

    /// Removes the cache of this name, and says whether there was one; it takes no memory.
    pub fn delete(&mut self, key: &Text, name: &Text) -> bool
        ensures found { result ≡ is_some (pairs_of key.now name.now self.old.rows) }
        ensures rows { self.new.rows
            ≡ filter (λ row. not (is_cache key.now name.now row)) self.old.rows }
    {
        let found = self.has(key, name);
        let gone = named_bytes(&self.rows, key, name);
        self.rows.remove_named(key, name);
        self.sums.change(key, gone, 0);
        found
    }

    /// Whether the key has no cache; it takes no memory.
    pub fn is_empty_key(&self, key: &Text) -> bool
        ensures { result ≡ not (list_any (λ row. bytes_eq row.key key.now) self.now.rows) }
    {
        next_cache(&self.rows, key, 0).is_none()
    }

    /// Removes the caches of a key; it takes no memory.
    pub fn drop_key(&mut self, key: &Text)
        ensures { self.new.rows ≡ filter (λ row. not (bytes_eq row.key key.now)) self.old.rows }
    {
        let bytes = self.sums.of(key);
        self.rows.remove_key(key);
        self.sums.change(key, bytes, 0);
    }

    /// The names of a key's caches, in order of creation.
    pub fn names(&self, alloc: Global, key: &Text) -> Result<Vec<Text>, NoMemory>
        ensures { IfOk result (λ names. names.items
            ≡ map (λ row. row.name) (caches_of key.now self.now.rows)) }
    {
        names_of(alloc, &self.rows, key)
    }

    /// How many caches there are; it takes no memory.
    pub fn len(&self) -> usize
        ensures { result ≡ length self.now.rows }
    {
        self.rows.len()
    }

    /// The bytes of all caches: in how many the changes of a checkpoint that make them are spelled; it
    /// takes no memory.
    pub fn bytes(&self) -> u64
        ensures { result ≡ bytes_of self.now.rows }
    {
        self.sums.total
    }

    /// The bytes of the caches of a key; it takes no memory.
    pub fn key_bytes(&self, key: &Text) -> u64
        ensures { result ≡ key_bytes key.now self.now.rows }
    {
        self.sums.of(key)
    }

    /// Key and name of the cache at a place in the order of creation over all keys; it takes no
    /// memory.
    pub fn at(&self, place: u32) -> Option<(&Text, &Text)>
        ensures { option_map (λ found. (found.0.now, found.1.now)) result
            ≡ option_map key_and_name (slice_get self.now.rows place) }
    {
        let place = place as usize;
        if place < self.rows.len() {
            let row = self.rows.row(place);
            Some((&row.key, &row.name))
        } else {
            None
        }
    }

    /// The pairs of the cache of this name, in order; it takes no memory.
    pub fn pairs(&self, key: &Text, name: &Text) -> Option<&[Entry]>
        ensures { option_map (λ entries. pairs entries.now) result
            ≡ pairs_of key.now name.now self.now.rows }
    {
        match self.cache(key, name) {
            Some(pairs) => Some(pairs.entries()),
            None => None,
        }
    }

    /// How many pairs the cache of this name has; it takes no memory.
    pub fn len_of(&self, key: &Text, name: &Text) -> Option<usize>
        ensures { result ≡ option_map length (pairs_of key.now name.now self.now.rows) }
    {
        match self.cache(key, name) {
            Some(pairs) => Some(pairs.len()),
            None => None,
        }
    }

    /// The pair at a place of the cache of this name; it takes no memory.
    pub fn pair_at(&self, key: &Text, name: &Text, place: u32) -> Option<&(Request, Response)>
        ensures { option_copied result ≡ option_and_then (λ pairs. slice_get pairs place)
            (pairs_of key.now name.now self.now.rows) }
    {
        match self.cache(key, name) {
            Some(pairs) => pairs.get(place as usize),
            None => None,
        }
    }

    /// A batch on the cache of this name, worked out with all its room. Any refusal leaves all as
    /// it was.
    pub fn plan(
        &mut self,
        alloc: Global,
        key: &Text,
        name: &Text,
        ops: Vec<Op>,
    ) -> Result<CachePlan, BatchFault>
        ensures same { self.new.rows ≡ self.old.rows }
        ensures fits { IfOk result (λ plan. FitsTable plan self.new.indexes) }
        ensures ok { IfOk result (λ plan. IsBatch key.now name.now ops.items self.old.rows
            (carried_rows plan self.old.rows)) }
        ensures err { IfErr result (IsRefused key.now name.now ops.items self.old.rows) }
    {
        match self.rows.place(key, name) {
            Some(place) => self.plan_at(alloc, place, ops),
            None => Err(BatchFault::CacheGone),
        }
    }

    fn plan_at(
        &mut self,
        alloc: Global,
        place: usize,
        ops: Vec<Op>,
    ) -> Result<CachePlan, BatchFault>
        requires { place < length self.old.rows }
        ensures same { self.new.rows ≡ self.old.rows }
        ensures fits { IfOk result (λ plan. FitsTable plan self.new.indexes) }
        ensures place { IfOk result (λ plan. plan.place ≡ place) }
        ensures ok { IfOk result (λ plan. (row : KeptCache)
            → slice_get self.old.rows place ≡ Some row
            → batch row.pairs ops.items ≡ Ok (carried plan.change row.pairs)) }
        ensures err { IfErr result (λ fault. (row : KeptCache)
            → slice_get self.old.rows place ≡ Some row
            → IsThrown fault (batch row.pairs ops.items)) }
    {
        let total = self.sums.total;
        plan_pairs(self.rows.value_mut(place), alloc, place, ops, total)
    }

    /// Carries a plan out; it takes no memory.
    pub fn carry_out(&mut self, plan: CachePlan)
        requires { FitsTable plan self.old.indexes }
        ensures { self.new.rows ≡ carried_rows plan self.old.rows }
    {
        let place = plan.place;
        let (before, after) = carry_row(&mut self.rows, plan);
        self.sums.change(&self.rows.row(place).key, before, after);
    }

    /// A batch on the cache of this name (Service Workers, Appendix A, "Batch Cache Operations").
    /// Any refusal leaves all as it was.
    pub fn batch(
        &mut self,
        alloc: Global,
        key: &Text,
        name: &Text,
        ops: Vec<Op>,
    ) -> Result<(), BatchFault>
        ensures ok { OnOk result (IsBatch key.now name.now ops.items self.old.rows self.new.rows) }
        ensures same { OnErr result (self.new.rows ≡ self.old.rows) }
        ensures err { IfErr result (IsRefused key.now name.now ops.items self.old.rows) }
    {
        let plan = self.plan(alloc, key, name, ops)?;
        self.carry_out(plan);
        Ok(())
    }

    /// The places of the pairs of the cache of this name that a query matches, rising.
    pub fn places(
        &self,
        alloc: Global,
        key: &Text,
        name: &Text,
        query: &Request,
        options: Options,
    ) -> Result<Vec<u32>, CacheFault>
        ensures places { IfOk result (λ places.
            option_map (λ pairs. query_of pairs query.now options)
            (pairs_of key.now name.now self.now.rows) ≡ Some places.items) }
        ensures gone { IsErrOf result CacheFault.CacheGone
            ↔ (pairs_of key.now name.now self.now.rows ≡ None) }
    {
        match self.cache(key, name) {
            Some(pairs) => Ok(pairs.places(alloc, query, options)?),
            None => Err(CacheFault::CacheGone),
        }
    }

    /// All places of the cache of this name, or those of the pairs that a query matches, rising.
    pub fn keys(
        &self,
        alloc: Global,
        key: &Text,
        name: &Text,
        query: Option<&Request>,
        options: Options,
    ) -> Result<Vec<u32>, CacheFault>
        ensures places { IfOk result (λ places.
            option_map (λ pairs. asked_places pairs (option_copied query.entry) options)
            (pairs_of key.now name.now self.now.rows) ≡ Some places.items) }
        ensures gone { IsErrOf result CacheFault.CacheGone
            ↔ (pairs_of key.now name.now self.now.rows ≡ None) }
    {
        match query {
            Some(query) => self.places(alloc, key, name, query, options),
            None => self.all_places(alloc, key, name),
        }
    }

    fn all_places(&self, alloc: Global, key: &Text, name: &Text) -> Result<Vec<u32>, CacheFault>
        ensures places { IfOk result (λ places.
            option_map (λ pairs. range_with_len 0 (length pairs))
            (pairs_of key.now name.now self.now.rows) ≡ Some places.items) }
        ensures gone { IsErrOf result CacheFault.CacheGone
            ↔ (pairs_of key.now name.now self.now.rows ≡ None) }
    {
        match self.cache(key, name) {
            Some(pairs) => Ok(pairs.all(alloc)?),
            None => Err(CacheFault::CacheGone),
        }
    }

    /// Whether a query has a match in the cache of this name; it takes no memory.
    pub fn has_match(
        &self,
        key: &Text,
        name: &Text,
        query: &Request,
        options: Options,
    ) -> Option<bool>
        ensures { result ≡ option_map (λ pairs. is_some (first_match pairs query.now options))
            (pairs_of key.now name.now self.now.rows) }
    {
        match self.cache(key, name) {
            Some(pairs) => Some(pairs.first(query, options).is_some()),
            None => None,
        }
    }

    /// The first match in the first cache of a key that has one, in order of creation, or in the
    /// cache of this name alone, as the answer of a look-up has it (Service Workers, CacheStorage,
    /// "match()"); it takes no memory.
    pub fn find(
        &self,
        key: &Text,
        name: Option<&Text>,
        query: &Request,
        options: Options,
    ) -> Option<Found<'_>>
        ensures { option_map_or found_answer result answer.None
            ≡ first_hit query.now options
            (asked_caches key.now (option_copied name.entry) self.now.rows) }
    {
        first_found(&self.rows, key, name, query, options)
    }

    /// The first match in the first cache of a key that has one, in order of creation, or in the
    /// cache of this name alone (Service Workers, CacheStorage, "match()"); it takes no memory.
    pub fn match_any(
        &self,
        key: &Text,
        name: Option<&Text>,
        query: &Request,
        options: Options,
    ) -> Option<Hit>
        ensures { option_map (λ hit. (hit.cache, hit.place)) result
            ≡ hit_from 0 (option_copied name.entry) query.now options
            (caches_of key.now self.now.rows) }
    {
        first_hit(&self.rows, key, name, query, options)
    }
}
