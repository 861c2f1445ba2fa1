//! The caches of all keys, each under its key and its name.

ghost use Rattle.std.specs.Prelude.{◌≡◌, ◌<◌, ◌^◌, [], Some, MatchOption, IfOk, filter, map, option_copied, slice_get};
ghost use Rattle.std.specs.List.{All};
ghost use Rattle.sw_list.specs.Named.{named_row, named_rows, values};
ghost use Rattle.sw_rules.specs.Storage.{is_cache};
ghost use Rattle.sw_caches.specs.Bytes.{bytes_of, made_size};
ghost use Rattle.sw_caches.specs.Hits.{is_asked};
ghost use Rattle.sw_caches.specs.Plans.{carried};
ghost use Rattle.sw_caches.specs.Tables as tables;
ghost use Rattle.sw_caches.specs.Tables.{FitsTable, HasNames, IsNextCache, IsNextBy, caches_from, caches_of, carried_rows, index_size, kept_row, passing_from};

use crate::pairs::Pairs;
use crate::table::CachePlan;
use std::alloc::Global;
use sw_data::{KeptCache, NoMemory, Text};
use sw_list::{Named, Row};

// The first cache of a key at a place or behind it, and the place behind that; it takes no memory.
pub(crate) fn next_cache<'a>(
    rows: &'a Named<Pairs>,
    key: &Text,
    from: usize,
) -> Option<(&'a Row<Pairs>, usize)>
    ensures { MatchOption result (caches_from key.now from rows.now.rows ≡ [])
        (λ found. IsNextCache key.now from rows.now.rows (kept_row (named_row found.0.now)) found.1) }
{
    match rows.next_of(key, from) {
        Some(place) => Some((rows.row(place), place + 1)),
        None => None,
    }
}

// The first cache of a key and a name at a place or behind it, and the place behind that; it takes no
// memory.
fn next_named<'a>(
    rows: &'a Named<Pairs>,
    key: &Text,
    name: &Text,
    from: usize,
) -> Option<(&'a Row<Pairs>, usize)>
    ensures { MatchOption result
        (passing_from (is_cache key.now name.now) from rows.now.rows ≡ [])
        (λ found. IsNextBy (is_cache key.now name.now) from rows.now.rows
        (kept_row (named_row found.0.now)) found.1) }
{
    match rows.next_named(key, name, from) {
        Some(place) => Some((rows.row(place), place + 1)),
        None => None,
    }
}

// The first cache at a place or behind it that is of a key, and where a name is given of this name, and
// the place behind that; it takes no memory.
pub(crate) fn next_asked<'a>(
    rows: &'a Named<Pairs>,
    key: &Text,
    name: Option<&Text>,
    from: usize,
) -> Option<(&'a Row<Pairs>, usize)>
    ensures { MatchOption result
        (passing_from (is_asked key.now (option_copied name.entry)) from rows.now.rows ≡ [])
        (λ found. IsNextBy (is_asked key.now (option_copied name.entry)) from rows.now.rows
        (kept_row (named_row found.0.now)) found.1) }
{
    match name {
        Some(name) => next_named(rows, key, name, from),
        None => next_cache(rows, key, from),
    }
}

// The names of the caches of a key, in order.
pub(crate) fn names_of(
    alloc: Global,
    rows: &Named<Pairs>,
    key: &Text,
) -> Result<Vec<Text>, NoMemory>
    ensures { IfOk result (λ names. names.items
        ≡ map (λ row. row.name) (caches_of key.now (map kept_row rows.now.rows))) }
{
    let mut names = Vec::new(alloc);
    let mut from = 0;
    while let Some((row, next)) = next_cache(rows, key, from) {
        names.push(row.name.copy(alloc)?)?;
        from = next;
    }
    Ok(names)
}

// The bytes of the caches of a key and a name; it takes no memory.
pub(crate) fn named_bytes(rows: &Named<Pairs>, key: &Text, name: &Text) -> u64
    requires names { All HasNames rows.now.rows }
    requires few { bytes_of (map kept_row rows.now.rows) < 2 ^ 64 }
    ensures { result
        ≡ bytes_of (filter (is_cache key.now name.now) (map kept_row rows.now.rows)) }
{
    let mut bytes = 0;
    let mut from = 0;
    while let Some(place) = rows.next_named(key, name, from) {
        bytes += rows.row(place).value.bytes();
        from = place + 1;
    }
    bytes
}

// Carries a plan out on its cache, and gives the bytes of the cache before and behind it; it takes no
// memory.
pub(crate) fn carry_row(rows: &mut Named<Pairs>, plan: CachePlan) -> (u64, u64)
    requires { FitsTable plan (values rows.old.rows) }
    ensures rows { map kept_row rows.new.rows ≡ carried_rows plan (map kept_row rows.old.rows) }
    ensures names { All HasNames rows.old.rows → All HasNames rows.new.rows }
    ensures bytes { (row : tables.Row) → slice_get rows.old.rows plan.place ≡ Some row
        → (result.0 ≡ index_size row.1)
        × (result.1 ≡ made_size row.1.names (carried plan.change row.1.pairs)) }
{
    let CachePlan {
        place,
        change,
        bytes,
    } = plan;
    let cache = rows.value_mut(place);
    let before = cache.bytes();
    cache.carry_out(change, bytes);
    (before, cache.bytes())
}

// Caches as they are kept, as a list of its own.
pub(crate) fn kept_of(alloc: Global, rows: &Named<Pairs>) -> Result<Vec<KeptCache>, NoMemory>
    ensures { IfOk result (λ kept. kept.items ≡ map kept_row rows.now.rows) }
{
    let mut kept = Vec::new(alloc);
    for place in 0..rows.len() {
        let row = rows.row(place);
        kept.push(KeptCache {
            key: row.key.copy(alloc)?,
            name: row.name.copy(alloc)?,
            pairs: row.value.to_items(alloc)?,
        })?;
    }
    Ok(kept)
}

// Caches as they are kept, none of their pairs copied.
pub(crate) fn into_kept(alloc: Global, rows: Vec<Row<Pairs>>) -> Result<Vec<KeptCache>, NoMemory>
    ensures { IfOk result (λ kept. kept.items ≡ map kept_row (named_rows rows.items)) }
{
    let mut kept = Vec::new(alloc);
    for row in rows {
        kept.push(cache_of(alloc, row)?)?;
    }
    Ok(kept)
}

// A cache as it is kept, none of its pairs copied.
fn cache_of(alloc: Global, row: Row<Pairs>) -> Result<KeptCache, NoMemory>
    ensures { IfOk result (λ cache. cache ≡ kept_row (named_row row)) }
{
    Ok(KeptCache {
        key: row.key,
        name: row.name,
        pairs: row.value.into_items(alloc)?,
    })
}
