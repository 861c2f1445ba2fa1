//! Matches in the caches of a key.

ghost use Rattle.std.specs.Prelude.{◌≡◌, true, map, option_copied, option_map, bytes_eq};
ghost use Rattle.std.specs.Option.{option_map_or};
ghost use Rattle.sw_data.specs.declared.answers.Answer.TheVariants as answer;
ghost use Rattle.sw_rules.specs.Caching as rules;
ghost use Rattle.sw_rules.specs.Caching.{asked_caches};
ghost use Rattle.sw_caches.specs.Hits.{found_answer};
ghost use Rattle.sw_caches.specs.Tables.{caches_of, hit_from, hit_in, kept_row};
ghost use Rattle.sw_list.specs.Named.{named_row};

use crate::pairs::Pairs;
use crate::rows::{next_asked, next_cache};
use crate::table::Hit;
use sw_data::{Options, Request, Response, Text};
use sw_list::{Named, Row};

// The cache has this name, or no name is given.
fn is_asked(row: &Row<Pairs>, name: Option<&Text>) -> bool
    ensures { result ≡ option_map_or (bytes_eq row.now.name) (option_copied name.entry) true }
{
    match name {
        Some(name) => row.name == *name,
        None => true,
    }
}

// The first place that matches in a cache that is asked.
fn hit_in(row: &Row<Pairs>, name: Option<&Text>, query: &Request, options: Options) -> Option<u32>
    ensures { result
        ≡ hit_in (option_copied name.entry) query.now options (kept_row (named_row row.now)) }
{
    if !is_asked(row, name) {
        return None;
    }
    match row.value.first(query, options) {
        Some((place, _)) => Some(place as u32),
        None => None,
    }
}

// The first match in the caches of a key.
pub(crate) fn first_hit(
    rows: &Named<Pairs>,
    key: &Text,
    name: Option<&Text>,
    query: &Request,
    options: Options,
) -> Option<Hit>
    ensures { option_map (λ hit. (hit.cache, hit.place)) result
        ≡ hit_from 0 (option_copied name.entry) query.now options
        (caches_of key.now (map kept_row rows.now.rows)) }
{
    let mut cache: u32 = 0;
    let mut from = 0;
    while let Some((row, next)) = next_cache(rows, key, from) {
        if let Some(place) = hit_in(row, name, query, options) {
            return Some(Hit { cache, place });
        }
        cache += 1;
        from = next;
    }
    None
}

/// The first match of a look-up: the name of its cache, its place there and its response.
#[derive(Drop)]
pub struct Found<'a> {
    pub name: &'a Text,
    pub place: u32,
    pub response: &'a Response,
}

// The first match in the caches of a key, or in the one of a name, with its response.
pub(crate) fn first_found<'a>(
    rows: &'a Named<Pairs>,
    key: &Text,
    name: Option<&Text>,
    query: &Request,
    options: Options,
) -> Option<Found<'a>>
    ensures { option_map_or found_answer result answer.None
        ≡ rules.first_hit query.now options
        (asked_caches key.now (option_copied name.entry) (map kept_row rows.now.rows)) }
{
    let mut from = 0;
    while let Some((row, next)) = next_asked(rows, key, name, from) {
        if let Some((place, pair)) = row.value.first(query, options) {
            return Some(Found {
                name: &row.name,
                place: place as u32,
                response: &pair.1,
            });
        }
        from = next;
    }
    None
}
