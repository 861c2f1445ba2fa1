//! Look-ups in caches (Service Workers, CacheStorage, "match()"; Cache, "matchAll()", "keys()").

ghost use Rattle.std.specs.Prelude.{◌≡◌, IfOk, option_copied};
ghost use Rattle.std.specs.Option.{option_map_or};
ghost use Rattle.sw_data.specs.declared.answers.Answer.TheVariants as answer;
ghost use Rattle.sw_caches.specs.Hits.{found_answer};
ghost use Rattle.sw_caches.specs.Tables.{asked_places};
ghost use Rattle.sw_rules.specs.Caching.{with_cache_pairs};
ghost use Rattle.sw_rules.specs.Told.{answered};
ghost use Rattle.sw_rules.specs.Caching as rules;
ghost use Rattle.sw_cachestorage.specs.Acts.{FitsAct, IsStep};

use crate::act::{CacheStep, answered, refused, unparsed};
use std::alloc::Global;
use sw_caches::{CacheFault, Caches, Found};
use sw_data::{Answer, CacheMatch, CacheQuery, Fault, Items, NoMemory, Options, Request, Text};
use sw_url::{UrlFault, resolve};

// The answer of what was found.
fn hit_answer(alloc: Global, found: Option<Found<'_>>) -> Result<Answer, NoMemory>
    ensures { IfOk result (λ reply. reply ≡ option_map_or found_answer found.entry answer.None) }
{
    match found {
        Some(found) => Ok(Answer::Hit {
            name: found.name.copy(alloc)?,
            place: found.place,
            status: found.response.status,
            length: found.response.body.get().as_bytes().len() as u64,
        }),
        None => Ok(Answer::None),
    }
}

/// The first match in the first cache of a key that has one ("match()"), the request's address being parsed against a
/// base.
pub fn match_request(
    alloc: Global,
    caches: &Caches,
    base: &Text,
    key: &Text,
    asked: &CacheMatch,
) -> Result<CacheStep, NoMemory>
    ensures fits { IfOk result (λ step. FitsAct step.act caches.now) }
    ensures step { IfOk result (IsStep caches.now.rows
        (λ state. rules.match_request state base.now asked.now key.now)) }
{
    match resolve(alloc, &asked.request.url, base) {
        Ok(url) => {
            let query = asked.request.with_url(alloc, url)?;
            let found = caches.find(key, asked.name.as_ref(), &query, asked.options);
            Ok(answered(alloc, hit_answer(alloc, found)?))
        }
        Err(UrlFault::NoMemory) => Err(NoMemory),
        Err(_) => Ok(unparsed(alloc)),
    }
}

// The places of the pairs that a query finds in the cache of this name, or all places.
fn places(
    alloc: Global,
    caches: &Caches,
    key: &Text,
    name: &Text,
    query: Option<&Request>,
    options: Options,
) -> Result<CacheStep, NoMemory>
    ensures fits { IfOk result (λ step. FitsAct step.act caches.now) }
    ensures step { IfOk result (IsStep caches.now.rows
        (λ state. with_cache_pairs state key.now name.now (λ pairs. answered state
        (answer.Places (asked_places pairs (option_copied query.entry) options))))) }
{
    match caches.keys(alloc, key, name, query, options) {
        Ok(places) => Ok(answered(alloc, Answer::Places(Items::from_vec(places)))),
        Err(CacheFault::CacheGone) => Ok(refused(alloc, Fault::CacheGone)),
        Err(CacheFault::NoMemory) => Err(NoMemory),
    }
}

/// The places of the pairs that a request matches, or all places where there is none ("matchAll()", "keys()").
pub fn query_cache(
    alloc: Global,
    caches: &Caches,
    base: &Text,
    key: &Text,
    asked: &CacheQuery,
) -> Result<CacheStep, NoMemory>
    ensures fits { IfOk result (λ step. FitsAct step.act caches.now) }
    ensures step { IfOk result (IsStep caches.now.rows
        (λ state. rules.query_cache state base.now asked.now key.now)) }
{
    if !caches.has(key, &asked.name) {
        return Ok(refused(alloc, Fault::CacheGone));
    }
    let Some(request) = &asked.request else {
        return places(alloc, caches, key, &asked.name, None, asked.options);
    };
    match resolve(alloc, &request.url, base) {
        Ok(url) => {
            let query = request.with_url(alloc, url)?;
            places(alloc, caches, key, &asked.name, Some(&query), asked.options)
        }
        Err(UrlFault::NoMemory) => Err(NoMemory),
        Err(_) => Ok(unparsed(alloc)),
    }
}
