//! Events that are actions on caches, worked out and done.

ghost use Rattle.std.specs.Prelude.{◌≡◌, true, is_some, IfOk, option_copied, option_map};
ghost use Rattle.std.specs.Option.{IfSome};
ghost use Rattle.sw_rules.specs.Caching.{with_key};
ghost use Rattle.sw_cachestorage.specs.Actions.{cache_action};
ghost use Rattle.sw_cachestorage.specs.Acts.{FitsAct, IsStep, acted};

use crate::act::{CacheAct, CacheStep, refused};
use crate::caching::{cache_names, delete_cache, has_cache, open_cache};
use crate::lookups::{match_request, query_cache};
use crate::place::place_key;
use crate::writes::{batch_ops, delete_request, put_response};
use std::alloc::Global;
use sw_caches::Caches;
use sw_data::{Event, NoMemory, Place, Text};

// The page that makes an action on caches.
fn place_of(event: &Event) -> Option<&Place>
    ensures { option_copied result ≡ option_map (λ action. action.place) (cache_action event.now) }
{
    match event {
        Event::CacheOpen { place, .. }
        | Event::CacheHas { place, .. }
        | Event::CacheDelete { place, .. }
        | Event::CacheKeys { place, .. }
        | Event::Match { place, .. }
        | Event::MatchAll { place, .. }
        | Event::Keys { place, .. }
        | Event::Put { place, .. }
        | Event::Delete { place, .. }
        | Event::Batch { place, .. } => Some(place),
        _ => None,
    }
}

/// Whether an event is an action on caches, which can be worked out. It takes no memory.
pub fn is_on_caches(event: &Event) -> bool
    ensures { result ≡ is_some (cache_action event.now) }
{
    place_of(event).is_some()
}

// An action on caches at a key, worked out.
fn act_at(
    alloc: Global,
    caches: &mut Caches,
    key: &Text,
    event: &Event,
) -> Result<CacheStep, NoMemory>
    requires { is_some (cache_action event.now) ≡ true }
    ensures same { caches.new.rows ≡ caches.old.rows }
    ensures fits { IfOk result (λ step. FitsAct step.act caches.new) }
    ensures step { IfOk result (λ step. IfSome (cache_action event.now)
        (λ action. IsStep caches.old.rows (λ state. action.act state key.now) step)) }
{
    match event {
        Event::CacheOpen { name, .. } => open_cache(alloc, caches, key, name),
        Event::CacheHas { name, .. } => Ok(has_cache(alloc, caches, key, name)),
        Event::CacheDelete { name, .. } => delete_cache(alloc, caches, key, name),
        Event::CacheKeys { .. } => cache_names(alloc, caches, key),
        Event::Match { place, find, .. } => match_request(
            alloc,
            caches,
            &place.at,
            key,
            find.get(),
        ),
        Event::MatchAll { place, query, .. } => query_cache(
            alloc,
            caches,
            &place.at,
            key,
            query.get(),
        ),
        Event::Keys { place, query, .. } => query_cache(alloc, caches, &place.at, key, query.get()),
        Event::Put { place, put, .. } => put_response(alloc, caches, &place.at, key, put.get()),
        Event::Delete { place, delete, .. } => {
            delete_request(alloc, caches, &place.at, key, delete.get())
        }
        Event::Batch { place, batch, .. } => batch_ops(alloc, caches, &place.at, key, batch.get()),
        _ => unreachable!(),
    }
}

/// An action on caches, worked out with all its room. The caches stay as they are.
pub fn prepare_on_caches(
    alloc: Global,
    caches: &mut Caches,
    event: &Event,
) -> Result<CacheStep, NoMemory>
    requires { is_some (cache_action event.now) ≡ true }
    ensures same { caches.new.rows ≡ caches.old.rows }
    ensures fits { IfOk result (λ step. FitsAct step.act caches.new) }
    ensures step { IfOk result (λ step. IfSome (cache_action event.now)
        (λ action. IsStep caches.old.rows
        (λ state. with_key state action.place (action.act state)) step)) }
{
    let Some(place) = place_of(event) else {
        unreachable!();
    };
    match place_key(alloc, place)? {
        Ok(key) => act_at(alloc, caches, &key, event),
        Err(why) => Ok(refused(alloc, why)),
    }
}

/// Does what was worked out; it takes no memory.
pub fn finish_on_caches(caches: &mut Caches, act: CacheAct)
    requires { FitsAct act caches.old }
    ensures { caches.new.rows ≡ acted act caches.old.rows }
{
    match act {
        CacheAct::Nothing => (),
        CacheAct::Make(new) => caches.make_put(new),
        CacheAct::Drop { key, name } => {
            caches.delete(&key, &name);
        }
        CacheAct::Carry(plan) => caches.carry_out(plan),
    }
}
