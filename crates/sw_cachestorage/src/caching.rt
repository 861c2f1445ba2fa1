//! Actions of CacheStorage (Service Workers, "CacheStorage").

ghost use Rattle.std.specs.Prelude.{◌≡◌, IfOk};
ghost use Rattle.sw_rules.specs.Caching as rules;
ghost use Rattle.sw_cachestorage.specs.Acts.{FitsAct, IsStep};

use crate::act::{CacheAct, CacheStep, answered};
use crate::changes::{dropped, made};
use std::alloc::Global;
use sw_caches::Caches;
use sw_data::{Answer, Items, NoMemory, Text};

/// A cache is opened, and made where it is absent ("open()").
#[tactic(auto, unfolding(sw_rules::specs::Caching::add_cache))]
pub fn open_cache(
    alloc: Global,
    caches: &mut Caches,
    key: &Text,
    name: &Text,
) -> Result<CacheStep, NoMemory>
    ensures same { caches.new.rows ≡ caches.old.rows }
    ensures fits { IfOk result (λ step. FitsAct step.act caches.new) }
    ensures step { IfOk result
        (IsStep caches.old.rows (λ state. rules.open_cache state name.now key.now)) }
{
    if caches.has(key, name) {
        return Ok(answered(alloc, Answer::Found));
    }
    let changes = made(alloc, key, name)?;
    let new = caches.make_row(alloc, key, name)?;
    Ok(CacheStep {
        answer: Answer::Made,
        act: CacheAct::Make(new),
        changes,
    })
}

/// Whether a cache is there ("has()").
pub fn has_cache(alloc: Global, caches: &Caches, key: &Text, name: &Text) -> CacheStep
    ensures fits { FitsAct result.act caches.now }
    ensures step { IsStep caches.now.rows (λ state. rules.has_cache state name.now key.now) result }
{
    answered(alloc, Answer::Truth(caches.has(key, name)))
}

/// A cache is removed ("delete()").
#[tactic(auto, unfolding(sw_rules::specs::Caching::drop_cache))]
pub fn delete_cache(
    alloc: Global,
    caches: &Caches,
    key: &Text,
    name: &Text,
) -> Result<CacheStep, NoMemory>
    ensures fits { IfOk result (λ step. FitsAct step.act caches.now) }
    ensures step { IfOk result
        (IsStep caches.now.rows (λ state. rules.delete_cache state name.now key.now)) }
{
    if !caches.has(key, name) {
        return Ok(answered(alloc, Answer::Truth(false)));
    }
    let changes = dropped(alloc, key, name)?;
    Ok(CacheStep {
        answer: Answer::Truth(true),
        act: CacheAct::Drop {
            key: key.copy(alloc)?,
            name: name.copy(alloc)?,
        },
        changes,
    })
}

/// The names of a key's caches ("keys()").
pub fn cache_names(alloc: Global, caches: &Caches, key: &Text) -> Result<CacheStep, NoMemory>
    ensures fits { IfOk result (λ step. FitsAct step.act caches.now) }
    ensures step { IfOk result
        (IsStep caches.now.rows (λ state. rules.cache_names state key.now)) }
{
    let names = caches.names(alloc, key)?;
    Ok(answered(alloc, Answer::Names(Items::from_vec(names))))
}
