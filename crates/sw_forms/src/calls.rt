//! The calls of handlers.

ghost use Rattle.std.specs.Prelude.{◌≡◌, IfOk};
ghost use Rattle.serde_json.specs.View.{view};
ghost use Rattle.sw_forms.specs.Caches as caches;

use crate::caches::{add_all_parts, batch_parts, delete_parts, name_member, put_parts};
use crate::error::Limit;
use crate::flaw::{Flaw, NO_FORM, Part};
use crate::limits::CALLS_LIMIT;
use crate::lists::{FromValue, list_of};
use crate::members::has_only;
use crate::word::{Word, word_member};
use serde_json::Value;
use std::alloc::Global;
use sw_data::{Boxed, CacheAddAll, CacheBatch, CacheDelete, CachePut, Call, Items, Text};

// A call without members of its own.
fn bare_call(bare: Call, value: &Value) -> Result<Call, Flaw>
    ensures { result ≡ caches.bare_call bare (view value.now) }
{
    if has_only(&["do"], value) {
        Ok(bare)
    } else {
        Err(NO_FORM)
    }
}

// The name of a call that has nothing else.
#[tactic(auto, unfolding(crate::specs::Caches::name_call))]
fn name_call(alloc: Global, value: &Value) -> Part<Text>
    ensures { IfOk result (λ name. name ≡ caches.name_call (view value.now)) }
{
    if !has_only(&["do", "name"], value) {
        return Ok(Err(NO_FORM));
    }
    name_member(alloc, value)
}

#[tactic(auto, unfolding(crate::specs::Caches::put_call))]
fn put_call(alloc: Global, value: &Value) -> Part<Boxed<CachePut>>
    ensures { IfOk result (λ put. put ≡ caches.put_call (view value.now)) }
{
    if !has_only(&["do", "name", "request", "response"], value) {
        return Ok(Err(NO_FORM));
    }
    put_parts(alloc, value)
}

#[tactic(auto, unfolding(crate::specs::Caches::delete_call))]
fn delete_call(alloc: Global, value: &Value) -> Part<Boxed<CacheDelete>>
    ensures { IfOk result (λ delete. delete ≡ caches.delete_call (view value.now)) }
{
    if !has_only(
        &[
            "do",
            "name",
            "request",
            "ignoreSearch",
            "ignoreMethod",
            "ignoreVary",
        ],
        value,
    ) {
        return Ok(Err(NO_FORM));
    }
    delete_parts(alloc, value)
}

#[tactic(auto, unfolding(crate::specs::Caches::batch_call))]
fn batch_call(alloc: Global, value: &Value) -> Part<Boxed<CacheBatch>>
    ensures { IfOk result (λ batch. batch ≡ caches.batch_call (view value.now)) }
{
    if !has_only(&["do", "name", "operations"], value) {
        return Ok(Err(NO_FORM));
    }
    batch_parts(alloc, value)
}

#[tactic(auto, unfolding(crate::specs::Caches::add_all_call))]
fn add_all_call(alloc: Global, value: &Value) -> Part<Boxed<CacheAddAll>>
    ensures { IfOk result (λ add. add ≡ caches.add_all_call (view value.now)) }
{
    if !has_only(&["do", "name", "requests"], value) {
        return Ok(Err(NO_FORM));
    }
    add_all_parts(alloc, value)
}

// The call that a word names.
#[tactic(auto, unfolding(crate::specs::Caches::call_of_word))]
fn call_of_word(alloc: Global, word: Word, value: &Value) -> Part<Call>
    ensures { IfOk result (λ call. call ≡ caches.call_of_word word (view value.now)) }
{
    Ok(match word {
        Word::SkipWaiting => bare_call(Call::SkipWaiting, value),
        Word::Claim => bare_call(Call::Claim, value),
        Word::Update => bare_call(Call::Update, value),
        Word::CacheOpen => name_call(alloc, value)?.map(|name| Call::CacheOpen { name }),
        Word::CacheDelete => name_call(alloc, value)?.map(|name| Call::CacheDelete { name }),
        Word::Put => put_call(alloc, value)?.map(|put| Call::Put(put)),
        Word::Delete => delete_call(alloc, value)?.map(|delete| Call::Delete(delete)),
        Word::Batch => batch_call(alloc, value)?.map(|batch| Call::Batch(batch)),
        Word::AddAll => add_all_call(alloc, value)?.map(|add| Call::AddAll(add)),
        _ => Err(NO_FORM),
    })
}

impl FromValue for Call {
    ghost use Rattle.sw_forms.specs.Caches.{call_of};

    ghost reads = { call_of };

    #[tactic(auto, unfolding(crate::specs::Caches::call_of))]
    fn from_value(alloc: Global, value: &Value) -> Part<Call> {
        match word_member(value) {
            Some(word) => call_of_word(alloc, word, value),
            None => Ok(Err(NO_FORM)),
        }
    }
}

/// The calls of a handler.
#[tactic(auto, unfolding(crate::specs::Caches::calls_of))]
pub fn calls_of(alloc: Global, value: &Value) -> Part<Items<Call>>
    ensures { IfOk result (λ calls. calls ≡ caches.calls_of (view value.now)) }
{
    list_of(alloc, CALLS_LIMIT, Flaw::Limit(Limit::Calls), value)
}
