//! Lane lines: the members of each form.

ghost use Rattle.std.specs.Prelude.{◌≡◌, IfOk};
ghost use Rattle.serde_json.specs.View.{view};
ghost use Rattle.sw_record.specs.Lanes as lanes;

use crate::clients::{
    client_member, client_scope_parts, event_member, of_member, partition_member, place_parts,
    preload_value_member, register_parts, slot_member, text_member,
};
use serde_json::Value;
use std::alloc::Global;
use sw_data::{
    Boxed, CacheAddAll, CacheBatch, CacheDelete, CacheMatch, CachePut, CacheQuery, ClientScope,
    Place, Registering, Slot, Text,
};
use sw_forms::{
    Flaw, NO_FORM, Part, add_all_parts, batch_parts, both, delete_parts, has_only, match_parts,
    name_member, put_parts, query_parts,
};

/// A client that opens at an address.
#[tactic(auto, unfolding(crate::specs::Lanes::open_line))]
pub fn open_line(alloc: Global, value: &Value) -> Part<(u32, (Text, Option<Boxed<Text>>))>
    ensures { IfOk result (λ parts. parts ≡ lanes.open_line (view value.now)) }
{
    if !has_only(&["lane", "do", "client", "url", "partition"], value) {
        return Ok(Err(NO_FORM));
    }
    let url = text_member(alloc, "url", value)?;
    let partition = partition_member(alloc, value)?;
    Ok(both(client_member(value), both(url, partition)))
}

/// A client alone.
#[tactic(auto, unfolding(crate::specs::Lanes::client_line))]
pub fn client_line(value: &Value) -> Result<u32, Flaw>
    ensures { result ≡ lanes.client_line (view value.now) }
{
    if !has_only(&["lane", "do", "client"], value) {
        return Err(NO_FORM);
    }
    client_member(value)
}

/// A registration that a client asks for.
#[tactic(auto, unfolding(crate::specs::Lanes::register_line))]
pub fn register_line(alloc: Global, value: &Value) -> Part<Boxed<Registering>>
    ensures { IfOk result (λ register. register ≡ lanes.register_line (view value.now)) }
{
    if !has_only(
        &["lane", "do", "client", "script", "scope", "type", "cache"],
        value,
    ) {
        return Ok(Err(NO_FORM));
    }
    register_parts(alloc, value)
}

/// A client and a scope.
#[tactic(auto, unfolding(crate::specs::Lanes::scope_line))]
pub fn scope_line(alloc: Global, value: &Value) -> Part<ClientScope>
    ensures { IfOk result (λ of. of ≡ lanes.scope_line (view value.now)) }
{
    if !has_only(&["lane", "do", "client", "scope"], value) {
        return Ok(Err(NO_FORM));
    }
    client_scope_parts(alloc, value)
}

/// A position of the lane.
#[tactic(auto, unfolding(crate::specs::Lanes::await_line))]
pub fn await_line(value: &Value) -> Result<u32, Flaw>
    ensures { result ≡ lanes.await_line (view value.now) }
{
    if !has_only(&["lane", "do", "of"], value) {
        return Err(NO_FORM);
    }
    of_member(value)
}

/// A client and an address.
#[tactic(auto, unfolding(crate::specs::Lanes::url_line))]
pub fn url_line(alloc: Global, value: &Value) -> Part<(u32, Text)>
    ensures { IfOk result (λ parts. parts ≡ lanes.url_line (view value.now)) }
{
    if !has_only(&["lane", "do", "client", "url"], value) {
        return Ok(Err(NO_FORM));
    }
    let url = text_member(alloc, "url", value)?;
    Ok(both(client_member(value), url))
}

/// A client, a scope and a slot.
#[tactic(auto, unfolding(crate::specs::Lanes::slot_line))]
pub fn slot_line(alloc: Global, value: &Value) -> Part<(ClientScope, Slot)>
    ensures { IfOk result (λ parts. parts ≡ lanes.slot_line (view value.now)) }
{
    if !has_only(&["lane", "do", "client", "scope", "slot"], value) {
        return Ok(Err(NO_FORM));
    }
    let of = client_scope_parts(alloc, value)?;
    Ok(both(of, slot_member(value)))
}

/// A client and an event.
#[tactic(auto, unfolding(crate::specs::Lanes::begin_line))]
pub fn begin_line(value: &Value) -> Result<(u32, u32), Flaw>
    ensures { result ≡ lanes.begin_line (view value.now) }
{
    if !has_only(&["lane", "do", "client", "event"], value) {
        return Err(NO_FORM);
    }
    both(client_member(value), event_member(value))
}

/// An event.
#[tactic(auto, unfolding(crate::specs::Lanes::event_line))]
pub fn event_line(value: &Value) -> Result<u32, Flaw>
    ensures { result ≡ lanes.event_line (view value.now) }
{
    if !has_only(&["lane", "do", "event"], value) {
        return Err(NO_FORM);
    }
    event_member(value)
}

/// A client, a scope and a preload value.
#[tactic(auto, unfolding(crate::specs::Lanes::preload_line))]
pub fn preload_line(alloc: Global, value: &Value) -> Part<(ClientScope, Text)>
    ensures { IfOk result (λ parts. parts ≡ lanes.preload_line (view value.now)) }
{
    if !has_only(&["lane", "do", "client", "scope", "value"], value) {
        return Ok(Err(NO_FORM));
    }
    let of = client_scope_parts(alloc, value)?;
    let kept = preload_value_member(alloc, value)?;
    Ok(both(of, kept))
}

/// A page alone.
#[tactic(auto, unfolding(crate::specs::Lanes::page_line))]
pub fn page_line(alloc: Global, value: &Value) -> Part<Place>
    ensures { IfOk result (λ place. place ≡ lanes.page_line (view value.now)) }
{
    if !has_only(&["lane", "do", "at", "partition"], value) {
        return Ok(Err(NO_FORM));
    }
    place_parts(alloc, value)
}

/// A page and the name of a cache.
#[tactic(auto, unfolding(crate::specs::Lanes::name_line))]
pub fn name_line(alloc: Global, value: &Value) -> Part<(Place, Text)>
    ensures { IfOk result (λ parts. parts ≡ lanes.name_line (view value.now)) }
{
    if !has_only(&["lane", "do", "at", "partition", "name"], value) {
        return Ok(Err(NO_FORM));
    }
    let place = place_parts(alloc, value)?;
    let name = name_member(alloc, value)?;
    Ok(both(place, name))
}

// The members of a line with a query, and no other.
fn has_query_names(value: &Value) -> bool
    ensures { result ≡ lanes.has_query_names (view value.now) }
{
    has_only(
        &[
            "lane",
            "do",
            "at",
            "partition",
            "name",
            "request",
            "ignoreSearch",
            "ignoreMethod",
            "ignoreVary",
        ],
        value,
    )
}

#[tactic(auto, unfolding(crate::specs::Lanes::match_line))]
pub fn match_line(alloc: Global, value: &Value) -> Part<(Place, Boxed<CacheMatch>)>
    ensures { IfOk result (λ parts. parts ≡ lanes.match_line (view value.now)) }
{
    if !has_query_names(value) {
        return Ok(Err(NO_FORM));
    }
    let place = place_parts(alloc, value)?;
    let find = match_parts(alloc, value)?;
    Ok(both(place, find))
}

#[tactic(auto, unfolding(crate::specs::Lanes::query_line))]
pub fn query_line(alloc: Global, value: &Value) -> Part<(Place, Boxed<CacheQuery>)>
    ensures { IfOk result (λ parts. parts ≡ lanes.query_line (view value.now)) }
{
    if !has_query_names(value) {
        return Ok(Err(NO_FORM));
    }
    let place = place_parts(alloc, value)?;
    let query = query_parts(alloc, value)?;
    Ok(both(place, query))
}

#[tactic(auto, unfolding(crate::specs::Lanes::delete_line))]
pub fn delete_line(alloc: Global, value: &Value) -> Part<(Place, Boxed<CacheDelete>)>
    ensures { IfOk result (λ parts. parts ≡ lanes.delete_line (view value.now)) }
{
    if !has_query_names(value) {
        return Ok(Err(NO_FORM));
    }
    let place = place_parts(alloc, value)?;
    let delete = delete_parts(alloc, value)?;
    Ok(both(place, delete))
}

#[tactic(auto, unfolding(crate::specs::Lanes::put_line))]
pub fn put_line(alloc: Global, value: &Value) -> Part<(Place, Boxed<CachePut>)>
    ensures { IfOk result (λ parts. parts ≡ lanes.put_line (view value.now)) }
{
    if !has_only(
        &[
            "lane",
            "do",
            "at",
            "partition",
            "name",
            "request",
            "response",
        ],
        value,
    ) {
        return Ok(Err(NO_FORM));
    }
    let place = place_parts(alloc, value)?;
    let put = put_parts(alloc, value)?;
    Ok(both(place, put))
}

#[tactic(auto, unfolding(crate::specs::Lanes::batch_line))]
pub fn batch_line(alloc: Global, value: &Value) -> Part<(Place, Boxed<CacheBatch>)>
    ensures { IfOk result (λ parts. parts ≡ lanes.batch_line (view value.now)) }
{
    if !has_only(
        &["lane", "do", "at", "partition", "name", "operations"],
        value,
    ) {
        return Ok(Err(NO_FORM));
    }
    let place = place_parts(alloc, value)?;
    let batch = batch_parts(alloc, value)?;
    Ok(both(place, batch))
}

#[tactic(auto, unfolding(crate::specs::Lanes::add_all_line))]
pub fn add_all_line(alloc: Global, value: &Value) -> Part<(Place, Boxed<CacheAddAll>)>
    ensures { IfOk result (λ parts. parts ≡ lanes.add_all_line (view value.now)) }
{
    if !has_only(
        &["lane", "do", "at", "partition", "name", "requests"],
        value,
    ) {
        return Ok(Err(NO_FORM));
    }
    let place = place_parts(alloc, value)?;
    let add = add_all_parts(alloc, value)?;
    Ok(both(place, add))
}
