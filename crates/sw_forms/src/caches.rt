//! The parts of cache actions and calls.

ghost use Rattle.std.specs.Prelude.{◌≡◌, IfOk};
ghost use Rattle.serde_json.specs.View.{view};
ghost use Rattle.sw_forms.specs.Caches as caches;

use crate::error::Limit;
use crate::exchanges::response_of;
use crate::flaw::{Flaw, NO_FORM, Part, both, boxed_part};
use crate::limits::OPERATIONS_LIMIT;
use crate::lists::{FromValue, list_of};
use crate::members::{has_only, short_text_member, short_text_option, truth_of};
use serde_json::Value;
use std::alloc::Global;
use sw_data::{
    Boxed, CacheAddAll, CacheBatch, CacheDelete, CacheMatch, CachePut, CacheQuery, Items, Op,
    Options, Request, Response, Text,
};

#[tactic(auto, unfolding(crate::specs::Caches::option_member))]
fn option_member(name: &str, value: &Value) -> Result<bool, Flaw>
    ensures { result ≡ caches.option_member name.now (view value.now) }
{
    match value.get(name) {
        Some(truth) => truth_of(truth),
        None => Ok(false),
    }
}

#[tactic(auto, unfolding(crate::specs::Flaws::both))]
fn options_from(
    search: Result<bool, Flaw>,
    method: Result<bool, Flaw>,
    vary: Result<bool, Flaw>,
) -> Result<Options, Flaw>
    ensures { result ≡ caches.options_from search method vary }
{
    match both(search, both(method, vary)) {
        Ok((ignore_search, (ignore_method, ignore_vary))) => Ok(Options {
            ignore_search,
            ignore_method,
            ignore_vary,
        }),
        Err(why) => Err(why),
    }
}

// The options of a query.
#[tactic(auto, unfolding(crate::specs::Caches::options_of))]
fn options_of(value: &Value) -> Result<Options, Flaw>
    ensures { result ≡ caches.options_of (view value.now) }
{
    let search = option_member("ignoreSearch", value);
    let method = option_member("ignoreMethod", value);
    let vary = option_member("ignoreVary", value);
    options_from(search, method, vary)
}

/// The name of a cache.
#[tactic(auto, unfolding(crate::specs::Caches::name_member))]
pub fn name_member(alloc: Global, value: &Value) -> Part<Text>
    ensures { IfOk result (λ name. name ≡ caches.name_member (view value.now)) }
{
    short_text_member(alloc, value.get("name"))
}

// A request under a name.
#[tactic(auto, unfolding(crate::specs::Caches::request_member))]
fn request_member(alloc: Global, name: &str, value: &Value) -> Part<Request>
    ensures { IfOk result (λ request. request ≡ caches.request_member name.now (view value.now)) }
{
    match value.get(name) {
        Some(request) => Request::from_value(alloc, request),
        None => Ok(Err(NO_FORM)),
    }
}

// The response of a put.
#[tactic(auto, unfolding(crate::specs::Caches::response_member))]
fn response_member(alloc: Global, value: &Value) -> Part<Response>
    ensures { IfOk result (λ response. response ≡ caches.response_member (view value.now)) }
{
    match value.get("response") {
        Some(response) => response_of(alloc, response),
        None => Ok(Err(NO_FORM)),
    }
}

#[tactic(auto, unfolding(crate::specs::Flaws::both))]
fn put_from(
    name: Result<Text, Flaw>,
    request: Result<Request, Flaw>,
    response: Result<Response, Flaw>,
) -> Result<CachePut, Flaw>
    ensures { result ≡ caches.put_from name request response }
{
    match both(name, both(request, response)) {
        Ok((name, (request, response))) => Ok(CachePut {
            name,
            request,
            response,
        }),
        Err(why) => Err(why),
    }
}

/// A response to keep under a request.
#[tactic(auto, unfolding(crate::specs::Caches::put_parts))]
pub fn put_parts(alloc: Global, value: &Value) -> Part<Boxed<CachePut>>
    ensures { IfOk result (λ put. put ≡ caches.put_parts (view value.now)) }
{
    let name = name_member(alloc, value)?;
    let request = request_member(alloc, "request", value)?;
    let response = response_member(alloc, value)?;
    boxed_part(alloc, put_from(name, request, response))
}

#[tactic(auto, unfolding(crate::specs::Flaws::both))]
fn delete_from(
    name: Result<Text, Flaw>,
    request: Result<Request, Flaw>,
    options: Result<Options, Flaw>,
) -> Result<CacheDelete, Flaw>
    ensures { result ≡ caches.delete_from name request options }
{
    match both(name, both(request, options)) {
        Ok((name, (request, options))) => Ok(CacheDelete {
            name,
            request,
            options,
        }),
        Err(why) => Err(why),
    }
}

/// What to remove from a cache.
#[tactic(auto, unfolding(crate::specs::Caches::delete_parts))]
pub fn delete_parts(alloc: Global, value: &Value) -> Part<Boxed<CacheDelete>>
    ensures { IfOk result (λ delete. delete ≡ caches.delete_parts (view value.now)) }
{
    let name = name_member(alloc, value)?;
    let request = request_member(alloc, "request", value)?;
    boxed_part(alloc, delete_from(name, request, options_of(value)))
}

#[tactic(auto, unfolding(crate::specs::Flaws::both))]
fn put_operation_from(
    request: Result<Request, Flaw>,
    response: Result<Response, Flaw>,
) -> Result<Op, Flaw>
    ensures { result ≡ caches.put_operation_from request response }
{
    match both(request, response) {
        Ok((request, response)) => Ok(Op::Put { request, response }),
        Err(why) => Err(why),
    }
}

// {"put":..,"response":..}
#[tactic(auto, unfolding(crate::specs::Caches::put_operation))]
fn put_operation(alloc: Global, value: &Value) -> Part<Op>
    ensures { IfOk result (λ op. op ≡ caches.put_operation (view value.now)) }
{
    if !has_only(&["put", "response"], value) {
        return Ok(Err(NO_FORM));
    }
    let request = request_member(alloc, "put", value)?;
    let response = response_member(alloc, value)?;
    Ok(put_operation_from(request, response))
}

#[tactic(auto, unfolding(crate::specs::Flaws::both))]
fn delete_operation_from(
    request: Result<Request, Flaw>,
    options: Result<Options, Flaw>,
) -> Result<Op, Flaw>
    ensures { result ≡ caches.delete_operation_from request options }
{
    match both(request, options) {
        Ok((request, options)) => Ok(Op::Delete { request, options }),
        Err(why) => Err(why),
    }
}

// {"delete":..} and options
#[tactic(auto, unfolding(crate::specs::Caches::delete_operation))]
fn delete_operation(alloc: Global, value: &Value) -> Part<Op>
    ensures { IfOk result (λ op. op ≡ caches.delete_operation (view value.now)) }
{
    if !has_only(
        &["delete", "ignoreSearch", "ignoreMethod", "ignoreVary"],
        value,
    ) {
        return Ok(Err(NO_FORM));
    }
    let request = request_member(alloc, "delete", value)?;
    Ok(delete_operation_from(request, options_of(value)))
}

impl FromValue for Op {
    ghost use Rattle.sw_forms.specs.Caches.{operation_of};

    ghost reads = { operation_of };

    #[tactic(auto, unfolding(crate::specs::Caches::operation_of))]
    fn from_value(alloc: Global, value: &Value) -> Part<Op> {
        match value.get("put") {
            Some(_) => put_operation(alloc, value),
            None => delete_operation(alloc, value),
        }
    }
}

#[tactic(auto, unfolding(crate::specs::Caches::operations_member))]
fn operations_member(alloc: Global, value: &Value) -> Part<Items<Op>>
    ensures { IfOk result (λ operations. operations
        ≡ caches.operations_member (view value.now)) }
{
    match value.get("operations") {
        Some(operations) => list_of(
            alloc,
            OPERATIONS_LIMIT,
            Flaw::Limit(Limit::Operations),
            operations,
        ),
        None => Ok(Err(NO_FORM)),
    }
}

#[tactic(auto, unfolding(crate::specs::Flaws::both))]
fn batch_from(
    name: Result<Text, Flaw>,
    operations: Result<Items<Op>, Flaw>,
) -> Result<CacheBatch, Flaw>
    ensures { result ≡ caches.batch_from name operations }
{
    match both(name, operations) {
        Ok((name, operations)) => Ok(CacheBatch { name, operations }),
        Err(why) => Err(why),
    }
}

/// The operations of a batch.
#[tactic(auto, unfolding(crate::specs::Caches::batch_parts))]
pub fn batch_parts(alloc: Global, value: &Value) -> Part<Boxed<CacheBatch>>
    ensures { IfOk result (λ batch. batch ≡ caches.batch_parts (view value.now)) }
{
    let name = name_member(alloc, value)?;
    let operations = operations_member(alloc, value)?;
    boxed_part(alloc, batch_from(name, operations))
}

#[tactic(auto, unfolding(crate::specs::Caches::requests_member))]
fn requests_member(alloc: Global, value: &Value) -> Part<Items<Request>>
    ensures { IfOk result (λ requests. requests ≡ caches.requests_member (view value.now)) }
{
    match value.get("requests") {
        Some(requests) => list_of(
            alloc,
            OPERATIONS_LIMIT,
            Flaw::Limit(Limit::Operations),
            requests,
        ),
        None => Ok(Err(NO_FORM)),
    }
}

#[tactic(auto, unfolding(crate::specs::Flaws::both))]
fn add_all_from(
    name: Result<Text, Flaw>,
    requests: Result<Items<Request>, Flaw>,
) -> Result<CacheAddAll, Flaw>
    ensures { result ≡ caches.add_all_from name requests }
{
    match both(name, requests) {
        Ok((name, requests)) => Ok(CacheAddAll { name, requests }),
        Err(why) => Err(why),
    }
}

/// The requests to fetch and keep.
#[tactic(auto, unfolding(crate::specs::Caches::add_all_parts))]
pub fn add_all_parts(alloc: Global, value: &Value) -> Part<Boxed<CacheAddAll>>
    ensures { IfOk result (λ add. add ≡ caches.add_all_parts (view value.now)) }
{
    let name = name_member(alloc, value)?;
    let requests = requests_member(alloc, value)?;
    boxed_part(alloc, add_all_from(name, requests))
}

// The name of a cache, where it is given.
#[tactic(auto, unfolding(crate::specs::Caches::name_option))]
fn name_option(alloc: Global, value: &Value) -> Part<Option<Text>>
    ensures { IfOk result (λ name. name ≡ caches.name_option (view value.now)) }
{
    short_text_option(alloc, value.get("name"))
}

#[tactic(auto, unfolding(crate::specs::Flaws::both))]
fn match_from(
    request: Result<Request, Flaw>,
    name: Result<Option<Text>, Flaw>,
    options: Result<Options, Flaw>,
) -> Result<CacheMatch, Flaw>
    ensures { result ≡ caches.match_from request name options }
{
    match both(request, both(name, options)) {
        Ok((request, (name, options))) => Ok(CacheMatch {
            request,
            name,
            options,
        }),
        Err(why) => Err(why),
    }
}

/// A look-up over all caches, or in one.
#[tactic(auto, unfolding(crate::specs::Caches::match_parts))]
pub fn match_parts(alloc: Global, value: &Value) -> Part<Boxed<CacheMatch>>
    ensures { IfOk result (λ find. find ≡ caches.match_parts (view value.now)) }
{
    let request = request_member(alloc, "request", value)?;
    let name = name_option(alloc, value)?;
    boxed_part(alloc, match_from(request, name, options_of(value)))
}

// A request, where it is given.
#[tactic(auto, unfolding(crate::specs::Caches::request_option))]
fn request_option(alloc: Global, value: &Value) -> Part<Option<Request>>
    ensures { IfOk result (λ request. request ≡ caches.request_option (view value.now)) }
{
    match value.get("request") {
        Some(request) => match Request::from_value(alloc, request)? {
            Ok(request) => Ok(Ok(Some(request))),
            Err(why) => Ok(Err(why)),
        },
        None => Ok(Ok(None)),
    }
}

#[tactic(auto, unfolding(crate::specs::Flaws::both))]
fn query_from(
    name: Result<Text, Flaw>,
    request: Result<Option<Request>, Flaw>,
    options: Result<Options, Flaw>,
) -> Result<CacheQuery, Flaw>
    ensures { result ≡ caches.query_from name request options }
{
    match both(name, both(request, options)) {
        Ok((name, (request, options))) => Ok(CacheQuery {
            name,
            request,
            options,
        }),
        Err(why) => Err(why),
    }
}

/// A look-up of all places in a cache.
#[tactic(auto, unfolding(crate::specs::Caches::query_parts))]
pub fn query_parts(alloc: Global, value: &Value) -> Part<Boxed<CacheQuery>>
    ensures { IfOk result (λ query. query ≡ caches.query_parts (view value.now)) }
{
    let name = name_member(alloc, value)?;
    let request = request_option(alloc, value)?;
    boxed_part(alloc, query_from(name, request, options_of(value)))
}
