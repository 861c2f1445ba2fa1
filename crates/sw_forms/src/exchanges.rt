//! Requests and responses: methods, statuses, lists of headers and bodies.

ghost use Rattle.std.specs.Prelude.{◌≡◌, map, IfOk};
ghost use Rattle.serde_json.specs.View.{view};
ghost use Rattle.sw_forms.specs.Exchanges as exchanges;

use crate::error::{Limit, LineCause};
use crate::flaw::{Flaw, NO_FORM, Part, both, needs};
use crate::limits::HEADERS_LIMIT;
use crate::lists::{FromValue, list_of};
use crate::members::{as_list, has_only, short, short_text_member};
use base64::DecodeAllocError;
use base64::engine::general_purpose::STANDARD;
use serde_json::Value;
use std::alloc::Global;
use sw_data::header::is_token;
use sw_data::{Bytes, Header, Items, NoMemory, Request, Response, Shared, Text};
use sw_http::{BODY_LIMIT, good_names, good_values, normal_lines, normal_method};

// A header: its name and its value.
#[tactic(auto, unfolding(crate::specs::Exchanges::pair_of, crate::specs::Flaws::both))]
fn pair_of(alloc: Global, pair: &[Value]) -> Part<Header>
    ensures { IfOk result (λ header. header ≡ exchanges.pair_of (map view pair.now)) }
{
    match pair {
        [name, value] => match (name.as_str(), value.as_str()) {
            (Some(name), Some(value)) => Ok(Ok(Header {
                name: Text::of(alloc, name)?,
                value: Text::of(alloc, value)?,
            })),
            _ => Ok(Err(NO_FORM)),
        },
        _ => Ok(Err(NO_FORM)),
    }
}

impl FromValue for Header {
    ghost use Rattle.sw_forms.specs.Exchanges.{header_of};

    ghost reads = { header_of };

    fn from_value(alloc: Global, value: &Value) -> Part<Header> {
        match as_list(value) {
            Some(pair) => pair_of(alloc, pair),
            None => Ok(Err(NO_FORM)),
        }
    }
}

// The lines of a list as they are kept, where their names and values are those of headers.
fn kept_headers(alloc: Global, lines: &[Header]) -> Part<Items<Header>>
    ensures { IfOk result (λ kept. kept ≡ exchanges.kept_headers lines.now) }
{
    if !good_names(lines) || !good_values(lines) {
        return Ok(Err(Flaw::Cause(LineCause::Header)));
    }
    Ok(Ok(normal_lines(alloc, lines)?))
}

// A list of headers.
fn headers_of(alloc: Global, value: &Value) -> Part<Items<Header>>
    ensures { IfOk result (λ lines. lines ≡ exchanges.headers_of (view value.now)) }
{
    let lines: Result<Items<Header>, Flaw> = list_of(
        alloc,
        HEADERS_LIMIT,
        Flaw::Limit(Limit::Headers),
        value,
    )?;
    match lines {
        Ok(lines) => kept_headers(alloc, lines.as_slice()),
        Err(why) => Ok(Err(why)),
    }
}

// The headers of a request or a response.
#[tactic(auto, unfolding(crate::specs::Exchanges::headers_member))]
fn headers_member(alloc: Global, value: &Value) -> Part<Items<Header>>
    ensures { IfOk result (λ lines. lines ≡ exchanges.headers_member (view value.now)) }
{
    match value.get("headers") {
        Some(headers) => headers_of(alloc, headers),
        None => Ok(Ok(Items::new(alloc))),
    }
}

// A method as it is kept, where it is a token.
fn kept_method(alloc: Global, method: &str) -> Part<Text>
    ensures { IfOk result (λ kept. kept ≡ exchanges.kept_method method.now) }
{
    if !is_token(method.as_bytes()) {
        return Ok(Err(Flaw::Cause(LineCause::Method)));
    }
    Ok(Ok(normal_method(alloc, &Text::of(alloc, method)?)?))
}

// The method of a request: GET where it isn't given.
#[tactic(auto, unfolding(crate::specs::Exchanges::method_member))]
fn method_member(alloc: Global, value: &Value) -> Part<Text>
    ensures { IfOk result (λ method. method ≡ exchanges.method_member (view value.now)) }
{
    match value.get("method") {
        Some(method) => match method.as_str() {
            Some(method) => kept_method(alloc, method),
            None => Ok(Err(NO_FORM)),
        },
        None => Ok(Ok(Text::of(alloc, "GET")?)),
    }
}

// A GET request without headers.
fn plain_request(alloc: Global, url: &str) -> Part<Request>
    ensures { IfOk result (λ request. request ≡ exchanges.short_request url.now) }
{
    match short(alloc, url)? {
        Ok(url) => Ok(Ok(Request {
            method: Text::of(alloc, "GET")?,
            url,
            headers: Items::new(alloc),
        })),
        Err(why) => Ok(Err(why)),
    }
}

// A request of its parts.
#[tactic(auto, unfolding(crate::specs::Flaws::both))]
fn request_from(
    url: Result<Text, Flaw>,
    method: Result<Text, Flaw>,
    headers: Result<Items<Header>, Flaw>,
) -> Result<Request, Flaw>
    ensures { result ≡ exchanges.request_from url method headers }
{
    match both(url, both(method, headers)) {
        Ok((url, (method, headers))) => Ok(Request {
            method,
            url,
            headers,
        }),
        Err(why) => Err(why),
    }
}

// {"url":..,"method":..,"headers":..}
#[tactic(auto, unfolding(crate::specs::Exchanges::request_object))]
fn request_object(alloc: Global, value: &Value) -> Part<Request>
    ensures { IfOk result (λ request. request ≡ exchanges.request_object (view value.now)) }
{
    if !has_only(&["url", "method", "headers"], value) {
        return Ok(Err(NO_FORM));
    }
    let url = short_text_member(alloc, value.get("url"))?;
    let method = method_member(alloc, value)?;
    let headers = headers_member(alloc, value)?;
    Ok(request_from(url, method, headers))
}

impl FromValue for Request {
    ghost use Rattle.sw_forms.specs.Exchanges.{request_of};

    ghost reads = { request_of };

    #[tactic(auto, unfolding(crate::specs::Exchanges::request_of))]
    fn from_value(alloc: Global, value: &Value) -> Part<Request> {
        match value.as_str() {
            Some(url) => plain_request(alloc, url),
            None => request_object(alloc, value),
        }
    }
}

// A status from 100 to 999.
fn kept_status(status: u64) -> Result<u16, Flaw>
    ensures { result ≡ exchanges.kept_status status }
{
    match u16::try_from(status) {
        Ok(status) if 100 <= status && status <= 999 => Ok(status),
        _ => Err(Flaw::Cause(LineCause::Status)),
    }
}

// The status of a response.
#[tactic(auto, unfolding(crate::specs::Exchanges::status_member))]
fn status_member(value: &Value) -> Result<u16, Flaw>
    ensures { result ≡ exchanges.status_member (view value.now) }
{
    match value.get("status").and_then(Value::as_u64) {
        Some(status) => kept_status(status),
        None => Err(NO_FORM),
    }
}

// A body within its limit.
fn kept_body(alloc: Global, body: Bytes) -> Part<Shared<Bytes>>
    ensures { IfOk result (λ kept. kept ≡ exchanges.kept_body body) }
{
    let fits = body.as_bytes().len() <= BODY_LIMIT;
    let body = Shared::new(alloc, body)?;
    Ok(needs(fits, Flaw::Limit(Limit::Body), Ok(body)))
}

// A body as text.
fn text_body_of(alloc: Global, value: &Value) -> Part<Shared<Bytes>>
    ensures { IfOk result (λ body. body ≡ exchanges.text_body_of (view value.now)) }
{
    match value.as_str() {
        Some(text) => kept_body(alloc, Bytes::of(alloc, text.as_bytes())?),
        None => Ok(Err(NO_FORM)),
    }
}

// The body that a base64 text is (RFC 4648, section 4).
fn decoded(alloc: Global, text: &str) -> Part<Shared<Bytes>>
    ensures { IfOk result (λ body. body ≡ exchanges.decoded text.now) }
{
    match STANDARD.decode(alloc, text.as_bytes()) {
        Ok(body) => kept_body(alloc, Bytes::from_vec(body)),
        Err(DecodeAllocError::DecodeError(_)) => Ok(Err(Flaw::Cause(LineCause::Base64))),
        Err(DecodeAllocError::OutOfMemory) => Err(NoMemory),
    }
}

// A body as base64.
fn coded_body_of(alloc: Global, value: &Value) -> Part<Shared<Bytes>>
    ensures { IfOk result (λ body. body ≡ exchanges.coded_body_of (view value.now)) }
{
    match value.as_str() {
        Some(text) => decoded(alloc, text),
        None => Ok(Err(NO_FORM)),
    }
}

// The body of a response, as text or as base64; one that isn't given is empty.
#[tactic(auto, unfolding(crate::specs::Exchanges::body_member))]
fn body_member(alloc: Global, value: &Value) -> Part<Shared<Bytes>>
    ensures { IfOk result (λ body. body ≡ exchanges.body_member (view value.now)) }
{
    match (value.get("text"), value.get("body")) {
        (None, None) => Ok(Ok(Shared::new(alloc, Bytes::from_vec(Vec::new(alloc)))?)),
        (Some(text), None) => text_body_of(alloc, text),
        (None, Some(coded)) => coded_body_of(alloc, coded),
        (Some(_), Some(_)) => Ok(Err(NO_FORM)),
    }
}

// A response of its parts.
#[tactic(auto, unfolding(crate::specs::Flaws::both))]
fn response_from(
    status: Result<u16, Flaw>,
    headers: Result<Items<Header>, Flaw>,
    body: Result<Shared<Bytes>, Flaw>,
) -> Result<Response, Flaw>
    ensures { result ≡ exchanges.response_from status headers body }
{
    match both(status, both(headers, body)) {
        Ok((status, (headers, body))) => Ok(Response {
            status,
            headers,
            body,
        }),
        Err(why) => Err(why),
    }
}

/// Status, headers and body of a response.
#[tactic(auto, unfolding(crate::specs::Exchanges::response_parts))]
pub fn response_parts(alloc: Global, value: &Value) -> Part<Response>
    ensures { IfOk result (λ response. response ≡ exchanges.response_parts (view value.now)) }
{
    let headers = headers_member(alloc, value)?;
    let body = body_member(alloc, value)?;
    Ok(response_from(status_member(value), headers, body))
}

/// A response.
#[tactic(auto, unfolding(crate::specs::Exchanges::response_of))]
pub fn response_of(alloc: Global, value: &Value) -> Part<Response>
    ensures { IfOk result (λ response. response ≡ exchanges.response_of (view value.now)) }
{
    if !has_only(&["status", "headers", "text", "body"], value) {
        return Ok(Err(NO_FORM));
    }
    response_parts(alloc, value)
}
