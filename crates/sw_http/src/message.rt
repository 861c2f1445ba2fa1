//! Requests and responses.

ghost use Rattle.std.specs.Prelude.{◌≡◌, ◌↔◌, ◌<◌, true, false, IfOk, IsErrOf, SomeIff, bytes_eq, length};
ghost use Rattle.std.specs.List.{list_any};
ghost use Rattle.http.specs.StatusCode.{IsStatusCode};
ghost use Rattle.sw_data.specs.Headers.{capital_methods, good_names, good_values, is_token, normal_lines, normal_method};

use crate::fault::HttpFault;
use crate::lines::{good_names, good_values, normal_lines};
use http::StatusCode;
use std::alloc::Global;
use sw_data::header::is_token;
use sw_data::{Bytes, Header, Items, NoMemory, Request, Response, Shared, Text};

/// The most bytes that a body may have.
pub const BODY_LIMIT: usize = 1_048_576;

/// A request as it is kept (Fetch, 2.2.1 and 2.2.2, "normalize"): DELETE, GET, HEAD, OPTIONS, POST
/// and PUT in any case are written in capitals, names in lower case, and values lose the spaces
/// and tabs at both ends.
///
/// `BadMethod` where the method is no token, then `BadName` where a name is no token of 1 to
/// 65,535 bytes, then `BadValue` where a value has a character below U+0020 other than a tab, or
/// U+007F.
pub fn request(
    alloc: Global,
    method: &Text,
    url: Text,
    headers: Items<Header>,
) -> Result<Request, HttpFault>
    ensures method { IfOk result (λ request. request.method ≡ normal_method method.now) }
    ensures url { IfOk result (λ request. request.url ≡ url) }
    ensures headers { IfOk result (λ request. request.headers ≡ normal_lines headers) }
    ensures bad_method { IsErrOf result HttpFault.BadMethod ↔ (is_token method.now ≡ false) }
    ensures bad_name { IsErrOf result HttpFault.BadName
        ↔ ((is_token method.now ≡ true) × (good_names headers ≡ false)) }
    ensures bad_value { IsErrOf result HttpFault.BadValue
        ↔ ((is_token method.now ≡ true) × (good_names headers ≡ true)
        × (good_values headers ≡ false)) }
    ensures bad_status { ¬ (IsErrOf result HttpFault.BadStatus) }
    ensures body_too_large { ¬ (IsErrOf result HttpFault.BodyTooLarge) }
{
    if !is_token(method.as_bytes()) {
        return Err(HttpFault::BadMethod);
    }
    if !good_names(headers.as_slice()) {
        return Err(HttpFault::BadName);
    }
    if !good_values(headers.as_slice()) {
        return Err(HttpFault::BadValue);
    }
    Ok(Request {
        method: normal_method(alloc, method)?,
        url,
        headers: normal_lines(alloc, headers.as_slice())?,
    })
}

/// A response as it is kept: names in lower case, and values without the spaces and tabs at both
/// ends.
///
/// `BadStatus` where the status is outside 100 to 999, then `BadName` and `BadValue` as in
/// `request`, then `BodyTooLarge` where the body has more than 1,048,576 bytes.
pub fn response(
    alloc: Global,
    status: u64,
    headers: Items<Header>,
    body: Bytes,
) -> Result<Response, HttpFault>
    ensures status { IfOk result (λ response. response.status ≡ status) }
    ensures headers { IfOk result (λ response. response.headers ≡ normal_lines headers) }
    ensures body { IfOk result (λ response. response.body ≡ body) }
    ensures bad_status { IsErrOf result HttpFault.BadStatus ↔ ¬ (IsStatusCode status) }
    ensures bad_name { IsErrOf result HttpFault.BadName
        ↔ (IsStatusCode status × (good_names headers ≡ false)) }
    ensures bad_value { IsErrOf result HttpFault.BadValue
        ↔ (IsStatusCode status × (good_names headers ≡ true)
        × (good_values headers ≡ false)) }
    ensures body_too_large { IsErrOf result HttpFault.BodyTooLarge
        ↔ (IsStatusCode status × (good_names headers ≡ true) × (good_values headers ≡ true)
        × (BODY_LIMIT < length body)) }
    ensures bad_method { ¬ (IsErrOf result HttpFault.BadMethod) }
{
    let Some(status) = status_code(status) else {
        return Err(HttpFault::BadStatus);
    };
    if !good_names(headers.as_slice()) {
        return Err(HttpFault::BadName);
    }
    if !good_values(headers.as_slice()) {
        return Err(HttpFault::BadValue);
    }
    if BODY_LIMIT < body.as_bytes().len() {
        return Err(HttpFault::BodyTooLarge);
    }
    Ok(Response {
        status,
        headers: normal_lines(alloc, headers.as_slice())?,
        body: Shared::new(alloc, body)?,
    })
}

// The status, if it is from 100 to 999.
fn status_code(status: u64) -> Option<u16>
    ensures { SomeIff result (IsStatusCode status) status }
{
    let code = StatusCode::from_u16(u16::try_from(status).ok()?).ok()?;
    Some(code.as_u16())
}

/// The method as it is kept: DELETE, GET, HEAD, OPTIONS, POST and PUT in any case are written in
/// capitals (Fetch, 2.2.1, "normalize").
pub fn normal_method(alloc: Global, method: &Text) -> Result<Text, NoMemory>
    ensures { IfOk result (λ kept. kept ≡ normal_method method.now) }
{
    let capitals = method.as_str().to_ascii_uppercase(alloc)?;
    if is_capital_method(capitals.as_str()) {
        Ok(Text::from_string(capitals))
    } else {
        method.copy(alloc)
    }
}

fn is_capital_method(name: &str) -> bool
    ensures { result ≡ list_any (bytes_eq name.now) capital_methods }
{
    matches!(name, "DELETE" | "GET" | "HEAD" | "OPTIONS" | "POST" | "PUT")
}
