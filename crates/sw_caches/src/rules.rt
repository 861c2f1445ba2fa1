//! What a put may be, and how many bytes operations have.

ghost use Rattle.std.specs.Prelude.{◌≡◌, ◌+◌, ◌==◌, ◌||◌, IfOk, sum_by, codes, bytes_eq};
ghost use Rattle.std.specs.List.{list_any};
ghost use Rattle.sw_data.specs.Addresses.{scheme_of};
ghost use Rattle.sw_data.specs.Sizes.{headers_size, op_size, request_size, response_size, text_size};
ghost use Rattle.sw_rules.specs.Batch.{has_http_scheme, put_fault};
ghost use Rattle.sw_caches.specs.Bytes.{names_size, put_size};

use sw_data::cut::before;
use sw_data::{Cause, Header, NoMemory, Op, Request, Response, Text};
use sw_match::{is_get, varies_on_all};

// The most bytes that the operations of one batch may have together.
pub(crate) const QUOTA: u64 = 33_554_432;

// Why a put is refused (Service Workers, Cache, "put()"): its scheme, then its method, then its
// status, then a `*` in Vary.
pub(crate) fn put_fault(request: &Request, response: &Response) -> Option<Cause>
    ensures { result ≡ put_fault request.now response.now }
{
    if !has_http_scheme(request.url.as_bytes()) {
        return Some(Cause::Scheme);
    }
    if !is_get(request) {
        return Some(Cause::Method);
    }
    if response.status == 206 {
        return Some(Cause::Partial);
    }
    if varies_on_all(response.headers.as_slice()) {
        return Some(Cause::Vary);
    }
    None
}

/// What stands before the first `:` of an address is http or https. It takes no memory.
#[tactic(auto, unfolding(sw_data::specs::Addresses::scheme_of))]
pub fn has_http_scheme(address: &[u8]) -> bool
    ensures { result ≡ (bytes_eq (scheme_of address.now) (codes "https")
        || bytes_eq (scheme_of address.now) (codes "http")) }
{
    has_colon(address) && is_http(before(address, b':'))
}

fn has_colon(address: &[u8]) -> bool
    ensures { result ≡ list_any (λ b. b == 58) address.now }
{
    address.iter().any(|b| *b == b':')
}

fn is_http(scheme: &[u8]) -> bool
    ensures { result ≡ (bytes_eq scheme.now (codes "https") || bytes_eq scheme.now (codes "http")) }
{
    scheme == b"https".as_slice() || scheme == b"http".as_slice()
}

pub(crate) fn sum(left: u64, right: u64) -> Result<u64, NoMemory>
    ensures { IfOk result (λ sum. sum ≡ left + right) }
{
    match left.checked_add(right) {
        Some(sum) => Ok(sum),
        None => Err(NoMemory),
    }
}

fn text_size(text: &[u8]) -> Result<u64, NoMemory>
    ensures { IfOk result (λ size. size ≡ text_size text.now) }
{
    sum(4, text.len() as u64)
}

fn headers_size(headers: &[Header]) -> Result<u64, NoMemory>
    ensures { IfOk result (λ size. size ≡ headers_size headers.now) }
{
    let mut size = 4;
    for line in headers {
        let both = sum(
            text_size(line.name.as_bytes())?,
            text_size(line.value.as_bytes())?,
        )?;
        size = sum(size, both)?;
    }
    Ok(size)
}

fn request_size(request: &Request) -> Result<u64, NoMemory>
    ensures { IfOk result (λ size. size ≡ request_size request.now) }
{
    let first = sum(
        text_size(request.method.as_bytes())?,
        text_size(request.url.as_bytes())?,
    )?;
    sum(first, headers_size(request.headers.as_slice())?)
}

fn response_size(response: &Response) -> Result<u64, NoMemory>
    ensures { IfOk result (λ size. size ≡ response_size response.now) }
{
    let head = sum(2, headers_size(response.headers.as_slice())?)?;
    sum(head, text_size(response.body.get().as_bytes())?)
}

// The bytes of the operation that puts a pair.
pub(crate) fn put_size(request: &Request, response: &Response) -> Result<u64, NoMemory>
    ensures { IfOk result (λ size. size ≡ put_size (request.now, response.now)) }
{
    sum(sum(1, request_size(request)?)?, response_size(response)?)
}

fn op_size(op: &Op) -> Result<u64, NoMemory>
    ensures { IfOk result (λ size. size ≡ op_size op.now) }
{
    match op {
        Op::Delete {
            request,
            options: _,
        } => sum(2, request_size(request)?),
        Op::Put { request, response } => put_size(request, response),
    }
}

// The bytes of the key and the name of a cache.
pub(crate) fn names_size(key: &Text, name: &Text) -> Result<u64, NoMemory>
    ensures { IfOk result (λ size. size ≡ names_size key.now name.now) }
{
    sum(text_size(key.as_bytes())?, text_size(name.as_bytes())?)
}

// The bytes that operations have together.
pub(crate) fn size_of(ops: &[Op]) -> Result<u64, NoMemory>
    ensures { IfOk result (λ size. size ≡ sum_by op_size ops.now) }
{
    let mut size = 0;
    for op in ops {
        size = sum(size, op_size(op)?)?;
    }
    Ok(size)
}
