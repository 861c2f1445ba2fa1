//! Headers, requests, responses and operations.

ghost use Rattle.std.specs.Prelude.{◌≡◌, length};
ghost use Rattle.sw_codec.specs.Outcome.{Gives};
ghost use Rattle.sw_codec.specs.Reading.{header_at, request_at, response_at, op_at, delete_at, put_at, items_at, counted_at, ops_at};

use super::fields::{byte_of, bytes_of, options_of, text_of, u16_of, u32_of};
use crate::error::Fault;
use std::alloc::Global;
use sw_data::{Header, Items, Op, Request, Response};

// One line of a list of headers.
#[tactic(auto, unfolding(crate::specs::Reading::header_at))]
fn header_of(alloc: Global, bytes: &[u8]) -> Result<(Header, &[u8]), Fault>
    ensures { Gives (λ x. (x.0, x.1.now)) result (header_at bytes.now) }
{
    let (name, rest) = text_of(alloc, bytes)?;
    let (value, rest) = text_of(alloc, rest)?;
    Ok((Header { name, value }, rest))
}

// So many lines. The list grows as they are read, whatever the count says.
fn header_lines(alloc: Global, count: u32, bytes: &[u8]) -> Result<(Items<Header>, &[u8]), Fault>
    ensures { Gives (λ x. (x.0, x.1.now)) result (items_at header_at count bytes.now) }
{
    let mut lines = Items::new(alloc);
    let mut rest = bytes;
    for _ in 0..count {
        let (line, after) = header_of(alloc, rest)?;
        lines.push(line)?;
        rest = after;
    }
    Ok((lines, rest))
}

// A list of headers.
#[tactic(auto, unfolding(crate::specs::Reading::counted_at))]
fn headers_of(alloc: Global, bytes: &[u8]) -> Result<(Items<Header>, &[u8]), Fault>
    ensures { Gives (λ x. (x.0, x.1.now)) result (counted_at header_at bytes.now) }
{
    let (count, rest) = u32_of(bytes)?;
    header_lines(alloc, count, rest)
}

// A request.
#[tactic(auto, unfolding(crate::specs::Reading::request_at))]
fn request_of(alloc: Global, bytes: &[u8]) -> Result<(Request, &[u8]), Fault>
    ensures { Gives (λ x. (x.0, x.1.now)) result (request_at bytes.now) }
{
    let (method, rest) = text_of(alloc, bytes)?;
    let (url, rest) = text_of(alloc, rest)?;
    let (headers, rest) = headers_of(alloc, rest)?;
    let request = Request {
        method,
        url,
        headers,
    };
    Ok((request, rest))
}

// A response.
#[tactic(auto, unfolding(crate::specs::Reading::response_at))]
fn response_of(alloc: Global, bytes: &[u8]) -> Result<(Response, &[u8]), Fault>
    ensures { Gives (λ x. (x.0, x.1.now)) result (response_at bytes.now) }
{
    let (status, rest) = u16_of(bytes)?;
    let (headers, rest) = headers_of(alloc, rest)?;
    let (body, rest) = bytes_of(alloc, rest)?;
    let response = Response {
        status,
        headers,
        body,
    };
    Ok((response, rest))
}

// A delete, behind its byte.
fn delete_of(alloc: Global, bytes: &[u8]) -> Result<(Op, &[u8]), Fault>
    ensures { Gives (λ x. (x.0, x.1.now)) result (delete_at bytes.now) }
{
    let (request, rest) = request_of(alloc, bytes)?;
    let (options, rest) = options_of(rest)?;
    Ok((Op::Delete { request, options }, rest))
}

// A put, behind its byte.
fn put_of(alloc: Global, bytes: &[u8]) -> Result<(Op, &[u8]), Fault>
    ensures { Gives (λ x. (x.0, x.1.now)) result (put_at bytes.now) }
{
    let (request, rest) = request_of(alloc, bytes)?;
    let (response, rest) = response_of(alloc, rest)?;
    Ok((Op::Put { request, response }, rest))
}

// An operation.
#[tactic(auto, unfolding(crate::specs::Reading::op_at))]
fn op_of(alloc: Global, bytes: &[u8]) -> Result<(Op, &[u8]), Fault>
    ensures { Gives (λ x. (x.0, x.1.now)) result (op_at bytes.now) }
{
    let (tag, rest) = byte_of(bytes)?;
    match tag {
        1 => delete_of(alloc, rest),
        2 => put_of(alloc, rest),
        _ => Err(Fault::Bad),
    }
}

// So many operations. The list grows as they are read, whatever the count says.
fn steps_of(alloc: Global, count: u32, bytes: &[u8]) -> Result<(Items<Op>, &[u8]), Fault>
    ensures { Gives (λ x. (x.0, x.1.now)) result (items_at op_at count bytes.now) }
{
    let mut ops = Items::new(alloc);
    let mut rest = bytes;
    for _ in 0..count {
        let (op, after) = op_of(alloc, rest)?;
        ops.push(op)?;
        rest = after;
    }
    Ok((ops, rest))
}

// The operations of a batch, at least one.
#[tactic(auto, unfolding(crate::specs::Reading::counted_at))]
pub(crate) fn ops_of(alloc: Global, bytes: &[u8]) -> Result<(Items<Op>, &[u8]), Fault>
    ensures { Gives (λ x. (x.0, x.1.now)) result (ops_at bytes.now) }
{
    let (count, rest) = u32_of(bytes)?;
    let (ops, rest) = steps_of(alloc, count, rest)?;
    if ops.as_slice().is_empty() {
        return Err(Fault::Bad);
    }
    Ok((ops, rest))
}
