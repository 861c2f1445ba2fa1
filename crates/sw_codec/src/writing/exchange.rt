//! Headers, requests, responses and operations.

ghost use Rattle.std.specs.Prelude.{◌≡◌, ◌++◌, true, OnOk, IfOk};
ghost use Rattle.std.specs.List.{flat_map, list_all};
ghost use Rattle.sw_codec.specs.Spelling.{counted_spelling, are_counted, header_spelling, is_header, request_spelling, is_request, response_spelling, is_response, op_spelling, is_op};

use super::fields::{options_byte, put_bytes, put_length, put_text};
use sw_data::{Header, Items, NoMemory, Op, Request, Response};

// Writes one line of a list of headers.
fn put_header(out: &mut Vec<u8>, line: &Header) -> Result<(), NoMemory>
    ensures bytes { OnOk result (out.new.items ≡ out.old.items ++ header_spelling line.now) }
    ensures fits { IfOk result (λ _. is_header line.now ≡ true) }
{
    put_text(out, &line.name)?;
    put_text(out, &line.value)
}

// Writes these lines, without their count.
fn put_lines(out: &mut Vec<u8>, lines: &[Header]) -> Result<(), NoMemory>
    ensures bytes { OnOk result (out.new.items ≡ out.old.items
        ++ flat_map header_spelling lines.now) }
    ensures fits { IfOk result (λ _. list_all is_header lines.now ≡ true) }
{
    for line in lines {
        put_header(out, line)?;
    }
    Ok(())
}

// Writes a list of headers.
fn put_headers(out: &mut Vec<u8>, headers: &Items<Header>) -> Result<(), NoMemory>
    ensures bytes { OnOk result (out.new.items ≡ out.old.items
        ++ counted_spelling header_spelling headers.now) }
    ensures fits { IfOk result (λ _. are_counted is_header headers.now ≡ true) }
{
    let lines = headers.as_slice();
    put_length(out, lines.len())?;
    put_lines(out, lines)
}

// Writes a request.
#[tactic(auto, unfolding(crate::specs::Spelling::request_spelling, crate::specs::Spelling::is_request))]
fn put_request(out: &mut Vec<u8>, request: &Request) -> Result<(), NoMemory>
    ensures bytes { OnOk result (out.new.items ≡ out.old.items ++ request_spelling request.now) }
    ensures fits { IfOk result (λ _. is_request request.now ≡ true) }
{
    put_text(out, &request.method)?;
    put_text(out, &request.url)?;
    put_headers(out, &request.headers)
}

// Writes a response.
#[tactic(auto, unfolding(crate::specs::Spelling::response_spelling, crate::specs::Spelling::is_response))]
fn put_response(out: &mut Vec<u8>, response: &Response) -> Result<(), NoMemory>
    ensures bytes { OnOk result (out.new.items ≡ out.old.items ++ response_spelling response.now) }
    ensures fits { IfOk result (λ _. is_response response.now ≡ true) }
{
    out.extend_from_slice(&response.status.to_be_bytes())?;
    put_headers(out, &response.headers)?;
    put_bytes(out, response.body.get())
}

// Writes an operation.
#[tactic(auto, unfolding(crate::specs::Spelling::op_spelling, crate::specs::Spelling::is_op))]
fn put_op(out: &mut Vec<u8>, op: &Op) -> Result<(), NoMemory>
    ensures bytes { OnOk result (out.new.items ≡ out.old.items ++ op_spelling op.now) }
    ensures fits { IfOk result (λ _. is_op op.now ≡ true) }
{
    match op {
        Op::Delete { request, options } => {
            out.push(1)?;
            put_request(out, request)?;
            out.push(options_byte(*options))?;
        }
        Op::Put { request, response } => {
            out.push(2)?;
            put_request(out, request)?;
            put_response(out, response)?;
        }
    }
    Ok(())
}

// Writes these operations, without their count.
fn put_steps(out: &mut Vec<u8>, ops: &[Op]) -> Result<(), NoMemory>
    ensures bytes { OnOk result (out.new.items ≡ out.old.items ++ flat_map op_spelling ops.now) }
    ensures fits { IfOk result (λ _. list_all is_op ops.now ≡ true) }
{
    for op in ops {
        put_op(out, op)?;
    }
    Ok(())
}

// Writes the operations of a batch.
pub(crate) fn put_ops(out: &mut Vec<u8>, ops: &[Op]) -> Result<(), NoMemory>
    ensures bytes { OnOk result (out.new.items ≡ out.old.items
        ++ counted_spelling op_spelling ops.now) }
    ensures fits { IfOk result (λ _. are_counted is_op ops.now ≡ true) }
{
    put_length(out, ops.len())?;
    put_steps(out, ops)
}
