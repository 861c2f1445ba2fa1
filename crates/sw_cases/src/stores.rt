//! What matches a query, copies of calls, and the tables of caches and of values under keys and names. PUT, MATCH and BATCH are
//! objects with the members that they have in a lane line.
//!
//! - `match combined HEADERS NAME`: the combined value
//! - `match query [PUT..] MATCH`: how many of the puts a query finds, and their places
//! - `copy batch BATCH`: whether the copy of the call is the same as it, and whether it is the same as a claim
//! - on `caches`: `make KEY NAME`, `batch KEY BATCH`, `large KEY NAME ADDRESS SIZE` (a put with a body of this size), `len KEY NAME`,
//!   `names KEY`, and `apply BATCH` (how many pairs a batch makes of none)
//! - on `index`: `add KEY NAME VALUE`, `set PLACE VALUE`, `values`, `place KEY NAME`, `next KEY FROM`, `removeNamed KEY NAME`,
//!   `removeKey KEY`, `len`

use crate::row::{
    Answer, Fault, count, form, headers, list, named, part, place_or_none, plain, quoted,
    quoted_or_none, small_number, text, truth, word,
};
use crate::table::Table;
use serde_json::Value;
use std::alloc::Global;
use sw_caches::{BatchFault, Caches, apply_ops};
use sw_data::{
    Boxed, Bytes, CacheBatch, Call, Items, Op, Request, Response, Shared, Text, copy_call,
    same_call,
};
use sw_forms::{batch_parts, match_parts, put_parts};
use sw_list::Named;
use sw_match::{combined, query};

fn combined_value(alloc: Global, parts: &[Value]) -> Answer {
    let headers = headers(alloc, parts, 0)?;
    let name = text(alloc, parts, 1)?;
    quoted_or_none(alloc, combined(alloc, headers.as_slice(), &name)?)
}

fn pairs(alloc: Global, puts: &[Value]) -> Result<Vec<(Request, Response)>, Fault> {
    let mut pairs = Vec::new(alloc);
    for put in puts {
        let put = form(put_parts(alloc, put))?.into_inner();
        pairs.push((put.request, put.response))?;
    }
    Ok(pairs)
}

// How many, and each of them.
fn numbers(alloc: Global, numbers: &[u32]) -> Answer {
    let count = numbers.len();
    let mut all = format!(in alloc; "{count}")?;
    for number in numbers {
        all.push_str(format!(in alloc; " {number}")?.as_str())?;
    }
    Ok(all)
}

// The places of the puts that a match finds.
fn found(alloc: Global, parts: &[Value]) -> Answer {
    let pairs = pairs(alloc, list(parts, 0)?)?;
    let asked = form(match_parts(alloc, part(parts, 1)?))?.into_inner();
    let places = query(alloc, pairs.as_slice(), &asked.request, asked.options)?;
    numbers(alloc, places.as_slice())
}

/// The answer to a row of `match`.
pub fn answer(alloc: Global, call: &str, parts: &[Value]) -> Answer {
    match call {
        "combined" => combined_value(alloc, parts),
        "query" => found(alloc, parts),
        _ => Err(Fault::BadRow),
    }
}

// Whether the copy of a call is the same call as it, and whether it is the same as a claim.
fn compared(alloc: Global, call: &Call) -> Result<(bool, bool), Fault> {
    let copy = copy_call(alloc, call)?;
    Ok((same_call(call, &copy), same_call(&copy, &Call::Claim)))
}

fn copied(alloc: Global, batch: Boxed<CacheBatch>) -> Answer {
    let found = compared(alloc, &Call::Batch(batch));
    let (same, other) = found?;
    Ok(format!(in alloc; "{same} {other}")?)
}

/// The answer to a row of `copy`.
pub fn copy_answer(alloc: Global, call: &str, parts: &[Value]) -> Answer {
    match call {
        "batch" => copied(alloc, form(batch_parts(alloc, part(parts, 0)?))?),
        _ => Err(Fault::BadRow),
    }
}

fn batched(alloc: Global, answer: Result<(), BatchFault>) -> Answer {
    match answer {
        Ok(()) => plain(alloc, "ok"),
        Err(BatchFault::NoMemory) => Err(Fault::NoMemory),
        Err(why) => named(alloc, why),
    }
}

// What a batch makes of no pairs: how many there are then.
fn applied(alloc: Global, parts: &[Value]) -> Answer {
    let batch = form(batch_parts(alloc, part(parts, 1)?))?.into_inner();
    let mut pairs = Vec::new(alloc);
    match apply_ops(alloc, &mut pairs, batch.operations.as_slice()) {
        Ok(()) => place_or_none(alloc, Some(pairs.len())),
        fault => batched(alloc, fault),
    }
}

// A put whose body has so many bytes.
fn large(alloc: Global, url: Text, size: usize) -> Result<Vec<Op>, Fault> {
    let request = Request {
        method: Text::of(alloc, "GET")?,
        url,
        headers: Items::new(alloc),
    };
    let response = Response {
        status: 200,
        headers: Items::new(alloc),
        body: Shared::new(alloc, Bytes::from_vec(vec![in alloc; b'a'; size]?))?,
    };
    let mut ops = Vec::new(alloc);
    ops.push(Op::Put { request, response })?;
    Ok(ops)
}

fn put_large(alloc: Global, caches: &mut Caches, parts: &[Value]) -> Answer {
    let key = text(alloc, parts, 1)?;
    let name = text(alloc, parts, 2)?;
    let url = text(alloc, parts, 3)?;
    let ops = large(alloc, url, count(parts, 4)?)?;
    batched(alloc, caches.batch(alloc, &key, &name, ops))
}

fn batch(alloc: Global, caches: &mut Caches, parts: &[Value]) -> Answer {
    let key = text(alloc, parts, 1)?;
    let CacheBatch { name, operations } = form(batch_parts(alloc, part(parts, 2)?))?.into_inner();
    batched(
        alloc,
        caches.batch(alloc, &key, &name, operations.into_vec()),
    )
}

fn make_cache(alloc: Global, caches: &mut Caches, parts: &[Value]) -> Answer {
    let key = text(alloc, parts, 1)?;
    let name = text(alloc, parts, 2)?;
    truth(alloc, caches.make(alloc, &key, &name)?)
}

fn length(alloc: Global, caches: &Caches, parts: &[Value]) -> Answer {
    let key = text(alloc, parts, 1)?;
    let name = text(alloc, parts, 2)?;
    place_or_none(alloc, caches.len_of(&key, &name))
}

// The names of the caches of a key, with commas between them.
fn names(alloc: Global, caches: &Caches, parts: &[Value]) -> Answer {
    let mut all = String::new(alloc);
    for name in &caches.names(alloc, &text(alloc, parts, 1)?)? {
        if !all.is_empty() {
            all.push_str(",")?;
        }
        all.push_str(quoted(alloc, name.as_str())?.as_str())?;
    }
    Ok(all)
}

impl Table for Caches {
    fn call(&mut self, alloc: Global, parts: &[Value]) -> Answer {
        match word(parts, 0)? {
            "make" => make_cache(alloc, self, parts),
            "apply" => applied(alloc, parts),
            "batch" => batch(alloc, self, parts),
            "large" => put_large(alloc, self, parts),
            "len" => length(alloc, self, parts),
            "names" => names(alloc, self, parts),
            _ => Err(Fault::BadRow),
        }
    }
}

fn add(alloc: Global, named: &mut Named<u32>, parts: &[Value]) -> Answer {
    let key = text(alloc, parts, 1)?;
    let name = text(alloc, parts, 2)?;
    let value = small_number(parts, 3)?;
    let new = named.make_row(key, name)?;
    named.put(new, value);
    plain(alloc, "ok")
}

fn set(alloc: Global, named: &mut Named<u32>, parts: &[Value]) -> Answer {
    let place = count(parts, 1)?;
    let value = small_number(parts, 2)?;
    if place >= named.len() {
        return Err(Fault::BadRow);
    }
    *named.value_mut(place) = value;
    plain(alloc, "ok")
}

// The values of all rows, with commas between them.
fn values(alloc: Global, named: &Named<u32>) -> Answer {
    let mut all = String::new(alloc);
    for place in 0..named.len() {
        if !all.is_empty() {
            all.push_str(",")?;
        }
        let value = named.row(place).value;
        all.push_str(format!(in alloc; "{value}")?.as_str())?;
    }
    Ok(all)
}

fn place(alloc: Global, named: &Named<u32>, parts: &[Value]) -> Answer {
    let key = text(alloc, parts, 1)?;
    let name = text(alloc, parts, 2)?;
    place_or_none(alloc, named.place(&key, &name))
}

fn remove_named(alloc: Global, named: &mut Named<u32>, parts: &[Value]) -> Answer {
    let key = text(alloc, parts, 1)?;
    let name = text(alloc, parts, 2)?;
    named.remove_named(&key, &name);
    plain(alloc, "ok")
}

fn remove_key(alloc: Global, named: &mut Named<u32>, parts: &[Value]) -> Answer {
    named.remove_key(&text(alloc, parts, 1)?);
    plain(alloc, "ok")
}

impl Table for Named<u32> {
    fn call(&mut self, alloc: Global, parts: &[Value]) -> Answer {
        match word(parts, 0)? {
            "add" => add(alloc, self, parts),
            "set" => set(alloc, self, parts),
            "values" => values(alloc, self),
            "place" => place(alloc, self, parts),
            "next" => place_or_none(
                alloc,
                self.next_of(&text(alloc, parts, 1)?, count(parts, 2)?),
            ),
            "removeNamed" => remove_named(alloc, self, parts),
            "removeKey" => remove_key(alloc, self, parts),
            "len" => place_or_none(alloc, Some(self.len())),
            _ => Err(Fault::BadRow),
        }
    }
}
