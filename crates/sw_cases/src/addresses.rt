//! Addresses, trust and storage keys.
//!
//! - `url resolve TEXT BASE`, `url script TEXT BASE`, `url scope TEXT? SCRIPT BASE`, `url http TEXT`, `url serialized TEXT`: the
//!   address
//! - `url bare ADDRESS`, `url path ADDRESS`: the address without its fragment, and also without its query
//! - `url bound SCRIPT ALLOWED?`: the bound of the scopes that a script may have
//! - `url within SCOPE BOUND`, `url trusted ADDRESS`, `url same LEFT RIGHT`: whether it holds
//! - `url key ADDRESS PARTITION?`, `url page ADDRESS PARTITION?`: the storage key

use crate::row::{Answer, Fault, named, quoted, quoted_or_none, text, text_or_none, truth, word};
use serde_json::Value;
use std::alloc::Global;
use sw_data::Text;
use sw_url::{
    UrlFault, http_address, is_trustworthy, is_within_bound, key_of, max_scope, page_key, resolve,
    same_origin, scope_url, script_url, serialized, without_fragment, without_query,
};

fn address(alloc: Global, answer: Result<Text, UrlFault>) -> Answer {
    match answer {
        Ok(address) => quoted(alloc, address.as_str()),
        Err(UrlFault::NoMemory) => Err(Fault::NoMemory),
        Err(fault) => named(alloc, fault),
    }
}

fn resolved(alloc: Global, parts: &[Value]) -> Answer {
    let given = text(alloc, parts, 0)?;
    let base = text(alloc, parts, 1)?;
    address(alloc, resolve(alloc, &given, &base))
}

fn script(alloc: Global, parts: &[Value]) -> Answer {
    let given = text(alloc, parts, 0)?;
    let base = text(alloc, parts, 1)?;
    address(alloc, script_url(alloc, &given, &base))
}

fn scope(alloc: Global, parts: &[Value]) -> Answer {
    let given = text_or_none(alloc, parts, 0)?;
    let script = text(alloc, parts, 1)?;
    let base = text(alloc, parts, 2)?;
    address(alloc, scope_url(alloc, given.as_ref(), &script, &base))
}

fn bytes_text(alloc: Global, bytes: &[u8]) -> Answer {
    match str::from_utf8(bytes) {
        Ok(text) => quoted(alloc, text),
        Err(_) => Err(Fault::BadRow),
    }
}

fn bound(alloc: Global, parts: &[Value]) -> Answer {
    let script = text(alloc, parts, 0)?;
    let allowed = text_or_none(alloc, parts, 1)?;
    quoted_or_none(alloc, max_scope(alloc, &script, allowed.as_ref())?)
}

fn within(alloc: Global, parts: &[Value]) -> Answer {
    let scope = text(alloc, parts, 0)?;
    let bound = text(alloc, parts, 1)?;
    truth(alloc, is_within_bound(alloc, &scope, &bound)?)
}

fn key(alloc: Global, parts: &[Value]) -> Answer {
    let address = text(alloc, parts, 0)?;
    let partition = text_or_none(alloc, parts, 1)?;
    quoted_or_none(alloc, key_of(alloc, &address, partition.as_ref())?)
}

fn page(alloc: Global, parts: &[Value]) -> Answer {
    let address = text(alloc, parts, 0)?;
    let partition = text_or_none(alloc, parts, 1)?;
    match page_key(alloc, &address, partition.as_ref())? {
        Ok(key) => quoted(alloc, key.as_str()),
        Err(fault) => named(alloc, fault),
    }
}

fn same(alloc: Global, parts: &[Value]) -> Answer {
    let left = text(alloc, parts, 0)?;
    let right = text(alloc, parts, 1)?;
    truth(alloc, same_origin(alloc, &left, &right)?)
}

/// The answer to a row of `url`.
pub fn answer(alloc: Global, call: &str, parts: &[Value]) -> Answer {
    match call {
        "resolve" => resolved(alloc, parts),
        "script" => script(alloc, parts),
        "scope" => scope(alloc, parts),
        "bound" => bound(alloc, parts),
        "within" => within(alloc, parts),
        "trusted" => truth(alloc, is_trustworthy(alloc, &text(alloc, parts, 0)?)?),
        "key" => key(alloc, parts),
        "page" => page(alloc, parts),
        "http" => address(alloc, http_address(alloc, word(parts, 0)?)),
        "serialized" => address(alloc, serialized(alloc, &text(alloc, parts, 0)?)),
        "bare" => bytes_text(alloc, without_fragment(&text(alloc, parts, 0)?)),
        "path" => bytes_text(alloc, without_query(&text(alloc, parts, 0)?)),
        "same" => same(alloc, parts),
        _ => Err(Fault::BadRow),
    }
}
