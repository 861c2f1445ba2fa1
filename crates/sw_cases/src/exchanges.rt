//! Requests, responses and media types. HEADERS is an array of pairs.
//!
//! - `http request METHOD ADDRESS HEADERS`: the request as it is kept, with each name and value of its headers
//! - `http response STATUS HEADERS TEXT COUNT`, with TEXT so many times as its body: the status, the length of the body, whether
//!   it is the one that was given, and the headers
//! - `http javascript HEADERS`: whether the media type is one of JavaScript

use crate::row::{Answer, Fault, headers, named, number, quoted, repeated, text, truth};
use serde_json::Value;
use std::alloc::Global;
use sw_data::{Bytes, Header, Items, Request, Response};
use sw_http::{HttpFault, is_javascript, request, response};

// The lines of a list of headers, each behind a space.
fn lines(alloc: Global, headers: &Items<Header>) -> Answer {
    let mut all = String::new(alloc);
    for line in headers.as_slice() {
        let name = quoted(alloc, line.name.as_str())?;
        let value = quoted(alloc, line.value.as_str())?;
        all.push_str(format!(in alloc; " {name} {value}")?.as_str())?;
    }
    Ok(all)
}

fn request_text(alloc: Global, made: &Request) -> Answer {
    let method = quoted(alloc, made.method.as_str())?;
    let url = quoted(alloc, made.url.as_str())?;
    let lines = lines(alloc, &made.headers)?;
    Ok(format!(in alloc; "{method} {url}{lines}")?)
}

fn refused(alloc: Global, fault: HttpFault) -> Answer {
    match fault {
        HttpFault::NoMemory => Err(Fault::NoMemory),
        fault => named(alloc, fault),
    }
}

fn kept_request(alloc: Global, parts: &[Value]) -> Answer {
    let method = text(alloc, parts, 0)?;
    let url = text(alloc, parts, 1)?;
    let headers = headers(alloc, parts, 2)?;
    match request(alloc, &method, url, headers) {
        Ok(made) => request_text(alloc, &made),
        Err(fault) => refused(alloc, fault),
    }
}

// The status, the length of the body, whether it is the one that was given, and the headers.
fn response_text(alloc: Global, made: &Response, body: &str) -> Answer {
    let status = made.status;
    let length = made.body.get().as_bytes().len();
    let kept = truth(alloc, made.body.get().as_bytes() == body.as_bytes())?;
    let lines = lines(alloc, &made.headers)?;
    Ok(format!(in alloc; "{status} {length} {kept}{lines}")?)
}

fn kept_response(alloc: Global, parts: &[Value]) -> Answer {
    let status = number(parts, 0)?;
    let headers = headers(alloc, parts, 1)?;
    let body = repeated(alloc, parts, 2)?;
    let bytes = Bytes::of(alloc, body.as_bytes())?;
    match response(alloc, status, headers, bytes) {
        Ok(made) => response_text(alloc, &made, body.as_str()),
        Err(fault) => refused(alloc, fault),
    }
}

/// The answer to a row of `http`.
pub fn answer(alloc: Global, call: &str, parts: &[Value]) -> Answer {
    match call {
        "request" => kept_request(alloc, parts),
        "response" => kept_response(alloc, parts),
        "javascript" => {
            let headers = headers(alloc, parts, 0)?;
            truth(alloc, is_javascript(headers.as_slice()))
        }
        _ => Err(Fault::BadRow),
    }
}
