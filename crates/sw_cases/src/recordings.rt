//! Generated recordings, what the network answers, and how a run ended.
//!
//! - `gen lines NUMBER SIZE`: how many lines the generated recording has
//! - `net fetches [LINE..] [FETCH..]`: the count of the lines, and the status of each fetch; a line is an array of an address and
//!   a status, or `null` for a network error, and a fetch one of an address and the fetch's ordinal
//! - `print end done`, `print end stalled LANE`, `print end disk [EVENT..]`, `print end full EVENT`, `print end spent`: the last
//!   line of a transcript; an event is an array of a lane, a position, and `cacheOpen` or `put`

use crate::row::{
    Answer, Fault, list, list_of, number_or_none, part, plain, quoted, small_number, text, word,
};
use serde_json::Value;
use std::alloc::Global;
use sw_data::{
    Action, Boxed, Bytes, CachePut, End, Event, FetchLine, Fetched, Handlers, Items, NoMemory,
    Place, Request, Response, Shared, Text, Who, event_of_action,
};
use sw_gen::generate;
use sw_net::{Gate, Net, NoGate};
use sw_print::print_history;

// How many lines the recording of a number and a size has.
fn generated(alloc: Global, parts: &[Value]) -> Answer {
    let number = small_number(parts, 0)?;
    let size = small_number(parts, 1)?;
    if size < 1 || size > 4096 {
        return Err(Fault::BadRow);
    }
    let recording = generate(alloc, number, size)?;
    let feeds = recording
        .as_bytes()
        .iter()
        .filter(|byte| **byte == b'\n')
        .count();
    Ok(format!(in alloc; "{feeds}")?)
}

fn fetched(alloc: Global, status: u32) -> Result<Fetched, Fault> {
    let Ok(status) = u16::try_from(status) else {
        return Err(Fault::BadRow);
    };
    Ok(Fetched {
        response: Response {
            status,
            headers: Items::new(alloc),
            body: Shared::new(alloc, Bytes::from_vec(Vec::new(alloc)))?,
        },
        handlers: Handlers {
            throws: false,
            install: Items::new(alloc),
            install_fails: false,
            activate: Items::new(alloc),
        },
    })
}

// A fetch line: an address, and a status, or `null` for a network error.
fn fetch_line(alloc: Global, parts: &[Value]) -> Result<FetchLine, Fault> {
    let fetch = text(alloc, parts, 0)?;
    if part(parts, 1)?.is_null() {
        return Ok(FetchLine {
            fetch,
            fetched: None,
        });
    }
    let fetched = fetched(alloc, small_number(parts, 1)?)?;
    Ok(FetchLine {
        fetch,
        fetched: Some(fetched),
    })
}

fn network(alloc: Global, lines: &[Value]) -> Result<Net, Fault> {
    let mut all = Items::new(alloc);
    for line in lines {
        all.push(fetch_line(alloc, list_of(line)?)?)?;
    }
    Ok(Net::new(alloc, all)?)
}

// The status of the fetch of this number of an address.
fn drawn(alloc: Global, net: &Net, parts: &[Value]) -> Answer {
    let address = text(alloc, parts, 0)?;
    let ordinal = small_number(parts, 1)?;
    NoGate.pass(&address, ordinal);
    let line = net.fetch(&address, ordinal);
    let fetched = line.and_then(|line| line.fetched.as_ref());
    number_or_none(
        alloc,
        fetched.map(|fetched| u64::from(fetched.response.status)),
    )
}

// What a network answers to each fetch, behind a space.
fn all_drawn(alloc: Global, net: &Net, fetches: &[Value]) -> Answer {
    let mut all = String::new(alloc);
    for fetch in fetches {
        let answer = drawn(alloc, net, list_of(fetch)?)?;
        all.push_str(" ")?;
        all.push_str(answer.as_str())?;
    }
    Ok(all)
}

// How many lines a network has, and what it answers to each fetch.
fn lines_and_drawn(alloc: Global, net: &Net, fetches: &[Value]) -> Answer {
    let lines = net.lines().as_slice().len();
    let answers = all_drawn(alloc, net, fetches)?;
    Ok(format!(in alloc; "{lines}{answers}")?)
}

fn fetches(alloc: Global, parts: &[Value]) -> Answer {
    let lines = list(parts, 0)?;
    let fetches = list(parts, 1)?;
    match network(alloc, lines) {
        Ok(net) => lines_and_drawn(alloc, &net, fetches),
        Err(fault) => Err(fault),
    }
}

fn blank(alloc: Global) -> Text {
    Text::from_string(String::new(alloc))
}

fn blank_put(alloc: Global) -> Result<Boxed<CachePut>, NoMemory> {
    let put = CachePut {
        name: blank(alloc),
        request: Request {
            method: blank(alloc),
            url: blank(alloc),
            headers: Items::new(alloc),
        },
        response: Response {
            status: 200,
            headers: Items::new(alloc),
            body: Shared::new(alloc, Bytes::from_vec(Vec::new(alloc)))?,
        },
    };
    Boxed::new(alloc, put)
}

fn action(alloc: Global, word: &str) -> Result<Action, Fault> {
    let place = Place {
        at: blank(alloc),
        partition: None,
    };
    match word {
        "cacheOpen" => Ok(Action::CacheOpen {
            place,
            name: blank(alloc),
        }),
        "put" => Ok(Action::Put {
            place,
            put: blank_put(alloc)?,
        }),
        _ => Err(Fault::BadRow),
    }
}

// The event of a lane's action: the lane, its position there, and its word.
fn event(alloc: Global, parts: &[Value]) -> Result<Event, Fault> {
    let who = Who::Lane {
        lane: small_number(parts, 0)?,
        at: small_number(parts, 1)?,
    };
    Ok(event_of_action(who, action(alloc, word(parts, 2)?)?))
}

fn events(alloc: Global, values: &[Value]) -> Result<Items<Event>, Fault> {
    let mut events = Items::new(alloc);
    for value in values {
        events.push(event(alloc, list_of(value)?)?)?;
    }
    Ok(events)
}

fn end(alloc: Global, parts: &[Value]) -> Result<End, Fault> {
    match word(parts, 0)? {
        "done" => Ok(End::Done),
        "stalled" => Ok(End::Stalled(small_number(parts, 1)?)),
        "disk" => Ok(End::Disk(events(alloc, list(parts, 1)?)?)),
        "full" => Ok(End::Full(event(alloc, list(parts, 1)?)?)),
        "spent" => Ok(End::Spent),
        _ => Err(Fault::BadRow),
    }
}

// The transcript of no entry and this end.
fn printed(alloc: Global, end: &End) -> Answer {
    let text = print_history(alloc, &[], end)?;
    quoted(alloc, text.as_str())
}

/// The answer to a row of `gen`.
pub fn gen_answer(alloc: Global, call: &str, parts: &[Value]) -> Answer {
    match call {
        "lines" => generated(alloc, parts),
        _ => Err(Fault::BadRow),
    }
}

/// The answer to a row of `net`.
pub fn net_answer(alloc: Global, call: &str, parts: &[Value]) -> Answer {
    match call {
        "fetches" => fetches(alloc, parts),
        _ => Err(Fault::BadRow),
    }
}

fn end_printed(alloc: Global, end: End) -> Answer {
    printed(alloc, &end)
}

fn end_answer(alloc: Global, parts: &[Value]) -> Answer {
    match end(alloc, parts) {
        Ok(end) => end_printed(alloc, end),
        Err(fault) => Err(fault),
    }
}

/// The answer to a row of `print`.
pub fn print_answer(alloc: Global, call: &str, parts: &[Value]) -> Answer {
    match call {
        "end" => end_answer(alloc, parts),
        _ => Err(Fault::BadRow),
    }
}
