//! Single calls of the crates below the host, as data: each row of standard input is a call, and each line of standard output
//! its answer. No proof speaks of the answers: the expected ones stand in `stdout`, and come from outside.
//!
//! A row is a JSON array: the name of a crate without `sw_`, the word of a call, and its parts; or the name, and the calls on a
//! fresh table of the crate one after the other, each an array of its word and its parts, which are answered in one line. Empty
//! rows are skipped. What is no such row is answered by `bad row`. Want of memory, and a stream that fails, end the program
//! with status 1.
//!
//! Texts stand as JSON in rows and in answers, bytes as texts in hexadecimal, and what is absent as `null` in a row and as
//! `none` in an answer. A refusal is answered by its name. Each module's head lists its calls; a part with a question mark may
//! be `null`.
#![tactic(auto)]

mod addresses;
mod changes;
mod exchanges;
mod journals;
mod lifecycle;
mod recordings;
mod row;
mod spellings;
mod stores;
mod table;

use row::{Answer, Fault, list_of, plain, word_of};
use serde_json::Value;
use std::alloc::Global;
use std::process::ExitCode;
use sw_caches::Caches;
use sw_client::Clients;
use sw_io::{ReadAllError, Sink, Source, StdSink, StdSource, read_all, write_all};
use sw_ledgers::Draws;
use sw_list::{Flags, Named};
use sw_queue::Queues;
use sw_reg::Registrations;
use sw_worker::Workers;
use table::answers;

// The answer to a row of a table.
fn table_answer(alloc: Global, name: &str, calls: &[Value]) -> Answer {
    match name {
        "caches" => answers(alloc, Caches::new(alloc), calls),
        "client" => answers(alloc, Clients::new(alloc), calls),
        "flags" => answers(alloc, Flags::new(alloc), calls),
        "index" => answers(alloc, Named::<u32>::new(alloc), calls),
        "ledgers" => answers(alloc, Draws::new(alloc), calls),
        "queue" => answers(alloc, Queues::new(alloc), calls),
        "reg" => answers(alloc, Registrations::new(alloc), calls),
        "worker" => answers(alloc, Workers::new(alloc), calls),
        _ => Err(Fault::BadRow),
    }
}

// The answer to a row of a crate by the word of its call.
fn call_answer(alloc: Global, name: &str, call: &str, parts: &[Value]) -> Answer {
    match name {
        "change" => changes::answer(alloc, call, parts),
        "codec" => spellings::answer(alloc, call, parts),
        "copy" => stores::copy_answer(alloc, call, parts),
        "gen" => recordings::gen_answer(alloc, call, parts),
        "http" => exchanges::answer(alloc, call, parts),
        "journal" => journals::answer(alloc, call, parts),
        "kept" => journals::kept_answer(alloc, call, parts),
        "match" => stores::answer(alloc, call, parts),
        "net" => recordings::net_answer(alloc, call, parts),
        "print" => recordings::print_answer(alloc, call, parts),
        "twin" => journals::twin_answer(alloc, call, parts),
        "url" => addresses::answer(alloc, call, parts),
        _ => Err(Fault::BadRow),
    }
}

fn row_answer(alloc: Global, row: &[Value]) -> Answer {
    let Some((name, parts)) = row.split_first() else {
        return Err(Fault::BadRow);
    };
    let name = word_of(name)?;
    let Some((call, rest)) = parts.split_first() else {
        return Err(Fault::BadRow);
    };
    match call.as_str() {
        Some(call) => call_answer(alloc, name, call, rest),
        None => table_answer(alloc, name, parts),
    }
}

// The line of a row, without its line feed.
fn line(alloc: Global, row: &[u8]) -> Answer {
    let row = match Value::from_slice(alloc, row) {
        Ok(row) => row,
        Err(why) if why.is_memory() => return Err(Fault::NoMemory),
        Err(_) => return plain(alloc, "bad row"),
    };
    match list_of(&row) {
        Ok(parts) => match row_answer(alloc, parts) {
            Err(Fault::BadRow) => plain(alloc, "bad row"),
            answer => answer,
        },
        Err(_) => plain(alloc, "bad row"),
    }
}

fn lines(alloc: Global, rows: &[u8]) -> Answer {
    let mut all = String::new(alloc);
    for row in rows.split(|byte| *byte == b'\n') {
        if !row.is_empty() {
            all.push_str(line(alloc, row)?.as_str())?;
            all.push_str("\n")?;
        }
    }
    Ok(all)
}

// Whether all rows were answered.
fn is_answered<S: Source, K: Sink>(alloc: Global, source: &mut S, sink: &mut K) -> bool {
    let rows = match read_all(alloc, source, 16_777_216) {
        Ok(rows) => rows,
        Err(ReadAllError::NoMemory | ReadAllError::ReadFault | ReadAllError::TooLarge) => {
            return false;
        }
    };
    match lines(alloc, rows.as_bytes()) {
        Ok(lines) => write_all(sink, lines.as_bytes()).is_ok(),
        Err(_) => false,
    }
}

fn main(rt: HostRuntime) -> ExitCode {
    let alloc = rt.alloc();
    let mut source = StdSource::new(rt.stdin());
    let mut sink = StdSink::new(rt.stdout());
    if is_answered(alloc, &mut source, &mut sink) {
        ExitCode::from(0)
    } else {
        ExitCode::from(1)
    }
}
