//! Where a transcript first goes apart from what its recording can have: a hint beside the verdict of `swhost audit`, of
//! which no theorem speaks.
//!
//! Standard input holds a recording, a line `%%`, and a transcript. With the word `disk` the host has kept what the files
//! swhost.root, swhost.left and swhost.right of the current folder keep, and else nothing. What is printed is told at
//! `telling`; status 0 where it was printed, 1 for want of memory or where a stream or the disk fails, 2 for other words, 3
//! where the source is no recording with a transcript.
#![tactic(auto)]

mod reading;
mod telling;
mod walking;

use reading::{Beginning, Fault, given};
use std::alloc::Global;
use std::process::ExitCode;
use sw_data::{NoMemory, Text};
use sw_io::{Sink, Source, StdSink, StdSource, read_all, write_all};
use telling::told;
use walking::{marks_before, place_of};

// The most bytes that the source may have.
const SOURCE_LIMIT: u64 = 67_108_864;

// What is told of a transcript.
fn hint(alloc: Global, rt: &HostRuntime, source: &[u8]) -> Result<Text, Fault> {
    let Beginning { host, transcript } = given(alloc, rt, source)?;
    let place = place_of(alloc, host, transcript)?;
    let Beginning { host, transcript } = given(alloc, rt, source)?;
    let marks = marks_before(alloc, host, transcript, place.line)?;
    Ok(told(alloc, &place, marks)?)
}

// Tells it on the sink.
fn run<S: Source, K: Sink>(
    alloc: Global,
    rt: &HostRuntime,
    source: &mut S,
    sink: &mut K,
) -> Result<(), Fault> {
    let bytes = read_all(alloc, source, SOURCE_LIMIT)?;
    let text = hint(alloc, rt, bytes.as_bytes())?;
    match write_all(sink, text.as_bytes()) {
        Ok(()) => Ok(()),
        Err(_) => Err(Fault::Failed),
    }
}

fn main(rt: HostRuntime) -> ExitCode {
    let alloc = rt.alloc();
    let mut source = StdSource::new(rt.stdin());
    let mut sink = StdSink::new(rt.stdout());
    match run(alloc, &rt, &mut source, &mut sink) {
        Ok(()) => ExitCode::from(0),
        Err(Fault::Failed) => ExitCode::from(1),
        Err(Fault::Words) => ExitCode::from(2),
        Err(Fault::Source) => ExitCode::from(3),
    }
}
