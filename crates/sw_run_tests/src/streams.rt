//! Sources that fail or have too much, and sinks that fail or take little.
ghost use Rattle.std.specs.Prelude.{None};

use std::alloc::Global;
use std::io::{ErrorKind, Read};
use std::process::Abort;
use sw_data::Bytes;
use sw_io::*;

// A sink that takes one byte at a time.
#[derive(Drop)]
struct ByteByByte {
    bytes: Vec<u8>,
    faults: u64,
}

impl Sink for ByteByByte {
    ghost held = { λ _. None };

    ghost handed = { λ s. s.bytes.items };

    ghost faults = { λ s. s.faults };

    fn write(&mut self, piece: &[u8]) -> Result<usize, Failed> {
        match piece.first() {
            None => Ok(0),
            Some(byte) => {
                if self.bytes.push(*byte).is_err() {
                    self.faults = self.faults.saturating_add(1);
                    return Err(Failed);
                }
                Ok(1)
            }
        }
    }

    fn faults(&self) -> u64 {
        self.faults
    }
}

// A reader that fails.
#[derive(Drop)]
struct Broken;

impl Read for Broken {
    fn read(&mut self, _into: &mut [u8]) -> std::io::Result<usize> {
        Err(std::io::Error::from(ErrorKind::BrokenPipe))
    }
}

// A source in memory, one of whose reads may fail.
fn source(rt: &impl Abort, alloc: Global, bytes: &[u8], failing: &[u64]) -> MemorySource {
    let bytes = Bytes::of(alloc, bytes).expect(rt, "memory");
    MemorySource::new(bytes, calls(rt, alloc, failing))
}

fn calls(rt: &impl Abort, alloc: Global, failing: &[u64]) -> Vec<u64> {
    let mut calls = Vec::new(alloc);
    for call in failing {
        calls.push(*call).expect(rt, "memory");
    }
    calls
}

// Reads a source within a limit: what came of it, with whether all bytes are there, and the count of faults.
fn read(
    rt: &impl Abort,
    alloc: Global,
    bytes: &[u8],
    limit: u64,
    failing: &[u64],
) -> (Result<bool, ReadAllError>, u64) {
    let mut source = source(rt, alloc, bytes, failing);
    match read_all(alloc, &mut source, limit) {
        Ok(all) => (Ok(all.as_bytes() == bytes), source.faults()),
        Err(why) => (Err(why), source.faults()),
    }
}

#[test]
fn sources_are_read_within_a_limit(rt: HostRuntime) {
    let alloc = rt.alloc();
    let large = Err(ReadAllError::TooLarge);
    for (limit, got) in [(2, large), (3, Ok(true))] {
        assert_eq!(rt;
            read(&rt, alloc, b"abc", limit, &[]),
            (got, 0),
            "limit {limit}"
        );
    }
    assert_eq!(rt; read(&rt, alloc, b"", 0, &[]), (Ok(true), 0));
    let long = [7u8; 5000];
    for (limit, got) in [(5000, Ok(true)), (4999, large)] {
        assert_eq!(rt;
            read(&rt, alloc, &long, limit, &[]),
            (got, 0),
            "limit {limit}"
        );
    }
}

#[test]
fn a_read_that_fails_is_told(rt: HostRuntime) {
    let alloc = rt.alloc();
    let fault = (Err(ReadAllError::ReadFault), 1);
    for (call, got) in [(0, fault), (1, fault), (2, (Ok(true), 0))] {
        assert_eq!(rt; read(&rt, alloc, b"abc", 3, &[call]), got, "read {call}");
    }
    assert_eq!(rt; read(&rt, alloc, &[7u8; 5000], 5000, &[1]), fault);
}

// Whether all that a source has is these three bytes.
fn is_abc<S: Source>(alloc: Global, source: &mut S) -> bool {
    match read_all(alloc, source, 3) {
        Ok(all) => all.as_bytes() == b"abc".as_slice(),
        Err(_) => false,
    }
}

#[test]
fn other_sources_are_read(rt: HostRuntime) {
    let alloc = rt.alloc();
    let abc = Bytes::of(alloc, b"abc").expect(&rt, "memory");
    assert!(rt; is_abc(alloc, &mut NeverSource::new(abc)));
    assert!(rt; is_abc(alloc, &mut StdSource::new(b"abc".as_slice())));
    let mut broken = StdSource::new(Broken);
    assert!(rt; !is_abc(alloc, &mut broken));
    assert_eq!(rt; broken.faults(), 1);
}

#[test]
fn a_write_that_fails_is_told(rt: HostRuntime) {
    let alloc = rt.alloc();
    let mut memory = MemorySink::new(alloc, calls(&rt, alloc, &[1]));
    assert!(rt; write_all(&mut memory, b"hello").is_ok());
    assert!(rt; write_all(&mut memory, b"lost").is_err());
    assert!(rt; memory.bytes() == b"hello".as_slice());
    assert_eq!(rt; memory.faults(), 1);
}

#[test]
fn sinks_are_given_all(rt: HostRuntime) {
    let alloc = rt.alloc();
    let mut slow = ByteByByte {
        bytes: Vec::new(alloc),
        faults: 0,
    };
    assert!(rt; write_all(&mut slow, b"hello").is_ok());
    assert!(rt; slow.bytes.as_slice() == b"hello".as_slice());
    assert!(rt; write_all(&mut StdSink::new(Vec::new(alloc)), b"hello").is_ok());
    assert!(rt; write_all(&mut NeverSink::new(), b"hello").is_ok());
}
