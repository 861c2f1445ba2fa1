//! Whole runs: disks that fail, crashes at every call of a disk, and two workers at the network at the same time.
use crate::devices::{FORMATTED, failing, formatted, stopping};
use std::alloc::Global;
use std::process::Abort;
use std::sync::Wait;
use std::sync::atomic::{AtomicBool, AtomicU32, Ordering};
use std::thread::{Threads, yield_now};
use sw_data::{Bytes, Text};
use sw_disk::{CallKind, MemoryDisk};
use sw_host::{Outcome, Status, run};
use sw_io::{MemorySink, MemorySource};
use sw_net::{Gate, NoGate};

const OPEN: &str = "{\"lane\":0,\"do\":\"cacheOpen\",\"at\":\"https://a.test/\",\"name\":\"v\"}\n";

const OPEN_THREE: &str =
    "{\"lane\":0,\"do\":\"cacheOpen\",\"at\":\"https://a.test/\",\"name\":\"v\"}\n{\"lane\":0,\"do\":\"cacheOpen\",\"at\":\"https://a.test/\",\"name\":\"w\"}\n{\"lane\":0,\"do\":\"cacheOpen\",\"at\":\"https://b.test/\",\"name\":\"v\"}\n";

// A put, up to the text of its body.
const PUT_FRONT: &str =
    "{\"lane\":0,\"do\":\"put\",\"at\":\"https://a.test/\",\"name\":\"v\",\"request\":\"https://a.test/x\",\"response\":{\"status\":200,\"text\":\"";

// Two pages of two origins, each of which registers a script. Lane 0 has five calls, and lane 1 four.
const TWO_PAGES: &str =
    "{\"fetch\":\"https://a.test/sw.js\",\"status\":200,\"headers\":[[\"Content-Type\",\"text/javascript\"]],\"text\":\"// a\"}\n{\"fetch\":\"https://b.test/sw.js\",\"status\":200,\"headers\":[[\"Content-Type\",\"text/javascript\"]],\"text\":\"// b\"}\n{\"lane\":0,\"do\":\"open\",\"client\":1,\"url\":\"https://a.test/\"}\n{\"lane\":0,\"do\":\"register\",\"client\":1,\"script\":\"/sw.js\"}\n{\"lane\":0,\"do\":\"await\",\"of\":1}\n{\"lane\":0,\"do\":\"ready\",\"client\":1}\n{\"lane\":0,\"do\":\"cacheOpen\",\"at\":\"https://a.test/\",\"name\":\"v\"}\n{\"lane\":1,\"do\":\"open\",\"client\":2,\"url\":\"https://b.test/\"}\n{\"lane\":1,\"do\":\"register\",\"client\":2,\"script\":\"/sw.js\"}\n{\"lane\":1,\"do\":\"await\",\"of\":1}\n{\"lane\":1,\"do\":\"ready\",\"client\":2}\n";

// A run of one of these makes no more calls of its disk.
const CALLS: u64 = 40;

// The words of a line.
fn words(rt: &impl Abort, alloc: Global, line: &str) -> Vec<String> {
    let mut all = Vec::new(alloc);
    for word in line.split_whitespace() {
        let word = String::from_str(alloc, word).expect(rt, "memory");
        all.push(word).expect(rt, "memory");
    }
    all
}

// The numbers of calls that fail: this one alone, or none.
fn calls(rt: &impl Abort, alloc: Global, failing: Option<u64>) -> Vec<u64> {
    let mut calls = Vec::new(alloc);
    if let Some(call) = failing {
        calls.push(call).expect(rt, "memory");
    }
    calls
}

// A source of these lines, one of whose reads may fail.
fn source(rt: &impl Abort, alloc: Global, lines: &str, failing: Option<u64>) -> MemorySource {
    let lines = Bytes::of(alloc, lines.as_bytes()).expect(rt, "memory");
    MemorySource::new(lines, calls(rt, alloc, failing))
}

// Runs a command on a disk, and gives the status, what was written, and the disk.
pub(crate) fn ran<R: Threads + Wait + Sync + Abort, G: Gate + Sync>(
    rt: &R,
    alloc: Global,
    line: &str,
    lines: &str,
    disk: MemoryDisk,
    gate: &G,
) -> (Status, MemorySink, MemoryDisk) {
    let words = words(rt, alloc, line);
    let mut source = source(rt, alloc, lines, None);
    let mut sink = MemorySink::new(alloc, Vec::new(alloc));
    let Outcome { status, disk } = run(rt, alloc, &words, &mut source, &mut sink, disk, gate);
    (status, sink, disk)
}

// Whether a run on a disk ends with status 6, and has written this text.
fn fails<R: Threads + Wait + Sync + Abort>(
    rt: &R,
    alloc: Global,
    lines: &str,
    disk: MemoryDisk,
    text: &str,
) -> bool {
    let (status, sink, _) = ran(rt, alloc, "replay", lines, disk, &NoGate);
    status.code() == 6 && sink.bytes() == text.as_bytes()
}

// The first call of any kind that an opening makes fails.
#[test]
fn a_fault_at_the_opening_is_told(rt: HostRuntime) {
    let alloc = rt.alloc();
    for call in [
        CallKind::Len,
        CallKind::Read,
        CallKind::Write,
        CallKind::Sync,
    ] {
        let disk = formatted(&rt, alloc, failing(&rt, alloc, call, 0, 0));
        assert!(rt; fails(&rt, alloc, OPEN, disk, "error: disk\n"), "{call:?}");
    }
}

// The events of the refused group stand behind the end.
#[test]
fn a_fault_in_a_run_is_told(rt: HostRuntime) {
    let alloc = rt.alloc();
    let one = "- restarted -> 0 registrations 0 caches\nend disk L0.0 cacheOpen\n";
    let three =
        "- restarted -> 0 registrations 0 caches\nend disk L0.0 cacheOpen, L0.1 cacheOpen, L0.2 cacheOpen\n";
    for (call, number) in [(CallKind::Write, 2), (CallKind::Sync, 3)] {
        let disk = formatted(&rt, alloc, failing(&rt, alloc, call, number, u64::MAX));
        assert!(rt; fails(&rt, alloc, OPEN, disk, one), "{call:?}");
        let disk = formatted(&rt, alloc, failing(&rt, alloc, call, number, number));
        assert!(rt; fails(&rt, alloc, OPEN_THREE, disk, three), "{call:?}");
    }
}

// A recording is replayed from a source and to a sink of which a call may fail: the status, and what was written.
fn streamed<R: Threads + Wait + Sync + Abort>(
    rt: &R,
    alloc: Global,
    read: Option<u64>,
    write: Option<u64>,
) -> (Status, MemorySink) {
    let words = words(rt, alloc, "replay");
    let mut source = source(rt, alloc, OPEN, read);
    let mut sink = MemorySink::new(alloc, calls(rt, alloc, write));
    let disk = stopping(rt, alloc, &[], FORMATTED, CALLS);
    let Outcome { status, .. } = run(rt, alloc, &words, &mut source, &mut sink, disk, &NoGate);
    (status, sink)
}

#[test]
fn a_read_or_a_write_that_fails_is_told(rt: HostRuntime) {
    let (status, sink) = streamed(&rt, rt.alloc(), Some(0), None);
    assert!(rt; status.code() == 4 && sink.bytes() == b"error: read\n".as_slice());
    let (status, sink) = streamed(&rt, rt.alloc(), None, Some(0));
    assert!(rt; status.code() == 5 && sink.bytes().is_empty());
}

// A recording that keeps a body of 1 MiB, after which what is kept is written anew.
fn large(rt: &impl Abort, alloc: Global) -> String {
    let mut lines = String::from_str(alloc, OPEN).expect(rt, "memory");
    lines.push_str(PUT_FRONT).expect(rt, "memory");
    for _ in 0..1_048_576u32 {
        lines.push('a').expect(rt, "memory");
    }
    lines.push_str("\"}}\n").expect(rt, "memory");
    lines
}

const CUT_FAILED: &str =
    "- restarted -> 0 registrations 0 caches\nL0.0 cacheOpen -> made\nL0.1 put -> ok\nend disk\n";

// Where a checkpoint fails, what was written stands, and no event is refused.
#[test]
fn a_fault_at_a_checkpoint_is_told(rt: HostRuntime) {
    let alloc = rt.alloc();
    let disk = formatted(&rt, alloc, failing(&rt, alloc, CallKind::Cut, 0, 0));
    assert!(rt; fails(&rt, alloc, large(&rt, alloc).as_str(), disk, CUT_FAILED));
}

// So it is where the entries of the last turn could not be published.
#[test]
fn a_fault_at_a_checkpoint_is_told_of_a_watched_run(rt: HostRuntime) {
    let alloc = rt.alloc();
    let disk = formatted(&rt, alloc, failing(&rt, alloc, CallKind::Cut, 0, 0));
    let lines = large(&rt, alloc);
    let (status, sink, _) = ran(&rt, alloc, "watch 1", lines.as_str(), disk, &NoGate);
    assert!(rt; status.code() == 6 && sink.bytes() == CUT_FAILED.as_bytes());
}

// A recording, the lines of the entries that change what is kept, in order, and what is shown before the first of these and
// after each.
struct Kept {
    lines: &'static str,
    changing: &'static [&'static str],
    shown: &'static [&'static str],
}

const PAGE: Kept = Kept {
    lines: "{\"fetch\":\"https://a.test/sw.js\",\"status\":200,\"headers\":[[\"Content-Type\",\"text/javascript\"]],\"text\":\"// v1\",\"install\":{\"calls\":[{\"do\":\"cacheOpen\",\"name\":\"v1\"},{\"do\":\"addAll\",\"name\":\"v1\",\"requests\":[\"/\",\"/app.css\"]}]}}\n{\"fetch\":\"https://a.test/\",\"status\":200,\"text\":\"<p>hi\"}\n{\"fetch\":\"https://a.test/app.css\",\"status\":200,\"text\":\"p{}\"}\n{\"lane\":0,\"do\":\"open\",\"client\":1,\"url\":\"https://a.test/\"}\n{\"lane\":0,\"do\":\"register\",\"client\":1,\"script\":\"/sw.js\"}\n{\"lane\":0,\"do\":\"await\",\"of\":1}\n{\"lane\":0,\"do\":\"ready\",\"client\":1}\n{\"lane\":0,\"do\":\"match\",\"at\":\"https://a.test/\",\"request\":\"/app.css\"}\n",
    changing: &[
        "cacheOpen -> made",
        "added a0 -> ok",
        "installed j0 -> ok",
        "tryactivate r0 -> w0",
        "activated w0 -> ok",
    ],
    shown: &[
        "registrations 0\ncaches 0\n",
        "registrations 0\ncaches 1\ncache \"https://a.test\" \"v1\" 0\n",
        "registrations 0\ncaches 1\ncache \"https://a.test\" \"v1\" 2\n",
        "registrations 1\nregistration \"https://a.test\" \"https://a.test/\" imports\n waiting installed \"https://a.test/sw.js\" classic 5\ncaches 1\ncache \"https://a.test\" \"v1\" 2\n",
        "registrations 1\nregistration \"https://a.test\" \"https://a.test/\" imports\n active activating \"https://a.test/sw.js\" classic 5\ncaches 1\ncache \"https://a.test\" \"v1\" 2\n",
        "registrations 1\nregistration \"https://a.test\" \"https://a.test/\" imports\n active activated \"https://a.test/sw.js\" classic 5\ncaches 1\ncache \"https://a.test\" \"v1\" 2\n",
    ],
};

// Within a limit of 24 bytes each cache takes the place of the one before.
const FORGOTTEN: Kept = Kept {
    lines: "{\"lane\":0,\"do\":\"cacheOpen\",\"at\":\"https://a.test/\",\"name\":\"v\"}\n{\"lane\":0,\"do\":\"cacheOpen\",\"at\":\"https://b.test/\",\"name\":\"v\"}\n{\"lane\":0,\"do\":\"cacheOpen\",\"at\":\"https://a.test/\",\"name\":\"w\"}\n",
    changing: &[
        "L0.0 cacheOpen -> made",
        "L0.1 cacheOpen -> made",
        "- forget \"https://a.test\" -> ok",
        "L0.2 cacheOpen -> made",
        "- forget \"https://b.test\" -> ok",
    ],
    shown: &[
        "registrations 0\ncaches 0\n",
        "registrations 0\ncaches 1\ncache \"https://a.test\" \"v\" 0\n",
        "registrations 0\ncaches 2\ncache \"https://a.test\" \"v\" 0\ncache \"https://b.test\" \"v\" 0\n",
        "registrations 0\ncaches 1\ncache \"https://b.test\" \"v\" 0\n",
        "registrations 0\ncaches 2\ncache \"https://b.test\" \"v\" 0\ncache \"https://a.test\" \"w\" 0\n",
        "registrations 0\ncaches 1\ncache \"https://a.test\" \"w\" 0\n",
    ],
};

// How many of the changing entries were acknowledged.
fn acknowledged(of: &Kept, transcript: &[u8]) -> usize {
    let Ok(text) = str::from_utf8(transcript) else {
        return 0;
    };
    of.changing
        .iter()
        .filter(|line| text.contains(**line))
        .count()
}

// A run that is stopped at a call of its disk, which is then crashed, with what was in doubt picked in one way, keeps what
// some of the changing entries made, and never fewer than were acknowledged; one that isn't stopped comes to its end.
fn keeps<R: Threads + Wait + Sync + Abort>(
    rt: &R,
    alloc: Global,
    line: &str,
    of: &Kept,
    after: u64,
    pick: &[u8],
) -> bool {
    let disk = stopping(rt, alloc, &[], FORMATTED, after);
    let (status, sink, disk) = ran(rt, alloc, line, of.lines, disk, &NoGate);
    let least = acknowledged(of, sink.bytes());
    let left = disk.crash(pick).expect(rt, "a crash");
    let kept = shown(rt, alloc, of, left);
    matches!(kept, Some(count) if count >= least)
        && (status != Status::Done || least == of.changing.len())
        && (status == Status::Done || after < CALLS)
}

// How many of the changing entries a disk keeps.
fn shown<R: Threads + Wait + Sync + Abort>(
    rt: &R,
    alloc: Global,
    of: &Kept,
    disk: MemoryDisk,
) -> Option<usize> {
    let (_, shown, _) = ran(rt, alloc, "show", "", disk, &NoGate);
    of.shown
        .iter()
        .position(|text| text.as_bytes() == shown.bytes())
}

const PICKS: [[u8; 16]; 7] = [
    *b"\x00\x00\x00\x00\x00\x00\x00\x00\x00\x00\x00\x00\x00\x00\x00\x00",
    *b"\x01\x01\x01\x01\x01\x01\x01\x01\x01\x01\x01\x01\x01\x01\x01\x01",
    *b"\xff\xff\xff\xff\xff\xff\xff\xff\xff\xff\xff\xff\xff\xff\xff\xff",
    *b"\x01\x00\x00\x00\x00\x00\x00\x00\x00\x00\x00\x00\x00\x00\x00\x00",
    *b"\x01\xff\xff\xff\xff\xff\xff\xff\xff\xff\xff\xff\xff\xff\xff\xff",
    *b"\x07\x2a\x00\xc3\x01\x90\x5f\x00\x11\x3d\xfe\x01\x00\x64\x82\x05",
    *b"\xe1\x00\x01\x4b\x9c\x00\x03\xd7\x20\x01\x00\x8e\x55\x02\xf0\x19",
];

#[test]
fn a_crash_leaves_what_was_acknowledged(rt: HostRuntime) {
    for after in 0..=CALLS {
        for pick in &PICKS {
            assert!(rt;
                keeps(&rt, rt.alloc(), "replay", &PAGE, after, pick),
                "{after}"
            );
        }
    }
}

#[test]
fn a_crash_leaves_what_a_run_within_a_limit_acknowledged(rt: HostRuntime) {
    for after in 0..=CALLS {
        for pick in &PICKS {
            assert!(rt;
                keeps(&rt, rt.alloc(), "quota 24", &FORGOTTEN, after, pick),
                "{after}"
            );
        }
    }
}

#[test]
fn a_crash_leaves_what_sixteen_workers_acknowledged(rt: HostRuntime) {
    for after in 0..=CALLS {
        for pick in [&PICKS[1], &PICKS[5]] {
            assert!(rt;
                keeps(&rt, rt.alloc(), "replay 16", &PAGE, after, pick),
                "{after}"
            );
        }
    }
}

// A gate that holds who comes first until another comes, but not for ever, and counts who asks for the first fetch of each
// script.
#[derive(Drop)]
struct Meeting {
    asked: AtomicU32,
    first: AtomicU32,
    second: AtomicU32,
    met: AtomicBool,
}

impl Meeting {
    fn wait(&self) {
        for _ in 0..10_000_000u32 {
            if self.asked.load(Ordering::SeqCst) > 1 {
                self.met.store(true, Ordering::SeqCst);
                return;
            }
            yield_now();
        }
    }

    fn count(&self, address: &str) {
        if address == "https://a.test/sw.js" {
            self.first.fetch_add(1, Ordering::SeqCst);
        }
        if address == "https://b.test/sw.js" {
            self.second.fetch_add(1, Ordering::SeqCst);
        }
    }
}

impl Gate for Meeting {
    fn pass(&self, address: &Text, ordinal: u32) {
        if ordinal == 0 {
            self.count(address.as_str());
        }
        if self.asked.fetch_add(1, Ordering::SeqCst) == 0 {
            self.wait();
        }
    }
}

// One worker stands at the gate with what it fetches while the other one works on, and comes to the gate too.
#[test]
fn workers_fetch_at_the_same_time(rt: HostRuntime) {
    let gate = Meeting {
        asked: AtomicU32::new(0),
        first: AtomicU32::new(0),
        second: AtomicU32::new(0),
        met: AtomicBool::new(false),
    };
    let disk = formatted(&rt, rt.alloc(), Vec::new(rt.alloc()));
    let (ended, _, _) = ran(&rt, rt.alloc(), "replay 2", TWO_PAGES, disk, &gate);
    assert_eq!(rt; ended.code(), 0);
    assert!(rt; gate.met.load(Ordering::SeqCst), "both at the gate");
    assert_eq!(rt; gate.asked.load(Ordering::SeqCst), 2, "as many as fetches");
    assert_eq!(rt; gate.first.load(Ordering::SeqCst), 1, "the first script");
    assert_eq!(rt; gate.second.load(Ordering::SeqCst), 1, "the second script");
}
