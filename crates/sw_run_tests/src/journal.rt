//! A journal: its limit, what a crash leaves of it, calls that fail, and real files.
ghost use Rattle.std.specs.Prelude.{◌≡◌, ◌≤◌, ◌^◌, IfSome, OnOk, length};
ghost use Rattle.sw_journal.specs.Format.{format_2};
ghost use Rattle.sw_journal.specs.Journal.{StandsFor};

use crate::devices::{LIMIT, failing, nameless, stopping, with_left};
use std::alloc::Global;
use std::process::Abort;
use sw_disk::{CallKind, Disk, FileDisk, MemoryDisk, Part};
use sw_journal::*;

// A part of format 1 with one record, which makes an empty cache.
const EXAMPLE: [u8; 46] =
    *b"SWHOST-JOURNAL-1\x01\x00\x00\x00\x18\x06\x00\x00\x00\x0ehttps://a.test\x00\x00\x00\x01v\x00";

#[derive(Debug, Clone, Copy, PartialEq, Eq)]
enum Told {
    NotFormatted,
    BadAt(u64, usize),
    Records(usize),
    Other,
}

// What reopening says of a part.
fn answer_of<D: Disk>(alloc: Global, disk: &mut D) -> Told {
    match Journal::reopen(alloc, disk, Part::Left, LIMIT) {
        Ok((_, records)) => Told::Records(records.len()),
        Err(ReopenError::NotFormatted) => Told::NotFormatted,
        Err(ReopenError::BadJournal { offset, before }) => Told::BadAt(offset, before.len()),
        Err(ReopenError::NoMemory | ReopenError::DiskFault) => Told::Other,
    }
}

// Reopens a part of format 2 within a limit.
fn reopened<D: Disk>(alloc: Global, disk: &mut D, limit: u64) -> Option<Journal>
    requires { limit ≤ 2 ^ 32 }
    ensures format { IfSome result (λ journal. journal.format ≡ format_2) }
    ensures stands { IfSome result (λ journal. StandsFor journal D.Disk disk.new) }
{
    match Journal::reopen(alloc, disk, Part::Left, limit) {
        Ok((journal, _)) => {
            if journal.format() == 2 {
                Some(journal)
            } else {
                None
            }
        }
        Err(_) => None,
    }
}

// Appends a record.
fn appended<D: Disk>(
    rt: &impl Abort,
    journal: &mut Journal,
    disk: &mut D,
    payload: &[u8],
) -> Result<(), AppendError>
    requires format { journal.old.format ≡ format_2 }
    requires stands { StandsFor journal.old D.Disk disk.old }
    ensures format { OnOk result (journal.new.format ≡ format_2) }
    ensures stands { OnOk result (StandsFor journal.new D.Disk disk.new) }
{
    match journal.reserve(payload.len() as u64) {
        Ok(()) => journal.append(disk, payload),
        Err(_) => rt.panic("no memory"),
    }
}

// Appends two records, up to the first fault. Says how many were acknowledged.
fn append_two<D: Disk>(rt: &impl Abort, journal: &mut Journal, disk: &mut D) -> usize
    requires format { journal.old.format ≡ format_2 }
    requires stands { StandsFor journal.old D.Disk disk.old }
    ensures { result ≤ 2 }
{
    match appended(rt, journal, disk, b"one") {
        Ok(()) => {}
        Err(_) => return 0,
    }
    match appended(rt, journal, disk, b"two") {
        Ok(()) => 2,
        Err(_) => 1,
    }
}

// Formats a part, reopens it and appends two records, up to the first fault. Says how many were acknowledged.
fn play<D: Disk>(rt: &impl Abort, alloc: Global, disk: &mut D) -> usize
    ensures { result ≤ 2 }
{
    if init(disk, Part::Left).is_err() {
        return 0;
    }
    match reopened(alloc, disk, LIMIT) {
        Some(mut journal) => append_two(rt, &mut journal, disk),
        None => 0,
    }
}

// The next free offset of a journal within a limit, what a byte needs, and the answers to two records of a byte.
fn fills<D: Disk>(
    rt: &impl Abort,
    alloc: Global,
    disk: &mut D,
    limit: u64,
) -> Option<(u64, u64, Result<(), AppendError>)>
    requires { limit ≤ 2 ^ 32 }
{
    let mut journal = reopened(alloc, disk, limit)?;
    let (next, needed) = (journal.next(), journal.needed(1));
    match appended(rt, &mut journal, disk, &[10]) {
        Ok(()) => Some((next, needed, appended(rt, &mut journal, disk, &[10]))),
        Err(_) => None,
    }
}

#[test]
fn the_limit_is_exact(rt: HostRuntime) {
    let alloc = rt.alloc();
    let mut disk = with_left(&rt, alloc, b"SWHOST-JOURNAL-2\x00", Vec::new(alloc));
    let full = AppendError::Full {
        length: 31,
        needed: 14,
    };
    assert_eq!(rt; fills(&rt, alloc, &mut disk, 31), Some((17, 14, Err(full))));
    assert_eq!(rt;
        disk.image(Part::Left),
        b"SWHOST-JOURNAL-2\x01\x00\x00\x00\x01\x00\x00\x00\x00\x00\x00\x00\x00\x0a\x00".as_slice()
    );
}

// Whether a disk has so many records, or one more.
fn is_kept<D: Disk>(alloc: Global, disk: &mut D, count: usize) -> bool {
    match answer_of(alloc, disk) {
        Told::NotFormatted => count == 0,
        Told::Records(found) => count <= found && found - count <= 1,
        Told::BadAt(_, _) | Told::Other => false,
    }
}

#[test]
fn a_failed_read_formats_nothing(rt: HostRuntime) {
    let alloc = rt.alloc();
    let mut disk = with_left(
        &rt,
        alloc,
        &EXAMPLE,
        failing(&rt, alloc, CallKind::Read, 0, 0),
    );
    assert_eq!(rt; init(&mut disk, Part::Left), Err(InitError::DiskFault));
    assert_eq!(rt; disk.image(Part::Left), EXAMPLE.as_slice());
    assert_eq!(rt;
        init(&mut disk, Part::Left),
        Err(InitError::AlreadyFormatted)
    );
    assert_eq!(rt; answer_of(alloc, &mut disk), Told::Records(1));
}

// Whether a crash after a run keeps what was acknowledged, where what was in doubt is picked in one way.
fn keeps(rt: &impl Abort, alloc: Global, mut disk: MemoryDisk, pick: &[u8]) -> bool {
    let count = play(rt, alloc, &mut disk);
    let mut left = disk.crash(pick).expect(rt, "a crash");
    is_kept(alloc, &mut left, count)
}

const PICKS: [[u8; 32]; 6] = [
    [0; 32],
    [1; 32],
    [255; 32],
    *b"\x01\x00\x00\x00\x00\x00\x00\x00\x00\x00\x00\x00\x00\x00\x00\x00\x00\x00\x00\x00\x00\x00\x00\x00\x00\x00\x00\x00\x00\x00\x00\x00",
    *b"\x01\xff\xff\xff\xff\xff\xff\xff\xff\xff\xff\xff\xff\xff\xff\xff\xff\xff\xff\xff\xff\xff\xff\xff\xff\xff\xff\xff\xff\xff\xff\xff",
    *b"\x01\xff\x07\x00\x01\x9c\x01\x01\x00\x52\x00\x00\x01\x33\xee\x04\x01\x00\xff\x11\x00\x00\x00\x01\x01\x02\xfe\x00\x08\x01\x01\x61",
];

#[test]
fn a_crash_keeps_what_was_acknowledged(rt: HostRuntime) {
    let alloc = rt.alloc();
    for pick in &PICKS {
        for after in 0..40u64 {
            let disk = stopping(&rt, alloc, &[], &[], after);
            assert!(rt; keeps(&rt, alloc, disk, pick), "{after}");
        }
    }
}

#[test]
fn a_call_that_fails_once_keeps_what_was_acknowledged(rt: HostRuntime) {
    let alloc = rt.alloc();
    for pick in &PICKS {
        for call in [CallKind::Write, CallKind::Sync] {
            for once in 0..8u64 {
                let failing = failing(&rt, alloc, call, once, once);
                let disk = with_left(&rt, alloc, &[], failing);
                assert!(rt; keeps(&rt, alloc, disk, pick), "{call:?} {once}");
            }
        }
    }
}

#[test]
fn a_whole_run_acknowledges_all(rt: HostRuntime) {
    let alloc = rt.alloc();
    let mut disk = with_left(&rt, alloc, &[], Vec::new(alloc));
    assert_eq!(rt; play(&rt, alloc, &mut disk), 2);
    assert_eq!(rt; answer_of(alloc, &mut disk), Told::Records(2));
}

// Whether a part has the two records of a run.
fn has_both<D: Disk>(alloc: Global, disk: &mut D) -> bool {
    let records = match Journal::reopen(alloc, disk, Part::Left, LIMIT) {
        Ok((_, records)) => records,
        Err(_) => return false,
    };
    match records.as_slice() {
        [one, two] => {
            (one.0, two.0) == (16, 32)
                && one.1.as_bytes() == b"one".as_slice()
                && two.1.as_bytes() == b"two".as_slice()
        }
        _ => false,
    }
}

#[test]
fn a_journal_works_on_real_files(rt: HostRuntime) {
    let alloc = rt.alloc();
    let (root, _) = nameless(&rt).expect(&rt, "a file");
    let (left, _) = nameless(&rt).expect(&rt, "a file");
    let (right, _) = nameless(&rt).expect(&rt, "a file");
    let mut disk = FileDisk::new(Some(root), Some(left), Some(right));
    assert_eq!(rt; answer_of(alloc, &mut disk), Told::NotFormatted);
    assert_eq!(rt; play(&rt, alloc, &mut disk), 2);
    assert!(rt; has_both(alloc, &mut disk));
}

#[test]
fn a_journal_of_missing_files_fails(rt: HostRuntime) {
    let (left, _) = nameless(&rt).expect(&rt, "a file");
    let mut disk = FileDisk::new(None, Some(left), None);
    assert_eq!(rt; answer_of(rt.alloc(), &mut disk), Told::Other);
}
