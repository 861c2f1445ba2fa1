//! Two parts: a checkpoint, and what a crash leaves at every moment of a run with checkpoints.
ghost use Rattle.std.specs.Prelude.{◌≡◌, ◌≤◌, ◌^◌, [], ◌∷◌, length, IfSome, IsTrue};
ghost use Rattle.sw_journal.specs.Format.{format_2};
ghost use Rattle.sw_journal.specs.WholePart.{IsWhole};
ghost use Rattle.sw_twin.specs.Twin.{StandsFor};

use crate::devices::{LIMIT, bytes, stopping, with_left};
use std::alloc::Global;
use std::process::Abort;
use sw_data::Bytes;
use sw_disk::{Disk, MemoryDisk, Part};
use sw_twin::*;

// A whole part with a payload of one byte.
fn whole(rt: &impl Abort, alloc: Global, byte: u8) -> Bytes
    ensures { IsWhole ((byte ∷ []) ∷ []) result }
{
    let payloads = [bytes(rt, alloc, &[byte])];
    match part_of(alloc, &payloads) {
        Ok(part) => part,
        Err(_) => rt.panic("no memory"),
    }
}

// The first byte of the last payload, and 0 where there is no record; None for a bad part or a fault.
fn last_of<D: Disk>(alloc: Global, disk: &mut D) -> Option<u8> {
    match Twin::reopen(alloc, disk, LIMIT) {
        Ok((_, records)) => match records.last() {
            Some(record) => record.1.as_bytes().first().copied(),
            None => Some(0),
        },
        Err(ReopenError::NotFormatted) => Some(0),
        Err(_) => None,
    }
}

// Reopens a disk whose current part has format 2.
fn reopened<D: Disk>(alloc: Global, disk: &mut D, limit: u64) -> Option<Twin>
    requires { limit ≤ 2 ^ 32 }
    ensures format { IfSome result (λ twin. twin.journal.format ≡ format_2) }
    ensures stands { IfSome result (λ twin. StandsFor twin D.Disk disk.new) }
{
    match Twin::reopen(alloc, disk, limit) {
        Ok((twin, _)) => { if twin.format() == 2 { Some(twin) } else { None } }
        Err(_) => None,
    }
}

// Appends a payload of one byte, and says whether it was acknowledged.
fn added<D: Disk>(rt: &impl Abort, twin: &mut Twin, disk: &mut D, byte: u8) -> bool
    requires format { twin.old.journal.format ≡ format_2 }
    requires stands { StandsFor twin.old D.Disk disk.old }
    ensures stands { IsTrue result → StandsFor twin.new D.Disk disk.new }
{
    match twin.reserve(1) {
        Ok(()) => {}
        Err(_) => rt.panic("no memory"),
    }
    match twin.append(disk, &[byte]) {
        Ok(()) => true,
        Err(_) => false,
    }
}

// Makes a part with a payload of one byte the current one, and says whether it was acknowledged.
fn replaced<D: Disk>(
    rt: &impl Abort,
    alloc: Global,
    twin: &mut Twin,
    disk: &mut D,
    byte: u8,
) -> bool
    requires stands { StandsFor twin.old D.Disk disk.old }
    ensures format { IsTrue result → twin.new.journal.format ≡ format_2 }
    ensures stands { IsTrue result → StandsFor twin.new D.Disk disk.new }
{
    let contents = whole(rt, alloc, byte);
    match twin.checkpoint(disk, contents.as_bytes()) {
        Ok(()) => true,
        Err(_) => false,
    }
}

// The format after a checkpoint with a byte, the next free offset, and what a byte needs.
fn goes_over<D: Disk>(
    rt: &impl Abort,
    alloc: Global,
    disk: &mut D,
    limit: u64,
    byte: u8,
) -> Option<(u8, u64, u64)>
    requires { limit ≤ 2 ^ 32 }
{
    let mut twin = reopened(alloc, disk, limit)?;
    if replaced(rt, alloc, &mut twin, disk, byte) {
        Some((twin.format(), twin.next(), twin.needed(1)))
    } else {
        None
    }
}

#[test]
fn a_checkpoint_goes_over_to_the_other_part(rt: HostRuntime) {
    let alloc = rt.alloc();
    let (root, right) = (bytes(&rt, alloc, &[]), bytes(&rt, alloc, b"rest"));
    let mut disk = MemoryDisk::new(root, whole(&rt, alloc, 7), right, Vec::new(alloc));
    assert_eq!(rt; goes_over(&rt, alloc, &mut disk, 31, 9), Some((2, 31, 14)));
    assert_eq!(rt; disk.image(Part::Root), [1, 0].as_slice());
    assert_eq!(rt; disk.image(Part::Left), whole(&rt, alloc, 7).as_bytes());
    assert_eq!(rt; last_of(alloc, &mut disk), Some(9));
}

// Appends 1, makes 2 by a checkpoint, appends 3 and makes 4 by a checkpoint, up to the first fault. Says how far it came.
fn steps<D: Disk>(rt: &impl Abort, alloc: Global, twin: &mut Twin, disk: &mut D) -> u8
    requires format { twin.old.journal.format ≡ format_2 }
    requires stands { StandsFor twin.old D.Disk disk.old }
    ensures { result ≤ 4 }
{
    if !added(rt, twin, disk, 1) {
        return 0;
    }
    if !replaced(rt, alloc, twin, disk, 2) {
        return 1;
    }
    if !added(rt, twin, disk, 3) {
        return 2;
    }
    if !replaced(rt, alloc, twin, disk, 4) {
        return 3;
    }
    4
}

// Formats a disk, and makes the steps.
fn play<D: Disk>(rt: &impl Abort, alloc: Global, disk: &mut D) -> u8
    ensures { result ≤ 4 }
{
    if init(disk) == Err(InitError::DiskFault) {
        return 0;
    }
    match reopened(alloc, disk, LIMIT) {
        Some(mut twin) => steps(rt, alloc, &mut twin, disk),
        None => 0,
    }
}

// Where a disk has this payload as the last, or the next, makes a checkpoint of 9, if the disk is formatted. Says what
// has to be the last payload then.
fn goes_on<D: Disk>(rt: &impl Abort, alloc: Global, disk: &mut D, last: u8) -> Option<u8> {
    let found = last_of(alloc, disk)?;
    if found < last || found - last > 1 {
        return None;
    }
    match goes_over(rt, alloc, disk, LIMIT, 9) {
        Some(_) => Some(9),
        None => { if found == 0 { Some(0) } else { None } }
    }
}

// Whether a crash has left this payload as the last, or the next, and a checkpoint of 9 is kept after it.
fn is_kept(rt: &impl Abort, alloc: Global, mut disk: MemoryDisk, last: u8) -> bool {
    let want = goes_on(rt, alloc, &mut disk, last);
    let mut after = disk.crash(&[1]).expect(rt, "a crash");
    want.is_some() && last_of(alloc, &mut after) == want
}

// Whether a run that is stopped at a call of its disk keeps what was acknowledged after a crash, where what was in doubt is
// picked in one way.
fn keeps(rt: &impl Abort, alloc: Global, mut disk: MemoryDisk, pick: &[u8]) -> bool {
    let last = play(rt, alloc, &mut disk);
    let left = disk.crash(pick).expect(rt, "a crash");
    is_kept(rt, alloc, left, last)
}

const PICKS: [[u8; 48]; 6] = [
    [0; 48],
    [1; 48],
    [255; 48],
    *b"\x01\x00\x00\x00\x00\x00\x00\x00\x00\x00\x00\x00\x00\x00\x00\x00\x00\x00\x00\x00\x00\x00\x00\x00\x00\x00\x00\x00\x00\x00\x00\x00\x00\x00\x00\x00\x00\x00\x00\x00\x00\x00\x00\x00\x00\x00\x00\x00",
    *b"\x01\xff\xff\xff\xff\xff\xff\xff\xff\xff\xff\xff\xff\xff\xff\xff\xff\xff\xff\xff\xff\xff\xff\xff\xff\xff\xff\xff\xff\xff\xff\xff\xff\xff\xff\xff\xff\xff\xff\xff\xff\xff\xff\xff\xff\xff\xff\xff",
    *b"\x01\x01\x07\x00\x01\x9c\x01\x01\x00\x52\x00\x00\x01\x33\xee\x04\x01\x00\xff\x11\x00\x00\x00\x01\x01\x02\xfe\x00\x08\x01\x01\x61\x01\x00\x01\x01\x00\x02\x01\x01\x01\x00\x00\x01\x01\x01\x01\x00",
];

#[test]
fn a_crash_keeps_what_was_acknowledged(rt: HostRuntime) {
    let alloc = rt.alloc();
    let roots: [&[u8]; 3] = [&[], &[0, 1, 1], &[1, 7, 1, 1]];
    for root in roots {
        for after in 0..45u64 {
            for pick in &PICKS {
                let disk = stopping(&rt, alloc, root, &[], after);
                assert!(rt; keeps(&rt, alloc, disk, pick), "{root:?} {after}");
            }
        }
    }
}

#[test]
fn a_whole_run_acknowledges_all(rt: HostRuntime) {
    let alloc = rt.alloc();
    let mut disk = with_left(&rt, alloc, &[], Vec::new(alloc));
    assert_eq!(rt; play(&rt, alloc, &mut disk), 4);
    assert_eq!(rt; disk.image(Part::Root), [1, 1, 0].as_slice());
    assert_eq!(rt; last_of(alloc, &mut disk), Some(4));
}
