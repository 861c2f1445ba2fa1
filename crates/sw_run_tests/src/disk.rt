//! Disks: what a crash leaves, calls that fail, and real files.
use crate::devices::{bytes, failing, nameless, stopping, with_left};
use std::alloc::Global;
use std::fs::File;
use std::os::unix::fs::FileExt;
use std::process::Abort;
use sw_disk::*;

// The part left after a write at its begin.
fn written<D: Disk>(rt: &impl Abort, disk: &mut D, bytes: &[u8], synced: bool) {
    disk.write_at(Part::Left, 0, bytes).expect(rt, "a write");
    if synced {
        disk.sync().expect(rt, "a sync");
    }
}

// The disk after a write at the begin of its part left, and a crash.
fn crashed(
    rt: &impl Abort,
    alloc: Global,
    left: &[u8],
    new: &[u8],
    synced: bool,
    picks: &[u8],
) -> MemoryDisk {
    let mut disk = with_left(rt, alloc, left, Vec::new(alloc));
    written(rt, &mut disk, new, synced);
    disk.crash(picks).expect(rt, "a crash")
}

#[test]
fn a_crash_leaves_what_is_picked(rt: HostRuntime) {
    let rows: [(&[u8], bool, &[u8], &[u8]); 5] = [
        (&[0, 0], false, &[7, 8], &[7, 8]),
        (&[0, 0], false, &[7], &[7, 0]),
        (&[0, 0], true, &[7, 8], &[1, 2]),
        (&[0, 0, 3], false, &[7, 8, 9], &[7, 8, 3]),
        (&[], false, &[7, 8, 9], &[7, 8]),
    ];
    for (left, synced, picks, want) in rows {
        let disk = crashed(&rt, rt.alloc(), left, &[1, 2], synced, picks);
        assert_eq!(rt; disk.image(Part::Left), want);
    }
}

// Which of five calls succeed: a write, a sync, and three more writes.
fn answers<D: Disk>(disk: &mut D) -> [bool; 5] {
    [
        disk.write_at(Part::Left, 0, &[6]).is_ok(),
        disk.sync().is_ok(),
        disk.write_at(Part::Left, 0, &[7]).is_ok(),
        disk.write_at(Part::Right, 0, &[7]).is_ok(),
        disk.write_at(Part::Right, 0, &[8]).is_ok(),
    ]
}

// A write that failed leaves its range in doubt.
#[test]
fn listed_calls_fail(rt: HostRuntime) {
    let alloc = rt.alloc();
    let mut disk = with_left(&rt, alloc, &[5], failing(&rt, alloc, CallKind::Write, 1, 2));
    assert_eq!(rt; answers(&mut disk), [true, true, false, false, true]);
    assert_eq!(rt; (disk.clock(), disk.faults()), (5, 2));
    assert_eq!(rt; disk.image(Part::Left), [6].as_slice());
    let left = disk.crash(&[1, 2]).expect(&rt, "a crash");
    assert_eq!(rt; left.image(Part::Left), [1].as_slice());
    assert_eq!(rt; left.image(Part::Right), [2].as_slice());
}

// What a disk of any kind does with the part right, which is empty.
fn works<D: Disk>(disk: &mut D, into: &mut [u8]) -> Result<bool, Failed> {
    disk.write_at(Part::Right, 0, &[1, 2, 3])?;
    disk.sync()?;
    let some = disk.read_at(Part::Right, 1, into)?;
    let none = disk.read_at(Part::Right, 3, into)?;
    disk.cut(Part::Right, 0)?;
    let len = disk.len(Part::Right)?;
    Ok(some == 2 && none == 0 && len == 0 && disk.clock() == 6 && disk.faults() == 0)
}

#[test]
fn a_plain_disk_works(rt: HostRuntime) {
    let alloc = rt.alloc();
    let (root, left) = (bytes(&rt, alloc, &[]), bytes(&rt, alloc, &[]));
    let mut disk = PlainDisk::new(root, left, bytes(&rt, alloc, &[]));
    let mut into = [9, 9, 9];
    assert_eq!(rt; works(&mut disk, &mut into), Ok(true));
    assert_eq!(rt; into, [2, 3, 9]);
    left_alone::<PlainDisk>();
}

#[test]
fn a_disk_stops(rt: HostRuntime) {
    let mut disk = stopping(&rt, rt.alloc(), &[], &[], 2);
    assert_eq!(rt; disk.len(Part::Root), Ok(0));
    assert_eq!(rt; write_synced(&mut disk, Part::Right, 0, &[7]), Err(Failed));
    assert_eq!(rt; disk.len(Part::Root), Err(Failed));
    assert_eq!(rt; (disk.clock(), disk.faults()), (4, 2));
    assert_eq!(rt; disk.image(Part::Right), [7].as_slice());
}

// What a file holds.
fn holds(file: &File, into: &mut [u8], bytes: &[u8]) -> bool {
    match file.read_at(into, 0) {
        Ok(count) => count == bytes.len() && into.starts_with(bytes),
        Err(_) => false,
    }
}

// Each write is where it is told to be, and in no other file.
#[test]
fn real_files_work(rt: HostRuntime) {
    let (root, root_again) = nameless(&rt).expect(&rt, "a file");
    let (left, left_again) = nameless(&rt).expect(&rt, "a file");
    let (right, right_again) = nameless(&rt).expect(&rt, "a file");
    let mut disk = FileDisk::new(Some(root), Some(left), Some(right));
    let mut into = [9, 9, 9];
    assert_eq!(rt; works(&mut disk, &mut into), Ok(true));
    assert_eq!(rt; into, [2, 3, 9]);
    assert_eq!(rt; write_synced(&mut disk, Part::Left, 0, &[1, 2, 3]), Ok(()));
    assert_eq!(rt; write_synced(&mut disk, Part::Left, 2, &[8, 9]), Ok(()));
    assert_eq!(rt; write_synced(&mut disk, Part::Root, 0, &[5]), Ok(()));
    assert!(rt; holds(&root_again, &mut [0; 9], &[5]));
    assert!(rt; holds(&left_again, &mut [0; 9], &[1, 2, 8, 9]));
    assert!(rt; holds(&right_again, &mut [0; 9], &[]));
}

#[test]
fn a_missing_file_fails(rt: HostRuntime) {
    let (one, _) = nameless(&rt).expect(&rt, "a file");
    let mut disk = FileDisk::new(None, Some(one), None);
    assert_eq!(rt; disk.len(Part::Left), Ok(0));
    assert_eq!(rt; disk.len(Part::Root), Err(Failed));
    assert_eq!(rt; disk.sync(), Err(Failed));
    assert_eq!(rt; (disk.clock(), disk.faults()), (3, 2));
}
