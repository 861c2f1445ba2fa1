//! Disks that are opened within a limit, one time after the other.
ghost use Rattle.std.specs.Prelude.{◌≤◌, ◌^◌};

use crate::devices::with_left;
use std::alloc::Global;
use sw_disk::{Disk, Part};
use sw_store::{OpenError, Store};
use sw_twin::init;

const LIMIT: u64 = 4_294_967_296;

// How a disk is opened: 0 where it is, and else the number of the refusal.
fn opens<D: Disk>(alloc: Global, disk: &mut D, limit: u64) -> u64
    requires { limit ≤ 2 ^ 32 }
{
    match Store::reopen(alloc, disk, limit) {
        Ok(_) => 0,
        Err(OpenError::NoMemory) => 1,
        Err(OpenError::DiskFault) => 2,
        Err(OpenError::NotFormatted) => 3,
        Err(OpenError::BadJournal(offset)) => offset.saturating_add(100),
        Err(OpenError::Full { length, needed }) => length
            .saturating_mul(100)
            .saturating_add(needed)
            .saturating_add(1000),
    }
}

#[test]
fn a_disk_is_opened_or_refused(rt: HostRuntime) {
    let alloc = rt.alloc();
    let mut disk = with_left(&rt, alloc, b"", Vec::new(alloc));
    assert_eq!(rt; opens(alloc, &mut disk, LIMIT), 3);
    assert!(rt; init(&mut disk).is_ok());
    assert_eq!(rt; opens(alloc, &mut disk, 31), 0);
    assert_eq!(rt; opens(alloc, &mut disk, 31), 1000 + 31 * 100 + 14);
    assert_eq!(rt; opens(alloc, &mut disk, LIMIT), 0);
}

// A part in the older format is opened, and is in the newer one afterwards.
#[test]
fn an_older_part_is_opened_or_refused(rt: HostRuntime) {
    let alloc = rt.alloc();
    let left = b"SWHOST-JOURNAL-1\x01\x00\x00\x00\x01\x0a\x00";
    let mut older = with_left(&rt, alloc, left, Vec::new(alloc));
    assert_eq!(rt; opens(alloc, &mut older, 16), 1000 + 17 * 100);
    assert_eq!(rt; opens(alloc, &mut older, 17), 1000 + 17 * 100 + 14);
    assert_eq!(rt; opens(alloc, &mut older, LIMIT), 0);
    assert_eq!(rt; opens(alloc, &mut older, 31), 1000 + 31 * 100 + 14);
}

// A part in the older format that keeps a registration with an active worker and a preload, and a cache of one pair, in one
// record.
const OLDER: &[u8] =
    b"SWHOST-JOURNAL-1\x01\x00\x00\x01&\x01\x00\x00\x00\x0ehttps://a.test\x00\x00\x00\x0fhttps://a.test/\x01\x00\x00\x00\x13https://a.test/w.js\x01\x00\x00\x00\x02\xff\x00\x02\x00\x00\x00\x0ehttps://a.test\x00\x00\x00\x0fhttps://a.test/\x03\x00\x00\x00\x0ehttps://a.test\x00\x00\x00\x0fhttps://a.test/\x0b\x00\x00\x00\x0ehttps://a.test\x00\x00\x00\x0fhttps://a.test/\x01\x00\x00\x00\x01x\x06\x00\x00\x00\x0ehttps://a.test\x00\x00\x00\x01v\x08\x00\x00\x00\x0ehttps://a.test\x00\x00\x00\x01v\x00\x00\x00\x01\x02\x00\x00\x00\x03GET\x00\x00\x00\x10https://a.test/x\x00\x00\x00\x00\x01,\x00\x00\x00\x01\x00\x00\x00\x01a\x00\x00\x00\x01b\x00\x00\x00\x01!\x00";

// The part in the newer format that keeps the same in six records, and the restart.
const NEWER: &[u8] =
    b"SWHOST-JOURNAL-2\x01\x00\x00\x00E\x00\x00\x00\x00\x00\x00\x00\x00\x01\x00\x00\x00\x0ehttps://a.test\x00\x00\x00\x0fhttps://a.test/\x01\x00\x00\x00\x13https://a.test/w.js\x01\x00\x00\x00\x02\xff\x00\x01\x00\x00\x00&\x00\x00\x00\x00\x00\x00\x00\x01\x02\x00\x00\x00\x0ehttps://a.test\x00\x00\x00\x0fhttps://a.test/\x01\x00\x00\x00&\x00\x00\x00\x00\x00\x00\x00\x02\x03\x00\x00\x00\x0ehttps://a.test\x00\x00\x00\x0fhttps://a.test/\x01\x00\x00\x00,\x00\x00\x00\x00\x00\x00\x00\x03\x0b\x00\x00\x00\x0ehttps://a.test\x00\x00\x00\x0fhttps://a.test/\x01\x00\x00\x00\x01x\x01\x00\x00\x00\x18\x00\x00\x00\x00\x00\x00\x00\x04\x06\x00\x00\x00\x0ehttps://a.test\x00\x00\x00\x01v\x01\x00\x00\x00Q\x00\x00\x00\x00\x00\x00\x00\x05\x08\x00\x00\x00\x0ehttps://a.test\x00\x00\x00\x01v\x00\x00\x00\x01\x02\x00\x00\x00\x03GET\x00\x00\x00\x10https://a.test/x\x00\x00\x00\x00\x01,\x00\x00\x00\x01\x00\x00\x00\x01a\x00\x00\x00\x01b\x00\x00\x00\x01!\x01\x00\x00\x00\x01\x00\x00\x00\x00\x00\x00\x00\x06\x0a\x00";

#[test]
fn an_older_part_is_written_anew(rt: HostRuntime) {
    let alloc = rt.alloc();
    let mut older = with_left(&rt, alloc, OLDER, Vec::new(alloc));
    assert_eq!(rt; opens(alloc, &mut older, LIMIT), 0);
    assert!(rt; older.image(Part::Right) == NEWER);
    assert!(rt; older.image(Part::Left) == OLDER);
    assert!(rt; older.image(Part::Root) == b"\x01\x00".as_slice());
}

#[test]
fn a_bad_part_is_refused(rt: HostRuntime) {
    let alloc = rt.alloc();
    let left = b"SWHOST-JOURNAL-1\x01\x00\x00\x00\x01\x0c\x00";
    let mut bad = with_left(&rt, alloc, left, Vec::new(alloc));
    assert_eq!(rt; opens(alloc, &mut bad, LIMIT), 116);
}
