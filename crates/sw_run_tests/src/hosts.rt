//! Hosts after a recording that one worker ran on the thread of the call. What a larger function would drop itself, at each of
//! its ends, costs the check minutes, so each is let go by a function of its own.
ghost use Rattle.std.specs.Prelude.{◌≤◌, ◌^◌};
ghost use Rattle.sw_store.specs.Opened.{HasOpened, IsFresh};

use crate::devices::{LIMIT, formatted};
use std::alloc::Global;
use std::process::Abort;
use std::snapshot::Snapshot;
use sw_bucket::{BoundedEnd, run_bounded};
use sw_data::{Entry, Recording};
use sw_disk::Disk;
use sw_record::read_recording;
use sw_store::Store;

// More than any of the recordings takes.
pub(crate) const AMPLE: u64 = 65_536;

// The work on a host is over.
pub(crate) fn let_go(store: Store) {
    drop(store);
}

// A recording isn't run.
fn not_run(recording: Recording) {
    drop(recording);
}

// How a run has ended isn't asked.
fn not_asked(end: BoundedEnd) {
    drop(end);
}

// What happens by a recording within a limit on a store that was opened, the usage that it leaves, and the host after it.
fn ran<D: Disk>(
    alloc: Global,
    mut store: Store,
    disk: &mut D,
    recording: Recording,
    limit: u64,
    start: Snapshot<D>,
) -> Option<(Vec<Entry>, u64, Store)>
    requires fresh { IsFresh (2 ^ 32) store }
    requires opened { HasOpened D.Disk start.value disk.old store }
{
    match run_bounded(alloc, &mut store, disk, recording, limit, start) {
        Ok((history, end, used)) => {
            not_asked(end);
            Some((history, used, store))
        }
        Err(_) => {
            let_go(store);
            None
        }
    }
}

// The same on a disk.
fn opened<D: Disk>(
    alloc: Global,
    disk: &mut D,
    recording: Recording,
    limit: u64,
) -> Option<(Vec<Entry>, u64, Store)> {
    let start = Snapshot::of(disk);
    match Store::reopen(alloc, disk, LIMIT) {
        Ok(store) => ran(alloc, store, disk, recording, limit, start),
        Err(_) => {
            not_run(recording);
            None
        }
    }
}

// The same by the lines of a recording on a formatted disk.
pub(crate) fn after(
    rt: &impl Abort,
    alloc: Global,
    lines: &str,
    limit: u64,
) -> Option<(Vec<Entry>, u64, Store)> {
    match read_recording(alloc, lines.as_bytes()) {
        Ok(recording) => {
            let mut disk = formatted(rt, alloc, Vec::new(alloc));
            opened(alloc, &mut disk, recording, limit)
        }
        Err(_) => None,
    }
}
