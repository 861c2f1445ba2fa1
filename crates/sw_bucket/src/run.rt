//! A recording within a limit on the usage.

ghost use Rattle.std.specs.Prelude.{◌≡◌, ◌≢◌, ◌^◌, IfOk, OnErr};
ghost use Rattle.sw_bucket.specs.Bounded.{HasEnded, bounded_way};
ghost use Rattle.sw_bucket.specs.declared.ends.BoundedEnd.TheVariants as end;
ghost use Rattle.sw_bucket.specs.Eviction.{next_forget};
ghost use Rattle.sw_rules.specs.Durable.{durable};
ghost use Rattle.sw_rules.specs.History.{after};
ghost use Rattle.sw_sizes.specs.Usage.{usage};
ghost use Rattle.sw_store.specs.Opened.{HasOpened, IsFresh};

use crate::BoundedEnd;
use crate::bucket::Bucket;
use std::alloc::Global;
use std::snapshot::Snapshot;
use sw_data::{Entry, NoMemory, Recording};
use sw_disk::Disk;
use sw_store::Store;

/// The work on a recording within a limit on the usage, by one worker, on a host that was just opened: while the usage passes
/// the limit the host forgets the key that was used least recently, and otherwise what the pick order has next happens.
/// What has happened, how the work has ended, and the usage that what has happened has left.
pub fn run_bounded<D: Disk>(
    alloc: Global,
    store: &mut Store,
    disk: &mut D,
    recording: Recording,
    limit: u64,
    start: Snapshot<D>,
) -> Result<(Vec<Entry>, BoundedEnd, u64), NoMemory>
    requires fresh { IsFresh (2 ^ 32) store.old }
    requires opened { HasOpened D.Disk start.value disk.old store.old }
    ensures ended { IfOk result (λ run. HasEnded D.Disk start.value disk.new
        (bounded_way (next_forget limit) recording store.old.base) store.old.base
        run.0.items run.1) }
    ensures usage { IfOk result (λ run. run.1 ≢ end.NoMemory
        → run.2 ≡ usage (durable (after store.old.base run.0.items))) }
    ensures same { OnErr result (disk.new ≡ disk.old) }
{
    let mut bucket = Bucket::new(alloc, limit);
    match crate::playing::run_under(alloc, store, &mut bucket, disk, recording, start) {
        Ok((history, end)) => Ok((history, end, bucket.usage())),
        Err(NoMemory) => Err(NoMemory),
    }
}
