//! A recording is run under a limit of what is kept, by one worker on the thread of the call.

ghost use Rattle.std.specs.Prelude.{◌≡◌, ◌≢◌, ◌++◌, ◌^◌, IfOk, OnErr};
ghost use Rattle.sw_host.specs.Bounding.{EndsBounded, last_of, status_of, usage_text};
ghost use Rattle.sw_host.specs.Stands.{Bounds, BoundsOn, IsLeftBounded, LeavesAfterBound};
ghost use Rattle.sw_print.specs.Transcript.{transcript};
ghost use Rattle.sw_store.specs.Opened.{HasOpened, IsFresh, IsUnopened};

use crate::ending::{events_of, unopened};
use crate::report::{Report, refusal_of};
use crate::statuses::Status;
use crate::storing::LIMIT;
use std::alloc::Global;
use std::snapshot::Snapshot;
use sw_bucket::{BoundedEnd, run_bounded};
use sw_data::{Bytes, End, Entry, NoMemory, Recording, Text};
use sw_disk::Disk;
use sw_print::print_history;
use sw_record::read_recording;
use sw_store::Store;

// ---- what is printed

// The end of a run that its transcript names. Want of memory has none.
fn last_of(alloc: Global, end: BoundedEnd) -> Result<End, NoMemory>
    ensures last { IfOk result (λ last. last ≡ last_of end) }
    ensures some { IfOk result (λ last. end ≢ BoundedEnd.NoMemory) }
{
    match end {
        BoundedEnd::Done => Ok(End::Done),
        BoundedEnd::Stalled(lane) => Ok(End::Stalled(lane)),
        BoundedEnd::DiskFault(entries) => Ok(End::Disk(events_of(alloc, entries)?)),
        BoundedEnd::Full { event, .. } => Ok(End::Full(event)),
        BoundedEnd::Spent => Ok(End::Spent),
        BoundedEnd::NoMemory => Err(NoMemory),
    }
}

// The status of a run.
fn status_of(end: &BoundedEnd) -> Status
    ensures { result ≡ status_of end.now }
{
    match end {
        BoundedEnd::Done => Status::Done,
        BoundedEnd::Stalled(_) => Status::Stalled,
        BoundedEnd::DiskFault(_) => Status::DiskFault,
        BoundedEnd::Full { .. } => Status::Full,
        BoundedEnd::Spent => Status::NoEntryLeft,
        BoundedEnd::NoMemory => Status::NoMemory,
    }
}

// The transcript of a run.
fn transcript_of(alloc: Global, history: Vec<Entry>, end: BoundedEnd) -> Result<Text, NoMemory>
    ensures text { IfOk result (λ text. text ≡ transcript history.items (last_of end)) }
    ensures some { IfOk result (λ text. end ≢ BoundedEnd.NoMemory) }
{
    let last = last_of(alloc, end)?;
    let text = print_history(alloc, &history, &last);
    drop(last);
    text
}

// A text with the line of what is used behind it.
fn with_usage(alloc: Global, text: &str, used: u64, limit: u32) -> Result<Text, NoMemory>
    ensures { IfOk result (λ all. all ≡ text.now ++ usage_text used limit) }
{
    Ok(Text::from_string(format!(in alloc; "{text}usage {used} of {limit}\n")?))
}

// The report of a run.
fn printed(
    alloc: Global,
    history: Vec<Entry>,
    end: BoundedEnd,
    used: u64,
    limit: u32,
) -> Result<Report, NoMemory>
    ensures status { IfOk result (λ report. report.status ≡ status_of end) }
    ensures some { IfOk result (λ report. end ≢ BoundedEnd.NoMemory) }
    ensures text { IfOk result (λ report.
        report.text ≡ transcript history.items (last_of end) ++ usage_text used limit) }
{
    let status = status_of(&end);
    let text = transcript_of(alloc, history, end)?;
    Ok(Report {
        status,
        text: with_usage(alloc, text.as_str(), used, limit)?,
    })
}

// ---- the run

// The work on a host is over. A store that a larger function would drop itself costs the check minutes.
fn let_go(store: Store) {
    drop(store);
}

// The report of a recording that is run under a limit on a disk that was opened, which was so at the start.
fn run_within<D: Disk>(
    alloc: Global,
    mut store: Store,
    recording: Recording,
    limit: u32,
    start: Snapshot<D>,
    disk: &mut D,
) -> Result<Report, NoMemory>
    requires fresh { IsFresh (2 ^ 32) store }
    requires opened { HasOpened D.Disk start.value disk.old store }
    requires unopened { IsUnopened D.Disk start.value disk.old }
    ensures ends { IfOk result (λ report. EndsBounded D.Disk start.value disk.new limit
        recording report.status report.text) }
    ensures left { OnErr result (IsLeftBounded D.Disk start.value disk.new limit recording) }
{
    match run_bounded(alloc, &mut store, disk, recording, limit as u64, start) {
        Ok((history, end, used)) => {
            let_go(store);
            printed(alloc, history, end, used, limit)
        }
        Err(NoMemory) => {
            let_go(store);
            Err(NoMemory)
        }
    }
}

// The same on a disk that is opened; or the report of one that was not.
fn bound_on<D: Disk>(
    alloc: Global,
    recording: Recording,
    limit: u32,
    mut disk: D,
) -> (Result<Report, NoMemory>, D)
    ensures bounds { IfOk result.0 (λ report. BoundsOn D.Disk disk result.1 limit recording
        report.status report.text) }
    ensures left { OnErr result.0 (IsLeftBounded D.Disk disk result.1 limit recording) }
{
    let start = Snapshot::of(&disk);
    match Store::reopen(alloc, &mut disk, LIMIT) {
        Ok(store) => (
            run_within(alloc, store, recording, limit, start, &mut disk),
            disk,
        ),
        Err(error) => (unopened(alloc, recording, error), disk),
    }
}

/// The report of the bytes of a recording that is run under a limit, and the disk. The bytes go before the run.
pub(crate) fn bound<D: Disk>(
    alloc: Global,
    bytes: Bytes,
    limit: u32,
    disk: D,
) -> (Result<Report, NoMemory>, D)
    ensures bounds { IfOk result.0 (λ report.
        Bounds D.Disk disk result.1 limit bytes report.status report.text) }
    ensures no_memory { OnErr result.0 (LeavesAfterBound D.Disk disk result.1 limit bytes) }
{
    match read_recording(alloc, bytes.as_bytes()) {
        Ok(recording) => {
            drop(bytes);
            bound_on(alloc, recording, limit, disk)
        }
        Err(error) => (refusal_of(alloc, error), disk),
    }
}
