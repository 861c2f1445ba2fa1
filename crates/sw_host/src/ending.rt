//! A recording is taken up, and reported when it has ended.

ghost use Rattle.std.specs.Prelude.{◌≡◌, ◌≢◌, ◌≤◌, ◌^◌, Ok, map, IfErr, IfOk, IsErr, OnErr};
ghost use Rattle.sw_data.specs.declared.recordings.Recording as recordings;
ghost use Rattle.sw_host.specs.Runs.{EndsAs, last_of, status_of};
ghost use Rattle.sw_host.specs.Stands.{IsLeftAfter, IsReportOf, LeavesAfterBytes, Replays, ReplaysOn};
ghost use Rattle.sw_pool.specs.Yards.{IsOriginOf, IsWorked, Origin, origin_of};
ghost use Rattle.sw_print.specs.Transcript.{transcript};
ghost use Rattle.sw_record.specs.Grammar.{recording_of};
ghost use Rattle.sw_store.specs.Opened.{HasOpened, IsFresh};

use crate::report::{Report, bad_journal, refusal_of, refused};
use crate::statuses::Status;
use crate::storing::LIMIT;
use std::alloc::Global;
use std::snapshot::Snapshot;
use sw_data::{End, Entry, Event, Items, NoMemory, Recording, Text};
use sw_disk::Disk;
use sw_pool::{Worked, Yard};
use sw_print::print_history;
use sw_record::read_recording;
use sw_store::{OpenError, Store};
use sw_turns::{DriveEnd, Progress};

// The events of entries.
pub(crate) fn events_of(alloc: Global, entries: Vec<Entry>) -> Result<Items<Event>, NoMemory>
    ensures { IfOk result (λ events. events ≡ map (λ entry. entry.event) entries.items) }
{
    let mut events = Items::new(alloc);
    for entry in entries {
        events.push(entry.event)?;
    }
    Ok(events)
}

// The end of a run that its transcript names. Want of memory has none.
fn last_of(alloc: Global, end: DriveEnd) -> Result<End, NoMemory>
    ensures last { IfOk result (λ last. last ≡ last_of end) }
    ensures some { IfOk result (λ last. end ≢ DriveEnd.NoMemory) }
{
    match end {
        DriveEnd::Done => Ok(End::Done),
        DriveEnd::Stalled(lane) => Ok(End::Stalled(lane)),
        DriveEnd::DiskFault(entries) => Ok(End::Disk(events_of(alloc, entries)?)),
        DriveEnd::Full { event, .. } => Ok(End::Full(event)),
        DriveEnd::NoMemory => Err(NoMemory),
        DriveEnd::Spent(_) => Ok(End::Spent),
    }
}

// The status of a run.
fn status_of(end: &DriveEnd) -> Status
    ensures { result ≡ status_of end.now }
{
    match end {
        DriveEnd::Done => Status::Done,
        DriveEnd::Stalled(_) => Status::Stalled,
        DriveEnd::DiskFault(_) => Status::DiskFault,
        DriveEnd::Full { .. } => Status::Full,
        DriveEnd::NoMemory => Status::NoMemory,
        DriveEnd::Spent(spent) => Status::Spent(*spent),
    }
}

// The text of a run.
fn text_of(alloc: Global, history: &[Entry], end: DriveEnd) -> Result<Text, NoMemory>
    ensures text { IfOk result (λ text. text ≡ transcript history.now (last_of end)) }
    ensures some { IfOk result (λ text. end ≢ DriveEnd.NoMemory) }
{
    let last = last_of(alloc, end)?;
    let text = print_history(alloc, history, &last);
    drop(last);
    text
}

// The report of a run.
pub(crate) fn printed(alloc: Global, history: Vec<Entry>, end: DriveEnd) -> Result<Report, NoMemory>
    ensures status { IfOk result (λ report. report.status ≡ status_of end) }
    ensures some { IfOk result (λ report. end ≢ DriveEnd.NoMemory) }
    ensures text { IfOk result (λ report. report.text ≡ transcript history.items (last_of end)) }
{
    let status = status_of(&end);
    let text = text_of(alloc, &history, end)?;
    Ok(Report { status, text })
}

// A recording under way for so many workers, on a disk that was opened, which was so at the start.
pub(crate) fn begin<D: Disk>(
    alloc: Global,
    store: Store,
    recording: Recording,
    workers: u32,
    start: Snapshot<D>,
    disk: D,
) -> Result<Yard<D>, (Result<Report, NoMemory>, D)>
    requires some { 1 ≤ workers }
    requires few { workers ≤ 16 }
    requires fresh { IsFresh (2 ^ 32) store }
    requires opened { HasOpened D.Disk start.value disk store }
    ensures origin { IfOk result (λ yard.
        yard.origin ≡ origin_of workers recording store.base start.value) }
    ensures lack { IfErr result (λ unrun. IsErr unrun.0 × (unrun.1 ≡ disk)) }
{
    let known = Snapshot::of(&recording);
    let base = Snapshot::of(store.base());
    match Progress::new(alloc, store, recording, &disk, workers) {
        Ok(progress) => Ok(Yard::new(alloc, disk, progress, workers, known, base, start)),
        Err(NoMemory) => Err((Err(NoMemory), disk)),
    }
}

// The report of a recording that was worked on, and its disk.
pub(crate) fn reported<D: Disk>(alloc: Global, worked: Worked<D>) -> (Result<Report, NoMemory>, D)
    ensures ends { (origin : Origin D)
        → IsWorked D.Disk origin worked.disk worked.progress worked.end
        → IfOk result.0 (λ report. EndsAs D.Disk origin.start result.1 origin.passes
        origin.recording report.status report.text) }
    ensures left { (origin : Origin D)
        → IsWorked D.Disk origin worked.disk worked.progress worked.end
        → OnErr result.0 (IsLeftAfter D.Disk origin.start result.1 origin.passes origin.recording) }
{
    let Worked {
        disk,
        progress,
        end,
    } = worked;
    (printed(alloc, progress.into_history(), end), disk)
}

// The report of a disk that was not opened; the recording is let go here, where that costs the check little.
pub(crate) fn unopened(
    alloc: Global,
    recording: Recording,
    error: OpenError,
) -> Result<Report, NoMemory>
    ensures { IfOk result (λ report. IsReportOf error report) }
{
    drop(recording);
    match error {
        OpenError::NoMemory => Err(NoMemory),
        OpenError::DiskFault => refused(alloc, Status::DiskFault),
        OpenError::NotFormatted => refused(alloc, Status::NotFormatted),
        OpenError::BadJournal(offset) => bad_journal(alloc, offset),
        OpenError::Full { .. } => refused(alloc, Status::Full),
    }
}

// A recording under way for so many workers on a disk; or the report of a disk that was not opened.
pub(crate) fn open_for<D: Disk>(
    alloc: Global,
    recording: Recording,
    workers: u32,
    mut disk: D,
) -> Result<Yard<D>, (Result<Report, NoMemory>, D)>
    requires some { 1 ≤ workers }
    requires few { workers ≤ 16 }
    ensures origin { IfOk result (λ yard. IsOriginOf workers recording disk yard.origin) }
    ensures replays { IfErr result (λ unrun. IfOk unrun.0 (λ report.
        ReplaysOn D.Disk disk unrun.1 workers recording report.status report.text)) }
    ensures left { IfErr result (λ unrun.
        OnErr unrun.0 (IsLeftAfter D.Disk disk unrun.1 workers recording)) }
{
    let start = Snapshot::of(&disk);
    match Store::reopen(alloc, &mut disk, LIMIT) {
        Ok(store) => begin(alloc, store, recording, workers, start, disk),
        Err(error) => Err((unopened(alloc, recording, error), disk)),
    }
}

// The recording that bytes are, under way for so many workers on a disk; or the report of bytes that are none, or of a disk
// that was not opened.
pub(crate) fn take_up<D: Disk>(
    alloc: Global,
    bytes: &[u8],
    workers: u32,
    disk: D,
) -> Result<Yard<D>, (Result<Report, NoMemory>, D)>
    requires some { 1 ≤ workers }
    requires few { workers ≤ 16 }
    ensures origin { IfOk result (λ yard. (recording : recordings.Recording)
        × (recording_of bytes.now ≡ Ok recording)
        × IsOriginOf workers recording disk yard.origin) }
    ensures replays { IfErr result (λ unrun. IfOk unrun.0 (λ report.
        Replays D.Disk disk unrun.1 workers bytes.now report.status report.text)) }
    ensures left { IfErr result (λ unrun.
        OnErr unrun.0 (LeavesAfterBytes D.Disk disk unrun.1 workers bytes.now)) }
{
    match read_recording(alloc, bytes) {
        Ok(recording) => open_for(alloc, recording, workers, disk),
        Err(error) => Err((refusal_of(alloc, error), disk)),
    }
}
