//! A generated recording, run on a disk of its own.

ghost use Rattle.std.specs.Prelude.{◌≡◌, ◌≤◌, ℕ, Ok, length, IfOk, IfSome};
ghost use Rattle.sw_data.specs.declared.recordings.Recording as recordings;
ghost use Rattle.sw_disk.specs.Plain.{plain_image};
ghost use Rattle.sw_gen.specs.Generated.{generated};
ghost use Rattle.sw_host.specs.Generating.{HasGenerated, IsPrinted, actions_in, is_cut_short, is_done, summary_text};
ghost use Rattle.sw_host.specs.Runs.{status_of};
ghost use Rattle.sw_kept.specs.Stored.{HasKept};
ghost use Rattle.sw_record.specs.Grammar.{recording_of};
ghost use Rattle.sw_rules.specs.History.{mapped_registrations};
ghost use Rattle.sw_rules.specs.Storage.{nothing};
ghost use Rattle.sw_turns.specs.Turns.{IsAtRest};
ghost use Rattle.sw_state.specs.Hosted.{state_of};

use crate::ending::{open_for, printed};
use crate::report::Report;
use crate::statuses::Status;
use std::alloc::Global;
use sw_data::{Bytes, NoMemory, Recording, Text};
use sw_disk::PlainDisk;
use sw_gen::generate;
use sw_kept::init;
use sw_pool::{Worked, work_alone};
use sw_record::read_recording;
use sw_turns::{DriveEnd, Progress};

// How many actions the lanes of a recording have.
fn actions_in(recording: &Recording) -> Option<u64>
    ensures { IfSome result (λ actions. actions ≡ actions_in recording.now) }
{
    let mut actions: u64 = 0;
    for lane in recording.lanes.as_slice() {
        match actions.checked_add(lane.as_slice().len() as u64) {
            Some(more) => actions = more,
            None => return None,
        }
    }
    Some(actions)
}

// The line that sums up a generated recording that was run.
fn summary_text(
    alloc: Global,
    number: u32,
    size: u32,
    actions: u64,
    entries: usize,
    registrations: usize,
    caches: usize,
) -> Result<Text, NoMemory>
    ensures { IfOk result (λ text.
        text ≡ summary_text number size actions entries registrations caches) }
{
    Ok(Text::from_string(format!(in alloc;
        "gen {number} {size}: {actions} actions {entries} entries {registrations} registrations {caches} caches\n"
    )?))
}

// The report of a generated recording that is done, where its actions could be counted.
fn summary(
    alloc: Global,
    number: u32,
    size: u32,
    actions: Option<u64>,
    progress: &Progress,
) -> Result<Report, NoMemory>
    ensures status { IfOk result (λ report. report.status ≡ Status.Done) }
    ensures text { IfOk result (λ report. (count : ℕ) → IfSome actions (λ actions. actions ≡ count)
        → report.text ≡ summary_text number size count (length progress.now.history.items)
        (mapped_registrations (state_of progress.now.store.core))
        (length (state_of progress.now.store.core).caches)) }
{
    match actions {
        Some(actions) => Ok(Report {
            status: Status::Done,
            text: summary_text(
                alloc,
                number,
                size,
                actions,
                progress.history().len(),
                progress.core().mapped_count(),
                progress.core().cache_count(),
            )?,
        }),
        None => Err(NoMemory),
    }
}

// A run is done.
fn is_done(end: &DriveEnd) -> bool
    ensures { result ≡ is_done end.now }
{
    matches!(end, DriveEnd::Done)
}

// A run was cut short by its disk, or by want of memory.
fn is_cut_short(end: &DriveEnd) -> bool
    ensures { result ≡ is_cut_short end.now }
{
    matches!(end, DriveEnd::DiskFault(_) | DriveEnd::NoMemory)
}

// The report of a generated recording that was run. What it lets go it lets go by calls: its check would have a case for
// each kind of event.
fn report_of(
    alloc: Global,
    number: u32,
    size: u32,
    actions: Option<u64>,
    progress: Progress,
    end: DriveEnd,
) -> Result<Report, NoMemory>
    ensures status { IfOk result (λ report. report.status ≡ status_of end) }
    ensures text { IfOk result (λ report. (recording : recordings.Recording)
        → IfSome actions (λ actions. actions ≡ actions_in recording)
        → IsAtRest end nothing progress
        → IsPrinted number size recording progress.history.items end report.text) }
{
    if is_done(&end) {
        drop(end);
        let report = summary(alloc, number, size, actions, &progress);
        drop(progress);
        return report;
    }
    if is_cut_short(&end) {
        drop(end);
        drop(progress);
        return Err(NoMemory);
    }
    printed(alloc, progress.into_history(), end)
}

// A formatted disk in memory.
fn formatted(alloc: Global) -> Result<PlainDisk, NoMemory>
    ensures { IfOk result (λ disk. HasKept nothing (plain_image disk)) }
{
    let mut disk = PlainDisk::new(
        Bytes::of(alloc, b"")?,
        Bytes::of(alloc, b"")?,
        Bytes::of(alloc, b"")?,
    );
    match init(&mut disk) {
        Ok(()) => Ok(disk),
        Err(_) => Err(NoMemory),
    }
}

// The report of a generated recording that one worker runs on a formatted disk.
fn run_recording(
    alloc: Global,
    number: u32,
    size: u32,
    recording: Recording,
    disk: PlainDisk,
) -> Result<Report, NoMemory>
    requires recording { recording_of (generated number size) ≡ Ok recording }
    requires kept { HasKept nothing (plain_image disk) }
    ensures { IfOk result (λ report. HasGenerated number size report.status report.text) }
{
    let actions = actions_in(&recording);
    match open_for(alloc, recording, 1, disk) {
        Ok(yard) => {
            let Worked {
                disk,
                progress,
                end,
            } = work_alone(yard);
            drop(disk);
            report_of(alloc, number, size, actions, progress, end)
        }
        Err(_) => Err(NoMemory),
    }
}

// The report of the generated recording of this number and size, which one worker runs on a fresh disk in memory: a line
// that sums it up where it is done, and else its transcript.
pub(crate) fn run_generated(alloc: Global, number: u32, size: u32) -> Result<Report, NoMemory>
    requires least { 1 ≤ size }
    requires most { size ≤ 4096 }
    ensures { IfOk result (λ report. HasGenerated number size report.status report.text) }
{
    let disk = formatted(alloc)?;
    let bytes = generate(alloc, number, size)?;
    match read_recording(alloc, bytes.as_bytes()) {
        Ok(recording) => run_recording(alloc, number, size, recording, disk),
        Err(_) => Err(NoMemory),
    }
}
