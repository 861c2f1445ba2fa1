//! The top call: words, a source, a sink, a disk and a gate.

ghost use Rattle.std.specs.Prelude.{◌≡◌, ◌≢◌, ◌⊎◌, ◌+◌, ◌≤◌, ℕ, List, Some, true, false, IfOk, OnErr};
ghost use Rattle.std.specs.Io.KnownBytes.{IsAtEnd};
ghost use Rattle.sw_bucket.specs.declared.ends.BoundedEnd.TheVariants as bounded_end;
ghost use Rattle.sw_data.specs.Faults.{Rose};
ghost use Rattle.sw_data.specs.Streams.{ConsumesSome};
ghost use Rattle.sw_host.specs.declared.command.Command.TheVariants as command;
ghost use Rattle.sw_host.specs.Reading.{ReadsThen};
ghost use Rattle.sw_host.specs.Stands.{Audits, Bounds, Checks, HasRunTo, HasEndedWithin, HasReadAll, LeavesAfterBytes, LeavesWithoutMemory, Plays, Replays, ReplaysSource, Stands, Watches};
ghost use Rattle.sw_host.specs.Texts.{large_source_text, refusal_text};
ghost use Rattle.sw_host.specs.Words.{command_of, needs_disk, reads_source, source_limit};
ghost use Rattle.sw_journal.specs.Quiet.{LeavesAlone};
ghost use Rattle.sw_io.specs.Taking.{Takes, TakesNothing, TakesPrefix};
ghost use Rattle.sw_lock.specs.declared.pass.Spent.{Spent};
ghost use Rattle.sw_turns.specs.declared.ends.DriveEnd.TheVariants as drive_end;

use crate::auditing::audit_bytes;
use crate::bounding::bound;
use crate::checking::check_bytes;
use crate::command::{Command, command_of};
use crate::ending::{reported, take_up};
use crate::generating::run_generated;
use crate::pages::{help, version};
use crate::reading::bytes_of;
use crate::report::{Report, refused};
use crate::rostering::play_bytes;
use crate::statuses::Status;
use crate::storing::{format, show};
use crate::watching::watch;
use std::alloc::Global;
use std::sync::Wait;
use std::thread::Threads;
use sw_data::{Bytes, NoMemory};
use sw_disk::Disk;
use sw_io::{Sink, Source, write_all};
use sw_net::Gate;
use sw_pool::{work, work_alone};
use sw_record::RECORDING_LIMIT;

// How many bytes a recording and a transcript may have, with the line between them.
const SOURCE_LIMIT: u64 = 67_108_864;

/// How a run ended, and its disk.
#[derive(Drop)]
pub struct Outcome<D> {
    pub status: Status,
    pub disk: D,
}

/// Does what the words say: `init` formats the disk; `replay` reads a recording from the source to its end, runs it on the
/// disk by one worker, or by as many as the word behind it says, and writes the transcript to the sink; `watch` does so with
/// look-ups beside the lock, and writes what each found behind the transcript; `quota` runs a recording by one worker, while
/// the host forgets the least recently used key that may go as often as what is kept takes more bytes than the word behind
/// it says, and writes what is used behind the transcript; `show` writes what the disk keeps; `gen` writes what comes of a
/// generated recording that one worker runs on a disk of its own; `imports` reads a recording of scripts and writes what
/// each check of their imports comes to; `roster` reads the lines of one lane and what is asked of its clients, and writes
/// what comes of them from no content; `audit` reads a recording and a transcript, and writes whether a host that has kept
/// what the disk keeps may print it for the recording; `--help` writes how the program is called, and `--version` its name
/// and version. `show` and `audit` write nothing to the disk, and `gen`, `imports`, `roster` and the last two leave it
/// alone.
///
/// Workers take turns under a lock, and pass the gate with what they fetch between their turns. Whatever their
/// number, a run has one history, which holds the calls of each lane in order, each once; how the lanes follow one another
/// is as it comes. With one worker it is the history that the pick order fixes.
///
/// Refusals are tested in this order: words, reading, the source's size, the line that divides it, lines, the disk's
/// opening, the run; a write fault replaces the status that stood. Want of memory may come at any point before writing.
pub fn run<R: Threads + Wait + Sync, S: Source, K: Sink, D: Disk + Send, G: Gate + Sync>(
    rt: &R,
    alloc: Global,
    words: &[String],
    source: &mut S,
    sink: &mut K,
    disk: D,
    gate: &G,
) -> Outcome<D>
    // The sink took, told or not, exactly the transcript of one history of the recording that the source's bytes are: legal
    // from what the disk kept, following the recording, complete, and controlled; with one worker it is in the pick order,
    // and with more the calls of each lane stand in it in their order, each once. A crash at any moment leaves a disk that
    // keeps what a prefix of this history made, one that holds every entry that was acknowledged by then; and what the disk
    // keeps at the end is the durable part of the state after the history.
    ensures done { result.status ≡ Status.Done
        → (workers : ℕ) → command_of words.now ≡ command.Replay workers → (text : List ℕ)
        × HasRunTo D.Disk disk result.disk workers (S.left source.old) drive_end.Done text
        × Takes K.Sink sink.old sink.new text }

    // The same of a run after which nothing may happen, and a lane has actions left.
    ensures stalled { result.status ≡ Status.Stalled
        → (workers : ℕ) → command_of words.now ≡ command.Replay workers
        → (text : List ℕ) × (lane : ℕ)
        × HasRunTo D.Disk disk result.disk workers (S.left source.old) (drive_end.Stalled lane) text
        × Takes K.Sink sink.old sink.new text }

    // The same, but for the end that the recording has come to and what the disk keeps then, of a run in which a worker has
    // made all the turns that a worker makes: the status holds what only its pass hands out, with the number of this run, the
    // clock of the disk at the start.
    ensures spent { (spent : Spent) → result.status ≡ Status.Spent spent
        → (workers : ℕ) → command_of words.now ≡ command.Replay workers → (text : List ℕ)
        × HasRunTo D.Disk disk result.disk workers (S.left source.old) (drive_end.Spent spent) text
        × Takes K.Sink sink.old sink.new text }

    // Each other status has its cause, and its text was written.
    ensures stands { result.status ≢ Status.NoMemory → result.status ≢ Status.WriteFault
        → (text : List ℕ) × Stands D.Disk disk result.disk (S.left source.old)
        (S.faults source.old) (S.faults source.new) (command_of words.now) result.status text
        × Takes K.Sink sink.old sink.new text }

    // The same of a run under a limit, after which nothing comes next: nothing is left to do, or nothing may happen; and either
    // what is kept is within the limit, or the host may forget nothing of it.
    ensures done_within { result.status ≡ Status.Done
        → (limit : ℕ) → command_of words.now ≡ command.Quota limit → (text : List ℕ)
        × HasEndedWithin D.Disk disk result.disk limit (S.left source.old) bounded_end.Done text
        × Takes K.Sink sink.old sink.new text }
    ensures stalled_within { result.status ≡ Status.Stalled
        → (limit : ℕ) → command_of words.now ≡ command.Quota limit
        → (text : List ℕ) × (lane : ℕ)
        × HasEndedWithin D.Disk disk result.disk limit (S.left source.old)
        (bounded_end.Stalled lane) text
        × Takes K.Sink sink.old sink.new text }

    // Of all words `roster` and `quota` alone end for want of a number for an entry.
    ensures numbered { result.status ≡ Status.NoEntryLeft
        → (command_of words.now ≡ command.Roster)
        ⊎ ((limit : ℕ) × (command_of words.now ≡ command.Quota limit)) }

    // The sink failed, and took a first part of the text that stood.
    ensures write_fault { result.status ≡ Status.WriteFault
        → Rose (K.faults sink.old) (K.faults sink.new)
        × ((status : Status) × (text : List ℕ) × Stands D.Disk disk result.disk (S.left source.old)
        (S.faults source.old) (S.faults source.new) (command_of words.now) status text
        × TakesPrefix K.Sink sink.old sink.new text) }

    ensures no_memory { result.status ≡ Status.NoMemory → TakesNothing K.Sink sink.old sink.new
        × LeavesWithoutMemory D.Disk disk result.disk (S.left source.old) (command_of words.now) }

    // Words that don't ask for the disk leave it as it was.
    ensures alone { needs_disk (command_of words.now) ≡ false → result.disk ≡ disk }

    // Words that don't ask for the source leave it as it was. It is read no further than its end, and to its end where what
    // it has is worked on.
    ensures untouched { reads_source (command_of words.now) ≡ false → source.new ≡ source.old }
    ensures reads { S.reads source.new ≤ S.reads source.old + (source_limit (command_of words.now) + 2) }
    ensures consumed { reads_source (command_of words.now) ≡ true
        → ConsumesSome (S.left source.old) (S.left source.new) }
    ensures end { reads_source (command_of words.now) ≡ true → HasReadAll result.status
        → IsAtEnd (S.left source.new) }
{
    run_on(rt, alloc, words, source, sink, disk, gate)
}

// The same, where an end of a run is a status beside others.
fn run_on<R: Threads + Wait + Sync, S: Source, K: Sink, D: Disk + Send, G: Gate + Sync>(
    rt: &R,
    alloc: Global,
    words: &[String],
    source: &mut S,
    sink: &mut K,
    disk: D,
    gate: &G,
) -> Outcome<D>
    ensures stands { result.status ≢ Status.NoMemory → result.status ≢ Status.WriteFault
        → (text : List ℕ) × Stands D.Disk disk result.disk (S.left source.old)
        (S.faults source.old) (S.faults source.new) (command_of words.now) result.status text
        × Takes K.Sink sink.old sink.new text }
    ensures write_fault { result.status ≡ Status.WriteFault
        → Rose (K.faults sink.old) (K.faults sink.new)
        × ((status : Status) × (text : List ℕ) × Stands D.Disk disk result.disk (S.left source.old)
        (S.faults source.old) (S.faults source.new) (command_of words.now) status text
        × TakesPrefix K.Sink sink.old sink.new text) }
    ensures no_memory { result.status ≡ Status.NoMemory → TakesNothing K.Sink sink.old sink.new
        × LeavesWithoutMemory D.Disk disk result.disk (S.left source.old) (command_of words.now) }
    ensures alone { needs_disk (command_of words.now) ≡ false → result.disk ≡ disk }
    ensures untouched { reads_source (command_of words.now) ≡ false → source.new ≡ source.old }
    ensures reads { S.reads source.new ≤ S.reads source.old + (source_limit (command_of words.now) + 2) }
    ensures consumed { reads_source (command_of words.now) ≡ true
        → ConsumesSome (S.left source.old) (S.left source.new) }
    ensures end { reads_source (command_of words.now) ≡ true → HasReadAll result.status
        → IsAtEnd (S.left source.new) }
{
    let (report, disk) = report_of(rt, alloc, words, source, disk, gate);
    let Ok(report) = report else {
        return Outcome {
            status: Status::NoMemory,
            disk,
        };
    };
    let status = match write_all(sink, report.text.as_bytes()) {
        Ok(()) => report.status,
        Err(_) => Status::WriteFault,
    };
    Outcome { status, disk }
}

// The status and the text before writing, and the disk.
fn report_of<R: Threads + Wait + Sync, S: Source, D: Disk + Send, G: Gate + Sync>(
    rt: &R,
    alloc: Global,
    words: &[String],
    source: &mut S,
    mut disk: D,
    gate: &G,
) -> (Result<Report, NoMemory>, D)
    ensures stands { IfOk result.0 (λ report. Stands D.Disk disk result.1 (S.left source.old)
        (S.faults source.old) (S.faults source.new) (command_of words.now) report.status
        report.text) }
    ensures no_memory { OnErr result.0 (LeavesWithoutMemory D.Disk disk result.1
        (S.left source.old) (command_of words.now)) }
    ensures alone { needs_disk (command_of words.now) ≡ false → result.1 ≡ disk }
    ensures untouched { reads_source (command_of words.now) ≡ false → source.new ≡ source.old }
    ensures reads { S.reads source.new ≤ S.reads source.old + (source_limit (command_of words.now) + 2) }
    ensures consumed { reads_source (command_of words.now) ≡ true
        → ConsumesSome (S.left source.old) (S.left source.new) }
    ensures end { reads_source (command_of words.now) ≡ true
        → IfOk result.0 (λ report. HasReadAll report.status → IsAtEnd (S.left source.new)) }
{
    match command_of(words) {
        Command::Init => (format(alloc, &mut disk), disk),
        Command::Replay(workers) => read(rt, alloc, source, workers, disk, gate),
        Command::Watch(workers) => read_watch(rt, alloc, source, workers, disk, gate),
        Command::Quota(limit) => read_bound(alloc, source, limit, disk),
        Command::Show => (show(alloc, &mut disk), disk),
        Command::Gen(number, size) => (run_generated(alloc, number, size), disk),
        Command::Imports => (read_checks(alloc, source), disk),
        Command::Audit => (read_audit(alloc, source, &mut disk), disk),
        Command::Roster => (read_play(alloc, source), disk),
        Command::Help => (help(alloc), disk),
        Command::Version => (version(alloc), disk),
        Command::Unknown => (refused(alloc, Status::BadWords), disk),
    }
}

// The report of a recording that is read from the source, and the disk.
fn read<R: Threads + Wait + Sync, S: Source, D: Disk + Send, G: Gate + Sync>(
    rt: &R,
    alloc: Global,
    source: &mut S,
    workers: u32,
    disk: D,
    gate: &G,
) -> (Result<Report, NoMemory>, D)
    requires some { 1 ≤ workers }
    requires few { workers ≤ 16 }
    ensures replays { IfOk result.0 (λ report. ReplaysSource D.Disk disk result.1 workers
        (S.left source.old) (S.faults source.old) (S.faults source.new) report.status report.text) }
    ensures no_memory { OnErr result.0 (LeavesWithoutMemory D.Disk disk result.1
        (S.left source.old) (command.Replay workers)) }
    ensures reads { S.reads source.new ≤ S.reads source.old + (RECORDING_LIMIT + 2) }
    ensures consumed { ConsumesSome (S.left source.old) (S.left source.new) }
    ensures end { IfOk result.0 (λ report. HasReadAll report.status
        → IsAtEnd (S.left source.new)) }
{
    match bytes_of(alloc, source, RECORDING_LIMIT, Status::TooLarge.refusal()) {
        Ok(bytes) => replay(rt, alloc, bytes, workers, disk, gate),
        Err(unread) => (unread, disk),
    }
}

// The report of a recording with look-ups that is read from the source, and the disk.
fn read_watch<R: Threads + Wait + Sync, S: Source, D: Disk + Send, G: Gate + Sync>(
    rt: &R,
    alloc: Global,
    source: &mut S,
    workers: u32,
    disk: D,
    gate: &G,
) -> (Result<Report, NoMemory>, D)
    requires some { 1 ≤ workers }
    requires few { workers ≤ 16 }
    ensures watches { IfOk result.0 (λ report. ReadsThen RECORDING_LIMIT (refusal_text Status.TooLarge)
        (S.left source.old) (S.faults source.old) (S.faults source.new)
        (Watches D.Disk disk result.1 workers) (result.1 ≡ disk) report.status report.text) }
    ensures no_memory { OnErr result.0 (LeavesWithoutMemory D.Disk disk result.1
        (S.left source.old) (command.Watch workers)) }
    ensures reads { S.reads source.new ≤ S.reads source.old + (RECORDING_LIMIT + 2) }
    ensures consumed { ConsumesSome (S.left source.old) (S.left source.new) }
    ensures end { IfOk result.0 (λ report. HasReadAll report.status
        → IsAtEnd (S.left source.new)) }
{
    match bytes_of(alloc, source, RECORDING_LIMIT, Status::TooLarge.refusal()) {
        Ok(bytes) => watch(rt, alloc, bytes, workers, disk, gate),
        Err(unread) => (unread, disk),
    }
}

// The report of a recording that is read from the source and run under a limit, and the disk.
fn read_bound<S: Source, D: Disk>(
    alloc: Global,
    source: &mut S,
    limit: u32,
    disk: D,
) -> (Result<Report, NoMemory>, D)
    ensures bounds { IfOk result.0 (λ report. ReadsThen RECORDING_LIMIT (refusal_text Status.TooLarge)
        (S.left source.old) (S.faults source.old) (S.faults source.new)
        (Bounds D.Disk disk result.1 limit) (result.1 ≡ disk) report.status report.text) }
    ensures no_memory { OnErr result.0 (LeavesWithoutMemory D.Disk disk result.1
        (S.left source.old) (command.Quota limit)) }
    ensures reads { S.reads source.new ≤ S.reads source.old + (RECORDING_LIMIT + 2) }
    ensures consumed { ConsumesSome (S.left source.old) (S.left source.new) }
    ensures end { IfOk result.0 (λ report. HasReadAll report.status
        → IsAtEnd (S.left source.new)) }
{
    match bytes_of(alloc, source, RECORDING_LIMIT, Status::TooLarge.refusal()) {
        Ok(bytes) => bound(alloc, bytes, limit, disk),
        Err(unread) => (unread, disk),
    }
}

// The report of the scripts that the source says to check.
fn read_checks<S: Source>(alloc: Global, source: &mut S) -> Result<Report, NoMemory>
    ensures checks { IfOk result (λ report. ReadsThen RECORDING_LIMIT (refusal_text Status.TooLarge)
        (S.left source.old) (S.faults source.old) (S.faults source.new) Checks (Unit {0})
        report.status report.text) }
    ensures reads { S.reads source.new ≤ S.reads source.old + (RECORDING_LIMIT + 2) }
    ensures consumed { ConsumesSome (S.left source.old) (S.left source.new) }
    ensures end { IfOk result (λ report. HasReadAll report.status → IsAtEnd (S.left source.new)) }
{
    match bytes_of(alloc, source, RECORDING_LIMIT, Status::TooLarge.refusal()) {
        Ok(bytes) => check_bytes(alloc, bytes.as_bytes()),
        Err(unread) => unread,
    }
}

// The report of the lines of a roster that the source has.
fn read_play<S: Source>(alloc: Global, source: &mut S) -> Result<Report, NoMemory>
    ensures plays { IfOk result (λ report. ReadsThen RECORDING_LIMIT (refusal_text Status.TooLarge)
        (S.left source.old) (S.faults source.old) (S.faults source.new) Plays (Unit {0})
        report.status report.text) }
    ensures reads { S.reads source.new ≤ S.reads source.old + (RECORDING_LIMIT + 2) }
    ensures consumed { ConsumesSome (S.left source.old) (S.left source.new) }
    ensures end { IfOk result (λ report. HasReadAll report.status → IsAtEnd (S.left source.new)) }
{
    match bytes_of(alloc, source, RECORDING_LIMIT, Status::TooLarge.refusal()) {
        Ok(bytes) => play_bytes(alloc, bytes.as_bytes()),
        Err(unread) => unread,
    }
}

// The report of the recording and the transcript that the source has.
fn read_audit<S: Source, D: Disk>(
    alloc: Global,
    source: &mut S,
    disk: &mut D,
) -> Result<Report, NoMemory>
    ensures audits { IfOk result (λ report. ReadsThen SOURCE_LIMIT large_source_text
        (S.left source.old) (S.faults source.old) (S.faults source.new)
        (Audits D.Disk disk.old disk.new) (disk.new ≡ disk.old) report.status report.text) }
    ensures left { OnErr result ((disk.new ≡ disk.old) ⊎ LeavesAlone D.Disk disk.old disk.new) }
    ensures reads { S.reads source.new ≤ S.reads source.old + (SOURCE_LIMIT + 2) }
    ensures consumed { ConsumesSome (S.left source.old) (S.left source.new) }
    ensures end { IfOk result (λ report. HasReadAll report.status → IsAtEnd (S.left source.new)) }
{
    match bytes_of(alloc, source, SOURCE_LIMIT, "error: too large: source\n") {
        Ok(bytes) => audit_bytes(alloc, bytes.as_bytes(), disk),
        Err(unread) => unread,
    }
}

// The report of bytes that were read, and the disk. The bytes go before the run.
fn replay<R: Threads + Wait + Sync, D: Disk + Send, G: Gate + Sync>(
    rt: &R,
    alloc: Global,
    bytes: Bytes,
    workers: u32,
    disk: D,
    gate: &G,
) -> (Result<Report, NoMemory>, D)
    requires some { 1 ≤ workers }
    requires few { workers ≤ 16 }
    ensures replays { IfOk result.0 (λ report.
        Replays D.Disk disk result.1 workers bytes report.status report.text) }
    ensures no_memory { OnErr result.0 (LeavesAfterBytes D.Disk disk result.1 workers bytes) }
{
    let number = disk.clock();
    match take_up(alloc, bytes.as_bytes(), workers, disk) {
        Ok(yard) => {
            drop(bytes);
            reported(alloc, work(rt, alloc, yard, number, gate))
        }
        Err(unrun) => unrun,
    }
}

/// What `replay` comes to by one worker on the thread of the call, of a source that has these bytes: without a lock and
/// without a wait.
pub fn replay_alone<D: Disk>(alloc: Global, bytes: &[u8], disk: D) -> (Result<Report, NoMemory>, D)
    ensures stands { IfOk result.0 (λ report. Stands D.Disk disk result.1 (Some bytes.now) 0 0
        (command.Replay 1) report.status report.text) }
    ensures no_memory { OnErr result.0
        (LeavesWithoutMemory D.Disk disk result.1 (Some bytes.now) (command.Replay 1)) }
{
    if bytes.len() as u64 > RECORDING_LIMIT {
        return (refused(alloc, Status::TooLarge), disk);
    }
    match take_up(alloc, bytes, 1, disk) {
        Ok(yard) => reported(alloc, work_alone(yard)),
        Err(unrun) => unrun,
    }
}
