//! A recording is run with look-ups beside the lock.

ghost use Rattle.std.specs.Prelude.{◌≡◌, ◌≢◌, ◌≤◌, ◌^◌, ◌⊎◌, ◌++◌, ◌∷◌, [], ℕ, map, string_bytes, vec_len, IfErr, IfOk, IsErr, IsOkAnd, List, OnErr};
ghost use Rattle.sw_host.specs.Runs.{last_of, status_of};
ghost use Rattle.sw_host.specs.Stands.{IsLeftAfter, LeavesAfterLooks, Watches, WatchesOn};
ghost use Rattle.sw_host.specs.Watching as texts;
ghost use Rattle.sw_host.specs.Watching.{EndsWatched, asked_of, looks_text};
ghost use Rattle.sw_pool.specs.declared.looking.Asked as places;
ghost use Rattle.sw_pool.specs.Looks.{AreAnswers};
ghost use Rattle.sw_pool.specs.Yards.{IsOriginOf, IsWorked, Origin, origin_of};
ghost use Rattle.sw_print.specs.Transcript.{transcript};
ghost use Rattle.sw_store.specs.Opened.{HasOpened, IsFresh};

use crate::ending::{begin, printed, unopened};
use crate::report::{Report, refusal_of};
use crate::storing::LIMIT;
use std::alloc::{AllocError, Global};
use std::snapshot::Snapshot;
use std::sync::Wait;
use std::thread::Threads;
use sw_data::{Bytes, Entry, NoMemory, Recording, Text, unboxed_option};
use sw_disk::Disk;
use sw_net::Gate;
use sw_pool::{Asked, Worked, Yard, work_watched};
use sw_readers::{LookLine, WatchedRecording, read_watched};
use sw_store::Store;
use sw_turns::DriveEnd;
use sw_url::key_of;
use sw_view::{Look, Looker, Publisher, View};

// ---- what is asked

// What a line asks.
fn asked_of(alloc: Global, line: &LookLine) -> Result<Asked, NoMemory>
    ensures { IfOk result (λ asked. asked ≡ asked_of line.now) }
{
    let key = match key_of(alloc, &line.address, unboxed_option(&line.partition))? {
        Some(key) => key,
        None => Text::of(alloc, "")?,
    };
    let address = line.address.copy(alloc)?;
    Ok(Asked { key, address })
}

fn all_asked(alloc: Global, lines: &[LookLine]) -> Result<Vec<Asked>, NoMemory>
    ensures { IfOk result (λ asked. asked.items ≡ map asked_of lines.now) }
{
    let mut asked = Vec::new(alloc);
    for line in lines {
        asked.push(asked_of(alloc, line)?)?;
    }
    Ok(asked)
}

// ---- what is printed

// What was found.
fn found_text(alloc: Global, registration: Option<u32>) -> Result<String, AllocError>
    ensures { IfOk result (λ text. string_bytes text ≡ texts.found_text registration) }
{
    match registration {
        Some(registration) => format!(in alloc; "r{registration}"),
        None => String::from_str(alloc, "none"),
    }
}

// The line of a look-up of this number.
fn look_text(alloc: Global, number: usize, look: &Look) -> Result<String, AllocError>
    ensures { IfOk result (λ text. string_bytes text ≡ texts.look_text number look.now) }
{
    let found = found_text(alloc, look.registration)?;
    let entries = look.entries;
    format!(in alloc; "look {number} -> {found} at {entries}\n")
}

// A text with the lines of look-ups behind it.
fn with_looks(alloc: Global, text: &str, looks: &[Look]) -> Result<Text, NoMemory>
    ensures { IfOk result (λ all. all ≡ text.now ++ looks_text 0 looks.now) }
{
    let mut all = String::from_str(alloc, text)?;
    for number in 0..looks.len() {
        let line = look_text(alloc, number, &looks[number])?;
        all.push_str(line.as_str())?;
    }
    Ok(Text::from_string(all))
}

// The report of a run and of its look-ups.
fn printed_with(
    alloc: Global,
    history: Vec<Entry>,
    end: DriveEnd,
    looks: Result<Vec<Look>, NoMemory>,
) -> Result<Report, NoMemory>
    ensures status { IfOk result (λ report. report.status ≡ status_of end) }
    ensures some { IfOk result (λ report. end ≢ DriveEnd.NoMemory) }
    ensures looks { IfOk result (λ report. IsOkAnd looks (λ seen.
        report.text ≡ transcript history.items (last_of end) ++ looks_text 0 seen.items)) }
{
    let Report { status, text } = printed(alloc, history, end)?;
    let looks = looks?;
    Ok(Report {
        status,
        text: with_looks(alloc, text.as_str(), looks.as_slice())?,
    })
}

// The report of a recording that was worked on with look-ups beside it, and its disk.
fn watched<D: Disk>(
    alloc: Global,
    worked: Worked<D>,
    looks: Result<Vec<Look>, NoMemory>,
) -> (Result<Report, NoMemory>, D)
    ensures ends { (origin : Origin D) (asked : List places.Asked)
        → IsWorked D.Disk origin worked.disk worked.progress worked.end
        → IfOk looks (λ seen. AreAnswers origin.base worked.progress.history.items 0 asked
        seen.items)
        → IfOk result.0 (λ report. EndsWatched D.Disk origin.start result.1 origin.passes
        origin.recording asked report.status report.text) }
    ensures left { (origin : Origin D)
        → IsWorked D.Disk origin worked.disk worked.progress worked.end
        → OnErr result.0 (IsLeftAfter D.Disk origin.start result.1 origin.passes origin.recording) }
{
    let Worked {
        disk,
        progress,
        end,
    } = worked;
    (
        printed_with(alloc, progress.into_history(), end, looks),
        disk,
    )
}

// ---- the run

// The only looker of a view.
fn only(mut lookers: Vec<Looker>) -> Looker
    requires { vec_len lookers ≡ 1 }
    ensures { lookers.items ≡ result ∷ [] }
{
    let Some(looker) = lookers.pop() else {
        unreachable!()
    };
    looker
}

// A recording under way for so many workers, as `begin` has it, with a view of its entries and a looker of that.
fn begin_watched<R: Wait, D: Disk>(
    rt: &R,
    alloc: Global,
    store: Store,
    recording: Recording,
    workers: u32,
    start: Snapshot<D>,
    disk: D,
) -> Result<(Yard<D>, Publisher, Looker), (Result<Report, NoMemory>, D)>
    requires some { 1 ≤ workers }
    requires few { workers ≤ 16 }
    requires fresh { IsFresh (2 ^ 32) store }
    requires opened { HasOpened D.Disk start.value disk store }
    ensures origin { IfOk result (λ made.
        made.0.origin ≡ origin_of workers recording store.base start.value) }
    ensures view { IfOk result (λ made. (made.1.base ≡ store.base) × (made.1.entries ≡ [])
        × (made.2 ≡ made.1)) }
    ensures lack { IfErr result (λ unrun. IsErr unrun.0 × (unrun.1 ≡ disk)) }
{
    match View::new(alloc, rt, store.base(), 1) {
        Ok((publisher, lookers)) => {
            match begin(alloc, store, recording, workers, start, disk) {
                Ok(yard) => Ok((yard, publisher, only(lookers))),
                Err(unrun) => {
                    publisher.end(rt);
                    Err(unrun)
                }
            }
        }
        Err(NoMemory) => Err((Err(NoMemory), disk)),
    }
}

// The same on a disk; or the report of a disk that was not opened.
fn open_watched<R: Wait, D: Disk>(
    rt: &R,
    alloc: Global,
    recording: Recording,
    workers: u32,
    mut disk: D,
) -> Result<(Yard<D>, Publisher, Looker), (Result<Report, NoMemory>, D)>
    requires some { 1 ≤ workers }
    requires few { workers ≤ 16 }
    ensures origin { IfOk result (λ made. IsOriginOf workers recording disk made.0.origin) }
    ensures view { IfOk result (λ made. (made.1.base ≡ made.0.origin.base)
        × (made.1.entries ≡ []) × (made.2 ≡ made.1)) }
    ensures watches { (asked : List places.Asked) → IfErr result (λ unrun. IfOk unrun.0 (λ report.
        WatchesOn D.Disk disk unrun.1 workers recording asked report.status report.text)) }
    ensures left { IfErr result (λ unrun.
        OnErr unrun.0 (IsLeftAfter D.Disk disk unrun.1 workers recording)) }
{
    let start = Snapshot::of(&disk);
    match Store::reopen(alloc, &mut disk, LIMIT) {
        Ok(store) => begin_watched(rt, alloc, store, recording, workers, start, disk),
        Err(error) => Err((unopened(alloc, recording, error), disk)),
    }
}

// The report of a recording that is run with look-ups beside the lock, and the disk.
fn watch_for<R: Threads + Wait + Sync, D: Disk + Send, G: Gate + Sync>(
    rt: &R,
    alloc: Global,
    recording: Recording,
    asked: &[Asked],
    workers: u32,
    disk: D,
    gate: &G,
) -> (Result<Report, NoMemory>, D)
    requires some { 1 ≤ workers }
    requires few { workers ≤ 16 }
    ensures watches { IfOk result.0 (λ report. WatchesOn D.Disk disk result.1 workers recording
        asked.now report.status report.text) }
    ensures left { OnErr result.0 (IsLeftAfter D.Disk disk result.1 workers recording) }
{
    let number = disk.clock();
    match open_watched(rt, alloc, recording, workers, disk) {
        Ok((yard, publisher, looker)) => {
            let (worked, looks) = work_watched(
                rt, rt, alloc, yard, number, publisher, looker, asked, gate,
            );
            watched(alloc, worked, looks)
        }
        Err(unrun) => unrun,
    }
}

// The same of a recording with its look-ups.
fn watch_on<R: Threads + Wait + Sync, D: Disk + Send, G: Gate + Sync>(
    rt: &R,
    alloc: Global,
    watched: WatchedRecording,
    workers: u32,
    disk: D,
    gate: &G,
) -> (Result<Report, NoMemory>, D)
    requires some { 1 ≤ workers }
    requires few { workers ≤ 16 }
    ensures watches { IfOk result.0 (λ report. WatchesOn D.Disk disk result.1 workers
        watched.recording (map asked_of watched.looks) report.status report.text) }
    ensures left { OnErr result.0 ((result.1 ≡ disk)
        ⊎ IsLeftAfter D.Disk disk result.1 workers watched.recording) }
{
    let WatchedRecording { recording, looks } = watched;
    match all_asked(alloc, looks.as_slice()) {
        Ok(asked) => watch_for(rt, alloc, recording, &asked, workers, disk, gate),
        Err(NoMemory) => (Err(NoMemory), disk),
    }
}

/// The report of the bytes of a recording with look-ups, and the disk. The bytes go before the run.
pub(crate) fn watch<R: Threads + Wait + Sync, D: Disk + Send, G: Gate + Sync>(
    rt: &R,
    alloc: Global,
    bytes: Bytes,
    workers: u32,
    disk: D,
    gate: &G,
) -> (Result<Report, NoMemory>, D)
    requires some { 1 ≤ workers }
    requires few { workers ≤ 16 }
    ensures watches { IfOk result.0 (λ report.
        Watches D.Disk disk result.1 workers bytes report.status report.text) }
    ensures no_memory { OnErr result.0 (LeavesAfterLooks D.Disk disk result.1 workers bytes) }
{
    match read_watched(alloc, bytes.as_bytes()) {
        Ok(watched) => {
            drop(bytes);
            watch_on(rt, alloc, watched, workers, disk, gate)
        }
        Err(error) => (refusal_of(alloc, error), disk),
    }
}
