//! The program `swhost`: the words are its arguments, the source is standard input, the sink is standard output, and the
//! disk is three files of the current folder.
#![tactic(auto)]

ghost use Rattle.std.specs.Prelude.{◌≡◌, ◌≢◌, ◌+◌, ◌≤◌, ℕ, List, [], drop, true, false, IfErr, IfOk, IsErr, IsOkAnd};
ghost use Rattle.std.specs.Io.KnownBytes.{IsAtEnd};
ghost use Rattle.std.specs.IoError.{error_kind};
ghost use Rattle.std.specs.Process.{exit_status};
ghost use Rattle.std.specs.Vec.Iter.{into_iter_items};
ghost use Rattle.sw_bucket.specs.declared.ends.BoundedEnd.TheVariants as bounded_end;
ghost use Rattle.sw_data.specs.Faults.{Rose};
ghost use Rattle.sw_data.specs.Streams.{ConsumesSome};
ghost use Rattle.sw_disk.specs.Files.{has_file};
ghost use Rattle.sw_disk.specs.declared.part.Part.{Part};
ghost use Rattle.sw_host.specs.declared.command.Command.TheVariants as command;
ghost use Rattle.sw_host.specs.declared.statuses.Status.{Status};
ghost use Rattle.sw_host.specs.Stands.{HasRunTo, HasEndedWithin, HasReadAll, LeavesWithoutMemory, Stands};
ghost use Rattle.sw_host.specs.Texts.{code_of};
ghost use Rattle.sw_host.specs.Words.{command_of, needs_disk, reads_source, source_limit};
ghost use Rattle.sw_io.specs.Taking.{Takes, TakesNothing, TakesPrefix};
ghost use Rattle.sw_lock.specs.declared.pass.Spent.{Spent};
ghost use Rattle.sw_turns.specs.declared.ends.DriveEnd.TheVariants as drive_end;

use std::alloc::Global;
use std::env::{Args, args};
use std::fs::{File, OpenOptions};
use std::io;
use std::io::ErrorKind;
use std::os::unix::fs::OpenOptionsExt;
use std::process::ExitCode;
use std::sync::Wait;
use std::thread::Threads;
use sw_data::NoMemory;
use sw_disk::{Disk, FileDisk};
use sw_host::{Status, needs_disk, run};
use sw_io::{Sink, Source, StdSink, StdSource};
use sw_net::{Gate, NoGate};

// Does what the words say, as `run` does, and hands out the number of the status, with the disk.
fn ended<R: Threads + Wait + Sync, S: Source, K: Sink, D: Disk + Send, G: Gate + Sync>(
    rt: &R,
    alloc: Global,
    words: &[String],
    source: &mut S,
    sink: &mut K,
    disk: D,
    gate: &G,
) -> (ExitCode, D)
    ensures done { exit_status result.0 ≡ 0
        → (workers : ℕ) → command_of words.now ≡ command.Replay workers → (text : List ℕ)
        × HasRunTo D.Disk disk result.1 workers (S.left source.old) drive_end.Done text
        × Takes K.Sink sink.old sink.new text }
    ensures stalled { exit_status result.0 ≡ 9
        → (workers : ℕ) → command_of words.now ≡ command.Replay workers
        → (text : List ℕ) × (lane : ℕ)
        × HasRunTo D.Disk disk result.1 workers (S.left source.old) (drive_end.Stalled lane) text
        × Takes K.Sink sink.old sink.new text }
    ensures spent { exit_status result.0 ≡ 13
        → (workers : ℕ) → command_of words.now ≡ command.Replay workers
        → (text : List ℕ) × (spent : Spent)
        × HasRunTo D.Disk disk result.1 workers (S.left source.old) (drive_end.Spent spent) text
        × Takes K.Sink sink.old sink.new text }
    ensures done_within { exit_status result.0 ≡ 0
        → (limit : ℕ) → command_of words.now ≡ command.Quota limit → (text : List ℕ)
        × HasEndedWithin D.Disk disk result.1 limit (S.left source.old) bounded_end.Done text
        × Takes K.Sink sink.old sink.new text }
    ensures stalled_within { exit_status result.0 ≡ 9
        → (limit : ℕ) → command_of words.now ≡ command.Quota limit
        → (text : List ℕ) × (lane : ℕ)
        × HasEndedWithin D.Disk disk result.1 limit (S.left source.old) (bounded_end.Stalled lane) text
        × Takes K.Sink sink.old sink.new text }

    // The exit status is the number of a status, which has its cause.
    ensures stands { exit_status result.0 ≢ 1 → exit_status result.0 ≢ 5
        → (outcome : Status) × (exit_status result.0 ≡ code_of outcome)
        × ((text : List ℕ) × Stands D.Disk disk result.1 (S.left source.old)
        (S.faults source.old) (S.faults source.new) (command_of words.now) outcome text
        × Takes K.Sink sink.old sink.new text) }
    ensures write_fault { exit_status result.0 ≡ 5
        → Rose (K.faults sink.old) (K.faults sink.new)
        × ((status : Status) × (text : List ℕ) × Stands D.Disk disk result.1 (S.left source.old)
        (S.faults source.old) (S.faults source.new) (command_of words.now) status text
        × TakesPrefix K.Sink sink.old sink.new text) }
    ensures no_memory { exit_status result.0 ≡ 1 → TakesNothing K.Sink sink.old sink.new
        × LeavesWithoutMemory D.Disk disk result.1 (S.left source.old) (command_of words.now) }

    // What it reads.
    ensures untouched { reads_source (command_of words.now) ≡ false → source.new ≡ source.old }
    ensures reads { S.reads source.new ≤ S.reads source.old + (source_limit (command_of words.now) + 2) }
    ensures consumed { reads_source (command_of words.now) ≡ true
        → ConsumesSome (S.left source.old) (S.left source.new) }
    ensures end { reads_source (command_of words.now) ≡ true
        → (outcome : Status) × (exit_status result.0 ≡ code_of outcome)
        × (HasReadAll outcome → IsAtEnd (S.left source.new)) }
{
    let outcome = run(rt, alloc, words, source, sink, disk, gate);
    (ExitCode::from(outcome.status.code()), outcome.disk)
}

// The words behind the program's name.
fn behind_first(alloc: Global, mut arguments: Args) -> Result<Vec<String>, NoMemory>
    ensures { IfOk result (λ words. words.items ≡ drop 1 (into_iter_items arguments)) }
{
    let mut words = Vec::new(alloc);
    let _ = arguments.next();
    for word in arguments {
        words.push(word)?;
    }
    Ok(words)
}

// The words that the arguments are. Where one isn't UTF-8 there are none.
fn words_of(alloc: Global, arguments: io::Result<Args>) -> Result<Vec<String>, NoMemory>
    ensures words { IfOk arguments (λ all.
        IfOk result (λ words. words.items ≡ drop 1 (into_iter_items all))) }
    ensures no_words { IfErr arguments (λ why. error_kind why ≢ ErrorKind.OutOfMemory
        → IsOkAnd result (λ words. words.items ≡ [])) }
    ensures no_memory { IfErr arguments (λ why. error_kind why ≡ ErrorKind.OutOfMemory
        → IsErr result) }
{
    match arguments {
        Ok(arguments) => behind_first(alloc, arguments),
        Err(why) => {
            if why.kind() == ErrorKind::OutOfMemory {
                return Err(NoMemory);
            }
            Ok(Vec::new(alloc))
        }
    }
}

// A file of the current folder, which is made where there is none, for its owner alone.
fn file(rt: &HostRuntime, name: &str) -> Option<File> {
    let mut options = OpenOptions::new();
    options.read(true);
    options.write(true);
    options.create(true);
    options.mode(0o600);
    options.open(rt, name).ok()
}

// The file, where no other run holds it; then this run does until it ends.
fn held(file: File) -> Option<File> {
    match file.try_lock() {
        Ok(()) => Some(file),
        Err(_) => None,
    }
}

// The disk of the current folder; one without files where the words don't ask for it.
fn disk_for(rt: &HostRuntime, words: &[String]) -> FileDisk
    ensures { needs_disk (command_of words.now) ≡ false
        → (part : Part) → has_file part result ≡ false }
{
    if !needs_disk(words) {
        return FileDisk::new(None, None, None);
    }
    FileDisk::new(
        file(rt, "swhost.root").and_then(held),
        file(rt, "swhost.left"),
        file(rt, "swhost.right"),
    )
}

fn main(rt: HostRuntime) -> ExitCode {
    let alloc = rt.alloc();
    let Ok(words) = words_of(alloc, args(&rt)) else {
        return ExitCode::from(Status::NoMemory.code());
    };
    let mut source = StdSource::new(rt.stdin());
    let mut sink = StdSink::new(rt.stdout());
    let disk = disk_for(&rt, &words);
    ended(&rt, alloc, &words, &mut source, &mut sink, disk, &NoGate).0
}
