//! The host that the source and the disk tell of.

ghost use Rattle.std.specs.Prelude.{◌≡◌, IfOk};
ghost use Rattle.sw_rules.specs.Storage.{IsMade};

use std::alloc::Global;
use std::env::args;
use std::fs::{File, OpenOptions};
use sw_audit::Host;
use sw_change::Content;
use sw_data::{NoMemory, Recording};
use sw_disk::FileDisk;
use sw_io::ReadAllError;
use sw_kept::open;
use sw_readers::divided;
use sw_record::{RecordingError, read_recording};

/// Why nothing is told.
#[derive(Debug, Clone, Copy, PartialEq, Eq)]
pub enum Fault {
    /// There was no memory, or a stream or the disk failed.
    Failed,
    /// The words are others than `disk`.
    Words,
    /// The source is no recording with a transcript.
    Source,
}

impl From<NoMemory> for Fault {
    fn from(_: NoMemory) -> Fault {
        Fault::Failed
    }
}

impl From<ReadAllError> for Fault {
    fn from(_: ReadAllError) -> Fault {
        Fault::Failed
    }
}

/// A host that has just restarted, and the transcript that is held against it.
pub struct Beginning<'a> {
    pub host: Host,
    pub transcript: &'a [u8],
}

// A file of the current folder.
fn file(rt: &HostRuntime, name: &str) -> Option<File> {
    let mut options = OpenOptions::new();
    options.read(true);
    options.open(rt, name).ok()
}

// What the files of the current folder keep.
fn kept(alloc: Global, rt: &HostRuntime) -> Result<Content, Fault>
    ensures { IfOk result IsMade }
{
    let root = file(rt, "swhost.root");
    let left = file(rt, "swhost.left");
    let right = file(rt, "swhost.right");
    let mut disk = FileDisk::new(root, left, right);
    match open(alloc, &mut disk, 4_294_967_296) {
        Ok((_, content)) => Ok(content),
        Err(_) => Err(Fault::Failed),
    }
}

// What is kept where there is no disk.
#[tactic(auto, using(crate::proofs::Nothing::nothing_is_made))]
fn nothing(alloc: Global) -> Content
    ensures { IsMade result }
{
    Content::new(alloc)
}

// Whether the host has a disk.
fn has_disk(rt: &HostRuntime) -> Result<bool, Fault> {
    let Ok(mut words) = args(rt) else {
        return Err(Fault::Words);
    };
    let _ = words.next();
    let Some(word) = words.next() else {
        return Ok(false);
    };
    if word.as_str() != "disk" || words.next().is_some() {
        return Err(Fault::Words);
    }
    Ok(true)
}

// What the host has kept.
fn base(alloc: Global, rt: &HostRuntime) -> Result<Content, Fault>
    ensures { IfOk result IsMade }
{
    if has_disk(rt)? {
        kept(alloc, rt)
    } else {
        Ok(nothing(alloc))
    }
}

// The host that has kept this, and follows a recording.
fn host_on(alloc: Global, base: Result<Content, Fault>, recording: Recording) -> Result<Host, Fault>
    requires { IfOk base IsMade }
{
    match base {
        Ok(base) => match Host::restart(alloc, base, recording) {
            Ok(host) => Ok(host),
            Err(NoMemory) => Err(Fault::Failed),
        },
        Err(fault) => Err(unheld(recording, fault)),
    }
}

// A recording that no host follows, which is let go.
fn unheld(recording: Recording, fault: Fault) -> Fault {
    drop(recording);
    fault
}

/// The host at its beginning, and the transcript, that a source and the words tell of.
pub fn given<'a>(
    alloc: Global,
    rt: &HostRuntime,
    source: &'a [u8],
) -> Result<Beginning<'a>, Fault> {
    let Some((recorded, transcript)) = divided(source) else {
        return Err(Fault::Source);
    };
    match read_recording(alloc, recorded) {
        Ok(recording) => {
            let host = host_on(alloc, base(alloc, rt), recording)?;
            Ok(Beginning { host, transcript })
        }
        Err(RecordingError::NoMemory) => Err(Fault::Failed),
        Err(_) => Err(Fault::Source),
    }
}
