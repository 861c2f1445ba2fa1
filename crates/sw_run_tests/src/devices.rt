//! Disks in memory, and files, for the tests.
ghost use Rattle.std.specs.Prelude.{◌≡◌};

use std::alloc::Global;
use std::fs::{self, File, OpenOptions};
use std::process::Abort;
use sw_data::Bytes;
use sw_disk::{CallKind, Failing, MemoryDisk};

pub(crate) const LIMIT: u64 = 4_294_967_296;

// What `init` makes of the current part.
pub(crate) const FORMATTED: &[u8] = b"SWHOST-JOURNAL-2\x00";

pub(crate) fn bytes(rt: &impl Abort, alloc: Global, from: &[u8]) -> Bytes
    ensures { result ≡ from.now }
{
    match Bytes::of(alloc, from) {
        Ok(bytes) => bytes,
        Err(_) => rt.panic("no memory"),
    }
}

// A disk in memory whose part left holds these bytes, some of whose calls fail.
pub(crate) fn with_left(
    rt: &impl Abort,
    alloc: Global,
    left: &[u8],
    failing: Vec<Failing>,
) -> MemoryDisk {
    let (root, right) = (bytes(rt, alloc, &[]), bytes(rt, alloc, &[]));
    MemoryDisk::new(root, bytes(rt, alloc, left), right, failing)
}

// A formatted disk in memory, some of whose calls fail.
pub(crate) fn formatted(rt: &impl Abort, alloc: Global, failing: Vec<Failing>) -> MemoryDisk {
    with_left(rt, alloc, FORMATTED, failing)
}

// A disk in memory with this root and this part left, all of whose calls fail from one on.
pub(crate) fn stopping(
    rt: &impl Abort,
    alloc: Global,
    root: &[u8],
    left: &[u8],
    after: u64,
) -> MemoryDisk {
    let (root, right) = (bytes(rt, alloc, root), bytes(rt, alloc, &[]));
    MemoryDisk::stopping(root, bytes(rt, alloc, left), right, after)
}

// The calls of a kind that fail.
pub(crate) fn failing(
    rt: &impl Abort,
    alloc: Global,
    call: CallKind,
    from: u64,
    to: u64,
) -> Vec<Failing> {
    vec![in alloc; Failing { call, from, to }; 1].expect(rt, "memory")
}

// A new file of this name, which is there no more, opened twice.
fn created(rt: &HostRuntime, name: &str) -> Option<(File, File)> {
    let mut options = OpenOptions::new();
    options.read(true);
    options.write(true);
    options.create_new(true);
    let file = options.open(rt, name).ok()?;
    let again = File::open(rt, name).ok()?;
    fs::remove_file(rt, name).ok()?;
    Some((file, again))
}

// A file in the folder for temporary files, opened twice, that has no name any more.
pub(crate) fn nameless(rt: &HostRuntime) -> Option<(File, File)> {
    for n in 0..1000u32 {
        let name = format!(in rt.alloc(); "/tmp/sw_run_tests_{n}").ok()?;
        match created(rt, name.as_str()) {
            Some(files) => return Some(files),
            None => {}
        }
    }
    None
}
