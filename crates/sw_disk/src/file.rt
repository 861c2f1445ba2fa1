//! A disk over three files.

ghost use Rattle.std.specs.Prelude.{◌≡◌, ◌≤◌, IfSome, IsSome, IsTrue, length, is_some};

use crate::disk::Disk;
use crate::part::{Part, Parts};
use std::fs::File;
use std::os::unix::fs::FileExt;
use sw_data::Failed;

/// A disk over three files, of which any may be missing: a call on a missing part fails, and so does a sync.
///
/// No contract says what a file holds, so it tells nothing. That real files behave as the disk rule says is a premise.
/// One call of a file is made for each call, and a write is repeated for what is left of it. A sync calls those files
/// alone that were written or cut since they were last synced, as it changes nothing of another; at first that may be
/// all of them, by what an earlier run left. It asks for the bytes and the length, and for no other metadata.
#[derive(Drop)]
pub struct FileDisk {
    files: Parts<Option<File>>,
    // Whether a part may have been written or cut since it was last synced.
    pending: Parts<bool>,
    clock: u64,
    faults: u64,
}

impl FileDisk {
    ghost use Rattle.sw_disk.specs.Files.{has_file, is_pending};
    ghost use Rattle.sw_disk.specs.declared.part.Part.{Part};
    ghost use Rattle.sw_disk.specs.declared.part.Part.TheVariants.{Root, Left, Right};

    /// A disk over these files. Its clock and its count are 0.
    pub fn new(root: Option<File>, left: Option<File>, right: Option<File>) -> FileDisk
        ensures clock { result.clock ≡ 0 }
        ensures faults { result.faults ≡ 0 }
        ensures root { has_file Root result ≡ is_some root }
        ensures left { has_file Left result ≡ is_some left }
        ensures right { has_file Right result ≡ is_some right }
        ensures pending { (part : Part) → IsTrue (is_pending part result) }
    {
        FileDisk {
            files: Parts { root, left, right },
            pending: Parts {
                root: true,
                left: true,
                right: true,
            },
            clock: 0,
            faults: 0,
        }
    }

    fn sync_files(&mut self) -> Option<()>
        ensures root { IsSome result → IsTrue (has_file Root self.old) }
        ensures left { IsSome result → IsTrue (has_file Left self.old) }
        ensures right { IsSome result → IsTrue (has_file Right self.old) }
        ensures clock { self.new.clock ≡ self.old.clock }
        ensures faults { self.new.faults ≡ self.old.faults }
    {
        sync_file(self.files.root.as_ref(), &mut self.pending.root)?;
        sync_file(self.files.left.as_ref(), &mut self.pending.left)?;
        sync_file(self.files.right.as_ref(), &mut self.pending.right)
    }

    fn file(&self, part: Part) -> Option<&File>
        ensures { is_some result ≡ has_file part self.now }
    {
        self.files.get(part).as_ref()
    }
}

fn length_of(file: Option<&File>) -> Option<u64>
    ensures { IsSome result → IsTrue (is_some file.entry) }
{
    Some(file?.metadata().ok()?.len())
}

fn read(file: Option<&File>, at: u64, into: &mut [u8]) -> Option<usize>
    ensures present { IsSome result → IsTrue (is_some file.entry) }
    ensures fits { IfSome result (λ n. n ≤ length into.new) }
{
    file?.read_at(into, at).ok()
}

fn write(file: Option<&File>, at: u64, bytes: &[u8]) -> Option<()>
    ensures { IsSome result → IsTrue (is_some file.entry) }
{
    file?.write_all_at(bytes, at).ok()
}

fn cut_file(file: Option<&File>, len: u64) -> Option<()>
    ensures { IsSome result → IsTrue (is_some file.entry) }
{
    file?.set_len(len).ok()
}

fn sync_file(file: Option<&File>, pending: &mut bool) -> Option<()>
    ensures { IsSome result → IsTrue (is_some file.entry) }
{
    let file = file?;
    if *pending {
        file.sync_data().ok()?;
        *pending = false;
    }
    Some(())
}

impl Disk for FileDisk {
    ghost use Rattle.std.specs.Prelude.{◌≡◌, ◌≤◌, None, IfOk, IsOk, IsTrue, length};
    ghost use Rattle.sw_disk.specs.DiskRule.{HasCause, Elapses};
    ghost use Rattle.sw_disk.specs.declared.part.Part.{Part};
    ghost use Rattle.sw_disk.specs.Files.{files, has_file, is_pending};

    ghost seen = { λ d. None };

    ghost may_leave = { λ d c. ⊥ };

    ghost left_since = { λ d t c. ⊥ };

    ghost clock = { λ d. d.clock };

    ghost faults = { λ d. d.faults };

    ghost shows = { λ d. tt };

    ghost counts_now = { λ d t c le left. left };

    ghost only_now = { λ d c goes left. left };

    ghost bounded = { λ d part. tt };

    fn len(&mut self, part: Part) -> Result<u64, Failed>
        ensures present { IsOk result → IsTrue (has_file part self.old) }
        ensures time { Elapses files.clock files.left_since files.may_leave self.old self.new }
        ensures cause { HasCause self.old.faults self.new.faults result }
    {
        self.clock = self.clock.saturating_add(1);
        match length_of(self.file(part)) {
            Some(len) => Ok(len),
            None => {
                self.faults = self.faults.saturating_add(1);
                Err(Failed)
            }
        }
    }

    fn read_at(&mut self, part: Part, at: u64, into: &mut [u8]) -> Result<usize, Failed>
        ensures present { IsOk result → IsTrue (has_file part self.old) }
        ensures fits { IfOk result (λ n. n ≤ length into.new) }
        ensures time { Elapses files.clock files.left_since files.may_leave self.old self.new }
        ensures cause { HasCause self.old.faults self.new.faults result }
    {
        self.clock = self.clock.saturating_add(1);
        match read(self.file(part), at, into) {
            Some(count) => Ok(count),
            None => {
                self.faults = self.faults.saturating_add(1);
                Err(Failed)
            }
        }
    }

    fn write_at(&mut self, part: Part, at: u64, bytes: &[u8]) -> Result<(), Failed>
        ensures present { IsOk result → IsTrue (has_file part self.old) }
        ensures time { Elapses files.clock files.left_since files.may_leave self.old self.new }
        ensures cause { HasCause self.old.faults self.new.faults result }
        ensures pending { IsTrue (is_pending part self.new) }
    {
        self.clock = self.clock.saturating_add(1);
        *self.pending.get_mut(part) = true;
        match write(self.file(part), at, bytes) {
            Some(()) => Ok(()),
            None => {
                self.faults = self.faults.saturating_add(1);
                Err(Failed)
            }
        }
    }

    fn cut(&mut self, part: Part, len: u64) -> Result<(), Failed>
        ensures present { IsOk result → IsTrue (has_file part self.old) }
        ensures time { Elapses files.clock files.left_since files.may_leave self.old self.new }
        ensures cause { HasCause self.old.faults self.new.faults result }
        ensures pending { IsTrue (is_pending part self.new) }
    {
        self.clock = self.clock.saturating_add(1);
        *self.pending.get_mut(part) = true;
        match cut_file(self.file(part), len) {
            Some(()) => Ok(()),
            None => {
                self.faults = self.faults.saturating_add(1);
                Err(Failed)
            }
        }
    }

    fn sync(&mut self) -> Result<(), Failed>
        ensures present { IsOk result → (part : Part) → IsTrue (has_file part self.old) }
        ensures time { Elapses files.clock files.left_since files.may_leave self.old self.new }
        ensures cause { HasCause self.old.faults self.new.faults result }
    {
        self.clock = self.clock.saturating_add(1);
        match self.sync_files() {
            Some(()) => Ok(()),
            None => {
                self.faults = self.faults.saturating_add(1);
                Err(Failed)
            }
        }
    }

    fn clock(&self) -> u64 {
        self.clock
    }

    fn faults(&self) -> u64 {
        self.faults
    }
}
