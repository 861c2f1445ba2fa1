//! A disk in memory, all of whose calls are done at once.

use crate::disk::Disk;
use crate::part::{Part, Parts};
use crate::span::{overwrite, read_into};
use sw_data::{Bytes, Failed};

/// A disk in memory without failing calls: only a write can fail, and only for want of memory. Each call is done at
/// once, so that a crash leaves what reads give. Of moments that are past it keeps nothing, so no call copies more
/// than the bytes that it is given.
#[derive(Debug, Drop)]
pub struct PlainDisk {
    parts: Parts<Vec<u8>>,
    clock: u64,
    faults: u64,
}

impl PlainDisk {
    ghost use Rattle.std.specs.Prelude.{◌≡◌};
    ghost use Rattle.sw_disk.specs.Image.{get};
    ghost use Rattle.sw_disk.specs.Plain.{plain_image};

    /// A disk whose parts hold these bytes; it takes no memory. Its clock and its count are 0.
    pub fn new(root: Bytes, left: Bytes, right: Bytes) -> PlainDisk
        ensures image { plain_image result ≡ record { root = root; left = left; right = right } }
        ensures clock { result.clock ≡ 0 }
        ensures faults { result.faults ≡ 0 }
    {
        PlainDisk {
            parts: Parts {
                root: root.into_vec(),
                left: left.into_vec(),
                right: right.into_vec(),
            },
            clock: 0,
            faults: 0,
        }
    }
}

impl Disk for PlainDisk {
    ghost use Rattle.std.specs.Prelude.{◌≡◌, ◌≤◌, Some, refl, length, take, IfOk, IsOk, OnOk, OnErr};
    ghost use Rattle.sw_disk.specs.Image.{get};
    ghost use Rattle.sw_disk.specs.DiskRule.{Puts, written, HasCause, faults_after, ReadsAt, Elapses};
    ghost use Rattle.sw_disk.specs.Plain.{plain, plain_image, plain_small};

    ghost seen = { λ d. Some (plain_image d) };

    ghost may_leave = { λ d c. c ≡ plain_image d };

    ghost left_since = { λ d t c. c ≡ plain_image d };

    ghost clock = { λ d. d.clock };

    ghost faults = { λ d. d.faults };

    ghost shows = { λ d. refl };

    ghost counts_now = { λ d t c le now. now };

    ghost only_now = { λ d c goes left. left };

    ghost bounded = { plain_small };

    fn len(&mut self, part: Part) -> Result<u64, Failed>
        ensures done { IsOk result }
        ensures length { IfOk result (λ n. n ≡ length (get part (plain_image self.old))) }
        ensures image { plain_image self.new ≡ plain_image self.old }
        ensures time { Elapses plain.clock plain.left_since plain.may_leave self.old self.new }
        ensures faults { self.new.faults ≡ self.old.faults }
    {
        self.clock = self.clock.saturating_add(1);
        Ok(self.parts.get(part).len() as u64)
    }

    fn read_at(&mut self, part: Part, at: u64, into: &mut [u8]) -> Result<usize, Failed>
        ensures done { IsOk result }
        ensures fits { IfOk result (λ n. n ≤ length into.new) }
        ensures bytes { IfOk result (ReadsAt (get part (plain_image self.old)) at into.new) }
        ensures image { plain_image self.new ≡ plain_image self.old }
        ensures time { Elapses plain.clock plain.left_since plain.may_leave self.old self.new }
        ensures faults { self.new.faults ≡ self.old.faults }
    {
        self.clock = self.clock.saturating_add(1);
        Ok(read_into(self.parts.get(part), at, into))
    }

    fn write_at(&mut self, part: Part, at: u64, bytes: &[u8]) -> Result<(), Failed>
        requires { at ≤ length (get part (plain_image self.old)) }
        ensures ok { OnOk result
            (Puts part (written at bytes.now) (plain_image self.old) (plain_image self.new)) }
        ensures err { OnErr result (plain_image self.new ≡ plain_image self.old) }
        ensures time { Elapses plain.clock plain.left_since plain.may_leave self.old self.new }
        ensures cause { HasCause self.old.faults self.new.faults result }
        ensures counts_faults { self.new.faults ≡ faults_after result self.old.faults }
    {
        self.clock = self.clock.saturating_add(1);
        match overwrite(self.parts.get_mut(part), at as usize, bytes) {
            Ok(()) => Ok(()),
            Err(Failed) => {
                self.faults = self.faults.saturating_add(1);
                Err(Failed)
            }
        }
    }

    fn cut(&mut self, part: Part, len: u64) -> Result<(), Failed>
        requires { len ≤ length (get part (plain_image self.old)) }
        ensures done { IsOk result }
        ensures image { Puts part (take len) (plain_image self.old) (plain_image self.new) }
        ensures time { Elapses plain.clock plain.left_since plain.may_leave self.old self.new }
        ensures faults { self.new.faults ≡ self.old.faults }
    {
        self.clock = self.clock.saturating_add(1);
        self.parts.get_mut(part).truncate(len as usize);
        Ok(())
    }

    fn sync(&mut self) -> Result<(), Failed>
        ensures done { IsOk result }
        ensures image { plain_image self.new ≡ plain_image self.old }
        ensures time { Elapses plain.clock plain.left_since plain.may_leave self.old self.new }
        ensures faults { self.new.faults ≡ self.old.faults }
    {
        self.clock = self.clock.saturating_add(1);
        Ok(())
    }

    fn clock(&self) -> u64 {
        self.clock
    }

    fn faults(&self) -> u64 {
        self.faults
    }
}
