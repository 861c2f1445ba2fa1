//! The ones that Root begins with, and the part that they tell.

ghost use Rattle.std.specs.Prelude.{◌≡◌, ◌<◌, ◌≤◌, ◌+◌, true, false, drop, IfOk, IsErr};
ghost use Rattle.sw_data.specs.Faults.{Rose};
ghost use Rattle.sw_disk.specs.DiskRule.{ForTold};
ghost use Rattle.sw_journal.specs.Quiet.{LeavesAlone};
ghost use Rattle.sw_twin.specs.Current.{leading_ones, part_at};

use sw_disk::{Disk, Failed, Part};

// The byte by which Root counts.
pub(crate) const ONE: u8 = 1;

// How many bytes are read at a time.
const CHUNK: usize = 4096;

// No part of a disk that tells what it holds has so many bytes.
const MOST: u64 = 1 << 63;

// The current part where Root begins with so many ones.
pub(crate) fn part_after(ones: u64) -> Part
    ensures { result ≡ part_at ones }
{
    if ones % 2 == 0 {
        Part::Left
    } else {
        Part::Right
    }
}

// How many ones these bytes begin with.
fn leading(bytes: &[u8]) -> usize
    ensures { result ≡ leading_ones bytes.now }
{
    let mut ones = 0;
    while ones < bytes.len() && bytes[ones] == ONE {
        ones += 1;
    }
    ones
}

// How many ones Root has from a place on, as far as one read goes, and whether it must be read on.
fn read_ones<D: Disk>(disk: &mut D, at: u64) -> Result<(u64, bool), Failed>
    ensures end { ForTold (D.seen disk.old) (λ image. IfOk result
        (λ r. r.1 ≡ false → leading_ones (drop at image.root) ≡ r.0)) }
    ensures more { ForTold (D.seen disk.old) (λ image. IfOk result
        (λ r. r.1 ≡ true → leading_ones (drop at image.root)
        ≡ r.0 + leading_ones (drop (at + r.0) image.root))) }
    ensures some { IfOk result (λ r. r.1 ≡ true → 0 < r.0) }
    ensures few { IfOk result (λ r. r.0 ≤ 4096) }
    ensures quiet { LeavesAlone D.Disk disk.old disk.new }
    ensures calls { D.clock disk.new ≤ D.clock disk.old + 1 }
    ensures fault { IsErr result → Rose (D.faults disk.old) (D.faults disk.new) }
{
    let mut piece = [0; CHUNK];
    let count = disk.read_at(Part::Root, at, &mut piece)?;
    let ones = leading(piece.split_at(count).0);
    Ok((ones as u64, 0 < count && ones == count))
}

// How many ones Root begins with.
pub(crate) fn count_ones<D: Disk>(disk: &mut D) -> Result<u64, Failed>
    ensures ones { ForTold (D.seen disk.old)
        (λ image. IfOk result (λ ones. ones ≡ leading_ones image.root)) }
    ensures quiet { LeavesAlone D.Disk disk.old disk.new }
    ensures calls { ForTold (D.seen disk.old)
        (λ image. D.clock disk.new ≤ D.clock disk.old + leading_ones image.root + 1) }
    ensures fault { IsErr result → Rose (D.faults disk.old) (D.faults disk.new) }
{
    let mut ones = 0;
    while ones < MOST {
        let (more, goes_on) = read_ones(disk, ones)?;
        ones += more;
        if !goes_on {
            return Ok(ones);
        }
    }
    Ok(ones)
}
