//! Parts that are handed in and out.

ghost use Rattle.std.specs.Prelude.{◌≡◌, ◌+◌, ◌<◌, ◌≤◌, length, take, IfOk};
ghost use Rattle.sw_disk.specs.DiskRule.{written};
ghost use Rattle.sw_disk.specs.Image.{get};
ghost use Rattle.sw_disk.specs.Plain.{plain_image};

use std::alloc::Global;
use sw_data::{Bytes, NoMemory};
use sw_disk::{Disk, Part, PlainDisk};

// A disk in memory whose parts hold these bytes.
pub(crate) fn disk_of(
    alloc: Global,
    root: &[u8],
    left: &[u8],
    right: &[u8],
) -> Result<PlainDisk, NoMemory>
    ensures { IfOk result (λ disk. plain_image disk
        ≡ record { root = root.now; left = left.now; right = right.now }) }
{
    Ok(PlainDisk::new(
        Bytes::of(alloc, root)?,
        Bytes::of(alloc, left)?,
        Bytes::of(alloc, right)?,
    ))
}

// How many bytes a part has.
pub(crate) fn length_of(disk: &mut PlainDisk, part: Part) -> usize
    ensures length { result ≡ length (get part (plain_image disk.old)) }
    ensures image { plain_image disk.new ≡ plain_image disk.old }
{
    match disk.len(part) {
        Ok(length) => length as usize,
        Err(_) => unreachable!(),
    }
}

// Reads a part on from a place, into the rest of what has the part's length, and says how many bytes more it read.
fn read_on(disk: &mut PlainDisk, part: Part, at: usize, into: &mut [u8]) -> usize
    requires within { at < length into.old }
    requires length { length into.old ≡ length (get part (plain_image disk.old)) }
    ensures some { 0 < result }
    ensures fits { at + result ≤ length into.new }
    ensures front { take at into.old ≡ take at (get part (plain_image disk.old))
        → take (at + result) into.new ≡ take (at + result) (get part (plain_image disk.old)) }
    ensures image { plain_image disk.new ≡ plain_image disk.old }
{
    match disk.read_at(part, at as u64, &mut into[at..]) {
        Ok(more) => more,
        Err(_) => unreachable!(),
    }
}

// Reads a part into what has its length.
fn read_part(disk: &mut PlainDisk, part: Part, into: &mut [u8])
    requires { length into.old ≡ length (get part (plain_image disk.old)) }
    ensures bytes { into.new ≡ get part (plain_image disk.old) }
    ensures image { plain_image disk.new ≡ plain_image disk.old }
{
    let mut at = 0;
    while at < into.len() {
        at += read_on(disk, part, at, into);
    }
}

// Writes a part, which has this length, into the room from a place on.
pub(crate) fn put_part(disk: &mut PlainDisk, part: Part, len: usize, room: &mut [u8], at: usize)
    requires length { len ≡ length (get part (plain_image disk.old)) }
    requires room { at + len ≤ length room.old }
    ensures room { room.new ≡ written at (get part (plain_image disk.old)) room.old }
    ensures image { plain_image disk.new ≡ plain_image disk.old }
{
    read_part(disk, part, &mut room[at..at + len]);
}
