//! What a call hands out.

ghost use Rattle.std.specs.Prelude.{◌≡◌, ◌+◌, ◌≤◌, length, true, IfOk, IsErr};
ghost use Rattle.sw_disk.specs.DiskRule.{written};
ghost use Rattle.sw_disk.specs.Plain.{plain_image};
ghost use Rattle.swhost_c.specs.Calls.{HandsNothing, HandsOut, IsHanded, IsInFront, bytes_of, fits_in, lengths_of};
ghost use Rattle.sw_host.specs.Texts.{code_of};

use crate::disk::{length_of, put_part};
use sw_data::{NoMemory, Text};
use sw_disk::{Part, PlainDisk};
use sw_host::{Report, Status};

/// The answer where the room has no place for all that is handed out. Nothing is written then but the lengths.
pub const NO_ROOM: u32 = 256;

/// How many bytes are handed out: of the text, and of each part.
#[repr(C)]
#[derive(Drop)]
pub struct Lengths {
    pub text: usize,
    pub root: usize,
    pub left: usize,
    pub right: usize,
}

// The answer for want of memory.
pub(crate) fn none() -> u32
    ensures { result ≡ code_of Status.NoMemory }
{
    u32::from(Status::NoMemory.code())
}

// For want of memory nothing is handed out.
pub(crate) fn hand_nothing(lengths: &mut Lengths) -> u32
    ensures { HandsNothing lengths.new result }
{
    *lengths = Lengths {
        text: 0,
        root: 0,
        left: 0,
        right: 0,
    };
    none()
}

// The lengths of a text and of the parts of a disk.
fn lengths_of(text: &Text, disk: &mut PlainDisk) -> Lengths
    ensures lengths { result ≡ lengths_of text.now (plain_image disk.old) }
    ensures image { plain_image disk.new ≡ plain_image disk.old }
{
    Lengths {
        text: text.as_bytes().len(),
        root: length_of(disk, Part::Root),
        left: length_of(disk, Part::Left),
        right: length_of(disk, Part::Right),
    }
}

// The room has place for all that has these lengths.
fn fits_in(room: usize, lengths: &Lengths) -> bool
    ensures { result ≡ fits_in room lengths.now }
{
    let parts = lengths.root as u128 + lengths.left as u128 + lengths.right as u128;
    lengths.text as u128 + parts <= room as u128
}

// Writes bytes into the room from a place on.
fn put(bytes: &[u8], room: &mut [u8], at: usize)
    requires { at + length bytes.now ≤ length room.old }
    ensures { room.new ≡ written at bytes.now room.old }
{
    room[at..at + bytes.len()].copy_from_slice(bytes);
}

// Writes a text and the parts of a disk, which have these lengths, into the room, one behind the other.
fn put_all(text: &[u8], disk: &mut PlainDisk, lengths: &Lengths, room: &mut [u8])
    requires lengths { lengths.now ≡ lengths_of text.now (plain_image disk.old) }
    requires fits { fits_in (length room.old) lengths.now ≡ true }
    ensures { IsInFront (bytes_of text.now (plain_image disk.old)) room.old room.new }
{
    let root = lengths.text;
    let left = root + lengths.root;
    let right = left + lengths.left;
    put(text, room, 0);
    put_part(disk, Part::Root, lengths.root, room, root);
    put_part(disk, Part::Left, lengths.left, room, left);
    put_part(disk, Part::Right, lengths.right, room, right);
}

// Hands out the report of a command, and the disk after it.
pub(crate) fn hand_out(
    report: Result<Report, NoMemory>,
    mut disk: PlainDisk,
    room: &mut [u8],
    lengths: &mut Lengths,
) -> u32
    ensures out { IfOk report (λ report. HandsOut
        (record { outcome = report.status; text = report.text; image = plain_image disk })
        room.old room.new lengths.new result) }
    ensures nothing { IsErr report → HandsNothing lengths.new result × (room.new ≡ room.old) }
{
    match report {
        Ok(report) => {
            *lengths = lengths_of(&report.text, &mut disk);
            if !fits_in(room.len(), lengths) {
                return NO_ROOM;
            }
            put_all(report.text.as_bytes(), &mut disk, lengths, room);
            u32::from(report.status.code())
        }
        Err(NoMemory) => hand_nothing(lengths),
    }
}

// Hands out the text of a report.
pub(crate) fn hand_text(report: Result<Report, NoMemory>, room: &mut [u8], count: &mut usize) -> u32
    ensures out { IfOk report (λ report. (count.new ≡ length report.text)
        × IsHanded (code_of report.status) report.text room.old room.new result) }
    ensures nothing { IsErr report
        → (count.new ≡ 0) × (room.new ≡ room.old) × (result ≡ code_of Status.NoMemory) }
{
    match report {
        Ok(report) => {
            *count = report.text.as_bytes().len();
            if room.len() < *count {
                return NO_ROOM;
            }
            put(report.text.as_bytes(), room, 0);
            u32::from(report.status.code())
        }
        Err(NoMemory) => {
            *count = 0;
            none()
        }
    }
}
