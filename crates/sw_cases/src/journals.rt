//! What the bytes of a disk's parts are opened as, and what is written to them.
//!
//! - `journal records LEFT`: how many records the part has, or why it isn't opened
//! - `journal moved LEFT`: its format and next free offset, and both once the journal went over to a whole part without records
//! - `journal init LEFT`: the bytes of the part once it is formatted, or why it isn't
//! - `twin whole PAYLOAD`: the bytes of a whole part
//! - `twin current ROOT LEFT RIGHT PICKS`, with whole parts of one payload: the payloads of the current part, before and after a
//!   crash that leaves what is picked
//! - `kept open LEFT`: `opened`, or why it isn't
ghost use Rattle.std.specs.Prelude.{◌<◌, ◌^◌, [], ◌∷◌, length, IfOk};
ghost use Rattle.sw_journal.specs.WholePart.{IsWhole};

use crate::row::{Answer, Fault, bytes, named, plain, spelled};
use serde_json::Value;
use std::alloc::Global;
use sw_data::{Bytes, NoMemory};
use sw_disk::{Disk, MemoryDisk, Part, PlainDisk};
use sw_journal::{Journal, ReopenError, init};
use sw_kept::{OpenError, open};
use sw_twin::{Twin, part_of};

const MOST: u64 = 4_294_967_296;

// A disk whose part left holds these bytes.
fn disk_with(alloc: Global, left: Bytes) -> PlainDisk {
    let root = Bytes::from_vec(Vec::new(alloc));
    let right = Bytes::from_vec(Vec::new(alloc));
    PlainDisk::new(root, left, right)
}

fn refused(alloc: Global, why: ReopenError) -> Answer {
    match why {
        ReopenError::NoMemory => Err(Fault::NoMemory),
        ReopenError::DiskFault => plain(alloc, "disk fault"),
        ReopenError::NotFormatted => plain(alloc, "not formatted"),
        ReopenError::BadJournal { offset, before } => {
            let count = before.len();
            Ok(format!(in alloc; "bad at {offset} behind {count}")?)
        }
    }
}

// How many records a part has.
fn record_count<D: Disk>(alloc: Global, disk: &mut D) -> Result<usize, ReopenError> {
    match Journal::reopen(alloc, disk, Part::Left, MOST) {
        Ok((_, records)) => Ok(records.len()),
        Err(why) => Err(why),
    }
}

fn records(alloc: Global, left: Bytes) -> Answer {
    let found = record_count(alloc, &mut disk_with(alloc, left));
    match found {
        Ok(count) => Ok(format!(in alloc; "{count}")?),
        Err(why) => refused(alloc, why),
    }
}

// The format of a part and its next free offset, and both once the journal went over to a whole part without records.
fn places<D: Disk>(alloc: Global, disk: &mut D) -> Result<(u8, u64, u8, u64), ReopenError> {
    match Journal::reopen(alloc, disk, Part::Left, MOST) {
        Ok((mut journal, _)) => {
            let (format, next) = (journal.format(), journal.next());
            journal.move_to(Part::Right, b"SWHOST-JOURNAL-2\x00");
            Ok((format, next, journal.format(), journal.next()))
        }
        Err(why) => Err(why),
    }
}

fn moved(alloc: Global, left: Bytes) -> Answer {
    let found = places(alloc, &mut disk_with(alloc, left));
    match found {
        Ok((format, next, new_format, new_next)) => {
            Ok(format!(in alloc; "{format} {next} {new_format} {new_next}")?)
        }
        Err(why) => refused(alloc, why),
    }
}

// The bytes of a part.
fn image<D: Disk>(alloc: Global, disk: &mut D) -> Answer {
    let mut all = [0; 64];
    match disk.read_at(Part::Left, 0, &mut all) {
        Ok(count) => match all.split_at_checked(count) {
            Some((front, _)) => spelled(alloc, front),
            None => Err(Fault::BadRow),
        },
        Err(_) => plain(alloc, "disk fault"),
    }
}

fn formatted(alloc: Global, left: Bytes) -> Answer {
    let mut disk = disk_with(alloc, left);
    match init(&mut disk, Part::Left) {
        Ok(()) => image(alloc, &mut disk),
        Err(why) => named(alloc, why),
    }
}

/// The answer to a row of `journal`.
pub fn answer(alloc: Global, call: &str, parts: &[Value]) -> Answer {
    match call {
        "records" => records(alloc, bytes(alloc, parts, 0)?),
        "moved" => moved(alloc, bytes(alloc, parts, 0)?),
        "init" => formatted(alloc, bytes(alloc, parts, 0)?),
        _ => Err(Fault::BadRow),
    }
}

// A whole part with one payload.
fn whole(alloc: Global, payload: Bytes) -> Result<Bytes, Fault>
    requires { length payload < 2 ^ 32 }
    ensures { IfOk result (λ part. IsWhole (payload ∷ []) part) }
{
    let payloads = [payload];
    Ok(part_of(alloc, &payloads)?)
}

// A payload of less than 4 GiB.
fn payload(alloc: Global, parts: &[Value], place: usize) -> Result<Bytes, Fault>
    ensures { IfOk result (λ payload. length payload < 2 ^ 32) }
{
    let payload = bytes(alloc, parts, place)?;
    if (payload.as_bytes().len() as u64) < MOST {
        Ok(payload)
    } else {
        Err(Fault::BadRow)
    }
}

// Payloads, with spaces between them.
fn list_payloads(alloc: Global, records: &[(u64, Bytes)]) -> Answer {
    let mut all = String::new(alloc);
    for record in records {
        if !all.is_empty() {
            all.push_str(" ")?;
        }
        all.push_str(spelled(alloc, record.1.as_bytes())?.as_str())?;
    }
    Ok(all)
}

// The payloads of the current part.
fn payloads<D: Disk>(alloc: Global, disk: &mut D) -> Answer {
    match Twin::reopen(alloc, disk, MOST) {
        Ok((_, records)) => list_payloads(alloc, records.as_slice()),
        Err(why) => refused(alloc, why),
    }
}

// The payloads of the current part, before and after a crash that leaves what is picked.
fn around_crash(alloc: Global, mut disk: MemoryDisk, picks: &[u8]) -> (Answer, Answer) {
    let before = payloads(alloc, &mut disk);
    match disk.crash(picks) {
        Ok(mut left) => (before, payloads(alloc, &mut left)),
        Err(NoMemory) => (before, Err(Fault::NoMemory)),
    }
}

// A disk whose parts left and right are whole parts with one payload.
fn two_parts(alloc: Global, parts: &[Value]) -> Result<MemoryDisk, Fault> {
    let root = bytes(alloc, parts, 0)?;
    let left = whole(alloc, payload(alloc, parts, 1)?)?;
    let right = whole(alloc, payload(alloc, parts, 2)?)?;
    Ok(MemoryDisk::new(root, left, right, Vec::new(alloc)))
}

fn current(alloc: Global, parts: &[Value]) -> Answer {
    let picks = bytes(alloc, parts, 3)?;
    let (before, after) = around_crash(alloc, two_parts(alloc, parts)?, picks.as_bytes());
    let before = before?;
    let after = after?;
    Ok(format!(in alloc; "{before} {after}")?)
}

// The bytes of a whole part.
fn whole_part(alloc: Global, payload: Bytes) -> Answer
    requires { length payload < 2 ^ 32 }
{
    spelled(alloc, whole(alloc, payload)?.as_bytes())
}

/// The answer to a row of `twin`.
pub fn twin_answer(alloc: Global, call: &str, parts: &[Value]) -> Answer {
    match call {
        "whole" => whole_part(alloc, payload(alloc, parts, 0)?),
        "current" => current(alloc, parts),
        _ => Err(Fault::BadRow),
    }
}

// Why what is kept in a part isn't opened.
fn opening<D: Disk>(alloc: Global, disk: &mut D) -> Result<(), OpenError> {
    match open(alloc, disk, MOST) {
        Ok(_) => Ok(()),
        Err(why) => Err(why),
    }
}

fn kept(alloc: Global, left: Bytes) -> Answer {
    let found = opening(alloc, &mut disk_with(alloc, left));
    match found {
        Ok(()) => plain(alloc, "opened"),
        Err(OpenError::NoMemory) => Err(Fault::NoMemory),
        Err(why) => named(alloc, why),
    }
}

/// The answer to a row of `kept`.
pub fn kept_answer(alloc: Global, call: &str, parts: &[Value]) -> Answer {
    match call {
        "open" => kept(alloc, bytes(alloc, parts, 0)?),
        _ => Err(Fault::BadRow),
    }
}
