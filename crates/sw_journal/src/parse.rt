//! The records that a part's bytes stand for.

ghost use Rattle.std.specs.Prelude.{◌≡◌, ◌≤◌, length, take, None, IfOk, MatchOption};
ghost use Rattle.sw_journal.specs.Format.{is_numbered};
ghost use Rattle.sw_journal.specs.Content.{payload_length, IsRecord, reading, EndsAt};
ghost use Rattle.sw_journal.specs.Version.{format_at};

use crate::gate::OPEN;
use crate::version::{HEADER_LENGTH, Version};
use std::alloc::Global;
use sw_data::{Bytes, NoMemory};

// How a part reads: its whole records with open gates, each with the offset of its gate; the offset of the gate at
// which the reading ends; and whether that gate is there and closed.
#[derive(Drop)]
pub(crate) struct Reading {
    pub(crate) records: Vec<(u64, Bytes)>,
    pub(crate) gate: u64,
    pub(crate) is_closed: bool,
}

// Whether the number in front of these bytes is this one, where the format has numbers.
fn has_number(version: Version, number: u64, bytes: &[u8]) -> bool
    requires { (format_at version).width ≤ length bytes.now }
    ensures { result ≡ is_numbered (format_at version) number
        (take (format_at version).width bytes.now) }
{
    match (version, bytes) {
        (Version::One, _) => true,
        (Version::Two, [a, b, c, d, e, f, g, h, ..]) => {
            u64::from_be_bytes([*a, *b, *c, *d, *e, *f, *g, *h]) == number
        }
        (Version::Two, _) => false,
    }
}

// The length of the payload of the whole record that these bytes begin with.
fn whole_length(version: Version, number: u64, bytes: &[u8]) -> Option<usize>
    ensures { result ≡ payload_length (format_at version) number bytes.now }
{
    let [a, b, c, d, rest @ ..] = bytes else {
        return None;
    };
    let size = u32::from_be_bytes([*a, *b, *c, *d]) as usize;
    if rest.len() <= version.width() as usize + size {
        return None;
    }
    if has_number(version, number, rest) {
        Some(size)
    } else {
        None
    }
}

// The payload of the whole record that these bytes, which follow a gate, begin with, and what follows it.
fn split_record(version: Version, number: u64, bytes: &[u8]) -> Option<(&[u8], &[u8])>
    ensures { MatchOption result (payload_length (format_at version) number bytes.now ≡ None)
        (λ r. IsRecord (format_at version) number bytes.now r.0.now r.1.now) }
{
    let size = whole_length(version, number, bytes)?;
    let front = 4 + version.width() as usize;
    Some(bytes.split_at(front).1.split_at(size))
}

// The records of a part of this format, behind its header.
pub(crate) fn read_records(
    alloc: Global,
    version: Version,
    bytes: &[u8],
) -> Result<Reading, NoMemory>
    requires { 16 ≤ length bytes.now }
    ensures reading { IfOk result (λ r. reading (format_at version) bytes.now
        ≡ record { records = r.records.items; gate = r.gate; is_closed = r.is_closed }) }
    ensures gate { IfOk result (λ r. r.gate ≤ length bytes.now) }
    ensures count { IfOk result (λ r. length r.records.items ≤ r.gate) }
{
    let mut records = Vec::new(alloc);
    let mut gate = HEADER_LENGTH as u64;
    let mut rest = bytes.split_at(HEADER_LENGTH).1;
    while let [byte, behind @ ..] = rest {
        if *byte != OPEN {
            return Ok(Reading {
                records,
                gate,
                is_closed: true,
            });
        }
        let Some((payload, next)) = split_record(version, records.len() as u64, behind) else {
            break;
        };
        records.push((gate, Bytes::of(alloc, payload)?))?;
        gate += 5 + version.width() + payload.len() as u64;
        rest = next;
    }
    Ok(Reading {
        records,
        gate,
        is_closed: false,
    })
}

// The offset of the gate at which the reading of a part ends, and how many records are before it; it takes no memory.
pub(crate) fn end_of_records(version: Version, bytes: &[u8]) -> (u64, u64)
    requires { 16 ≤ length bytes.now }
    ensures end { EndsAt (format_at version) bytes.now result.0 result.1 }
    ensures gate { result.0 ≤ length bytes.now }
    ensures count { result.1 ≤ result.0 }
{
    let mut gate = HEADER_LENGTH as u64;
    let mut count = 0;
    let mut rest = bytes.split_at(HEADER_LENGTH).1;
    while let [first, behind @ ..] = rest {
        if *first != OPEN {
            break;
        }
        let Some((payload, next)) = split_record(version, count, behind) else {
            break;
        };
        gate += 5 + version.width() + payload.len() as u64;
        count += 1;
        rest = next;
    }
    (gate, count)
}
