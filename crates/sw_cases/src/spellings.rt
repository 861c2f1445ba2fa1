//! Durable changes as bytes, and bytes as changes.
//!
//! - `codec write CHANGE..`: the bytes, or `refused`
//! - `codec read BYTES`: how many changes they spell, and the bytes that these are written as; or where they are bad
//! - `codec cuts BYTES..`, `codec flips BYTES..`, each the spelling of a change: the first place at which they are told wrong, where
//!   all of them in a row are cut there, or their byte there is another

use crate::changes::changes;
use crate::row::{Answer, Fault, bytes, bytes_of, place_or_none, spelled};
use serde_json::Value;
use std::alloc::Global;
use sw_codec::{ReadError, read, write};
use sw_data::NoMemory;

fn written(alloc: Global, parts: &[Value]) -> Answer {
    let changes = changes(alloc, parts)?;
    match write(alloc, changes.as_slice()) {
        Ok(bytes) => spelled(alloc, bytes.as_bytes()),
        Err(NoMemory) => Ok(String::from_str(alloc, "refused")?),
    }
}

// How many changes bytes spell, and how these are written, or where the bytes are bad.
fn read_again(alloc: Global, parts: &[Value]) -> Answer {
    let bytes = bytes(alloc, parts, 0)?;
    match read(alloc, bytes.as_bytes()) {
        Ok(changes) => {
            let count = changes.len();
            let again = write(alloc, changes.as_slice())?;
            let again = spelled(alloc, again.as_bytes())?;
            Ok(format!(in alloc; "{count} {again}")?)
        }
        Err(ReadError::NoMemory) => Err(Fault::NoMemory),
        Err(ReadError::BadAt(offset)) => Ok(format!(in alloc; "bad at {offset}")?),
    }
}

// Whether bytes are read and then written as they were, or are bad, where an offset is wanted there.
fn is_told(alloc: Global, bytes: &[u8], wanted: Option<u64>) -> Result<bool, Fault> {
    match read(alloc, bytes) {
        Ok(changes) => {
            let again = write(alloc, changes.as_slice())?;
            Ok(again.as_bytes() == bytes)
        }
        Err(ReadError::NoMemory) => Err(Fault::NoMemory),
        Err(ReadError::BadAt(offset)) => Ok(wanted.is_none_or(|wanted| wanted == offset)),
    }
}

// The bytes of all spellings, and for each byte and their end where the spelling that it stands in begins.
fn joined(alloc: Global, parts: &[Value]) -> Result<(Vec<u8>, Vec<u64>), Fault> {
    let mut all = Vec::new(alloc);
    let mut starts = Vec::new(alloc);
    for value in parts {
        let start = all.len() as u64;
        for byte in bytes_of(alloc, value)?.as_bytes() {
            all.push(*byte)?;
            starts.push(start)?;
        }
    }
    Ok((all, starts))
}

// The first length at which the spellings one after the other are cut, and what is read is neither they nor bad at the
// begin of the spelling that was cut.
fn wrong_cut(alloc: Global, parts: &[Value]) -> Answer {
    let (all, starts) = joined(alloc, parts)?;
    for (cut, start) in starts.iter().enumerate() {
        let Some((front, _)) = all.split_at_checked(cut) else {
            return Err(Fault::BadRow);
        };
        if !is_told(alloc, front, Some(*start))? {
            return place_or_none(alloc, Some(cut));
        }
    }
    place_or_none(alloc, None)
}

// The first place at which a byte is changed, and what is read then is neither bad nor written as it was.
fn wrong_flip(alloc: Global, parts: &[Value]) -> Answer {
    let (mut all, _) = joined(alloc, parts)?;
    for place in 0..all.len() {
        if !is_told_with(alloc, &mut all, place)? {
            return place_or_none(alloc, Some(place));
        }
    }
    place_or_none(alloc, None)
}

// Whether the bytes are told with each of some bytes at a place, at which the first stays.
fn is_told_with(alloc: Global, all: &mut Vec<u8>, place: usize) -> Result<bool, Fault> {
    let Some(kept) = all.get(place).copied() else {
        return Err(Fault::BadRow);
    };
    for byte in [0, 1, 2, 12, 127, 200, 255, kept] {
        put_byte(all, place, byte);
        if !is_told(alloc, all.as_slice(), None)? {
            return Ok(false);
        }
    }
    Ok(true)
}

fn put_byte(all: &mut Vec<u8>, place: usize, byte: u8) {
    if place < all.len() {
        all[place] = byte;
    }
}

/// The answer to a row of `codec`.
pub fn answer(alloc: Global, call: &str, parts: &[Value]) -> Answer {
    match call {
        "write" => written(alloc, parts),
        "read" => read_again(alloc, parts),
        "cuts" => wrong_cut(alloc, parts),
        "flips" => wrong_flip(alloc, parts),
        _ => Err(Fault::BadRow),
    }
}
