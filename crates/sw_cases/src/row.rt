//! The parts of a row: texts, numbers, bytes and lists; and how answers are written.

use serde_json::Value;
use std::alloc::{AllocError, AllocFailed, Global};
use std::fmt::Debug;
use sw_data::{Bytes, Header, Items, NoMemory, Text};
use sw_forms::Part;

/// Why a row has no answer.
#[derive(Debug, Clone, Copy, PartialEq, Eq)]
pub enum Fault {
    /// It isn't the row of a call.
    BadRow,
    NoMemory,
}

impl From<NoMemory> for Fault {
    fn from(_: NoMemory) -> Fault {
        Fault::NoMemory
    }
}

impl From<AllocError> for Fault {
    fn from(_: AllocError) -> Fault {
        Fault::NoMemory
    }
}

impl<T: Drop> From<AllocFailed<T>> for Fault {
    fn from(_: AllocFailed<T>) -> Fault {
        Fault::NoMemory
    }
}

/// What a row is answered with.
pub type Answer = Result<String, Fault>;

/// The part at a place.
pub fn part(parts: &[Value], place: usize) -> Result<&Value, Fault> {
    parts.get(place).ok_or(Fault::BadRow)
}

/// The values of an array.
pub fn list_of(value: &Value) -> Result<&[Value], Fault> {
    match value.as_array() {
        Some(values) => Ok(values.as_slice()),
        None => Err(Fault::BadRow),
    }
}

/// The text of a value.
pub fn word_of(value: &Value) -> Result<&str, Fault> {
    value.as_str().ok_or(Fault::BadRow)
}

/// The array at a place.
pub fn list(parts: &[Value], place: usize) -> Result<&[Value], Fault> {
    list_of(part(parts, place)?)
}

/// The text at a place, as it stands there.
pub fn word(parts: &[Value], place: usize) -> Result<&str, Fault> {
    word_of(part(parts, place)?)
}

/// The text at a place.
pub fn text(alloc: Global, parts: &[Value], place: usize) -> Result<Text, Fault> {
    Ok(Text::of(alloc, word(parts, place)?)?)
}

/// The text at a place, or none where `null` stands there.
pub fn text_or_none(alloc: Global, parts: &[Value], place: usize) -> Result<Option<Text>, Fault> {
    if part(parts, place)?.is_null() {
        return Ok(None);
    }
    Ok(Some(text(alloc, parts, place)?))
}

/// The number at a place.
pub fn number(parts: &[Value], place: usize) -> Result<u64, Fault> {
    part(parts, place)?.as_u64().ok_or(Fault::BadRow)
}

/// The number of 32 bits at a place.
pub fn small_number(parts: &[Value], place: usize) -> Result<u32, Fault> {
    u32::try_from(number(parts, place)?)
        .ok()
        .ok_or(Fault::BadRow)
}

/// The count at a place.
pub fn count(parts: &[Value], place: usize) -> Result<usize, Fault> {
    usize::try_from(number(parts, place)?)
        .ok()
        .ok_or(Fault::BadRow)
}

/// The bytes that a text spells in hexadecimal.
pub fn bytes_of(alloc: Global, value: &Value) -> Result<Bytes, Fault> {
    match hex::decode(alloc, word_of(value)?) {
        Ok(bytes) => Ok(Bytes::from_vec(bytes)),
        Err(hex::FromHexError::OutOfMemory) => Err(Fault::NoMemory),
        Err(_) => Err(Fault::BadRow),
    }
}

/// The bytes at a place.
pub fn bytes(alloc: Global, parts: &[Value], place: usize) -> Result<Bytes, Fault> {
    bytes_of(alloc, part(parts, place)?)
}

/// The text at a place, so many times as the number behind it says.
pub fn repeated(alloc: Global, parts: &[Value], place: usize) -> Result<String, Fault> {
    let word = word(parts, place)?;
    let mut all = String::new(alloc);
    for _ in 0..count(parts, place.saturating_add(1))? {
        all.push_str(word)?;
    }
    Ok(all)
}

fn header(alloc: Global, pair: &Value) -> Result<Header, Fault> {
    let parts = list_of(pair)?;
    let name = text(alloc, parts, 0)?;
    let value = text(alloc, parts, 1)?;
    Ok(Header { name, value })
}

/// The list of headers at a place: an array of pairs.
pub fn headers(alloc: Global, parts: &[Value], place: usize) -> Result<Items<Header>, Fault> {
    let mut headers = Items::new(alloc);
    for pair in list(parts, place)? {
        headers.push(header(alloc, pair)?)?;
    }
    Ok(headers)
}

/// A part of a recording's line.
pub fn form<T: Drop>(part: Part<T>) -> Result<T, Fault> {
    match part {
        Ok(Ok(part)) => Ok(part),
        Ok(Err(_)) => Err(Fault::BadRow),
        Err(NoMemory) => Err(Fault::NoMemory),
    }
}

/// A word as an answer.
pub fn plain(alloc: Global, word: &str) -> Answer {
    Ok(String::from_str(alloc, word)?)
}

/// The name of a refusal as an answer.
pub fn named<E: Debug + Drop>(alloc: Global, why: E) -> Answer {
    Ok(format!(in alloc; "{why:?}")?)
}

/// A text as JSON writes it.
pub fn quoted(alloc: Global, text: &str) -> Answer {
    Ok(Value::try_from_str(alloc, text)?.to_string(alloc)?)
}

/// A text as JSON writes it, or `none`.
pub fn quoted_or_none(alloc: Global, text: Option<Text>) -> Answer {
    match text {
        Some(text) => quoted(alloc, text.as_str()),
        None => plain(alloc, "none"),
    }
}

/// Bytes in hexadecimal, as JSON writes the text.
pub fn spelled(alloc: Global, bytes: &[u8]) -> Answer {
    let digits = hex::encode(alloc, bytes)?;
    quoted(alloc, digits.as_str())
}

/// `true` or `false`.
pub fn truth(alloc: Global, holds: bool) -> Answer {
    plain(alloc, if holds { "true" } else { "false" })
}

/// A number, or `none`.
pub fn number_or_none(alloc: Global, number: Option<u64>) -> Answer {
    match number {
        Some(number) => Ok(format!(in alloc; "{number}")?),
        None => plain(alloc, "none"),
    }
}

/// A place, or `none`.
pub fn place_or_none(alloc: Global, place: Option<usize>) -> Answer {
    number_or_none(alloc, place.map(|place| place as u64))
}
