//! What is printed of a place where a transcript goes apart:
//!
//! ```text
//! line NUMBER
//! found LINE
//! wanted LINE
//! may happen MARK, MARK, ..
//! ```
//!
//! `wanted` is what the line would have to be for the event that it names, or the last line that may stand there, and is left
//! out where there is none. The marks are those of the events that may happen there, as a line begins with them: `L0`, `w0`
//! or `run j0`; `nothing` where there is none. Where nothing goes apart there is the line `nothing goes apart` alone.

use crate::walking::Place;
use std::alloc::{AllocError, Global};
use sw_audit::{Kind, Mark};
use sw_data::{NoMemory, Text};

// The word of an event of the host, and the letter of what it is about.
fn words_of(kind: Kind) -> &'static str {
    match kind {
        Kind::Run => "run j",
        Kind::Fetched => "fetched j",
        Kind::Evaluated => "evaluated j",
        Kind::Installed => "installed j",
        Kind::TryActivate => "tryactivate r",
        Kind::Activated => "activated w",
        Kind::Added => "added a",
    }
}

// The mark of an event.
fn mark_text(alloc: Global, mark: Mark) -> Result<String, AllocError> {
    match mark {
        Mark::Lane(lane) => format!(in alloc; "L{lane}"),
        Mark::Handler(worker) => format!(in alloc; "w{worker}"),
        Mark::Host { kind, number } => {
            let words = words_of(kind);
            format!(in alloc; "{words}{number}")
        }
    }
}

// The marks, with commas between them.
fn marks_text(alloc: Global, marks: Vec<Mark>) -> Result<String, AllocError> {
    if marks.is_empty() {
        return String::from_str(alloc, "nothing");
    }
    let mut text = String::new(alloc);
    for mark in marks {
        if !text.is_empty() {
            text.push_str(", ")?;
        }
        text.push_str(mark_text(alloc, mark)?.as_str())?;
    }
    Ok(text)
}

// A line, as far as it is text.
fn line_text(line: &[u8]) -> &str {
    match str::from_utf8(line) {
        Ok(text) => text,
        Err(_) => "(bytes that are no text)",
    }
}

// The part on what a line would have to be.
fn wanted_text(alloc: Global, wanted: &Option<Text>) -> Result<String, AllocError> {
    match wanted {
        Some(line) => {
            let line = line.as_str();
            format!(in alloc; "wanted {line}")
        }
        None => Ok(String::new(alloc)),
    }
}

fn apart_text(
    alloc: Global,
    place: &Place<'_>,
    found: &[u8],
    marks: Vec<Mark>,
) -> Result<String, AllocError> {
    let number = place.line;
    let found = line_text(found);
    let wanted = wanted_text(alloc, &place.wanted)?;
    let marks = marks_text(alloc, marks)?;
    format!(in alloc; "line {number}\nfound {found}\n{wanted}may happen {marks}\n")
}

/// The text of a place where a transcript goes apart, with the marks of the events that may happen there.
pub fn told(alloc: Global, place: &Place<'_>, marks: Vec<Mark>) -> Result<Text, NoMemory> {
    match place.found {
        Some(found) => Ok(Text::from_string(apart_text(alloc, place, found, marks)?)),
        None => Ok(Text::of(alloc, "nothing goes apart\n")?),
    }
}
