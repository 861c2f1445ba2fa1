//! A transcript is walked along a host, line by line.

use std::alloc::Global;
use sw_audit::{Ending, Host, Machine, Mark, read_mark};
use sw_data::cut::before;
use sw_data::{Entry, NoMemory, Text};
use sw_print::print_entry;

/// Where a transcript goes apart.
#[derive(Drop)]
pub struct Place<'a> {
    /// The number of the line, counted from 1.
    pub line: u64,
    /// The line, without its line feed. None where nothing goes apart.
    pub found: Option<&'a [u8]>,
    /// What it would have to be for the event that it names; for a line that names none, the end that the history has
    /// come to. None where that may not stand there.
    pub wanted: Option<Text>,
}

// What follows the first bytes of a text, where it begins with them.
fn behind<'a>(text: &'a [u8], front: &[u8]) -> Option<&'a [u8]> {
    if text.len() < front.len() {
        return None;
    }
    let (start, rest) = text.split_at(front.len());
    if start == front { Some(rest) } else { None }
}

// The line of an entry, which is let go.
fn line_of(alloc: Global, entry: Entry) -> Result<Text, NoMemory> {
    let line = print_entry(alloc, &entry);
    drop(entry);
    line
}

// The line of the event that a mark names, which happens. None where it may not.
fn happen(alloc: Global, host: &mut Host, mark: Mark) -> Result<Option<Text>, NoMemory> {
    match host.happen(alloc, mark) {
        Ok(Some(entry)) => match line_of(alloc, entry) {
            Ok(line) => Ok(Some(line)),
            Err(NoMemory) => Err(NoMemory),
        },
        Ok(None) => Ok(None),
        Err(NoMemory) => Err(NoMemory),
    }
}

// The line of the restart.
fn first(alloc: Global, host: &Host) -> Result<Option<Text>, NoMemory> {
    match host.opening(alloc) {
        Ok(entry) => match line_of(alloc, entry) {
            Ok(line) => Ok(Some(line)),
            Err(NoMemory) => Err(NoMemory),
        },
        Err(NoMemory) => Err(NoMemory),
    }
}

// The last line, where the history has come to an end.
fn last(alloc: Global, host: &Host) -> Result<Option<Text>, NoMemory> {
    match host.ending() {
        Some(Ending::Done) => Ok(Some(Text::of(alloc, "end done\n")?)),
        Some(Ending::Stalled(lane)) => Ok(Some(Text::from_string(format!(in alloc;
            "end stalled {lane}\n"
        )?))),
        None => Ok(None),
    }
}

// What the line that a text begins with would have to be.
fn wanted(
    alloc: Global,
    host: &mut Host,
    line: u64,
    text: &[u8],
) -> Result<Option<Text>, NoMemory> {
    if line == 1 {
        return first(alloc, host);
    }
    match read_mark(text) {
        Some(mark) => happen(alloc, host, mark),
        None => last(alloc, host),
    }
}

// What follows the line that a text begins with, where that is the one which is wanted.
fn passed<'a>(text: &'a [u8], wanted: &Option<Text>) -> Option<&'a [u8]> {
    match wanted {
        Some(line) => behind(text, line.as_bytes()),
        None => None,
    }
}

// Whether a text is at its end with this line.
fn ends(text: &[u8], line: u64) -> bool {
    line != 1 && read_mark(text).is_none()
}

// Where a transcript goes apart from a host that has just restarted, which is let go at its end.
fn walked<'a>(alloc: Global, host: &mut Host, transcript: &'a [u8]) -> Result<Place<'a>, NoMemory> {
    let mut rest = transcript;
    for line in 1..u64::MAX {
        let wanted = wanted(alloc, host, line, rest)?;
        match passed(rest, &wanted) {
            Some(next) => {
                if ends(rest, line) && next.is_empty() {
                    return Ok(whole(line));
                }
                if ends(rest, line) {
                    return Ok(apart(line.saturating_add(1), next, None));
                }
                rest = next;
            }
            None => return Ok(apart(line, rest, wanted)),
        }
    }
    Ok(whole(u64::MAX))
}

// Nothing goes apart up to the last line.
fn whole<'a>(line: u64) -> Place<'a> {
    Place {
        line,
        found: None,
        wanted: None,
    }
}

// The line that a text begins with goes apart.
fn apart(line: u64, text: &[u8], wanted: Option<Text>) -> Place<'_> {
    Place {
        line,
        found: Some(before(text, b'\n')),
        wanted,
    }
}

/// Where a transcript goes apart from a host that has just restarted.
pub fn place_of<'a>(
    alloc: Global,
    mut host: Host,
    transcript: &'a [u8],
) -> Result<Place<'a>, NoMemory> {
    let place = walked(alloc, &mut host, transcript);
    drop(host);
    place
}

// The host has come to before a line, along the lines of a transcript.
fn walk_to(alloc: Global, host: &mut Host, transcript: &[u8], end: u64) -> Result<(), NoMemory> {
    let mut rest = transcript;
    for line in 1..end {
        let wanted = wanted(alloc, host, line, rest)?;
        match passed(rest, &wanted) {
            Some(next) => rest = next,
            None => return Ok(()),
        }
    }
    Ok(())
}

/// The marks of the events that may happen before a line of a transcript, on a host that has just restarted.
pub fn marks_before(
    alloc: Global,
    mut host: Host,
    transcript: &[u8],
    line: u64,
) -> Result<Vec<Mark>, NoMemory> {
    let marks = match walk_to(alloc, &mut host, transcript, line) {
        Ok(()) => host.marks(alloc),
        Err(NoMemory) => Err(NoMemory),
    };
    drop(host);
    marks
}
