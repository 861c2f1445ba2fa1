//! The lines of a transcript.

ghost use Rattle.std.specs.Prelude.{◌≡◌, IfOk, string_bytes, flat_map};
ghost use Rattle.sw_print.specs.Transcript.{barred, rest_of_line, line_of_entry, further, refused_marks, end_line};

use crate::answers::{answer_text, notice_text};
use crate::events::mark;
use std::alloc::{AllocError, Global};
use sw_data::{End, Entry, Event, Notice};

// The notices of an entry in order, each behind its bar.
fn barred_notices(alloc: Global, notices: &[Notice]) -> Result<String, AllocError>
    ensures { IfOk result (λ text. string_bytes text ≡ flat_map barred notices.now) }
{
    let mut told = String::new(alloc);
    for notice in notices {
        let text = notice_text(alloc, *notice)?;
        told.push_str(" | ")?;
        told.push_str(text.as_str())?;
    }
    Ok(told)
}

// What a line has behind its arrow: the answer, the notices and the line feed.
fn rest_of_line(alloc: Global, entry: &Entry) -> Result<String, AllocError>
    ensures { IfOk result (λ text. string_bytes text ≡ rest_of_line entry.now) }
{
    let answer = answer_text(alloc, &entry.answer)?;
    let notices = barred_notices(alloc, entry.notices.as_slice())?;
    format!(in alloc; "{answer}{notices}\n")
}

/// The line of an entry.
pub fn line_of_entry(alloc: Global, entry: &Entry) -> Result<String, AllocError>
    ensures { IfOk result (λ text. string_bytes text ≡ line_of_entry entry.now) }
{
    let mark = mark(alloc, &entry.event)?;
    let rest = rest_of_line(alloc, entry)?;
    format!(in alloc; "{mark} -> {rest}")
}

// The marks of refused events, each behind a comma and a space.
fn further_marks(alloc: Global, events: &[Event]) -> Result<String, AllocError>
    ensures { IfOk result (λ text. string_bytes text ≡ flat_map further events.now) }
{
    let mut marks = String::new(alloc);
    for event in events {
        let mark = mark(alloc, event)?;
        marks.push_str(", ")?;
        marks.push_str(mark.as_str())?;
    }
    Ok(marks)
}

// The marks of the refused events, behind a space where there is one.
fn refused_marks(alloc: Global, events: &[Event]) -> Result<String, AllocError>
    ensures { IfOk result (λ text. string_bytes text ≡ refused_marks events.now) }
{
    match events.split_first() {
        None => Ok(String::new(alloc)),
        Some((first, rest)) => {
            let first = mark(alloc, first)?;
            let rest = further_marks(alloc, rest)?;
            format!(in alloc; " {first}{rest}")
        }
    }
}

// The last line where a fault of the disk refused events.
fn disk_line(alloc: Global, events: &[Event]) -> Result<String, AllocError>
    ensures { IfOk result (λ text. string_bytes text ≡ end_line (End.Disk events.now)) }
{
    let marks = refused_marks(alloc, events)?;
    format!(in alloc; "end disk{marks}\n")
}

// The last line where the journal had no room for an event.
fn full_line(alloc: Global, event: &Event) -> Result<String, AllocError>
    ensures { IfOk result (λ text. string_bytes text ≡ end_line (End.Full event.now)) }
{
    let mark = mark(alloc, event)?;
    format!(in alloc; "end full {mark}\n")
}

/// The last line.
pub fn end_line(alloc: Global, end: &End) -> Result<String, AllocError>
    ensures { IfOk result (λ text. string_bytes text ≡ end_line end.now) }
{
    match end {
        End::Done => String::from_str(alloc, "end done\n"),
        End::Stalled(lane) => format!(in alloc; "end stalled {lane}\n"),
        End::Disk(events) => disk_line(alloc, events.as_slice()),
        End::Full(event) => full_line(alloc, event),
        End::Spent => String::from_str(alloc, "end spent\n"),
    }
}
