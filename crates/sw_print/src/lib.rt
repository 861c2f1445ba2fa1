//! The texts of the transcript and of what is kept.
//!
//! A history and its end are printed as one line for each entry and a last line for the end. The definition of the
//! text is `transcript`. What is kept is printed as the text `shown`. Each function here gives the part of its name.
#![tactic(auto)]

ghost use Rattle.std.specs.Prelude.{◌≡◌, IfOk};
ghost use Rattle.sw_print.specs.Showing.{shown};
ghost use Rattle.sw_print.specs.Transcript.{line_of_entry, transcript};

use kept::kept_text;
use std::alloc::Global;
use sw_data::{End, Entry, Kept, NoMemory, Text};

mod answers;
mod events;
mod faults;
mod kept;
mod lines;
mod lists;

/// The transcript of a history and its end, in UTF-8: a line for each entry in order, and the last line.
pub fn print_history(alloc: Global, history: &[Entry], end: &End) -> Result<Text, NoMemory>
    ensures { IfOk result (λ text. text ≡ transcript history.now end.now) }
{
    let mut text = String::new(alloc);
    for entry in history {
        let line = lines::line_of_entry(alloc, entry)?;
        text.push_str(line.as_str())?;
    }
    let last = lines::end_line(alloc, end)?;
    text.push_str(last.as_str())?;
    Ok(Text::from_string(text))
}

/// The line of an entry, in UTF-8.
pub fn print_entry(alloc: Global, entry: &Entry) -> Result<Text, NoMemory>
    ensures { IfOk result (λ text. text ≡ line_of_entry entry.now) }
{
    Ok(Text::from_string(lines::line_of_entry(alloc, entry)?))
}

/// What is kept, as lines in UTF-8: the count of the registrations and the lines of each, then the count of the caches
/// and the line of each, in kept order.
pub fn print_kept(alloc: Global, kept: &Kept) -> Result<Text, NoMemory>
    ensures { IfOk result (λ text. text ≡ shown kept.now) }
{
    Ok(Text::from_string(kept_text(alloc, kept)?))
}
