//! The text of what has come of the lines of a roster.

ghost use Rattle.std.specs.Prelude.{◌≡◌, IfOk, codes, string_bytes};
ghost use Rattle.sw_readers.specs.declared.inputs.RosterLine as lines;
ghost use Rattle.sw_print.specs.Transcript.{listed, numbered};
ghost use Rattle.sw_roster.specs.Texts as texts;
ghost use Rattle.sw_roster.specs.declared.beats.Beat.TheVariants as beat;

use crate::beats::{Beat, RosterAnswer, RosterEnd};
use std::alloc::{AllocError, Global};
use sw_data::{NoMemory, Text};
use sw_print::print_entry;
use sw_readers::RosterLine;

// How many members of a list are printed.
const PRINTED: usize = 16;

// What is asked.
fn asked_word(line: &RosterLine) -> &'static str
    ensures { result.now ≡ texts.asked_word line.now }
{
    match line {
        RosterLine::Action(_) => "",
        RosterLine::Focus(_) => "focus",
        RosterLine::Get { .. } => "get",
        RosterLine::List { .. } => "list",
    }
}

// The count of clients, then the first sixteen, each behind a space.
fn listed_clients(alloc: Global, clients: &[u32]) -> Result<String, AllocError>
    ensures { IfOk result (λ text. string_bytes text
        ≡ listed (numbered (codes "c")) clients.now) }
{
    let count = clients.len();
    let mut line = format!(in alloc; "{count}")?;
    let (shown, _) = clients.split_at(count.min(PRINTED));
    for client in shown {
        let member = format!(in alloc; " c{client}")?;
        line.push_str(member.as_str())?;
    }
    Ok(line)
}

// What is answered.
fn told_text(alloc: Global, answer: &RosterAnswer) -> Result<String, AllocError>
    ensures { IfOk result (λ text. string_bytes text ≡ texts.told_text answer.now) }
{
    match answer {
        RosterAnswer::Ok => String::from_str(alloc, "ok"),
        RosterAnswer::Client(client) => format!(in alloc; "c{client}"),
        RosterAnswer::Undefined => String::from_str(alloc, "undefined"),
        RosterAnswer::Clients(clients) => listed_clients(alloc, clients.as_slice()),
        RosterAnswer::NoClient => String::from_str(alloc, "NoClient"),
        RosterAnswer::NoWorker => String::from_str(alloc, "NoWorker"),
    }
}

// The line of what was asked.
fn asked_text(alloc: Global, line: &RosterLine, answer: &RosterAnswer) -> Result<Text, NoMemory>
    ensures { IfOk result (λ text. text ≡ texts.beat_text (beat.Asked line.now answer.now)) }
{
    let word = asked_word(line);
    let told = told_text(alloc, answer)?;
    let text = format!(in alloc; "roster {word} -> {told}\n")?;
    Ok(Text::from_string(text))
}

// The line of a beat.
fn beat_text(alloc: Global, beat: &Beat) -> Result<Text, NoMemory>
    ensures { IfOk result (λ text. text ≡ texts.beat_text beat.now) }
{
    match beat {
        Beat::Happened(entry) => print_entry(alloc, entry),
        Beat::Asked { line, answer } => asked_text(alloc, line, answer),
    }
}

// The last line.
fn end_text(end: RosterEnd) -> &'static str
    ensures { result.now ≡ texts.end_text end }
{
    match end {
        RosterEnd::Done => "end done\n",
        RosterEnd::Stalled => "end stalled 0\n",
        RosterEnd::Spent => "end spent\n",
    }
}

/// The text of what has come of the lines of a roster and of how that ended, in UTF-8: a line for each beat in order, and
/// the last line.
pub fn print_roster(alloc: Global, beats: &[Beat], end: RosterEnd) -> Result<Text, NoMemory>
    ensures { IfOk result (λ text. text ≡ texts.roster_text beats.now end) }
{
    let mut text = String::new(alloc);
    for beat in beats {
        let line = beat_text(alloc, beat)?;
        text.push_str(line.as_str())?;
    }
    text.push_str(end_text(end))?;
    Ok(Text::from_string(text))
}
