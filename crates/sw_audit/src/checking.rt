//! A transcript, checked line by line.

ghost use Rattle.std.specs.Prelude.{◌≡◌, ◌<◌, ◌++◌, ◌∷◌, [], ℕ, List, length, IfOk, IfSome, Some, None};
ghost use Rattle.sw_audit.specs.Accepted.{Says};
ghost use Rattle.sw_audit.specs.Continuing.{Continues, Decides, Opens, SameLeft, end_of};
ghost use Rattle.sw_audit.specs.Marks.{IsRead};
ghost use Rattle.sw_data.specs.declared.histories.Entry as past;
ghost use Rattle.sw_data.specs.declared.recordings.Recording.{Recording};
ghost use Rattle.sw_data.specs.declared.storage.Kept.{Kept};
ghost use Rattle.sw_print.specs.Transcript.{end_line, line_of_entry};
ghost use Rattle.sw_rules.specs.History.{IsOpening, moved};
ghost use Rattle.sw_rules.specs.Restart.{restart};
ghost use Rattle.sw_rules.specs.State.{State};
ghost use Rattle.sw_rules.specs.Storage.{IsMade};

use crate::machines::{Ending, Machine};
use crate::marks::{Mark, read_mark};
use crate::verdicts::Verdict;
use std::alloc::Global;
use sw_data::{Entry, NoMemory, Text};
use sw_print::print_entry;

// What follows a front of a text. None exactly where the text doesn't begin with it.
fn follows<'a>(text: &'a [u8], front: &[u8]) -> Option<&'a [u8]>
    ensures some { IfSome result (λ rest. text.now ≡ front.now ++ rest.now) }
    ensures none { result ≡ None → (rest : List ℕ) → text.now ≡ front.now ++ rest → ⊥ }
{
    if text.len() < front.len() {
        return None;
    }
    let (start, rest) = text.split_at(front.len());
    if start == front { Some(rest) } else { None }
}

// The line of an entry, which is let go. A larger function that let it go itself at an early end would cost the check
// minutes.
fn line_of(alloc: Global, entry: Entry) -> Result<Text, NoMemory>
    ensures { IfOk result (λ line. line ≡ line_of_entry entry) }
{
    let line = print_entry(alloc, &entry);
    drop(entry);
    line
}

// The last line of this end.
fn last_line(alloc: Global, ending: Ending) -> Result<Text, NoMemory>
    ensures { IfOk result (λ line. line ≡ end_line (end_of ending)) }
{
    match ending {
        Ending::Done => Text::of(alloc, "end done\n"),
        Ending::Stalled(lane) => Ok(Text::from_string(format!(in alloc; "end stalled {lane}\n")?)),
    }
}

// The event that a mark names happens, and its line is taken off the text. None exactly where the text doesn't go on so.
fn line<'a, M: Machine>(
    alloc: Global,
    machine: &mut M,
    mark: Mark,
    text: &'a [u8],
) -> Result<Option<&'a [u8]>, NoMemory>
    requires { IsRead text.now (Some mark) }
    ensures goes { (recording : Recording) (before : List past.Entry) (state : State)
        → M.stands machine.old recording before state → IfOk result (λ rest. IfSome rest (λ rest.
        (entry : past.Entry)
        × M.stands machine.new recording (before ++ entry ∷ []) (moved state entry)
        × SameLeft recording before state text.now (before ++ entry ∷ []) (moved state entry)
        rest.now)) }
    ensures shorter { IfOk result (λ rest. IfSome rest (λ rest.
        length rest.now < length text.now)) }
    ensures none { (recording : Recording) (before : List past.Entry) (state : State)
        → M.stands machine.old recording before state → IfOk result (λ rest. rest ≡ None
        → (count : ℕ) → Continues recording before state text.now count → ⊥) }
{
    machine.numbers();
    match machine.happen(alloc, mark) {
        Ok(Some(entry)) => match line_of(alloc, entry) {
            Ok(printed) => match follows(text, printed.as_bytes()) {
                Some(rest) => Ok(Some(rest)),
                None => Ok(None),
            },
            Err(NoMemory) => Err(NoMemory),
        },
        Ok(None) => Ok(None),
        Err(NoMemory) => Err(NoMemory),
    }
}

// What is said of a text that has no mark, behind so many entries.
fn last<M: Machine>(
    alloc: Global,
    machine: &M,
    text: &[u8],
    entries: u64,
) -> Result<Verdict, NoMemory>
    requires { IsRead text.now None }
    ensures { (recording : Recording) (before : List past.Entry) (state : State)
        → M.stands machine.now recording before state → length before ≡ entries
        → IfOk result (Decides recording before state text.now) }
{
    machine.numbers();
    match machine.ending() {
        Some(ending) => match last_line(alloc, ending) {
            Ok(printed) => {
                if text == printed.as_bytes() {
                    Ok(Verdict::Yes { entries })
                } else {
                    Ok(Verdict::No)
                }
            }
            Err(NoMemory) => Err(NoMemory),
        },
        None => Ok(Verdict::No),
    }
}

// What is said of what is left of a text behind one entry.
fn decide<M: Machine>(alloc: Global, machine: &mut M, text: &[u8]) -> Result<Verdict, NoMemory>
    ensures { (recording : Recording) (before : List past.Entry) (state : State)
        → M.stands machine.old recording before state → length before ≡ 1
        → IfOk result (Decides recording before state text.now) }
{
    let mut rest = text;
    let mut entries: u64 = 1;
    'lines: loop {
        match read_mark(rest) {
            Some(mark) => match line(alloc, machine, mark, rest) {
                Ok(Some(next)) => {
                    rest = next;
                    entries += 1;
                }
                Ok(None) => return Ok(Verdict::No),
                Err(NoMemory) => return Err(NoMemory),
            },
            None => return last(alloc, machine, rest, entries),
        }
    }
}

// The line of the restart into the state that a machine is in.
fn first_line<M: Machine>(alloc: Global, machine: &M) -> Result<Text, NoMemory>
    ensures { (recording : Recording) (before : List past.Entry) (state : State)
        → M.stands machine.now recording before state → IfOk result (λ line.
        (entry : past.Entry) × Opens state entry × (line ≡ line_of_entry entry)) }
{
    match machine.opening(alloc) {
        Ok(entry) => line_of(alloc, entry),
        Err(NoMemory) => Err(NoMemory),
    }
}

// Checks a transcript against a machine that has just restarted from a content: yes exactly where the transcript is that
// of a legal history from the content that follows the recording and is complete or stalled, with the number of its
// entries, and no exactly where there is no such history.
pub(crate) fn check<M: Machine>(
    alloc: Global,
    machine: &mut M,
    transcript: &[u8],
) -> Result<Verdict, NoMemory>
    ensures { (base : Kept) (recording : Recording) → IsMade base
        → ((opening : past.Entry) → IsOpening base opening
        → M.stands machine.old recording (opening ∷ []) (restart base))
        → IfOk result (Says base recording transcript.now) }
{
    match first_line(alloc, machine) {
        Ok(printed) => match follows(transcript, printed.as_bytes()) {
            Some(rest) => decide(alloc, machine, rest),
            None => Ok(Verdict::No),
        },
        Err(NoMemory) => Err(NoMemory),
    }
}
