//! The lines of a source, read one after another.

ghost use Rattle.std.specs.Prelude.{◌≡◌, IfOk};
ghost use Rattle.std.specs.List.{list_all};
ghost use Rattle.sw_record.specs.Grammar as grammar;
ghost use Rattle.sw_record.specs.Grammar.{Reads};

use serde_json::Value;
use std::alloc::Global;
use sw_data::NoMemory;
use sw_data::cut::first_part;
use sw_forms::{Flaw, LineCause, Part, RecordingError, error_at};

/// What the lines of a source are read as, one after another.
pub trait FromLines: Drop {
    ghost use Rattle.std.specs.Prelude.{◌≡◌, Result, IfOk};
    ghost use Rattle.serde_json.specs.Data.{Data};
    ghost use Rattle.serde_json.specs.View.{view};
    ghost use Rattle.sw_forms.specs.declared.flaw.Flaw.{Flaw};

    /// What was read with a line of this value, or the flaw of the line.
    ghost reads: { Self → Data → Result Self Flaw };

    /// What was read so far, with a line of this value.
    fn with_value(self, alloc: Global, value: &Value) -> Part<Self>
        ensures { IfOk result (λ reading. reading ≡ reads self (view value.now)) };
}

// What was read with a line that isn't blank.
#[tactic(auto, using(crate::proofs::LineLemmas::text_read_is, crate::proofs::LineLemmas::text_read_none))]
fn with_text<R: FromLines>(alloc: Global, so_far: R, line: &[u8]) -> Part<R>
    ensures { IfOk result (λ reading. reading ≡ grammar.text_read R.reads so_far line.now) }
{
    match Value::from_slice(alloc, line) {
        Ok(value) => so_far.with_value(alloc, &value),
        Err(error) if error.is_memory() => Err(NoMemory),
        Err(_) => Ok(Err(Flaw::Cause(LineCause::Json))),
    }
}

// Whether a byte is a space, a tab or a carriage return.
fn is_blank(byte: u8) -> bool
    ensures { result ≡ grammar.is_blank byte }
{
    byte == b' ' || byte == b'\t' || byte == b'\r'
}

fn is_blank_line(line: &[u8]) -> bool
    ensures { result ≡ list_all grammar.is_blank line.now }
{
    line.iter().all(|byte| is_blank(*byte))
}

// What was read with a line; a blank one is skipped.
#[tactic(auto, unfolding(crate::specs::Grammar::line_read))]
fn with_line<R: FromLines>(alloc: Global, so_far: R, line: &[u8]) -> Part<R>
    ensures { IfOk result (λ reading. reading ≡ grammar.line_read R.reads so_far line.now) }
{
    if is_blank_line(line) {
        return Ok(Ok(so_far));
    }
    with_text(alloc, so_far, line)
}

/// What the lines of these bytes are read as, blank lines being skipped but counted.
///
/// `BadLine` and `TooLarge` tell the first bad line, counted from 1, and of its flaws the one that
/// is tested first.
#[tactic(auto, unfolding(crate::specs::Grammar::lines_read))]
pub fn read_lines<R: FromLines>(
    alloc: Global,
    nothing: R,
    bytes: &[u8],
) -> Result<R, RecordingError>
    ensures { Reads result (grammar.lines_read R.reads nothing bytes.now) }
{
    let mut so_far = nothing;
    let mut number: u32 = 0;
    let mut left = Some(bytes);
    while let Some(text) = left {
        let (line, rest) = first_part(text, b'\n');
        let Some(next) = number.checked_add(1) else {
            return Err(RecordingError::NoMemory);
        };
        number = next;
        match with_line(alloc, so_far, line)? {
            Ok(reading) => so_far = reading,
            Err(why) => return Err(error_at(number, why)),
        }
        left = rest;
    }
    Ok(so_far)
}
