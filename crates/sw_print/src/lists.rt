//! The texts of names and of lists.

ghost use Rattle.std.specs.Prelude.{◌≡◌, IfOk, string_bytes};
ghost use Rattle.json.specs.Print.{quoted};
ghost use Rattle.sw_print.specs.Transcript.{listed, numbered};

use serde_json::Value;
use std::alloc::{AllocError, Global};
use sw_data::Text;

// How many members of a list are printed.
const PRINTED: usize = 16;

/// A name as a JSON string.
pub fn quoted(alloc: Global, name: &Text) -> Result<String, AllocError>
    ensures { IfOk result (λ text. string_bytes text ≡ quoted name.now) }
{
    Value::try_from_str(alloc, name.as_str())?.to_string(alloc)
}

/// The count of a list of numbers, then its first sixteen with this letter, each behind a space.
pub fn listed_numbers(alloc: Global, letter: &str, numbers: &[u32]) -> Result<String, AllocError>
    ensures { IfOk result (λ text. string_bytes text ≡ listed (numbered letter.now) numbers.now) }
{
    let count = numbers.len();
    let mut line = format!(in alloc; "{count}")?;
    let (shown, _) = numbers.split_at(count.min(PRINTED));
    for number in shown {
        let member = format!(in alloc; " {letter}{number}")?;
        line.push_str(member.as_str())?;
    }
    Ok(line)
}

/// The count of a list of names, then its first sixteen as JSON strings, each behind a space.
pub fn listed_names(alloc: Global, names: &[Text]) -> Result<String, AllocError>
    ensures { IfOk result (λ text. string_bytes text ≡ listed quoted names.now) }
{
    let count = names.len();
    let mut line = format!(in alloc; "{count}")?;
    let (shown, _) = names.split_at(count.min(PRINTED));
    for name in shown {
        let member = quoted(alloc, name)?;
        line.push_str(" ")?;
        line.push_str(member.as_str())?;
    }
    Ok(line)
}
