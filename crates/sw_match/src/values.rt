//! Combined values of a field.

ghost use Rattle.std.specs.Prelude.{◌≡◌, ◌<◌, ◌++◌, ◌∷◌, [], MatchOption, IfOk, length};
ghost use Rattle.sw_data.specs.Headers.{combined, values_of};
ghost use Rattle.sw_rules.specs.Matching.{same_values};
ghost use Rattle.sw_match.specs.Left.{further};

use crate::stream::{Stream, same_bytes};
use std::alloc::Global;
use sw_data::header::same_name;
use sw_data::{Header, NoMemory, Text};

// The first line of a field, and the lines behind it.
pub(crate) fn first_line<'a>(
    headers: &'a [Header],
    name: &[u8],
) -> Option<(&'a Header, &'a [Header])>
    ensures { MatchOption result (values_of name.now headers.now ≡ [])
        (λ found.
        (values_of name.now headers.now ≡ found.0.now.value ∷ values_of name.now found.1.now)
        × (length found.1.now < length headers.now)) }
{
    let mut left = headers;
    while let [line, rest @ ..] = left {
        if same_name(line.name.as_bytes(), name) {
            return Some((line, rest));
        }
        left = rest;
    }
    None
}

/// The values of a field in order, joined by a comma and a space (Fetch, 2.2.2, "get"); none where
/// no line has the name.
#[tactic(auto, using(crate::proofs::ValueLemmas::combined_none, crate::proofs::ValueLemmas::combined_first))]
pub fn combined(alloc: Global, headers: &[Header], name: &Text) -> Result<Option<Text>, NoMemory>
    ensures { IfOk result (λ value. value ≡ combined name.now headers.now) }
{
    match first_line(headers, name.as_bytes()) {
        Some((line, rest)) => Ok(Some(joined(alloc, line.value.as_str(), rest, name.as_bytes())?)),
        None => Ok(None),
    }
}

// A value, and the further values of a field behind it.
fn joined(alloc: Global, value: &str, headers: &[Header], name: &[u8]) -> Result<Text, NoMemory>
    ensures { IfOk result (λ text. text ≡ value.now ++ further name.now headers.now) }
{
    let mut text = String::from_str(alloc, value)?;
    for line in headers {
        if same_name(line.name.as_bytes(), name) {
            text.push_str(", ")?;
            text.push_str(line.value.as_str())?;
        }
    }
    Ok(Text::from_string(text))
}

/// Two lists of headers have the same combined value of a field, an absent one being equal to an
/// absent one only. It takes no memory.
#[tactic(auto, using(crate::proofs::ValueLemmas::combined_none, crate::proofs::ValueLemmas::combined_first))]
pub fn same_values(left: &[Header], right: &[Header], name: &[u8]) -> bool
    ensures { result ≡ same_values left.now right.now name.now }
{
    match (first_line(left, name), first_line(right, name)) {
        (Some((first, rest)), Some((other, others))) => same_bytes(
            Stream::new(first.value.as_bytes(), rest, name),
            Stream::new(other.value.as_bytes(), others, name),
        ),
        (None, None) => true,
        _ => false,
    }
}
