//! The members of Vary (HTTP Semantics, RFC 9110, 12.5.5). No call takes memory.

ghost use Rattle.std.specs.Prelude.{◌≡◌, ◌&&◌, ◌||◌, ◌==◌, not, codes, length};
ghost use Rattle.std.specs.List.{list_any, list_all, slice_split};
ghost use Rattle.sw_data.specs.Headers.{same_name, trimmed};
ghost use Rattle.sw_rules.specs.Matching.{vary_allows, varies_on_all};
ghost use Rattle.sw_rules.specs.Matching as rules;
ghost use Rattle.sw_match.specs.Left.{agrees, is_star};

use crate::values::same_values;
use sw_data::cut::first_part;
use sw_data::header::{same_name, trimmed};
use sw_data::{Header, Response};

/// A member of the Vary value is `*`.
#[tactic(auto, using(crate::proofs::VaryLemmas::star_lines))]
pub fn varies_on_all(headers: &[Header]) -> bool
    ensures { result ≡ varies_on_all headers.now }
{
    any_line_has_star(headers)
}

fn any_line_has_star(headers: &[Header]) -> bool
    ensures { result ≡ list_any (λ line. same_name line.name (codes "vary")
        && list_any is_star (slice_split (λ b. b == 44) line.value)) headers.now }
{
    headers.iter().any(|line| {
        same_name(line.name.as_bytes(), b"vary") && has_star(line.value.as_bytes())
    })
}

fn has_star(value: &[u8]) -> bool
    ensures { result ≡ list_any is_star (slice_split (λ b. b == 44) value.now) }
{
    let mut left = Some(value);
    while let Some(text) = left {
        let (part, rest) = first_part(text, b',');
        if same_name(b"*", trimmed(part)) {
            return true;
        }
        left = rest;
    }
    false
}

// The Vary value of a response lets a query have it that an item's request had.
#[tactic(auto, using(crate::proofs::VaryLemmas::allow_lines))]
pub(crate) fn vary_allows(query: &[Header], item: &[Header], response: &Response) -> bool
    ensures { result ≡ vary_allows query.now item.now response.now }
{
    !varies_on_all(response.headers.as_slice())
        && all_lines_agree(query, item, response.headers.as_slice())
}

fn all_lines_agree(query: &[Header], item: &[Header], headers: &[Header]) -> bool
    ensures { result ≡ list_all (λ line. not (same_name line.name (codes "vary"))
        || list_all (agrees query.now item.now)
        (slice_split (λ b. b == 44) line.value)) headers.now }
{
    headers.iter().all(|line| {
        !same_name(line.name.as_bytes(), b"vary") || all_agree(query, item, line.value.as_bytes())
    })
}

fn all_agree(query: &[Header], item: &[Header], value: &[u8]) -> bool
    ensures { result ≡ list_all (agrees query.now item.now)
        (slice_split (λ b. b == 44) value.now) }
{
    let mut left = Some(value);
    while let Some(text) = left {
        let (part, rest) = first_part(text, b',');
        if !agrees(query, item, trimmed(part)) {
            return false;
        }
        left = rest;
    }
    true
}

// Both have the same combined value of a field, if a field is named.
fn agrees(query: &[Header], item: &[Header], name: &[u8]) -> bool
    ensures { result ≡ (length name.now == 0
        || rules.same_values query.now item.now name.now) }
{
    name.is_empty() || same_values(query, item, name)
}
