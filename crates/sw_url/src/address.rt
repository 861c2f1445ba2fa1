//! Resolved, script and scope addresses.

ghost use Rattle.std.specs.Prelude.{◌≡◌, ◌↔◌, List, ℕ, Option, take, Some, None, Ok, Err, ok_or, option_map, option_copied, IfOk, IsErrOf, IsNone, IsSome, IsTrue};
ghost use Rattle.url.specs.Parser.{parse_url};
ghost use Rattle.url.specs.Parts.{Parts, serialize};
ghost use Rattle.sw_data.specs.Addresses.{Unparsed, Scheme, EscapedSlash, accepted, address_of, has_escaped_slash, is_escaped_slash, is_within_bound, no_fragment, parsed_against, when_parsed, resolved, scope_address, scope_bound, script_address, without_fragment, without_query};
ghost use Rattle.sw_url.specs.Answers.{Answers, UnlessNoMemory};
ghost use Rattle.sw_url.specs.HttpAddress.{http_address};

use crate::fault::UrlFault;
use crate::parsing::{is_http, joined, parsed, parsed_against};
use std::alloc::Global;
use sw_data::Text;
use url::{Position, Url};

/// The serialized address of a text against a base, with its fragment (URL, 4.4 and 4.5).
///
/// `Unparsed` where the base doesn't parse, or the text doesn't parse against it.
pub fn resolve(alloc: Global, text: &Text, base: &Text) -> Result<Text, UrlFault>
    ensures ok { IfOk result (λ address. resolved text.now base.now ≡ Some address) }
    ensures unparsed { UnlessNoMemory result (IsErrOf result UrlFault.Unparsed
        ↔ (resolved text.now base.now ≡ None)) }
    ensures scheme { ¬ (IsErrOf result UrlFault.Scheme) }
    ensures escaped_slash { ¬ (IsErrOf result UrlFault.EscapedSlash) }

    // A serialized address is resolved to itself, against any base that parses.
    ensures again { IfOk result (λ address. (other : List ℕ) → IsSome (address_of other)
        → resolved address other ≡ Some address) }
{
    resolved(alloc, text.as_str(), base.as_str())
}

/// The serialized address that a text is, with its fragment (URL, 4.4 and 4.5).
///
/// `Unparsed` where the text doesn't parse.
pub fn serialized(alloc: Global, text: &Text) -> Result<Text, UrlFault>
    ensures { Answers result (ok_or (option_map serialize (address_of text.now)) Unparsed) }
{
    let url = parsed(alloc, text.as_str())?;
    Ok(Text::of(alloc, url.as_str())?)
}

/// The script address of a text against a base, without its fragment (Service Workers, "Start
/// Register").
///
/// `Unparsed` as in `resolve`, then `Scheme` where the scheme is neither http nor https, then
/// `EscapedSlash` where the path holds `%2f` or `%5c` in any case.
#[tactic(auto, using(crate::proofs::AgainLemmas::again), unfolding(sw_data::specs::Addresses::script_address))]
pub fn script_url(alloc: Global, text: &Text, base: &Text) -> Result<Text, UrlFault>
    ensures ok { IfOk result (λ address. script_address text.now base.now ≡ Ok address) }
    ensures unparsed { UnlessNoMemory result (IsErrOf result UrlFault.Unparsed
        ↔ (script_address text.now base.now ≡ Err Unparsed)) }
    ensures scheme { UnlessNoMemory result (IsErrOf result UrlFault.Scheme
        ↔ (script_address text.now base.now ≡ Err Scheme)) }
    ensures escaped_slash { UnlessNoMemory result (IsErrOf result UrlFault.EscapedSlash
        ↔ (script_address text.now base.now ≡ Err EscapedSlash)) }

    // An accepted address is accepted again, as it is, against any base that parses.
    ensures again { IfOk result (λ address. (other : List ℕ) → IsSome (address_of other)
        → script_address address other ≡ Ok address) }
{
    accepted(alloc, text.as_str(), base.as_str())
}

/// The scope address of a text against a base; where no text is given, that of `./` against the
/// script (Service Workers, "Start Register"). It refuses as `script_url` does.
#[tactic(auto, using(crate::proofs::AgainLemmas::again, crate::proofs::AgainLemmas::default_within), unfolding(sw_data::specs::Addresses::scope_address))]
pub fn scope_url(
    alloc: Global,
    text: Option<&Text>,
    script: &Text,
    base: &Text,
) -> Result<Text, UrlFault>
    ensures ok { IfOk result (λ address.
        scope_address (option_copied text.entry) script.now base.now ≡ Ok address) }
    ensures unparsed { UnlessNoMemory result (IsErrOf result UrlFault.Unparsed
        ↔ (scope_address (option_copied text.entry) script.now base.now ≡ Err Unparsed)) }
    ensures scheme { UnlessNoMemory result (IsErrOf result UrlFault.Scheme
        ↔ (scope_address (option_copied text.entry) script.now base.now ≡ Err Scheme)) }
    ensures escaped_slash { UnlessNoMemory result (IsErrOf result UrlFault.EscapedSlash
        ↔ (scope_address (option_copied text.entry) script.now base.now ≡ Err EscapedSlash)) }

    // An accepted address is accepted again, as it is, against any base that parses.
    ensures again { IfOk result (λ address. (other : List ℕ) → IsSome (address_of other)
        → script_address address other ≡ Ok address) }

    // The default scope of a script is within the bound that it has without an allowed value.
    ensures default_within { IsNone text.entry → IfOk result (λ scope. (bound : List ℕ)
        → scope_bound script.now None ≡ Some bound → IsTrue (is_within_bound scope bound)) }
{
    match text {
        Some(text) => accepted(alloc, text.as_str(), base.as_str()),
        None => accepted(alloc, "./", script.as_str()),
    }
}

/// The http or https address that a text is, without its fragment (URL, 4.4 and 4.5).
///
/// `Unparsed` where the text doesn't parse, then `Scheme` where the scheme is neither http nor
/// https.
#[tactic(auto, unfolding(crate::specs::HttpAddress::http_address))]
pub fn http_address(alloc: Global, text: &str) -> Result<Text, UrlFault>
    ensures answer { Answers result (http_address text.now) }
    ensures escaped_slash { ¬ (IsErrOf result UrlFault.EscapedSlash) }
{
    let url = parsed(alloc, text)?;
    if !is_http(&url) {
        return Err(UrlFault::Scheme);
    }
    Ok(Text::of(alloc, bare_text(&url))?)
}

/// The address without its fragment, as bytes (URL, 4.5, "exclude fragment"). It takes no memory.
pub fn without_fragment(address: &Text) -> &[u8]
    ensures { result.now ≡ without_fragment address.now }
{
    sw_data::address::without_fragment(address.as_bytes())
}

/// The address without fragment and query, as bytes. It takes no memory.
pub fn without_query(address: &Text) -> &[u8]
    ensures { result.now ≡ without_query address.now }
{
    sw_data::address::without_query(address.as_bytes())
}

// The serialized address of a text against a base.
#[tactic(auto, unfolding(sw_data::specs::Addresses::resolved))]
fn resolved(alloc: Global, text: &str, base: &str) -> Result<Text, UrlFault>
    ensures answer { Answers result (ok_or (resolved text.now base.now) Unparsed) }
    ensures again { IfOk result (λ address. (other : List ℕ) → IsSome (address_of other)
        → resolved address other ≡ Some address) }
{
    let base = parsed(alloc, base)?;
    let url = joined(text, &base)?;
    Ok(Text::of(alloc, url.as_str())?)
}

// The address of a text against a base, where a worker may have it as script or scope.
fn accepted(alloc: Global, text: &str, base: &str) -> Result<Text, UrlFault>
    ensures answer { Answers result (accepted (parsed_against text.now base.now)) }
    ensures parses { IfOk result (λ address. (other : Option Parts)
        → when_parsed (parse_url other address)
        ≡ option_map no_fragment (parsed_against text.now base.now)) }
{
    let url = parsed_against(alloc, text, base)?;
    if !is_http(&url) {
        return Err(UrlFault::Scheme);
    }
    if has_escaped_slash(url.path().as_bytes()) {
        return Err(UrlFault::EscapedSlash);
    }
    Ok(Text::of(alloc, bare_text(&url))?)
}

// The text of the address without its fragment.
fn bare_text(url: &Url) -> &str
    ensures { result.now ≡ serialize (no_fragment url.now) }
{
    url.slice(Position::BeforeScheme, Position::AfterQuery)
}

#[tactic(auto, unfolding(sw_data::specs::Addresses::has_escaped_slash))]
fn has_escaped_slash(path: &[u8]) -> bool
    ensures { result ≡ has_escaped_slash path.now }
{
    let mut rest = path;
    while let [_, tail @ ..] = rest {
        if is_escaped_slash(first_three(rest)) {
            return true;
        }
        rest = tail;
    }
    false
}

#[tactic(auto, using(std::proofs::lemmas::List::take_min))]
fn first_three(bytes: &[u8]) -> &[u8]
    ensures { result.now ≡ take 3 bytes.now }
{
    bytes.split_at(bytes.len().min(3)).0
}

fn is_escaped_slash(three: &[u8]) -> bool
    ensures { result ≡ is_escaped_slash three.now }
{
    three.eq_ignore_ascii_case(b"%2f") || three.eq_ignore_ascii_case(b"%5c")
}
