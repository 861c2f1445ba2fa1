//! Parsed addresses.

ghost use Rattle.std.specs.Prelude.{◌≡◌, ok_or};
ghost use Rattle.url.specs.Origin.{is_http};
ghost use Rattle.url.specs.Parser.{IsOutOfRoom};
ghost use Rattle.sw_data.specs.Addresses.{Unparsed, address_of, joined, parsed_against};
ghost use Rattle.sw_url.specs.Answers.{Answers};

use crate::fault::UrlFault;
use std::alloc::Global;
use url::{ParseError, Url};

// Want of memory, or the refusal of the text.
fn fault_of(error: ParseError) -> UrlFault
    ensures unparsed { result ≡ UrlFault.Unparsed → ¬ (IsOutOfRoom error) }
    ensures scheme { ¬ (result ≡ UrlFault.Scheme) }
    ensures escaped_slash { ¬ (result ≡ UrlFault.EscapedSlash) }
{
    match error {
        ParseError::OutOfMemory | ParseError::Overflow => UrlFault::NoMemory,
        _ => UrlFault::Unparsed,
    }
}

// The address that a text is.
pub(crate) fn parsed(alloc: Global, text: &str) -> Result<Url, UrlFault>
    ensures { Answers result (ok_or (address_of text.now) Unparsed) }
{
    Url::parse(alloc, text).map_err(fault_of)
}

// The address of a text against a parsed base.
pub(crate) fn joined(text: &str, base: &Url) -> Result<Url, UrlFault>
    ensures { Answers result (ok_or (joined text.now base.now) Unparsed) }
{
    base.join(text).map_err(fault_of)
}

// The address of a text against a base.
pub(crate) fn parsed_against(alloc: Global, text: &str, base: &str) -> Result<Url, UrlFault>
    ensures { Answers result (ok_or (parsed_against text.now base.now) Unparsed) }
{
    let base = parsed(alloc, base)?;
    joined(text, &base)
}

pub(crate) fn is_http(url: &Url) -> bool
    ensures { result ≡ is_http url.now.scheme }
{
    url.scheme() == "http" || url.scheme() == "https"
}
