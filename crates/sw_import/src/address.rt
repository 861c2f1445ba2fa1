//! The addresses of imported scripts.

ghost use Rattle.std.specs.Prelude.{◌≡◌, IfOk, Some, false, option_and_then};
ghost use Rattle.url.specs.Parser.{IsOutOfRoom};
ghost use Rattle.sw_data.specs.Addresses.{joined};
ghost use Rattle.sw_import.specs.Checking.{import_address, web_address};

use std::alloc::Global;
use sw_data::{NoMemory, Text};
use url::{ParseError, Position, Url};

// What a refused text is, unless there was no room to parse it.
fn unparsed<T>(error: ParseError) -> Result<Option<T>, NoMemory>
    ensures { IfOk result (λ none. ¬ (IsOutOfRoom error) × (none ≡ None)) }
{
    match error {
        ParseError::OutOfMemory | ParseError::Overflow => Err(NoMemory),
        _ => Ok(None),
    }
}

// The text of a parsed http or https address without its fragment.
fn web_address(alloc: Global, url: &Url) -> Result<Option<Text>, NoMemory>
    ensures { IfOk result (λ text. text ≡ web_address (Some url.now)) }
{
    if url.scheme() == "http" || url.scheme() == "https" {
        let text = url.slice(Position::BeforeScheme, Position::AfterQuery);
        Ok(Some(Text::of(alloc, text)?))
    } else {
        Ok(None)
    }
}

// The address of an imported text, its script being parsed.
fn joined_address(alloc: Global, text: &Text, script: &Url) -> Result<Option<Text>, NoMemory>
    ensures { IfOk result (λ address. address ≡ web_address (joined text.now script.now)) }
{
    match script.join(text.as_str()) {
        Ok(url) => web_address(alloc, &url),
        Err(error) => unparsed(error),
    }
}

/// The address of an imported text: parsed against its script, without its fragment. None where it doesn't parse or
/// is no http or https address.
#[tactic(auto, unfolding(crate::specs::Checking::import_address))]
pub fn import_address(alloc: Global, text: &Text, script: &Text) -> Result<Option<Text>, NoMemory>
    ensures { IfOk result (λ address. address ≡ import_address text.now script.now) }
{
    match Url::parse(alloc, script.as_str()) {
        Ok(script) => joined_address(alloc, text, &script),
        Err(error) => unparsed(error),
    }
}
