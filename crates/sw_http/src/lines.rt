//! Lists of header lines: their test, and the lines as they are kept.

ghost use Rattle.std.specs.Prelude.{◌≡◌, IfOk};
ghost use Rattle.sw_data.specs.Headers.{good_names, good_values, is_value, normal_line, normal_lines, trimmed};

use std::alloc::Global;
use std::str::from_utf8;
use sw_data::header::{is_name, is_value, trimmed};
use sw_data::{Header, Items, NoMemory, Text};

/// Each name is a token of 1 to 65,535 bytes (HTTP Semantics, RFC 9110, 5.1). It takes no memory.
pub fn good_names(headers: &[Header]) -> bool
    ensures { result ≡ good_names headers.now }
{
    headers.iter().all(|line| is_name(line.name.as_bytes()))
}

/// Each value is a field's value (HTTP Semantics, RFC 9110, 5.5). It takes no memory.
pub fn good_values(headers: &[Header]) -> bool
    ensures { result ≡ good_values headers.now }
{
    headers.iter().all(|line| is_value(line.value.as_bytes()))
}

/// The lines as they are kept: names in lower case, values without the spaces and tabs at both ends
/// (Fetch, 2.2.2, "normalize").
pub fn normal_lines(alloc: Global, headers: &[Header]) -> Result<Items<Header>, NoMemory>
    ensures { IfOk result (λ lines. lines ≡ normal_lines headers.now) }
{
    let mut lines = Items::new(alloc);
    for line in headers {
        lines.push(normal_line(alloc, line)?)?;
    }
    Ok(lines)
}

fn normal_line(alloc: Global, line: &Header) -> Result<Header, NoMemory>
    ensures { IfOk result (λ kept. kept ≡ normal_line line.now) }
{
    Ok(Header {
        name: Text::from_string(line.name.as_str().to_ascii_lowercase(alloc)?),
        value: trimmed_text(alloc, &line.value)?,
    })
}

// The text without the spaces and tabs at both ends.
fn trimmed_text(alloc: Global, text: &Text) -> Result<Text, NoMemory>
    ensures { IfOk result (λ kept. kept ≡ trimmed text.now) }
{
    match from_utf8(trimmed(text.as_str().as_bytes())) {
        Ok(kept) => Text::of(alloc, kept),
        Err(_) => unreachable!(),
    }
}
