//! JavaScript's media types.

ghost use Rattle.std.specs.Prelude.{◌≡◌, codes, option_copied};
ghost use Rattle.http_header.specs.Token.{lowercase};
ghost use Rattle.sw_data.specs.Headers.{last_value, trimmed};
ghost use Rattle.sw_data.specs.Media.{essence, is_javascript, is_javascript_essence};

use crate::cut::before;
use crate::exchange::Header;
use crate::header::{same_name, trimmed};

/// The last `Content-Type` line has an essence of JavaScript (MIME Sniffing, 4.6, "JavaScript MIME
/// type"): cut before its first `;`, without spaces and tabs at both ends and in any case. It takes
/// no memory.
#[tactic(auto, unfolding(crate::specs::Media::is_javascript))]
pub fn is_javascript(headers: &[Header]) -> bool
    ensures { result ≡ is_javascript headers.now }
{
    match last_content_type(headers) {
        Some(value) => is_javascript_value(value),
        None => false,
    }
}

// The value of the last `Content-Type` line.
fn last_content_type(headers: &[Header]) -> Option<&[u8]>
    ensures { option_copied result ≡ last_value (codes "content-type") headers.now }
{
    let line = headers
        .iter()
        .rev()
        .find(|line| same_name(line.name.as_bytes(), b"content-type"))?;
    Some(line.value.as_bytes())
}

fn is_javascript_value(value: &[u8]) -> bool
    ensures { result ≡ is_javascript_essence (essence value.now) }
{
    is_javascript_name(trimmed(before(value, b';')))
}

// One of the sixteen essences, in any case.
fn is_javascript_name(name: &[u8]) -> bool
    ensures { result ≡ is_javascript_essence (lowercase name.now) }
{
    same_name(name, b"application/ecmascript")
        || same_name(name, b"application/javascript")
        || same_name(name, b"application/x-ecmascript")
        || same_name(name, b"application/x-javascript")
        || same_name(name, b"text/ecmascript")
        || same_name(name, b"text/javascript")
        || same_name(name, b"text/javascript1.0")
        || same_name(name, b"text/javascript1.1")
        || same_name(name, b"text/javascript1.2")
        || same_name(name, b"text/javascript1.3")
        || same_name(name, b"text/javascript1.4")
        || same_name(name, b"text/javascript1.5")
        || same_name(name, b"text/jscript")
        || same_name(name, b"text/livescript")
        || same_name(name, b"text/x-ecmascript")
        || same_name(name, b"text/x-javascript")
}
