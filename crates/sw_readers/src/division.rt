//! Dividing a source into a recording and a transcript.

ghost use Rattle.std.specs.Prelude.{◌≡◌, option_map};
ghost use Rattle.sw_readers.specs.Division.{division};

use sw_data::cut::first_part;

/// What stands before the first line that is exactly `%%`, and what follows its line feed: nothing, where it
/// has none. None exactly where no line is `%%`. It takes no memory.
pub fn divided(source: &[u8]) -> Option<(&[u8], &[u8])>
    ensures { option_map (λ parts. (parts.0.now, parts.1.now)) result ≡ division source.now }
{
    let mut left = Some(source);
    while let Some(text) = left {
        let (line, rest) = first_part(text, b'\n');
        if line == b"%%".as_slice() {
            let before = source.split_at(source.len() - text.len()).0;
            return Some((before, rest.unwrap_or(b"")));
        }
        left = rest;
    }
    None
}
