//! Names and values of header lines, as bytes. No call takes memory.

ghost use Rattle.std.specs.Prelude.{◌≡◌};
ghost use Rattle.std.specs.List.{list_all};
ghost use Rattle.http_header.specs.FieldName.{is_field_name};
ghost use Rattle.http_header.specs.Token.{token_test};
ghost use Rattle.sw_data.specs.Headers.{is_ows, is_token, is_value, same_name, trimmed, trimmed_front, trimmed_back};

// The byte may stand in a token.
#[tactic(auto, unfolding(http_header::specs::Token::is_token_byte))]
fn is_token_byte(byte: u8) -> bool
    ensures { result ≡ token_test byte }
{
    http_header::is_token_char(byte)
}

/// The bytes are a token (HTTP Semantics, RFC 9110, 5.6.2).
pub fn is_token(bytes: &[u8]) -> bool
    ensures { result ≡ is_token bytes.now }
{
    !bytes.is_empty() && has_token_bytes_only(bytes)
}

fn has_token_bytes_only(bytes: &[u8]) -> bool
    ensures { result ≡ list_all token_test bytes.now }
{
    bytes.iter().all(|byte| is_token_byte(*byte))
}

/// The bytes are the name of a header: a token of at most 65,535 bytes.
pub fn is_name(bytes: &[u8]) -> bool
    ensures { result ≡ is_field_name bytes.now }
{
    is_token(bytes) && bytes.len() <= 65535
}

/// The bytes are the value of a header: none below 32 but tabs, and no 127.
pub fn is_value(bytes: &[u8]) -> bool
    ensures { result ≡ is_value bytes.now }
{
    bytes
        .iter()
        .all(|byte| *byte == b'\t' || (*byte >= b' ' && *byte != 127))
}

/// The names are equal in any case of their ASCII letters.
pub fn same_name(left: &[u8], right: &[u8]) -> bool
    ensures { result ≡ same_name left.now right.now }
{
    left.eq_ignore_ascii_case(right)
}

/// The bytes without spaces and tabs at both ends.
pub fn trimmed(bytes: &[u8]) -> &[u8]
    ensures { result.now ≡ trimmed bytes.now }
{
    trimmed_back(trimmed_front(bytes))
}

fn is_ows(byte: u8) -> bool
    ensures { result ≡ is_ows byte }
{
    byte == b' ' || byte == b'\t'
}

fn trimmed_front(mut bytes: &[u8]) -> &[u8]
    ensures { result.now ≡ trimmed_front bytes.now }
{
    while let [first, rest @ ..] = bytes
        && is_ows(*first)
    {
        bytes = rest;
    }
    bytes
}

fn trimmed_back(mut bytes: &[u8]) -> &[u8]
    ensures { result.now ≡ trimmed_back bytes.now }
{
    while let [rest @ .., last] = bytes
        && is_ows(*last)
    {
        bytes = rest;
    }
    bytes
}
