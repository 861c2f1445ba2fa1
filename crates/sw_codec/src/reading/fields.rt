//! Numbers, bytes, texts and single bytes with a meaning.

ghost use Rattle.std.specs.Prelude.{◌≡◌, length};
ghost use Rattle.std.specs.Int.{w16, w32};
ghost use Rattle.sw_codec.specs.Outcome.{Gives};
ghost use Rattle.sw_codec.specs.Reading.{byte_at, number_at, front_at, bytes_at, text_at, mode_at, kind_at, flag_at, options_at};

use crate::error::Fault;
use std::alloc::Global;
use std::str;
use sw_data::{Bytes, Kind, Mode, Options, Shared, Text};

// The byte in front.
pub(crate) fn byte_of(bytes: &[u8]) -> Result<(u8, &[u8]), Fault>
    ensures { Gives (λ x. (x.0, x.1.now)) result (byte_at bytes.now) }
{
    match bytes {
        [] => Err(Fault::Bad),
        [byte, rest @ ..] => Ok((*byte, rest)),
    }
}

// The number that two bytes tell.
pub(crate) fn u16_of(bytes: &[u8]) -> Result<(u16, &[u8]), Fault>
    ensures { Gives (λ x. (x.0, x.1.now)) result (number_at w16 bytes.now) }
{
    if bytes.len() < 2 {
        return Err(Fault::Bad);
    }
    let (front, rest) = bytes.split_at(2);
    Ok((u16::from_be_bytes([front[0], front[1]]), rest))
}

// The number that four bytes tell.
pub(crate) fn u32_of(bytes: &[u8]) -> Result<(u32, &[u8]), Fault>
    ensures { Gives (λ x. (x.0, x.1.now)) result (number_at w32 bytes.now) }
{
    if bytes.len() < 4 {
        return Err(Fault::Bad);
    }
    let (front, rest) = bytes.split_at(4);
    Ok((
        u32::from_be_bytes([front[0], front[1], front[2], front[3]]),
        rest,
    ))
}

// The bytes behind their length. They are only named here, not copied.
#[tactic(auto, unfolding(crate::specs::Reading::bytes_at))]
fn span_of(bytes: &[u8]) -> Result<(&[u8], &[u8]), Fault>
    ensures { Gives (λ x. (x.0.now, x.1.now)) result (bytes_at bytes.now) }
{
    let (size, rest) = u32_of(bytes)?;
    let size = size as usize;
    if rest.len() < size {
        return Err(Fault::Bad);
    }
    Ok(rest.split_at(size))
}

// A body.
pub(crate) fn bytes_of(alloc: Global, bytes: &[u8]) -> Result<(Shared<Bytes>, &[u8]), Fault>
    ensures { Gives (λ x. (x.0, x.1.now)) result (bytes_at bytes.now) }
{
    let (body, rest) = span_of(bytes)?;
    let body = Bytes::of(alloc, body)?;
    Ok((Shared::new(alloc, body)?, rest))
}

// A text.
#[tactic(auto, unfolding(crate::specs::Reading::text_at))]
pub(crate) fn text_of(alloc: Global, bytes: &[u8]) -> Result<(Text, &[u8]), Fault>
    ensures { Gives (λ x. (x.0, x.1.now)) result (text_at bytes.now) }
{
    let (text, rest) = span_of(bytes)?;
    match str::from_utf8(text) {
        Ok(text) => Ok((Text::of(alloc, text)?, rest)),
        Err(_) => Err(Fault::Bad),
    }
}

// A mode.
#[tactic(auto, unfolding(crate::specs::Reading::mode_at))]
pub(crate) fn mode_of(bytes: &[u8]) -> Result<(Mode, &[u8]), Fault>
    ensures { Gives (λ x. (x.0, x.1.now)) result (mode_at bytes.now) }
{
    let (byte, rest) = byte_of(bytes)?;
    match byte {
        0 => Ok((Mode::Imports, rest)),
        1 => Ok((Mode::All, rest)),
        2 => Ok((Mode::Never, rest)),
        _ => Err(Fault::Bad),
    }
}

// The type of a script.
#[tactic(auto, unfolding(crate::specs::Reading::kind_at))]
pub(crate) fn kind_of(bytes: &[u8]) -> Result<(Kind, &[u8]), Fault>
    ensures { Gives (λ x. (x.0, x.1.now)) result (kind_at bytes.now) }
{
    let (byte, rest) = byte_of(bytes)?;
    match byte {
        0 => Ok((Kind::Classic, rest)),
        1 => Ok((Kind::Module, rest)),
        _ => Err(Fault::Bad),
    }
}

// A truth value.
#[tactic(auto, unfolding(crate::specs::Reading::flag_at))]
pub(crate) fn flag_of(bytes: &[u8]) -> Result<(bool, &[u8]), Fault>
    ensures { Gives (λ x. (x.0, x.1.now)) result (flag_at bytes.now) }
{
    let (byte, rest) = byte_of(bytes)?;
    match byte {
        0 => Ok((false, rest)),
        1 => Ok((true, rest)),
        _ => Err(Fault::Bad),
    }
}

// The options of a query, as the low three bits of a byte.
#[tactic(auto, unfolding(crate::specs::Reading::options_at))]
pub(crate) fn options_of(bytes: &[u8]) -> Result<(Options, &[u8]), Fault>
    ensures { Gives (λ x. (x.0, x.1.now)) result (options_at bytes.now) }
{
    let (byte, rest) = byte_of(bytes)?;
    if byte >= 8 {
        return Err(Fault::Bad);
    }
    let options = Options {
        ignore_search: byte % 2 == 1,
        ignore_method: byte / 2 % 2 == 1,
        ignore_vary: byte / 4 == 1,
    };
    Ok((options, rest))
}
