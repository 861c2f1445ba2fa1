//! Lengths, bytes, texts and single bytes with a meaning.

ghost use Rattle.std.specs.Prelude.{◌≡◌, ◌++◌, ◌∷◌, [], length, true, OnOk, IfOk};
ghost use Rattle.std.specs.Int.{w32, to_be_bytes};
ghost use Rattle.sw_codec.specs.Spelling.{bytes_spelling, is_body, is_length, is_text, mode_byte, kind_byte, bit, options_byte};

use sw_data::{Bytes, Kind, Mode, NoMemory, Options, Text};

// Writes a length or a count, where four bytes tell it.
pub(crate) fn put_length(out: &mut Vec<u8>, size: usize) -> Result<(), NoMemory>
    ensures bytes { OnOk result (out.new.items ≡ out.old.items ++ to_be_bytes w32 size) }
    ensures fits { IfOk result (λ _. is_length size ≡ true) }
{
    let Ok(size) = u32::try_from(size) else {
        return Err(NoMemory);
    };
    out.extend_from_slice(&size.to_be_bytes())?;
    Ok(())
}

// Writes bytes behind their length.
#[tactic(auto, unfolding(crate::specs::Spelling::bytes_spelling))]
fn put_span(out: &mut Vec<u8>, bytes: &[u8]) -> Result<(), NoMemory>
    ensures bytes { OnOk result (out.new.items ≡ out.old.items ++ bytes_spelling bytes.now) }
    ensures fits { IfOk result (λ _. is_body bytes.now ≡ true) }
{
    put_length(out, bytes.len())?;
    out.extend_from_slice(bytes)?;
    Ok(())
}

// Writes a body.
pub(crate) fn put_bytes(out: &mut Vec<u8>, body: &Bytes) -> Result<(), NoMemory>
    ensures bytes { OnOk result (out.new.items ≡ out.old.items ++ bytes_spelling body.now) }
    ensures fits { IfOk result (λ _. is_body body.now ≡ true) }
{
    put_span(out, body.as_bytes())
}

// Writes a text.
pub(crate) fn put_text(out: &mut Vec<u8>, text: &Text) -> Result<(), NoMemory>
    ensures bytes { OnOk result (out.new.items ≡ out.old.items ++ bytes_spelling text.now) }
    ensures fits { IfOk result (λ _. is_text text.now ≡ true) }
{
    put_span(out, text.as_str().as_bytes())
}

// The byte of a mode.
pub(crate) fn mode_byte(mode: Mode) -> u8
    ensures { result ≡ mode_byte mode }
{
    match mode {
        Mode::Imports => 0,
        Mode::All => 1,
        Mode::Never => 2,
    }
}

// The byte of the type of a script.
pub(crate) fn kind_byte(kind: Kind) -> u8
    ensures { result ≡ kind_byte kind }
{
    match kind {
        Kind::Classic => 0,
        Kind::Module => 1,
    }
}

// The bit of this value, where the flag is set.
pub(crate) fn bit(value: u8, flag: bool) -> u8
    ensures { result ≡ bit value flag }
{
    if flag { value } else { 0 }
}

// The byte of the options of a query.
pub(crate) fn options_byte(options: Options) -> u8
    ensures { result ≡ options_byte options }
{
    bit(1, options.ignore_search) + bit(2, options.ignore_method) + bit(4, options.ignore_vary)
}
