//! Cuts of bytes at a mark.

ghost use Rattle.std.specs.Prelude.{◌≡◌, ◌<◌, ◌∷◌, ◌==◌, length, position};
ghost use Rattle.std.specs.List.{before_first, slice_split};
ghost use Rattle.std.specs.Option.{IfSome, option_copied};
ghost use Rattle.sw_data.specs.Parts.{parts_left};

/// What stands before the first `mark`, or all where there is none. It takes no memory.
#[tactic(auto, using(crate::proofs::CutLemmas::cuts_position))]
pub fn before(bytes: &[u8], mark: u8) -> &[u8]
    ensures { result.now ≡ before_first (λ b. b == mark) bytes.now }
{
    match first(bytes, mark) {
        Some(at) => bytes.split_at(at).0,
        None => bytes,
    }
}

// The place of the first `mark`.
fn first(bytes: &[u8], mark: u8) -> Option<usize>
    ensures { result ≡ position (λ b. b == mark) bytes.now }
{
    bytes.iter().position(|b| *b == mark)
}

/// What stands before the first `mark`, and what follows it: none where there is no mark. It takes no memory.
pub fn first_part(text: &[u8], mark: u8) -> (&[u8], Option<&[u8]>)
    ensures parts { slice_split (λ b. b == mark) text.now
        ≡ result.0.now ∷ parts_left mark (option_copied result.1) }
    ensures shorter { IfSome result.1 (λ rest. length rest.now < length text.now) }
{
    let part = before(text, mark);
    match text.split_at(part.len()).1 {
        [_, rest @ ..] => (part, Some(rest)),
        [] => (part, None),
    }
}
