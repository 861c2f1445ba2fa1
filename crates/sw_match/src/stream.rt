//! A combined value, byte by byte.

ghost use Rattle.std.specs.Prelude.{◌≡◌, ◌++◌, ◌∷◌, [], MatchOption, bytes_eq};
ghost use Rattle.sw_match.specs.Left.{further};

use crate::values::first_line;
use std::marker::Model;
use sw_data::Header;

// The bytes of a combined value that are left.
#[derive(Drop)]
pub(crate) struct Stream<'a> {
    /// A space comes before the value.
    space: bool,
    value: &'a [u8],
    headers: &'a [Header],
    name: &'a [u8],
}

impl<'a> Model for Stream<'a> {
    ghost use Rattle.std.specs.Prelude.{ℕ, ◌++◌, List};
    ghost use Rattle.sw_match.specs.Left.{further, spaced};

    ghost Value = { List ℕ };

    ghost view = { λ s. spaced s.space s.value.now ++ further s.name.now s.headers.now };
}

impl<'a> Stream<'a> {
    // A value, and the further values of a field behind it.
    pub(crate) fn new(value: &'a [u8], headers: &'a [Header], name: &'a [u8]) -> Stream<'a>
        ensures { result ≡ value.now ++ further name.now headers.now }
    {
        Stream {
            space: false,
            value,
            headers,
            name,
        }
    }

    // The next byte.
    fn next(&mut self) -> Option<u8>
        ensures { MatchOption result ((self.old ≡ []) × (self.new ≡ []))
            (λ byte. self.old ≡ byte ∷ self.new) }
    {
        if self.space {
            self.space = false;
            return Some(b' ');
        }
        if let [first, rest @ ..] = self.value {
            self.value = rest;
            return Some(*first);
        }
        match first_line(self.headers, self.name) {
            Some((line, rest)) => {
                self.space = true;
                self.value = line.value.as_bytes();
                self.headers = rest;
                Some(b',')
            }
            None => None,
        }
    }
}

// Both streams have the same bytes.
pub(crate) fn same_bytes(mut left: Stream<'_>, mut right: Stream<'_>) -> bool
    ensures { result ≡ bytes_eq left.entry right.entry }
{
    loop {
        match (left.next(), right.next()) {
            (Some(byte), Some(other)) if byte == other => {}
            (None, None) => return true,
            _ => return false,
        }
    }
}
