//! The two formats of a part.

ghost use Rattle.std.specs.Prelude.{◌≡◌, ◌↔◌, ◌≤◌, length, MatchOption, IsSome, Some, None};
ghost use Rattle.sw_journal.specs.Format.{format_2, format_of};
ghost use Rattle.sw_journal.specs.Version.{format_at};

// A format of a part: version 2 numbers its records, version 1 doesn't.
#[derive(Debug, Clone, Copy, PartialEq, Eq)]
pub(crate) enum Version {
    One,
    Two,
}

// The length of a header, in bytes.
pub(crate) const HEADER_LENGTH: usize = 16;

const HEADER_1: [u8; 16] = *b"SWHOST-JOURNAL-1";

// The header of format 2.
pub(crate) const HEADER_2: [u8; 16] = *b"SWHOST-JOURNAL-2";

impl Version {
    // The format whose header these bytes begin with.
    #[tactic(auto, unfolding(crate::specs::Format::format_of))]
    pub(crate) fn of(bytes: &[u8]) -> Option<Version>
        ensures long { IsSome result → 16 ≤ length bytes.now }
        ensures format { MatchOption result (format_of bytes.now ≡ None)
            (λ version. format_of bytes.now ≡ Some (format_at version)) }
    {
        if bytes.starts_with(&HEADER_2) {
            Some(Version::Two)
        } else if bytes.starts_with(&HEADER_1) {
            Some(Version::One)
        } else {
            None
        }
    }

    // The format's number.
    pub(crate) fn number(self) -> u8
        ensures version { result ≡ (format_at self).version }
        ensures second { (result ≡ 2) ↔ (format_at self ≡ format_2) }
    {
        match self {
            Version::One => 1,
            Version::Two => 2,
        }
    }

    // The width in bytes of a record's number.
    pub(crate) fn width(self) -> u64
        ensures { result ≡ (format_at self).width }
    {
        match self {
            Version::One => 0,
            Version::Two => 8,
        }
    }
}
