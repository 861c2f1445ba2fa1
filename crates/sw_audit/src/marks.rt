//! The front of a line, which names an event.

ghost use Rattle.std.specs.Prelude.{◌≡◌, ◌<◌, ◌^◌, ◌⊎◌, ◌++◌, ◌∷◌, ℕ, List, drop, decimal, Some, None};
ghost use Rattle.sw_audit.specs.Marks.{IsRead, kind_letter, kind_named, kind_word};
ghost use Rattle.sw_audit.specs.declared.marks.Kind as declared;

use sw_data::cut::before;

/// The kind of an event of the host.
#[derive(Debug, Clone, Copy, PartialEq, Eq)]
pub enum Kind {
    Run,
    Fetched,
    Evaluated,
    Installed,
    TryActivate,
    Activated,
    Added,
}

/// The event that a line names.
#[derive(Debug, Clone, Copy, PartialEq, Eq)]
pub enum Mark {
    /// The next action of a lane.
    Lane(u32),
    /// The next call of the handler of a worker.
    Handler(u32),
    /// An event of the host, about the job, registration, worker or addAll of a number.
    Host { kind: Kind, number: u32 },
}

// The number of which these are the digits.
fn number_of(digits: &[u8]) -> Option<u32>
    ensures { (n : ℕ) → n < 2 ^ 32 → digits.now ≡ decimal n → result ≡ Some n }
{
    match str::from_utf8(digits) {
        Ok(word) => match word.parse::<u32>() {
            Ok(number) => Some(number),
            Err(_) => None,
        },
        Err(_) => None,
    }
}

// The number that a text begins with, up to the first `end`.
fn number_before(text: &[u8], end: u8) -> Option<u32>
    ensures { (n : ℕ) (rest : List ℕ) → n < 2 ^ 32 → (end < 48) ⊎ (57 < end)
        → text.now ≡ decimal n ++ end ∷ rest → result ≡ Some n }
{
    number_of(before(text, end))
}

// What follows the first bytes of a text.
fn behind(text: &[u8], many: usize) -> &[u8]
    ensures { result.now ≡ drop many text.now }
{
    if many <= text.len() {
        text.split_at(many).1
    } else {
        &[]
    }
}

// A lane's mark, behind its letter.
fn lane_mark(text: &[u8]) -> Option<Mark>
    ensures { (n : ℕ) (rest : List ℕ) → n < 2 ^ 32 → text.now ≡ decimal n ++ 46 ∷ rest
        → result ≡ Some (Mark.Lane n) }
{
    Some(Mark::Lane(number_before(text, b'.')?))
}

// A handler's mark, behind its letter.
fn handler_mark(text: &[u8]) -> Option<Mark>
    ensures { (n : ℕ) (rest : List ℕ) → n < 2 ^ 32 → text.now ≡ decimal n ++ 46 ∷ rest
        → result ≡ Some (Mark.Handler n) }
{
    Some(Mark::Handler(number_before(text, b'.')?))
}

// The kind of a host's event, by its word.
fn kind_of(word: &[u8]) -> Option<Kind>
    ensures { result ≡ kind_named word.now }
{
    if word == b"run".as_slice() {
        Some(Kind::Run)
    } else if word == b"fetched".as_slice() {
        Some(Kind::Fetched)
    } else if word == b"evaluated".as_slice() {
        Some(Kind::Evaluated)
    } else if word == b"installed".as_slice() {
        Some(Kind::Installed)
    } else if word == b"tryactivate".as_slice() {
        Some(Kind::TryActivate)
    } else if word == b"activated".as_slice() {
        Some(Kind::Activated)
    } else if word == b"added".as_slice() {
        Some(Kind::Added)
    } else {
        None
    }
}

// The mark of a host's event, behind its dash and its space.
fn host_mark(text: &[u8]) -> Option<Mark>
    ensures { (kind : declared.Kind) (n : ℕ) (rest : List ℕ) → n < 2 ^ 32
        → text.now ≡ kind_word kind ++ 32 ∷ (kind_letter kind ++ (decimal n ++ 32 ∷ rest))
        → result ≡ Some (Mark.Host kind n) }
{
    let word = before(text, b' ');
    let kind = kind_of(word)?;
    let rest = behind(behind(text, word.len()), 2);
    let number = number_before(rest, b' ')?;
    Some(Mark::Host { kind, number })
}

// The mark of a text, by its first byte and what follows it.
fn mark_behind(first: u8, rest: &[u8]) -> Option<Mark>
    ensures { IsRead (first ∷ rest.now) result }
{
    if first == b'L' {
        lane_mark(rest)
    } else if first == b'w' {
        handler_mark(rest)
    } else if first == b'-' {
        host_mark(behind(rest, 1))
    } else {
        None
    }
}

/// The mark that a text begins with. It takes no memory.
pub fn read_mark(text: &[u8]) -> Option<Mark>
    ensures { IsRead text.now result }
{
    match text {
        [first, rest @ ..] => mark_behind(*first, rest),
        [] => None,
    }
}
