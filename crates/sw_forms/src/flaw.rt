//! The flaws of a line, and which of them decides.

ghost use Rattle.std.specs.Prelude.{◌≡◌, Ok, Err, IfOk};
ghost use Rattle.sw_forms.specs.Flaws as flaws;

use crate::error::{Limit, LineCause, RecordingError};
use std::alloc::Global;
use sw_data::{Boxed, NoMemory};

/// What is wrong with a line, or what it has too much of.
#[derive(Debug, Clone, Copy, PartialEq, Eq)]
pub enum Flaw {
    Cause(LineCause),
    Limit(Limit),
}

/// A part of a line: what it is, or the flaw of it that is tested first.
pub type Part<T> = Result<Result<T, Flaw>, NoMemory>;

/// The line isn't of one of the forms.
pub const NO_FORM: Flaw = Flaw::Cause(LineCause::Form);

// The place of a flaw in the order in which flaws are tested.
fn rank(flaw: Flaw) -> u32
    ensures { result ≡ flaws.rank flaw }
{
    match flaw {
        Flaw::Cause(LineCause::Json) => 0,
        Flaw::Cause(LineCause::Form) => 1,
        Flaw::Limit(Limit::Actions) => 2,
        Flaw::Limit(Limit::Lanes) => 3,
        Flaw::Limit(Limit::Text) => 4,
        Flaw::Limit(Limit::Headers) => 5,
        Flaw::Limit(Limit::Operations) => 6,
        Flaw::Limit(Limit::Calls) => 7,
        Flaw::Cause(LineCause::Method) => 8,
        Flaw::Cause(LineCause::Status) => 9,
        Flaw::Cause(LineCause::Header) => 10,
        Flaw::Cause(LineCause::Base64) => 11,
        Flaw::Cause(LineCause::Address) => 12,
        Flaw::Cause(LineCause::Await) => 13,
        Flaw::Limit(Limit::Body) => 14,
    }
}

/// Of two flaws the one that is tested first.
pub fn first_of(left: Flaw, right: Flaw) -> Flaw
    ensures { result ≡ flaws.first_of left right }
{
    if rank(left) <= rank(right) {
        left
    } else {
        right
    }
}

/// Two parts of a line: both, or the flaw that is tested first.
#[tactic(auto, unfolding(crate::specs::Flaws::both))]
pub fn both<A: Drop, B: Drop>(left: Result<A, Flaw>, right: Result<B, Flaw>) -> Result<(A, B), Flaw>
    ensures { result ≡ flaws.both left right }
{
    match (left, right) {
        (Ok(left), Ok(right)) => Ok((left, right)),
        (Err(why), Ok(_)) | (Ok(_), Err(why)) => Err(why),
        (Err(why), Err(other)) => Err(first_of(why, other)),
    }
}

/// A part, moved to the heap.
pub fn boxed_part<A: Drop>(alloc: Global, part: Result<A, Flaw>) -> Part<Boxed<A>>
    ensures { IfOk result (λ boxed. boxed ≡ part) }
{
    match part {
        Ok(part) => Ok(Ok(Boxed::new(alloc, part)?)),
        Err(why) => Ok(Err(why)),
    }
}

/// A part, where the test holds; otherwise it has this flaw besides its own.
pub fn needs<A: Drop>(test: bool, flaw: Flaw, part: Result<A, Flaw>) -> Result<A, Flaw>
    ensures { result ≡ flaws.needs test flaw part }
{
    match part {
        part if test => part,
        Ok(_) => Err(flaw),
        Err(other) => Err(first_of(other, flaw)),
    }
}

/// The refusal of a recording at a line.
pub fn error_at(line: u32, flaw: Flaw) -> RecordingError
    ensures { result ≡ flaws.error_at line flaw }
{
    match flaw {
        Flaw::Cause(cause) => RecordingError::BadLine { line, cause },
        Flaw::Limit(limit) => RecordingError::TooLarge { line, limit },
    }
}
