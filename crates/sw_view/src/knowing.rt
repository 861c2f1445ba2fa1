//! The rules: of the list of entries, and of the readers beside the publisher.

use crate::front::Front;
use crate::shown::Shown;
use atomic_table::{Join, Split};
use crossbeam_utils::rule::{Outcome, Protocol};
use logbook::{Gain, Plain, Play, Rule, Seen};
use sw_data::{Entry, Kept};

// ---- the list of entries

/// The rule of the list: its first word is its length.
pub struct Law;

impl Rule<Entry, u64> for Law {
    ghost use Rattle.std.specs.Prelude.{[]};
    ghost use base.Fml.{ftrue};
    ghost use Rattle.sw_view.specs.Rules.{IsBook};

    ghost holds = { λ cells log. IsBook cells log };

    ghost first = { [] };

    ghost hinted = { λ n log. Unit {0} };

    ghost shows = { λ log. [] };

    ghost keeps = { λ names log. ftrue };

    ghost moves = { λ ask before after answer. Unit {0} };
}

/// Callers trade nothing.
pub struct Nothing;

impl Gain<Entry, u64> for Nothing {
    ghost use base.Fml.{ftrue};

    ghost after = { λ names about answer. ftrue };
}

/// A step that adds an entry.
pub struct Add;

impl Play<Entry, u64> for Add {
    ghost use Rattle.sw_view.specs.Rules.{AddsEntry};

    ghost then = { AddsEntry };
}

/// What a step asks for: the entry.
impl Plain<Entry, Entry, u64> for Add {
    ghost use Rattle.std.specs.Prelude.{None};

    ghost ask = { λ entry. entry };

    ghost state = { λ entry. None };
}

// ---- readers beside the publisher

/// Of which view a reader or the publisher is: the content from which its entries go on, and its list. No value is made.
pub struct Origin {
    pub base: Kept,
    pub seen: Seen<Entry, u64, Law>,
}

/// What a reader or the publisher knows, in proofs alone. No value is made.
pub struct Known {
    pub origin: Option<Origin>,
}

/// What is shown after entries is the map of their state, and who knows a view knows this one.
pub struct Keeping;

impl Protocol<Shown, Known> for Keeping {
    ghost use Rattle.sw_view.specs.Keeping.{HoldsRule, newcomer};

    ghost holds = { HoldsRule };

    ghost first = { newcomer };
}

/// Publishing: the publisher knows its view.
pub struct Publishes;

impl Outcome<Shown, Known> for Publishes {
    ghost use Rattle.sw_view.specs.Keeping.{HasPublished};

    ghost then = { HasPublished };
}

/// A read: what is shown is right, and is of the view that the reader knows.
pub struct Sees;

impl Outcome<Shown, Known> for Sees {
    ghost use Rattle.sw_view.specs.Keeping.{HasRead};

    ghost then = { HasRead };
}

/// A note tells which view it is.
pub struct Notes;

impl Split<Known> for Notes {
    ghost left = { λ v. v };

    ghost right = { λ v. v };
}

impl Join<Known> for Notes {
    ghost use Rattle.sw_view.specs.Keeping.{newcomer};

    ghost both = { λ v note. note };

    ghost spent = { newcomer };
}
