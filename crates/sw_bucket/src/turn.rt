//! A key behind its last use.

ghost use Rattle.std.specs.Prelude.{Some, refl};
ghost use Rattle.std.specs.Cmp.{partial_equiv_from_equiv, partial_order_from_agreeing_total};
ghost use Rattle.sw_bucket.specs.Turns.{is_turn, turn_cmp, turn_equiv, turn_ties, turn_total};

use std::cmp::Ordering;
use std::marker::Model;
use sw_data::Text;

/// A key behind its last use. It comes before another where its last use is earlier, or is the same and its text is
/// smaller.
#[derive(Drop)]
pub(crate) struct Turn {
    pub(crate) last: u64,
    pub(crate) key: Text,
}

impl Model for Turn {
    ghost use Rattle.std.specs.Prelude.{ℕ, List};

    ghost Value = { ℕ × List ℕ };

    ghost view = { λ turn. (turn.last, turn.key) };
}

impl PartialEq for Turn {
    ghost eq = { is_turn };

    ghost laws = { partial_equiv_from_equiv turn_equiv };

    fn eq(&self, other: &Turn) -> bool {
        self.last == other.last && self.key == other.key
    }
}

impl Eq for Turn {
    ghost laws = { turn_equiv };
}

impl PartialOrd for Turn {
    ghost partial_cmp = { λ one other. Some (turn_cmp one other) };

    ghost laws = { partial_order_from_agreeing_total turn_cmp turn_total (λ one other. refl) turn_ties };

    fn partial_cmp(&self, other: &Turn) -> Option<Ordering> {
        Some(self.cmp(other))
    }
}

impl Ord for Turn {
    ghost cmp = { turn_cmp };

    ghost total = { turn_total };

    ghost matches_partial_cmp = { λ one other. refl };

    ghost matches_eq = { turn_ties };

    fn cmp(&self, other: &Turn) -> Ordering {
        match self.last.cmp(&other.last) {
            Ordering::Equal => self.key.as_str().cmp(other.key.as_str()),
            order => order,
        }
    }
}
