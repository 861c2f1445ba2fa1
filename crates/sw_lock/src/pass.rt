//! A pass, through which one thread makes its turns.
ghost use Rattle.std.specs.Prelude.{◌≡◌, ◌≤◌, ◌^◌};
ghost use Rattle.sw_lock.specs.Steps.{IsIdle};

use crate::lock::Shared;
use crate::logged::Logged;
use crate::view::View;
use atomic_table::Seat;

// A pass makes no more turns than these.
const MOST_TURNS: u64 = 1 << 40;

/// A pass has made 2^40 turns. It is handed out by such a pass alone, so nobody has one without it, and it carries the
/// number that the pass's lock was made with.
#[derive(Debug, Clone, Copy, PartialEq, Eq)]
pub struct Spent {
    turns: u64,
    lock: u64,
    ghost all: { turns ≡ 2 ^ 40 },
}

/// The right to make turns, for one thread at a time. It knows what of the history it has seen.
pub struct Pass<T: Logged> {
    pub(crate) seat: Seat<Option<T>, View<T, T::Entry>>,
    pub(crate) number: u32,
    pub(crate) turns: u64,
    ghost idle: { IsIdle seat.me },
    ghost numbered: { number ≡ seat.me.0.number },
    ghost counted: { turns ≡ seat.me.0.turns },
    ghost bounded: { turns ≤ 2 ^ 40 },
}

impl<T: Logged> Pass<T> {
    ghost use Rattle.std.specs.Prelude.{◌↔◌, IsSome, IfSome};
    ghost use Rattle.sw_lock.specs.Passes.{IsPassOf, lock_of, number_of, turns};

    /// That the pass, which is of this lock, has made all the turns that a pass makes, if it has.
    pub fn spent(&self, lock: &Shared<T>) -> Option<Spent>
        requires { IsPassOf lock.now self.now }
        ensures spent { IsSome result ↔ (turns self.now ≡ 2 ^ 40) }
        ensures lock { IfSome result (λ spent. lock_of spent ≡ number_of lock.now) }
    {
        if self.turns < MOST_TURNS {
            return None;
        }
        Some(Spent {
            turns: self.turns,
            lock: lock.number,
        })
    }

    pub(crate) fn into_seat(self) -> Seat<Option<T>, View<T, T::Entry>>
        ensures { result ≡ self.seat }
    {
        let Self {
            seat,
            number: _,
            turns: _,
        } = self;
        seat
    }
}

impl<T: Logged> Drop for Pass<T> {
    fn drop(self) {
        let Self {
            seat: _,
            number: _,
            turns: _,
        } = self;
    }
}
