//! What a value is whose entries can be published.

ghost use Rattle.std.specs.Prelude.{◌≡◌, ◌≤◌, Bool, true, drop, take, length, IfOk};
ghost use Rattle.sw_data.specs.declared.storage.Kept.{Kept};
ghost use Rattle.sw_view.specs.Mapped.{mapped_after};
ghost use Rattle.sw_view.specs.Moves.{AreMoves};

use crate::moves::Move;
use sw_data::{Entry, NoMemory};
use sw_lock::Logged;

/// A value with a history of entries that go on from a content, which its base tells. Its work may have ended; then an end is
/// kept.
pub trait Mapped: Logged<Entry = Entry> {
    // The content that the entries go on from, which the base tells.
    ghost kept: { Self → Kept };

    // An end is kept.
    ghost is_over: { Self → Bool };

    // The value before it was stopped, the value after it, and the answer.
    ghost stops: { Self → Self → Self.Out → Type 0 };

    /// The entries from this place on. It takes no memory.
    fn entries_since(&self, from: u64) -> &[Entry]
        requires { from ≤ length (Self.log self.now) }
        ensures { result.now ≡ drop from (Self.log self.now) };

    /// The moves of the entries from this place on.
    fn moves_since(&self, from: u64) -> Result<Vec<Move>, NoMemory>
        requires { from ≤ length (Self.log self.now) }
        ensures { IfOk result (λ moves. AreMoves
            (mapped_after (kept self.now) (take from (Self.log self.now))) moves.items
            (mapped_after (kept self.now) (Self.log self.now))) };

    /// Keeps the end for want of memory, where no end is kept, and answers the end that is kept. It adds no entry.
    fn stop(&mut self) -> Self::Out
        ensures base { Self.base self.new ≡ Self.base self.old }
        ensures log { Self.log self.new ≡ Self.log self.old }
        ensures over { is_over self.new ≡ true }
        ensures stops { stops self.old self.new result };

    ghost kept_is: { (one other : Self)
        → Self.Logged.base one ≡ Self.Logged.base other → kept one ≡ kept other };
}
