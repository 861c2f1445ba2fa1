//! What a value is that passes take turns with.
ghost use Rattle.std.specs.Prelude.{◌≡◌, ℕ, List, ◌<◌, length};
ghost use Rattle.sw_lock.specs.Entries.{ThenOwn};

/// A value with a history. Its meaning is a base that no step changes, which tells a number of passes,
/// and a list of entries, each with the number of the pass that made it.
pub trait Logged {
    /// Plain data.
    type Entry;

    /// What a step is given.
    type Given: Drop;

    /// What a step answers.
    type Out: Drop;

    ghost Base: { Type 0 };

    ghost base: { Self → Base };

    // How many passes a base tells of.
    ghost passes: { Base → ℕ };

    ghost log: { Self → List Self.Entry };

    // The number of the pass that made an entry.
    ghost maker: { Self.Entry → ℕ };

    // The value before a step, what it is given, the pass's number, the value after it, and its answer.
    ghost steps: { Self → Self.Given → ℕ → Self → Self.Out → Type 0 };

    /// One step of the pass with this number. It adds entries of that pass only.
    fn step(&mut self, given: Self::Given, pass: u32) -> Self::Out
        requires { pass < passes (base self.old) }
        ensures base { base self.new ≡ base self.old }
        ensures log { ThenOwn maker pass (log self.old) (log self.new) }
        ensures steps { steps self.old given pass self.new result };

    /// How many entries there are.
    fn entries(&self) -> u64
        ensures { result ≡ length (log self.now) };
}
