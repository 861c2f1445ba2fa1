//! Where bytes go.

ghost use Rattle.std.specs.Prelude.{◌≡◌, ◌<◌, ◌≤◌, ◌++◌, ℕ, List, Option, length, take, IfOk, OnOk, OnErr};
ghost use Rattle.std.specs.Io.{WritesAtMost};
ghost use Rattle.std.specs.Io.KnownBytes.{WriteAppends};
ghost use Rattle.sw_io.specs.Memory.{counted};

use sw_data::Failed;

/// Where bytes go.
pub trait Sink {
    /// The bytes that the sink holds, where it tells them.
    ghost held: { Self → Option (List ℕ) };

    /// The bytes that were handed to the sink and that it took, told or not.
    ghost handed: { Self → List ℕ };

    /// How often a write failed.
    ghost faults: { Self → ℕ };

    /// Takes bytes of the front of `piece` and says how many it took. To take nothing of some is to fail.
    fn write(&mut self, piece: &[u8]) -> Result<usize, Failed>
        ensures within { WritesAtMost result piece.now }
        ensures some { IfOk result (λ n. 0 < length piece.now → 0 < n) }
        ensures bytes { WriteAppends (held self.old) (held self.new) result piece.now }
        ensures taken { IfOk result (λ n. handed self.new ≡ handed self.old ++ take n piece.now) }
        ensures refused { OnErr result (handed self.new ≡ handed self.old) }
        ensures count { faults self.old ≤ faults self.new }
        ensures ok { OnOk result (faults self.new ≡ faults self.old) }
        ensures failed { OnErr result (faults self.new ≡ counted (faults self.old)) };

    /// How often a write failed. At 2^64 - 1 the count stays.
    fn faults(&self) -> u64
        ensures { result ≡ faults self.now };
}
