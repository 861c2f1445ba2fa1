//! Bytes that are handed out from the front.

ghost use Rattle.std.specs.Prelude.{◌≡◌, min, length, take, drop};

use std::marker::Model;
use sw_data::Bytes;

/// Bytes that are handed out from the front, seen by contracts as those that remain.
#[derive(Drop)]
pub struct Remaining {
    bytes: Bytes,
    at: usize,
}

impl Model for Remaining {
    ghost use Rattle.std.specs.Prelude.{◌≤◌, List, ℕ, length, drop};

    ghost Value = { List ℕ };

    ghost view = { λ r. drop r.at r.bytes };

    ghost invariant = { λ r. r.at ≤ length r.bytes };
}

impl Remaining {
    /// All of `bytes` remain.
    pub fn new(bytes: Bytes) -> Remaining
        ensures { result ≡ bytes }
    {
        Remaining { bytes, at: 0 }
    }

    /// Moves as many bytes as both sides allow to the front of `into`, and says how many.
    pub fn give(&mut self, into: &mut [u8]) -> usize
        ensures count { result ≡ min (length self.old) (length into.new) }
        ensures given { take result into.new ≡ take result self.old }
        ensures rest { self.new ≡ drop result self.old }
    {
        let count = fill(into, self.bytes.as_bytes().split_at(self.at).1);
        self.at += count;
        count
    }
}

// Copies the front of `from` to the front of `into`, as far as both go.
fn fill(into: &mut [u8], from: &[u8]) -> usize
    ensures count { result ≡ min (length from.now) (length into.new) }
    ensures front { take result into.new ≡ take result from.now }
{
    let count = from.len().min(into.len());
    into.split_at_mut(count)
        .0
        .copy_from_slice(from.split_at(count).0);
    count
}
