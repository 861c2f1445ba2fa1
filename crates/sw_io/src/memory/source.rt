//! A source in memory.

ghost use Rattle.std.specs.Prelude.{◌≡◌, ◌≤◌, ◌↔◌, min, length, drop, Contains, IfOk, OnErr, IsErr, Some};
ghost use Rattle.std.specs.Io.{ReadsAtMost};
ghost use Rattle.std.specs.Io.KnownBytes.{ReadConsumes};
ghost use Rattle.sw_io.specs.Memory.{counted};

use crate::remaining::Remaining;
use crate::source::Source;
use std::marker::Model;
use sw_data::{Bytes, Failed};

/// A source of these bytes, of which the reads whose numbers are listed fail.
#[derive(Drop)]
pub struct MemorySource {
    remaining: Remaining,
    failing: Vec<u64>,
    calls: u64,
    faults: u64,
}

impl Model for MemorySource {
    ghost use Rattle.sw_io.specs.Memory.{SourceState};

    ghost Value = { SourceState };

    ghost view = { λ s. record {
      left = s.remaining;
      failing = s.failing.items;
      calls = s.calls;
      faults = s.faults;
    } };
}

impl MemorySource {
    /// A source of `bytes` whose reads with the numbers in `failing`, counted from 0, fail.
    pub fn new(bytes: Bytes, failing: Vec<u64>) -> MemorySource
        ensures { result ≡ record { left = bytes; failing = failing.items; calls = 0; faults = 0 } }
    {
        MemorySource {
            remaining: Remaining::new(bytes),
            failing,
            calls: 0,
            faults: 0,
        }
    }
}

impl Source for MemorySource {
    ghost left = { λ s. Some s.left };

    ghost faults = { λ s. s.faults };

    ghost reads = { λ s. s.calls };

    fn read(&mut self, into: &mut [u8]) -> Result<usize, Failed>
        ensures within { ReadsAtMost result into.new }
        ensures bytes { ReadConsumes (Some self.old.left) (Some self.new.left) result into.new }
        ensures count { self.old.faults ≤ self.new.faults }
        ensures ok { IfOk result (λ n. self.new ≡ record self.old {
          left = drop n self.old.left;
          calls = counted self.old.calls;
        }) }
        ensures err { OnErr result (self.new ≡ record self.old {
          calls = counted self.old.calls;
          faults = counted self.old.faults;
        }) }
        ensures listed { IsErr result ↔ Contains self.old.failing self.old.calls }
        ensures full { IfOk result (λ n. n ≡ min (length self.old.left) (length into.new)) }
    {
        let call = self.calls;
        self.calls = call.saturating_add(1);
        if self.failing.contains(&call) {
            self.faults = self.faults.saturating_add(1);
            return Err(Failed);
        }
        Ok(self.remaining.give(into))
    }

    fn faults(&self) -> u64 {
        self.faults
    }
}
