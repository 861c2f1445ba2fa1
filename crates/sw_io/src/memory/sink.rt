//! A sink in memory.

ghost use Rattle.std.specs.Prelude.{◌≡◌, ◌<◌, ◌≤◌, ◌++◌, [], length, Contains, IfOk, OnOk, OnErr, IsErr, Some};
ghost use Rattle.std.specs.Io.{WritesAtMost};
ghost use Rattle.std.specs.Io.KnownBytes.{WriteAppends};
ghost use Rattle.sw_io.specs.Memory.{counted};

use crate::sink::Sink;
use std::alloc::Global;
use std::marker::Model;
use sw_data::Failed;

/// A sink that keeps what it takes, and of which the writes whose numbers are listed fail.
#[derive(Drop)]
pub struct MemorySink {
    bytes: Vec<u8>,
    failing: Vec<u64>,
    calls: u64,
    faults: u64,
}

impl Model for MemorySink {
    ghost use Rattle.sw_io.specs.Memory.{SinkState};

    ghost Value = { SinkState };

    ghost view = { λ s. record {
      held = s.bytes.items;
      failing = s.failing.items;
      calls = s.calls;
      faults = s.faults;
    } };
}

impl MemorySink {
    /// An empty sink whose writes with the numbers in `failing`, counted from 0, fail.
    pub fn new(alloc: Global, failing: Vec<u64>) -> MemorySink
        ensures { result ≡ record { held = []; failing = failing.items; calls = 0; faults = 0 } }
    {
        MemorySink {
            bytes: Vec::new(alloc),
            failing,
            calls: 0,
            faults: 0,
        }
    }

    /// The bytes that it holds.
    pub fn bytes(&self) -> &[u8]
        ensures { result.now ≡ self.now.held }
    {
        self.bytes.as_slice()
    }
}

impl Sink for MemorySink {
    ghost held = { λ s. Some s.held };

    ghost handed = { λ s. s.held };

    ghost faults = { λ s. s.faults };

    /// A write also fails where there is no memory for the piece.
    fn write(&mut self, piece: &[u8]) -> Result<usize, Failed>
        ensures within { WritesAtMost result piece.now }
        ensures some { IfOk result (λ n. 0 < length piece.now → 0 < n) }
        ensures bytes { WriteAppends (Some self.old.held) (Some self.new.held) result piece.now }
        ensures count { self.old.faults ≤ self.new.faults }
        ensures ok { OnOk result (self.new ≡ record self.old {
          held = self.old.held ++ piece.now;
          calls = counted self.old.calls;
        }) }
        ensures err { OnErr result (self.new ≡ record self.old {
          calls = counted self.old.calls;
          faults = counted self.old.faults;
        }) }
        ensures listed { Contains self.old.failing self.old.calls → IsErr result }
        ensures whole { IfOk result (λ n. n ≡ length piece.now) }
    {
        let call = self.calls;
        self.calls = call.saturating_add(1);
        if self.failing.contains(&call) || self.bytes.extend_from_slice(piece).is_err() {
            self.faults = self.faults.saturating_add(1);
            return Err(Failed);
        }
        Ok(piece.len())
    }

    fn faults(&self) -> u64 {
        self.faults
    }
}
