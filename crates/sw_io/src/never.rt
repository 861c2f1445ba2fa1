//! A source and a sink that never fail.

ghost use Rattle.std.specs.Prelude.{◌≡◌, ◌++◌, [], min, length, IfOk, IsOk, Some, None};
ghost use Rattle.std.specs.Io.{ReadsAtMost};
ghost use Rattle.std.specs.Io.KnownBytes.{ReadConsumes};
ghost use Rattle.sw_io.specs.Memory.{counted};

use super::handed::Trace;
use super::remaining::Remaining;
use super::sink::Sink;
use super::source::Source;
use std::marker::Model;
use sw_data::{Bytes, Failed};

/// A source of these bytes, whose count of faults is always 0.
#[derive(Drop)]
pub struct NeverSource {
    remaining: Remaining,
    reads: u64,
}

impl Model for NeverSource {
    ghost use Rattle.sw_io.specs.Memory.{NeverState};

    ghost Value = { NeverState };

    ghost view = { λ s. record { left = s.remaining; reads = s.reads } };
}

impl NeverSource {
    /// A source of `bytes`.
    pub fn new(bytes: Bytes) -> NeverSource
        ensures { result ≡ record { left = bytes; reads = 0 } }
    {
        NeverSource {
            remaining: Remaining::new(bytes),
            reads: 0,
        }
    }
}

impl Source for NeverSource {
    ghost left = { λ s. Some s.left };

    ghost faults = { λ _. 0 };

    ghost reads = { λ s. s.reads };

    fn read(&mut self, into: &mut [u8]) -> Result<usize, Failed>
        ensures within { ReadsAtMost result into.new }
        ensures bytes { ReadConsumes (Some self.old.left) (Some self.new.left) result into.new }
        ensures never { IsOk result }
        ensures full { IfOk result (λ n. n ≡ min (length self.old.left) (length into.new)) }
        ensures once { self.new.reads ≡ counted self.old.reads }
    {
        self.reads = self.reads.saturating_add(1);
        Ok(self.remaining.give(into))
    }

    fn faults(&self) -> u64 {
        0
    }
}

/// A sink that takes all and keeps nothing, whose count of faults is always 0.
#[derive(Drop)]
pub struct NeverSink {
    handed: Trace<u8>,
}

impl NeverSink {
    /// A sink that keeps nothing.
    pub fn new() -> NeverSink
        ensures faults { ⟦<NeverSink as Sink>⟧.faults result ≡ 0 }
        ensures handed { ⟦<NeverSink as Sink>⟧.handed result ≡ [] }
    {
        NeverSink {
            handed: Trace::new(),
        }
    }
}

impl Sink for NeverSink {
    ghost held = { λ _. None };

    ghost handed = { λ s. s.handed.items };

    ghost faults = { λ _. 0 };

    fn write(&mut self, piece: &[u8]) -> Result<usize, Failed>
        ensures whole { result ≡ Ok (length piece.now) }
        ensures taken { self.new.handed.items ≡ self.old.handed.items ++ piece.now }
    {
        self.handed.note(piece);
        Ok(piece.len())
    }

    fn faults(&self) -> u64 {
        0
    }
}
