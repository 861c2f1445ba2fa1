//! Sources and sinks over a reader and a writer of std, as standard input and standard output are.
//!
//! They tell their bytes where the reader or the writer does, and those of std over a file or a stream tell none.

ghost use Rattle.std.specs.Prelude.{◌≡◌, []};

use super::handed::Trace;
use super::sink::Sink;
use super::source::Source;
use std::io::{Read, Write};
use sw_data::Failed;

/// A source over a reader.
#[derive(Drop)]
pub struct StdSource<B: Read + Drop> {
    input: B,
    reads: u64,
    faults: u64,
}

impl<B: Read + Drop> StdSource<B> {
    /// A source over `input`, whose counts are 0.
    pub fn new(input: B) -> StdSource<B>
        ensures left { ⟦<StdSource<B> as Source>⟧.left result ≡ B.remaining input }
        ensures reads { ⟦<StdSource<B> as Source>⟧.reads result ≡ 0 }
        ensures faults { ⟦<StdSource<B> as Source>⟧.faults result ≡ 0 }
    {
        StdSource {
            input,
            reads: 0,
            faults: 0,
        }
    }
}

impl<B: Read + Drop> Source for StdSource<B> {
    ghost left = { λ s. B.remaining s.input };

    ghost faults = { λ s. s.faults };

    ghost reads = { λ s. s.reads };

    fn read(&mut self, into: &mut [u8]) -> Result<usize, Failed> {
        self.reads = self.reads.saturating_add(1);
        match self.input.read(into) {
            Ok(count) => Ok(count),
            Err(_) => {
                self.faults = self.faults.saturating_add(1);
                Err(Failed)
            }
        }
    }

    fn faults(&self) -> u64 {
        self.faults
    }
}

/// A sink over a writer, which should hold nothing back, as it is never flushed.
#[derive(Drop)]
pub struct StdSink<W: Write + Drop> {
    output: W,
    handed: Trace<u8>,
    faults: u64,
}

impl<W: Write + Drop> StdSink<W> {
    /// A sink over `output`, whose count of faults is 0.
    pub fn new(output: W) -> StdSink<W>
        ensures held { ⟦<StdSink<W> as Sink>⟧.held result ≡ W.contents output }
        ensures handed { ⟦<StdSink<W> as Sink>⟧.handed result ≡ [] }
        ensures faults { ⟦<StdSink<W> as Sink>⟧.faults result ≡ 0 }
    {
        StdSink {
            output,
            handed: Trace::new(),
            faults: 0,
        }
    }
}

impl<W: Write + Drop> Sink for StdSink<W> {
    ghost held = { λ s. W.contents s.output };

    ghost handed = { λ s. s.handed.items };

    ghost faults = { λ s. s.faults };

    fn write(&mut self, piece: &[u8]) -> Result<usize, Failed> {
        match self.output.write(piece) {
            Ok(count) if count > 0 || piece.is_empty() => {
                self.handed.note(piece.split_at(count).0);
                Ok(count)
            }
            _ => {
                self.faults = self.faults.saturating_add(1);
                Err(Failed)
            }
        }
    }

    fn faults(&self) -> u64 {
        self.faults
    }
}
