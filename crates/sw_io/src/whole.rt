//! Reading all that a source has, and writing all of some bytes.

ghost use Rattle.std.specs.Prelude.{◌≡◌, ◌+◌, ◌<◌, ◌≤◌, ◌++◌, List, ℕ, length, IfOk, OnOk, OnErr, IsErrOf};
ghost use Rattle.std.specs.Io.KnownBytes.{IsAtEnd};
ghost use Rattle.sw_data.specs.Streams.{ConsumesSome, Tells};
ghost use Rattle.sw_data.specs.Faults.{Rose};
ghost use Rattle.sw_io.specs.Taking.{Takes, TakesPrefix};
ghost use Rattle.sw_io.specs.declared.whole.ReadAllError.TheVariants.{ReadFault, NoMemory};

use super::sink::Sink;
use super::source::Source;
use std::alloc::{AllocError, Global};
use sw_data::{Bytes, Failed};
use thiserror::Error;

/// Why a source was not read to its end.
#[derive(Debug, Clone, Copy, PartialEq, Eq, Error)]
pub enum ReadAllError {
    /// A read failed.
    #[error("a read failed")]
    ReadFault,
    /// More bytes came than the limit allows.
    #[error("there are more bytes than the limit allows")]
    TooLarge,
    /// There was no memory for the bytes.
    #[error("there is no memory for the bytes")]
    NoMemory,
}

impl From<Failed> for ReadAllError {
    ghost from_gives = { λ _ e. e ≡ ReadFault };

    fn from(_: Failed) -> ReadAllError {
        ReadAllError::ReadFault
    }
}

impl From<AllocError> for ReadAllError {
    ghost from_gives = { λ _ e. e ≡ NoMemory };

    fn from(_: AllocError) -> ReadAllError {
        ReadAllError::NoMemory
    }
}

/// Reads a source to its end, which takes at most `limit` + 2 reads. More than `limit` bytes are too large.
pub fn read_all<S: Source>(alloc: Global, source: &mut S, limit: u64) -> Result<Bytes, ReadAllError>
    // The bytes are all that was left, and they are within the limit.
    ensures bytes { IfOk result (λ bytes. Tells (S.left source.old) bytes) }
    ensures within { IfOk result (λ bytes. length bytes ≤ limit) }
    ensures end { OnOk result (IsAtEnd (S.left source.new)) }

    // Too large is told only where more was left. With the clauses above it is told exactly there, if no read
    // fails and there is memory.
    ensures too_large { IsErrOf result ReadAllError.TooLarge
        → (all : List ℕ) × Tells (S.left source.old) all × (limit < length all) }

    // Whatever is answered, the source lost nothing but bytes at its front.
    ensures consumed { ConsumesSome (S.left source.old) (S.left source.new) }

    ensures read_fault { IsErrOf result ReadAllError.ReadFault
        → Rose (S.faults source.old) (S.faults source.new) }
    ensures count { S.faults source.old ≤ S.faults source.new }
    ensures reads { S.reads source.new ≤ S.reads source.old + (limit + 2) }
{
    let mut all = Vec::new(alloc);
    let mut buffer = [0u8; 4096];
    loop {
        let count = source.read(&mut buffer)?;
        if count == 0 {
            return Ok(Bytes::from_vec(all));
        }
        if count as u64 > limit - all.len() as u64 {
            return Err(ReadAllError::TooLarge);
        }
        all.extend_from_slice(&buffer[..count])?;
    }
}

/// Writes all of `bytes`, in as many pieces as the sink takes them in.
pub fn write_all<K: Sink>(sink: &mut K, bytes: &[u8]) -> Result<(), Failed>
    ensures ok { OnOk result (Takes K.Sink sink.old sink.new bytes.now) }
    ensures prefix { OnErr result (TakesPrefix K.Sink sink.old sink.new bytes.now) }
    ensures failed { OnErr result (Rose (K.faults sink.old) (K.faults sink.new)) }
    ensures count { K.faults sink.old ≤ K.faults sink.new }
{
    let mut rest = bytes;
    while !rest.is_empty() {
        let taken = sink.write(rest)?;
        rest = rest.split_at(taken).1;
    }
    Ok(())
}
