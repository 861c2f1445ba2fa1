//! The journal of one part.

ghost use Rattle.std.specs.Prelude.{◌≡◌, ◌↔◌, ◌+◌, ◌-◌, ◌^◌, ◌<◌, ◌≤◌, ◌++◌, ◌∷◌, [], ℕ, List, length, vec_len, vec_capacity};
ghost use Rattle.std.specs.Prelude.{IfOk, IsErrOf, IsTrue, OnOk, OnErr};
ghost use Rattle.sw_data.specs.Faults.{Rose};
ghost use Rattle.sw_disk.specs.DiskRule.{ForTold, OnPart, Puts, written, Stepped, capped};
ghost use Rattle.sw_disk.specs.Meanings.{Becomes, IsDurable, LeavesSteps};
ghost use Rattle.sw_journal.specs.Format.{format_2, needed_length, record_bytes};
ghost use Rattle.sw_journal.specs.Journal.{StandsIn, StandsFor, appended, HasMore, HasSameOrMore, Since};
ghost use Rattle.sw_journal.specs.Version.{format_at};
ghost use Rattle.sw_journal.specs.WholePart.{IsWhole, place_behind};

use crate::gate::add_record;
use crate::parse::end_of_records;
use crate::version::Version;
use std::alloc::Global;
use std::marker::Model;
use sw_data::NoMemory;
use sw_disk::{Disk, Failed, Part};
use thiserror::Error;

// What stands in a record of format 2 beside its payload: the length, the number and the next gate.
const OVERHEAD: u64 = 13;

/// The journal of one part of a disk. It stands for a disk as long as its part is written through it alone.
#[derive(Drop)]
pub struct Journal {
    part: Part,
    version: Version,
    gate: u64,
    count: u64,
    limit: u64,
    buffer: Vec<u8>,
}

impl Model for Journal {
    ghost use Rattle.std.specs.Prelude.{◌-◌, ◌^◌, ◌<◌, ◌≤◌, vec_capacity};
    ghost use Rattle.sw_journal.specs.Journal.{JournalState};
    ghost use Rattle.sw_journal.specs.Version.{format_at};

    ghost Value = { JournalState };

    ghost view = { λ j. record {
      part = j.part;
      format = format_at j.version;
      gate = j.gate;
      count = j.count;
      limit = j.limit;
      spare = vec_capacity j.buffer - 13;
    } };

    ghost invariant = { λ j. (j.limit ≤ 2 ^ 32) × (j.gate < 2 ^ 63) × (j.count ≤ j.gate)
        × (13 ≤ vec_capacity j.buffer) };
}

/// Why a record was not appended.
#[derive(Debug, Clone, Copy, PartialEq, Eq, Error)]
pub enum AppendError {
    /// The disk's count of faults rose, or stands at its type's end. The journal must be reopened.
    #[error("the disk failed")]
    DiskFault,
    /// The record would pass the limit: the next free offset, and what the record needs from there on.
    #[error("the journal is full: {length} bytes, and {needed} more are needed")]
    Full { length: u64, needed: u64 },
}

impl Journal {
    // A journal whose first closed gate stands at `gate`, behind `count` records.
    pub(crate) fn standing(
        alloc: Global,
        part: Part,
        version: Version,
        limit: u64,
        gate: u64,
        count: u64,
    ) -> Result<Journal, NoMemory>
        requires limit { limit ≤ 2 ^ 32 }
        requires gate { gate < 2 ^ 63 }
        requires count { count ≤ gate }
        ensures part { IfOk result (λ j. j.part ≡ part) }
        ensures format { IfOk result (λ j. j.format ≡ format_at version) }
        ensures gate { IfOk result (λ j. j.gate ≡ gate) }
        ensures count { IfOk result (λ j. j.count ≡ count) }
        ensures limit { IfOk result (λ j. j.limit ≡ limit) }
    {
        Ok(Journal {
            part,
            version,
            gate,
            count,
            limit,
            buffer: Vec::with_capacity(alloc, OVERHEAD as usize)?,
        })
    }

    /// The part's format, 1 or 2. Records are appended to format 2 alone.
    pub fn format(&self) -> u8
        ensures version { result ≡ self.now.format.version }
        ensures second { (result ≡ 2) ↔ (self.now.format ≡ format_2) }
    {
        self.version.number()
    }

    /// How long the part may grow, in bytes.
    pub fn limit(&self) -> u64
        ensures value { result ≡ self.now.limit }
        ensures most { result ≤ 2 ^ 32 }
    {
        self.limit
    }

    /// The next free offset: the one behind the closed gate.
    pub fn next(&self) -> u64
        ensures { result ≡ self.now.gate + 1 }
    {
        self.gate + 1
    }

    /// What a record whose payload has this length needs, from the next free offset on.
    pub fn needed(&self, length: u64) -> u64
        ensures { result ≡ capped (needed_length self.now.format length) }
    {
        length.saturating_add(5 + self.version.width())
    }

    /// Makes room for putting together a record whose payload has this length.
    pub fn reserve(&mut self, length: u64) -> Result<(), NoMemory>
        ensures room { OnOk result (length ≤ self.new.spare) }
        ensures small { OnOk result (needed_length self.new.format length < 2 ^ 64) }
        ensures same { self.new ≡ record self.old { spare = self.new.spare } }
        ensures kept { self.old.spare ≤ self.new.spare }
    {
        let Some(all) = length.checked_add(OVERHEAD) else {
            return Err(NoMemory);
        };
        self.buffer.clear();
        self.buffer.reserve(all as usize)?;
        Ok(())
    }

    /// Goes over to a part that was written whole, as these bytes of format 2, and has nothing behind them; it takes no
    /// memory.
    pub fn move_to(&mut self, part: Part, contents: &[u8])
        requires whole { (payloads : List (List ℕ)) × IsWhole payloads contents.now }
        requires small { length contents.now < 2 ^ 63 }
        ensures place { self.new ≡ record self.old {
          part = part;
          format = format_2;
          gate = self.new.gate;
          count = self.new.count;
        } }
        ensures end { (payloads : List (List ℕ)) → IsWhole payloads contents.now
            → (self.new.gate ≡ place_behind format_2 16 payloads)
            × (self.new.count ≡ length payloads) }
        ensures stands { StandsIn self.new contents.now }
    {
        let (gate, count) = end_of_records(Version::Two, contents);
        self.part = part;
        self.version = Version::Two;
        self.gate = gate;
        self.count = count;
    }

    /// Appends a record of format 2: writes it behind the closed gate, syncs, opens the gate, syncs.
    pub fn append<D: Disk>(&mut self, disk: &mut D, payload: &[u8]) -> Result<(), AppendError>
        requires format { self.old.format ≡ format_2 }
        requires room { length payload.now ≤ self.old.spare }
        requires stands { StandsFor self.old D.Disk disk.old }

        // Full comes exactly where the next free offset and what the record needs pass the limit.
        ensures full { (from needs : ℕ) → IsErrOf result (AppendError.Full from needs)
            ↔ ((from ≡ self.old.gate + 1) × (needs ≡ needed_length format_2 (length payload.now))
            × (self.old.limit < from + needs)) }
        ensures untouched { (from needs : ℕ) → IsErrOf result (AppendError.Full from needs)
            → disk.new ≡ disk.old }
        ensures still_stands { (from needs : ℕ) → IsErrOf result (AppendError.Full from needs)
            → StandsFor self.new D.Disk disk.new }

        ensures next { OnOk result (self.new ≡ record self.old {
          gate = self.old.gate + needed_length format_2 (length payload.now);
          count = self.old.count + 1;
          spare = self.new.spare;
        }) }
        ensures same { OnErr result (self.new ≡ record self.old { spare = self.new.spare }) }
        ensures spare { self.old.spare ≤ self.new.spare }

        // After Ok the record is on the disk, and no other byte was written.
        ensures bytes { OnOk result (Becomes D.Disk disk.old disk.new
            (Puts self.old.part (written self.old.gate (appended self.old payload.now)))) }
        ensures added { OnOk result (Becomes D.Disk disk.old disk.new
            (OnPart self.old.part (HasMore self.old payload.now))) }
        ensures durable { OnOk result (IsDurable D.Disk disk.new) }
        ensures acknowledged { OnOk result
            (ForTold (D.seen disk.old) (λ image. Since D.Disk disk.new disk.new
            (OnPart self.old.part (HasMore self.old payload.now) image))) }
        ensures stands { OnOk result (StandsFor self.new D.Disk disk.new) }

        // At every moment of the call a crash leaves the records as they were, or these and the new one, and the
        // other parts as it might have left them before.
        ensures any_moment { LeavesSteps D.Disk disk.old disk.new
            (λ image. OnPart self.old.part (HasSameOrMore self.old payload.now)) }
        ensures since_entry { ForTold (D.seen disk.old) (λ image. Since D.Disk disk.old disk.new
            (Stepped (OnPart self.old.part (HasSameOrMore self.old payload.now))
            (D.may_leave disk.old))) }

        ensures calls { OnOk result (D.clock disk.new ≡ capped (D.clock disk.old + 4)) }
        ensures most { D.clock disk.new ≤ D.clock disk.old + 4 }
        ensures later { D.clock disk.old ≤ D.clock disk.new }
        ensures fault { IsErrOf result AppendError.DiskFault
            → Rose (D.faults disk.old) (D.faults disk.new) }
        ensures count { D.faults disk.old ≤ D.faults disk.new }
    {
        let length = self.next();
        let needed = self.needed(payload.len() as u64);
        if is_past(length, needed, self.limit) {
            return Err(AppendError::Full { length, needed });
        }
        spell_record(&mut self.buffer, self.count, payload);
        match add_record(disk, self.part, self.gate, &self.buffer) {
            Ok(()) => {
                self.gate += needed;
                self.count += 1;
                Ok(())
            }
            Err(Failed) => Err(AppendError::DiskFault),
        }
    }
}

// Whether two lengths together pass a limit.
fn is_past(length: u64, needed: u64, limit: u64) -> bool
    ensures { IsTrue result ↔ (limit < length + needed) }
{
    limit < length || limit - length < needed
}

// Puts together what stands behind a gate: a record of format 2, and the next gate, which is closed.
fn spell_record(buffer: &mut Vec<u8>, number: u64, payload: &[u8])
    requires room { length payload.now + 13 ≤ vec_capacity buffer.old }
    requires short { length payload.now < 2 ^ 32 }
    ensures spelled { buffer.new.items ≡ record_bytes format_2 number payload.now ++ 0 ∷ [] }
    ensures room { vec_capacity buffer.old ≤ vec_capacity buffer.new }
{
    buffer.clear();
    extend_within(buffer, &(payload.len() as u32).to_be_bytes());
    extend_within(buffer, &number.to_be_bytes());
    extend_within(buffer, payload);
    extend_within(buffer, &[0]);
}

// Adds bytes for which there is room.
fn extend_within(buffer: &mut Vec<u8>, bytes: &[u8])
    requires { vec_len buffer.old + length bytes.now ≤ vec_capacity buffer.old }
    ensures bytes { buffer.new.items ≡ buffer.old.items ++ bytes.now }
    ensures len { vec_len buffer.new ≡ vec_len buffer.old + length bytes.now }
    ensures room { vec_capacity buffer.old ≤ vec_capacity buffer.new }
{
    buffer.extend_from_slice(bytes).unwrap();
}
