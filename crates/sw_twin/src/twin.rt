//! The journal of the current part.

ghost use Rattle.std.specs.Prelude.{◌≡◌, ◌↔◌, ◌+◌, ◌-◌, ◌^◌, ◌<◌, ◌≤◌, ℕ, List, length};
ghost use Rattle.std.specs.Prelude.{IfOk, IfErr, IsErrOf, OnOk, OnErr};
ghost use Rattle.sw_data.specs.Faults.{Rose};
ghost use Rattle.sw_disk.specs.Image.{Image};
ghost use Rattle.sw_disk.specs.DiskRule.{ForTold, Puts, written, Stepped, capped};
ghost use Rattle.sw_disk.specs.Meanings.{Becomes, IsDurable, LeavesSteps};
ghost use Rattle.sw_journal.specs.Content.{BadAt, Records, content};
ghost use Rattle.sw_journal.specs.Content as parts;
ghost use Rattle.sw_journal.specs.Format.{format_2, needed_length};
ghost use Rattle.sw_journal.specs.Journal.{appended, Since};
ghost use Rattle.sw_journal.specs.Quiet.{LeavesAlone};
ghost use Rattle.sw_journal.specs.Reopening.{OnBadJournal};
ghost use Rattle.sw_journal.specs.WholePart.{IsWhole, place_behind};
ghost use Rattle.sw_twin.specs.Current.{part_at, content_of};
ghost use Rattle.sw_twin.specs.Going.{WentOver};
ghost use Rattle.sw_twin.specs.Twin.{StandsFor, IsPastFirst, HasMore, HasSameOrMore, KeepsOrHas};

use crate::going::go_over;
use crate::ones::{count_ones, part_after};
use std::alloc::Global;
use std::marker::Model;
use sw_data::{Bytes, NoMemory};
use sw_disk::{Disk, Failed};
use sw_journal::{AppendError, Journal, ReopenError};
use thiserror::Error;

/// The journal of the current part of a disk. It stands for a disk as long as that is written through it alone.
#[derive(Drop)]
pub struct Twin {
    journal: Journal,
    ones: u64,
}

impl Model for Twin {
    ghost use Rattle.sw_twin.specs.Twin.{TwinState};

    ghost Value = { TwinState };

    ghost view = { λ t. record { journal = t.journal; ones = t.ones } };
}

/// Why no checkpoint was made.
#[derive(Debug, Clone, Copy, PartialEq, Eq, Error)]
pub enum CheckpointError {
    /// The disk's count of faults rose, or stands at its type's end. The twin must be reopened.
    #[error("the disk failed")]
    DiskFault,
    /// The contents are longer than the limit. Nothing was written.
    #[error("the contents pass the limit")]
    Full,
}

impl Twin {
    /// Reopens the current part after a restart, also after a crash: syncs, so that what is read is sure, and reads
    /// Root and the current part. The payloads come with the offsets of their gates.
    pub fn reopen<D: Disk>(
        alloc: Global,
        disk: &mut D,
        limit: u64,
    ) -> Result<(Twin, Vec<(u64, Bytes)>), ReopenError>
        requires { limit ≤ 2 ^ 32 }

        // Each answer is what the image stands for.
        ensures records { ForTold (D.seen disk.old)
            (λ image. IfOk result (λ r. content_of image ≡ Records r.1.items)) }
        ensures not_formatted { IsErrOf result ReopenError.NotFormatted
            → ForTold (D.seen disk.old) (λ image. content_of image ≡ parts.NotFormatted) }
        ensures bad { ForTold (D.seen disk.old) (λ image. IfErr result
            (λ e. OnBadJournal e (λ offset before. content_of image ≡ BadAt offset before))) }

        ensures place { IfOk result (λ r. (r.0.journal.part ≡ part_at r.0.ones)
            × (r.0.journal.limit ≡ limit)) }
        ensures stands { IfOk result (λ r. StandsFor r.0 D.Disk disk.new) }

        // Nothing is written. It syncs first. Unless that call is the one that failed, what reads give is sure, and a
        // crash since one call after the entry has left nothing else.
        ensures quiet { LeavesAlone D.Disk disk.old disk.new }
        ensures first_call { capped (D.clock disk.old + 1) ≤ D.clock disk.new }
        ensures durable { (IsErrOf result ReopenError.DiskFault
            → IsPastFirst D.Disk disk.old disk.new) → IsDurable D.Disk disk.new }
        ensures first { (IsErrOf result ReopenError.DiskFault
            → IsPastFirst D.Disk disk.old disk.new) → ForTold (D.seen disk.old)
            (λ image. D.clock disk.old + 1 < 2 ^ 64 - 1 → (c : Image)
            → D.left_since disk.new (D.clock disk.old + 1) c → c ≡ image) }
        ensures fault { IsErrOf result ReopenError.DiskFault
            → Rose (D.faults disk.old) (D.faults disk.new) }
    {
        match disk.sync() {
            Ok(()) => {}
            Err(Failed) => return Err(ReopenError::DiskFault),
        }
        let ones = match count_ones(disk) {
            Ok(ones) => ones,
            Err(Failed) => return Err(ReopenError::DiskFault),
        };
        let (journal, records) = Journal::reopen_synced(alloc, disk, part_after(ones), limit)?;
        Ok((Twin { journal, ones }, records))
    }

    /// The format of the current part, 1 or 2. Records are appended to format 2 alone.
    pub fn format(&self) -> u8
        ensures version { result ≡ self.now.journal.format.version }
        ensures second { (result ≡ 2) ↔ (self.now.journal.format ≡ format_2) }
    {
        self.journal.format()
    }

    /// The next free offset: the one behind the closed gate.
    pub fn next(&self) -> u64
        ensures { result ≡ self.now.journal.gate + 1 }
    {
        self.journal.next()
    }

    /// What a record whose payload has this length needs, from the next free offset on.
    pub fn needed(&self, length: u64) -> u64
        ensures { result ≡ capped (needed_length self.now.journal.format length) }
    {
        self.journal.needed(length)
    }

    /// How long a part may grow, in bytes.
    pub fn limit(&self) -> u64
        ensures value { result ≡ self.now.journal.limit }
        ensures most { result ≤ 2 ^ 32 }
    {
        self.journal.limit()
    }

    /// Makes room for putting together a record whose payload has this length.
    pub fn reserve(&mut self, length: u64) -> Result<(), NoMemory>
        ensures room { OnOk result (length ≤ self.new.journal.spare) }
        ensures small { OnOk result (needed_length self.new.journal.format length < 2 ^ 64) }
        ensures same { self.new ≡ record self.old {
          journal = record self.old.journal { spare = self.new.journal.spare };
        } }
        ensures kept { self.old.journal.spare ≤ self.new.journal.spare }
    {
        self.journal.reserve(length)
    }

    /// Appends a record to the current part, of format 2: writes it behind the closed gate, syncs, opens the gate,
    /// syncs.
    pub fn append<D: Disk>(&mut self, disk: &mut D, payload: &[u8]) -> Result<(), AppendError>
        requires format { self.old.journal.format ≡ format_2 }
        requires room { length payload.now ≤ self.old.journal.spare }
        requires stands { StandsFor self.old D.Disk disk.old }

        // Full comes exactly where the next free offset and what the record needs pass the limit.
        ensures full { (from needs : ℕ) → IsErrOf result (AppendError.Full from needs)
            ↔ ((from ≡ self.old.journal.gate + 1)
            × (needs ≡ needed_length format_2 (length payload.now))
            × (self.old.journal.limit < from + needs)) }
        ensures untouched { (from needs : ℕ) → IsErrOf result (AppendError.Full from needs)
            → disk.new ≡ disk.old }
        ensures still_stands { (from needs : ℕ) → IsErrOf result (AppendError.Full from needs)
            → StandsFor self.new D.Disk disk.new }

        ensures next { OnOk result (self.new ≡ record self.old {
          journal = record self.old.journal {
            gate = self.old.journal.gate + needed_length format_2 (length payload.now);
            count = self.old.journal.count + 1;
            spare = self.new.journal.spare;
          };
        }) }
        ensures same { OnErr result (self.new ≡ record self.old {
          journal = record self.old.journal { spare = self.new.journal.spare };
        }) }
        ensures spare { self.old.journal.spare ≤ self.new.journal.spare }

        // After Ok the record is on the disk, and no other byte was written.
        ensures bytes { OnOk result (Becomes D.Disk disk.old disk.new (Puts self.old.journal.part
            (written self.old.journal.gate (appended self.old.journal payload.now)))) }
        ensures added { OnOk result
            (Becomes D.Disk disk.old disk.new (HasMore self.old payload.now)) }
        ensures durable { OnOk result (IsDurable D.Disk disk.new) }
        ensures acknowledged { OnOk result (ForTold (D.seen disk.old)
            (λ image. Since D.Disk disk.new disk.new (HasMore self.old payload.now image))) }
        ensures stands { OnOk result (StandsFor self.new D.Disk disk.new) }

        // At every moment of the call a crash leaves an image that stands for the records as they were, or for these
        // and the new one; Root and the other part are as they might have been left before.
        ensures any_moment { LeavesSteps D.Disk disk.old disk.new
            (λ image. HasSameOrMore self.old payload.now) }
        ensures since_entry { ForTold (D.seen disk.old) (λ image. Since D.Disk disk.old disk.new
            (Stepped (HasSameOrMore self.old payload.now) (D.may_leave disk.old))) }

        ensures calls { OnOk result (D.clock disk.new ≡ capped (D.clock disk.old + 4)) }
        ensures most { D.clock disk.new ≤ D.clock disk.old + 4 }
        ensures later { D.clock disk.old ≤ D.clock disk.new }
        ensures fault { IsErrOf result AppendError.DiskFault
            → Rose (D.faults disk.old) (D.faults disk.new) }
        ensures count { D.faults disk.old ≤ D.faults disk.new }
    {
        self.journal.append(disk, payload)
    }

    /// Writes these contents, a whole part of format 2, as the other part, syncs, and makes it the current one; it
    /// takes no memory.
    pub fn checkpoint<D: Disk>(
        &mut self,
        disk: &mut D,
        contents: &[u8],
    ) -> Result<(), CheckpointError>
        requires whole { (payloads : List (List ℕ)) × IsWhole payloads contents.now }
        requires stands { StandsFor self.old D.Disk disk.old }

        // Full comes exactly where the contents are longer than the limit.
        ensures full { IsErrOf result CheckpointError.Full
            ↔ (self.old.journal.limit < length contents.now) }
        ensures untouched { IsErrOf result CheckpointError.Full → disk.new ≡ disk.old }
        ensures still_stands { IsErrOf result CheckpointError.Full
            → StandsFor self.new D.Disk disk.new }

        ensures place { OnOk result (self.new ≡ record {
          journal = record self.old.journal {
            part = part_at (capped (self.old.ones + 1));
            format = format_2;
            gate = self.new.journal.gate;
            count = self.new.journal.count;
          };
          ones = capped (self.old.ones + 1);
        }) }
        ensures end { OnOk result ((payloads : List (List ℕ)) → IsWhole payloads contents.now
            → (self.new.journal.gate ≡ place_behind format_2 16 payloads)
            × (self.new.journal.count ≡ length payloads)) }
        ensures same { OnErr result (self.new ≡ self.old) }

        // After Ok the contents are the other part, it is the current one, and no other byte was written.
        ensures bytes { OnOk result (Becomes D.Disk disk.old disk.new
            (WentOver self.new.journal.part contents.now self.old.ones)) }
        ensures has { OnOk result (Becomes D.Disk disk.old disk.new
            (λ old new. content_of new ≡ content contents.now)) }
        ensures durable { OnOk result (IsDurable D.Disk disk.new) }
        ensures acknowledged { OnOk result (ForTold (D.seen disk.old)
            (λ image. Since D.Disk disk.new disk.new (λ c. content_of c ≡ content contents.now))) }
        ensures stands { OnOk result (StandsFor self.new D.Disk disk.new) }

        // At every moment of the call a crash leaves an image that stands for what one that it might have left before
        // stands for, or for what the contents do.
        ensures any_moment { LeavesSteps D.Disk disk.old disk.new
            (λ image. KeepsOrHas contents.now) }
        ensures since_entry { ForTold (D.seen disk.old) (λ image. Since D.Disk disk.old disk.new
            (Stepped (KeepsOrHas contents.now) (D.may_leave disk.old))) }

        ensures calls { OnOk result (D.clock disk.new ≡ capped (D.clock disk.old + 7)) }
        ensures most { D.clock disk.new ≤ D.clock disk.old + 7 }
        ensures later { D.clock disk.old ≤ D.clock disk.new }
        ensures fault { IsErrOf result CheckpointError.DiskFault
            → Rose (D.faults disk.old) (D.faults disk.new) }
        ensures count { D.faults disk.old ≤ D.faults disk.new }
    {
        if self.journal.limit() < contents.len() as u64 {
            return Err(CheckpointError::Full);
        }
        let ones = self.ones.saturating_add(1);
        let part = part_after(ones);
        match go_over(disk, part, self.ones, contents) {
            Ok(()) => {
                self.journal.move_to(part, contents);
                self.ones = ones;
                Ok(())
            }
            Err(Failed) => Err(CheckpointError::DiskFault),
        }
    }
}
