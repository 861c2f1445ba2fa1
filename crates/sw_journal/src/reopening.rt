//! Reopening a part that a crash may have left.

ghost use Rattle.std.specs.Prelude.{◌≡◌, ◌<◌, ◌≤◌, ◌+◌, ◌-◌, ◌^◌, length, IsErrOf, IfOk, IfErr};
ghost use Rattle.sw_disk.specs.Image.{Image, get};
ghost use Rattle.sw_disk.specs.DiskRule.{ForTold};
ghost use Rattle.sw_disk.specs.Meanings.{IsDurable};
ghost use Rattle.sw_data.specs.Faults.{Rose};
ghost use Rattle.sw_journal.specs.Content.{content, BadAt, Records};
ghost use Rattle.sw_journal.specs.Content as parts;
ghost use Rattle.sw_journal.specs.Journal.{StandsIn, StandsFor};
ghost use Rattle.sw_journal.specs.Quiet.{LeavesAlone};
ghost use Rattle.sw_journal.specs.Reopening.{OnBadJournal};

use crate::journal::Journal;
use crate::parse::read_records;
use crate::read::{ReadError, read_part};
use crate::version::Version;
use std::alloc::Global;
use sw_data::{Bytes, NoMemory};
use sw_disk::{Disk, Failed, Part};
use thiserror::Error;

/// Why a journal was not reopened.
#[derive(Debug, Drop, Error)]
pub enum ReopenError {
    /// A growth was refused by the allocator.
    #[error("out of memory")]
    NoMemory,
    /// The disk's count of faults rose, or stands at its type's end.
    #[error("the disk failed")]
    DiskFault,
    /// The part begins with the header of neither format.
    #[error("the part has no journal")]
    NotFormatted,
    /// The first gate is missing, or the open gate at this offset, with all before it whole, is followed by no whole
    /// record. `before` has the whole records before it, each with the offset of its gate.
    #[error("the journal is bad at offset {offset}")]
    BadJournal {
        offset: u64,
        before: Vec<(u64, Bytes)>,
    },
}

impl From<NoMemory> for ReopenError {
    ghost use Rattle.sw_journal.specs.declared.reopening.ReopenError.TheVariants.{NoMemory};

    ghost from_gives = { λ _ e. e ≡ NoMemory };

    fn from(_: NoMemory) -> ReopenError {
        ReopenError::NoMemory
    }
}

impl From<ReadError> for ReopenError {
    ghost use Rattle.sw_journal.specs.Reopening.{reopen_error};

    ghost from_gives = { λ e r. r ≡ reopen_error e };

    fn from(error: ReadError) -> ReopenError {
        match error {
            ReadError::NoMemory => ReopenError::NoMemory,
            ReadError::DiskFault => ReopenError::DiskFault,
        }
    }
}

impl Journal {
    /// Reopens a part after a restart, also after a crash: syncs, so that what is read is sure, and reads the part
    /// once. The payloads come with the offsets of their gates.
    pub fn reopen<D: Disk>(
        alloc: Global,
        disk: &mut D,
        part: Part,
        limit: u64,
    ) -> Result<(Journal, Vec<(u64, Bytes)>), ReopenError>
        requires { limit ≤ 2 ^ 32 }

        // Each answer is what the part's bytes stand for.
        ensures records { ForTold (D.seen disk.old)
            (λ image. IfOk result (λ r. content (get part image) ≡ Records r.1.items)) }
        ensures not_formatted { IsErrOf result ReopenError.NotFormatted
            → ForTold (D.seen disk.old) (λ image. content (get part image) ≡ parts.NotFormatted) }
        ensures bad { ForTold (D.seen disk.old) (λ image. IfErr result
            (λ e. OnBadJournal e (λ offset before. content (get part image)
            ≡ BadAt offset before))) }

        ensures place { IfOk result (λ r. (r.0.part ≡ part) × (r.0.limit ≡ limit)) }
        ensures stands { IfOk result (λ r. StandsFor r.0 D.Disk disk.new) }

        // Nothing is written. Unless the disk failed, what was read is sure.
        ensures quiet { LeavesAlone D.Disk disk.old disk.new }
        ensures durable { (IsErrOf result ReopenError.DiskFault → ⊥) → IsDurable D.Disk disk.new }
        // It syncs first: what a crash since one call after the entry may have left is what reads give.
        ensures first { (IsErrOf result ReopenError.DiskFault → ⊥) → ForTold (D.seen disk.old)
            (λ image. D.clock disk.old + 1 < 2 ^ 64 - 1 → (c : Image)
            → D.left_since disk.new (D.clock disk.old + 1) c → c ≡ image) }
        ensures fault { IsErrOf result ReopenError.DiskFault
            → Rose (D.faults disk.old) (D.faults disk.new) }
    {
        match disk.sync() {
            Ok(()) => {}
            Err(Failed) => return Err(ReopenError::DiskFault),
        }
        Journal::reopen_synced(alloc, disk, part, limit)
    }

    /// As `reopen`, where a sync answered `Ok` and nothing was written since.
    pub fn reopen_synced<D: Disk>(
        alloc: Global,
        disk: &mut D,
        part: Part,
        limit: u64,
    ) -> Result<(Journal, Vec<(u64, Bytes)>), ReopenError>
        requires limit { limit ≤ 2 ^ 32 }
        requires durable { IsDurable D.Disk disk.old }
        ensures records { ForTold (D.seen disk.old)
            (λ image. IfOk result (λ r. content (get part image) ≡ Records r.1.items)) }
        ensures not_formatted { IsErrOf result ReopenError.NotFormatted
            → ForTold (D.seen disk.old) (λ image. content (get part image) ≡ parts.NotFormatted) }
        ensures bad { ForTold (D.seen disk.old) (λ image. IfErr result
            (λ e. OnBadJournal e (λ offset before. content (get part image)
            ≡ BadAt offset before))) }
        ensures place { IfOk result (λ r. (r.0.part ≡ part) × (r.0.limit ≡ limit)) }
        ensures stands { IfOk result (λ r. StandsFor r.0 D.Disk disk.new) }
        ensures quiet { LeavesAlone D.Disk disk.old disk.new }
        ensures durable { IsDurable D.Disk disk.new }
        ensures fault { IsErrOf result ReopenError.DiskFault
            → Rose (D.faults disk.old) (D.faults disk.new) }
    {
        let bytes = read_part(alloc, disk, part)?;
        parse_part(alloc, part, limit, &bytes)
    }
}

// What the bytes of a part stand for.
fn parse_part(
    alloc: Global,
    part: Part,
    limit: u64,
    bytes: &[u8],
) -> Result<(Journal, Vec<(u64, Bytes)>), ReopenError>
    requires limit { limit ≤ 2 ^ 32 }
    requires small { length bytes.now < 2 ^ 63 }
    ensures records { IfOk result (λ r. content bytes.now ≡ Records r.1.items) }
    ensures not_formatted { IsErrOf result ReopenError.NotFormatted
        → content bytes.now ≡ parts.NotFormatted }
    ensures bad { IfErr result
        (λ e. OnBadJournal e (λ offset before. content bytes.now ≡ BadAt offset before)) }
    ensures place { IfOk result (λ r. (r.0.part ≡ part) × (r.0.limit ≡ limit)) }
    ensures stands { IfOk result (λ r. StandsIn r.0 bytes.now) }
    ensures no_fault { IsErrOf result ReopenError.DiskFault → ⊥ }
{
    let Some(version) = Version::of(bytes) else {
        return Err(ReopenError::NotFormatted);
    };
    let found = read_records(alloc, version, bytes)?;
    if !found.is_closed {
        return Err(ReopenError::BadJournal {
            offset: found.gate,
            before: found.records,
        });
    }
    let count = found.records.len() as u64;
    let journal = Journal::standing(alloc, part, version, limit, found.gate, count)?;
    Ok((journal, found.records))
}
