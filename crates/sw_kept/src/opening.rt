//! What a disk keeps, when it is opened after a restart.

ghost use Rattle.std.specs.Prelude.{◌≡◌, ◌+◌, ◌-◌, ◌^◌, ◌<◌, ◌≤◌, ℕ, IfOk, IsErrOf};
ghost use Rattle.sw_data.specs.Faults.{Rose};
ghost use Rattle.sw_disk.specs.DiskRule.{ForTold, capped};
ghost use Rattle.sw_disk.specs.Image.{Image};
ghost use Rattle.sw_disk.specs.Meanings.{IsDurable};
ghost use Rattle.sw_journal.specs.Quiet.{LeavesAlone};
ghost use Rattle.sw_kept.specs.Keeping.{KeepsNow};
ghost use Rattle.sw_kept.specs.Stored.{Bad, HasKept, Unformatted, stored};
ghost use Rattle.sw_rules.specs.Storage.{IsMade};
ghost use Rattle.sw_twin.specs.Current.{part_at};
ghost use Rattle.sw_twin.specs.Twin.{IsPastFirst};

use crate::content::content_by;
use std::alloc::Global;
use sw_change::Content;
use sw_data::NoMemory;
use sw_disk::Disk;
use sw_twin::{ReopenError, Twin};
use thiserror::Error;

/// Why a disk was not opened.
#[derive(Debug, Clone, Copy, PartialEq, Eq, Error)]
pub enum OpenError {
    /// A growth was refused by the allocator.
    #[error("out of memory")]
    NoMemory,
    /// The disk's count of faults rose, or stands at its type's end.
    #[error("the disk failed")]
    DiskFault,
    /// The current part begins with the header of neither format.
    #[error("the disk is not formatted")]
    NotFormatted,
    /// The journal is bad at this offset: of a gate that is missing, or followed by no whole record, or by one whose
    /// payload spells no changes.
    #[error("the journal is bad at offset {0}")]
    BadJournal(u64),
}

impl From<NoMemory> for OpenError {
    ghost use Rattle.sw_kept.specs.declared.opening.OpenError.TheVariants.{NoMemory};

    ghost from_gives = { λ _ e. e ≡ NoMemory };

    fn from(_: NoMemory) -> OpenError {
        OpenError::NoMemory
    }
}

/// Opens a disk after a restart, also after a crash: syncs, so that what is read is sure, and reads what is kept. Nothing is
/// written.
pub fn open<D: Disk>(alloc: Global, disk: &mut D, limit: u64) -> Result<(Twin, Content), OpenError>
    requires { limit ≤ 2 ^ 32 }

    // Each answer is what the image keeps.
    ensures kept { ForTold (D.seen disk.old) (λ image. IfOk result (λ r. HasKept r.1 image)) }
    ensures made { IfOk result (λ r. IsMade r.1) }
    ensures not_formatted { IsErrOf result OpenError.NotFormatted
        → ForTold (D.seen disk.old) (λ image. stored image ≡ Unformatted) }
    ensures bad { (offset : ℕ) → IsErrOf result (OpenError.BadJournal offset)
        → ForTold (D.seen disk.old) (λ image. stored image ≡ Bad offset) }

    ensures place { IfOk result (λ r. (r.0.journal.part ≡ part_at r.0.ones)
        × (r.0.journal.limit ≡ limit)) }
    ensures keeps { IfOk result (λ r. KeepsNow r.0 r.1 D.Disk disk.new) }

    // Unless the first call is the one that failed, what reads give is sure, and a crash since one call after the entry
    // has left nothing else.
    ensures quiet { LeavesAlone D.Disk disk.old disk.new }
    ensures first_call { capped (D.clock disk.old + 1) ≤ D.clock disk.new }
    ensures durable { (IsErrOf result OpenError.DiskFault
        → IsPastFirst D.Disk disk.old disk.new) → IsDurable D.Disk disk.new }
    ensures first { (IsErrOf result OpenError.DiskFault
        → IsPastFirst D.Disk disk.old disk.new) → ForTold (D.seen disk.old)
        (λ image. D.clock disk.old + 1 < 2 ^ 64 - 1 → (c : Image)
        → D.left_since disk.new (D.clock disk.old + 1) c → c ≡ image) }
    ensures fault { IsErrOf result OpenError.DiskFault
        → Rose (D.faults disk.old) (D.faults disk.new) }
{
    match Twin::reopen(alloc, disk, limit) {
        Ok((twin, records)) => match content_by(alloc, &records)? {
            Ok(content) => Ok((twin, content)),
            Err(gate) => Err(OpenError::BadJournal(gate)),
        },
        Err(ReopenError::BadJournal { offset, before }) => match content_by(alloc, &before)? {
            Ok(_) => Err(OpenError::BadJournal(offset)),
            Err(gate) => Err(OpenError::BadJournal(gate)),
        },
        Err(ReopenError::NotFormatted) => Err(OpenError::NotFormatted),
        Err(ReopenError::DiskFault) => Err(OpenError::DiskFault),
        Err(ReopenError::NoMemory) => Err(OpenError::NoMemory),
    }
}
