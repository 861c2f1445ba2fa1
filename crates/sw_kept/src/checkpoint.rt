//! Checkpoints: the content is written anew as the other part, which becomes the current one.

ghost use Rattle.std.specs.Prelude.{◌≡◌, ◌↔◌, ◌+◌, ◌<◌, ◌≤◌, length, IfOk, IsErrOf, OnErr, OnOk};
ghost use Rattle.sw_data.specs.declared.storage.Kept as content_of;
ghost use Rattle.sw_data.specs.Faults.{Rose};
ghost use Rattle.sw_disk.specs.DiskRule.{ForTold, capped};
ghost use Rattle.sw_disk.specs.Meanings.{LeavesOnly};
ghost use Rattle.sw_journal.specs.Format.{format_2};
ghost use Rattle.sw_kept.specs.Keeping.{KeepsNow, StaysTold};
ghost use Rattle.sw_kept.specs.Spelling.{IsContents, SpellEach, SpellsOne};
ghost use Rattle.sw_kept.specs.Stored.{HasKept};
ghost use Rattle.sw_rules.specs.Storage.{IsMade};
ghost use Rattle.sw_twin.specs.Twin.{StandsFor};

use std::alloc::Global;
use std::slice;
use sw_change::changes_of;
use sw_codec::write;
use sw_data::{Bytes, Change, Kept, NoMemory};
use sw_disk::Disk;
use sw_twin::{CheckpointError, Twin, part_of};

// The spelling of a change, which is shorter than 2^32 bytes.
fn payload_of(alloc: Global, change: &Change) -> Result<Bytes, NoMemory>
    ensures { IfOk result (SpellsOne change.now) }
{
    let payload = write(alloc, slice::from_ref(change))?;
    if payload.as_bytes().len() >= 1 << 32 {
        return Err(NoMemory);
    }
    Ok(payload)
}

// A payload for each change.
fn payloads_of(alloc: Global, changes: &[Change]) -> Result<Vec<Bytes>, NoMemory>
    ensures { IfOk result (λ payloads. SpellEach changes.now payloads.items) }
{
    let mut payloads = Vec::new(alloc);
    for change in changes {
        payloads.push(payload_of(alloc, change)?)?;
    }
    Ok(payloads)
}

/// The bytes of a whole part that keeps a content.
pub fn contents_of(alloc: Global, kept: &Kept) -> Result<Bytes, NoMemory>
    requires { IsMade kept.now }
    ensures { IfOk result (IsContents kept.now) }
{
    let changes = changes_of(alloc, kept)?;
    let payloads = payloads_of(alloc, &changes)?;
    drop(changes);
    part_of(alloc, &payloads)
}

/// Writes a whole part that keeps the content, syncs, and makes it the current one. It takes no memory.
pub fn go_over<D: Disk>(
    twin: &mut Twin,
    disk: &mut D,
    contents: &[u8],
) -> Result<(), CheckpointError>
    requires contents { (kept : content_of.Kept) × IsContents kept contents.now }
    requires stands { StandsFor twin.old D.Disk disk.old }
    ensures full { IsErrOf result CheckpointError.Full
        ↔ (twin.old.journal.limit < length contents.now) }
    ensures untouched { IsErrOf result CheckpointError.Full → disk.new ≡ disk.old }

    // What the disk keeps stays, at every moment of the call.
    ensures keeps { (kept : content_of.Kept) → IsContents kept contents.now
        → KeepsNow twin.old kept D.Disk disk.old
        → OnOk result (KeepsNow twin.new kept D.Disk disk.new) }
    ensures any_moment { (kept : content_of.Kept) → IsContents kept contents.now
        → KeepsNow twin.old kept D.Disk disk.old
        → ForTold (D.seen disk.old)
        (λ image. LeavesOnly D.Disk disk.old disk.new (HasKept kept)) }

    ensures told { OnOk result (StaysTold D.Disk disk.old disk.new) }
    ensures place { OnOk result (twin.new.journal.format ≡ format_2) }
    ensures end { OnOk result (twin.new.journal.gate + 1 ≡ length contents.now) }
    ensures limit { twin.new.journal.limit ≡ twin.old.journal.limit }
    ensures same { OnErr result (twin.new ≡ twin.old) }
    ensures calls { OnOk result (D.clock disk.new ≡ capped (D.clock disk.old + 7)) }
    ensures most { D.clock disk.new ≤ D.clock disk.old + 7 }
    ensures later { D.clock disk.old ≤ D.clock disk.new }
    ensures fault { IsErrOf result CheckpointError.DiskFault
        → Rose (D.faults disk.old) (D.faults disk.new) }
    ensures count { D.faults disk.old ≤ D.faults disk.new }
{
    twin.checkpoint(disk, contents)
}
