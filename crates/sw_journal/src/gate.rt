//! A record is written behind the closed gate, and then the gate is opened.

ghost use Rattle.std.specs.Prelude.{◌≡◌, ◌+◌, ◌^◌, ◌<◌, ◌≤◌, ◌∷◌, length, OnOk};
ghost use Rattle.sw_disk.specs.Image.{get};
ghost use Rattle.sw_disk.specs.DiskRule.{ForTold, OnPart, Puts, written, HasCause, capped};
ghost use Rattle.sw_disk.specs.Meanings.{Becomes, IsDurable, LeavesSteps};
ghost use Rattle.sw_journal.specs.Gate.{IsTornRecord};

use sw_disk::{Disk, Failed, Part, write_synced};

// The gate's byte once the record behind it is on the disk.
pub(crate) const OPEN: u8 = 1;

// Writes a record behind the closed gate, and opens the gate once the record is on the disk. `bytes` is what
// stands behind the gate, with the next gate, which is closed.
pub(crate) fn add_record<D: Disk>(
    disk: &mut D,
    part: Part,
    gate: u64,
    bytes: &[u8],
) -> Result<(), Failed>
    requires inside { ForTold (D.seen disk.old) (λ image. gate < length (get part image)) }
    requires small { gate < 2 ^ 63 }
    ensures opened { OnOk result
        (Becomes D.Disk disk.old disk.new (Puts part (written gate (1 ∷ bytes.now)))) }
    ensures durable { OnOk result (IsDurable D.Disk disk.new) }
    // At every moment of the call a crash leaves the part with its gate as it was, or with the record behind it.
    ensures any_moment { LeavesSteps D.Disk disk.old disk.new
        (λ image. OnPart part (IsTornRecord gate bytes.now)) }
    ensures calls { OnOk result (D.clock disk.new ≡ capped (D.clock disk.old + 4)) }
    ensures most { D.clock disk.new ≤ D.clock disk.old + 4 }
    ensures later { D.clock disk.old ≤ D.clock disk.new }
    ensures cause { HasCause (D.faults disk.old) (D.faults disk.new) result }
{
    write_synced(disk, part, gate + 1, bytes)?;
    write_synced(disk, part, gate, &[OPEN])
}
