//! A write that is on the disk before anything else is done.

ghost use Rattle.std.specs.Prelude.{◌≡◌, ◌+◌, ◌≤◌, length, OnOk};
ghost use Rattle.sw_disk.specs.Image.{get};
ghost use Rattle.sw_disk.specs.DiskRule.{ForTold, Puts, written, TornWrite, HasCause, capped};
ghost use Rattle.sw_disk.specs.Meanings.{Becomes, IsDurable, LeavesSteps};

use crate::disk::Disk;
use crate::part::Part;
use sw_data::Failed;

/// Writes to a part and syncs. After `Ok` the bytes are on the disk; at every moment of the call a crash leaves what it
/// might have left before it, or that with the write torn.
pub fn write_synced<D: Disk>(disk: &mut D, part: Part, at: u64, bytes: &[u8]) -> Result<(), Failed>
    requires { ForTold (D.seen disk.old) (λ image. at ≤ length (get part image)) }
    ensures written { OnOk result
        (Becomes D.Disk disk.old disk.new (Puts part (written at bytes.now))) }
    ensures durable { OnOk result (IsDurable D.Disk disk.new) }
    ensures any_moment { LeavesSteps D.Disk disk.old disk.new
        (TornWrite part at (length bytes.now)) }
    ensures calls { OnOk result (D.clock disk.new ≡ capped (D.clock disk.old + 2)) }
    ensures most { D.clock disk.new ≤ capped (D.clock disk.old + 2) }
    ensures later { D.clock disk.old ≤ D.clock disk.new }
    ensures cause { HasCause (D.faults disk.old) (D.faults disk.new) result }
{
    disk.write_at(part, at, bytes)?;
    disk.sync()
}
