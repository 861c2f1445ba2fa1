//! Another part is written and made the current one, in seven calls of the disk.

ghost use Rattle.std.specs.Prelude.{◌≡◌, ◌≢◌, ◌≤◌, ◌+◌, [], ◌∷◌, length, OnOk};
ghost use Rattle.sw_disk.specs.declared.part.Part.TheVariants.{Root};
ghost use Rattle.sw_disk.specs.DiskRule.{ForTold, OnPart, Puts, written, HasCause, capped};
ghost use Rattle.sw_disk.specs.Meanings.{Becomes, IsDurable, LeavesSteps};
ghost use Rattle.sw_twin.specs.Going.{Anything, IsGoingOver, WentOver};

use crate::ones::ONE;
use sw_disk::{Disk, Failed, Part, write_synced};

// Makes a part these bytes.
fn write_part<D: Disk>(disk: &mut D, part: Part, contents: &[u8]) -> Result<(), Failed>
    ensures put { OnOk result
        (Becomes D.Disk disk.old disk.new (Puts part (λ old. contents.now))) }
    ensures durable { OnOk result (IsDurable D.Disk disk.new) }
    ensures any_moment { LeavesSteps D.Disk disk.old disk.new (λ image. OnPart part Anything) }
    ensures calls { OnOk result (D.clock disk.new ≡ capped (D.clock disk.old + 3)) }
    ensures most { D.clock disk.new ≤ D.clock disk.old + 3 }
    ensures later { D.clock disk.old ≤ D.clock disk.new }
    ensures cause { HasCause (D.faults disk.old) (D.faults disk.new) result }
{
    disk.cut(part, 0)?;
    write_synced(disk, part, 0, contents)
}

// Writes a one and a zero byte behind so many bytes of Root. Two zero bytes are on the disk before the one is.
fn add_one<D: Disk>(disk: &mut D, ones: u64) -> Result<(), Failed>
    requires { ForTold (D.seen disk.old) (λ image. ones ≤ length image.root) }
    ensures put { OnOk result
        (Becomes D.Disk disk.old disk.new (Puts Root (written ones (1 ∷ 0 ∷ [])))) }
    ensures durable { OnOk result (IsDurable D.Disk disk.new) }
    ensures any_moment { LeavesSteps D.Disk disk.old disk.new (λ image. OnPart Root Anything) }
    ensures calls { OnOk result (D.clock disk.new ≡ capped (D.clock disk.old + 4)) }
    ensures most { D.clock disk.new ≤ D.clock disk.old + 4 }
    ensures later { D.clock disk.old ≤ D.clock disk.new }
    ensures cause { HasCause (D.faults disk.old) (D.faults disk.new) result }
{
    write_synced(disk, Part::Root, ones, &[0, 0])?;
    write_synced(disk, Part::Root, ones, &[ONE])
}

// Makes a part these bytes, and then Root tell it.
pub(crate) fn go_over<D: Disk>(
    disk: &mut D,
    part: Part,
    ones: u64,
    contents: &[u8],
) -> Result<(), Failed>
    requires part { part ≢ Root }
    requires inside { ForTold (D.seen disk.old) (λ image. ones ≤ length image.root) }
    ensures went { OnOk result
        (Becomes D.Disk disk.old disk.new (WentOver part contents.now ones)) }
    ensures durable { OnOk result (IsDurable D.Disk disk.new) }
    ensures any_moment { LeavesSteps D.Disk disk.old disk.new
        (λ image. IsGoingOver part contents.now) }
    ensures calls { OnOk result (D.clock disk.new ≡ capped (D.clock disk.old + 7)) }
    ensures most { D.clock disk.new ≤ D.clock disk.old + 7 }
    ensures later { D.clock disk.old ≤ D.clock disk.new }
    ensures cause { HasCause (D.faults disk.old) (D.faults disk.new) result }
{
    write_part(disk, part, contents)?;
    add_one(disk, ones)
}
