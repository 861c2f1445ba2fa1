//! Formatting a part.

ghost use Rattle.std.specs.Prelude.{◌≡◌, ◌≤◌, length, None, IsSome, IsErrOf, OnOk};
ghost use Rattle.sw_data.specs.Faults.{Rose};
ghost use Rattle.sw_disk.specs.Image.{get};
ghost use Rattle.sw_disk.specs.DiskRule.{ForTold, OnPart, Puts, written, HasCause};
ghost use Rattle.sw_disk.specs.Meanings.{Becomes, IsDurable, LeavesSteps};
ghost use Rattle.sw_journal.specs.Format.{format_of};
ghost use Rattle.sw_journal.specs.Init.{first_bytes, IsFormatted, IsBegun, IsFreshIn, SinceTwoCalls, FromSecondCall};
ghost use Rattle.sw_journal.specs.Quiet.{LeavesAlone};

use crate::read::read_front;
use crate::version::{HEADER_2, HEADER_LENGTH, Version};
use sw_disk::{Disk, Failed, Part, write_synced};
use thiserror::Error;

/// Why a part was not formatted.
#[derive(Debug, Clone, Copy, PartialEq, Eq, Error)]
pub enum InitError {
    /// The disk's count of faults rose, or stands at its type's end.
    #[error("the disk failed")]
    DiskFault,
    /// The part begins with the header of a format. Nothing was written.
    #[error("the part has a journal already")]
    AlreadyFormatted,
}

/// Formats a part: it has the header of format 2 and a closed gate behind it. What stands behind these 17 bytes
/// stays, and has no meaning.
pub fn init<D: Disk>(disk: &mut D, part: Part) -> Result<(), InitError>
    ensures already { IsErrOf result InitError.AlreadyFormatted
        → ForTold (D.seen disk.old) (λ image. IsSome (format_of (get part image))) }
    ensures untouched { IsErrOf result InitError.AlreadyFormatted
        → LeavesAlone D.Disk disk.old disk.new }
    ensures left_alone { ForTold (D.seen disk.old)
        (λ image. IsSome (format_of (get part image)) → LeavesAlone D.Disk disk.old disk.new) }
    ensures was_not { OnOk result
        (ForTold (D.seen disk.old) (λ image. format_of (get part image) ≡ None)) }
    ensures bytes { OnOk result
        (Becomes D.Disk disk.old disk.new (Puts part (written 0 first_bytes))) }
    ensures formatted { OnOk result (Becomes D.Disk disk.old disk.new (OnPart part IsFormatted)) }
    ensures durable { OnOk result (IsDurable D.Disk disk.new) }

    // From the first sync on, every image isn't formatted or has no record; the last two calls come after it.
    ensures from_first_sync { OnOk result (ForTold (D.seen disk.old)
        (λ image. SinceTwoCalls D.Disk disk.new (IsFreshIn part image))) }
    // So it is whatever the answer: what is read first is read in 16 calls at most, and then come four at most, of which
    // the second is that sync.
    ensures since_first_sync { ForTold (D.seen disk.old)
        (λ image. FromSecondCall D.Disk 16 disk.old disk.new (IsFreshIn part image)) }
    // At every moment of the call a crash leaves the part with its first bytes torn, or without a record, and the
    // other parts as it might have left them before.
    ensures any_moment { LeavesSteps D.Disk disk.old disk.new
        (λ image. OnPart part (IsBegun (length (get part image)))) }

    ensures fault { IsErrOf result InitError.DiskFault
        → Rose (D.faults disk.old) (D.faults disk.new) }
    ensures count { D.faults disk.old ≤ D.faults disk.new }
{
    let mut front = [0; HEADER_LENGTH];
    match read_front(disk, part, &mut front) {
        Ok(count) => {
            if Version::of(&front[..count]).is_some() {
                return Err(InitError::AlreadyFormatted);
            }
        }
        Err(Failed) => return Err(InitError::DiskFault),
    }
    match write_fresh(disk, part) {
        Ok(()) => Ok(()),
        Err(Failed) => Err(InitError::DiskFault),
    }
}

// Writes a closed gate with zero bytes before it, and the header over those once they are on the disk.
fn write_fresh<D: Disk>(disk: &mut D, part: Part) -> Result<(), Failed>
    ensures bytes { OnOk result
        (Becomes D.Disk disk.old disk.new (Puts part (written 0 first_bytes))) }
    ensures formatted { OnOk result (Becomes D.Disk disk.old disk.new (OnPart part IsFormatted)) }
    ensures durable { OnOk result (IsDurable D.Disk disk.new) }
    ensures from_first_sync { OnOk result (ForTold (D.seen disk.old)
        (λ image. SinceTwoCalls D.Disk disk.new (IsFreshIn part image))) }
    ensures any_moment { LeavesSteps D.Disk disk.old disk.new
        (λ image. OnPart part (IsBegun (length (get part image)))) }
    ensures since_first_sync { ForTold (D.seen disk.old)
        (λ image. FromSecondCall D.Disk 0 disk.old disk.new (IsFreshIn part image)) }
    ensures cause { HasCause (D.faults disk.old) (D.faults disk.new) result }
{
    write_synced(disk, part, 0, &[0; HEADER_LENGTH + 1])?;
    write_synced(disk, part, 0, &HEADER_2)
}
