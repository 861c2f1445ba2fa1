//! Formatting the current part.

ghost use Rattle.std.specs.Prelude.{◌≡◌, ◌+◌, ◌≤◌, [], None, IsSome, IsErrOf, OnOk};
ghost use Rattle.sw_data.specs.Faults.{Rose};
ghost use Rattle.sw_disk.specs.Image.{get, put};
ghost use Rattle.sw_disk.specs.DiskRule.{ForTold, written};
ghost use Rattle.sw_disk.specs.Meanings.{Becomes, IsDurable, LeavesSteps};
ghost use Rattle.sw_journal.specs.Content.{Records};
ghost use Rattle.sw_journal.specs.Format.{format_of};
ghost use Rattle.sw_journal.specs.Init.{first_bytes, SinceTwoCalls, FromSecondCall};
ghost use Rattle.sw_journal.specs.Quiet.{LeavesAlone};
ghost use Rattle.sw_twin.specs.Current.{leading_ones, current, content_of};
ghost use Rattle.sw_twin.specs.Init.{StandsForNone, IsBegunIn};

use crate::ones::{count_ones, part_after};
use sw_disk::{Disk, Failed};
use sw_journal::InitError;

/// Formats the current part, as `sw_journal::init` formats a part. Root stays as it is.
pub fn init<D: Disk>(disk: &mut D) -> Result<(), InitError>
    ensures already { IsErrOf result InitError.AlreadyFormatted
        → ForTold (D.seen disk.old) (λ image. IsSome (format_of (get (current image) image))) }
    ensures untouched { IsErrOf result InitError.AlreadyFormatted
        → LeavesAlone D.Disk disk.old disk.new }
    ensures left_alone { ForTold (D.seen disk.old) (λ image.
        IsSome (format_of (get (current image) image)) → LeavesAlone D.Disk disk.old disk.new) }
    ensures was_not { OnOk result (ForTold (D.seen disk.old)
        (λ image. format_of (get (current image) image) ≡ None)) }
    ensures bytes { OnOk result (Becomes D.Disk disk.old disk.new (λ old new.
        new ≡ put (current old) (written 0 first_bytes (get (current old) old)) old)) }
    ensures formatted { OnOk result
        (Becomes D.Disk disk.old disk.new (λ old new. content_of new ≡ Records [])) }
    ensures durable { OnOk result (IsDurable D.Disk disk.new) }

    // From the first sync on, every image stands for no record; the last two calls come after it.
    ensures from_first_sync { OnOk result
        (ForTold (D.seen disk.old) (λ image. SinceTwoCalls D.Disk disk.new StandsForNone)) }
    // So it is whatever the answer: what is read first is read in so many calls at most, and then come four at most, of
    // which the second is that sync.
    ensures since_first_sync { ForTold (D.seen disk.old) (λ image. FromSecondCall D.Disk
        (leading_ones image.root + 17) disk.old disk.new StandsForNone) }
    // At every moment of the call a crash leaves the current part with its first bytes torn, or without a record, and
    // the other parts as it might have left them before.
    ensures any_moment { LeavesSteps D.Disk disk.old disk.new IsBegunIn }

    ensures fault { IsErrOf result InitError.DiskFault
        → Rose (D.faults disk.old) (D.faults disk.new) }
    ensures count { D.faults disk.old ≤ D.faults disk.new }
{
    let ones = match count_ones(disk) {
        Ok(ones) => ones,
        Err(Failed) => return Err(InitError::DiskFault),
    };
    sw_journal::init(disk, part_after(ones))
}
