//! What follows of every disk.

ghost use Rattle.std.specs.Prelude.{◌≡◌, ◌≢◌, ℕ};
ghost use Rattle.sw_disk.specs.Image.{get, put};
ghost use Rattle.sw_disk.specs.declared.part.Part.{Part};
ghost use Rattle.sw_disk.specs.DiskRule.{Within};
ghost use Rattle.sw_disk.specs.Meanings.{Becomes, IsDurable, IsSure, Tears, Clips};

use crate::disk::Disk;

/// A part that had no write and no cut since the last sync that answered `Ok` is exactly what reads give, in each image
/// that a crash may leave: it is so after such a sync, and each call that is no write and no cut of this part keeps it.
pub fn left_alone<D: Disk>()
    ensures synced { (disk : D) (part : Part) → IsDurable D.Disk disk → IsSure D.Disk part disk }
    ensures asked { (old new : D) (part : Part) → D.seen new ≡ D.seen old
        → Within (D.may_leave new) (D.may_leave old) → IsSure D.Disk part old
        → IsSure D.Disk part new }
    ensures written_elsewhere { (old new : D) (part other : Part) (at n : ℕ) → part ≢ other
        → Tears D.Disk old new part at n
        → Becomes D.Disk old new (λ a b. b ≡ put part (get part b) a)
        → IsSure D.Disk other old → IsSure D.Disk other new }
    ensures cut_elsewhere { (old new : D) (part other : Part) (len : ℕ) → part ≢ other
        → Clips D.Disk old new part len
        → Becomes D.Disk old new (λ a b. b ≡ put part (get part b) a)
        → IsSure D.Disk other old → IsSure D.Disk other new }
{}
