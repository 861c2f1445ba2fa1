//! What a disk is.

ghost use Rattle.std.specs.Prelude.{◌≡◌, ◌^◌, ◌<◌, ◌≤◌, ◌-◌, ℕ, Option, IfOk, OnOk, OnErr, length, take};
ghost use Rattle.sw_disk.specs.Image.{Image, get};
ghost use Rattle.sw_disk.specs.declared.part.Part.{Part};
ghost use Rattle.sw_disk.specs.DiskRule.{ForTold, BothTold, OnPart, Puts, written, FailedWrite, FailedCut, PendingCut};
ghost use Rattle.sw_disk.specs.DiskRule.{TornWrite, EachStepped, Within, Only, Elapses, HasCause, ReadsAt};

use crate::part::Part;
use sw_data::Failed;

/// A disk of three parts, each a list of bytes that can be written over, cut and grown at its end.
///
/// Between two syncs that answer `Ok`, the parts that had no write and no cut are what reads give, also after a
/// crash. Of the others each written range, and all from the old end on, may be any bytes after a crash; other
/// bytes stay. A crash during a call leaves what one at its entry or one at its exit may leave.
///
/// A disk tells what it holds, or it doesn't, as one over real files: then nothing is said of bytes.
pub trait Disk {
    /// What reads give, where the disk tells it.
    ghost seen: { Self → Option Image };

    /// Which images a crash now may leave.
    ghost may_leave: { Self → Image → Type 0 };

    /// Which images a crash at some moment since this clock may have left, during a call or between two.
    ghost left_since: { Self → ℕ → Image → Type 0 };

    /// How many of the first five calls were made.
    ghost clock: { Self → ℕ };

    /// How often the disk failed.
    ghost faults: { Self → ℕ };

    /// The length of a part, in bytes.
    fn len(&mut self, part: Part) -> Result<u64, Failed>
        ensures length { ForTold (seen self.old)
            (λ image. IfOk result (λ n. n ≡ length (get part image))) }
        ensures seen { seen self.new ≡ seen self.old }
        ensures crash { Within (may_leave self.new) (may_leave self.old) }
        ensures time { Elapses clock left_since may_leave self.old self.new }
        ensures cause { HasCause (faults self.old) (faults self.new) result };

    /// Reads a part from a place on into the front of `into`, and says how many bytes it read: at least one where
    /// the place is before the part's end and `into` has room, and none from the end on.
    fn read_at(&mut self, part: Part, at: u64, into: &mut [u8]) -> Result<usize, Failed>
        ensures fits { IfOk result (λ n. n ≤ length into.new) }
        ensures bytes { ForTold (seen self.old)
            (λ image. IfOk result (ReadsAt (get part image) at into.new)) }
        ensures seen { seen self.new ≡ seen self.old }
        ensures crash { Within (may_leave self.new) (may_leave self.old) }
        ensures time { Elapses clock left_since may_leave self.old self.new }
        ensures cause { HasCause (faults self.old) (faults self.new) result };

    /// Writes over what is there from a place on, and past the part's end.
    fn write_at(&mut self, part: Part, at: u64, bytes: &[u8]) -> Result<(), Failed>
        requires { ForTold (seen self.old) (λ image. at ≤ length (get part image)) }
        ensures ok { OnOk result
            (BothTold (seen self.old) (seen self.new) (Puts part (written at bytes.now))) }
        ensures err { OnErr result (BothTold (seen self.old) (seen self.new)
            (OnPart part (FailedWrite at (length bytes.now)))) }
        ensures crash { ForTold (seen self.old) (λ image. EachStepped
            (TornWrite part at (length bytes.now) image) (may_leave self.old)
            (may_leave self.new)) }
        ensures time { Elapses clock left_since may_leave self.old self.new }
        ensures cause { HasCause (faults self.old) (faults self.new) result };

    /// Cuts a part to a length.
    fn cut(&mut self, part: Part, len: u64) -> Result<(), Failed>
        requires { ForTold (seen self.old) (λ image. len ≤ length (get part image)) }
        ensures ok { OnOk result (BothTold (seen self.old) (seen self.new) (Puts part (take len))) }
        ensures err { OnErr result
            (BothTold (seen self.old) (seen self.new) (OnPart part (FailedCut len))) }
        ensures crash { ForTold (seen self.old) (λ image. EachStepped
            (OnPart part (PendingCut len)) (may_leave self.old) (may_leave self.new)) }
        ensures time { Elapses clock left_since may_leave self.old self.new }
        ensures cause { HasCause (faults self.old) (faults self.new) result };

    /// After `Ok`, a crash leaves what reads give, of all three parts. After `Err` nothing more is sure than before.
    fn sync(&mut self) -> Result<(), Failed>
        ensures durable { OnOk result
            (ForTold (seen self.old) (λ image. Only image (may_leave self.new))) }
        ensures seen { seen self.new ≡ seen self.old }
        ensures crash { Within (may_leave self.new) (may_leave self.old) }
        ensures time { Elapses clock left_since may_leave self.old self.new }
        ensures cause { HasCause (faults self.old) (faults self.new) result };

    /// The clock: how many of the five calls above were made. At 2^64 - 1 it stays.
    fn clock(&self) -> u64
        ensures { result ≡ clock self.now };

    /// How often the disk failed. At 2^64 - 1 the count stays.
    fn faults(&self) -> u64
        ensures { result ≡ faults self.now };

    /// What reads give is one of the images that a crash now may leave.
    ghost shows: { (disk : Self) → ForTold (seen disk) (may_leave disk) };

    /// What a crash now may leave is what one since any clock up to now may have left.
    ghost counts_now: { (disk : Self) (t : ℕ) (c : Image)
        → t ≤ clock disk → may_leave disk c → left_since disk t c };

    /// Since the clock now there is no other moment, as long as the clock still goes.
    ghost only_now: { (disk : Self) (c : Image)
        → clock disk < 2 ^ 64 - 1 → left_since disk (clock disk) c → may_leave disk c };

    /// Each part has fewer than 2^63 bytes.
    ghost bounded: { (disk : Self) (part : Part)
        → ForTold (seen disk) (λ image. length (get part image) < 2 ^ 63) };
}
