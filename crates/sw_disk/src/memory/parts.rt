//! The three parts of a disk in memory.

ghost use Rattle.std.specs.Prelude.{◌≡◌, ◌⊎◌, ◌≤◌, ◌↔◌, length, take, OnOk, OnErr, IfOk, IsErr, IsTrue};
ghost use Rattle.sw_disk.specs.Image.{Image, get};
ghost use Rattle.sw_disk.specs.DiskRule.{Puts, written, TornWrite, PendingCut, OnPart};

use super::part::MemoryPart;
use crate::part::{Part, Parts};
use sw_data::Failed;

impl Parts<MemoryPart> {
    ghost use Rattle.sw_disk.specs.Doubts.{Exactly};
    ghost use Rattle.sw_disk.specs.Memory.{image_of, MayLeave};

    // Writes over what a part holds, and past its end; where `fails`, it writes nothing, and leaves the range in doubt.
    pub(crate) fn write(
        &mut self,
        part: Part,
        at: usize,
        bytes: &[u8],
        fails: bool,
    ) -> Result<(), Failed>
        requires { at ≤ length (get part (image_of self.old)) }
        ensures ok { OnOk result
            (Puts part (written at bytes.now) (image_of self.old) (image_of self.new)) }
        ensures err { OnErr result (image_of self.new ≡ image_of self.old) }
        ensures fails { IsTrue fails → IsErr result }
        ensures exact { OnOk result
            (Exactly (TornWrite part at (length bytes.now) (image_of self.old))
            (MayLeave self.old) (MayLeave self.new)) }
        // It wanted memory before it began, or the range is in doubt.
        ensures failed { OnErr result ((self.new ≡ self.old)
            ⊎ Exactly (TornWrite part at (length bytes.now) (image_of self.old))
            (MayLeave self.old) (MayLeave self.new)) }
    {
        self.get_mut(part).write(at, bytes, fails)
    }

    // Cuts a part to a length; where `fails`, it cuts nothing, and leaves all from there on in doubt.
    pub(crate) fn cut(&mut self, part: Part, len: usize, fails: bool) -> Result<(), Failed>
        requires { len ≤ length (get part (image_of self.old)) }
        ensures ok { OnOk result (Puts part (take len) (image_of self.old) (image_of self.new)) }
        ensures err { OnErr result (image_of self.new ≡ image_of self.old) }
        ensures fails { IsTrue fails → IsErr result }
        ensures exact { OnOk result
            (Exactly (OnPart part (PendingCut len)) (MayLeave self.old) (MayLeave self.new)) }
        // It wanted memory before it began, or the length is in doubt.
        ensures failed { OnErr result ((self.new ≡ self.old)
            ⊎ Exactly (OnPart part (PendingCut len)) (MayLeave self.old) (MayLeave self.new)) }
    {
        self.get_mut(part).cut(len, fails)
    }

    // Makes sure what reads give.
    pub(crate) fn settle(&mut self)
        ensures image { image_of self.new ≡ image_of self.old }
        ensures sure { (c : Image) → MayLeave self.new c ↔ (c ≡ image_of self.old) }
    {
        self.root.settle();
        self.left.settle();
        self.right.settle();
    }

    // Parts of their own that equal these.
    pub(crate) fn copy(&self) -> Result<Parts<MemoryPart>, Failed>
        ensures { IfOk result (λ parts. (c : Image) → MayLeave parts c ↔ MayLeave self.now c) }
    {
        Ok(Parts {
            root: self.root.copy()?,
            left: self.left.copy()?,
            right: self.right.copy()?,
        })
    }
}
