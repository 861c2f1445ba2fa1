//! One part of a disk in memory, and its bytes in doubt.

ghost use Rattle.std.specs.Prelude.{◌≡◌, ◌+◌, ◌-◌, ◌≤◌, ◌<◌, ◌^◌, ◌++◌, ◌⊎◌, min, true, false, take, drop, replicate, length, vec_len, OnOk, OnErr, IfOk, IsErr, IsTrue};
ghost use Rattle.sw_disk.specs.DiskRule.{written, Torn, PendingCut};
ghost use Rattle.sw_disk.specs.Doubts.{marked, Exactly};

use crate::span::overwrite;
use std::alloc::{AllocError, Global};
use sw_data::Failed;

// One part of a disk in memory.
#[derive(Debug, Drop)]
pub(crate) struct MemoryPart {
    // What reads give.
    pub(crate) bytes: Vec<u8>,
    // Whether there was a write or a cut since the last sync that answered `Ok`.
    pub(crate) touched: bool,
    // Where it was touched: for each place below the least length since that sync, whether its byte is in doubt.
    // From there on a crash may leave any bytes.
    pub(crate) doubts: Vec<bool>,
    ghost short: { length doubts.items ≤ length bytes.items },
}

impl MemoryPart {
    ghost use Rattle.sw_disk.specs.Memory.{PartLeaves, doubts_of};

    // A part with no byte in doubt; it takes no memory.
    pub(crate) fn new(bytes: Vec<u8>) -> MemoryPart
        ensures bytes { result.bytes.items ≡ bytes.items }
        ensures sure { result.touched ≡ false }
    {
        let doubts = Vec::new(*bytes.allocator());
        MemoryPart {
            bytes,
            touched: false,
            doubts,
        }
    }

    // Has marks, all of them false where it wasn't touched.
    fn touch(&mut self) -> Result<(), Failed>
        ensures bytes { self.new.bytes ≡ self.old.bytes }
        ensures ok { OnOk result ((self.new.touched ≡ true)
            × (self.new.doubts.items ≡ doubts_of self.old)) }
        ensures err { OnErr result (self.new ≡ self.old) }
    {
        if !self.touched {
            let alloc = *self.doubts.allocator();
            match no_marks(alloc, self.bytes.len()) {
                Ok(doubts) => self.doubts = doubts,
                Err(_) => return Err(Failed),
            }
            self.touched = true;
        }
        Ok(())
    }

    // Leaves n bytes from a place on in doubt, and all from the end on. An `Err` leaves all as it was.
    fn doubt(&mut self, at: usize, n: usize) -> Result<(), Failed>
        requires { at + n < 2 ^ 64 }
        ensures bytes { self.new.bytes ≡ self.old.bytes }
        ensures ok { OnOk result ((self.new.touched ≡ true)
            × (self.new.doubts.items ≡ marked at n (doubts_of self.old))) }
        ensures err { OnErr result (self.new ≡ self.old) }
    {
        self.touch()?;
        mark(&mut self.doubts, at, n);
        Ok(())
    }

    // Writes over what is there and past the end; where `fails`, it writes nothing, and leaves the range in doubt.
    pub(crate) fn write(&mut self, at: usize, bytes: &[u8], fails: bool) -> Result<(), Failed>
        requires { at ≤ vec_len self.old.bytes }
        ensures ok { OnOk result
            (self.new.bytes.items ≡ written at bytes.now self.old.bytes.items) }
        ensures err { OnErr result (self.new.bytes.items ≡ self.old.bytes.items) }
        ensures fails { IsTrue fails → IsErr result }
        ensures exact { OnOk result
            (Exactly (Torn (length self.old.bytes.items) at (length bytes.now))
            (PartLeaves self.old) (PartLeaves self.new)) }
        // It wanted memory before it began, or the range is in doubt.
        ensures failed { OnErr result ((self.new ≡ self.old)
            ⊎ Exactly (Torn (length self.old.bytes.items) at (length bytes.now))
            (PartLeaves self.old) (PartLeaves self.new)) }
    {
        self.doubt(at, bytes.len())?;
        if fails {
            return Err(Failed);
        }
        overwrite(&mut self.bytes, at, bytes)
    }

    // Cuts to a length; where `fails`, it cuts nothing, and leaves all from there on in doubt.
    pub(crate) fn cut(&mut self, len: usize, fails: bool) -> Result<(), Failed>
        requires { len ≤ vec_len self.old.bytes }
        ensures ok { OnOk result (self.new.bytes.items ≡ take len self.old.bytes.items) }
        ensures err { OnErr result (self.new.bytes.items ≡ self.old.bytes.items) }
        ensures fails { IsTrue fails → IsErr result }
        ensures exact { OnOk result
            (Exactly (PendingCut len) (PartLeaves self.old) (PartLeaves self.new)) }
        // It wanted memory before it began, or the length is in doubt.
        ensures failed { OnErr result ((self.new ≡ self.old)
            ⊎ Exactly (PendingCut len) (PartLeaves self.old) (PartLeaves self.new)) }
    {
        self.touch()?;
        self.doubts.truncate(len);
        if fails {
            return Err(Failed);
        }
        self.bytes.truncate(len);
        Ok(())
    }

    // Makes sure what reads give.
    pub(crate) fn settle(&mut self)
        ensures bytes { self.new.bytes ≡ self.old.bytes }
        ensures sure { self.new.touched ≡ false }
    {
        self.touched = false;
        self.doubts.clear();
    }

    // A part of its own that equals this one.
    pub(crate) fn copy(&self) -> Result<MemoryPart, Failed>
        ensures bytes { IfOk result (λ part. part.bytes.items ≡ self.now.bytes.items) }
        ensures touched { IfOk result (λ part. part.touched ≡ self.now.touched) }
        ensures doubts { IfOk result (λ part. part.doubts.items ≡ self.now.doubts.items) }
    {
        let alloc = *self.bytes.allocator();
        match (self.bytes.to_vec(alloc), self.doubts.to_vec(alloc)) {
            (Ok(bytes), Ok(doubts)) => Ok(MemoryPart {
                bytes,
                touched: self.touched,
                doubts,
            }),
            _ => Err(Failed),
        }
    }
}

fn no_marks(alloc: Global, count: usize) -> Result<Vec<bool>, AllocError>
    ensures { IfOk result (λ marks. marks.items ≡ replicate count false) }
{
    Ok(vec![in alloc; false; count]?)
}

// Marks the places from one to another.
fn mark_range(marks: &mut [bool], from: usize, to: usize)
    requires { (from ≤ to) × (to ≤ length marks.old) }
    ensures { marks.new ≡ take from marks.old ++ replicate (to - from) true ++ drop to marks.old }
{
    marks[from..to].fill(true);
}

// Marks n places from one on, as far as there are any.
#[tactic(auto, using(crate::proofs::Marks::marked_split))]
fn mark(marks: &mut [bool], at: usize, n: usize)
    requires { at + n < 2 ^ 64 }
    ensures { marks.new ≡ marked at n marks.old }
{
    let from = at.min(marks.len());
    let to = (at + n).min(marks.len());
    mark_range(marks, from, to);
}
