//! A disk in memory that knows what a crash at each moment may have left.

mod crash;
mod history;
mod part;
mod parts;
mod script;

use crate::disk::Disk;
use crate::part::{Part, Parts};
use crate::span::read_into;
use history::History;
use part::MemoryPart;
pub use script::{CallKind, Failing};
use script::{Counts, fails, is_past};
use sw_data::{Bytes, Failed, NoMemory};

/// A disk in memory for tests: it can fail at given calls, and it knows which images a crash at each moment since
/// its making may have left.
///
/// Of what is past it keeps what the parts were at each sync that answered `Ok`. Between two of these the images that
/// a crash may leave only become more, so that the last moment before the sync has those of all moments before it.
#[derive(Debug, Drop)]
pub struct MemoryDisk {
    pub(crate) parts: Parts<MemoryPart>,
    pub(crate) history: History,
    pub(crate) counts: Counts,
    pub(crate) faults: u64,
    pub(crate) failing: Vec<Failing>,
    // The call, numbered over all kinds, from which on each fails.
    pub(crate) stop: Option<u64>,
}

impl MemoryDisk {
    ghost use Rattle.std.specs.Prelude.{ℕ, Some, None, [], length, IsOk, ◌≡◌, ◌⊎◌, ◌↔◌, ◌+◌, ◌≤◌, OnOk, OnErr, IfOk, IsErr, IsTrue};
    ghost use Rattle.sw_data.specs.Faults.{Rose};
    ghost use Rattle.sw_disk.specs.DiskRule.{HasCause, capped, faults_after};
    ghost use Rattle.sw_disk.specs.Image.{Image, get};
    ghost use Rattle.sw_disk.specs.Memory.{disk_image, CrashLeaves, clock_of, faults_of, counts_of, failing_of, stop_of, MayLeave, HadLeft, LeftSince, fails_next};
    ghost use Rattle.sw_disk.specs.Picks.{image_picked};
    ghost use Rattle.sw_disk.specs.Script.{one_more, no_counts};
    ghost use Rattle.sw_disk.specs.declared.part.Part.{Part};

    /// A disk whose parts hold these bytes, none of them in doubt, and whose clock and count are 0; it takes no
    /// memory.
    pub fn new(root: Bytes, left: Bytes, right: Bytes, failing: Vec<Failing>) -> MemoryDisk
        ensures image { disk_image result ≡ record { root = root; left = left; right = right } }
        ensures sure { (c : Image) → CrashLeaves result c ↔ (c ≡ disk_image result) }
        ensures clock { clock_of result ≡ 0 }
        ensures faults { faults_of result ≡ 0 }
        ensures counts { counts_of result ≡ no_counts }
        ensures failing { failing_of result ≡ failing.items }
        ensures stop { stop_of result ≡ None }
    {
        MemoryDisk::starting(root, left, right, failing, None)
    }

    /// As `new`, but each call fails whose number over all kinds, from 0, is `after` or more.
    pub fn stopping(root: Bytes, left: Bytes, right: Bytes, after: u64) -> MemoryDisk
        ensures image { disk_image result ≡ record { root = root; left = left; right = right } }
        ensures sure { (c : Image) → CrashLeaves result c ↔ (c ≡ disk_image result) }
        ensures clock { clock_of result ≡ 0 }
        ensures faults { faults_of result ≡ 0 }
        ensures counts { counts_of result ≡ no_counts }
        ensures failing { failing_of result ≡ [] }
        ensures stop { stop_of result ≡ Some after }
    {
        let root = root.into_vec();
        let failing = Vec::new(*root.allocator());
        MemoryDisk::starting(Bytes::from_vec(root), left, right, failing, Some(after))
    }

    // A disk before its first call.
    fn starting(
        root: Bytes,
        left: Bytes,
        right: Bytes,
        failing: Vec<Failing>,
        stop: Option<u64>,
    ) -> MemoryDisk
        ensures image { disk_image result ≡ record { root = root; left = left; right = right } }
        ensures sure { (c : Image) → CrashLeaves result c ↔ (c ≡ disk_image result) }
        ensures clock { clock_of result ≡ 0 }
        ensures faults { faults_of result ≡ 0 }
        ensures counts { counts_of result ≡ no_counts }
        ensures failing { failing_of result ≡ failing.items }
        ensures stop { stop_of result ≡ stop }
    {
        let alloc = *failing.allocator();
        MemoryDisk {
            parts: Parts {
                root: MemoryPart::new(root.into_vec()),
                left: MemoryPart::new(left.into_vec()),
                right: MemoryPart::new(right.into_vec()),
            },
            history: History::new(alloc),
            counts: Counts::new(),
            faults: 0,
            failing,
            stop,
        }
    }

    /// What reads give of a part; it takes no memory.
    pub fn image(&self, part: Part) -> &[u8]
        ensures { result.now ≡ get part (disk_image self.now) }
    {
        &self.parts.get(part).bytes
    }

    /// The disk that a crash now leaves, where its bytes in doubt are taken from `picks`, part by part in the order of
    /// `Part` and by rising place, and are 0 when these are used up. The parts keep the length that reads give. The
    /// disk has no failing calls, no byte in doubt, and its clock and count are 0. This takes no memory.
    pub fn crash(self, picks: &[u8]) -> Result<MemoryDisk, NoMemory>
        ensures done { IsOk result }
        ensures image { IfOk result (λ disk. disk_image disk ≡ image_picked self.parts picks.now) }
        ensures allowed { IfOk result (λ disk. CrashLeaves self (disk_image disk)) }
        ensures lengths { IfOk result (λ disk. (part : Part)
            → length (get part (disk_image disk)) ≡ length (get part (disk_image self))) }
        ensures sure { IfOk result
            (λ disk. (c : Image) → CrashLeaves disk c ↔ (c ≡ disk_image disk)) }
        ensures clock { IfOk result (λ disk. clock_of disk ≡ 0) }
        ensures faults { IfOk result (λ disk. faults_of disk ≡ 0) }
        ensures counts { IfOk result (λ disk. counts_of disk ≡ no_counts) }
        ensures failing { IfOk result (λ disk. failing_of disk ≡ []) }
        ensures stop { IfOk result (λ disk. stop_of disk ≡ None) }
    {
        let alloc = *self.failing.allocator();
        let mut parts = self.parts;
        parts.crash(picks);
        Ok(MemoryDisk {
            parts,
            history: History::new(alloc),
            counts: Counts::new(),
            faults: 0,
            failing: Vec::new(alloc),
            stop: None,
        })
    }

    // Counts a call, and says whether it is one that fails.
    fn begin(&mut self, kind: CallKind) -> bool
        ensures fails { result ≡ fails_next kind self.old }
        ensures clock { self.new.history.clock ≡ capped (self.old.history.clock + 1) }
        ensures later { self.old.history.clock ≤ self.new.history.clock }
        ensures past { self.new.history.past ≡ self.old.history.past }
        ensures counts { self.new.counts ≡ one_more kind self.old.counts }
        ensures parts { self.new.parts ≡ self.old.parts }
        ensures faults { self.new.faults ≡ self.old.faults }
        ensures failing { self.new.failing ≡ self.old.failing }
        ensures stop { self.new.stop ≡ self.old.stop }
    {
        let stopped = is_past(self.stop, self.history.clock);
        self.history.tick();
        let number = self.counts.next(kind);
        stopped || fails(&self.failing, kind, number)
    }

    // Makes sure what reads give, and keeps what the parts were; where `fails`, nothing.
    fn settle(&mut self, entry: u64, fails: bool) -> Result<(), Failed>
        requires { Rose entry self.old.history.clock }
        ensures image { disk_image self.new ≡ disk_image self.old }
        ensures ok { OnOk result ((c : Image) → MayLeave self.new.parts c
            ↔ (c ≡ disk_image self.old)) }
        ensures err { OnErr result ((self.new.parts ≡ self.old.parts)
            × (self.new.history.past.items ≡ self.old.history.past.items)) }
        ensures past { OnOk result ((t : ℕ) (c : Image) → HadLeft self.new.history.past.items t c
            ↔ (HadLeft self.old.history.past.items t c
            ⊎ ((t ≤ entry) × MayLeave self.old.parts c))) }
        ensures fails { IsTrue fails → IsErr result }
        ensures clock { self.new.history.clock ≡ self.old.history.clock }
        ensures counts { self.new.counts ≡ self.old.counts }
        ensures faults { self.new.faults ≡ self.old.faults }
        ensures failing { self.new.failing ≡ self.old.failing }
        ensures stop { self.new.stop ≡ self.old.stop }
    {
        if fails {
            return Err(Failed);
        }
        let was = self.parts.copy()?;
        self.history.keep(entry, was)?;
        self.parts.settle();
        Ok(())
    }

    // Counts a fault where there is one.
    fn end(&mut self, done: Result<(), Failed>) -> Result<(), Failed>
        ensures same { result ≡ done }
        ensures cause { HasCause self.old.faults self.new.faults result }
        ensures counts_faults { self.new.faults ≡ faults_after result self.old.faults }
        ensures history { self.new.history ≡ self.old.history }
        ensures counts { self.new.counts ≡ self.old.counts }
        ensures parts { self.new.parts ≡ self.old.parts }
        ensures failing { self.new.failing ≡ self.old.failing }
        ensures stop { self.new.stop ≡ self.old.stop }
    {
        match done {
            Ok(()) => Ok(()),
            Err(Failed) => {
                self.faults = self.faults.saturating_add(1);
                Err(Failed)
            }
        }
    }

    // Counts a call that has nothing to do but to answer.
    fn ask(&mut self, kind: CallKind) -> Result<(), Failed>
        ensures listed { IsErr result ↔ IsTrue (fails_next kind self.old) }
        ensures clock { self.new.history.clock ≡ capped (self.old.history.clock + 1) }
        ensures later { self.old.history.clock ≤ self.new.history.clock }
        ensures past { self.new.history.past ≡ self.old.history.past }
        ensures counts { self.new.counts ≡ one_more kind self.old.counts }
        ensures parts { self.new.parts ≡ self.old.parts }
        ensures failing { self.new.failing ≡ self.old.failing }
        ensures stop { self.new.stop ≡ self.old.stop }
        ensures cause { HasCause self.old.faults self.new.faults result }
        ensures counts_faults { self.new.faults ≡ faults_after result self.old.faults }
    {
        let done = if self.begin(kind) {
            Err(Failed)
        } else {
            Ok(())
        };
        self.end(done)
    }
}

impl Disk for MemoryDisk {
    ghost use Rattle.std.specs.Prelude.{◌≡◌, ◌↔◌, ◌⊎◌, ◌≤◌, Some, length, take, OnOk, OnErr, IfOk, IsErr, IsTrue};
    ghost use Rattle.std.proofs.Common.{inl};
    ghost use Rattle.sw_disk.specs.Image.{Image, get};
    ghost use Rattle.sw_disk.specs.DiskRule.{OnPart, Puts, written, FailedWrite, FailedCut, PendingCut, TornWrite, Within, Only};
    ghost use Rattle.sw_disk.specs.DiskRule.{Elapses, HasCause, faults_after, ReadsAt};
    ghost use Rattle.sw_disk.specs.Meanings.{Tears, Clips};
    ghost use Rattle.sw_disk.specs.declared.memory.script.CallKind.TheVariants.{Len, Read, Write, Cut, Sync};
    ghost use Rattle.sw_disk.specs.Memory.{memory, disk_image, CrashLeaves, LeavesExactly, LeftSince, ForgetsNothing, SameParts};
    ghost use Rattle.sw_disk.specs.Memory.{FollowsScript, clock_of, faults_of, fails_next};
    ghost use Rattle.sw_disk.specs.MemoryLaws.{leaves_image, current, image_small};

    ghost seen = { λ d. Some (disk_image d) };

    ghost may_leave = { CrashLeaves };

    ghost left_since = { LeftSince };

    ghost clock = { clock_of };

    ghost faults = { faults_of };

    ghost shows = { λ d. leaves_image d.parts };

    ghost counts_now = { λ d t c le left. inl left };

    ghost only_now = { λ d c goes left.
        current d.parts d.history.past.items d.history.clock c goes d.history.in_order left };

    ghost bounded = { λ d part. image_small d.parts part };

    fn len(&mut self, part: Part) -> Result<u64, Failed>
        ensures length { IfOk result (λ n. n ≡ length (get part (disk_image self.old))) }
        ensures seen { disk_image self.new ≡ disk_image self.old }
        ensures crash { Within (CrashLeaves self.new) (CrashLeaves self.old) }
        ensures time { Elapses clock_of LeftSince CrashLeaves self.old self.new }
        ensures cause { HasCause (faults_of self.old) (faults_of self.new) result }
        ensures counts_faults { faults_of self.new ≡ faults_after result (faults_of self.old) }
        ensures exact { Within (CrashLeaves self.old) (CrashLeaves self.new) }
        ensures kept { ForgetsNothing self.old self.new }
        ensures listed { IsErr result ↔ IsTrue (fails_next Len self.old) }
        ensures script { FollowsScript Len self.old self.new }
    {
        match self.ask(CallKind::Len) {
            Ok(()) => Ok(self.parts.get(part).bytes.len() as u64),
            Err(Failed) => Err(Failed),
        }
    }

    fn read_at(&mut self, part: Part, at: u64, into: &mut [u8]) -> Result<usize, Failed>
        ensures fits { IfOk result (λ n. n ≤ length into.new) }
        ensures bytes { IfOk result (ReadsAt (get part (disk_image self.old)) at into.new) }
        ensures seen { disk_image self.new ≡ disk_image self.old }
        ensures crash { Within (CrashLeaves self.new) (CrashLeaves self.old) }
        ensures time { Elapses clock_of LeftSince CrashLeaves self.old self.new }
        ensures cause { HasCause (faults_of self.old) (faults_of self.new) result }
        ensures counts_faults { faults_of self.new ≡ faults_after result (faults_of self.old) }
        ensures exact { Within (CrashLeaves self.old) (CrashLeaves self.new) }
        ensures kept { ForgetsNothing self.old self.new }
        ensures listed { IsErr result ↔ IsTrue (fails_next Read self.old) }
        ensures script { FollowsScript Read self.old self.new }
    {
        match self.ask(CallKind::Read) {
            Ok(()) => Ok(read_into(&self.parts.get(part).bytes, at, into)),
            Err(Failed) => Err(Failed),
        }
    }

    fn write_at(&mut self, part: Part, at: u64, bytes: &[u8]) -> Result<(), Failed>
        requires { at ≤ length (get part (disk_image self.old)) }
        ensures ok { OnOk result
            (Puts part (written at bytes.now) (disk_image self.old) (disk_image self.new)) }
        ensures err { OnErr result (OnPart part (FailedWrite at (length bytes.now))
            (disk_image self.old) (disk_image self.new)) }
        ensures unwritten { OnErr result (disk_image self.new ≡ disk_image self.old) }
        ensures crash { Tears memory self.old self.new part at (length bytes.now) }
        ensures time { Elapses clock_of LeftSince CrashLeaves self.old self.new }
        ensures cause { HasCause (faults_of self.old) (faults_of self.new) result }
        ensures counts_faults { faults_of self.new ≡ faults_after result (faults_of self.old) }
        ensures exact { OnOk result (LeavesExactly self.old self.new
            (TornWrite part at (length bytes.now) (disk_image self.old))) }
        // It wanted memory before it began, or the range is in doubt.
        ensures failed { OnErr result (SameParts self.old self.new ⊎ LeavesExactly self.old self.new
            (TornWrite part at (length bytes.now) (disk_image self.old))) }
        ensures kept { ForgetsNothing self.old self.new }
        ensures listed { IsTrue (fails_next Write self.old) → IsErr result }
        ensures script { FollowsScript Write self.old self.new }
    {
        let fails = self.begin(CallKind::Write);
        let done = self.parts.write(part, at as usize, bytes, fails);
        self.end(done)
    }

    fn cut(&mut self, part: Part, len: u64) -> Result<(), Failed>
        requires { len ≤ length (get part (disk_image self.old)) }
        ensures ok { OnOk result
            (Puts part (take len) (disk_image self.old) (disk_image self.new)) }
        ensures err { OnErr result
            (OnPart part (FailedCut len) (disk_image self.old) (disk_image self.new)) }
        ensures uncut { OnErr result (disk_image self.new ≡ disk_image self.old) }
        ensures crash { Clips memory self.old self.new part len }
        ensures time { Elapses clock_of LeftSince CrashLeaves self.old self.new }
        ensures cause { HasCause (faults_of self.old) (faults_of self.new) result }
        ensures counts_faults { faults_of self.new ≡ faults_after result (faults_of self.old) }
        ensures exact { OnOk result
            (LeavesExactly self.old self.new (OnPart part (PendingCut len))) }
        // It wanted memory before it began, or the length is in doubt.
        ensures failed { OnErr result (SameParts self.old self.new
            ⊎ LeavesExactly self.old self.new (OnPart part (PendingCut len))) }
        ensures kept { ForgetsNothing self.old self.new }
        ensures listed { IsTrue (fails_next Cut self.old) → IsErr result }
        ensures script { FollowsScript Cut self.old self.new }
    {
        let fails = self.begin(CallKind::Cut);
        let done = self.parts.cut(part, len as usize, fails);
        self.end(done)
    }

    fn sync(&mut self) -> Result<(), Failed>
        ensures durable { OnOk result (Only (disk_image self.old) (CrashLeaves self.new)) }
        ensures seen { disk_image self.new ≡ disk_image self.old }
        ensures crash { Within (CrashLeaves self.new) (CrashLeaves self.old) }
        ensures time { Elapses clock_of LeftSince CrashLeaves self.old self.new }
        ensures cause { HasCause (faults_of self.old) (faults_of self.new) result }
        ensures counts_faults { faults_of self.new ≡ faults_after result (faults_of self.old) }
        ensures failed { OnErr result (Within (CrashLeaves self.old) (CrashLeaves self.new)) }
        ensures kept { ForgetsNothing self.old self.new }
        ensures listed { IsTrue (fails_next Sync self.old) → IsErr result }
        ensures script { FollowsScript Sync self.old self.new }
    {
        let entry = self.history.clock;
        let fails = self.begin(CallKind::Sync);
        let done = self.settle(entry, fails);
        self.end(done)
    }

    fn clock(&self) -> u64 {
        self.history.clock
    }

    fn faults(&self) -> u64 {
        self.faults
    }
}
