//! What waits is written, and what is kept is written anew.

ghost use Rattle.std.specs.Prelude.{◌≡◌, ◌≢◌, ◌≤◌, ◌+◌, ◌↔◌, [], ℕ, List, Vec, length, true, false, IfOk, IsErrOf, OnErr, OnOk, None, Some};
ghost use Rattle.sw_codec.specs.Spelling.{spelled_all};
ghost use Rattle.sw_data.specs.declared.histories.Entry as entries_of;
ghost use Rattle.sw_data.specs.declared.storage.Change as changes;
ghost use Rattle.sw_data.specs.declared.storage.Kept.{Kept};
ghost use Rattle.sw_data.specs.Faults.{Rose};
ghost use Rattle.sw_disk.specs.DiskRule.{ForTold};
ghost use Rattle.sw_disk.specs.Meanings.{LeavesOnly};
ghost use Rattle.sw_journal.specs.Format.{format_2};
ghost use Rattle.sw_journal.specs.Journal.{Since};
ghost use Rattle.sw_kept.specs.Keeping.{KeepsNow, LeavesEither, StaysTold};
ghost use Rattle.sw_kept.specs.Spelling.{IsContents};
ghost use Rattle.sw_kept.specs.Stored.{HasKept};
ghost use Rattle.sw_rules.specs.Durable.{durable};
ghost use Rattle.sw_rules.specs.Storage.{IsMade, kept_after};
ghost use Rattle.sw_store.specs.Stores.{FitsBehind, HasGrown, WaitsForNothing, IsTended, IsWrittenAnew, all_stamped};
ghost use Rattle.sw_twin.specs.Twin.{StandsFor};
ghost use Rattle.sw_state.specs.Hosted.{state_of};

use crate::errors::{CommitError, TendError};
use crate::limits::GROWTH;
use crate::store::Store;
use std::alloc::Global;
use sw_core::Core;
use sw_data::{Bytes, Entry, Failed, NoMemory};
use sw_disk::Disk;
use sw_kept::{AppendError, CheckpointError, Twin, append, contents_of, go_over};

// Writes the changes that a payload spells as one record, if there are any. It takes no memory.
fn write<D: Disk>(twin: &mut Twin, disk: &mut D, payload: &[u8]) -> Result<(), Failed>
    requires format { twin.old.journal.format ≡ format_2 }
    requires room { length payload.now ≤ twin.old.journal.spare }
    requires fits { payload.now ≢ [] → FitsBehind twin.old payload.now }
    requires stands { StandsFor twin.old D.Disk disk.old }
    ensures format { twin.new.journal.format ≡ format_2 }
    ensures limit { twin.new.journal.limit ≡ twin.old.journal.limit }
    ensures keeps { (kept : Kept) (all : List changes.Change)
        → spelled_all all ≡ Some payload.now → KeepsNow twin.old kept D.Disk disk.old
        → OnOk result (KeepsNow twin.new (kept_after kept all) D.Disk disk.new) }
    ensures any_moment { (kept : Kept) (all : List changes.Change)
        → spelled_all all ≡ Some payload.now → KeepsNow twin.old kept D.Disk disk.old
        → LeavesEither D.Disk disk.old disk.new kept (kept_after kept all) }
    ensures acknowledged { (kept : Kept) (all : List changes.Change)
        → spelled_all all ≡ Some payload.now → KeepsNow twin.old kept D.Disk disk.old
        → OnOk result (ForTold (D.seen disk.old)
        (λ image. Since D.Disk disk.new disk.new (HasKept (kept_after kept all)))) }
    ensures told { OnOk result (StaysTold D.Disk disk.old disk.new) }
    ensures nothing { payload.now ≡ [] → (disk.new ≡ disk.old) × (twin.new ≡ twin.old) }
    ensures most { D.clock disk.new ≤ D.clock disk.old + 4 }
    ensures later { D.clock disk.old ≤ D.clock disk.new }
    ensures count { D.faults disk.old ≤ D.faults disk.new }
    ensures fault { OnErr result (Rose (D.faults disk.old) (D.faults disk.new)) }
{
    if payload.is_empty() {
        return Ok(());
    }
    match append(twin, disk, payload) {
        Ok(()) => Ok(()),
        Err(AppendError::DiskFault) => Err(Failed),
        Err(AppendError::Full { .. }) => unreachable!(),
    }
}

// The bytes of a whole part that keeps what a host does.
fn contents_now(core: &Core, alloc: Global) -> Result<Bytes, NoMemory>
    requires { IsMade (durable (state_of core.now)) }
    ensures { IfOk result (IsContents (durable (state_of core.now))) }
{
    let kept = core.kept(alloc)?;
    contents_of(alloc, &kept)
}

impl Store {
    /// Writes the changes that wait as one record, if there are any, and hands out the entries of the events that
    /// waited, stamped with the disk's clock. It takes no memory.
    pub fn commit<D: Disk>(
        &mut self,
        alloc: Global,
        disk: &mut D,
    ) -> Result<Vec<Entry>, CommitError>
        requires stands { self.old.since ≡ None → StandsFor self.old.twin D.Disk disk.old }
        ensures entries { IfOk result (λ entries.
            entries.items ≡ all_stamped (D.clock disk.new) self.old.staged) }
        ensures ok { OnOk result (WaitsForNothing self.new) }
        ensures core { self.new.core ≡ self.old.core }
        ensures base { self.new.base ≡ self.old.base }
        ensures mark { self.new.mark ≡ self.old.mark }
        ensures limit { self.new.twin.journal.limit ≡ self.old.twin.journal.limit }

        // After Ok the disk keeps the changes besides, also after a crash. At every moment of the call a crash leaves
        // what it kept before, or with all of these changes.
        ensures keeps { (kept : Kept) (all : List changes.Change)
            → spelled_all all ≡ Some self.old.payload → KeepsNow self.old.twin kept D.Disk disk.old
            → OnOk result (KeepsNow self.new.twin (kept_after kept all) D.Disk disk.new) }
        ensures any_moment { (kept : Kept) (all : List changes.Change)
            → spelled_all all ≡ Some self.old.payload → KeepsNow self.old.twin kept D.Disk disk.old
            → LeavesEither D.Disk disk.old disk.new kept (kept_after kept all) }
        ensures acknowledged { (kept : Kept) (all : List changes.Change)
            → spelled_all all ≡ Some self.old.payload → KeepsNow self.old.twin kept D.Disk disk.old
            → OnOk result (ForTold (D.seen disk.old)
            (λ image. Since D.Disk disk.new disk.new (HasKept (kept_after kept all)))) }

        ensures told { OnOk result (StaysTold D.Disk disk.old disk.new) }

        // Where there are no changes no call of the disk is made, and else at most four.
        ensures nothing { self.old.payload ≡ []
            → (disk.new ≡ disk.old) × (self.new.twin ≡ self.old.twin) }
        ensures most { D.clock disk.new ≤ D.clock disk.old + 4 }
        ensures later { D.clock disk.old ≤ D.clock disk.new }
        ensures count { D.faults disk.old ≤ D.faults disk.new }

        // Each refusal has its cause.
        ensures broken { (since : ℕ) → IsErrOf result (CommitError.Broken since)
            ↔ (self.old.since ≡ Some since) }
        ensures stays { (since : ℕ) → IsErrOf result (CommitError.Broken since)
            → (self.new ≡ self.old) × (disk.new ≡ disk.old) }
        ensures fault { (refused : Vec entries_of.Entry Global)
            → IsErrOf result (CommitError.DiskFault refused)
            → (refused.items ≡ all_stamped (D.clock disk.new) self.old.staged)
            × Rose (D.faults disk.old) (D.faults disk.new)
            × (self.new.since ≡ Some (D.clock disk.new)) }
    {
        match self.since {
            Some(since) => Err(CommitError::Broken { since }),
            None => match write(&mut self.twin, disk, self.group.payload()) {
                Ok(()) => Ok(self.group.take_stamped(alloc, disk.clock())),
                Err(Failed) => {
                    self.since = Some(disk.clock());
                    Err(CommitError::DiskFault(self.group.take_stamped(alloc, disk.clock())))
                }
            },
        }
    }

    /// The spellings of the changes that wait, one behind the other.
    pub fn payload(&self) -> &[u8]
        ensures { result.now ≡ self.now.payload }
    {
        self.group.payload()
    }

    /// Whether changes wait to be written.
    pub fn has_changes(&self) -> bool
        ensures changes { result ≡ true → self.now.payload ≢ [] }
        ensures none { result ≡ false → self.now.payload ≡ [] }
    {
        !self.group.payload().is_empty()
    }

    // Whether the current part has grown so much since the opening or the last time.
    fn has_grown(&self) -> bool
        ensures grown { result ≡ true → HasGrown self.now }
        ensures not_yet { result ≡ false → HasGrown self.now → ⊥ }
    {
        self.twin.next().saturating_sub(self.mark) >= GROWTH
    }

    /// Writes what is kept anew, where the next free offset has grown by 1,048,576 bytes or more since the opening or
    /// the last time, and what is kept is within the limit. It says whether it did.
    pub fn tend<D: Disk>(&mut self, alloc: Global, disk: &mut D) -> Result<bool, TendError>
        requires quiet { WaitsForNothing self.old }
        requires stands { StandsFor self.old.twin D.Disk disk.old }
        requires made { IsMade (durable (state_of self.old.core)) }
        ensures did { IfOk result (λ did. did ≡ true → HasGrown self.old
            × IsWrittenAnew (durable (state_of self.old.core)) self.new) }
        ensures did_not { IfOk result (λ did. did ≡ false
            → (self.new ≡ self.old) × (disk.new ≡ disk.old)
            × IsTended (durable (state_of self.old.core)) self.old) }
        ensures tended { OnOk result (IsTended (durable (state_of self.old.core)) self.new) }
        ensures quiet { OnOk result (WaitsForNothing self.new) }
        ensures core { self.new.core ≡ self.old.core }
        ensures base { self.new.base ≡ self.old.base }
        ensures limit { self.new.twin.journal.limit ≡ self.old.twin.journal.limit }

        // What the disk keeps stays, at every moment of the call.
        ensures keeps { KeepsNow self.old.twin (durable (state_of self.old.core)) D.Disk disk.old
            → OnOk result (KeepsNow self.new.twin (durable (state_of self.old.core))
            D.Disk disk.new) }
        ensures any_moment { KeepsNow self.old.twin (durable (state_of self.old.core))
            D.Disk disk.old
            → ForTold (D.seen disk.old) (λ image. LeavesOnly D.Disk disk.old disk.new
            (HasKept (durable (state_of self.old.core)))) }

        ensures told { OnOk result (StaysTold D.Disk disk.old disk.new) }
        ensures most { D.clock disk.new ≤ D.clock disk.old + 7 }
        ensures later { D.clock disk.old ≤ D.clock disk.new }
        ensures count { D.faults disk.old ≤ D.faults disk.new }
        ensures fault { IsErrOf result TendError.DiskFault
            → Rose (D.faults disk.old) (D.faults disk.new)
            × (self.new.since ≡ Some (D.clock disk.new)) }

        // Want of memory comes before any call of the disk.
        ensures no_memory { IsErrOf result TendError.NoMemory
            → (self.new ≡ self.old) × (disk.new ≡ disk.old) }
    {
        if !self.has_grown() {
            return Ok(false);
        }
        let contents = contents_now(&self.core, alloc)?;
        match go_over(&mut self.twin, disk, contents.as_bytes()) {
            Ok(()) => {
                self.mark = self.twin.next();
                Ok(true)
            }
            Err(CheckpointError::Full) => Ok(false),
            Err(CheckpointError::DiskFault) => {
                self.since = Some(disk.clock());
                Err(TendError::DiskFault)
            }
        }
    }
}
