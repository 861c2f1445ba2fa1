//! One event happens, and its changes are written.

ghost use Rattle.std.specs.Prelude.{◌≡◌, ◌≤◌, ◌+◌, ◌↔◌, ◌∷◌, [], ℕ, true, IfOk, IsErrOf, None, OnOk, Some};
ghost use Rattle.sw_data.specs.declared.events.Event as events;
ghost use Rattle.sw_data.specs.declared.histories.Entry as entries_of;
ghost use Rattle.sw_data.specs.declared.storage.Kept.{Kept};
ghost use Rattle.sw_data.specs.Faults.{Rose};
ghost use Rattle.sw_disk.specs.DiskRule.{ForTold};
ghost use Rattle.sw_journal.specs.Journal.{Since};
ghost use Rattle.sw_kept.specs.Keeping.{KeepsNow, LeavesEither, StaysTold};
ghost use Rattle.sw_kept.specs.Stored.{HasKept};
ghost use Rattle.sw_laws.specs.Coherent.{Coherent};
ghost use Rattle.sw_rules.specs.Step.{changes_of, enabled};
ghost use Rattle.sw_rules.specs.Storage.{kept_after};
ghost use Rattle.sw_store.specs.Groups.{IsEntry, IsTooLong};
ghost use Rattle.sw_store.specs.Stores.{WaitsForNothing, IsSame};
ghost use Rattle.sw_twin.specs.Twin.{StandsFor};
ghost use Rattle.sw_state.specs.Hosted.{state_of};

use crate::errors::{ApplyError, CommitError, StageError};
use crate::store::Store;
use std::alloc::Global;
use sw_data::{Entry, Event};
use sw_disk::Disk;

// The only entry.
fn only(mut entries: Vec<Entry>) -> Entry
    requires { (entry : entries_of.Entry) × (entries.items ≡ entry ∷ []) }
    ensures { entries.items ≡ result ∷ [] }
{
    match entries.pop() {
        Some(entry) => entry,
        None => unreachable!(),
    }
}

impl Store {
    /// An event happens, which this pass made, and its changes are written: `stage` and `commit` of this event alone.
    ///
    /// Broken is tested first, then want of memory, then the limit, then the disk.
    pub fn apply<D: Disk>(
        &mut self,
        alloc: Global,
        disk: &mut D,
        event: Event,
        pass: u32,
    ) -> Result<Entry, ApplyError>
        requires coherent { Coherent (state_of self.old.core) }
        requires enabled { enabled (state_of self.old.core) event ≡ true }
        requires staged { self.old.staged ≡ [] }
        requires payload { self.old.payload ≡ [] }
        requires stands { self.old.since ≡ None → StandsFor self.old.twin D.Disk disk.old }
        ensures happened { IfOk result (λ entry.
            IsEntry event pass (state_of self.old.core) entry (state_of self.new.core)) }
        ensures stamp { IfOk result (λ entry. entry.stamp ≡ D.clock disk.new) }
        ensures quiet { OnOk result (WaitsForNothing self.new) }

        // After Ok the disk keeps the event's changes besides, also after a crash. At every moment of the call a crash
        // leaves what it kept before, or with all of them.
        ensures keeps { (kept : Kept) → KeepsNow self.old.twin kept D.Disk disk.old
            → OnOk result (KeepsNow self.new.twin
            (kept_after kept (changes_of (state_of self.old.core) event)) D.Disk disk.new) }
        ensures any_moment { (kept : Kept) → KeepsNow self.old.twin kept D.Disk disk.old
            → LeavesEither D.Disk disk.old disk.new kept
            (kept_after kept (changes_of (state_of self.old.core) event)) }
        ensures acknowledged { (kept : Kept) → KeepsNow self.old.twin kept D.Disk disk.old
            → OnOk result (ForTold (D.seen disk.old) (λ image. Since D.Disk disk.new disk.new
            (HasKept (kept_after kept (changes_of (state_of self.old.core) event))))) }
        ensures told { OnOk result (StaysTold D.Disk disk.old disk.new) }
        ensures most { D.clock disk.new ≤ D.clock disk.old + 4 }

        // Each refusal has its cause, and but for a fault of the disk it leaves all as it was.
        ensures no_memory { IsErrOf result ApplyError.NoMemory
            → (disk.new ≡ disk.old) × IsSame self.old self.new }
        ensures broken { (since : ℕ) → IsErrOf result (ApplyError.Broken since)
            ↔ (self.old.since ≡ Some since) }
        ensures stays { (since : ℕ) → IsErrOf result (ApplyError.Broken since)
            → (disk.new ≡ disk.old) × IsSame self.old self.new }
        ensures full { (refused : events.Event) (from needed : ℕ)
            → IsErrOf result (ApplyError.Full refused from needed)
            → (refused ≡ event) × (from ≡ self.old.twin.journal.gate + 1)
            × IsTooLong (changes_of (state_of self.old.core) event) [] self.old.twin needed }
        ensures unwritten { (refused : events.Event) (from needed : ℕ)
            → IsErrOf result (ApplyError.Full refused from needed)
            → (disk.new ≡ disk.old) × IsSame self.old self.new }
        ensures fault { (refused : entries_of.Entry)
            → IsErrOf result (ApplyError.DiskFault refused)
            → IsEntry event pass (state_of self.old.core) refused (state_of self.new.core)
            × Rose (D.faults disk.old) (D.faults disk.new)
            × (self.new.since ≡ Some (D.clock disk.new)) }
    {
        match self.stage(alloc, event, pass) {
            Ok(()) => match self.commit(alloc, disk) {
                Ok(entries) => Ok(only(entries)),
                Err(CommitError::DiskFault(entries)) => Err(ApplyError::DiskFault(only(entries))),
                Err(CommitError::Broken { .. }) => unreachable!(),
            },
            Err(StageError::NoMemory) => Err(ApplyError::NoMemory),
            Err(
                StageError::Full {
                    event,
                    length,
                    needed,
                },
            ) => Err(ApplyError::Full {
                event,
                length,
                needed,
            }),
            Err(StageError::NoRoom(_)) => unreachable!(),
            Err(StageError::Broken { since }) => Err(ApplyError::Broken { since }),
        }
    }
}
