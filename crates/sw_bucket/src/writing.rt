//! An event is written, and what is kept is written anew.

ghost use Rattle.std.specs.Prelude.{◌≡◌, ◌≤◌, ◌+◌, ◌++◌, ◌∷◌, [], List, Some, true, IfOk, OnErr};
ghost use Rattle.sw_bucket.specs.Evicting.{Course};
ghost use Rattle.sw_bucket.specs.Running.{HasTended, HasWritten};
ghost use Rattle.sw_codec.specs.Spelling.{spelled_all};
ghost use Rattle.sw_data.specs.declared.histories.Entry as entries;
ghost use Rattle.sw_kept.specs.Keeping.{KeepsNow};
ghost use Rattle.sw_lane.specs.Left.{Left};
ghost use Rattle.sw_laws.specs.Coherent.{Coherent};
ghost use Rattle.sw_rules.specs.Step.{changes_of, enabled};
ghost use Rattle.sw_store.specs.Stores.{WaitsForNothing};
ghost use Rattle.sw_turns.specs.Groups.{IsUnderWay};
ghost use Rattle.sw_turns.specs.Playing.{ComesNext};
ghost use Rattle.sw_turns.specs.Surviving.{IsAtWork, kept_of, latest};
ghost use Rattle.sw_state.specs.Hosted.{state_of};

use crate::ends::{BoundedEnd, cut, refused};
use std::alloc::Global;
use sw_data::{Bytes, Entry, Event, NoMemory};
use sw_disk::Disk;
use sw_store::Store;
use sw_turns::{enter, tend, write_group};

// An event that comes next happens, and is written: the spellings of its changes.
pub(crate) fn write<D: Disk>(
    alloc: Global,
    store: &mut Store,
    history: &mut Vec<Entry>,
    disk: &mut D,
    event: Event,
) -> Result<Bytes, BoundedEnd>
    requires coherent { Coherent (state_of store.old.core) }
    requires enabled { enabled (state_of store.old.core) event ≡ true }
    requires quiet { WaitsForNothing store.old }
    requires next { (course : Course D) × (before : List Left)
        × IsUnderWay 1 course.way course.base history.old.items before store.old
        × ComesNext 1 course.way course.base history.old.items before course.lanes
        (state_of store.old.core) event
        × KeepsNow store.old.twin (kept_of course.base history.old.items) D.Disk disk.old }
    ensures goes_on { (course : Course D) (before : List Left)
        → IsUnderWay 1 course.way course.base history.old.items before store.old
        → ComesNext 1 course.way course.base history.old.items before course.lanes
        (state_of store.old.core) event
        → IsAtWork D.Disk course.start disk.old course.base history.old.items store.old
        → HasWritten D.Disk disk.old disk.new course history.old.items history.new.items
        store.new result }
    ensures entry { IfOk result (λ changes. (entry : entries.Entry) × (entry.event ≡ event)
        × (history.new.items ≡ history.old.items ++ entry ∷ [])
        × (spelled_all (changes_of (state_of store.old.core) entry.event) ≡ Some changes)) }
    ensures same { OnErr result (history.new.items ≡ history.old.items) }
{
    if history.reserve(1).is_err() {
        drop(event);
        return Err(BoundedEnd::NoMemory);
    }
    match enter(alloc, store, event, 0) {
        Ok(()) => match Bytes::of(alloc, store.payload()) {
            Ok(changes) => match write_group(alloc, store, history, disk) {
                Ok(()) => Ok(changes),
                Err(end) => Err(cut(end)),
            },
            Err(NoMemory) => Err(BoundedEnd::NoMemory),
        },
        Err(refusal) => Err(refused(refusal)),
    }
}

// What was written anew where that is due, or the end.
pub(crate) fn tended<D: Disk>(
    alloc: Global,
    store: &mut Store,
    disk: &mut D,
) -> Result<(), BoundedEnd>
    requires quiet { WaitsForNothing store.old }
    requires next { (course : Course D) × (history : List entries.Entry)
        × IsUnderWay 1 course.way course.base history course.lanes store.old
        × KeepsNow store.old.twin (kept_of course.base history) D.Disk disk.old }
    ensures goes_on { (course : Course D) (history : List entries.Entry)
        → IsUnderWay 1 course.way course.base history course.lanes store.old
        → IsAtWork D.Disk course.start disk.old course.base history store.old
        → D.clock disk.old + 7 ≤ latest course.base history
        → HasTended D.Disk disk.new course history store.new result }
    ensures core { store.new.core ≡ store.old.core }
{
    match tend(alloc, store, disk) {
        Ok(()) => Ok(()),
        Err(end) => Err(cut(end)),
    }
}
