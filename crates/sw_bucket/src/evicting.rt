//! The host forgets while that is due.

ghost use Rattle.std.specs.Prelude.{◌≡◌, ◌<◌, ◌+◌, ◌^◌, ◌++◌, ◌∷◌, [], List, Some, length, IfOk, IfSome, OnOk};
ghost use Rattle.sw_bucket.specs.Evicting.{AddsForgets, Course, HasEvicted, IsBetween};
ghost use Rattle.sw_bucket.specs.Running.{HasCleared, HasForgotten, HasHappened, MayAdd, MayForget};
ghost use Rattle.sw_codec.specs.Spelling.{spelled_all};
ghost use Rattle.sw_data.specs.declared.histories.Entry as entries;
ghost use Rattle.sw_data.specs.declared.storage.Kept as kepts;
ghost use Rattle.sw_lane.specs.Left.{Left};
ghost use Rattle.sw_rules.specs.History.{Legal, after};
ghost use Rattle.sw_rules.specs.Step.{changes_of};
ghost use Rattle.sw_turns.specs.Playing.{ComesNext};
ghost use Rattle.sw_state.specs.Hosted.{state_of};

use crate::bound::Bound;
use crate::ends::BoundedEnd;
use crate::writing::{tended, write};
use std::alloc::Global;
use sw_data::{Entry, Event, NoMemory};
use sw_disk::Disk;
use sw_store::Store;

// The most entries of a run.
const MOST: usize = 4_294_967_296;

// The last entry is noted.
fn note_last<B: Bound>(
    alloc: Global,
    store: &Store,
    bound: &mut B,
    history: &[Entry],
    changes: &[u8],
) -> Result<(), NoMemory>
    ensures same { B.forgets bound.new ≡ B.forgets bound.old }
    ensures notes { (base : kepts.Kept) (before : List entries.Entry) (entry : entries.Entry)
        → history.now ≡ before ++ entry ∷ [] → B.notes bound.old base before
        → Legal base (before ++ entry ∷ [])
        → after base (before ++ entry ∷ []) ≡ state_of store.now.core
        → spelled_all (changes_of (after base before) entry.event) ≡ Some changes.now
        → OnOk result (B.notes bound.new base (before ++ entry ∷ [])) }
{
    match history.last() {
        Some(entry) => bound.note(alloc, store.core(), entry, changes),
        None => Ok(()),
    }
}

// An event that comes next happens, is written, and is noted. Whether it had changes to write.
pub(crate) fn happen<D: Disk, B: Bound>(
    alloc: Global,
    store: &mut Store,
    bound: &mut B,
    disk: &mut D,
    history: &mut Vec<Entry>,
    event: Event,
) -> Result<bool, BoundedEnd>
    requires next { (course : Course D) × (left : List Left)
        × IsBetween D.Disk B.Bound disk.old bound.old course history.old.items store.old
        × ComesNext 1 course.way course.base history.old.items course.lanes left
        (state_of store.old.core) event }
    ensures happened { (course : Course D) (left : List Left)
        → IsBetween D.Disk B.Bound disk.old bound.old course history.old.items store.old
        → ComesNext 1 course.way course.base history.old.items course.lanes left
        (state_of store.old.core) event
        → HasHappened D.Disk B.Bound disk.old disk.new bound.new (record course { lanes = left })
        history.old.items history.new.items store.new result }
    ensures added { MayAdd event history.old.items history.new.items }
    ensures more { OnOk result
        (length history.new.items ≡ length history.old.items + 1) }
    ensures same { B.forgets bound.new ≡ B.forgets bound.old }
{
    match write(alloc, store, history, disk, event) {
        Ok(changes) => match note_last(alloc, store, bound, history, changes.as_bytes()) {
            Ok(()) => Ok(!changes.as_bytes().is_empty()),
            Err(NoMemory) => Err(BoundedEnd::NoMemory),
        },
        Err(end) => Err(end),
    }
}

// The forget that is due happens: whether it had changes to write. None where none is due.
fn forget_next<D: Disk, B: Bound>(
    alloc: Global,
    store: &mut Store,
    bound: &mut B,
    disk: &mut D,
    history: &mut Vec<Entry>,
) -> Result<Option<bool>, BoundedEnd>
    requires between { (course : Course D)
        × IsBetween D.Disk B.Bound disk.old bound.old course history.old.items store.old }
    ensures forgotten { (course : Course D)
        → IsBetween D.Disk B.Bound disk.old bound.old course history.old.items store.old
        → HasForgotten D.Disk B.Bound disk.old disk.new bound.new course history.old.items
        history.new.items store.new result }
    ensures added { (course : Course D)
        → IsBetween D.Disk B.Bound disk.old bound.old course history.old.items store.old
        → MayForget (B.forgets bound.old) course.base history.old.items history.new.items }
    ensures more { IfOk result (λ step. IfSome step (λ some.
        (length history.old.items < 2 ^ 32)
        × (length history.new.items ≡ length history.old.items + 1))) }
    ensures same { B.forgets bound.new ≡ B.forgets bound.old }
{
    if history.len() >= MOST {
        return Err(BoundedEnd::Spent);
    }
    match bound.due(alloc, store.core()) {
        Ok(Some(event)) => match happen(alloc, store, bound, disk, history, event) {
            Ok(some) => Ok(Some(some)),
            Err(end) => Err(end),
        },
        Ok(None) => Ok(None),
        Err(NoMemory) => Err(BoundedEnd::NoMemory),
    }
}

// The host forgets while that is due: whether there were changes to write.
fn forget<D: Disk, B: Bound>(
    alloc: Global,
    store: &mut Store,
    bound: &mut B,
    disk: &mut D,
    history: &mut Vec<Entry>,
) -> Result<bool, BoundedEnd>
    requires between { (course : Course D)
        × IsBetween D.Disk B.Bound disk.old bound.old course history.old.items store.old }
    ensures cleared { (course : Course D)
        → IsBetween D.Disk B.Bound disk.old bound.old course history.old.items store.old
        → HasCleared D.Disk B.Bound disk.new bound.new course history.new.items store.new result }
    ensures added { (course : Course D)
        → IsBetween D.Disk B.Bound disk.old bound.old course history.old.items store.old
        → AddsForgets (B.forgets bound.old) course.base history.old.items history.new.items }
    ensures same { B.forgets bound.new ≡ B.forgets bound.old }
{
    let mut wrote = false;
    'forgets: loop {
        match forget_next(alloc, store, bound, disk, history) {
            Ok(Some(some)) => wrote = wrote || some,
            Ok(None) => return Ok(wrote),
            Err(end) => return Err(end),
        }
    }
}

/// The host forgets while that is due; then what is kept is written anew, if there were changes and that is due. What it has
/// forgotten stands behind the history, after an end too.
pub fn evict<D: Disk, B: Bound>(
    alloc: Global,
    store: &mut Store,
    bound: &mut B,
    disk: &mut D,
    history: &mut Vec<Entry>,
) -> Result<(), BoundedEnd>
    requires between { (course : Course D)
        × IsBetween D.Disk B.Bound disk.old bound.old course history.old.items store.old }

    // Nothing is due any more, and the disk keeps what the history makes, also after a crash; or the history has ended.
    ensures evicted { (course : Course D)
        → IsBetween D.Disk B.Bound disk.old bound.old course history.old.items store.old
        → HasEvicted D.Disk B.Bound disk.new bound.new course history.new.items store.new result }

    // However it ends, each entry that was added is the forget that was due.
    ensures added { (course : Course D)
        → IsBetween D.Disk B.Bound disk.old bound.old course history.old.items store.old
        → AddsForgets (B.forgets bound.old) course.base history.old.items history.new.items }
    ensures same { B.forgets bound.new ≡ B.forgets bound.old }
{
    match forget(alloc, store, bound, disk, history) {
        Ok(true) => tended(alloc, store, disk),
        Ok(false) => Ok(()),
        Err(end) => Err(end),
    }
}
