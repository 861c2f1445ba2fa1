//! What waits is written.

ghost use Rattle.std.specs.Prelude.{◌≡◌, ◌≢◌, ◌⊎◌, ◌≤◌, ◌+◌, ◌++◌, List, [], None, length, IfErr, OnErr, OnOk};
ghost use Rattle.std.specs.Vec.{vec_capacity, vec_len};
ghost use Rattle.sw_data.specs.declared.histories.Entry as entries;
ghost use Rattle.sw_turns.specs.Ends.{IsCutShort};
ghost use Rattle.sw_turns.specs.Settling.{HasSettled, HasStopped, IsAnew, IsNotFull, IsOneRecord, IsWritten, Standing};
ghost use Rattle.sw_turns.specs.Surviving.{IsAtWork, kept_of, latest};
ghost use Rattle.sw_store.specs.Stores.{WaitsForNothing, IsTended};

use crate::ends::DriveEnd;
use std::alloc::Global;
use sw_data::Entry;
use sw_disk::Disk;
use sw_store::{CommitError, Store, TendError};

// The entries are the history's. It takes no memory.
fn add_all(history: &mut Vec<Entry>, entries: Vec<Entry>)
    requires { vec_len history.old + length entries.items ≤ vec_capacity history.old }
    ensures items { history.new.items ≡ history.old.items ++ entries.items }
    ensures room { vec_capacity history.new ≡ vec_capacity history.old }
{
    for entry in entries {
        history.push_reserved(entry);
    }
}

/// What waits is written, and its entries are the history's. It takes no memory.
pub fn write_group<D: Disk>(
    alloc: Global,
    store: &mut Store,
    history: &mut Vec<Entry>,
    disk: &mut D,
) -> Result<(), DriveEnd>
    requires since { store.old.since ≡ None }
    requires room { vec_len history.old + length store.old.staged ≤ vec_capacity history.old }
    requires stopped { (s : Standing) × HasStopped D.Disk disk.old s history.old.items store.old }
    ensures goes_on { (s : Standing) (start : D)
        → HasStopped D.Disk disk.old s history.old.items store.old
        → IsAtWork D.Disk start disk.old s.base history.old.items store.old
        → HasSettled D.Disk start disk.new s history.new.items store.new result }
    ensures ahead { (s : Standing) (start : D)
        → HasStopped D.Disk disk.old s history.old.items store.old
        → IsAtWork D.Disk start disk.old s.base history.old.items store.old
        → store.old.payload ≢ []
        → OnOk result (D.clock disk.new + 7 ≤ latest s.base history.new.items) }
    ensures stopped { (s : Standing) → HasStopped D.Disk disk.old s history.old.items store.old
        → OnOk result (HasStopped D.Disk disk.new s history.new.items store.new) }
    ensures core { store.new.core ≡ store.old.core }
    ensures quiet { OnOk result (WaitsForNothing store.new) }
    ensures tended { (s : Standing) → HasStopped D.Disk disk.old s history.old.items store.old
        → store.old.payload ≡ [] → IsTended (kept_of s.base history.old.items) store.old
        → OnOk result (IsTended (kept_of s.base history.new.items) store.new) }
    ensures written { OnOk result
        (IsWritten history.old.items history.new.items store.old.staged) }
    ensures same { OnErr result (history.new.items ≡ history.old.items) }
    ensures room { vec_capacity history.new ≡ vec_capacity history.old }
    ensures calls { D.clock disk.new ≤ D.clock disk.old + 4 }
    ensures nothing { store.old.payload ≡ [] → disk.new ≡ disk.old }
    ensures grows { (s : Standing) → HasStopped D.Disk disk.old s history.old.items store.old
        → OnOk result (latest s.base history.old.items ≤ latest s.base history.new.items) }
    ensures cut { IfErr result IsCutShort }
{
    match store.commit(alloc, disk) {
        Ok(entries) => {
            add_all(history, entries);
            Ok(())
        }
        Err(CommitError::DiskFault(refused)) => Err(DriveEnd::DiskFault(refused)),
        Err(CommitError::Broken { .. }) => unreachable!(),
    }
}

/// What is kept is written anew where that is due.
pub fn tend<D: Disk>(alloc: Global, store: &mut Store, disk: &mut D) -> Result<(), DriveEnd>
    requires quiet { WaitsForNothing store.old }
    requires stopped { (s : Standing) × (history : List entries.Entry)
        × HasStopped D.Disk disk.old s history store.old }
    ensures goes_on { (s : Standing) (start : D) (history : List entries.Entry)
        → HasStopped D.Disk disk.old s history store.old
        → IsAtWork D.Disk start disk.old s.base history store.old
        → D.clock disk.old + 7 ≤ latest s.base history
        → HasSettled D.Disk start disk.new s history store.new result }
    ensures stopped { (s : Standing) (history : List entries.Entry) → IsNotFull s.stopped
        → HasStopped D.Disk disk.old s history store.old
        → OnOk result (HasStopped D.Disk disk.new s history store.new) }
    ensures core { store.new.core ≡ store.old.core }
    ensures quiet { OnOk result (WaitsForNothing store.new) }
    ensures tended { (s : Standing) (history : List entries.Entry)
        → HasStopped D.Disk disk.old s history store.old
        → OnOk result (IsTended (kept_of s.base history) store.new) }
    ensures calls { D.clock disk.new ≤ D.clock disk.old + 7 }
    ensures anew { (disk.new ≡ disk.old) ⊎ IsAnew (D.clock disk.new) store.new }
    ensures cut { IfErr result IsCutShort }
{
    match store.tend(alloc, disk) {
        Ok(_) => Ok(()),
        Err(TendError::NoMemory) => Err(DriveEnd::NoMemory),
        Err(TendError::DiskFault) => Err(DriveEnd::DiskFault(Vec::new(alloc))),
    }
}

/// What waits is written, and its entries are the history's; where changes were written, what is kept is written anew if
/// that is due.
pub fn settle<D: Disk>(
    alloc: Global,
    store: &mut Store,
    history: &mut Vec<Entry>,
    disk: &mut D,
) -> Result<(), DriveEnd>
    requires since { store.old.since ≡ None }
    requires room { vec_len history.old + length store.old.staged ≤ vec_capacity history.old }
    requires stopped { (s : Standing) × HasStopped D.Disk disk.old s history.old.items store.old }
    ensures goes_on { (s : Standing) (start : D)
        → HasStopped D.Disk disk.old s history.old.items store.old
        → IsAtWork D.Disk start disk.old s.base history.old.items store.old
        → HasSettled D.Disk start disk.new s history.new.items store.new result }
    ensures stopped { (s : Standing) → HasStopped D.Disk disk.old s history.old.items store.old
        → OnOk result (HasStopped D.Disk disk.new s history.new.items store.new) }
    ensures core { store.new.core ≡ store.old.core }
    ensures quiet { OnOk result (WaitsForNothing store.new) }

    // Where changes were written, what is kept is written anew if that is due.
    ensures tended { (s : Standing) → HasStopped D.Disk disk.old s history.old.items store.old
        → IsTended (kept_of s.base history.old.items) store.old
        → OnOk result (IsTended (kept_of s.base history.new.items) store.new) }

    // Where a checkpoint fails the entries are the history's all the same.
    ensures written { OnOk result
        (IsWritten history.old.items history.new.items store.old.staged) }
    ensures either { (history.new.items ≡ history.old.items)
        ⊎ IsWritten history.old.items history.new.items store.old.staged }
    ensures room { vec_capacity history.new ≡ vec_capacity history.old }
    ensures calls { IsOneRecord (D.clock disk.old) (D.clock disk.new) store.new }
    ensures cut { IfErr result IsCutShort }
{
    if store.has_changes() {
        write_group(alloc, store, history, disk)?;
        return tend(alloc, store, disk);
    }
    write_group(alloc, store, history, disk)
}
