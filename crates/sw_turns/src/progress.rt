//! A host, the lanes and the network of a recording, and what has happened.

ghost use Rattle.std.specs.Prelude.{◌≡◌, ◌<◌, ◌≤◌, ◌^◌, ◌∷◌, [], None, length, replicate, IfOk};
ghost use Rattle.sw_lane.specs.Recorded.{AreLanesOf};
ghost use Rattle.sw_turns.specs.Groups.{IsUnderWay};
ghost use Rattle.sw_turns.specs.Playing.{opening_of};
ghost use Rattle.sw_turns.specs.Surviving.{IsAtWork};
ghost use Rattle.sw_turns.specs.Turns.{IsGoing};
ghost use Rattle.sw_turns.specs.Ways.{Way};
ghost use Rattle.sw_store.specs.Opened.{HasOpened, IsFresh};

use std::alloc::Global;
use sw_core::Core;
use sw_data::{Answer, Entry, Event, Items, Kept, NoMemory, Recording, Task, Who};
use sw_disk::Disk;
use sw_lane::Lanes;
use sw_net::Net;
use sw_store::Store;

/// A host at work on a recording, with the fetch that each pass has taken up, if any. Its disk is handed to each call that
/// needs it.
#[derive(Drop)]
pub struct Progress {
    pub(crate) store: Store,
    pub(crate) lanes: Lanes,
    pub(crate) net: Net,
    pub(crate) flights: Vec<Option<Task>>,
    pub(crate) history: Vec<Entry>,
}

// The entry of the restart from a content, acknowledged at this clock.
fn opening(alloc: Global, base: &Kept, clock: u64) -> Result<Entry, NoMemory>
    ensures { IfOk result (λ entry. entry ≡ opening_of base.now clock) }
{
    let Ok(registrations) = u32::try_from(base.registrations.as_slice().len()) else {
        return Err(NoMemory);
    };
    let Ok(caches) = u32::try_from(base.caches.as_slice().len()) else {
        return Err(NoMemory);
    };
    Ok(Entry {
        pass: 0,
        who: Who::Host,
        event: Event::Restarted { who: Who::Host },
        answer: Answer::Restarted {
            registrations,
            caches,
        },
        notices: Items::new(alloc),
        stamp: clock,
    })
}

// The history of the restart from a content.
fn begun(alloc: Global, base: &Kept, clock: u64) -> Result<Vec<Entry>, NoMemory>
    ensures { IfOk result (λ history. history.items ≡ opening_of base.now clock ∷ []) }
{
    let mut history = Vec::new(alloc);
    history.push(opening(alloc, base, clock)?)?;
    Ok(history)
}

// The lanes and the network of a recording, passes that have taken up nothing, and the history of the restart.
fn set_out(
    alloc: Global,
    recording: Recording,
    base: &Kept,
    clock: u64,
    passes: u32,
) -> Result<(Lanes, Net, Vec<Option<Task>>, Vec<Entry>), NoMemory>
    ensures lanes { IfOk result (λ made. AreLanesOf recording [] made.0) }
    ensures net { IfOk result (λ made. made.1 ≡ recording.fetches) }
    ensures flights { IfOk result (λ made. made.2.items ≡ replicate passes None) }
    ensures history { IfOk result (λ made. made.3.items ≡ opening_of base.now clock ∷ []) }
{
    let net = Net::new(alloc, recording.fetches)?;
    let lanes = Lanes::new(alloc, recording.lanes)?;
    let flights = all_free(alloc, passes)?;
    let history = begun(alloc, base, clock)?;
    Ok((lanes, net, flights, history))
}

/// What a run begins with on a host that was just opened: the lanes and the network of a recording, passes that have taken
/// up nothing, and the history of the restart.
pub fn beginning<D: Disk>(
    alloc: Global,
    store: &Store,
    recording: Recording,
    disk: &D,
    passes: u32,
) -> Result<(Lanes, Net, Vec<Option<Task>>, Vec<Entry>), NoMemory>
    requires fresh { IsFresh (2 ^ 32) store.now }
    requires some { 0 < passes }
    ensures under_way { IfOk result (λ made. (way : Way) → way.recording ≡ recording
        → IsUnderWay passes way store.now.base made.3.items made.0 store.now) }
    ensures at_work { IfOk result (λ made. (start : D) → HasOpened D.Disk start disk.now store.now
        → IsAtWork D.Disk start disk.now store.now.base made.3.items store.now) }
    ensures net { IfOk result (λ made. made.1 ≡ recording.fetches) }
    ensures flights { IfOk result (λ made. made.2.items ≡ replicate passes None) }
    ensures history { IfOk result (λ made.
        made.3.items ≡ opening_of store.now.base (D.clock disk.now) ∷ []) }
{
    set_out(alloc, recording, store.base(), disk.clock(), passes)
}

// A host for whose work there is no memory. A store that a larger function would drop itself at an early end costs the
// check minutes.
fn unmade(store: Store) -> NoMemory {
    drop(store);
    NoMemory
}

// No pass has taken up anything.
fn all_free(alloc: Global, passes: u32) -> Result<Vec<Option<Task>>, NoMemory>
    ensures { IfOk result (λ flights. flights.items ≡ replicate passes None) }
{
    let mut flights = Vec::new(alloc);
    for _ in 0..passes {
        flights.push(None)?;
    }
    Ok(flights)
}

impl Progress {
    /// A host that was just opened, and a recording of which nothing has happened, for so many passes.
    pub fn new<D: Disk>(
        alloc: Global,
        store: Store,
        recording: Recording,
        disk: &D,
        passes: u32,
    ) -> Result<Progress, NoMemory>
        requires fresh { IsFresh (2 ^ 32) store }
        requires many { (0 < passes) × (passes ≤ 64) }
        ensures going { IfOk result (λ progress. (start : D) → HasOpened D.Disk start disk.now store
            → IsGoing D.Disk start disk.now recording store.base progress) }
        ensures passes { IfOk result (λ progress. length progress.flights.items ≡ passes) }
    {
        match beginning(alloc, &store, recording, disk, passes) {
            Ok((lanes, net, flights, history)) => Ok(Progress {
                store,
                lanes,
                net,
                flights,
                history,
            }),
            Err(NoMemory) => Err(unmade(store)),
        }
    }

    /// What has happened.
    pub fn history(&self) -> &[Entry]
        ensures { result.now ≡ self.now.history.items }
    {
        self.history.as_slice()
    }

    /// The host.
    pub fn core(&self) -> &Core
        ensures { result.now ≡ self.now.store.core }
    {
        self.store.core()
    }

    /// What has happened, by value.
    pub fn into_history(self) -> Vec<Entry>
        ensures { result.items ≡ self.history.items }
    {
        self.history
    }
}
