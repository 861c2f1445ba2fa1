//! Groups of events.

ghost use Rattle.std.specs.Prelude.{◌≡◌, ◌≢◌, ◌↔◌, ◌<◌, ◌≤◌, ◌+◌, ◌++◌, ◌∷◌, [], ℕ, List, Option, Some, None, length, true, false, slice_get, IfErr, IsErrOf, OnErr, OnOk};
ghost use Rattle.sw_data.specs.declared.events.Event as events;
ghost use Rattle.sw_data.specs.declared.histories.Entry as entries;
ghost use Rattle.sw_data.specs.declared.histories.Task as tasks;
ghost use Rattle.sw_data.specs.declared.recordings.FetchLine.{FetchLine};
ghost use Rattle.sw_data.specs.declared.recordings.Recording.{Recording};
ghost use Rattle.sw_data.specs.declared.storage.Kept.{Kept};
ghost use Rattle.sw_lane.specs.Left.{Left};
ghost use Rattle.sw_lane.specs.Picked as picks;
ghost use Rattle.sw_lane.specs.declared.picks.Pick.TheVariants as pick;
ghost use Rattle.sw_lane.specs.declared.picks.Work.TheVariants as work;
ghost use Rattle.sw_laws.specs.Coherent.{Coherent};
ghost use Rattle.sw_lock.specs.Entries.{ThenOwn};
ghost use Rattle.sw_rules.specs.Step.{changes_of, enabled, state_after};
ghost use Rattle.sw_store.specs.Groups.{IsTooLong};
ghost use Rattle.sw_store.specs.Stores.{IsSameTwin};
ghost use Rattle.sw_turns.specs.Coming.{AreOfTurn, GrowsByPick};
ghost use Rattle.sw_turns.specs.Flights.{AreInFlight, Flies, IsDue, Spares};
ghost use Rattle.sw_turns.specs.Groups.{Begins, ComesBehind, HasEntered, HasJoined, HasSome, IsBarren, IsByPick, IsTaken, IsUnderWay, KeepsLanes, LacksRoom, Leaves, Stops, stop_by};
ghost use Rattle.sw_turns.specs.Ways.{Way, recorded_way};
ghost use Rattle.sw_turns.specs.declared.ends.Refusal.TheVariants as refused;
ghost use Rattle.sw_turns.specs.declared.ends.Stop.TheVariants as stopped;
ghost use Rattle.sw_state.specs.Hosted.{state_of};

use crate::ends::{Refusal, Stop};
use crate::next::{action_event, landing, put_back, ready_event};
use std::alloc::Global;
use sw_core::{Core, CoreBoard};
use sw_data::{Event, NoMemory, Task};
use sw_lane::{Lanes, Pick, Work};
use sw_net::Net;
use sw_store::{StageError, Store};

// The most events of a group.
pub(crate) const MOST: usize = 16;

/// An event that comes next happens, and waits.
pub fn enter(alloc: Global, store: &mut Store, event: Event, pass: u32) -> Result<(), Refusal>
    requires coherent { Coherent (state_of store.old.core) }
    requires enabled { enabled (state_of store.old.core) event ≡ true }
    requires since { store.old.since ≡ None }
    requires few { length store.old.staged < 16 }
    ensures goes_on { (workers : ℕ) (way : Way) (base : Kept) (history : List entries.Entry)
        (before lanes : List Left)
        → pass < workers → IsUnderWay workers way base history before store.old
        → ComesBehind workers way base history before lanes store.old event
        → HasJoined workers way base history before lanes store.new result }
    ensures flights { (flights : List (Option tasks.Task)) → Spares event flights
        → AreInFlight (state_of store.old.core) flights
        → AreInFlight (state_of store.new.core) flights }
    ensures coherent { Coherent (state_of store.new.core) }
    ensures twin { IsSameTwin store.old.twin store.new.twin }
    ensures mark { store.new.mark ≡ store.old.mark }
    ensures since { store.new.since ≡ None }
    ensures own { ThenOwn (λ entry. entry.pass) pass store.old.staged store.new.staged }
    ensures entry { OnOk result ((entry : entries.Entry) × (entry.event ≡ event)
        × (store.new.staged ≡ store.old.staged ++ entry ∷ [])) }
    ensures state { OnOk result
        (state_after (state_of store.old.core) event ≡ state_of store.new.core) }
    ensures same { OnErr result (store.new.staged ≡ store.old.staged) }
    ensures still { OnErr result (state_of store.new.core ≡ state_of store.old.core) }
    ensures alone { store.old.staged ≡ [] → IfErr result (λ refusal. IsBarren (stop_by refusal)) }
    ensures no_room { (kept : events.Event) → IsErrOf result (refused.NoRoom kept)
        → (kept ≡ event) × (store.new.staged ≢ []) × ((needed : ℕ)
        × IsTooLong (changes_of (state_of store.new.core) event) store.new.payload
        store.new.twin needed) }
{
    match store.stage(alloc, event, pass) {
        Ok(()) => Ok(()),
        Err(StageError::NoMemory) => Err(Refusal::NoMemory),
        Err(
            StageError::Full {
                event,
                length,
                needed,
            },
        ) => Err(Refusal::Full {
            event,
            length,
            needed,
        }),
        Err(StageError::NoRoom(event)) => Err(Refusal::NoRoom(event)),
        Err(StageError::Broken { .. }) => unreachable!(),
    }
}

// Why a group stops by an event that doesn't join it, which is let go where it has no room.
fn stop_by(refusal: Refusal) -> Stop
    ensures { result ≡ stop_by refusal }
{
    match refusal {
        Refusal::NoRoom(event) => {
            drop(event);
            Stop::NoRoom
        }
        Refusal::Full {
            event,
            length,
            needed,
        } => Stop::Full {
            event,
            length,
            needed,
        },
        Refusal::NoMemory => Stop::NoMemory,
    }
}

// The pass takes up the fetch that was picked.
fn take_off(
    alloc: Global,
    store: &Store,
    lanes: &Lanes,
    flights: &mut [Option<Task>],
    pass: u32,
    task: Task,
) -> Stop
    requires free { slice_get flights.old pass ≡ Some None }
    requires flights { AreInFlight (state_of store.now.core) flights.old }
    requires fetch { picks.is_fetch task ≡ true }
    requires picked { picks.picked (state_of store.now.core) (picks.in_flight flights.old) lanes.now
        ≡ pick.Work (work.Task task) }
    ensures flights { AreInFlight (state_of store.now.core) flights.new }
    ensures due { IsDue (state_of store.now.core) lanes.now flights.new }
    ensures leaves { Leaves pass flights.new lanes.now (state_of store.now.core) result }
    ensures taken { IsTaken pass flights.old flights.new result }
    ensures goes_on { (workers : ℕ) (way : Way) (base : Kept) (history : List entries.Entry)
        → IsUnderWay workers way base history lanes.now store.now
        → Stops workers way base history lanes.now flights.new store.now result }
    ensures kind { IsByPick result }
    ensures some { HasSome result store.now.staged }
    ensures lacks { (lines : List FetchLine)
        → LacksRoom result lines lanes.now flights.new store.now }
    ensures lanes { KeepsLanes result lanes.now lanes.now }
{
    match store.core().fetches(alloc, task) {
        Ok(fetches) => {
            flights[pass as usize] = Some(task);
            Stop::Fetch { task, fetches }
        }
        Err(NoMemory) => Stop::NoMemory,
    }
}

// The next action of the lane that was picked happens, and waits. Where it has no room it goes back to its lane.
fn act(
    alloc: Global,
    store: &mut Store,
    lanes: &mut Lanes,
    flights: &[Option<Task>],
    net: &Net,
    pass: u32,
    lane: u32,
    at: u32,
) -> Result<(), Stop>
    requires coherent { Coherent (state_of store.old.core) }
    requires free { slice_get flights.now pass ≡ Some None }
    requires flights { AreInFlight (state_of store.old.core) flights.now }
    requires picked { picks.picked (state_of store.old.core) (picks.in_flight flights.now) lanes.old
        ≡ pick.Work (work.Action lane at) }
    requires since { store.old.since ≡ None }
    requires few { length store.old.staged < 16 }
    ensures goes_on { (recording : Recording) (base : Kept) (history : List entries.Entry)
        → recording.fetches ≡ net.now
        → IsUnderWay (length flights.now) (recorded_way recording) base history lanes.old store.old
        → HasEntered (length flights.now) (recorded_way recording) base history
        lanes.new flights.now store.new result }
    ensures flights { AreInFlight (state_of store.new.core) flights.now }
    ensures coherent { Coherent (state_of store.new.core) }
    ensures twin { IsSameTwin store.old.twin store.new.twin }
    ensures mark { store.new.mark ≡ store.old.mark }
    ensures since { store.new.since ≡ None }
    ensures own { ThenOwn (λ entry. entry.pass) pass store.old.staged store.new.staged }
    ensures more { OnOk result (length store.new.staged ≡ length store.old.staged + 1) }
    ensures grows { OnOk result (GrowsByPick net.now flights.now lanes.old lanes.new
        store.old store.new) }
    ensures same { OnErr result (store.new.staged ≡ store.old.staged) }
    ensures still { OnErr result (state_of store.new.core ≡ state_of store.old.core) }
    ensures lanes { IfErr result (λ stop. KeepsLanes stop lanes.old lanes.new) }
    ensures kind { IfErr result IsByPick }
    ensures some { IfErr result (λ stop. HasSome stop store.new.staged) }
    ensures lacks { IfErr result (λ stop.
        LacksRoom stop net.now lanes.new flights.now store.new) }
    ensures leaves { IfErr result
        (Leaves pass flights.now lanes.new (state_of store.new.core)) }
    ensures taken { IfErr result (IsTaken pass flights.now flights.now) }
{
    let event = action_event(store.core(), lanes, flights, net, lane, at);
    match enter(alloc, store, event, pass) {
        Ok(()) => Ok(()),
        Err(Refusal::NoRoom(event)) => {
            put_back(lanes, lane, event);
            Err(Stop::NoRoom)
        }
        Err(
            Refusal::Full {
                event,
                length,
                needed,
            },
        ) => Err(Stop::Full {
            event,
            length,
            needed,
        }),
        Err(Refusal::NoMemory) => Err(Stop::NoMemory),
    }
}

// The ready task that was picked, which is no fetch, happens, and waits.
fn perform(
    alloc: Global,
    store: &mut Store,
    lanes: &Lanes,
    flights: &[Option<Task>],
    net: &Net,
    pass: u32,
    task: Task,
) -> Result<(), Stop>
    requires coherent { Coherent (state_of store.old.core) }
    requires free { slice_get flights.now pass ≡ Some None }
    requires flights { AreInFlight (state_of store.old.core) flights.now }
    requires plain { picks.is_fetch task ≡ false }
    requires picked { picks.picked (state_of store.old.core) (picks.in_flight flights.now) lanes.now
        ≡ pick.Work (work.Task task) }
    requires since { store.old.since ≡ None }
    requires few { length store.old.staged < 16 }
    ensures goes_on { (recording : Recording) (base : Kept) (history : List entries.Entry)
        → recording.fetches ≡ net.now
        → IsUnderWay (length flights.now) (recorded_way recording) base history lanes.now store.old
        → HasEntered (length flights.now) (recorded_way recording) base history
        lanes.now flights.now store.new result }
    ensures flights { AreInFlight (state_of store.new.core) flights.now }
    ensures coherent { Coherent (state_of store.new.core) }
    ensures twin { IsSameTwin store.old.twin store.new.twin }
    ensures mark { store.new.mark ≡ store.old.mark }
    ensures since { store.new.since ≡ None }
    ensures own { ThenOwn (λ entry. entry.pass) pass store.old.staged store.new.staged }
    ensures more { OnOk result (length store.new.staged ≡ length store.old.staged + 1) }
    ensures grows { OnOk result (GrowsByPick net.now flights.now lanes.now lanes.now
        store.old store.new) }
    ensures same { OnErr result (store.new.staged ≡ store.old.staged) }
    ensures still { OnErr result (state_of store.new.core ≡ state_of store.old.core) }
    ensures lanes { IfErr result (λ stop. KeepsLanes stop lanes.now lanes.now) }
    ensures kind { IfErr result IsByPick }
    ensures some { IfErr result (λ stop. HasSome stop store.new.staged) }
    ensures lacks { IfErr result (λ stop.
        LacksRoom stop net.now lanes.now flights.now store.new) }
    ensures leaves { IfErr result
        (Leaves pass flights.now lanes.now (state_of store.new.core)) }
    ensures taken { IfErr result (IsTaken pass flights.now flights.now) }
{
    match ready_event(alloc, store.core(), lanes, flights, net, task) {
        Ok(event) => match enter(alloc, store, event, pass) {
            Ok(()) => Ok(()),
            Err(refusal) => Err(stop_by(refusal)),
        },
        Err(NoMemory) => Err(Stop::NoMemory),
    }
}

// What was picked happens, and waits; but where it is a fetch the pass takes it up.
fn take_up(
    alloc: Global,
    store: &mut Store,
    lanes: &mut Lanes,
    flights: &mut [Option<Task>],
    net: &Net,
    pass: u32,
    picked: Work,
) -> Result<(), Stop>
    requires coherent { Coherent (state_of store.old.core) }
    requires free { slice_get flights.old pass ≡ Some None }
    requires flights { AreInFlight (state_of store.old.core) flights.old }
    requires picked { picks.picked (state_of store.old.core) (picks.in_flight flights.old) lanes.old
        ≡ pick.Work picked }
    requires since { store.old.since ≡ None }
    requires few { length store.old.staged < 16 }
    ensures goes_on { (recording : Recording) (base : Kept) (history : List entries.Entry)
        → recording.fetches ≡ net.now
        → IsUnderWay (length flights.old) (recorded_way recording) base history lanes.old store.old
        → HasEntered (length flights.old) (recorded_way recording) base history
        lanes.new flights.new store.new result }
    ensures flights { AreInFlight (state_of store.new.core) flights.new }
    ensures due { IsDue (state_of store.new.core) lanes.new flights.new }
    ensures coherent { Coherent (state_of store.new.core) }
    ensures twin { IsSameTwin store.old.twin store.new.twin }
    ensures mark { store.new.mark ≡ store.old.mark }
    ensures since { store.new.since ≡ None }
    ensures own { ThenOwn (λ entry. entry.pass) pass store.old.staged store.new.staged }
    ensures ok { OnOk result (flights.new ≡ flights.old) }
    ensures more { OnOk result (length store.new.staged ≡ length store.old.staged + 1) }
    ensures grows { OnOk result (GrowsByPick net.now flights.old lanes.old lanes.new
        store.old store.new) }
    ensures same { OnErr result (store.new.staged ≡ store.old.staged) }
    ensures still { OnErr result (state_of store.new.core ≡ state_of store.old.core) }
    ensures lanes { IfErr result (λ stop. KeepsLanes stop lanes.old lanes.new) }
    ensures kind { IfErr result IsByPick }
    ensures some { IfErr result (λ stop. HasSome stop store.new.staged) }
    ensures lacks { IfErr result (λ stop.
        LacksRoom stop net.now lanes.new flights.new store.new) }
    ensures leaves { IfErr result
        (Leaves pass flights.new lanes.new (state_of store.new.core)) }
    ensures taken { IfErr result (IsTaken pass flights.old flights.new) }
{
    match picked {
        Work::Action { lane, at } => act(alloc, store, lanes, flights, net, pass, lane, at),
        Work::Task(task) => match task {
            Task::Fetch(_) | Task::FetchAll(_) => {
                Err(take_off(alloc, store, lanes, flights, pass, task))
            }
            Task::Run(_)
            | Task::Evaluate(_)
            | Task::Install(_)
            | Task::TryActivate(_)
            | Task::Activate(_) => perform(alloc, store, lanes, flights, net, pass, task),
        },
    }
}

// What is picked while passes have these fetches in flight.
fn pick(core: &Core, lanes: &Lanes, flights: &[Option<Task>]) -> Pick
    requires { AreInFlight (state_of core.now) flights.now }
    ensures { result ≡ picks.picked (state_of core.now) (picks.in_flight flights.now) lanes.now }
{
    lanes.pick(&CoreBoard { core, flights })
}

// What comes next happens, and waits, until the group has sixteen events or no room for it, the pass takes up a fetch,
// or nothing may happen.
fn fill(
    alloc: Global,
    store: &mut Store,
    lanes: &mut Lanes,
    flights: &mut [Option<Task>],
    net: &Net,
    pass: u32,
) -> Stop
    requires coherent { Coherent (state_of store.old.core) }
    requires free { slice_get flights.old pass ≡ Some None }
    requires flights { AreInFlight (state_of store.old.core) flights.old }
    requires since { store.old.since ≡ None }
    requires few { length store.old.staged ≤ 16 }
    ensures goes_on { (recording : Recording) (base : Kept) (history : List entries.Entry)
        → recording.fetches ≡ net.now
        → IsUnderWay (length flights.old) (recorded_way recording) base history lanes.old store.old
        → Stops (length flights.old) (recorded_way recording) base history
        lanes.new flights.new store.new result }
    ensures flights { AreInFlight (state_of store.new.core) flights.new }
    ensures due { IsDue (state_of store.new.core) lanes.new flights.new }
    ensures coherent { Coherent (state_of store.new.core) }
    ensures twin { IsSameTwin store.old.twin store.new.twin }
    ensures mark { store.new.mark ≡ store.old.mark }
    ensures since { store.new.since ≡ None }
    ensures own { ThenOwn (λ entry. entry.pass) pass store.old.staged store.new.staged }
    ensures few { length store.new.staged ≤ 16 }
    ensures grows { (left : List Left)
        × GrowsByPick net.now flights.old lanes.old left store.old store.new
        × KeepsLanes result left lanes.new }
    ensures some { HasSome result store.new.staged }
    ensures lacks { LacksRoom result net.now lanes.new flights.new store.new }
    ensures leaves { Leaves pass flights.new lanes.new (state_of store.new.core) result }
    ensures taken { IsTaken pass flights.old flights.new result }

    // It stops at once where nothing is ready but what is in flight, and only there without an event.
    ensures idle { result ≡ stopped.Idle → length store.new.staged ≡ length store.old.staged
        → picks.picked (state_of store.old.core) (picks.in_flight flights.old) lanes.old
        ≡ pick.Idle }
    ensures at_once { length store.old.staged < 16
        → picks.picked (state_of store.old.core) (picks.in_flight flights.old) lanes.old ≡ pick.Idle
        → (result ≡ stopped.Idle) × (length store.new.staged ≡ length store.old.staged) }
{
    'events: loop {
        if store.waiting() >= MOST {
            return Stop::Whole;
        }
        match pick(store.core(), lanes, flights) {
            Pick::Work(picked) => {
                match take_up(alloc, store, lanes, flights, net, pass, picked) {
                    Ok(()) => {}
                    Err(stop) => return stop,
                }
            }
            Pick::Idle => return Stop::Idle,
            Pick::Stalled(lane) => return Stop::Stalled(lane),
            Pick::Done => return Stop::Done,
        }
    }
}

// A group of events of a pass happens, the event of the fetch that it has taken up first: until sixteen wait, or no
// further one may join.
pub(crate) fn begin(
    alloc: Global,
    store: &mut Store,
    lanes: &mut Lanes,
    flights: &mut [Option<Task>],
    net: &Net,
    pass: u32,
) -> Stop
    requires coherent { Coherent (state_of store.old.core) }
    requires pass { pass < length flights.old }
    requires flights { AreInFlight (state_of store.old.core) flights.old }
    requires due { IsDue (state_of store.old.core) lanes.old flights.old }
    requires since { store.old.since ≡ None }
    requires none { store.old.staged ≡ [] }
    ensures goes_on { (recording : Recording) (base : Kept) (history : List entries.Entry)
        → recording.fetches ≡ net.now
        → IsUnderWay (length flights.old) (recorded_way recording) base history lanes.old store.old
        → Stops (length flights.old) (recorded_way recording) base history
        lanes.new flights.new store.new result }
    ensures flights { AreInFlight (state_of store.new.core) flights.new }
    ensures due { IsDue (state_of store.new.core) lanes.new flights.new }
    ensures workers { length flights.new ≡ length flights.old }
    ensures others { (other : ℕ) → other ≢ pass
        → slice_get flights.new other ≡ slice_get flights.old other }
    ensures coherent { Coherent (state_of store.new.core) }
    ensures twin { IsSameTwin store.old.twin store.new.twin }
    ensures mark { store.new.mark ≡ store.old.mark }
    ensures since { store.new.since ≡ None }
    ensures own { ThenOwn (λ entry. entry.pass) pass [] store.new.staged }
    ensures few { length store.new.staged ≤ 16 }
    ensures entries { (left : List Left)
        × AreOfTurn net.now (state_of store.old.core) flights.old lanes.old pass store.new.staged left
        × KeepsLanes result left lanes.new }
    ensures some { HasSome result store.new.staged }
    ensures lacks { LacksRoom result net.now lanes.new flights.new store.new }
    ensures first { (flown : tasks.Task) → Flies flights.old pass flown
        → Begins net.now (state_of store.old.core) flown store.new.staged result }
    ensures leaves { Leaves pass flights.new lanes.new (state_of store.new.core) result }
    ensures idle { ((result ≡ stopped.Idle) × (store.new.staged ≡ []))
        ↔ ((slice_get flights.old pass ≡ Some None)
        × (picks.picked (state_of store.old.core) (picks.in_flight flights.old) lanes.old
        ≡ pick.Idle)) }
{
    match landing(alloc, store.core(), lanes, flights, net, pass) {
        Ok(Some(event)) => match enter(alloc, store, event, pass) {
            Ok(()) => fill(alloc, store, lanes, flights, net, pass),
            Err(refusal) => stop_by(refusal),
        },
        Ok(None) => fill(alloc, store, lanes, flights, net, pass),
        Err(NoMemory) => Stop::NoMemory,
    }
}
