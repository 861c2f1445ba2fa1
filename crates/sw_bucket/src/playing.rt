//! The work on a recording under a bound, by one worker.

ghost use Rattle.std.specs.Prelude.{◌≡◌, ◌≢◌, ◌<◌, ◌≤◌, ◌+◌, ◌^◌, ◌∷◌, [], None, length, IfOk, OnErr, OnOk};
ghost use Rattle.sw_bucket.specs.Bounded.{HasEnded, bounded_way};
ghost use Rattle.sw_bucket.specs.Running.{HasPlayed, IsPlaying, Origin};
ghost use Rattle.sw_bucket.specs.declared.ends.BoundedEnd.TheVariants as end;
ghost use Rattle.sw_data.specs.declared.histories.Entry as entries;
ghost use Rattle.sw_data.specs.declared.storage.Kept as kepts;
ghost use Rattle.sw_lane.specs.Picked as picks;
ghost use Rattle.sw_lane.specs.declared.picks.Pick.TheVariants as pick;
ghost use Rattle.sw_laws.specs.Coherent.{Coherent};
ghost use Rattle.sw_rules.specs.History.{Legal, after};
ghost use Rattle.sw_store.specs.Opened.{HasOpened, IsFresh};
ghost use Rattle.sw_turns.specs.Playing.{ComesByPick};
ghost use Rattle.sw_state.specs.Hosted.{state_of};

use crate::bound::Bound;
use crate::ends::BoundedEnd;
use crate::evicting::{evict, happen};
use crate::writing::tended;
use std::alloc::Global;
use std::snapshot::Snapshot;
use sw_core::{Core, CoreBoard};
use sw_data::{Entry, Event, NoMemory, Recording};
use sw_disk::Disk;
use sw_lane::{Lanes, Pick, Work};
use sw_net::Net;
use sw_store::Store;
use sw_turns::{action_event, beginning, due_event};

// What is left of a recording under a bound, and what has happened.
#[derive(Drop)]
pub(crate) struct Run {
    lanes: Lanes,
    net: Net,
    history: Vec<Entry>,
}

// What is picked with nothing in flight.
fn pick(core: &Core, lanes: &Lanes) -> Pick
    ensures { result ≡ picks.picked (state_of core.now) [] lanes.now }
{
    lanes.pick(&CoreBoard { core, flights: &[] })
}

// The event of what was picked with nothing in flight. An action is taken of its lane.
fn picked_event(
    alloc: Global,
    core: &Core,
    lanes: &mut Lanes,
    net: &Net,
    picked: Work,
) -> Result<Event, NoMemory>
    requires coherent { Coherent (state_of core.now) }
    requires picked { picks.picked (state_of core.now) [] lanes.old ≡ pick.Work picked }
    ensures next { IfOk result
        (ComesByPick 1 net.now lanes.old lanes.new (state_of core.now)) }
{
    match picked {
        Work::Action { lane, at } => Ok(action_event(core, lanes, &[None], net, lane, at)),
        Work::Task(task) => due_event(alloc, core, lanes, net, task),
    }
}

impl Run {
    // What was picked happens, where nothing is due to be forgotten; then what is kept is written anew, if there were
    // changes and that is due.
    fn go<D: Disk, B: Bound>(
        &mut self,
        alloc: Global,
        store: &mut Store,
        bound: &mut B,
        disk: &mut D,
        picked: Work,
    ) -> Result<(), BoundedEnd>
        requires playing { (origin : Origin D)
            × IsPlaying D.Disk B.Bound disk.old bound.old origin self.old store.old
            × (B.forgets bound.old origin.base self.old.history.items (state_of store.old.core)
            ≡ None) }
        requires picked { picks.picked (state_of store.old.core) [] self.old.lanes
            ≡ pick.Work picked }
        ensures played { (origin : Origin D)
            → IsPlaying D.Disk B.Bound disk.old bound.old origin self.old store.old
            → B.forgets bound.old origin.base self.old.history.items (state_of store.old.core)
            ≡ None
            → HasPlayed D.Disk B.Bound disk.new bound.new origin self.new store.new result }
        ensures more { OnOk result
            (length self.new.history.items ≡ length self.old.history.items + 1) }
        ensures same { B.forgets bound.new ≡ B.forgets bound.old }
    {
        match picked_event(alloc, store.core(), &mut self.lanes, &self.net, picked) {
            Ok(event) => match happen(alloc, store, bound, disk, &mut self.history, event) {
                Ok(true) => tended(alloc, store, disk),
                Ok(false) => Ok(()),
                Err(end) => Err(end),
            },
            Err(NoMemory) => Err(BoundedEnd::NoMemory),
        }
    }

    // What the pick order has next happens, where nothing is due to be forgotten; or the run ends.
    fn go_on<D: Disk, B: Bound>(
        &mut self,
        alloc: Global,
        store: &mut Store,
        bound: &mut B,
        disk: &mut D,
    ) -> Result<(), BoundedEnd>
        requires playing { (origin : Origin D)
            × IsPlaying D.Disk B.Bound disk.old bound.old origin self.old store.old
            × (B.forgets bound.old origin.base self.old.history.items (state_of store.old.core)
            ≡ None) }
        ensures played { (origin : Origin D)
            → IsPlaying D.Disk B.Bound disk.old bound.old origin self.old store.old
            → B.forgets bound.old origin.base self.old.history.items (state_of store.old.core)
            ≡ None
            → HasPlayed D.Disk B.Bound disk.new bound.new origin self.new store.new result }
        ensures more { OnOk result
            (length self.new.history.items ≡ length self.old.history.items + 1) }
        ensures same { B.forgets bound.new ≡ B.forgets bound.old }
    {
        match pick(store.core(), &self.lanes) {
            Pick::Work(picked) => self.go(alloc, store, bound, disk, picked),
            Pick::Stalled(lane) => Err(BoundedEnd::Stalled(lane)),
            Pick::Done => Err(BoundedEnd::Done),
            Pick::Idle => unreachable!(),
        }
    }

    // What is due is forgotten, and what the pick order has next happens.
    fn advance<D: Disk, B: Bound>(
        &mut self,
        alloc: Global,
        store: &mut Store,
        bound: &mut B,
        disk: &mut D,
    ) -> Result<(), BoundedEnd>
        requires playing { (origin : Origin D)
            × IsPlaying D.Disk B.Bound disk.old bound.old origin self.old store.old }
        ensures played { (origin : Origin D)
            → IsPlaying D.Disk B.Bound disk.old bound.old origin self.old store.old
            → HasPlayed D.Disk B.Bound disk.new bound.new origin self.new store.new result }
        ensures more { OnOk result
            (length self.old.history.items < length self.new.history.items) }
        ensures few { OnOk result (length self.new.history.items ≤ 2 ^ 32) }
        ensures same { B.forgets bound.new ≡ B.forgets bound.old }
    {
        match evict(alloc, store, bound, disk, &mut self.history) {
            Ok(()) => self.go_on(alloc, store, bound, disk),
            Err(end) => Err(end),
        }
    }

    // The whole run.
    fn play<D: Disk, B: Bound>(
        &mut self,
        alloc: Global,
        store: &mut Store,
        bound: &mut B,
        disk: &mut D,
    ) -> BoundedEnd
        requires playing { (origin : Origin D)
            × IsPlaying D.Disk B.Bound disk.old bound.old origin self.old store.old }
        ensures ended { (origin : Origin D)
            → IsPlaying D.Disk B.Bound disk.old bound.old origin self.old store.old
            → HasEnded D.Disk origin.start disk.new
            (bounded_way (B.forgets bound.old) origin.recording origin.base) origin.base
            self.new.history.items result }
        ensures notes { (origin : Origin D)
            → IsPlaying D.Disk B.Bound disk.old bound.old origin self.old store.old
            → result ≢ end.NoMemory → B.notes bound.new origin.base self.new.history.items }
    {
        'events: loop {
            match self.advance(alloc, store, bound, disk) {
                Ok(()) => {}
                Err(end) => return end,
            }
        }
    }
}

// The restart is noted.
fn begin<B: Bound>(
    alloc: Global,
    store: &Store,
    history: &[Entry],
    bound: &mut B,
) -> Result<(), NoMemory>
    ensures same { B.forgets bound.new ≡ B.forgets bound.old }
    ensures notes { (base : kepts.Kept) (entry : entries.Entry) → history.now ≡ entry ∷ []
        → Legal base (entry ∷ []) → after base (entry ∷ []) ≡ state_of store.now.core
        → OnOk result (B.notes bound.new base (entry ∷ [])) }
{
    match history.last() {
        Some(entry) => bound.begin(alloc, store.core(), entry),
        None => Ok(()),
    }
}

/// The work on a recording under a bound, by one worker, on a host that was just opened: while a forget of the host is due
/// it happens, and otherwise what the pick order has next. What has happened, and how the work has ended.
pub fn run_under<D: Disk, B: Bound>(
    alloc: Global,
    store: &mut Store,
    bound: &mut B,
    disk: &mut D,
    recording: Recording,
    start: Snapshot<D>,
) -> Result<(Vec<Entry>, BoundedEnd), NoMemory>
    requires fresh { IsFresh (2 ^ 32) store.old }
    requires opened { HasOpened D.Disk start.value disk.old store.old }
    ensures ended { IfOk result (λ run. HasEnded D.Disk start.value disk.new
        (bounded_way (B.forgets bound.old) recording store.old.base) store.old.base
        run.0.items run.1) }

    // Unless there was no memory, the whole history was noted.
    ensures notes { IfOk result (λ run. run.1 ≢ end.NoMemory
        → B.notes bound.new store.old.base run.0.items) }
    ensures same { OnErr result (disk.new ≡ disk.old) }
{
    match beginning(alloc, store, recording, disk, 1) {
        Ok((lanes, net, _, history)) => {
            begin(alloc, store, &history, bound)?;
            let mut run = Run {
                lanes,
                net,
                history,
            };
            let end = run.play(alloc, store, bound, disk);
            Ok((run.history, end))
        }
        Err(NoMemory) => Err(NoMemory),
    }
}
