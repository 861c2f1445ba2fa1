//! The event that a mark names, where it may happen.

ghost use Rattle.std.specs.Prelude.{◌≡◌, List, None, IfOk, OnErr};
ghost use Rattle.sw_audit.specs.Taking.{IsFound, allowed};
ghost use Rattle.sw_audit.specs.Named.{host_event};
ghost use Rattle.sw_audit.specs.declared.marks.Mark.TheVariants as mark;
ghost use Rattle.sw_data.specs.declared.recordings.Recording.{Recording};
ghost use Rattle.sw_lane.specs.Left.{Left};
ghost use Rattle.sw_state.specs.Hosted.{state_of};

use crate::calls::running_event;
use crate::laning::lane_event;
use crate::marks::{Kind, Mark};
use std::alloc::Global;
use sw_core::{Core, CoreBoard, added, fetched};
use sw_data::{Event, NoMemory, Who};
use sw_lane::Lanes;
use sw_net::Net;

// An event that may not happen, which is let go.
fn barred(event: Event) -> Option<Event>
    ensures { result ≡ None }
{
    drop(event);
    None
}

// An event, where it may happen.
fn allowed(core: &Core, event: Option<Event>) -> Option<Event>
    ensures { result ≡ allowed (state_of core.now) event }
{
    match event {
        Some(event) => {
            if core.enabled(&event) {
                Some(event)
            } else {
                barred(event)
            }
        }
        None => None,
    }
}

// The end of the fetches of an addAll, with the lines of the recording. None where it isn't there.
fn added_event(alloc: Global, core: &Core, net: &Net, task: u32) -> Result<Option<Event>, NoMemory>
    ensures { IfOk result (λ found. (recording : Recording) → recording.fetches ≡ net.now
        → found ≡ host_event recording (state_of core.now) Kind.Added task) }
{
    match core.task_key(task) {
        Some(_) => Ok(Some(added(alloc, core, net, task)?)),
        None => Ok(None),
    }
}

// The event of the host of a kind and a number, with the lines of the recording.
fn host_event(
    alloc: Global,
    core: &Core,
    net: &Net,
    kind: Kind,
    number: u32,
) -> Result<Option<Event>, NoMemory>
    ensures { IfOk result (λ found. (recording : Recording) → recording.fetches ≡ net.now
        → found ≡ host_event recording (state_of core.now) kind number) }
{
    let who = Who::Host;
    match kind {
        Kind::Run => Ok(Some(Event::Run { who, job: number })),
        Kind::Fetched => Ok(Some(fetched(alloc, core, net, number)?)),
        Kind::Evaluated => Ok(Some(Event::Evaluated { who, job: number })),
        Kind::Installed => Ok(Some(Event::Installed { who, job: number })),
        Kind::TryActivate => Ok(Some(Event::TryActivate {
            who,
            registration: number,
        })),
        Kind::Activated => Ok(Some(Event::Activated {
            who,
            worker: number,
        })),
        Kind::Added => added_event(alloc, core, net, number),
    }
}

// The event of a lane's next action, which is taken of the lane, where it may happen.
fn lane_taken(core: &Core, lanes: &mut Lanes, net: &Net, lane: u32) -> Option<Event>
    ensures { IsFound (state_of core.now) lanes.old net.now (mark.Lane lane) result lanes.new }
{
    let board = CoreBoard { core, flights: &[] };
    lane_event(lanes, &board, lane)
}

// The next call of a worker's handler, where it may happen.
fn call_taken(alloc: Global, core: &Core, net: &Net, worker: u32) -> Result<Option<Event>, NoMemory>
    ensures { IfOk result (λ found. (lanes : List Left)
        → IsFound (state_of core.now) lanes net.now (mark.Handler worker) found lanes) }
{
    match running_event(alloc, core, worker) {
        Ok(event) => Ok(allowed(core, event)),
        Err(NoMemory) => Err(NoMemory),
    }
}

// An event of the host, where it may happen.
fn host_taken(
    alloc: Global,
    core: &Core,
    net: &Net,
    kind: Kind,
    number: u32,
) -> Result<Option<Event>, NoMemory>
    ensures { IfOk result (λ found. (lanes : List Left)
        → IsFound (state_of core.now) lanes net.now (mark.Host kind number) found lanes) }
{
    match host_event(alloc, core, net, kind, number) {
        Ok(event) => Ok(allowed(core, event)),
        Err(NoMemory) => Err(NoMemory),
    }
}

// The event that a mark names, where it may happen. That of a lane is taken of the lane.
pub(crate) fn taken(
    alloc: Global,
    core: &Core,
    lanes: &mut Lanes,
    net: &Net,
    mark: Mark,
) -> Result<Option<Event>, NoMemory>
    ensures found { IfOk result (λ found.
        IsFound (state_of core.now) lanes.old net.now mark found lanes.new) }
    ensures same { OnErr result (lanes.new ≡ lanes.old) }
{
    match mark {
        Mark::Lane(lane) => Ok(lane_taken(core, lanes, net, lane)),
        Mark::Handler(worker) => call_taken(alloc, core, net, worker),
        Mark::Host { kind, number } => host_taken(alloc, core, net, kind, number),
    }
}
