//! The event that comes next.

ghost use Rattle.std.specs.Prelude.{◌≡◌, ◌≢◌, ◌↔◌, ◌<◌, [], List, false, length, Some, None, IfOk, IfSome, OnErr, OnOk, slice_get, slice_set};
ghost use Rattle.sw_data.specs.declared.histories.Task as tasks;
ghost use Rattle.sw_lane.specs.Left.{Left};
ghost use Rattle.sw_lane.specs.Picked as picks;
ghost use Rattle.sw_lane.specs.declared.picks.Pick.TheVariants as pick;
ghost use Rattle.sw_lane.specs.declared.picks.Work.TheVariants as work;
ghost use Rattle.sw_laws.specs.Coherent.{Coherent};
ghost use Rattle.sw_turns.specs.Coming.{IsPickedNext, IsTaking};
ghost use Rattle.sw_turns.specs.Flights.{AreInFlight, Flies, IsDue, Spares};
ghost use Rattle.sw_core.specs.Machines.{IsEventOf};
ghost use Rattle.sw_turns.specs.Playing.{ComesByPick};
ghost use Rattle.sw_state.specs.Hosted.{state_of};

use std::alloc::Global;
use sw_core::{Core, task_event};
use sw_data::{Event, NoMemory, Task, Who, action_of_event, event_of_action};
use sw_lane::Lanes;
use sw_net::Net;

/// The event of the next action of a lane, which is taken.
pub fn action_event(
    core: &Core,
    lanes: &mut Lanes,
    flights: &[Option<Task>],
    net: &Net,
    lane: u32,
    at: u32,
) -> Event
    requires alone { length flights.now ≡ 1 → picks.in_flight flights.now ≡ [] }
    requires picked { picks.picked (state_of core.now) (picks.in_flight flights.now) lanes.old
        ≡ pick.Work (work.Action lane at) }
    ensures next { ComesByPick (length flights.now) net.now lanes.old lanes.new (state_of core.now)
        result }
    ensures picked { IsPickedNext net.now (state_of core.now) flights.now lanes.old result
        lanes.new }
    ensures taken { IsTaking lanes.old lane result lanes.new }
    ensures spares { Spares result flights.now }
{
    let action = lanes.take(lane);
    event_of_action(Who::Lane { lane, at }, action)
}

// The action of an event that was taken last of a lane goes back to it. It takes no memory.
pub(crate) fn put_back(lanes: &mut Lanes, lane: u32, event: Event)
    requires { (before : List Left) × IsTaking before lane event lanes.old }
    ensures { (before : List Left) → IsTaking before lane event lanes.old → lanes.new ≡ before }
{
    match action_of_event(event) {
        Some(action) => lanes.put_back(lane, action),
        None => unreachable!(),
    }
}

/// The event of the task that was picked with nothing in flight, that of a fetch at once.
pub fn due_event(
    alloc: Global,
    core: &Core,
    lanes: &Lanes,
    net: &Net,
    task: Task,
) -> Result<Event, NoMemory>
    requires coherent { Coherent (state_of core.now) }
    requires picked { picks.picked (state_of core.now) [] lanes.now ≡ pick.Work (work.Task task) }
    ensures next { IfOk result
        (ComesByPick 1 net.now lanes.now lanes.now (state_of core.now)) }
{
    task_event(alloc, core, net, task)
}

// The event of the first ready task, which is no fetch.
pub(crate) fn ready_event(
    alloc: Global,
    core: &Core,
    lanes: &Lanes,
    flights: &[Option<Task>],
    net: &Net,
    task: Task,
) -> Result<Event, NoMemory>
    requires coherent { Coherent (state_of core.now) }
    requires alone { length flights.now ≡ 1 → picks.in_flight flights.now ≡ [] }
    requires picked { picks.picked (state_of core.now) (picks.in_flight flights.now) lanes.now
        ≡ pick.Work (work.Task task) }
    requires plain { picks.is_fetch task ≡ false }
    ensures next { IfOk result
        (ComesByPick (length flights.now) net.now lanes.now lanes.now (state_of core.now)) }
    ensures picked { IfOk result (λ event.
        IsPickedNext net.now (state_of core.now) flights.now lanes.now event lanes.now) }
    ensures spares { IfOk result (λ event. Spares event flights.now) }
{
    task_event(alloc, core, net, task)
}

// The event of the fetch that a pass has taken up, which it hasn't any more then. None exactly where it has taken up
// none.
pub(crate) fn landing(
    alloc: Global,
    core: &Core,
    lanes: &Lanes,
    flights: &mut [Option<Task>],
    net: &Net,
    pass: u32,
) -> Result<Option<Event>, NoMemory>
    requires coherent { Coherent (state_of core.now) }
    requires pass { pass < length flights.old }
    requires flights { AreInFlight (state_of core.now) flights.old }
    requires due { IsDue (state_of core.now) lanes.now flights.old }
    ensures next { IfOk result (λ event. IfSome event
        (ComesByPick (length flights.old) net.now lanes.now lanes.now (state_of core.now))) }
    ensures event { IfOk result (λ event. IfSome event (λ event. (flown : tasks.Task)
        → Flies flights.old pass flown → IsEventOf net.now (state_of core.now) flown event)) }
    ensures spares { IfOk result (λ event. IfSome event (λ event. Spares event flights.new)) }
    ensures none { IfOk result (λ event. (event ≡ None)
        ↔ (slice_get flights.old pass ≡ Some None)) }
    ensures landed { OnOk result (flights.new ≡ slice_set flights.old pass None) }
    ensures err { OnErr result (flights.new ≡ flights.old) }
    ensures taken { OnErr result (slice_get flights.old pass ≢ Some None) }
    ensures flights { AreInFlight (state_of core.now) flights.new }
{
    let place = pass as usize;
    match flights[place] {
        Some(task) => {
            let event = task_event(alloc, core, net, task)?;
            flights[place] = None;
            Ok(Some(event))
        }
        None => Ok(None),
    }
}
