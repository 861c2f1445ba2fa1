//! The events of ready tasks. The event of a fetch carries the lines that the recording gives.

ghost use Rattle.std.specs.Prelude.{◌≡◌, true, map, slice_get, IfOk};
ghost use Rattle.std.specs.List.{list_any};
ghost use Rattle.std.specs.Option.{option_and_then};
ghost use Rattle.sw_core.specs.Machines.{IsAdded, IsEventOf, IsFetched, line_for};
ghost use Rattle.sw_lane.specs.Picked.{is_task};
ghost use Rattle.sw_laws.specs.Coherent.{Coherent};
ghost use Rattle.sw_rules.specs.Step.{enabled};
ghost use Rattle.sw_rules.specs.Tasks.{ready_tasks};
ghost use Rattle.sw_state.specs.Hosted.{state_of};

use crate::core_tables::Core;
use std::alloc::Global;
use sw_data::address::without_fragment;
use sw_data::{Boxed, Event, FetchLine, Items, NoMemory, Task, Text, Who, boxed_option, copy_line};
use sw_net::Net;

// The line that a fetch gets.
fn line(
    alloc: Global,
    net: &Net,
    address: &Text,
    number: u32,
) -> Result<Option<FetchLine>, NoMemory>
    ensures { IfOk result (λ line. line ≡ line_for net.now (address.now, number)) }
{
    match net.fetch_bytes(without_fragment(address.as_bytes()), number) {
        Some(line) => Ok(Some(copy_line(alloc, line)?)),
        None => Ok(None),
    }
}

// The line of the first fetch.
fn first_line(
    alloc: Global,
    net: &Net,
    fetches: &[(Text, u32)],
) -> Result<Option<Boxed<FetchLine>>, NoMemory>
    ensures { IfOk result (λ line.
        line ≡ option_and_then (line_for net.now) (slice_get fetches.now 0)) }
{
    match fetches.first() {
        Some((address, number)) => boxed_option(alloc, line(alloc, net, address, *number)?),
        None => Ok(None),
    }
}

// The lines of the fetches, in order.
fn all_lines(
    alloc: Global,
    net: &Net,
    fetches: &[(Text, u32)],
) -> Result<Items<Option<FetchLine>>, NoMemory>
    ensures { IfOk result (λ lines. lines ≡ map (line_for net.now) fetches.now) }
{
    let mut lines = Items::new(alloc);
    for (address, number) in fetches {
        lines.push(line(alloc, net, address, *number)?)?;
    }
    Ok(lines)
}

/// The end of the fetch of a job's script, with the line that the recording gives. Where the job has drawn no fetch, or
/// isn't there, there is no line.
pub fn fetched(alloc: Global, core: &Core, net: &Net, job: u32) -> Result<Event, NoMemory>
    ensures { IfOk result (IsFetched net.now (state_of core.now) job) }
{
    let fetches = core.fetches(alloc, Task::Fetch(job))?;
    let line = first_line(alloc, net, fetches.as_slice())?;
    Ok(Event::Fetched {
        who: Who::Host,
        job,
        line,
    })
}

/// The end of the fetches of an addAll, with the lines that the recording gives. Where it isn't there, there are none.
pub fn added(alloc: Global, core: &Core, net: &Net, task: u32) -> Result<Event, NoMemory>
    ensures { IfOk result (IsAdded net.now (state_of core.now) task) }
{
    let fetches = core.fetches(alloc, Task::FetchAll(task))?;
    let lines = all_lines(alloc, net, fetches.as_slice())?;
    Ok(Event::Added {
        who: Who::Host,
        task,
        lines,
    })
}

// The end of a ready fetch of a job's script.
fn fetch_event(alloc: Global, core: &Core, net: &Net, job: u32) -> Result<Event, NoMemory>
    requires { list_any (is_task (Task.Fetch job)) (ready_tasks (state_of core.now)) ≡ true }
    ensures { IfOk result (IsEventOf net.now (state_of core.now) (Task.Fetch job)) }
{
    fetched(alloc, core, net, job)
}

// The end of the ready fetches of an addAll.
fn add_all_event(alloc: Global, core: &Core, net: &Net, task: u32) -> Result<Event, NoMemory>
    requires { list_any (is_task (Task.FetchAll task)) (ready_tasks (state_of core.now)) ≡ true }
    ensures { IfOk result (IsEventOf net.now (state_of core.now) (Task.FetchAll task)) }
{
    added(alloc, core, net, task)
}

// The event of a ready task.
fn own_event(alloc: Global, core: &Core, net: &Net, task: Task) -> Result<Event, NoMemory>
    requires { list_any (is_task task) (ready_tasks (state_of core.now)) ≡ true }
    ensures { IfOk result (IsEventOf net.now (state_of core.now) task) }
{
    match task {
        Task::Fetch(job) => fetch_event(alloc, core, net, job),
        Task::FetchAll(number) => add_all_event(alloc, core, net, number),
        Task::Run(_)
        | Task::Evaluate(_)
        | Task::Install(_)
        | Task::TryActivate(_)
        | Task::Activate(_) => match core.event_of(alloc, task)? {
            Some(event) => Ok(event),
            None => unreachable!(),
        },
    }
}

/// The event of a ready task, with the lines that the recording gives for its fetches. It may happen.
#[tactic(auto, using(crate::proofs::FetchLemmas::enabled_on))]
pub fn task_event(alloc: Global, core: &Core, net: &Net, task: Task) -> Result<Event, NoMemory>
    requires coherent { Coherent (state_of core.now) }
    requires ready { list_any (is_task task) (ready_tasks (state_of core.now)) ≡ true }
    ensures event { IfOk result (IsEventOf net.now (state_of core.now) task) }
    ensures may { IfOk result (λ event. enabled (state_of core.now) event ≡ true) }
{
    own_event(alloc, core, net, task)
}
