//! The marks of the events that may happen next.

use crate::calls::running_event;
use crate::marks::{Kind, Mark};
use std::alloc::Global;
use sw_core::{Core, CoreBoard};
use sw_data::{Event, NoMemory, Task};
use sw_lane::{Board, Lanes};

// A mark is added, where its event may happen.
fn add_if(marks: &mut Vec<Mark>, mark: Mark, may_happen: bool) -> Result<(), NoMemory> {
    if may_happen {
        marks.push(mark)?;
    }
    Ok(())
}

fn add_lanes(core: &Core, lanes: &Lanes, marks: &mut Vec<Mark>) -> Result<(), NoMemory> {
    let board = CoreBoard { core, flights: &[] };
    for lane in 0..lanes.len() {
        if let Some(action) = lanes.action(lane) {
            add_if(marks, Mark::Lane(lane), board.lane_ready(lane, action))?;
        }
    }
    Ok(())
}

// Whether an event may happen, which is let go.
fn is_enabled(core: &Core, event: Event) -> bool {
    let is_enabled = core.enabled(&event);
    drop(event);
    is_enabled
}

// Whether the next call of a worker's handler may happen.
fn may_call(alloc: Global, core: &Core, worker: u32) -> Result<bool, NoMemory> {
    match running_event(alloc, core, worker) {
        Ok(Some(event)) => Ok(is_enabled(core, event)),
        Ok(None) => Ok(false),
        Err(NoMemory) => Err(NoMemory),
    }
}

// What a worker does next.
fn add_worker(
    alloc: Global,
    core: &Core,
    worker: u32,
    marks: &mut Vec<Mark>,
) -> Result<(), NoMemory> {
    let may_call = may_call(alloc, core, worker)?;
    add_if(marks, Mark::Handler(worker), may_call)?;
    add_task(core, Task::Activate(worker), Kind::Activated, worker, marks)
}

// The event of a task, where it is ready.
fn add_task(
    core: &Core,
    task: Task,
    kind: Kind,
    number: u32,
    marks: &mut Vec<Mark>,
) -> Result<(), NoMemory> {
    add_if(marks, Mark::Host { kind, number }, core.ready(task))
}

fn add_job(core: &Core, job: u32, marks: &mut Vec<Mark>) -> Result<(), NoMemory> {
    add_task(core, Task::Run(job), Kind::Run, job, marks)?;
    add_task(core, Task::Fetch(job), Kind::Fetched, job, marks)?;
    add_task(core, Task::Evaluate(job), Kind::Evaluated, job, marks)?;
    add_task(core, Task::Install(job), Kind::Installed, job, marks)
}

// The addAlls, which are numbered from 0.
fn add_fetches(core: &Core, marks: &mut Vec<Mark>) -> Result<(), NoMemory> {
    for task in 0..u32::MAX {
        if core.task_key(task).is_none() {
            return Ok(());
        }
        add_task(core, Task::FetchAll(task), Kind::Added, task, marks)?;
    }
    Ok(())
}

// The marks of the events that may happen next.
pub(crate) fn marks(alloc: Global, core: &Core, lanes: &Lanes) -> Result<Vec<Mark>, NoMemory> {
    let mut marks = Vec::new(alloc);
    add_lanes(core, lanes, &mut marks)?;
    for row in core.workers().rows() {
        add_worker(alloc, core, row.number, &mut marks)?;
    }
    for row in core.queues().rows() {
        add_job(core, row.job.number, &mut marks)?;
    }
    for row in core.registrations().rows() {
        let number = row.number;
        add_task(
            core,
            Task::TryActivate(number),
            Kind::TryActivate,
            number,
            &mut marks,
        )?;
    }
    add_fetches(core, &mut marks)?;
    Ok(marks)
}
