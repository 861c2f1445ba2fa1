//! Histories: entries, tasks and ends.

use crate::answers::{Answer, Notice};
use crate::base::items::Items;
use crate::events::{Event, Who};

/// One event that has happened.
#[derive(Drop)]
pub struct Entry {
    /// The number of the worker thread's pass that made it.
    pub pass: u32,
    /// Its maker, which is that of its event.
    pub who: Who,
    pub event: Event,
    pub answer: Answer,
    pub notices: Items<Notice>,
    /// The disk's clock when it was acknowledged.
    pub stamp: u64,
}

/// What the host may do next, with the number of the job, job, addAll task, job, job, registration or worker.
#[derive(Debug, Clone, Copy, PartialEq, Eq)]
pub enum Task {
    Run(u32),
    Fetch(u32),
    FetchAll(u32),
    Evaluate(u32),
    Install(u32),
    TryActivate(u32),
    Activate(u32),
}

/// How a history ended.
#[derive(Drop)]
pub enum End {
    Done,
    /// The lowest lane with actions left.
    Stalled(u32),
    /// The events that a fault of the disk refused.
    Disk(Items<Event>),
    /// The event that the journal had no room for.
    Full(Event),
    Spent,
}
