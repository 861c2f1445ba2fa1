//! What the calls of the table of jobs take and answer.

ghost use Rattle.std.specs.Prelude.{◌≡◌};

use std::marker::Model;
use sw_data::{JobPhase, JobRow, Text};

/// What became of a job that was scheduled.
#[derive(Debug, Clone, Copy, PartialEq, Eq)]
pub enum Scheduled {
    /// It stands in its queue.
    Queued,
    /// It joined the job of this number.
    Joined(u32),
}

/// The queue is empty, or its first job is past waiting.
#[derive(Debug, Clone, Copy, PartialEq, Eq)]
pub struct NotReady;

/// What is noted of a job that runs.
#[derive(Debug, Clone, Copy)]
pub struct JobNotes {
    pub phase: JobPhase,
    pub registration: Option<u32>,
    /// The drawn number of its fetch.
    pub fetch: Option<u32>,
    /// The newest worker that was there when its worker began to install.
    pub remembered: Option<u32>,
    pub worker: Option<u32>,
}

/// The row of a job that isn't in the table yet, which has room for it.
#[derive(Drop)]
pub struct NewJob {
    pub(crate) row: JobRow,
    pub(crate) followers: Vec<u32>,
    // A copy of its key, for the tally.
    pub(crate) key: Text,
}

impl Model for NewJob {
    ghost use Rattle.std.specs.Prelude.{◌≡◌, []};
    ghost use Rattle.sw_data.specs.declared.rows.JobRow.{JobRow};

    ghost Value = { JobRow };

    ghost view = { λ new. new.row };

    ghost invariant = { λ new. (new.followers.items ≡ []) × (new.key ≡ new.row.job.key) };
}

impl NewJob {
    /// The job that it joins. It takes no memory.
    pub fn leader(&self) -> Option<u32>
        ensures { result ≡ self.now.leader }
    {
        self.row.leader
    }
}
