//! What the events take and answer.

use sw_data::Fault;
use sw_reg::NewRegistration;
use sw_scope::NewScope;
use sw_worker::NewWorker;

/// The finished rows that an event may add to the tables.
#[derive(Drop)]
pub struct Rows {
    pub registration: Option<NewRegistration>,
    pub scope: Option<NewScope>,
    pub worker: Option<NewWorker>,
}

/// What became of a job that ran.
#[derive(Debug, Clone, Copy, PartialEq, Eq)]
pub enum Ran {
    /// It is over.
    Finished,
    /// Its script is to be fetched, with this number.
    Fetch(u32),
}

/// What the fetch of a job's script came to.
#[derive(Debug, Clone, Copy, PartialEq, Eq)]
pub enum FetchOutcome {
    /// A network error, or a response that isn't allowed.
    Rejected(Fault),
    /// The script of the newest worker.
    Unchanged,
    /// Another script.
    Changed,
}

/// What became of a job whose script was fetched.
#[derive(Debug, Clone, Copy, PartialEq, Eq)]
pub enum FetchedAnswer {
    Rejected,
    Unchanged,
    Changed,
}
