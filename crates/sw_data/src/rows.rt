//! Rows of the tables: jobs, workers, registrations and clients.

use crate::answers::Settlement;
use crate::base::bytes::Bytes;
use crate::base::shared::Shared;
use crate::base::text::Text;
use crate::recordings::Handlers;
use crate::workers::{Kind, Mode, Phase, WorkerState};

/// The type of a job (Service Workers, "job type").
#[derive(Debug, Clone, Copy, PartialEq, Eq)]
pub enum JobKind {
    Register,
    Update,
    Unregister,
}

/// How far a job has come.
#[derive(Debug, Clone, Copy, PartialEq, Eq)]
pub enum JobPhase {
    Waiting,
    Fetching,
    Evaluating,
    Installing,
    Done,
}

/// A job (Service Workers, "job"). Fields that its type doesn't need are the empty text, classic and imports.
#[derive(Drop)]
pub struct Job {
    pub number: u32,
    pub what: JobKind,
    pub key: Text,
    pub scope: Text,
    pub script: Text,
    pub kind: Kind,
    pub mode: Mode,
    pub has_client: bool,
    pub referrer: Text,
}

/// A job with what became of it.
#[derive(Drop)]
pub struct JobRow {
    pub job: Job,
    /// The job that it joined.
    pub leader: Option<u32>,
    pub phase: JobPhase,
    pub settled: Option<Settlement>,
    pub registration: Option<u32>,
    /// The drawn number of its fetch.
    pub fetch: Option<u32>,
    /// The newest worker that was there when its worker began to install.
    pub remembered: Option<u32>,
    pub worker: Option<u32>,
}

/// A handler that runs.
#[derive(Debug, Clone, Copy, PartialEq, Eq)]
pub struct HandlerRow {
    pub phase: Phase,
    /// How many calls it has made.
    pub made: u32,
    /// How many of its addAlls have not settled.
    pub unsettled: u32,
    /// A call of it was answered by a fault, or an addAll of it settled with one.
    pub faulted: bool,
}

/// A worker.
#[derive(Drop)]
pub struct WorkerRow {
    pub number: u32,
    pub registration: u32,
    pub script: Text,
    pub kind: Kind,
    pub body: Shared<Bytes>,
    pub state: WorkerState,
    pub skip_waiting: bool,
    /// The drawn number of the fetch that it was made from.
    pub fetch: Option<u32>,
    pub handlers: Shared<Handlers>,
    pub handler: Option<HandlerRow>,
}

/// A registration with its three slots.
#[derive(Drop)]
pub struct RegistrationRow {
    pub number: u32,
    pub key: Text,
    pub scope: Text,
    pub mode: Mode,
    /// How many registrations had got a waiting worker before this one.
    pub first: Option<u32>,
    pub owed: bool,
    pub installing: Option<u32>,
    pub waiting: Option<u32>,
    pub active: Option<u32>,
}

/// A client that is open.
#[derive(Drop)]
pub struct ClientRow {
    pub number: u32,
    pub url: Text,
    pub key: Text,
    pub secure: bool,
    pub controller: Option<u32>,
}
