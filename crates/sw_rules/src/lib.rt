//! Definitions and laws of the service worker lifecycle host.
//!
//! The definitions stand in `specs/`, one file for each subject; the laws are the calls of `laws`. The plain data and
//! the definitions of `sw_data` are passed on.
#![tactic(auto)]

mod jobs;
pub mod laws;
mod notices;

pub use jobs::{same_kind, same_mode};
pub use notices::Notices;
pub use sw_data::{
    Action, Answer, Bytes, CacheAddAll, CacheBatch, CacheDelete, CacheMatch, CachePut, CacheQuery,
    Call, Cause, Change, ClientRow, ClientScope, End, Entry, Event, Fault, FetchLine, Fetched,
    HandlerRow, Handlers, Header, Items, Job, JobKind, JobPhase, JobRow, Kept, KeptCache,
    KeptRegistration, KeptWorker, Kind, Mode, NoMemory, Notice, Op, Options, Phase, Place,
    Recording, Registering, RegistrationRow, Request, Response, SecurityCause, Settlement, Slot,
    StateCause, Task, Text, Who, WorkerRow, WorkerState,
};
