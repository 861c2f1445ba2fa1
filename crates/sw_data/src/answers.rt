//! Answers, faults, notices and the values of promises.

use crate::base::items::Items;
use crate::base::text::Text;
use crate::workers::WorkerState;

/// Why a TypeError was thrown.
#[derive(Debug, Clone, Copy, PartialEq, Eq)]
pub enum Cause {
    Unparsed,
    Scheme,
    EscapedSlash,
    Method,
    Partial,
    Vary,
    Network,
    Status,
    NoRegistration,
    Script,
    Threw,
}

/// Why a SecurityError was thrown.
#[derive(Debug, Clone, Copy, PartialEq, Eq)]
pub enum SecurityCause {
    Origin,
    Untrusted,
    ScriptOrigin,
    ScopeOrigin,
    Mime,
    Scope,
}

/// Why an InvalidStateError was thrown.
#[derive(Debug, Clone, Copy, PartialEq, Eq)]
pub enum StateCause {
    NoWorker,
    NotActive,
    Installing,
}

/// A fault that an algorithm throws or rejects with. The index of a TypeError is there where one is printed.
#[derive(Debug, Clone, Copy, PartialEq, Eq)]
pub enum Fault {
    TypeError { cause: Cause, index: Option<u32> },
    SecurityError(SecurityCause),
    InvalidState(StateCause),
    InvalidStateAt { index: u32 },
    Quota,
    CacheGone,
    NoRegistration,
}

/// The value that a promise settled with.
#[derive(Debug, Clone, Copy, PartialEq, Eq)]
pub enum Settlement {
    Done,
    Registration(u32),
    Truth(bool),
    Fault(Fault),
}

/// The answer of an event.
#[derive(Drop)]
pub enum Answer {
    Ok,
    None,
    Undefined,
    Truth(bool),
    Made,
    Found,
    Worker(u32),
    Registration(u32),
    Registrations(Items<u32>),
    Job(u32),
    Joined {
        job: u32,
        leader: u32,
    },
    Task(u32),
    Names(Items<Text>),
    Places(Items<u32>),
    /// The first match: its cache, its place there, its status and the length of its body in bytes.
    Hit {
        name: Text,
        place: u32,
        status: u16,
        length: u64,
    },
    Preload {
        on: bool,
        value: Text,
    },
    Fault(Fault),
    InUse,
    NoClient,
    NoWorker,
    NoController,
    NoEvent,
    Busy,
    Finished,
    Fetch(u32),
    Rejected,
    Unchanged,
    Changed,
    Threw,
    Installing,
    Failed,
    Restarted {
        registrations: u32,
        caches: u32,
    },
}

/// What an event tells besides its answer, in the order of its steps.
#[derive(Debug, Clone, Copy, PartialEq, Eq)]
pub enum Notice {
    Mapped(u32),
    Unmapped(u32),
    Worker { worker: u32, state: WorkerState },
    Settled { job: u32, value: Settlement },
    UpdateFound(u32),
    ControllerChange(u32),
}
