//! Plain data of the service worker lifecycle host, and the definitions that need nothing else: addresses, storage keys,
//! lists of headers, media types, events and their makers.
//!
//! The types that every crate shares stand in `src/`, with their deep copies; the definitions that contracts cite stand in `specs/`, one file
//! for each subject.
#![tactic(auto)]

pub mod acting;
pub mod address;
pub mod answers;
pub mod base;
mod calls;
pub mod cut;
pub mod events;
pub mod exchange;
pub mod header;
pub mod histories;
pub mod media;
mod ops;
pub mod recordings;
pub mod rows;
mod sameness;
pub mod storage;
pub mod workers;

pub use acting::{action_of_event, event_of_action};
pub use answers::{Answer, Cause, Fault, Notice, SecurityCause, Settlement, StateCause};
pub use base::boxed::{Boxed, boxed_option, unboxed_option};
pub use base::bytes::Bytes;
pub use base::failed::Failed;
pub use base::items::Items;
pub use base::no_memory::NoMemory;
pub use base::shared::Shared;
pub use base::text::Text;
pub use calls::{copy_call, copy_calls, copy_fetched, copy_handlers, copy_line};
pub use events::{Event, Who};
pub use exchange::{Header, Op, Options, Request, Response};
pub use histories::{End, Entry, Task};
pub use media::is_javascript;
pub use ops::{copy_op, copy_ops};
pub use recordings::{
    Action, CacheAddAll, CacheBatch, CacheDelete, CacheMatch, CachePut, CacheQuery, Call,
    ClientScope, FetchLine, Fetched, Handlers, Place, Recording, Registering,
};
pub use rows::{ClientRow, HandlerRow, Job, JobKind, JobPhase, JobRow, RegistrationRow, WorkerRow};
pub use sameness::same_call;
pub use storage::{Change, Kept, KeptCache, KeptRegistration, KeptWorker};
pub use workers::{Kind, Mode, Phase, Slot, WorkerState};
