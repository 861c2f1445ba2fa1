//! What an event comes to before it is done, with its room.

use sw_cachestorage::{AddedStep, CacheAct, NewAddAll};
use sw_data::{Answer, Change, Fault, Items, Notice, Text};
use sw_install::{FetchOutcome, Rows};
use sw_ledgers::{NewDraw, NewPreload, NewPromise};
use sw_pages::PageAct;
use sw_rules::Notices;

/// What an action of a lane or a call of a handler does, with its room.
#[derive(Drop)]
pub enum Act {
    Page(PageAct),
    /// The registration gets its navigation preload.
    Preload(NewPreload),
    /// What is done to the caches, and its durable changes.
    Caches {
        act: CacheAct,
        changes: Items<Change>,
    },
    /// The key is forgotten.
    Forget(Text),
}

/// What follows where an action or a call was done.
#[derive(Drop)]
pub enum Then {
    Nothing,
    /// The promise of the lane's action gets a value, or waits for one.
    Promise(NewPromise),
    /// The handler of this worker has made one call more, which was answered by a fault or not.
    Called { worker: u32, fault: bool },
}

/// An action of a lane or a call of a handler, worked out.
#[derive(Drop)]
pub struct Asked {
    pub answer: Answer,
    pub act: Act,
    pub then: Then,
}

/// The number that the next fetch of a script gets, and the room to draw it.
#[derive(Drop)]
pub struct NewFetch {
    pub ordinal: u32,
    pub draw: NewDraw,
}

/// What is done, with its room.
#[derive(Drop)]
pub enum Work {
    Asked(Asked),
    /// An addAll goes on to its fetches.
    Start {
        answer: Answer,
        new: NewAddAll,
        then: Then,
    },
    /// A register job runs. The preload is that of the registration that it may make.
    Register {
        job: u32,
        refusal: Option<Fault>,
        fetch: NewFetch,
        preload: NewPreload,
        rows: Rows,
    },
    Update {
        job: u32,
        fetch: NewFetch,
    },
    Unregister {
        job: u32,
        refusal: Option<Fault>,
    },
    Fetched {
        job: u32,
        outcome: FetchOutcome,
        rows: Rows,
    },
    /// The fetches of an addAll have ended.
    Added {
        task: u32,
        step: AddedStep,
    },
    Evaluated(u32),
    Installed(u32),
    TryActivate(u32),
    Activated(u32),
}

/// An event, worked out with all its room: doing it takes no memory.
#[derive(Drop)]
pub struct Plan {
    pub work: Work,
    pub notices: Notices,
}

/// What an event answered and told.
#[derive(Drop)]
pub struct Reply {
    pub answer: Answer,
    pub notices: Items<Notice>,
}
