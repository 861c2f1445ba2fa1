//! A recording: what the network answers, and what the lanes do.

use crate::base::boxed::Boxed;
use crate::base::items::Items;
use crate::base::text::Text;
use crate::exchange::{Op, Options, Request, Response};
use crate::workers::{Kind, Mode, Slot};

/// What was recorded: the fetch lines in order, and each lane's actions in order.
#[derive(Drop)]
pub struct Recording {
    pub fetches: Items<FetchLine>,
    pub lanes: Items<Items<Action>>,
}

/// One answer of the network for an address.
#[derive(Drop)]
pub struct FetchLine {
    /// The parsed address, without its fragment.
    pub fetch: Text,
    /// What was fetched, or none for a network error.
    pub fetched: Option<Fetched>,
}

/// A response, and what a worker made from it does.
#[derive(Drop)]
pub struct Fetched {
    pub response: Response,
    pub handlers: Handlers,
}

/// What a worker does when it runs, installs and activates.
#[derive(Drop)]
pub struct Handlers {
    /// Running the script throws.
    pub throws: bool,
    /// The calls of the install handler.
    pub install: Items<Call>,
    /// The install handler ends in a failure.
    pub install_fails: bool,
    /// The calls of the activate handler.
    pub activate: Items<Call>,
}

/// One call of a handler.
#[derive(Drop)]
pub enum Call {
    SkipWaiting,
    Claim,
    Update,
    CacheOpen { name: Text },
    CacheDelete { name: Text },
    Put(Boxed<CachePut>),
    Delete(Boxed<CacheDelete>),
    Batch(Boxed<CacheBatch>),
    AddAll(Boxed<CacheAddAll>),
}

/// The address of a page, and its partition if it has one. They give a storage key.
#[derive(Drop)]
pub struct Place {
    pub at: Text,
    pub partition: Option<Boxed<Text>>,
}

/// A scope that a client names.
#[derive(Drop)]
pub struct ClientScope {
    pub client: u32,
    pub scope: Text,
}

/// A registration that a client asks for.
#[derive(Drop)]
pub struct Registering {
    pub client: u32,
    pub script: Text,
    pub scope: Option<Text>,
    pub kind: Kind,
    pub mode: Mode,
}

/// One response to keep under a request, in the cache of this name.
#[derive(Drop)]
pub struct CachePut {
    pub name: Text,
    pub request: Request,
    pub response: Response,
}

/// The items to remove from the cache of this name.
#[derive(Drop)]
pub struct CacheDelete {
    pub name: Text,
    pub request: Request,
    pub options: Options,
}

/// The operations of one batch on the cache of this name.
#[derive(Drop)]
pub struct CacheBatch {
    pub name: Text,
    pub operations: Items<Op>,
}

/// The requests to fetch and keep in the cache of this name.
#[derive(Drop)]
pub struct CacheAddAll {
    pub name: Text,
    pub requests: Items<Request>,
}

/// A look-up over all caches of a key, or in the one of this name.
#[derive(Drop)]
pub struct CacheMatch {
    pub request: Request,
    pub name: Option<Text>,
    pub options: Options,
}

/// A look-up of all matching places in the cache of this name; every place, where no request is given.
#[derive(Drop)]
pub struct CacheQuery {
    pub name: Text,
    pub request: Option<Request>,
    pub options: Options,
}

/// One action of a lane.
#[derive(Drop)]
pub enum Action {
    Open {
        client: u32,
        url: Text,
        partition: Option<Boxed<Text>>,
    },
    Close {
        client: u32,
    },
    Register(Boxed<Registering>),
    Update(ClientScope),
    SoftUpdate(ClientScope),
    Unregister(ClientScope),
    Await {
        of: u32,
    },
    Ready {
        client: u32,
    },
    Registration {
        client: u32,
        url: Text,
    },
    Registrations {
        client: u32,
    },
    SkipWaiting {
        of: ClientScope,
        slot: Slot,
    },
    Claim {
        of: ClientScope,
        slot: Slot,
    },
    Begin {
        client: u32,
        event: u32,
    },
    End {
        event: u32,
    },
    CacheOpen {
        place: Place,
        name: Text,
    },
    CacheHas {
        place: Place,
        name: Text,
    },
    CacheDelete {
        place: Place,
        name: Text,
    },
    CacheKeys {
        place: Place,
    },
    Forget {
        place: Place,
    },
    Match {
        place: Place,
        find: Boxed<CacheMatch>,
    },
    MatchAll {
        place: Place,
        query: Boxed<CacheQuery>,
    },
    Keys {
        place: Place,
        query: Boxed<CacheQuery>,
    },
    Put {
        place: Place,
        put: Boxed<CachePut>,
    },
    Delete {
        place: Place,
        delete: Boxed<CacheDelete>,
    },
    Batch {
        place: Place,
        batch: Boxed<CacheBatch>,
    },
    AddAll {
        place: Place,
        add: Boxed<CacheAddAll>,
    },
    PreloadEnable(ClientScope),
    PreloadDisable(ClientScope),
    PreloadValue {
        of: ClientScope,
        value: Text,
    },
    PreloadState(ClientScope),
}
