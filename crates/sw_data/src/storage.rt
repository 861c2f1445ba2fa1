//! What is kept over a restart, and its changes.

use crate::base::bytes::Bytes;
use crate::base::items::Items;
use crate::base::shared::Shared;
use crate::base::text::Text;
use crate::exchange::{Op, Request, Response};
use crate::workers::{Kind, Mode};

/// The kept content: registrations and caches, each in order of making.
#[derive(Drop)]
pub struct Kept {
    pub registrations: Items<KeptRegistration>,
    pub caches: Items<KeptCache>,
}

/// A kept registration.
#[derive(Drop)]
pub struct KeptRegistration {
    pub key: Text,
    pub scope: Text,
    pub mode: Mode,
    pub waiting: Option<KeptWorker>,
    pub active: Option<KeptWorker>,
    /// The active worker is activated.
    pub activated: bool,
    /// The navigation preload flag.
    pub preload: bool,
    /// The navigation preload header value.
    pub preload_value: Text,
}

/// A kept worker.
#[derive(Drop)]
pub struct KeptWorker {
    pub script: Text,
    pub kind: Kind,
    pub body: Shared<Bytes>,
}

/// A kept cache with its pairs in order.
#[derive(Drop)]
pub struct KeptCache {
    pub key: Text,
    pub name: Text,
    pub pairs: Items<(Request, Response)>,
}

/// One durable change.
#[derive(Drop)]
pub enum Change {
    Waiting {
        key: Text,
        scope: Text,
        mode: Mode,
        worker: KeptWorker,
    },
    Active {
        key: Text,
        scope: Text,
    },
    Activated {
        key: Text,
        scope: Text,
    },
    Mode {
        key: Text,
        scope: Text,
        mode: Mode,
    },
    Gone {
        key: Text,
        scope: Text,
    },
    CacheNew {
        key: Text,
        name: Text,
    },
    CacheDrop {
        key: Text,
        name: Text,
    },
    CacheOps {
        key: Text,
        name: Text,
        operations: Items<Op>,
    },
    Forgot {
        key: Text,
    },
    Restarted,
    Preload {
        key: Text,
        scope: Text,
        on: bool,
        value: Text,
    },
}
