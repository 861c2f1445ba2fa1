//! A host and the journal of its disk.

ghost use Rattle.std.specs.Prelude.{◌≡◌, length};

use crate::group::Group;
use std::marker::Model;
use sw_core::Core;
use sw_data::Kept;
use sw_kept::Twin;

/// A host and the journal of its disk. The disk is handed to each call that needs it, and is written through the store
/// alone.
#[derive(Drop)]
pub struct Store {
    pub(crate) core: Core,
    pub(crate) twin: Twin,
    pub(crate) base: Kept,
    pub(crate) group: Group,
    pub(crate) mark: u64,
    pub(crate) since: Option<u64>,
}

impl Model for Store {
    ghost use Rattle.sw_store.specs.Stores.{IsReady, StoreState, store_of};

    ghost Value = { StoreState };

    ghost view = { λ store. store_of store.core store.twin store.base store.group store.mark store.since };

    ghost invariant = { λ store.
        IsReady (store_of store.core store.twin store.base store.group store.mark store.since) };
}

impl Store {
    /// The host, as the events that have happened left it, those that wait among them.
    pub fn core(&self) -> &Core
        ensures { result.now ≡ self.now.core }
    {
        &self.core
    }

    /// What was kept when the disk was opened.
    pub fn base(&self) -> &Kept
        ensures { result.now ≡ self.now.base }
    {
        &self.base
    }

    /// How many events wait for their changes to be written.
    pub fn waiting(&self) -> usize
        ensures { result ≡ length self.now.staged }
    {
        self.group.len()
    }
}
