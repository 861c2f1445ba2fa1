//! The kept content as a table of registrations and one of caches.

ghost use Rattle.std.specs.Prelude.{◌≡◌, IfOk, OnOk, OnErr};
ghost use Rattle.sw_data.specs.declared.storage.Change.TheVariants as change;
ghost use Rattle.sw_rules.specs.Durable.{checkpoint_changes};
ghost use Rattle.sw_rules.specs.Storage.{applied, kept_after, nothing};

use crate::cached::{change_pairs, make_cache};
use crate::checkpoint::changes_of;
use crate::registration::Edit;
use crate::registrations::Registrations;
use std::alloc::Global;
use std::marker::Model;
use sw_caches::Caches;
use sw_data::{Change, Items, Kept, KeptRegistration, NoMemory};

/// The kept content. A registration is found by an index, and so is a pair of a cache.
#[derive(Drop)]
pub struct Content {
    registrations: Registrations,
    caches: Caches,
}

impl Model for Content {
    ghost use Rattle.sw_data.specs.declared.storage.Kept.{Kept};

    ghost Value = { Kept };

    ghost view = { λ content.
        record { registrations = content.registrations; caches = content.caches.rows } };
}

impl Content {
    /// Nothing is kept; it takes no memory.
    pub fn new(alloc: Global) -> Content
        ensures { result ≡ nothing }
    {
        Content {
            registrations: Registrations::new(alloc),
            caches: Caches::new(alloc),
        }
    }

    /// Carries a change out. One that doesn't fit changes nothing.
    pub fn apply(&mut self, alloc: Global, change: Change) -> Result<(), NoMemory>
        ensures ok { OnOk result (self.new ≡ applied self.old change) }
        ensures err { OnErr result (self.new ≡ self.old) }
    {
        match change {
            Change::Waiting {
                key,
                scope,
                mode,
                worker,
            } => self
                .registrations
                .set_waiting(alloc, (key, scope), mode, worker)?,
            Change::Active { key, scope } => self.registrations.edit(&(key, scope), Edit::Active),
            Change::Activated { key, scope } => self
                .registrations
                .edit(&(key, scope), Edit::Activated),
            Change::Mode { key, scope, mode } => {
                self.registrations.edit(&(key, scope), Edit::Mode { mode })
            }
            Change::Gone { key, scope } => self.registrations.remove(&(key, scope)),
            Change::CacheNew { key, name } => make_cache(&mut self.caches, alloc, &key, &name)?,
            Change::CacheDrop { key, name } => {
                let _ = self.caches.delete(&key, &name);
            }
            Change::CacheOps {
                key,
                name,
                operations,
            } => change_pairs(&mut self.caches, alloc, &key, &name, operations.into_vec())?,
            Change::Forgot { key } => {
                self.registrations.remove_key(&key);
                self.caches.drop_key(&key);
            }
            Change::Restarted => self.restarted(),
            Change::Preload {
                key,
                scope,
                on,
                value,
            } => self
                .registrations
                .edit(&(key, scope), Edit::Preload { on, value }),
        }
        Ok(())
    }

    /// Each waiting worker becomes the active one; it takes no memory.
    pub fn restarted(&mut self)
        ensures { self.new ≡ applied self.old change.Restarted }
    {
        self.registrations.restarted();
    }

    /// The content as it is kept, as data of its own.
    pub fn to_kept(&self, alloc: Global) -> Result<Kept, NoMemory>
        ensures { IfOk result (λ kept. kept ≡ self.now) }
    {
        Ok(Kept {
            registrations: Items::from_vec(self.registrations.to_rows(alloc)?),
            caches: Items::from_vec(self.caches.to_kept(alloc)?),
        })
    }

    /// The content as it is kept.
    pub fn into_kept(self, alloc: Global) -> Result<Kept, NoMemory>
        ensures { IfOk result (λ kept. kept ≡ self) }
    {
        Ok(Kept {
            registrations: Items::from_vec(self.registrations.into_rows(alloc)?),
            caches: Items::from_vec(self.caches.into_kept(alloc)?),
        })
    }

    /// The registrations as they are kept, in order of making, and the caches, which are moved.
    pub fn into_parts(self, alloc: Global) -> Result<(Vec<KeptRegistration>, Caches), NoMemory>
        ensures registrations { IfOk result (λ parts. parts.0.items ≡ self.registrations) }
        ensures caches { IfOk result (λ parts. parts.1.rows ≡ self.caches) }
    {
        let rows = self.registrations.into_rows(alloc)?;
        Ok((rows, self.caches))
    }

    /// The changes of a checkpoint: they make this content of nothing.
    pub fn changes(&self, alloc: Global) -> Result<Vec<Change>, NoMemory>
        ensures { IfOk result (λ changes. changes.items ≡ checkpoint_changes self.now) }
    {
        let kept = self.to_kept(alloc)?;
        changes_of(alloc, &kept)
    }
}

/// The content that changes make of nothing.
pub fn fold_all(alloc: Global, changes: Vec<Change>) -> Result<Content, NoMemory>
    ensures { IfOk result (λ content. content ≡ kept_after nothing changes.items) }
{
    let mut content = Content::new(alloc);
    for change in changes {
        content.apply(alloc, change)?;
    }
    Ok(content)
}
