//! A limit on the usage of a host.

ghost use Rattle.std.specs.Prelude.{◌≡◌, ◌∷◌, [], List, IfOk, OnOk};
ghost use Rattle.sw_bucket.specs.Filling.{FillsIn, IsFilled};
ghost use Rattle.sw_bucket.specs.Noted.{IsNotedOf};
ghost use Rattle.sw_data.specs.declared.histories.Entry as entries;
ghost use Rattle.sw_data.specs.declared.storage.Kept as storage;
ghost use Rattle.sw_rules.specs.Durable.{durable};
ghost use Rattle.sw_rules.specs.History.{Legal, after};
ghost use Rattle.sw_rules.specs.Storage.{IsMade};
ghost use Rattle.sw_sizes.specs.Rows.{ArePartsOf};
ghost use Rattle.sw_sizes.specs.Usage.{usage};
ghost use Rattle.sw_state.specs.Hosted.{state_of};

use crate::Bound;
use crate::order::Order;
use crate::places::forget_event;
use crate::storage::counted_usage;
use crate::touched::{changes_in, touched};
use crate::uses::Uses;
use crate::victims::keys_of;
use std::alloc::Global;
use std::marker::Model;
use sw_change::changes_of;
use sw_core::Core;
use sw_data::{Entry, Event, Kept, NoMemory, Text};
use sw_sizes::Sizes;

/// A limit on the usage of a host: while the usage passes it the host forgets whole keys, the least recently used first.
/// Each entry of a history is noted, and costs what it changes.
#[derive(Drop)]
pub struct Bucket {
    limit: u64,
    // The usage that the last entry has left.
    used: u64,
    sizes: Sizes,
    uses: Uses,
    order: Order,
}

impl Model for Bucket {
    ghost use Rattle.sw_bucket.specs.Filling.{Filled};

    ghost Value = { Filled };

    ghost view = { λ bucket. record {
      limit = bucket.limit;
      used = bucket.used;
      rows = bucket.sizes;
      noted = bucket.uses;
      turns = bucket.order.turns;
    } };
}

// The sizes of the registrations of a content.
#[tactic(auto, using(crate::proofs::Filling::parts_rebuilt))]
fn sizes_of(alloc: Global, kept: &Kept) -> Result<Sizes, NoMemory>
    ensures { IfOk result (λ sizes. IsMade kept.now → ArePartsOf kept.now sizes) }
{
    let changes = changes_of(alloc, kept)?;
    Sizes::of_changes(alloc, &changes)
}

// The last uses of keys after the first entry.
fn uses_of(alloc: Global, core: &Core, entry: &Entry) -> Result<Uses, NoMemory>
    ensures { IfOk result (λ uses. (base : storage.Kept) → Legal base (entry.now ∷ [])
        → after base (entry.now ∷ []) ≡ state_of core.now → IsNotedOf base (entry.now ∷ []) uses) }
{
    let mut uses = Uses::new(alloc);
    uses.note(alloc, core, entry)?;
    Ok(uses)
}

impl Bucket {
    /// Nothing is noted. It takes no memory.
    pub fn new(alloc: Global, limit: u64) -> Bucket
        ensures { result.limit ≡ limit }
    {
        Bucket {
            limit,
            used: 0,
            sizes: Sizes::new(alloc),
            uses: Uses::new(alloc),
            order: Order::new(alloc),
        }
    }

    /// The usage that the entries that were noted have left. It takes no memory.
    pub fn usage(&self) -> u64
        ensures { (base : storage.Kept) (history : List entries.Entry)
            → IsFilled base history self.now → result ≡ usage (durable (after base history)) }
    {
        self.used
    }

    // These keys get their turns, and the usage is that of the host.
    fn fill(&mut self, alloc: Global, core: &Core, keys: &[Text]) -> Result<(), NoMemory>
        ensures known { self.new ≡ record self.old {
          used = self.new.used;
          turns = self.new.turns;
        } }
        ensures filled { OnOk result
            (FillsIn (state_of core.now) keys.now self.old self.new.used self.new.turns) }
    {
        self.order
            .put_all(alloc, core, &self.sizes, &self.uses, keys)?;
        self.used = counted_usage(core, &self.sizes)?;
        Ok(())
    }
}

impl Bound for Bucket {
    ghost use Rattle.sw_bucket.specs.Eviction.{next_forget};
    ghost use Rattle.sw_bucket.specs.Filling.{IsFilled};

    ghost forgets = { λ bucket. next_forget bucket.limit };

    ghost notes = { λ bucket base history. IsFilled base history bucket };

    fn due(&self, alloc: Global, core: &Core) -> Result<Option<Event>, NoMemory> {
        if self.used <= self.limit {
            return Ok(None);
        }
        match self.order.first(alloc, core)? {
            Some(key) => Ok(Some(forget_event(alloc, key)?)),
            None => Ok(None),
        }
    }

    fn begin(&mut self, alloc: Global, core: &Core, entry: &Entry) -> Result<(), NoMemory> {
        let kept = core.kept(alloc)?;
        self.sizes = sizes_of(alloc, &kept)?;
        self.uses = uses_of(alloc, core, entry)?;
        self.order = Order::new(alloc);
        let keys = keys_of(alloc, &kept)?;
        self.fill(alloc, core, &keys)
    }

    fn note(
        &mut self,
        alloc: Global,
        core: &Core,
        entry: &Entry,
        changes: &[u8],
    ) -> Result<(), NoMemory> {
        let changes = changes_in(alloc, changes)?;
        let used = self.uses.used(alloc, core, entry)?;
        let keys = touched(alloc, used.as_ref(), &changes)?;
        self.order.take_all(alloc, &self.uses, &keys)?;
        self.uses.note(alloc, core, entry)?;
        self.sizes.note_all(alloc, &changes)?;
        self.fill(alloc, core, &keys)
    }
}
