//! The keys of a host with usage, in the order in which they are forgotten.

ghost use Rattle.std.specs.Prelude.{◌≡◌, ◌&&◌, ◌||◌, [], find, nat_lt, not, option_map, IfOk, OnOk};
ghost use Rattle.std.specs.List.Sorted.{IsStrictlySortedBy};
ghost use Rattle.std.specs.Option.{option_copied};
ghost use Rattle.sw_bucket.specs.Eviction.{may_go};
ghost use Rattle.sw_bucket.specs.Noted.{last_noted};
ghost use Rattle.sw_bucket.specs.Turns.{GetTurns, LoseTurns, Turn as turns, has_turn, is_turn, turn_cmp};
ghost use Rattle.sw_rules.specs.Durable.{durable};
ghost use Rattle.sw_sizes.specs.Rows.{ArePartsOf};
ghost use Rattle.sw_sizes.specs.Usage.{usage_of};
ghost use Rattle.sw_state.specs.Hosted.{state_of};

use crate::storage::counted_key_usage;
use crate::turn::Turn;
use crate::uses::Uses;
use crate::victims::may_go;
use std::alloc::Global;
use std::collections::BTreeSet;
use sw_core::Core;
use sw_data::{NoMemory, Text};
use sw_sizes::Sizes;

/// Turns of keys, in order.
#[derive(Drop)]
pub(crate) struct Order {
    turns: BTreeSet<Turn>,
}

impl Order {
    /// No turns. It takes no memory.
    pub(crate) fn new(alloc: Global) -> Order
        ensures { result.turns.keys ≡ [] }
    {
        Order {
            turns: BTreeSet::new(alloc),
        }
    }

    // A key gets a turn.
    #[tactic(auto, using(crate::proofs::Turned::gained))]
    fn put(&mut self, alloc: Global, last: u64, key: &Text) -> Result<(), NoMemory>
        ensures { OnOk result ((turn : turns) → has_turn self.new.turns turn
            ≡ (is_turn (last, key.now) turn || has_turn self.old.turns turn)) }
    {
        let turn = Turn {
            last,
            key: key.copy(alloc)?,
        };
        match self.turns.insert(turn) {
            Ok(_) => Ok(()),
            Err(_) => Err(NoMemory),
        }
    }

    // A key has a turn no longer.
    #[tactic(auto, using(crate::proofs::Turned::lost))]
    fn take(&mut self, alloc: Global, last: u64, key: &Text) -> Result<(), NoMemory>
        ensures { OnOk result ((turn : turns) → has_turn self.new.turns turn
            ≡ (not (is_turn (last, key.now) turn) && has_turn self.old.turns turn)) }
    {
        let turn = Turn {
            last,
            key: key.copy(alloc)?,
        };
        self.turns.remove(&turn);
        Ok(())
    }

    // These keys have their turns no longer, which are those of their last uses.
    pub(crate) fn take_all(
        &mut self,
        alloc: Global,
        uses: &Uses,
        keys: &[Text],
    ) -> Result<(), NoMemory>
        ensures { OnOk result
            (LoseTurns keys.now (last_noted uses.now) self.old.turns self.new.turns) }
    {
        for key in keys {
            self.take(alloc, uses.last(key), key)?;
        }
        Ok(())
    }

    // A key gets the turn of its last use, where it has usage in a host, the bytes of whose registrations were counted.
    fn put_used(
        &mut self,
        alloc: Global,
        core: &Core,
        sizes: &Sizes,
        uses: &Uses,
        key: &Text,
    ) -> Result<(), NoMemory>
        ensures { OnOk result (ArePartsOf (durable (state_of core.now)) sizes.now
            → (turn : turns) → has_turn self.new.turns turn
            ≡ ((nat_lt 0 (usage_of key.now (durable (state_of core.now)))
            && is_turn (last_noted uses.now key.now, key.now) turn) || has_turn self.old.turns turn)) }
    {
        if counted_key_usage(core, sizes, key)? > 0 {
            return self.put(alloc, uses.last(key), key);
        }
        Ok(())
    }

    // Those of these keys that have usage in such a host get the turns of their last uses.
    pub(crate) fn put_all(
        &mut self,
        alloc: Global,
        core: &Core,
        sizes: &Sizes,
        uses: &Uses,
        keys: &[Text],
    ) -> Result<(), NoMemory>
        ensures { OnOk result (ArePartsOf (durable (state_of core.now)) sizes.now
            → GetTurns keys.now (last_noted uses.now) (durable (state_of core.now))
            self.old.turns self.new.turns) }
    {
        for key in keys {
            self.put_used(alloc, core, sizes, uses, key)?;
        }
        Ok(())
    }

    // The first key in order that the host would forget.
    pub(crate) fn first(&self, alloc: Global, core: &Core) -> Result<Option<&Text>, NoMemory>
        ensures found { IfOk result (λ key. option_copied key ≡ option_map (λ turn. turn.1)
            (find (λ turn. may_go (state_of core.now) turn.1) self.now.turns.keys)) }
        ensures sorted { IsStrictlySortedBy turn_cmp self.now.turns.keys }
    {
        for turn in &self.turns {
            if may_go(alloc, core, &turn.key)? {
                return Ok(Some(&turn.key));
            }
        }
        Ok(None)
    }
}
