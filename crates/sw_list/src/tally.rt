//! How many things each text has.

ghost use Rattle.std.specs.Prelude.{◌≡◌, ◌+◌, ◌-◌, ◌<◌, ◌≤◌, ℕ, List, bytes_eq, cond, nat_lt, if◌then◌else◌, IsSome, OnOk, Some};
ghost use Rattle.std.specs.Map.{lookup};
ghost use Rattle.indexmap.specs.IndexMap.{spare};
ghost use Rattle.sw_list.specs.Tally.{count_of};

use indexmap::IndexMap;
use std::alloc::Global;
use std::marker::Model;
use sw_data::{NoMemory, Text};

/// How many things each text has; a text without things isn't in it. The hash of a text is fixed, so texts can be chosen
/// that collide.
#[derive(Drop)]
pub struct Tally {
    counts: IndexMap<Text, u64>,
    // How many things were added.
    added: u64,
    // How many things can have been added before room is made again.
    granted: u64,
}

impl Model for Tally {
    ghost use Rattle.std.specs.Prelude.{◌≤◌, ◌-◌};
    ghost use Rattle.indexmap.specs.IndexMap.{spare};
    ghost use Rattle.sw_list.specs.Tally as specs;
    ghost use Rattle.sw_list.specs.Tally.{AreCounted};

    ghost Value = { specs.Tally };

    ghost view = { λ tally. record {
      counts = tally.counts.entries;
      spare = tally.granted - tally.added;
    } };

    ghost invariant = { λ tally. AreCounted tally.added tally.counts.entries
        × (tally.added ≤ tally.granted)
        × (tally.granted - tally.added ≤ spare tally.counts) };
}

// Gives a text that is there another count.
fn set_count(counts: &mut IndexMap<Text, u64>, text: &Text, count: u64)
    requires { IsSome (lookup (bytes_eq text.now) counts.old.entries) }
    ensures count { (asked : List ℕ) → lookup (bytes_eq asked) counts.new.entries
        ≡ cond (bytes_eq text.now asked) (Some count) (lookup (bytes_eq asked) counts.old.entries) }
    ensures room { spare counts.new ≡ spare counts.old }
{
    if let Some(own) = counts.get_mut(text) {
        *own = count;
    }
}

impl Tally {
    /// No text has a thing. It takes no memory.
    pub fn new(alloc: Global) -> Tally
        ensures counts { (text : List ℕ) → count_of result text ≡ 0 }
    {
        Tally {
            counts: IndexMap::new(alloc),
            added: 0,
            granted: 0,
        }
    }

    // How many things a text has. It takes no memory.
    fn count(&self, text: &Text) -> u64
        ensures { result ≡ count_of self.now text.now }
    {
        match self.counts.get(text) {
            Some(count) => *count,
            None => 0,
        }
    }

    /// Whether a text has a thing. It takes no memory.
    pub fn has(&self, text: &Text) -> bool
        ensures { result ≡ nat_lt 0 (count_of self.now text.now) }
    {
        self.counts.contains_key(text)
    }

    /// Makes room for one more thing.
    pub fn make_room(&mut self) -> Result<(), NoMemory>
        ensures same { self.new.counts ≡ self.old.counts }
        ensures kept { self.old.spare ≤ self.new.spare }
        ensures room { OnOk result (0 < self.new.spare) }
    {
        if self.added < self.granted {
            return Ok(());
        }
        if self.granted == u64::MAX {
            return Err(NoMemory);
        }
        self.counts.reserve(1)?;
        self.granted += 1;
        Ok(())
    }

    /// A text has one thing more. It takes no memory.
    pub fn add(&mut self, text: Text)
        requires { 0 < self.old.spare }
        ensures counts { (asked : List ℕ) → count_of self.new asked
            ≡ count_of self.old asked + (if bytes_eq text asked then 1 else 0) }
        ensures room { self.new.spare ≡ self.old.spare - 1 }
    {
        let count = self.count(&text);
        self.added += 1;
        let _ = self.counts.insert(text, count + 1);
    }

    /// A text has one thing less, where it has one. It takes no memory.
    pub fn take(&mut self, text: &Text)
        ensures counts { (asked : List ℕ) → count_of self.new asked
            ≡ count_of self.old asked - (if bytes_eq text.now asked then 1 else 0) }
        ensures room { self.new.spare ≡ self.old.spare }
    {
        let count = self.count(text);
        if count > 1 {
            set_count(&mut self.counts, text, count - 1);
        } else {
            let _ = self.counts.swap_remove(text);
        }
    }
}
