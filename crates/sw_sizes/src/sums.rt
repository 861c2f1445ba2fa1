//! The bytes of the registrations, of each key and in all.

ghost use Rattle.std.specs.Prelude.{◌≡◌, ◌≤◌, ◌+◌, ℕ, List, OnOk, OnErr, bytes_eq, if◌then◌else◌};
ghost use Rattle.sw_sizes.specs.Counted.{at_key, held};

use crate::row::sum;
use indexmap::IndexMap;
use std::alloc::Global;
use sw_data::{NoMemory, Text};

// The bytes of all registrations, and those of the registrations of each key that has some. The hash of a key is fixed, so
// keys can be chosen that collide.
#[derive(Drop)]
pub(crate) struct Sums {
    pub(crate) total: u64,
    pub(crate) keys: IndexMap<Text, u64>,
}

impl Sums {
    // No bytes; it takes no memory.
    pub(crate) fn new(alloc: Global) -> Sums
        ensures total { result.total ≡ 0 }
        ensures held { (key : List ℕ) → held result key ≡ 0 }
    {
        Sums {
            total: 0,
            keys: IndexMap::new(alloc),
        }
    }

    // The bytes of a key; it takes no memory.
    pub(crate) fn of(&self, key: &Text) -> u64
        ensures { result ≡ held self.now key.now }
    {
        match self.keys.get(key) {
            Some(bytes) => *bytes,
            None => 0,
        }
    }

    // So many bytes of a key go, and so many come.
    pub(crate) fn change(
        &mut self,
        alloc: Global,
        key: &Text,
        before: u64,
        after: u64,
    ) -> Result<(), NoMemory>
        requires had { before ≤ held self.old key.now }
        requires within { held self.old key.now ≤ self.old.total }
        ensures total { OnOk result (self.new.total + before ≡ self.old.total + after) }
        ensures held { OnOk result ((other : List ℕ)
            → held self.new other + at_key key.now other before
            ≡ held self.old other + at_key key.now other after) }
        ensures same { OnErr result (self.new.total ≡ self.old.total) }
        ensures kept { OnErr result ((other : List ℕ)
            → held self.new other ≡ held self.old other) }
    {
        let total = sum(self.total - before, after)?;
        let left = self.of(key) - before + after;
        self.set(alloc, key, left)?;
        self.total = total;
        Ok(())
    }

    // A key has so many bytes.
    fn set(&mut self, alloc: Global, key: &Text, bytes: u64) -> Result<(), NoMemory>
        ensures total { self.new.total ≡ self.old.total }
        ensures held { OnOk result ((other : List ℕ) → held self.new other
            ≡ (if bytes_eq key.now other then bytes else held self.old other)) }
        ensures kept { OnErr result ((other : List ℕ)
            → held self.new other ≡ held self.old other) }
    {
        if bytes == 0 {
            self.keys.swap_remove(key);
            return Ok(());
        }
        self.keys.reserve(1)?;
        let _ = self.keys.insert(key.copy(alloc)?, bytes);
        Ok(())
    }
}
