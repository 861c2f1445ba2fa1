//! The bytes of the caches, of each key and in all.

ghost use Rattle.std.specs.Prelude.{◌≡◌, ◌<◌, ◌≤◌, ◌+◌, ◌^◌, ℕ, List, OnOk, bytes_eq, if◌then◌else◌};
ghost use Rattle.indexmap.specs.IndexMap.{spare};
ghost use Rattle.sw_caches.specs.Sums.{at_key, held};

use indexmap::IndexMap;
use std::alloc::Global;
use sw_data::{NoMemory, Text};

// The bytes of all caches, and those of the caches of each key that has one. The hash of a key is
// fixed, so keys can be chosen that collide.
#[derive(Drop)]
pub(crate) struct Sums {
    pub(crate) total: u64,
    pub(crate) keys: IndexMap<Text, u64>,
}

impl Sums {
    // No bytes; it takes no memory.
    pub(crate) fn new(alloc: Global) -> Sums
        ensures total { result.total ≡ 0 }
        ensures held { (key : List ℕ) → held result key ≡ 0 }
    {
        Sums {
            total: 0,
            keys: IndexMap::new(alloc),
        }
    }

    // The bytes of the caches of a key; it takes no memory.
    pub(crate) fn of(&self, key: &Text) -> u64
        ensures { result ≡ held self.now key.now }
    {
        match self.keys.get(key) {
            Some(bytes) => *bytes,
            None => 0,
        }
    }

    // Makes room for a cache of so many bytes.
    pub(crate) fn make_room(&mut self, bytes: u64) -> Result<(), NoMemory>
        ensures total { self.new.total ≡ self.old.total }
        ensures held { (key : List ℕ) → held self.new key ≡ held self.old key }
        ensures room { OnOk result (0 < spare self.new.keys) }
        ensures fits { OnOk result (self.old.total + bytes < 2 ^ 64) }
    {
        if bytes > u64::MAX - self.total {
            return Err(NoMemory);
        }
        self.keys.reserve(1)?;
        Ok(())
    }

    // A cache of a key comes, with so many bytes; it takes no memory.
    pub(crate) fn add(&mut self, key: Text, bytes: u64)
        requires room { 0 < spare self.old.keys }
        requires fits { self.old.total + bytes < 2 ^ 64 }
        requires within { held self.old key ≤ self.old.total }
        ensures total { self.new.total ≡ self.old.total + bytes }
        ensures held { (other : List ℕ) → held self.new other
            ≡ held self.old other + at_key key other bytes }
    {
        let all = self.of(&key) + bytes;
        self.total += bytes;
        let _ = self.keys.insert(key, all);
    }

    // Caches of a key that had so many bytes have so many now; it takes no memory.
    pub(crate) fn change(&mut self, key: &Text, before: u64, after: u64)
        requires had { before ≤ held self.old key.now }
        requires stays { before ≡ 0 → after ≡ 0 }
        requires within { held self.old key.now ≤ self.old.total }
        requires fits { self.old.total + after < 2 ^ 64 + before }
        ensures total { self.new.total + before ≡ self.old.total + after }
        ensures held { (other : List ℕ)
            → held self.new other + at_key key.now other before
            ≡ held self.old other + at_key key.now other after }
    {
        let left = self.of(key) - before + after;
        self.total = self.total - before + after;
        self.set(key, left);
    }

    // The caches of a key have so many bytes, which are none where the key stands not under them.
    fn set(&mut self, key: &Text, bytes: u64)
        requires { held self.old key.now ≡ 0 → bytes ≡ 0 }
        ensures total { self.new.total ≡ self.old.total }
        ensures held { (other : List ℕ) → held self.new other
            ≡ (if bytes_eq key.now other then bytes else held self.old other) }
    {
        if bytes == 0 {
            self.keys.swap_remove(key);
        } else if let Some(held) = self.keys.get_mut(key) {
            *held = bytes;
        }
    }
}
