//! The scopes of one storage key.

ghost use Rattle.std.specs.Prelude.{◌≡◌, ◌==◌, ◌+◌, ◌<◌, ◌≤◌, [], ℕ, List, bytes_eq, is_none, length, IfNone, IfSome, OnOk, Some, None, if◌then◌else◌};
ghost use Rattle.std.specs.Map.{lookup};
ghost use Rattle.indexmap.specs.IndexMap.{insert_entry, spare};
ghost use Rattle.sw_scope.specs.Counted.{CountsLengths, bare, entries_of};

use crate::lengths::{Counted, add, subtract};
use indexmap::IndexMap;
use std::alloc::Global;
use std::marker::Model;
use sw_data::NoMemory;

// The scopes of one key, and their distinct lengths, longest first.
#[derive(Drop)]
pub(crate) struct KeyScopes {
    lengths: Vec<Counted>,
    scopes: IndexMap<Vec<u8>, u32>,
}

impl Model for KeyScopes {
    ghost use Rattle.std.specs.Prelude.{◌-◌, min, vec_capacity, vec_len};
    ghost use Rattle.indexmap.specs.IndexMap.{spare};
    ghost use Rattle.sw_scope.specs.Scopes.{OwnScopes};

    ghost Value = { OwnScopes };

    ghost use Rattle.sw_scope.specs.Counted.{CountsLengths, bare};

    ghost view = { λ own. record {
      entries = bare (λ key. key.items) own.scopes.entries;
      room = min (spare own.scopes) (vec_capacity own.lengths - vec_len own.lengths);
    } };

    ghost invariant = { λ own. CountsLengths own.lengths.items
        (bare (λ key. key.items) own.scopes.entries) };
}

// Maps a scope to a registration, and answers whether it is new; it takes no memory.
#[tactic(auto, using(crate::proofs::Entries::by_bytes))]
fn insert(scopes: &mut IndexMap<Vec<u8>, u32>, scope: Vec<u8>, id: u32) -> bool
    requires { 0 < spare scopes.old }
    ensures entries { bare (λ key. key.items) scopes.new.entries
        ≡ insert_entry bytes_eq (bare (λ key. key.items) scopes.old.entries) scope.items id }
    ensures new { result
        ≡ is_none (lookup (bytes_eq scope.items) (bare (λ key. key.items) scopes.old.entries)) }
    ensures few { length (bare (λ key. key.items) scopes.new.entries) ≤ usize.MAX }
    ensures room { spare scopes.old ≤ spare scopes.new + 1 }
{
    let is_new = !scopes.contains_key(scope.as_slice());
    let _ = scopes.insert(scope, id);
    // How many there are fits a `usize`, and so does each count of lengths.
    let _many = scopes.len();
    is_new
}

// Removes a scope and gives what it mapped to; the order of the others may change. It takes no memory.
#[tactic(auto, using(crate::proofs::Entries::by_bytes))]
fn take(scopes: &mut IndexMap<Vec<u8>, u32>, scope: &[u8]) -> Option<u32>
    ensures value { result
        ≡ lookup (bytes_eq scope.now) (bare (λ key. key.items) scopes.old.entries) }
    ensures removed { (other : List ℕ)
        → lookup (bytes_eq other) (bare (λ key. key.items) scopes.new.entries)
        ≡ (if bytes_eq scope.now other then None
        else lookup (bytes_eq other) (bare (λ key. key.items) scopes.old.entries)) }
    ensures fewer { IfSome result (λ id. (n : ℕ)
        → entries_of (bare (λ key. key.items) scopes.new.entries) n
        + (if length scope.now == n then 1 else 0)
        ≡ entries_of (bare (λ key. key.items) scopes.old.entries) n) }
    ensures same { IfNone result (bare (λ key. key.items) scopes.new.entries
        ≡ bare (λ key. key.items) scopes.old.entries) }
    ensures room { spare scopes.old ≤ spare scopes.new }
{
    scopes.swap_remove(scope)
}

impl KeyScopes {
    // No scopes.
    pub(crate) fn new(alloc: Global) -> KeyScopes
        ensures { result.entries ≡ [] }
    {
        KeyScopes {
            lengths: Vec::new(alloc),
            scopes: IndexMap::new(alloc),
        }
    }

    // Makes room for one more scope.
    pub(crate) fn reserve(&mut self) -> Result<(), NoMemory>
        ensures same { self.new.entries ≡ self.old.entries }
        ensures ok { OnOk result (0 < self.new.room) }
        ensures room { self.old.room ≤ self.new.room }
    {
        self.lengths.reserve(1)?;
        self.scopes.reserve(1)?;
        Ok(())
    }

    // The registration of a scope; it takes no memory.
    #[tactic(auto, using(crate::proofs::Entries::by_bytes))]
    pub(crate) fn get(&self, scope: &[u8]) -> Option<u32>
        ensures { result ≡ lookup (bytes_eq scope.now) self.now.entries }
    {
        self.scopes.get(scope).copied()
    }

    // The distinct lengths, longest first; it takes no memory.
    pub(crate) fn lengths(&self) -> &[Counted]
        ensures { CountsLengths result.now self.now.entries }
    {
        self.lengths.as_slice()
    }

    // Maps a scope to a registration; it takes no memory.
    #[tactic(auto, using(crate::proofs::Entries::lookup_put))]
    pub(crate) fn put(&mut self, scope: Vec<u8>, id: u32)
        requires { 0 < self.old.room }
        ensures put { (other : List ℕ) → lookup (bytes_eq other) self.new.entries
            ≡ (if bytes_eq scope.items other then Some id
            else lookup (bytes_eq other) self.old.entries) }
        ensures room { self.old.room ≤ self.new.room + 1 }
    {
        let length = scope.as_slice().len();
        if insert(&mut self.scopes, scope, id) {
            add(&mut self.lengths, length);
        }
    }

    // Removes a scope and gives what it mapped to; it takes no memory.
    pub(crate) fn remove(&mut self, scope: &[u8]) -> Option<u32>
        ensures value { result ≡ lookup (bytes_eq scope.now) self.old.entries }
        ensures removed { (other : List ℕ) → lookup (bytes_eq other) self.new.entries
            ≡ (if bytes_eq scope.now other then None
            else lookup (bytes_eq other) self.old.entries) }
        ensures room { self.old.room ≤ self.new.room }
    {
        let id = take(&mut self.scopes, scope);
        if id.is_some() {
            subtract(&mut self.lengths, scope.len());
        }
        id
    }
}
