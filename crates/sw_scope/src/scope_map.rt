//! The map from keys and scopes to registrations.

ghost use Rattle.std.specs.Prelude.{◌≡◌, ◌+◌, ◌<◌, ◌≤◌, ℕ, List, bytes_eq, length, take, IsSome, IfOk, OnOk, OnErr, None};
ghost use Rattle.std.specs.Map.{lookup};
ghost use Rattle.sw_scope.specs.Counted.{CountsLengths, first_found, within};
ghost use Rattle.sw_scope.specs.Scopes.{FitsScope, lengths_to, longest_front, maps, own_scopes, room, with_row, without_scope};

use crate::key_scopes::KeyScopes;
use crate::lengths::Counted;
use crate::steps::Steps;
use indexmap::IndexMap;
use std::alloc::Global;
use std::marker::Model;
use std::sync::ledger::Ledger;
use sw_data::{NoMemory, Text};

/// Which registration each scope of a storage key has.
#[derive(Drop)]
pub struct ScopeMap {
    keys: IndexMap<Text, KeyScopes>,
}

impl Model for ScopeMap {
    ghost use Rattle.sw_scope.specs.Scopes.{Scopes};

    ghost Value = { Scopes };

    ghost view = { λ map. map.keys.entries };
}

/// A scope with its registration that isn't mapped yet.
#[derive(Drop)]
pub struct NewScope {
    key: Text,
    scope: Vec<u8>,
    id: u32,
}

impl Model for NewScope {
    ghost use Rattle.sw_rules.specs.Matching.{Scope};

    ghost Value = { Scope };

    ghost view = { λ row. record { key = row.key; scope = row.scope.items; number = row.id } };
}

// The bytes of a text as a list of their own.
fn bytes_of(alloc: Global, text: &Text) -> Result<Vec<u8>, NoMemory>
    ensures { IfOk result (λ bytes. bytes.items ≡ text.now) }
{
    Ok(Vec::from_slice(alloc, text.as_bytes())?)
}

impl ScopeMap {
    /// Maps nothing; it takes no memory.
    pub fn new(alloc: Global) -> ScopeMap
        ensures { (key scope : List ℕ) → maps result key scope ≡ None }
    {
        ScopeMap {
            keys: IndexMap::new(alloc),
        }
    }

    // Makes the key's own map, where there is none.
    fn make_key(&mut self, alloc: Global, key: &Text) -> Result<(), NoMemory>
        ensures same { (other scope : List ℕ)
            → maps self.new other scope ≡ maps self.old other scope }
        ensures there { OnOk result (IsSome (lookup (bytes_eq key.now) self.new)) }
        ensures room { (other : List ℕ) → room self.old other ≤ room self.new other }
    {
        if self.keys.contains_key(key) {
            return Ok(());
        }
        self.keys.insert(key.copy(alloc)?, KeyScopes::new(alloc))?;
        Ok(())
    }

    // Makes room for one more scope of a key.
    fn reserve(&mut self, alloc: Global, key: &Text) -> Result<(), NoMemory>
        ensures same { (other scope : List ℕ)
            → maps self.new other scope ≡ maps self.old other scope }
        ensures ok { OnOk result (0 < room self.new key.now) }
        ensures room { (other : List ℕ) → room self.old other ≤ room self.new other }
    {
        self.make_key(alloc, key)?;
        if let Some(own) = self.keys.get_mut(key) {
            own.reserve()?;
        }
        Ok(())
    }

    /// Makes all room for a scope of a key, and the row by which `set_put` maps it to this registration.
    pub fn set_row(
        &mut self,
        alloc: Global,
        key: &Text,
        scope: &Text,
        id: u32,
    ) -> Result<NewScope, NoMemory>
        ensures same { (other text : List ℕ)
            → maps self.new other text ≡ maps self.old other text }
        ensures row { IfOk result (λ row.
            row ≡ record { key = key.now; scope = scope.now; number = id }) }
        ensures fits { IfOk result (λ row. FitsScope row self.new) }
        ensures room { (other : List ℕ) → room self.old other ≤ room self.new other }
    {
        let row = NewScope {
            key: key.copy(alloc)?,
            scope: bytes_of(alloc, scope)?,
            id,
        };
        self.reserve(alloc, key)?;
        Ok(row)
    }

    /// Maps the row's scope of its key to its registration; it takes no memory.
    pub fn set_put(&mut self, row: NewScope)
        requires { FitsScope row self.old }
        ensures put { (key scope : List ℕ)
            → maps self.new key scope ≡ with_row self.old row key scope }
        ensures room { (key : List ℕ) → room self.old key ≤ room self.new key + 1 }
    {
        let NewScope { key, scope, id } = row;
        if let Some(own) = self.keys.get_mut(&key) {
            own.put(scope, id);
        }
    }

    /// Maps a scope of a key to a registration.
    pub fn set(&mut self, alloc: Global, key: &Text, scope: &Text, id: u32) -> Result<(), NoMemory>
        ensures ok { OnOk result ((other text : List ℕ)
            → maps self.new other text ≡ with_row self.old
            (record { key = key.now; scope = scope.now; number = id }) other text) }
        ensures err { OnErr result ((other text : List ℕ)
            → maps self.new other text ≡ maps self.old other text) }
    {
        let row = self.set_row(alloc, key, scope, id)?;
        self.set_put(row);
        Ok(())
    }

    // The registration of a key and the bytes of a scope; it takes no memory.
    fn found(&self, key: &Text, scope: &[u8]) -> Option<u32>
        ensures { result ≡ maps self.now key.now scope.now }
    {
        match self.keys.get(key) {
            Some(own) => own.get(scope),
            None => None,
        }
    }

    /// The registration of a scope of a key, None exactly where it isn't mapped; it takes no memory.
    pub fn get(&self, key: &Text, scope: &Text) -> Option<u32>
        ensures { result ≡ maps self.now key.now scope.now }
    {
        self.found(key, scope.as_bytes())
    }

    /// Takes a scope of a key out of the map, and answers the registration that it had; it takes no memory.
    pub fn remove(&mut self, key: &Text, scope: &Text) -> Option<u32>
        ensures value { result ≡ maps self.old key.now scope.now }
        ensures removed { (other text : List ℕ)
            → maps self.new other text ≡ without_scope self.old key.now scope.now other text }
        ensures room { (other : List ℕ) → room self.old other ≤ room self.new other }
    {
        match self.keys.get_mut(key) {
            Some(own) => own.remove(scope.as_bytes()),
            None => None,
        }
    }

    /// The registration whose scope of this key equals `front`, None exactly where none does. It is one step, and takes
    /// no memory.
    pub fn probe<L: Ledger>(&self, key: &Text, front: &[u8], steps: &mut Steps<L>) -> Option<u32>
        ensures found { result ≡ maps self.now key.now front.now }
        ensures step { steps.new ≡ steps.old + 1 }
    {
        steps.tick();
        self.found(key, front)
    }

    // The distinct lengths of the scopes of a key, longest first; it takes no memory.
    fn lengths(&self, key: &Text) -> &[Counted]
        ensures { CountsLengths result.now (own_scopes self.now key.now).entries }
    {
        match self.keys.get(key) {
            Some(own) => own.lengths(),
            None => &[],
        }
    }

    // The registration of the first of these lengths, none above the address's, whose front of it is a scope of this key;
    // it takes no memory.
    #[tactic(auto, using(crate::proofs::Longest::at_lengths))]
    fn first_of<L: Ledger>(
        &self,
        key: &Text,
        address: &[u8],
        lengths: &[Counted],
        steps: &mut Steps<L>,
    ) -> Option<u32>
        ensures first { result ≡ first_found (λ n. maps self.now key.now (take n address.now))
            (within (length address.now) lengths.now) }
        ensures steps { steps.new
            ≤ steps.old + length (within (length address.now) lengths.now) }
    {
        for counted in lengths {
            if counted.length <= address.len() {
                let found = self.probe(key, address.split_at(counted.length).0, steps);
                if found.is_some() {
                    return found;
                }
            }
        }
        None
    }

    /// The registration of the longest scope of this key that the address starts with. Its steps are at most the distinct
    /// lengths of the key's scopes that aren't greater than the address's length. It takes no memory.
    #[tactic(auto, using(crate::proofs::Longest::few_steps))]
    pub fn longest<L: Ledger>(
        &self,
        key: &Text,
        address: &[u8],
        steps: &mut Steps<L>,
    ) -> Option<u32>
        ensures longest { result ≡ longest_front (maps self.now key.now) address.now }
        ensures steps { steps.new
            ≤ steps.old + length (lengths_to self.now key.now (length address.now)) }
    {
        let lengths = self.lengths(key);
        self.first_of(key, address, lengths, steps)
    }
}
