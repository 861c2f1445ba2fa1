//! Lines of numbers by key and scope, found without memory and without a scan.

ghost use Rattle.std.specs.Prelude.{◌≡◌, ◌++◌, ◌∷◌, [], ◌<◌, ◌&&◌, List, ℕ, bytes_eq, drop, slice_get, if◌then◌else◌, IsSome, None, OnOk};
ghost use Rattle.std.specs.List.{last_or};
ghost use Rattle.std.specs.Map.{lookup};
ghost use Rattle.sw_queue.specs.Lines.{by_name, line_in, named};
ghost use Rattle.sw_queue.specs.Links.{count_all, line_of};

use crate::line::Node;
use crate::scopes::Scopes;
use indexmap::IndexMap;
use slab::Slab;
use std::alloc::Global;
use std::marker::Model;
use sw_data::NoMemory;

// The nodes of all lines, and the line of each key and scope.
#[derive(Drop)]
pub(crate) struct Index {
    nodes: Slab<Node>,
    keys: IndexMap<Vec<u8>, Scopes>,
}

impl Model for Index {
    ghost use Rattle.sw_queue.specs.Lines.{Keyed, by_name};
    ghost use Rattle.sw_queue.specs.Links.{AreLinked, seen};

    ghost Value = { Keyed };

    ghost view = { λ index. seen index.nodes (by_name (λ key. key.items) index.keys.entries) };

    ghost invariant = { λ index. AreLinked index.nodes (by_name (λ key. key.items) index.keys.entries) };
}

// Makes an empty line of a key and a scope, where they have none.
fn make_line(
    keys: &mut IndexMap<Vec<u8>, Scopes>,
    alloc: Global,
    key: &[u8],
    scope: &[u8],
) -> Result<(), NoMemory>
    ensures lines { (k s : List ℕ) → line_of (by_name (λ key. key.items) keys.new.entries) k s
        ≡ line_of (by_name (λ key. key.items) keys.old.entries) k s }
    ensures count { count_all (by_name (λ key. key.items) keys.new.entries)
        ≡ count_all (by_name (λ key. key.items) keys.old.entries) }
    ensures there { OnOk result (IsSome (lookup (bytes_eq scope.now)
        (named (by_name (λ key. key.items) keys.new.entries) key.now []))) }
{
    match keys.get_mut(key) {
        Some(scopes) => scopes.make_line(alloc, scope),
        None => {
            let mut name = Vec::new(alloc);
            name.extend_from_slice(key)?;
            let scopes = Scopes::with_line(alloc, scope)?;
            keys.insert(name, scopes)?;
            Ok(())
        }
    }
}

impl Index {
    // No line; it takes no memory.
    #[tactic(auto, using(crate::proofs::Placing::none_linked))]
    pub(crate) fn new(alloc: Global) -> Index
        ensures { result ≡ [] }
    {
        Index {
            nodes: Slab::new(alloc),
            keys: IndexMap::new(alloc),
        }
    }

    // Makes room for one more number of a key and a scope.
    #[tactic(auto, using(crate::proofs::Placing::linked_kept, crate::proofs::Placing::numbers_kept, crate::proofs::Placing::seen_room))]
    pub(crate) fn make_room(
        &mut self,
        alloc: Global,
        key: &[u8],
        scope: &[u8],
    ) -> Result<(), NoMemory>
        ensures same { (k s : List ℕ)
            → (line_in self.new k s).numbers ≡ (line_in self.old k s).numbers }
        ensures room { OnOk result (0 < (line_in self.new key.now scope.now).spare) }
    {
        make_line(&mut self.keys, alloc, key, scope)?;
        self.nodes.reserve(1)?;
        Ok(())
    }

    // The first number of a key and a scope; it takes no memory.
    #[tactic(auto, using(crate::proofs::Naming::named_found, crate::proofs::Naming::named_absent, crate::proofs::Placing::seen_numbers))]
    pub(crate) fn first(&self, key: &[u8], scope: &[u8]) -> Option<u32>
        ensures { result ≡ slice_get (line_in self.now key.now scope.now).numbers 0 }
    {
        self.keys.get(key)?.first(&self.nodes, scope)
    }

    // The last number of a key and a scope; it takes no memory.
    #[tactic(auto, using(crate::proofs::Naming::named_found, crate::proofs::Naming::named_absent))]
    pub(crate) fn last(&self, key: &[u8], scope: &[u8]) -> Option<u32>
        ensures { result ≡ last_or None (line_in self.now key.now scope.now).numbers }
    {
        self.keys.get(key)?.last(&self.nodes, scope)
    }

    // Adds a number of a key and a scope; it takes no memory.
    pub(crate) fn add(&mut self, key: &[u8], scope: &[u8], number: u32)
        requires { 0 < (line_in self.old key.now scope.now).spare }
        ensures { (k s : List ℕ) → (line_in self.new k s).numbers
            ≡ (if bytes_eq key.now k && bytes_eq scope.now s
            then (line_in self.old k s).numbers ++ number ∷ []
            else (line_in self.old k s).numbers) }
    {
        if let Some(scopes) = self.keys.get_mut(key) {
            scopes.add(&mut self.nodes, scope, number);
        }
    }

    // Takes the first number of a key and a scope away; it takes no memory.
    pub(crate) fn drop_first(&mut self, key: &[u8], scope: &[u8])
        ensures { (k s : List ℕ) → (line_in self.new k s).numbers
            ≡ (if bytes_eq key.now k && bytes_eq scope.now s
            then drop 1 (line_in self.old k s).numbers
            else (line_in self.old k s).numbers) }
    {
        if let Some(scopes) = self.keys.get_mut(key) {
            scopes.drop_first(&mut self.nodes, scope);
        }
    }
}
