//! Lines of numbers, each by the scope that it belongs to.

ghost use Rattle.std.specs.Prelude.{◌≡◌, ◌∷◌, [], ◌≤◌, List, ℕ, bytes_eq, slice_get, IfOk, IsSome, OnOk};
ghost use Rattle.std.specs.Map.{lookup, set_value};
ghost use Rattle.slab.specs.Slab.{HasRoomFor, slab_len};
ghost use Rattle.sw_queue.specs.Lines.{named};
ghost use Rattle.sw_queue.specs.Links.{AddsNode, Drops, count_by_scope, last_number, no_nodes, numbers_of, with_last, without_first};
ghost use Rattle.sw_queue.specs.declared.line.Line.{Line};

use crate::line::{Line, Node};
use indexmap::IndexMap;
use slab::Slab;
use std::alloc::Global;
use std::marker::Model;
use sw_data::NoMemory;

// The line of each scope.
#[derive(Drop)]
pub(crate) struct Scopes {
    lines: IndexMap<Vec<u8>, Line>,
}

impl Model for Scopes {
    ghost use Rattle.sw_queue.specs.Lines.{by_name};
    ghost use Rattle.sw_queue.specs.Links.{ByScope};

    ghost Value = { ByScope };

    ghost view = { λ scopes. by_name (λ key. key.items) scopes.lines.entries };
}

impl Scopes {
    // An empty line of a scope.
    pub(crate) fn with_line(alloc: Global, scope: &[u8]) -> Result<Scopes, NoMemory>
        ensures lines { IfOk result (λ scopes. (asked : List ℕ)
            → named scopes asked no_nodes ≡ no_nodes) }
        ensures count { IfOk result (λ scopes. count_by_scope scopes ≡ 0) }
        ensures there { IfOk result (λ scopes. IsSome (lookup (bytes_eq scope.now) scopes)) }
    {
        let mut scopes = Scopes {
            lines: IndexMap::new(alloc),
        };
        scopes.make_line(alloc, scope)?;
        Ok(scopes)
    }

    // Makes an empty line of a scope, where it has none.
    #[tactic(auto, using(crate::proofs::Making::begun_line, crate::proofs::Making::begun_count, crate::proofs::Making::begun_there))]
    pub(crate) fn make_line(&mut self, alloc: Global, scope: &[u8]) -> Result<(), NoMemory>
        ensures lines { (asked : List ℕ)
            → named self.new asked no_nodes ≡ named self.old asked no_nodes }
        ensures count { count_by_scope self.new ≡ count_by_scope self.old }
        ensures there { OnOk result (IsSome (lookup (bytes_eq scope.now) self.new)) }
    {
        if self.lines.contains_key(scope) {
            return Ok(());
        }
        let mut name = Vec::new(alloc);
        name.extend_from_slice(scope)?;
        self.lines.insert(name, Line::new())?;
        Ok(())
    }

    // The first number of a scope; it takes no memory.
    #[tactic(auto, using(crate::proofs::Naming::named_found, crate::proofs::Naming::named_absent))]
    pub(crate) fn first(&self, nodes: &Slab<Node>, scope: &[u8]) -> Option<u32>
        ensures { result ≡ slice_get (numbers_of nodes.now (named self.now scope.now no_nodes)) 0 }
    {
        self.lines.get(scope)?.first(nodes)
    }

    // The last number of a scope; it takes no memory.
    #[tactic(auto, using(crate::proofs::Naming::named_found, crate::proofs::Naming::named_absent))]
    pub(crate) fn last(&self, nodes: &Slab<Node>, scope: &[u8]) -> Option<u32>
        ensures { result ≡ last_number nodes.now (named self.now scope.now no_nodes) }
    {
        self.lines.get(scope)?.last(nodes)
    }

    // Adds a number of a scope that has a line; it takes no memory.
    pub(crate) fn add(&mut self, nodes: &mut Slab<Node>, scope: &[u8], number: u32)
        requires room { HasRoomFor nodes.old 1 }
        requires count { count_by_scope self.old ≤ slab_len nodes.old }
        ensures line { (line : Line) → lookup (bytes_eq scope.now) self.old ≡ Some line
            → self.new ≡ set_value (bytes_eq scope.now) self.old (with_last nodes.old.vacant_key line) }
        ensures nodes { (line : Line) → lookup (bytes_eq scope.now) self.old ≡ Some line
            → AddsNode nodes.old nodes.new line number }
    {
        if let Some(line) = self.lines.get_mut(scope) {
            line.add(nodes, number);
        }
    }

    // Takes the first number of a scope away; it takes no memory.
    pub(crate) fn drop_first(&mut self, nodes: &mut Slab<Node>, scope: &[u8])
        ensures line { self.new ≡ set_value (bytes_eq scope.now) self.old
            (without_first nodes.old (named self.old scope.now no_nodes)) }
        ensures nodes { Drops nodes.old nodes.new (named self.old scope.now no_nodes) }
    {
        if let Some(line) = self.lines.get_mut(scope) {
            line.drop_first(nodes);
        }
    }
}
