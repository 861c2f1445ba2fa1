//! One line of numbers, kept in nodes that link one another.

ghost use Rattle.std.specs.Prelude.{◌≡◌, ◌≤◌, slice_get};
ghost use Rattle.slab.specs.Slab.{HasRoomFor, slab_len};
ghost use Rattle.sw_queue.specs.Links.{AddsNode, Drops, last_number, no_nodes, numbers_of, with_last, with_link, without_first};

use slab::Slab;

// A number that stands in line, and the place of the next one.
#[derive(Drop)]
pub(crate) struct Node {
    job: u32,
    next: Option<usize>,
}

// The places of the first and the last node of a line, where it has any, and how many it has.
#[derive(Clone, Copy)]
pub(crate) struct Line {
    first: usize,
    last: usize,
    count: usize,
}

impl Line {
    // An empty line.
    pub(crate) fn new() -> Line
        ensures { result ≡ no_nodes }
    {
        Line {
            first: 0,
            last: 0,
            count: 0,
        }
    }

    // The first number; it takes no memory.
    pub(crate) fn first(&self, nodes: &Slab<Node>) -> Option<u32>
        ensures { result ≡ slice_get (numbers_of nodes.now self.now) 0 }
    {
        if self.count == 0 {
            return None;
        }
        Some(nodes.get(self.first)?.job)
    }

    // The last number; it takes no memory.
    pub(crate) fn last(&self, nodes: &Slab<Node>) -> Option<u32>
        ensures { result ≡ last_number nodes.now self.now }
    {
        if self.count == 0 {
            return None;
        }
        Some(nodes.get(self.last)?.job)
    }

    // The last node, where there is one, links this place.
    fn link_last(&self, nodes: &mut Slab<Node>, next: usize)
        ensures { nodes.new ≡ with_link nodes.old self.now next }
    {
        if self.count == 0 {
            return;
        }
        if let Some(node) = nodes.get_mut(self.last) {
            node.next = Some(next);
        }
    }

    // Adds a number at the end; it takes no memory.
    #[tactic(auto, using(crate::proofs::Linking::linked_count, crate::proofs::Linking::linked_rest, crate::proofs::Linking::linked_adds))]
    pub(crate) fn add(&mut self, nodes: &mut Slab<Node>, number: u32)
        requires room { HasRoomFor nodes.old 1 }
        requires count { self.old.count ≤ slab_len nodes.old }
        ensures line { self.new ≡ with_last nodes.old.vacant_key self.old }
        ensures nodes { AddsNode nodes.old nodes.new self.old number }
    {
        let place = nodes.vacant_key();
        self.link_last(nodes, place);
        nodes.insert_reserved(Node {
            job: number,
            next: None,
        });
        prove!(self.count < nodes.len());
        if self.count == 0 {
            self.first = place;
        }
        self.last = place;
        self.count += 1;
    }

    // Takes the first number away, and gives its place up; it takes no memory.
    pub(crate) fn drop_first(&mut self, nodes: &mut Slab<Node>)
        ensures line { self.new ≡ without_first nodes.old self.old }
        ensures nodes { Drops nodes.old nodes.new self.old }
    {
        if self.count == 0 {
            return;
        }
        if let Some(node) = nodes.try_remove(self.first) {
            self.first = node.next.unwrap_or(self.first);
            self.count -= 1;
        }
    }
}
