//! For each job the numbers of those that joined it.

ghost use Rattle.std.specs.Prelude.{◌≡◌, ◌++◌, ◌∷◌, [], ◌<◌, length, slice_index_or, slice_set, OnOk};

use std::alloc::Global;
use std::marker::Model;
use sw_data::NoMemory;

// Lists of numbers, by place.
#[derive(Drop)]
pub(crate) struct Followers {
    lists: Vec<Vec<u32>>,
}

impl Model for Followers {
    ghost use Rattle.std.specs.Prelude.{◌-◌, map};
    ghost use Rattle.std.specs.Vec.{vec_len, vec_capacity};
    ghost use Rattle.sw_queue.specs.Lines.{Lists};

    ghost Value = { Lists };

    ghost view = { λ followers. record {
      lists = map (λ list. list.items) followers.lists.items;
      spare = vec_capacity followers.lists - vec_len followers.lists;
      spares = map (λ list. vec_capacity list - vec_len list) followers.lists.items;
    } };
}

impl Followers {
    // No list; it takes no memory.
    pub(crate) fn new(alloc: Global) -> Followers
        ensures { result.lists ≡ [] }
    {
        Followers {
            lists: Vec::new(alloc),
        }
    }

    // Makes room for one more list.
    pub(crate) fn make_room(&mut self) -> Result<(), NoMemory>
        ensures lists { self.new.lists ≡ self.old.lists }
        ensures spares { self.new.spares ≡ self.old.spares }
        ensures room { OnOk result (0 < self.new.spare) }
    {
        self.lists.reserve(1)?;
        Ok(())
    }

    // Makes room for one more number in the list of a place.
    #[tactic(auto, using(crate::proofs::Listing::set_kept))]
    pub(crate) fn make_room_at(&mut self, place: usize) -> Result<(), NoMemory>
        requires { place < length self.old.lists }
        ensures lists { self.new.lists ≡ self.old.lists }
        ensures spare { self.new.spare ≡ self.old.spare }
        ensures room { OnOk result (0 < slice_index_or self.new.spares place 0) }
    {
        self.lists[place].reserve(1)?;
        Ok(())
    }

    // Adds an empty list; it takes no memory.
    pub(crate) fn begin(&mut self, list: Vec<u32>)
        requires room { 0 < self.old.spare }
        requires empty { list.items ≡ [] }
        ensures { self.new.lists ≡ self.old.lists ++ [] ∷ [] }
    {
        self.lists.push_reserved(list);
    }

    // Adds a number to the list of a place; it takes no memory.
    pub(crate) fn add(&mut self, place: usize, number: u32)
        requires { 0 < slice_index_or self.old.spares place 0 }
        ensures lists { self.new.lists ≡ slice_set self.old.lists place
            (slice_index_or self.old.lists place [] ++ number ∷ []) }
        ensures spare { self.new.spare ≡ self.old.spare }
    {
        self.lists[place].push_reserved(number);
    }

    // The list of a place; it takes no memory.
    pub(crate) fn at(&self, place: usize) -> &[u32]
        ensures { result.now ≡ slice_index_or self.now.lists place [] }
    {
        match self.lists.get(place) {
            Some(list) => list.as_slice(),
            None => &[],
        }
    }
}
