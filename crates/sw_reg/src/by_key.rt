//! The registrations of each key, found from one to the next.

ghost use Rattle.std.specs.Prelude.{◌≡◌, ◌++◌, ◌∷◌, [], ◌+◌, ◌<◌, ◌≤◌, ◌^◌, ℕ, List, length, slice_get, OnOk};
ghost use Rattle.std.specs.List.{position_from};
ghost use Rattle.std.specs.Option.{IfSome, option_flatten, option_map_or};
ghost use Rattle.sw_reg.specs.ByKey.{IsIndex, is_key, keys_of, links_from, room, with_link};

use indexmap::IndexMap;
use std::alloc::Global;
use sw_data::{NoMemory, RegistrationRow, Text};

// The first and the last registration of a key.
#[derive(Debug, Clone, Copy)]
pub(crate) struct Ends {
    pub(crate) first: u32,
    pub(crate) last: u32,
}

// The ends of each key that has a registration, and behind each registration the next one of its key, all by number. The hash
// of a key is fixed, so keys can be chosen that collide.
#[derive(Drop)]
pub(crate) struct ByKey {
    pub(crate) ends: IndexMap<Text, Ends>,
    pub(crate) links: Vec<Option<u32>>,
}

// Links a number behind the last one of its key, and gives the first one. It takes no memory.
fn link(links: &mut [Option<u32>], ends: Option<Ends>, number: u32) -> u32
    requires { IfSome ends (λ ends. ends.last < length links.old) }
    ensures links { links.new ≡ with_link ends number links.old }
    ensures first { result ≡ option_map_or (λ ends. ends.first) ends number }
{
    match ends {
        Some(ends) => {
            links[ends.last as usize] = Some(number);
            ends.first
        }
        None => number,
    }
}

impl ByKey {
    // No registrations. It takes no memory.
    pub(crate) fn new(alloc: Global) -> ByKey
        ensures { IsIndex [] result }
    {
        ByKey {
            ends: IndexMap::new(alloc),
            links: Vec::new(alloc),
        }
    }

    // The first registration of a key. It takes no memory.
    pub(crate) fn first_of(&self, key: &Text) -> Option<u32>
        ensures { (keys : List (List ℕ)) → IsIndex keys self.now
            → result ≡ position_from (is_key key.now) 0 keys }
    {
        match self.ends.get(key) {
            Some(ends) => Some(ends.first),
            None => None,
        }
    }

    // The next registration of the same key. It takes no memory.
    pub(crate) fn next_of(&self, number: u32) -> Option<u32>
        ensures { (keys : List (List ℕ)) → IsIndex keys self.now
            → result ≡ option_flatten (slice_get (links_from 0 keys) number) }
    {
        *self.links.get(number as usize)?
    }

    // Makes room for one more registration.
    pub(crate) fn make_room(&mut self) -> Result<(), NoMemory>
        ensures index { (keys : List (List ℕ)) → IsIndex keys self.old → IsIndex keys self.new }
        ensures kept { room self.old ≤ room self.new }
        ensures room { OnOk result (0 < room self.new) }
    {
        self.ends.reserve(1)?;
        self.links.reserve(1)?;
        Ok(())
    }

    // A registration of a key comes behind these. It takes no memory.
    pub(crate) fn add(&mut self, rows: &[RegistrationRow], key: Text)
        requires index { IsIndex (keys_of rows.now) self.old }
        requires room { 0 < room self.old }
        requires few { length rows.now < 2 ^ 32 }
        ensures index { IsIndex (keys_of rows.now ++ key ∷ []) self.new }
        ensures room { room self.old ≤ room self.new + 1 }
    {
        let number = rows.len() as u32;
        let ends = self.ends.get(&key).copied();
        let first = link(&mut self.links, ends, number);
        let last = number;
        let _ = self.ends.insert(key, Ends { first, last });
        self.links.push_reserved(None);
    }
}
