//! Flags by number.

ghost use Rattle.std.specs.Prelude.{◌≡◌, ◌++◌, ◌∷◌, [], ◌-◌, ◌<◌, ◌≤◌, Bool, drop, find, length, map, slice_get, slice_set, OnOk};
ghost use Rattle.std.specs.List.{position_from};
ghost use Rattle.std.specs.Option.{option_copied};

use crate::flag_places::{BLOCK, counted_from, in_block, row_at};
use std::alloc::Global;
use std::marker::Model;
use sw_data::NoMemory;

/// Flags by number, with a count for each block of them.
#[derive(Drop)]
pub struct Flags {
    flags: Vec<bool>,
    // How many flags of each block are set.
    counts: Vec<u16>,
}

impl Model for Flags {
    ghost use Rattle.std.specs.Prelude.{◌-◌, ◌*◌, min};
    ghost use Rattle.std.specs.Vec.{vec_len, vec_capacity};
    ghost use Rattle.sw_list.specs.KeptFlags.{CountsBlocks};
    ghost use Rattle.sw_list.specs.Marked.{Marked};

    ghost Value = { Marked };

    ghost view = { λ f. record {
      flags = f.flags.items;
      spare = min (vec_capacity f.flags) (256 * vec_capacity f.counts) - vec_len f.flags;
    } };

    ghost invariant = { λ f. CountsBlocks f.flags.items f.counts.items };
}

impl Flags {
    /// No flags. It takes no memory.
    pub fn new(alloc: Global) -> Flags
        ensures { result.flags ≡ [] }
    {
        Flags {
            flags: Vec::new(alloc),
            counts: Vec::new(alloc),
        }
    }

    /// How many flags there are.
    pub fn len(&self) -> usize
        ensures { result ≡ length self.now.flags }
    {
        self.flags.len()
    }

    /// Makes room for one more flag.
    pub fn make_room(&mut self) -> Result<(), NoMemory>
        ensures same { self.new.flags ≡ self.old.flags }
        ensures kept { self.old.spare ≤ self.new.spare }
        ensures room { OnOk result (0 < self.new.spare) }
    {
        self.flags.reserve(1)?;
        self.counts.reserve(1)?;
        Ok(())
    }

    /// Adds a flag. It takes no memory.
    pub fn add(&mut self, flag: bool)
        requires { 0 < self.old.spare }
        ensures { self.new ≡ record {
          flags = self.old.flags ++ flag ∷ [];
          spare = self.old.spare - 1;
        } }
    {
        match self.counts.get_mut(self.flags.len() / BLOCK) {
            Some(count) => *count += u16::from(flag),
            None => self.counts.push_reserved(u16::from(flag)),
        }
        self.flags.push_reserved(flag);
    }

    /// Sets the flag of a place, or clears it. It takes no memory.
    pub fn set(&mut self, place: usize, flag: bool)
        requires { place < length self.old.flags }
        ensures { self.new
            ≡ record self.old { flags = slice_set self.old.flags place flag } }
    {
        let was = self.flags[place];
        let count = &mut self.counts[place / BLOCK];
        *count = *count + u16::from(flag) - u16::from(was);
        self.flags[place] = flag;
    }

    /// The flag of a place. None exactly where there is none. It takes no memory.
    pub fn get(&self, place: usize) -> Option<bool>
        ensures { result ≡ slice_get self.now.flags place }
    {
        self.flags.get(place).copied()
    }

    /// The first place at or behind a place whose flag is set. It takes no memory, and time in the number of the blocks
    /// and in the length of two of them.
    pub fn first_from(&self, from: usize) -> Option<usize>
        ensures { result ≡ position_from (λ flag. flag) from (drop from self.now.flags) }
    {
        match in_block(&self.flags, from) {
            Some(place) => Some(place),
            None => {
                let block = counted_from(&self.counts, from / BLOCK + 1)?;
                in_block(&self.flags, BLOCK * block)
            }
        }
    }

    /// The first row at or behind a place that passes a test, where the flags tell of each row whether it passes. It
    /// takes no memory, and time as `first_from` does.
    pub fn first_row<'a, T>(&self, rows: &'a [T], from: usize) -> Option<&'a T>
        ensures { (test : T → Bool) → map test rows.now ≡ self.now.flags
            → option_copied result ≡ find test (drop from rows.now) }
    {
        match self.first_from(from) {
            Some(place) => row_at(rows, place),
            None => None,
        }
    }
}
