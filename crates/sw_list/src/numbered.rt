//! Values under rising numbers, in order of adding.

ghost use Rattle.std.specs.Prelude.{◌≡◌, ◌++◌, ◌∷◌, [], ◌+◌, ◌<◌, ◌≤◌, length, nat_eq, position, remove, slice_get, IfOk, OnOk};
ghost use Rattle.std.specs.Borrow.{sem};
ghost use Rattle.std.specs.List.{All, AllPairs};
ghost use Rattle.std.specs.Map.{keys_of, values_of};
ghost use Rattle.std.specs.Option.{option_copied};
ghost use Rattle.sw_list.specs.Lending.{LendsValue};

use crate::holes::{HOLES, Hole, holes_before, holes_to, put_hole};
use crate::slots::{Slot, slot_at, slot_of, squeeze, values_in};
use std::alloc::Global;
use std::marker::Model;
use sw_data::NoMemory;

/// Values under rising numbers, in order of adding. A removal leaves a hole and moves the holes behind it alone, which
/// are few; with the 512th hole all go, and the values behind them move.
#[derive(Drop)]
pub struct Numbered<V> {
    // By rising numbers.
    slots: Vec<Slot<V>>,
    // The slots without a value, in order.
    holes: Vec<Hole>,
    // Above each number.
    next: u64,
}

impl<V> Model for Numbered<V> {
    ghost use Rattle.std.specs.Prelude.{◌-◌};
    ghost use Rattle.std.specs.Vec.{vec_len, vec_capacity};
    ghost use Rattle.sw_list.specs.Numbers.{Numbers};
    ghost use Rattle.sw_list.specs.Kept.{IsSpaced, spare_of};
    ghost use Rattle.sw_list.specs.Slots.{rows_of};

    ghost Value = { Numbers V };

    ghost view = { λ n. record {
      rows = rows_of n.slots.items;
      next = n.next;
      spare = spare_of (vec_capacity n.holes) (vec_capacity n.slots - vec_len n.slots) n.next;
    } };

    ghost invariant = { λ n. IsSpaced n.slots.items n.holes.items (vec_capacity n.holes) n.next };
}

impl<V> Numbered<V> {
    /// No values; the first one comes under this number. It takes no memory.
    pub fn new(alloc: Global, first: u64) -> Numbered<V>
        ensures rows { result.rows ≡ [] }
        ensures next { result.next ≡ first }
    {
        Numbered {
            slots: Vec::new(alloc),
            holes: Vec::new(alloc),
            next: first,
        }
    }

    /// How many values there are. It takes no memory.
    pub fn len(&self) -> usize
        ensures { result ≡ length self.now.rows }
    {
        self.slots.len() - self.holes.len()
    }

    /// The number of the next value. It takes no memory.
    pub fn next(&self) -> u64
        ensures { result ≡ self.now.next }
    {
        self.next
    }

    /// The place of a number in the order of adding. It takes no memory.
    pub fn place(&self, number: u64) -> Option<usize>
        ensures { result ≡ position (nat_eq number) (keys_of self.now.rows) }
    {
        let slot = slot_of(&self.slots, number)?;
        Some(slot - holes_to(&self.holes, slot))
    }

    /// The number at a place in the order of adding. It takes no memory.
    pub fn number(&self, place: usize) -> Option<u64>
        ensures { result ≡ slice_get (keys_of self.now.rows) place }
    {
        Some(slot_at(&self.slots, &self.holes, place)?.number)
    }

    /// The value at a place in the order of adding. It takes no memory.
    pub fn at(&self, place: usize) -> Option<&V>
        ensures { option_copied result ≡ slice_get (values_of self.now.rows) place }
    {
        slot_at(&self.slots, &self.holes, place)?.value.as_ref()
    }

    /// The value at a place in the order of adding, to be changed. It takes no memory.
    pub fn at_mut(&mut self, place: usize) -> &mut V
        requires { place < length self.old.rows }
        ensures* writes_back { sem 𝓛 (LendsValue V.row place self.entry result) }
        ensures value { slice_get (values_of self.old.rows) place ≡ Some result.now }
    {
        let slot = place + holes_before(&self.holes, place);
        self.slots[slot].value_mut()
    }

    /// The numbers rise and are below the next one. It does nothing.
    pub fn are_rising(&self)
        ensures rising { AllPairs (λ left right. left.0 < right.0) self.now.rows }
        ensures below { All (λ row. row.0 < self.now.next) self.now.rows }
    {
        let _ = &self.slots;
    }

    /// Makes room for one more value.
    pub fn make_room(&mut self) -> Result<(), NoMemory>
        ensures rows { self.new.rows ≡ self.old.rows }
        ensures next { self.new.next ≡ self.old.next }
        ensures kept { self.old.spare ≤ self.new.spare }
        ensures room { OnOk result (0 < self.new.spare) }
    {
        if self.next == u64::MAX {
            return Err(NoMemory);
        }
        self.slots.reserve(1)?;
        self.holes.reserve(HOLES - self.holes.len())?;
        Ok(())
    }

    /// Adds a value under the next number, last. It takes no memory.
    pub fn add(&mut self, value: V)
        requires { 0 < self.old.spare }
        ensures rows { self.new.rows ≡ self.old.rows ++ (self.old.next, value) ∷ [] }
        ensures next { self.new.next ≡ self.old.next + 1 }
        ensures room { self.old.spare ≤ self.new.spare + 1 }
    {
        let number = self.next;
        self.next = number + 1;
        self.slots.push_reserved(Slot {
            number,
            value: Some(value),
        });
    }
}

impl<V: Drop> Numbered<V> {
    /// Takes out the value at a place; the others keep their order. It takes no memory.
    pub fn remove(&mut self, place: usize) -> V
        requires { place < length self.old.rows }
        ensures value { slice_get (values_of self.old.rows) place ≡ Some result }
        ensures rows { self.new.rows ≡ remove self.old.rows place }
        ensures next { self.new.next ≡ self.old.next }
        ensures room { self.old.spare ≤ self.new.spare }
    {
        let passed = holes_before(&self.holes, place);
        let slot = place + passed;
        let value = self.slots[slot].take_value();
        let hole = Hole {
            slot,
            before: place,
        };
        put_hole(&mut self.holes, passed, hole);
        squeeze(&mut self.slots, &mut self.holes);
        value
    }

    /// The values as a list of their own, in order.
    pub fn into_values(self, alloc: Global) -> Result<Vec<V>, NoMemory>
        ensures { IfOk result (λ values. values.items ≡ values_of self.rows) }
    {
        values_in(alloc, self.slots)
    }
}
