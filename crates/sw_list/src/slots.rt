//! Slots, of which some have a value.

ghost use Rattle.std.specs.Prelude.{◌≡◌, ◌<◌, ◌≤◌, ◌^◌, ◌++◌, ℕ, IfOk, IsSome, MatchOption, None, OnOk, Some, length, nat_eq, position, slice_get, vec_capacity, vec_len};
ghost use Rattle.std.specs.Borrow.{sem};
ghost use Rattle.std.specs.List.{All, AllPairs, flat_map};
ghost use Rattle.std.specs.Map.{keys_of};
ghost use Rattle.std.specs.Option.{option_copied, option_map, option_to_list};
ghost use Rattle.sw_list.specs.Slots.{HasNumber, holes_of, row_of, rows_of};
ghost use Rattle.sw_list.specs.Lending.{LendsSlot};

use crate::holes::{HOLES, Hole, holes_before};
use std::alloc::Global;
use sw_data::NoMemory;

// A value under its number, or a hole where it was.
#[derive(Drop)]
pub(crate) struct Slot<V> {
    pub(crate) number: u64,
    pub(crate) value: Option<V>,
}

impl<V> Slot<V> {
    // The value, to be changed.
    pub(crate) fn value_mut(&mut self) -> &mut V
        requires { IsSome self.old.value }
        ensures* writes_back { sem 𝓛 (LendsSlot V.row self.entry result) }
        ensures value { self.old.value ≡ Some result.now }
    {
        self.value.as_mut().unwrap()
    }

    // Takes the value out.
    pub(crate) fn take_value(&mut self) -> V
        requires { IsSome self.old.value }
        ensures value { self.old.value ≡ Some result }
        ensures slot { self.new ≡ record self.old { value = None } }
    {
        self.value.take().unwrap()
    }
}

// The slot of the value at a place.
pub(crate) fn slot_at<'a, V>(
    slots: &'a [Slot<V>],
    holes: &[Hole],
    place: usize,
) -> Option<&'a Slot<V>>
    requires told { holes.now ≡ holes_of 0 0 slots.now }
    requires fits { length slots.now < 2 ^ 64 }
    ensures { option_map row_of (option_copied result)
        ≡ option_map Some (slice_get (rows_of slots.now) place) }
{
    if place >= slots.len() - holes.len() {
        return None;
    }
    Some(&slots[place + holes_before(holes, place)])
}

// The place among the slots of the value under a number.
pub(crate) fn slot_of<V>(slots: &[Slot<V>], number: u64) -> Option<usize>
    requires { AllPairs (λ left right. left.number < right.number) slots.now }
    ensures { MatchOption result (position (nat_eq number) (keys_of (rows_of slots.now)) ≡ None)
        (λ slot. HasNumber slots.now number slot) }
{
    let place = slots.partition_point(|slot| slot.number < number);
    let slot = slots.get(place)?;
    if slot.number == number && slot.value.is_some() {
        Some(place)
    } else {
        None
    }
}

// Takes out the slots without a value, where they are many.
pub(crate) fn squeeze<V: Drop>(slots: &mut Vec<Slot<V>>, holes: &mut Vec<Hole>)
    requires { holes.old.items ≡ holes_of 0 0 slots.old.items }
    ensures told { holes.new.items ≡ holes_of 0 0 slots.new.items }
    ensures few { length holes.new.items < 512 }
    ensures rows { rows_of slots.new.items ≡ rows_of slots.old.items }
    ensures rising { AllPairs (λ left right. left.number < right.number) slots.old.items
        → AllPairs (λ left right. left.number < right.number) slots.new.items }
    ensures below { (top : ℕ) → All (λ slot. slot.number < top) slots.old.items
        → All (λ slot. slot.number < top) slots.new.items }
    ensures len { vec_len slots.new ≤ vec_len slots.old }
    ensures slots_room { vec_capacity slots.new ≡ vec_capacity slots.old }
    ensures holes_room { vec_capacity holes.new ≡ vec_capacity holes.old }
{
    if holes.len() < HOLES {
        return;
    }
    slots.retain(|slot| slot.value.is_some());
    holes.clear();
}

// The values of slots, in order.
pub(crate) fn values_in<V: Drop>(alloc: Global, slots: Vec<Slot<V>>) -> Result<Vec<V>, NoMemory>
    ensures { IfOk result (λ values. values.items
        ≡ flat_map (λ slot. option_to_list slot.value) slots.items) }
{
    let mut values = Vec::new(alloc);
    for slot in slots {
        push_some(&mut values, slot.value)?;
    }
    Ok(values)
}

// Adds a value where there is one.
fn push_some<V: Drop>(values: &mut Vec<V>, value: Option<V>) -> Result<(), NoMemory>
    ensures { OnOk result (values.new.items ≡ values.old.items ++ option_to_list value) }
{
    if let Some(value) = value {
        values.push(value)?;
    }
    Ok(())
}
