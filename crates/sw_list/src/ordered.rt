//! Values under numbers, in order of adding.

ghost use Rattle.std.specs.Prelude.{◌≡◌, ◌++◌, ◌∷◌, [], ◌+◌, ◌<◌, ◌≤◌, None, is_some, length, nat_eq, position, slice_get, IfNone, OnOk};
ghost use Rattle.std.specs.Borrow.{sem};
ghost use Rattle.std.specs.List.{IsDistinct};
ghost use Rattle.std.specs.Map.{keys_of, lookup, remove_entry, values_of};
ghost use Rattle.std.specs.Option.{option_copied, option_copied_mut};
ghost use Rattle.sw_list.specs.StampLending.{LendsFound, LendsValue};

use crate::Numbered;
use indexmap::IndexMap;
use std::alloc::Global;
use std::marker::Model;
use sw_data::NoMemory;

// A value under its number.
#[derive(Drop)]
struct Row<V> {
    number: u32,
    value: V,
}

/// Values under numbers, in order of adding. The hash of a number is fixed, so numbers can be chosen that collide. A
/// removal takes binary searches and a constant number of look-ups; what stands behind isn't moved.
#[derive(Drop)]
pub struct Ordered<V> {
    // Each under a stamp, which tells when it was added.
    rows: Numbered<Row<V>>,
    // The stamp of each number; their order says nothing.
    stamps: IndexMap<u32, u64>,
}

impl<V> Model for Ordered<V> {
    ghost use Rattle.std.specs.Prelude.{min};
    ghost use Rattle.indexmap.specs.IndexMap.{spare};
    ghost use Rattle.sw_list.specs.Sequence.{Sequence};
    ghost use Rattle.sw_list.specs.Stamped.{IsStamped, entries_of, marks_of};

    ghost Value = { Sequence V };

    ghost view = { λ o. record {
      entries = entries_of o.rows.rows;
      spare = min (spare o.stamps) o.rows.spare;
    } };

    ghost invariant = { λ o. IsStamped (marks_of o.rows.rows) o.stamps.entries o.rows.next };
}

impl<V> Ordered<V> {
    /// No values. It takes no memory.
    pub fn new(alloc: Global) -> Ordered<V>
        ensures { result.entries ≡ [] }
    {
        Ordered {
            rows: Numbered::new(alloc, 0),
            stamps: IndexMap::new(alloc),
        }
    }

    /// How many values there are. It takes no memory.
    pub fn len(&self) -> usize
        ensures { result ≡ length self.now.entries }
    {
        self.rows.len()
    }

    /// Whether there is a value under a number. It takes no memory.
    pub fn contains(&self, number: u32) -> bool
        ensures { result ≡ is_some (lookup (nat_eq number) self.now.entries) }
    {
        self.stamps.contains_key(&number)
    }

    /// The place of a number in the order of adding. It takes no memory.
    pub fn place(&self, number: u32) -> Option<usize>
        ensures { result ≡ position (nat_eq number) (keys_of self.now.entries) }
    {
        match self.stamps.get(&number) {
            Some(stamp) => self.rows.place(*stamp),
            None => None,
        }
    }

    /// The number at a place in the order of adding. It takes no memory.
    pub fn number(&self, place: usize) -> Option<u32>
        ensures { result ≡ slice_get (keys_of self.now.entries) place }
    {
        Some(self.rows.at(place)?.number)
    }

    /// The value at a place in the order of adding. It takes no memory.
    pub fn at(&self, place: usize) -> Option<&V>
        ensures { option_copied result ≡ slice_get (values_of self.now.entries) place }
    {
        Some(&self.rows.at(place)?.value)
    }

    /// The value under a number. It takes no memory.
    #[tactic(auto, using(crate::proofs::StampRows::value_found, crate::proofs::StampRows::value_none))]
    pub fn get(&self, number: u32) -> Option<&V>
        ensures { option_copied result ≡ lookup (nat_eq number) self.now.entries }
    {
        match self.place(number) {
            Some(place) => self.at(place),
            None => None,
        }
    }

    /// The value at a place in the order of adding, to be changed. It takes no memory.
    pub fn at_mut(&mut self, place: usize) -> &mut V
        requires { place < length self.old.entries }
        ensures* writes_back { sem 𝓛 (LendsValue V.row place self.entry result) }
        ensures value { slice_get (values_of self.old.entries) place ≡ Some result.now }
    {
        let row = self.rows.at_mut(place);
        &mut row.value
    }

    /// The value under a number, to be changed. It takes no memory.
    pub fn get_mut(&mut self, number: u32) -> Option<&mut V>
        ensures* writes_back { sem 𝓛 (LendsFound V.row number self.entry result) }
        ensures value { option_copied_mut result ≡ lookup (nat_eq number) self.old.entries }
    {
        match self.place(number) {
            Some(place) => Some(self.at_mut(place)),
            None => None,
        }
    }

    /// Makes room for one more value.
    pub fn make_room(&mut self) -> Result<(), NoMemory>
        ensures same { self.new.entries ≡ self.old.entries }
        ensures kept { self.old.spare ≤ self.new.spare }
        ensures room { OnOk result (0 < self.new.spare) }
    {
        self.rows.make_room()?;
        self.stamps.reserve(1)?;
        Ok(())
    }

    /// Adds a value under a number that has none, last. It takes no memory.
    pub fn add(&mut self, number: u32, value: V)
        requires fresh { lookup (nat_eq number) self.old.entries ≡ None }
        requires room { 0 < self.old.spare }
        ensures entries { self.new.entries ≡ self.old.entries ++ (number, value) ∷ [] }
        ensures apart { IsDistinct nat_eq (keys_of self.new.entries) }
        ensures room { self.old.spare ≤ self.new.spare + 1 }
    {
        let _ = self.stamps.insert(number, self.rows.next());
        self.rows.add(Row { number, value });
    }
}

impl<V: Drop> Ordered<V> {
    /// Takes out the value under a number; the others keep their order. It takes no memory.
    pub fn remove(&mut self, number: u32) -> Option<V>
        ensures value { result ≡ lookup (nat_eq number) self.old.entries }
        ensures none { IfNone result (self.new ≡ self.old) }
        ensures entries { self.new.entries ≡ remove_entry (nat_eq number) self.old.entries }
        ensures apart { IsDistinct nat_eq (keys_of self.new.entries) }
        ensures room { self.old.spare ≤ self.new.spare }
    {
        match self.place(number) {
            Some(place) => {
                let _ = self.stamps.swap_remove(&number);
                let Row { value, .. } = self.rows.remove(place);
                Some(value)
            }
            None => None,
        }
    }
}
