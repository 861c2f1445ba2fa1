//! The numbers of rows, by key and by name.

ghost use Rattle.std.specs.Prelude.{◌≡◌, ◌↔◌, ℕ, List, Option, cond, false, true, nat_eq, option_copied, IsTrue, OnErr, OnOk};
ghost use Rattle.sw_list.specs.Names.{HasNoBareKey, HasNoBareName, IsNextNumber, KeepsIn, KeepsKey, KeepsName, PutsIn, PutsKey, PutsName, keys_have, map_has, names_have, set_has};

use indexmap::IndexMap;
use std::alloc::Global;
use std::collections::BTreeSet;
use std::ops::Bound;
use sw_data::{NoMemory, Text};

// The numbers of the rows of a key: those of each name that has one, and all.
#[derive(Drop)]
pub(crate) struct Names {
    by_name: IndexMap<Text, BTreeSet<u64>>,
    in_order: BTreeSet<u64>,
}

// The numbers of the rows of each key that has one. The hash of a text is fixed, so keys and names
// can be chosen that collide.
pub(crate) type Keys = IndexMap<Text, Names>;

// The least number above another one; it takes no memory.
fn next_in(numbers: &BTreeSet<u64>, after: u64) -> Option<u64>
    ensures { IsNextNumber (set_has numbers.now) after result }
{
    let range = (Bound::Excluded(after), Bound::Unbounded);
    match numbers.range(range).next() {
        Some(number) => Some(*number),
        None => None,
    }
}

// Adds a number of a name.
fn add_number(
    names: &mut IndexMap<Text, BTreeSet<u64>>,
    alloc: Global,
    name: &Text,
    number: u64,
) -> Result<(), NoMemory>
    ensures ok { OnOk result (PutsIn name.now number true names.old.entries names.new.entries) }
    ensures err { OnErr result (KeepsIn name.now number names.old.entries names.new.entries) }
    ensures more { (asked : List ℕ) (n : ℕ) → map_has names.old.entries asked n ≡ true
        → map_has names.new.entries asked n ≡ true }
    ensures bare { HasNoBareName names.old.entries → HasNoBareName names.new.entries }
{
    match names.get_mut(name) {
        Some(numbers) => {
            numbers.insert(number)?;
        }
        None => {
            let mut numbers = BTreeSet::new(alloc);
            numbers.insert(number)?;
            names.insert(name.copy(alloc)?, numbers)?;
        }
    }
    Ok(())
}

// Takes a number out, and tells whether none is left; it takes no memory.
fn take_from(numbers: &mut BTreeSet<u64>, number: u64) -> bool
    ensures gone { (n : ℕ) → set_has numbers.new n
        ≡ cond (nat_eq number n) false (set_has numbers.old n) }
    ensures none { IsTrue result ↔ ((n : ℕ) → set_has numbers.new n ≡ false) }
{
    numbers.remove(&number);
    numbers.is_empty()
}

// Takes a number of a name out, and the name with its last number; it takes no memory.
fn take_number(names: &mut IndexMap<Text, BTreeSet<u64>>, name: &Text, number: u64)
    ensures gone { PutsIn name.now number false names.old.entries names.new.entries }
    ensures bare { HasNoBareName names.old.entries → HasNoBareName names.new.entries }
{
    let is_empty = match names.get_mut(name) {
        Some(numbers) => take_from(numbers, number),
        None => false,
    };
    if is_empty {
        names.swap_remove(name);
    }
}

impl Names {
    // No number; it takes no memory.
    fn new(alloc: Global) -> Names
        ensures none { (name : Option (List ℕ)) (n : ℕ) → names_have result name n ≡ false }
        ensures bare { HasNoBareName result.by_name.entries }
    {
        Names {
            by_name: IndexMap::new(alloc),
            in_order: BTreeSet::new(alloc),
        }
    }

    // The least number of a name, or of all where none is given, above another one; it takes no memory.
    fn next(&self, name: Option<&Text>, after: u64) -> Option<u64>
        ensures { IsNextNumber (names_have self.now (option_copied name.entry)) after result }
    {
        match name {
            Some(name) => match self.by_name.get(name) {
                Some(numbers) => next_in(numbers, after),
                None => None,
            },
            None => next_in(&self.in_order, after),
        }
    }

    // Adds a number of a name. Where it finds no memory, part of it may be done.
    fn add(&mut self, alloc: Global, name: &Text, number: u64) -> Result<(), NoMemory>
        ensures ok { OnOk result (PutsName name.now number true self.old self.new) }
        ensures err { OnErr result (KeepsName name.now number self.old self.new) }
        ensures more { (asked : Option (List ℕ)) (n : ℕ) → names_have self.old asked n ≡ true
            → names_have self.new asked n ≡ true }
        ensures bare { HasNoBareName self.old.by_name.entries
            → HasNoBareName self.new.by_name.entries }
    {
        self.in_order.insert(number)?;
        add_number(&mut self.by_name, alloc, name, number)
    }

    // Takes a number of a name out, and tells whether none is left; it takes no memory.
    fn take(&mut self, name: &Text, number: u64) -> bool
        ensures gone { PutsName name.now number false self.old self.new }
        ensures none { IsTrue result → (name : Option (List ℕ)) (n : ℕ)
            → names_have self.new name n ≡ false }
        ensures left { HasNoBareName self.old.by_name.entries
            → ((name : Option (List ℕ)) (n : ℕ) → names_have self.new name n ≡ false)
            → IsTrue result }
        ensures bare { HasNoBareName self.old.by_name.entries
            → HasNoBareName self.new.by_name.entries }
    {
        take_number(&mut self.by_name, name, number);
        take_from(&mut self.in_order, number) && self.by_name.is_empty()
    }
}

// The least number of a key, or of a key and a name, above another one; it takes no memory.
pub(crate) fn next_number(keys: &Keys, key: &Text, name: Option<&Text>, after: u64) -> Option<u64>
    ensures { IsNextNumber (keys_have keys.now.entries key.now (option_copied name.entry)) after result }
{
    match keys.get(key) {
        Some(names) => names.next(name, after),
        None => None,
    }
}

// Adds a number of a key and a name. Where it finds no memory, part of it may be done.
fn add_to_key(
    keys: &mut Keys,
    alloc: Global,
    key: &Text,
    name: &Text,
    number: u64,
) -> Result<(), NoMemory>
    ensures ok { OnOk result
        (PutsKey key.now name.now number true keys.old.entries keys.new.entries) }
    ensures err { OnErr result
        (KeepsKey key.now name.now number keys.old.entries keys.new.entries) }
    ensures bare { HasNoBareKey keys.old.entries → HasNoBareKey keys.new.entries }
{
    match keys.get_mut(key) {
        Some(names) => names.add(alloc, name, number),
        None => {
            let mut names = Names::new(alloc);
            names.add(alloc, name, number)?;
            keys.insert(key.copy(alloc)?, names)?;
            Ok(())
        }
    }
}

// Adds a number of a key and a name. Where it finds no memory, they haven't got it.
pub(crate) fn put_number(
    keys: &mut Keys,
    alloc: Global,
    key: &Text,
    name: &Text,
    number: u64,
) -> Result<(), NoMemory>
    ensures ok { OnOk result
        (PutsKey key.now name.now number true keys.old.entries keys.new.entries) }
    ensures err { OnErr result
        (PutsKey key.now name.now number false keys.old.entries keys.new.entries) }
    ensures bare { HasNoBareKey keys.old.entries → HasNoBareKey keys.new.entries }
{
    match add_to_key(keys, alloc, key, name, number) {
        Ok(()) => Ok(()),
        Err(fault) => {
            drop_number(keys, key, name, number);
            Err(fault)
        }
    }
}

// Takes a number of a key and a name out, and each of them with its last number; it takes no memory.
pub(crate) fn drop_number(keys: &mut Keys, key: &Text, name: &Text, number: u64)
    ensures gone { PutsKey key.now name.now number false keys.old.entries keys.new.entries }
    ensures bare { HasNoBareKey keys.old.entries → HasNoBareKey keys.new.entries }
{
    let is_empty = match keys.get_mut(key) {
        Some(names) => names.take(name, number),
        None => false,
    };
    if is_empty {
        keys.swap_remove(key);
    }
}
