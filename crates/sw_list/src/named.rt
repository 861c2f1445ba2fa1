//! Values under keys and names.

ghost use Rattle.std.specs.Prelude.{◌≡◌, ◌<◌, ◌+◌, ◌^◌, ◌++◌, ◌∷◌, [], None, Some, IfOk, OnOk, not, filter, length, drop, position, option_copied, option_map, slice_get};
ghost use Rattle.std.specs.Borrow.{sem};
ghost use Rattle.std.specs.Option.{IfSome};
ghost use Rattle.sw_list.specs.Names.{HasNoBareKey};
ghost use Rattle.sw_list.specs.Named.{FitsListing, HasLate, KeepsEarly, is_asked, is_at, is_of, made_marks, named_row, named_rows, values};

use crate::Numbered;
use crate::names::{Keys, drop_number, put_number};
use crate::row::{Row, drop_asked, first_asked};
use indexmap::IndexMap;
use std::alloc::Global;
use std::marker::Model;
use sw_data::{NoMemory, Text};

// The most rows that there may be.
const ROWS_LIMIT: usize = 4_294_967_295;

/// A place for a value, which was made for a key and a name and isn't in the table yet.
#[derive(Drop)]
pub struct NewRow {
    key: Text,
    name: Text,
}

impl Model for NewRow {
    ghost use Rattle.sw_list.specs.Named.{Made};

    ghost Value = { Made };

    ghost view = { λ new. record { key = new.key; name = new.name } };
}

/// Values under keys and names, in order of adding. The rows of a key, or of a key and a name, are
/// found in the time that they take themselves.
#[derive(Drop)]
pub struct Named<V> {
    // Each under a number, which tells when it was added.
    rows: Numbered<Row<V>>,
    keys: Keys,
    // The row that was made for the next number, until it or another one is there.
    ahead: Option<NewRow>,
}

impl<V> Model for Named<V> {
    ghost use Rattle.std.specs.Prelude.{◌<◌, ◌^◌, length};
    ghost use Rattle.sw_list.specs.Names.{HasNoBareKey};
    ghost use Rattle.sw_list.specs.Named.{Finds, HasLate, Listing, entry_rows, made_marks, marks_of};

    ghost Value = { Listing V };

    ghost view = { λ named. record {
      rows = entry_rows named.rows.rows;
      ahead = named.ahead;
      spare = named.rows.spare;
    } };

    ghost invariant = { λ named. Finds (marks_of named.rows.rows) named.keys.entries named.rows.next
        × (0 < named.rows.next)
        × (length named.rows.rows < 2 ^ 32)
        × HasLate named.rows.next (made_marks named.rows.next named.ahead) named.keys.entries
        × HasNoBareKey named.keys.entries };
}

// Puts a row ahead, for this number, in place of the one that was there. Where it finds no memory,
// none is there.
fn put_ahead(
    keys: &mut Keys,
    ahead: &mut Option<NewRow>,
    next: u64,
    key: &Text,
    name: &Text,
) -> Result<(), NoMemory>
    requires { HasLate next (made_marks next ahead.old) keys.old.entries }
    ensures early { KeepsEarly next keys.old.entries keys.new.entries }
    ensures late { HasLate next (made_marks next ahead.new) keys.new.entries }
    ensures bare { HasNoBareKey keys.old.entries → HasNoBareKey keys.new.entries }
    ensures ahead { OnOk result (ahead.new ≡ Some (record { key = key.now; name = name.now })) }
{
    let alloc = *keys.allocator();
    forget(keys, ahead, next);
    let made = NewRow {
        key: key.copy(alloc)?,
        name: name.copy(alloc)?,
    };
    put_number(keys, alloc, key, name, next)?;
    *ahead = Some(made);
    Ok(())
}

// Takes out the row that was made for this number.
fn forget(keys: &mut Keys, ahead: &mut Option<NewRow>, next: u64)
    requires { HasLate next (made_marks next ahead.old) keys.old.entries }
    ensures early { KeepsEarly next keys.old.entries keys.new.entries }
    ensures late { HasLate next [] keys.new.entries }
    ensures bare { HasNoBareKey keys.old.entries → HasNoBareKey keys.new.entries }
    ensures none { ahead.new ≡ None }
{
    if let Some(made) = ahead.take() {
        drop_number(keys, &made.key, &made.name, next);
    }
}

impl<V> Named<V> {
    ghost use Rattle.sw_list.specs.Lends.{lends_value};

    /// No rows; it takes no memory.
    pub fn new(alloc: Global) -> Named<V>
        ensures { result.rows ≡ [] }
    {
        Named {
            rows: Numbered::new(alloc, 1),
            keys: IndexMap::new(alloc),
            ahead: None,
        }
    }

    /// How many rows there are; it takes no memory.
    pub fn len(&self) -> usize
        ensures len { result ≡ length self.now.rows }
        ensures few { length self.now.rows < 2 ^ 32 }
    {
        self.rows.len()
    }

    /// The place for a row of this key and name, and the room for it.
    pub fn make_row(&mut self, key: Text, name: Text) -> Result<NewRow, NoMemory>
        ensures same { self.new.rows ≡ self.old.rows }
        ensures key { IfOk result (λ new. new.key ≡ key) }
        ensures name { IfOk result (λ new. new.name ≡ name) }
        ensures fits { IfOk result (λ new. FitsListing new self.new) }
    {
        if self.rows.len() >= ROWS_LIMIT {
            return Err(NoMemory);
        }
        self.rows.make_room()?;
        let next = self.rows.next();
        put_ahead(&mut self.keys, &mut self.ahead, next, &key, &name)?;
        Ok(NewRow { key, name })
    }

    /// Adds a value at the end, in a place that was made for it; it takes no memory.
    pub fn put(&mut self, new: NewRow, value: V)
        requires { FitsListing new self.old }
        ensures { self.new.rows ≡ self.old.rows ++ ((new.key, new.name), value) ∷ [] }
    {
        let NewRow { key, name } = new;
        self.rows.add(Row { key, name, value });
        self.ahead = None;
    }

    /// The place of the first row of a key and a name; it takes no memory.
    pub fn place(&self, key: &Text, name: &Text) -> Option<usize>
        ensures { result ≡ position (is_at key.now name.now) self.now.rows }
    {
        first_asked(&self.rows, &self.keys, key, Some(name), 0)
    }

    /// The place of the first row of a key at `from` or behind it; it takes no memory.
    pub fn next_of(&self, key: &Text, from: usize) -> Option<usize>
        ensures place { result ≡ option_map (λ place. from + place)
            (position (is_of key.now) (drop from self.now.rows)) }
        ensures low { IfSome result (λ place. place < length self.now.rows) }
        ensures few { length self.now.rows < 2 ^ 32 }
    {
        self.next_asked(key, None, from)
    }

    /// The place of the first row of a key and a name at `from` or behind it; it takes no memory.
    pub fn next_named(&self, key: &Text, name: &Text, from: usize) -> Option<usize>
        ensures place { result ≡ option_map (λ place. from + place)
            (position (is_at key.now name.now) (drop from self.now.rows)) }
        ensures low { IfSome result (λ place. place < length self.now.rows) }
        ensures few { length self.now.rows < 2 ^ 32 }
    {
        self.next_asked(key, Some(name), from)
    }

    // The place of the first row of a key, or of a key and a name, at `from` or behind it.
    fn next_asked(&self, key: &Text, name: Option<&Text>, from: usize) -> Option<usize>
        ensures place { result ≡ option_map (λ place. from + place)
            (position (is_asked key.now (option_copied name.entry)) (drop from self.now.rows)) }
        ensures low { IfSome result (λ place. place < length self.now.rows) }
        ensures few { length self.now.rows < 2 ^ 32 }
    {
        let number = self.rows.number(from)?;
        first_asked(&self.rows, &self.keys, key, name, number - 1)
    }

    /// The row at a place; it takes no memory.
    pub fn row(&self, place: usize) -> &Row<V>
        requires { place < length self.now.rows }
        ensures { slice_get self.now.rows place ≡ Some (named_row result.now) }
    {
        self.rows.at(place).unwrap()
    }

    /// The value at a place, which can be written; it takes no memory.
    pub fn value_mut(&mut self, place: usize) -> &mut V
        requires { place < length self.old.rows }
        ensures* writes_back { sem 𝓛 (lends_value V.row self.entry place result) }
        ensures value { slice_get (values self.old.rows) place ≡ Some result.now }
    {
        let row = self.rows.at_mut(place);
        &mut row.value
    }
}

impl<V: Drop> Named<V> {
    /// The rows as a list of their own, none of them copied.
    pub fn into_rows(self, alloc: Global) -> Result<Vec<Row<V>>, NoMemory>
        ensures { IfOk result (λ rows. named_rows rows.items ≡ self.rows) }
    {
        self.rows.into_values(alloc)
    }

    /// Removes the rows of a key and a name; it takes no memory.
    pub fn remove_named(&mut self, key: &Text, name: &Text)
        ensures { self.new.rows ≡ filter (λ row. not (is_at key.now name.now row)) self.old.rows }
    {
        drop_asked(&mut self.rows, &mut self.keys, key, Some(name));
    }

    /// Removes the rows of a key; it takes no memory.
    pub fn remove_key(&mut self, key: &Text)
        ensures { self.new.rows ≡ filter (λ row. not (is_of key.now row)) self.old.rows }
    {
        drop_asked(&mut self.rows, &mut self.keys, key, None);
    }
}
