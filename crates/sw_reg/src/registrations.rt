//! The table of registrations.

ghost use Rattle.std.specs.Prelude.{◌≡◌, ◌++◌, ◌∷◌, [], ◌-◌, ◌≤◌, ◌<◌, true, find, length, is_none, is_some, IfOk, OnOk, OnErr};
ghost use Rattle.std.specs.Option.{option_copied};
ghost use Rattle.sw_rules.specs.Rows.{changed};
ghost use Rattle.sw_reg.specs.Edits.{edited, new_registration, with_active, with_installing, with_mode, with_owed, with_waiting, without};
ghost use Rattle.sw_reg.specs.Fits.{FitsRegistration};
ghost use Rattle.sw_reg.specs.Table.{first_of, firsts, has_registration, is_registration, is_there, newest_of, next_of, registration_at, slot_of};

use crate::by_key::ByKey;
use crate::copies::{copy_rows, index_of, owed_of};
use crate::edit::{Edit, carry_out};
use std::alloc::Global;
use std::marker::Model;
use sw_data::{Mode, NoMemory, RegistrationRow, Slot, Text};
use sw_list::Flags;

/// The registrations in order of making, where a registration's number is its place.
#[derive(Drop)]
pub struct Registrations {
    rows: Vec<RegistrationRow>,
    by_key: ByKey,
    // How many of them have got a waiting worker.
    firsts: u32,
    // Which of them are owed a Try Activate.
    owed: Flags,
    // For how many more there is room in each of these.
    spare: usize,
}

impl Model for Registrations {
    ghost use Rattle.std.specs.Prelude.{◌-◌, ◌≤◌, min};
    ghost use Rattle.std.specs.Vec.{vec_len, vec_capacity};
    ghost use Rattle.sw_reg.specs.ByKey.{IsIndex, keys_of, room};
    ghost use Rattle.sw_reg.specs.Kept.{IsListed};
    ghost use Rattle.sw_reg.specs.Table.{Table};

    ghost Value = { Table };

    ghost view = { λ r. record { rows = r.rows.items; spare = r.spare } };

    ghost invariant = { λ r. IsListed r.rows.items r.firsts r.owed.flags
        × IsIndex (keys_of r.rows.items) r.by_key
        × (r.spare ≤ min (vec_capacity r.rows - vec_len r.rows) (min (room r.by_key) r.owed.spare)) };
}

/// A finished row of a registration, which isn't in the table yet.
#[derive(Drop)]
pub struct NewRegistration {
    row: RegistrationRow,
    // The key once more, for the index.
    key: Text,
}

impl Model for NewRegistration {
    ghost use Rattle.std.specs.Prelude.{◌≡◌};
    ghost use Rattle.sw_data.specs.declared.rows.RegistrationRow.{RegistrationRow};
    ghost use Rattle.sw_reg.specs.Kept.{IsNewRow};

    ghost Value = { RegistrationRow };

    ghost view = { λ new. new.row };

    ghost invariant = { λ new. IsNewRow new.row × (new.key ≡ new.row.key) };
}

impl NewRegistration {
    /// The number that the registration will have. It takes no memory.
    pub fn number(&self) -> u32
        ensures { result ≡ self.now.number }
    {
        self.row.number
    }
}

impl Registrations {
    /// No registrations. It takes no memory.
    pub fn new(alloc: Global) -> Registrations
        ensures { result.rows ≡ [] }
    {
        Registrations {
            rows: Vec::new(alloc),
            by_key: ByKey::new(alloc),
            firsts: 0,
            owed: Flags::new(alloc),
            spare: 0,
        }
    }

    /// A table of its own that equals this one, but for the room for more. It takes time and memory in the registrations
    /// and in their keys and scopes.
    pub fn copy(&self, alloc: Global) -> Result<Registrations, NoMemory>
        ensures { IfOk result (λ copy. copy ≡ record self.now { spare = copy.spare }) }
    {
        let rows = copy_rows(alloc, &self.rows)?;
        let by_key = index_of(alloc, &self.rows)?;
        let owed = owed_of(alloc, &self.rows)?;
        Ok(Registrations {
            rows,
            by_key,
            firsts: self.firsts,
            owed,
            spare: 0,
        })
    }

    /// How many registrations there are.
    pub fn len(&self) -> usize
        ensures { result ≡ length self.now.rows }
    {
        self.rows.len()
    }

    /// The rows of all registrations, by their numbers. It takes no memory.
    pub fn rows(&self) -> &[RegistrationRow]
        ensures { result.now ≡ self.now.rows }
    {
        &self.rows
    }

    /// The row of a registration. It takes no memory.
    #[tactic(auto, using(crate::proofs::Placed::row_here, crate::proofs::Placed::row_gone))]
    pub fn row(&self, id: u32) -> Option<&RegistrationRow>
        ensures { option_copied result ≡ registration_at id self.now.rows }
    {
        let place = id as usize;
        if place < self.rows.len() {
            Some(&self.rows[place])
        } else {
            None
        }
    }

    /// The newest worker of a registration: the installing one, else the waiting one, else the active one. It takes no
    /// memory.
    pub fn newest(&self, id: u32) -> Option<u32>
        ensures { result ≡ newest_of id self.now.rows }
    {
        match self.row(id) {
            Some(row) => row.installing.or(row.waiting.or(row.active)),
            None => None,
        }
    }

    /// The worker in a slot of a registration. It takes no memory.
    pub fn slot(&self, id: u32, slot: Slot) -> Option<u32>
        ensures { result ≡ slot_of slot id self.now.rows }
    {
        match self.row(id) {
            Some(row) => match slot {
                Slot::Installing => row.installing,
                Slot::Waiting => row.waiting,
                Slot::Active => row.active,
            },
            None => None,
        }
    }

    /// The first registration that is owed a Try Activate. It takes no memory, and time in the number of the blocks of
    /// flags and in the length of two of them.
    pub fn first_owed(&self) -> Option<&RegistrationRow>
        ensures { option_copied result ≡ find (λ row. row.owed) self.now.rows }
    {
        self.owed.first_row(&self.rows, 0)
    }

    /// The first registration of a key, by its number, which is its place. It takes no memory.
    pub fn first_of(&self, key: &Text) -> Option<u32>
        ensures { result ≡ first_of key.now self.now.rows }
    {
        self.by_key.first_of(key)
    }

    /// The first registration behind that of a number which has the same key. It takes no memory.
    pub fn next_of(&self, number: u32) -> Option<u32>
        ensures { result ≡ next_of number self.now.rows }
    {
        self.by_key.next_of(number)
    }

    // Makes room for one more registration.
    fn make_room(&mut self) -> Result<(), NoMemory>
        ensures same { self.new.rows ≡ self.old.rows }
        ensures kept { self.old.spare ≤ self.new.spare }
        ensures room { OnOk result (0 < self.new.spare) }
    {
        if self.spare == 0 {
            self.rows.reserve(1)?;
            self.by_key.make_room()?;
            self.owed.make_room()?;
            self.spare = 1;
        }
        Ok(())
    }

    /// Makes room for a registration, and its row.
    pub fn make_row(
        &mut self,
        alloc: Global,
        key: &Text,
        scope: &Text,
        mode: Mode,
    ) -> Result<NewRegistration, NoMemory>
        ensures same { self.new.rows ≡ self.old.rows }
        ensures room { self.old.spare ≤ self.new.spare }
        ensures row { IfOk result (λ new. new
            ≡ new_registration (length self.old.rows) key.now scope.now mode) }
        ensures fits { IfOk result (λ new. FitsRegistration new self.new) }
    {
        let number = match u32::try_from(self.rows.len()) {
            Ok(number) if number < u32::MAX => number,
            _ => return Err(NoMemory),
        };
        self.make_room()?;
        Ok(NewRegistration {
            row: RegistrationRow {
                number,
                key: key.copy(alloc)?,
                scope: scope.copy(alloc)?,
                mode,
                first: None,
                owed: false,
                installing: None,
                waiting: None,
                active: None,
            },
            key: key.copy(alloc)?,
        })
    }

    /// Adds a registration whose row was made, and gives its number. It takes no memory.
    #[tactic(auto, using(crate::proofs::Placed::kept_more, crate::proofs::Indexing::index_row))]
    pub fn make_put(&mut self, new: NewRegistration) -> u32
        requires { FitsRegistration new self.old }
        ensures put { self.new ≡ record {
          rows = self.old.rows ++ new ∷ [];
          spare = self.old.spare - 1;
        } }
        ensures number { result ≡ length self.old.rows }
    {
        let number = new.row.number;
        self.by_key.add(&self.rows, new.key);
        self.owed.add(new.row.owed);
        self.rows.push_reserved(new.row);
        self.spare -= 1;
        number
    }

    /// Adds a registration, which has no worker, and gives its number.
    pub fn make(
        &mut self,
        alloc: Global,
        key: &Text,
        scope: &Text,
        mode: Mode,
    ) -> Result<u32, NoMemory>
        ensures number { IfOk result (λ number. number ≡ length self.old.rows) }
        ensures made { OnOk result (self.new.rows ≡ self.old.rows
            ++ new_registration (length self.old.rows) key.now scope.now mode ∷ []) }
        ensures refused { OnErr result (self.new.rows ≡ self.old.rows) }
    {
        let new = self.make_row(alloc, key, scope, mode)?;
        Ok(self.make_put(new))
    }

    // Carries an edit out on the row of a registration, and counts it where it gets its first waiting worker. It takes no
    // memory.
    #[tactic(auto, using(crate::proofs::Placed::within, crate::proofs::Placed::row_edited, crate::proofs::Placed::countable))]
    fn edit(&mut self, id: u32, edit: Edit)
        requires { is_there id self.old.rows ≡ true }
        ensures { self.new ≡ record self.old {
          rows = changed (is_registration id) (edited edit) self.old.rows;
        } }
    {
        let place = id as usize;
        let row = &mut self.rows[place];
        let is_counted = carry_out(row, edit);
        self.owed.set(place, row.owed);
        if is_counted {
            self.firsts += 1;
        }
    }

    /// A worker becomes the installing one. It takes no memory.
    pub fn to_installing(&mut self, id: u32, worker: u32)
        requires { has_registration (λ row. is_none row.installing) id self.old.rows ≡ true }
        ensures { self.new ≡ record self.old {
          rows = changed (is_registration id) (with_installing worker) self.old.rows;
        } }
    {
        self.edit(id, Edit::Installing(worker));
    }

    /// The installing worker becomes the waiting one. A registration that gets its first waiting worker is numbered by how
    /// many have got one before. It takes no memory.
    pub fn to_waiting(&mut self, id: u32)
        requires { has_registration (λ row. is_some row.installing) id self.old.rows ≡ true }
        ensures { self.new ≡ record self.old {
          rows = changed (is_registration id) (with_waiting (firsts self.old.rows)) self.old.rows;
        } }
    {
        self.edit(id, Edit::Waiting(self.firsts));
    }

    /// The waiting worker becomes the active one. It takes no memory.
    pub fn to_active(&mut self, id: u32)
        requires { has_registration (λ row. is_some row.waiting) id self.old.rows ≡ true }
        ensures { self.new ≡ record self.old {
          rows = changed (is_registration id) with_active self.old.rows;
        } }
    {
        self.edit(id, Edit::Active);
    }

    /// A slot becomes empty. It takes no memory.
    pub fn leave(&mut self, id: u32, slot: Slot)
        requires { is_there id self.old.rows ≡ true }
        ensures { self.new ≡ record self.old {
          rows = changed (is_registration id) (without slot) self.old.rows;
        } }
    {
        self.edit(id, Edit::Leave(slot));
    }

    /// A registration gets this mode. It takes no memory.
    pub fn set_mode(&mut self, id: u32, mode: Mode)
        requires { is_there id self.old.rows ≡ true }
        ensures { self.new ≡ record self.old {
          rows = changed (is_registration id) (with_mode mode) self.old.rows;
        } }
    {
        self.edit(id, Edit::Mode(mode));
    }

    /// A registration is owed a Try Activate, or not. It takes no memory.
    pub fn owe(&mut self, id: u32, owed: bool)
        requires { is_there id self.old.rows ≡ true }
        ensures { self.new ≡ record self.old {
          rows = changed (is_registration id) (with_owed owed) self.old.rows;
        } }
    {
        self.edit(id, Edit::Owed(owed));
    }
}
