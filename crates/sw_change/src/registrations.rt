//! The table of kept registrations, by key and scope, in order of making.

ghost use Rattle.std.specs.Prelude.{◌≡◌, ◌++◌, ◌∷◌, [], false, not, map, filter, bytes_eq, IfOk, OnOk, OnErr};
ghost use Rattle.std.specs.List.{list_any};
ghost use Rattle.sw_rules.specs.Storage.{is_registration, with_registration, with_waiting, promoted};
ghost use Rattle.sw_change.specs.Table.{edited, kept_row};

use crate::registration::{Edit, Registration};
use std::alloc::Global;
use std::marker::Model;
use sw_data::{KeptRegistration, KeptWorker, Mode, NoMemory, Text};
use sw_list::Named;

// The kept registrations, found by key and scope.
#[derive(Drop)]
pub(crate) struct Registrations {
    rows: Named<Registration>,
}

impl Model for Registrations {
    ghost use Rattle.std.specs.Prelude.{List};
    ghost use Rattle.std.specs.List.{IsDistinct};
    ghost use Rattle.std.specs.Map.{keys_of};
    ghost use Rattle.sw_data.specs.declared.storage.KeptRegistration.{KeptRegistration};
    ghost use Rattle.sw_change.specs.Table.{is_same, kept_rows};

    ghost Value = { List KeptRegistration };

    ghost view = { λ table. kept_rows table.rows.rows };

    ghost invariant = { λ table. IsDistinct is_same (keys_of table.rows.rows) };
}

impl Registrations {
    // No registration; it takes no memory.
    pub(crate) fn new(alloc: Global) -> Registrations
        ensures { result ≡ [] }
    {
        Registrations {
            rows: Named::new(alloc),
        }
    }

    // The registrations as they are kept, in order of making.
    pub(crate) fn into_rows(self, alloc: Global) -> Result<Vec<KeptRegistration>, NoMemory>
        ensures { IfOk result (λ rows. rows.items ≡ self) }
    {
        let mut rows = Vec::new(alloc);
        for row in self.rows.into_rows(alloc)? {
            rows.push(row.value.into_row(row.key, row.name))?;
        }
        Ok(rows)
    }

    // The registrations as they are kept, as a list of its own.
    pub(crate) fn to_rows(&self, alloc: Global) -> Result<Vec<KeptRegistration>, NoMemory>
        ensures { IfOk result (λ rows. rows.items ≡ self.now) }
    {
        let mut rows = Vec::new(alloc);
        for place in 0..self.rows.len() {
            let row = self.rows.row(place);
            rows.push(row.value.to_row(alloc, &row.key, &row.name)?)?;
        }
        Ok(rows)
    }

    // Whether a registration is there; it takes no memory.
    fn has(&self, place: &(Text, Text)) -> bool
        ensures { result ≡ list_any (is_registration place.now.0 place.now.1) self.now }
    {
        self.rows.place(&place.0, &place.1).is_some()
    }

    // Carries an edit out where the registration is there; it takes no memory.
    pub(crate) fn edit(&mut self, place: &(Text, Text), edit: Edit)
        ensures { self.new ≡ with_registration place.now.0 place.now.1 (edited edit) self.old }
    {
        if let Some(at) = self.rows.place(&place.0, &place.1) {
            self.rows.value_mut(at).edit(edit);
        }
    }

    // Adds a registration, which isn't there.
    fn add(&mut self, place: (Text, Text), row: Registration) -> Result<(), NoMemory>
        requires { list_any (is_registration place.0 place.1) self.old ≡ false }
        ensures ok { OnOk result (self.new ≡ self.old ++ kept_row (place, row) ∷ []) }
        ensures err { OnErr result (self.new ≡ self.old) }
    {
        let (key, scope) = place;
        let new = self.rows.make_row(key, scope)?;
        self.rows.put(new, row);
        Ok(())
    }

    // Gives a registration this mode and this waiting worker, and adds it where it isn't there.
    pub(crate) fn set_waiting(
        &mut self,
        alloc: Global,
        place: (Text, Text),
        mode: Mode,
        worker: KeptWorker,
    ) -> Result<(), NoMemory>
        ensures ok { OnOk result (self.new ≡ with_waiting place.0 place.1 mode worker self.old) }
        ensures err { OnErr result (self.new ≡ self.old) }
    {
        if self.has(&place) {
            self.edit(&place, Edit::Waiting { mode, worker });
            return Ok(());
        }
        let row = Registration::first(alloc, mode, worker)?;
        self.add(place, row)
    }

    // Removes a registration; it takes no memory.
    pub(crate) fn remove(&mut self, place: &(Text, Text))
        ensures { self.new
            ≡ filter (λ row. not (is_registration place.now.0 place.now.1 row)) self.old }
    {
        self.rows.remove_named(&place.0, &place.1);
    }

    // Removes the registrations of a key; it takes no memory.
    pub(crate) fn remove_key(&mut self, key: &Text)
        ensures { self.new ≡ filter (λ row. not (bytes_eq row.key key.now)) self.old }
    {
        self.rows.remove_key(key);
    }

    // Each waiting worker becomes the active one; it takes no memory.
    pub(crate) fn restarted(&mut self)
        ensures { self.new ≡ map promoted self.old }
    {
        for place in 0..self.rows.len() {
            self.rows.value_mut(place).promote();
        }
    }
}
