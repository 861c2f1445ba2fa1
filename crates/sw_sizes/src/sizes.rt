//! The bytes of the kept registrations, from change to change.

ghost use Rattle.std.specs.Prelude.{◌≡◌, ◌++◌, ◌∷◌, ◌<◌, [], MatchOption, Some, false, not, filter, length, map, slice_get, OnOk, IfOk};
ghost use Rattle.std.specs.List.{list_any};
ghost use Rattle.std.specs.Option.{IfSome};
ghost use Rattle.sw_data.specs.declared.storage.Kept.{Kept};
ghost use Rattle.sw_list.specs.Named.{is_at, is_of, values, with_value};
ghost use Rattle.sw_rules.specs.Storage.{applied, kept_after, nothing};
ghost use Rattle.sw_sizes.specs.Counted.{StandsAt, StandsNowhere};
ghost use Rattle.sw_sizes.specs.declared.row.Edit.TheVariants as Edit;
ghost use Rattle.sw_sizes.specs.Rows.{ArePartsOf, edited, noted, preload_size, rows_bytes, with_parts, with_waiting, worker_size};
ghost use Rattle.sw_sizes.specs.Usage.{registration_bytes, registrations_of, usage, usage_of};

use crate::row::{Edit, Parts, names_size, preload_size, sum, worker_size};
use crate::sums::Sums;
use std::alloc::Global;
use std::marker::Model;
use sw_caches::Caches;
use sw_data::{Change, KeptWorker, NoMemory, Text};
use sw_list::Named;

/// The bytes of the registrations of a content, of each key and in all. An index finds a registration, and each change
/// costs what it touches.
#[derive(Drop)]
pub struct Sizes {
    rows: Named<Parts>,
    sums: Sums,
}

impl Model for Sizes {
    ghost use Rattle.std.specs.Prelude.{List};
    ghost use Rattle.std.specs.List.{IsDistinct};
    ghost use Rattle.std.specs.Map.{keys_of};
    ghost use Rattle.sw_sizes.specs.Counted.{CountsSizes, is_same};
    ghost use Rattle.sw_sizes.specs.Rows.{Row};

    ghost Value = { List Row };

    ghost view = { λ sizes. sizes.rows.rows };

    ghost invariant = { λ sizes. CountsSizes sizes.rows.rows sizes.sums
        × IsDistinct is_same (keys_of sizes.rows.rows) };
}

impl Sizes {
    /// The bytes of nothing. It takes no memory.
    pub fn new(alloc: Global) -> Sizes
        ensures { ArePartsOf nothing result }
    {
        Sizes {
            rows: Named::new(alloc),
            sums: Sums::new(alloc),
        }
    }

    /// The bytes of all registrations. It takes no memory.
    pub fn bytes(&self) -> u64
        ensures { (kept : Kept) → ArePartsOf kept self.now
            → result ≡ registration_bytes kept.registrations }
    {
        self.sums.total
    }

    /// The bytes of the registrations of a key. It takes no memory.
    pub fn key_bytes(&self, key: &Text) -> u64
        ensures { (kept : Kept) → ArePartsOf kept self.now
            → result ≡ registration_bytes (registrations_of key.now kept.registrations) }
    {
        self.sums.of(key)
    }

    /// The usage of a content of these registrations and of these caches. It takes no memory.
    #[tactic(auto, using(crate::proofs::Totals::usage_weighs))]
    pub fn usage(&self, caches: &Caches) -> Result<u64, NoMemory>
        ensures { (kept : Kept) → ArePartsOf kept self.now → caches.now.rows ≡ kept.caches
            → IfOk result (λ bytes. bytes ≡ usage kept) }
    {
        sum(self.bytes(), caches.bytes())
    }

    /// The usage of a key of such a content. It takes no memory.
    #[tactic(auto, using(crate::proofs::Totals::usage_weighs))]
    pub fn key_usage(&self, caches: &Caches, key: &Text) -> Result<u64, NoMemory>
        ensures { (kept : Kept) → ArePartsOf kept self.now → caches.now.rows ≡ kept.caches
            → IfOk result (λ bytes. bytes ≡ usage_of key.now kept) }
    {
        sum(self.key_bytes(key), caches.key_bytes(key))
    }

    // How many registrations there are; it takes no memory.
    fn len(&self) -> usize
        ensures { result ≡ length self.now }
    {
        self.rows.len()
    }

    // The place of a registration, where it is there; it takes no memory.
    fn place(&self, key: &Text, scope: &Text) -> Option<usize>
        ensures low { IfSome result (λ at. at < length self.now) }
        ensures stands { MatchOption result (StandsNowhere key.now scope.now self.now)
            (StandsAt key.now scope.now self.now) }
    {
        self.rows.place(key, scope)
    }

    // The parts of the registration at a place; it takes no memory.
    fn parts_at(&self, at: usize) -> Parts
        requires { at < length self.now }
        ensures { slice_get (values self.now) at ≡ Some result }
    {
        self.rows.row(at).value
    }

    // The row at a place gets other parts.
    fn set(&mut self, alloc: Global, at: usize, parts: Parts) -> Result<(), NoMemory>
        requires { at < length self.old }
        ensures { OnOk result (self.new ≡ with_value at parts self.old) }
    {
        let row = self.rows.row(at);
        let before = row.value.bytes()?;
        let after = parts.bytes()?;
        self.sums.change(alloc, &row.key, before, after)?;
        *self.rows.value_mut(at) = parts;
        Ok(())
    }

    // Carries an edit out where the registration is there.
    fn edit(&mut self, alloc: Global, key: &Text, scope: &Text, edit: Edit) -> Result<(), NoMemory>
        ensures { OnOk result (self.new ≡ with_parts key.now scope.now (edited edit) self.old) }
    {
        match self.place(key, scope) {
            Some(at) => {
                let parts = self.parts_at(at).edited(edit);
                self.set(alloc, at, parts)
            }
            None => Ok(()),
        }
    }

    // Adds a registration that isn't there.
    fn add(&mut self, alloc: Global, key: &Text, scope: &Text, parts: Parts) -> Result<(), NoMemory>
        requires { list_any (is_at key.now scope.now) self.old ≡ false }
        ensures { OnOk result (self.new ≡ self.old ++ ((key.now, scope.now), parts) ∷ []) }
    {
        let bytes = parts.bytes()?;
        let new = self.rows.make_row(key.copy(alloc)?, scope.copy(alloc)?)?;
        self.sums.change(alloc, key, 0, bytes)?;
        self.rows.put(new, parts);
        Ok(())
    }

    // Whether a registration is there; it takes no memory.
    fn has(&self, key: &Text, scope: &Text) -> bool
        ensures { result ≡ list_any (is_at key.now scope.now) self.now }
    {
        self.rows.place(key, scope).is_some()
    }

    // A worker waits.
    fn note_waiting(
        &mut self,
        alloc: Global,
        key: &Text,
        scope: &Text,
        worker: &KeptWorker,
    ) -> Result<(), NoMemory>
        ensures { OnOk result (self.new
            ≡ with_waiting key.now scope.now (worker_size worker.now) self.old) }
    {
        let worker = worker_size(worker)?;
        if self.has(key, scope) {
            return self.edit(alloc, key, scope, Edit::Waiting { worker });
        }
        self.add(
            alloc,
            key,
            scope,
            Parts::first(names_size(key, scope)?, worker),
        )
    }

    // Takes out the rows of a key and a scope, which have so many bytes.
    fn take(&mut self, alloc: Global, key: &Text, scope: &Text, gone: u64) -> Result<(), NoMemory>
        requires { gone ≡ rows_bytes (filter (is_at key.now scope.now) self.old) }
        ensures { OnOk result (self.new
            ≡ filter (λ row. not (is_at key.now scope.now row)) self.old) }
    {
        self.sums.change(alloc, key, gone, 0)?;
        self.rows.remove_named(key, scope);
        Ok(())
    }

    // A registration is gone.
    fn remove(&mut self, alloc: Global, key: &Text, scope: &Text) -> Result<(), NoMemory>
        ensures { OnOk result (self.new
            ≡ filter (λ row. not (is_at key.now scope.now row)) self.old) }
    {
        match self.place(key, scope) {
            Some(at) => {
                let gone = self.parts_at(at).bytes()?;
                self.take(alloc, key, scope, gone)
            }
            None => Ok(()),
        }
    }

    // The registrations of a key are gone.
    fn remove_key(&mut self, alloc: Global, key: &Text) -> Result<(), NoMemory>
        ensures { OnOk result (self.new ≡ filter (λ row. not (is_of key.now row)) self.old) }
    {
        let gone = self.sums.of(key);
        self.sums.change(alloc, key, gone, 0)?;
        self.rows.remove_key(key);
        Ok(())
    }

    // Preload is switched, or its value is set.
    fn note_preload(
        &mut self,
        alloc: Global,
        key: &Text,
        scope: &Text,
        on: bool,
        value: &Text,
    ) -> Result<(), NoMemory>
        ensures { OnOk result (self.new ≡ with_parts key.now scope.now
            (edited (Edit.Preload (preload_size on value.now))) self.old) }
    {
        let value = preload_size(on, value)?;
        self.edit(alloc, key, scope, Edit::Preload { value })
    }

    // Each waiting worker becomes the active one.
    fn restart(&mut self, alloc: Global) -> Result<(), NoMemory>
        ensures { OnOk result (self.new
            ≡ map (λ row. (row.0, edited Edit.Active row.1)) self.old) }
    {
        for at in 0..self.len() {
            let parts = self.parts_at(at).edited(Edit::Active);
            self.set(alloc, at, parts)?;
        }
        Ok(())
    }

    // Carries a change out.
    fn carry_out(&mut self, alloc: Global, change: &Change) -> Result<(), NoMemory>
        ensures { OnOk result (self.new ≡ noted change.now self.old) }
    {
        match change {
            Change::Waiting {
                key,
                scope,
                worker,
                ..
            } => self.note_waiting(alloc, key, scope, worker),
            Change::Active { key, scope } => self.edit(alloc, key, scope, Edit::Active),
            Change::Activated { key, scope } => self.edit(alloc, key, scope, Edit::Activated),
            Change::Gone { key, scope } => self.remove(alloc, key, scope),
            Change::Forgot { key } => self.remove_key(alloc, key),
            Change::Restarted => self.restart(alloc),
            Change::Preload {
                key,
                scope,
                on,
                value,
            } => self.note_preload(alloc, key, scope, *on, value),
            _ => Ok(()),
        }
    }

    /// Notes a change: what had the bytes of a content has those of the content after the change. After want of memory it
    /// is of no further use.
    pub fn note(&mut self, alloc: Global, change: &Change) -> Result<(), NoMemory>
        ensures { OnOk result ((kept : Kept) → ArePartsOf kept self.old
            → ArePartsOf (applied kept change.now) self.new) }
    {
        self.carry_out(alloc, change)
    }

    /// Notes changes, one after the other. After want of memory it is of no further use.
    pub fn note_all(&mut self, alloc: Global, changes: &[Change]) -> Result<(), NoMemory>
        ensures { OnOk result ((kept : Kept) → ArePartsOf kept self.old
            → ArePartsOf (kept_after kept changes.now) self.new) }
    {
        for change in changes {
            self.note(alloc, change)?;
        }
        Ok(())
    }

    /// The bytes of the content that changes make of nothing.
    pub fn of_changes(alloc: Global, changes: &[Change]) -> Result<Sizes, NoMemory>
        ensures { IfOk result (ArePartsOf (kept_after nothing changes.now)) }
    {
        let mut sizes = Sizes::new(alloc);
        sizes.note_all(alloc, changes)?;
        Ok(sizes)
    }
}
