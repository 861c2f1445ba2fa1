//! The promises of the lanes' actions.

ghost use Rattle.std.specs.Prelude.{◌≡◌, ◌≤◌, ◌<◌, ◌++◌, ◌∷◌, [], find, option_map, IfOk};
ghost use Rattle.sw_rules.specs.Rows.{is_promise, without};
ghost use Rattle.sw_ledgers.specs.Promised.{meaning};

use indexmap::IndexMap;
use std::alloc::Global;
use std::marker::Model;
use sw_data::{NoMemory, Settlement};

/// What a promise waits for, or its value.
#[derive(Debug, Clone, Copy, PartialEq, Eq)]
pub enum Awaited {
    Value(Settlement),
    Job(u32),
    Task(u32),
}

/// The promise of each action, by its lane and its position there; the one that was made last stands last.
#[derive(Drop)]
pub struct Promises {
    awaited: IndexMap<(u32, u32), Awaited>,
}

impl Model for Promises {
    ghost use Rattle.indexmap.specs.IndexMap.{spare};
    ghost use Rattle.sw_ledgers.specs.Promised.{Table, rows_of};

    ghost Value = { Table };

    ghost view = { λ promises. record {
      rows = rows_of promises.awaited.entries;
      spare = spare promises.awaited;
    } };
}

/// A promise that isn't in the table yet.
#[derive(Debug, Drop)]
pub struct NewPromise {
    place: (u32, u32),
    awaited: Awaited,
}

impl Model for NewPromise {
    ghost use Rattle.sw_rules.specs.State.{Promise};
    ghost use Rattle.sw_ledgers.specs.Promised.{row_of};

    ghost Value = { Promise };

    ghost view = { λ new. row_of (new.place, new.awaited) };
}

impl Promises {
    /// No promises. It takes no memory.
    pub fn new(alloc: Global) -> Promises
        ensures { result.rows ≡ [] }
    {
        Promises {
            awaited: IndexMap::new(alloc),
        }
    }

    /// What the promise of a lane's action waits for, or its value. It takes no memory.
    pub fn awaited(&self, lane: u32, at: u32) -> Option<Awaited>
        ensures { option_map meaning result
            ≡ option_map (λ row. row.awaited) (find (is_promise lane at) self.now.rows) }
    {
        self.awaited.get(&(lane, at)).copied()
    }

    /// Makes room for the promise of a lane's action.
    pub fn promise_row(
        &mut self,
        lane: u32,
        at: u32,
        awaited: Awaited,
    ) -> Result<NewPromise, NoMemory>
        ensures same { self.new.rows ≡ self.old.rows }
        ensures room { self.old.spare ≤ self.new.spare }
        ensures row { IfOk result (λ new. new
            ≡ record { lane = lane; at = at; awaited = meaning awaited }) }
        ensures fits { IfOk result (λ new. 0 < self.new.spare) }
    {
        self.awaited.reserve(1)?;
        Ok(NewPromise {
            place: (lane, at),
            awaited,
        })
    }

    /// Puts a promise in the place of an earlier one of its lane and position; it stands last. It takes no memory.
    pub fn promise_put(&mut self, row: NewPromise)
        requires { 0 < self.old.spare }
        ensures { self.new.rows ≡ without (is_promise row.lane row.at) self.old.rows ++ row ∷ [] }
    {
        // What `len` ensures tells the proof that no place stands twice.
        let _many = self.awaited.len();
        let _ = self.awaited.shift_remove(&row.place);
        let _ = self.awaited.insert(row.place, row.awaited);
    }
}
