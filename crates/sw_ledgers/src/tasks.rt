//! The addAlls, by their numbers.

ghost use Rattle.std.specs.Prelude.{◌≡◌, ◌≤◌, ◌++◌, ◌∷◌, ◌-◌, ◌&&◌, [], true, bytes_eq, drop, find, length, is_none, map, Some, None, option_map, IfOk};
ghost use Rattle.std.specs.List.{list_any, range_with_len};
ghost use Rattle.std.specs.Option.{option_copied};
ghost use Rattle.sw_rules.specs.Rows.{changed, is_task};
ghost use Rattle.sw_ledgers.specs.Tasks.{FitsTask, has_task, row_of};

use std::alloc::Global;
use std::marker::Model;
use sw_data::{Items, NoMemory, Request, Settlement, Text, Who};
use sw_list::{Flags, Tally};

/// An addAll, with its value where it has settled.
#[derive(Drop)]
pub struct TaskRow {
    pub number: u32,
    pub maker: Who,
    pub key: Text,
    pub name: Text,
    pub requests: Items<Request>,
    /// The drawn numbers of its fetches, in the order of its requests.
    pub fetches: Items<u32>,
    pub settled: Option<Settlement>,
}

/// The addAlls in order of making, where an addAll's number is its place. The hash of a key is fixed, so keys can be
/// chosen that collide.
#[derive(Drop)]
pub struct Tasks {
    rows: Vec<TaskRow>,
    // Which of them have not settled.
    unsettled: Flags,
    // The keys of those.
    keys: Tally,
}

impl Model for Tasks {
    ghost use Rattle.std.specs.Prelude.{◌-◌, map, min};
    ghost use Rattle.std.specs.Vec.{vec_len, vec_capacity};
    ghost use Rattle.sw_ledgers.specs.Tasks.{TellsUnsettled, Table, row_of};

    ghost Value = { Table };

    ghost view = { λ tasks. record {
      rows = map row_of tasks.rows.items;
      spare = min (min (vec_capacity tasks.rows - vec_len tasks.rows) tasks.unsettled.spare)
          tasks.keys.spare;
    } };

    ghost invariant = { λ tasks. TellsUnsettled tasks.rows.items tasks.unsettled.flags tasks.keys };
}

/// A finished row of an addAll, which isn't in the table yet.
#[derive(Drop)]
pub struct NewTask {
    row: TaskRow,
    // A copy of its key, for the tally.
    key: Text,
}

impl Model for NewTask {
    ghost use Rattle.sw_rules.specs.State.{AddAll};
    ghost use Rattle.sw_ledgers.specs.Tasks.{IsNewTask, row_of};

    ghost Value = { AddAll };

    ghost view = { λ new. row_of new.row };

    ghost invariant = { λ new. IsNewTask new.row new.key };
}

impl NewTask {
    /// The number that the addAll will have. It takes no memory.
    pub fn number(&self) -> u32
        ensures { result ≡ self.now.number }
    {
        self.row.number
    }

    /// The same addAll with these numbers of its fetches. It takes no memory.
    pub fn with_fetches(self, fetches: Items<u32>) -> NewTask
        ensures { result ≡ record self { fetches = fetches } }
    {
        let NewTask { mut row, key } = self;
        row.fetches = fetches;
        NewTask { row, key }
    }
}

impl Tasks {
    /// No addAlls. It takes no memory.
    pub fn new(alloc: Global) -> Tasks
        ensures { result.rows ≡ [] }
    {
        Tasks {
            rows: Vec::new(alloc),
            unsettled: Flags::new(alloc),
            keys: Tally::new(alloc),
        }
    }

    /// How many addAlls there are. It takes no memory.
    #[tactic(auto, using(crate::proofs::Tasking::many_rows))]
    pub fn len(&self) -> u32
        ensures { result ≡ length self.now.rows }
    {
        self.rows.len() as u32
    }

    /// The rows of all addAlls, by their numbers. It takes no memory.
    pub fn rows(&self) -> &[TaskRow]
        ensures { map row_of result.now ≡ self.now.rows }
    {
        &self.rows
    }

    /// Each addAll stands at its number.
    #[tactic(auto, using(crate::proofs::Tasking::numbers_are_places))]
    pub fn are_numbered(&self)
        ensures { map (λ row. row.number) self.now.rows
            ≡ range_with_len 0 (length self.now.rows) }
    {
        let _ = &self.rows;
    }

    /// The row of an addAll. It takes no memory.
    #[tactic(auto, using(crate::proofs::Tasking::row_here, crate::proofs::Tasking::row_gone))]
    pub fn row(&self, task: u32) -> Option<&TaskRow>
        ensures { option_map row_of (option_copied result) ≡ find (is_task task) self.now.rows }
    {
        let place = task as usize;
        if place < self.rows.len() {
            Some(&self.rows[place])
        } else {
            None
        }
    }

    /// The first addAll at or behind a number that has not settled. It takes no memory, and time in the number of the
    /// blocks of flags and in the length of two of them.
    #[tactic(auto, using(crate::proofs::Tasking::next_found))]
    pub fn next_unsettled(&self, from: u32) -> Option<&TaskRow>
        ensures { option_map row_of (option_copied result)
            ≡ find (λ row. is_none row.settled) (drop from self.now.rows) }
    {
        self.unsettled.first_row(&self.rows, from as usize)
    }

    /// Whether an addAll of a key has not settled. It takes no memory.
    pub fn has_unsettled_of(&self, key: &Text) -> bool
        ensures { result ≡ list_any (λ row. is_none row.settled && bytes_eq row.key key.now)
            self.now.rows }
    {
        self.keys.has(key)
    }

    /// Makes room for an addAll, and its row.
    #[tactic(auto, using(crate::proofs::Tasking::many_rows))]
    pub fn make_row(
        &mut self,
        alloc: Global,
        maker: Who,
        key: &Text,
        name: &Text,
        requests: Items<Request>,
        fetches: Items<u32>,
    ) -> Result<NewTask, NoMemory>
        ensures same { self.new.rows ≡ self.old.rows }
        ensures room { self.old.spare ≤ self.new.spare }
        ensures row { IfOk result (λ new. new ≡ record {
          number = length self.old.rows;
          maker = maker;
          key = key.now;
          name = name.now;
          requests = requests;
          fetches = fetches;
          settled = None;
        }) }
        ensures fits { IfOk result (λ new. FitsTask new self.new) }
    {
        let number = match u32::try_from(self.rows.len()) {
            Ok(number) if number < u32::MAX => number,
            _ => return Err(NoMemory),
        };
        self.rows.reserve(1)?;
        self.unsettled.make_room()?;
        self.keys.make_room()?;
        Ok(NewTask {
            row: TaskRow {
                number,
                maker,
                key: key.copy(alloc)?,
                name: name.copy(alloc)?,
                requests,
                fetches,
                settled: None,
            },
            key: key.copy(alloc)?,
        })
    }

    /// Adds an addAll whose row was made, and gives its number. It takes no memory.
    #[tactic(auto, using(crate::proofs::Tasking::kept_more, crate::proofs::Tasking::rows_more))]
    pub fn make_put(&mut self, row: NewTask) -> u32
        requires { FitsTask row self.old }
        ensures put { self.new ≡ record {
          rows = self.old.rows ++ row ∷ [];
          spare = self.old.spare - 1;
        } }
        ensures number { result ≡ length self.old.rows }
    {
        let number = row.row.number;
        self.unsettled.add(true);
        self.keys.add(row.key);
        self.rows.push_reserved(row.row);
        number
    }

    /// An addAll that has not settled gets its value, and it alone: its number is its place. It takes no memory.
    #[tactic(auto, using(crate::proofs::Tasking::within))]
    pub fn settle(&mut self, task: u32, value: Settlement)
        requires { has_task (λ row. is_none row.settled) task self.old.rows ≡ true }
        ensures rows { self.new ≡ record self.old {
          rows = changed (is_task task) (λ row. record row { settled = Some value }) self.old.rows;
        } }
        ensures places { map (λ row. row.number) self.old.rows
            ≡ range_with_len 0 (length self.old.rows) }
    {
        let place = task as usize;
        let row = &mut self.rows[place];
        row.settled = Some(value);
        self.keys.take(&row.key);
        self.unsettled.set(place, false);
    }
}
