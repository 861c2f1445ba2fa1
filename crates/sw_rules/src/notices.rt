//! The notices of one event, in a list whose room is made before.

ghost use Rattle.std.specs.Prelude.{◌≡◌, ◌++◌, ◌+◌, ◌<◌, ◌≤◌, ◌∷◌, [], IfOk};

use std::alloc::Global;
use std::marker::Model;
use sw_data::{Items, NoMemory, Notice};

/// The notices of one event, in the order of its steps. A notice is added without memory where there is room.
#[derive(Drop)]
pub struct Notices {
    rows: Vec<Notice>,
}

impl Model for Notices {
    ghost use Rattle.std.specs.Prelude.{◌-◌};
    ghost use Rattle.std.specs.Vec.{vec_len, vec_capacity};
    ghost use Rattle.sw_rules.specs.Noticing.{NoticeList};

    ghost Value = { NoticeList };

    ghost view = { λ n. record { rows = n.rows.items; spare = vec_capacity n.rows - vec_len n.rows } };
}

impl Notices {
    /// No notices, with room for so many.
    pub fn with_room(alloc: Global, length: usize) -> Result<Notices, NoMemory>
        ensures empty { IfOk result (λ notices. notices.rows ≡ []) }
        ensures room { IfOk result (λ notices. length ≤ notices.spare) }
    {
        Ok(Notices {
            rows: Vec::with_capacity(alloc, length)?,
        })
    }

    /// Adds a notice at the end. It takes no memory.
    pub fn push(&mut self, notice: Notice)
        requires { 0 < self.old.spare }
        ensures rows { self.new.rows ≡ self.old.rows ++ notice ∷ [] }
        ensures room { self.new.spare + 1 ≡ self.old.spare }
    {
        self.rows.push_reserved(notice);
    }

    /// The notices, in order; it takes no memory.
    pub fn into_items(self) -> Items<Notice>
        ensures { result ≡ self.rows }
    {
        Items::from_vec(self.rows)
    }
}
