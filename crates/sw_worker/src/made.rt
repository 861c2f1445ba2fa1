//! Rows that were made and aren't in the table yet, and the refusals of its calls.

ghost use Rattle.std.specs.Prelude.{◌≡◌};

use std::marker::Model;
use sw_data::WorkerRow;

/// A finished row of a worker, which isn't in the table yet.
#[derive(Drop)]
pub struct NewWorker {
    pub(crate) row: WorkerRow,
}

impl Model for NewWorker {
    ghost use Rattle.sw_data.specs.declared.rows.WorkerRow.{WorkerRow};
    ghost use Rattle.sw_worker.specs.Kept.{Counts};

    ghost Value = { WorkerRow };

    ghost view = { λ new. new.row };

    ghost invariant = { λ new. Counts new.row };
}

impl NewWorker {
    /// The number that the worker will have. It takes no memory.
    pub fn number(&self) -> u32
        ensures { result ≡ self.now.number }
    {
        self.row.number
    }
}

/// A finished fetch event, which isn't in the table yet.
#[derive(Debug, Drop)]
pub struct NewEvent {
    pub(crate) number: u32,
    pub(crate) worker: u32,
}

impl Model for NewEvent {
    ghost use Rattle.sw_rules.specs.State.{FetchEvent};

    ghost Value = { FetchEvent };

    ghost view = { λ new. record { number = new.number; worker = new.worker } };
}

/// A worker may not go from its state to the one that is wanted.
#[derive(Debug, Clone, Copy, PartialEq, Eq)]
pub struct WrongState;

/// No fetch event of this number is pending.
#[derive(Debug, Clone, Copy, PartialEq, Eq)]
pub struct NoEvent;

/// Why a fetch event doesn't begin.
#[derive(Debug, Clone, Copy, PartialEq, Eq)]
pub enum BeginFault {
    /// The worker isn't activated.
    NotActive,
    /// A fetch event of this number is pending.
    InUse,
    NoMemory,
}
