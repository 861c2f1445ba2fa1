//! What becomes of the row of a registration.

ghost use Rattle.std.specs.Prelude.{◌≡◌, ◌&&◌, not};
ghost use Rattle.sw_reg.specs.Edits.{edited};
ghost use Rattle.sw_reg.specs.Table.{has_first};

use sw_data::{Mode, RegistrationRow, Slot};

// What a call does to the row of a registration.
#[derive(Debug, Clone, Copy)]
pub(crate) enum Edit {
    /// This worker becomes the installing one.
    Installing(u32),
    /// The installing worker becomes the waiting one; the number is that of a registration which gets its first.
    Waiting(u32),
    /// The waiting worker becomes the active one.
    Active,
    /// There is no worker in this slot any more.
    Leave(Slot),
    Mode(Mode),
    /// It is owed a Try Activate, or not.
    Owed(bool),
}

// Carries an edit out on a row, and tells whether the registration has got its first waiting worker. It takes no memory.
pub(crate) fn carry_out(row: &mut RegistrationRow, edit: Edit) -> bool
    ensures row { row.new ≡ edited edit row.old }
    ensures first { result ≡ (not (has_first row.old) && has_first row.new) }
{
    let had = row.first.is_some();
    match edit {
        Edit::Installing(worker) => row.installing = Some(worker),
        Edit::Waiting(number) => {
            row.first = row.first.or(Some(number));
            row.waiting = row.installing.take();
        }
        Edit::Active => row.active = row.waiting.take(),
        Edit::Leave(Slot::Installing) => row.installing = None,
        Edit::Leave(Slot::Waiting) => row.waiting = None,
        Edit::Leave(Slot::Active) => row.active = None,
        Edit::Mode(mode) => row.mode = mode,
        Edit::Owed(owed) => row.owed = owed,
    }
    !had && row.first.is_some()
}
