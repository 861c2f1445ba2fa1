//! Copies of rows, of their index by key and of their flags.

ghost use Rattle.std.specs.Prelude.{◌≡◌, ◌+◌, ◌<◌, ◌^◌, IfOk, OnOk, length, map, take};
ghost use Rattle.sw_reg.specs.ByKey.{IsIndex, keys_of};

use crate::by_key::ByKey;
use std::alloc::Global;
use sw_data::{NoMemory, RegistrationRow};
use sw_list::Flags;

fn copy_row(alloc: Global, row: &RegistrationRow) -> Result<RegistrationRow, NoMemory>
    ensures { IfOk result (λ copy. copy ≡ row.now) }
{
    Ok(RegistrationRow {
        number: row.number,
        key: row.key.copy(alloc)?,
        scope: row.scope.copy(alloc)?,
        mode: row.mode,
        first: row.first,
        owed: row.owed,
        installing: row.installing,
        waiting: row.waiting,
        active: row.active,
    })
}

// Rows of their own that equal these.
pub(crate) fn copy_rows(
    alloc: Global,
    rows: &[RegistrationRow],
) -> Result<Vec<RegistrationRow>, NoMemory>
    ensures { IfOk result (λ copy. copy.items ≡ rows.now) }
{
    let mut copy = Vec::new(alloc);
    for row in rows {
        copy.push(copy_row(alloc, row)?)?;
    }
    Ok(copy)
}

// The row at a place comes into the index of those before it.
fn add_row(
    alloc: Global,
    rows: &[RegistrationRow],
    place: usize,
    index: &mut ByKey,
) -> Result<(), NoMemory>
    requires place { place < length rows.now }
    requires few { length rows.now < 2 ^ 32 }
    requires index { IsIndex (keys_of (take place rows.now)) index.old }
    ensures { OnOk result (IsIndex (keys_of (take (place + 1) rows.now)) index.new) }
{
    index.make_room()?;
    let key = rows[place].key.copy(alloc)?;
    index.add(rows.split_at(place).0, key);
    Ok(())
}

// The index of these rows by key.
pub(crate) fn index_of(alloc: Global, rows: &[RegistrationRow]) -> Result<ByKey, NoMemory>
    requires { length rows.now < 2 ^ 32 }
    ensures { IfOk result (λ index. IsIndex (keys_of rows.now) index) }
{
    let mut index = ByKey::new(alloc);
    for place in 0..rows.len() {
        add_row(alloc, rows, place, &mut index)?;
    }
    Ok(index)
}

// Which of these rows are owed a Try Activate.
pub(crate) fn owed_of(alloc: Global, rows: &[RegistrationRow]) -> Result<Flags, NoMemory>
    ensures { IfOk result (λ owed. owed.flags ≡ map (λ row. row.owed) rows.now) }
{
    let mut owed = Flags::new(alloc);
    for row in rows {
        owed.make_room()?;
        owed.add(row.owed);
    }
    Ok(owed)
}
