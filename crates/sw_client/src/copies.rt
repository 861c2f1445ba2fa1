//! Copies of clients, of their counts and of the tally of their keys.

ghost use Rattle.std.specs.Prelude.{◌≡◌, ◌+◌, ◌<◌, IfOk, OnOk, length, take};
ghost use Rattle.std.specs.Map.{values_of};
ghost use Rattle.sw_client.specs.Keyed.{IsKeyed};
ghost use Rattle.sw_client.specs.Table.{is_of};
ghost use Rattle.sw_list.specs.Tally.{Tallies};

use crate::OpenClient;
use std::alloc::Global;
use sw_data::{ClientRow, NoMemory};
use sw_list::{Ordered, Tally};

fn copy_row(alloc: Global, row: &OpenClient) -> Result<OpenClient, NoMemory>
    ensures { IfOk result (λ copy. copy ≡ row.now) }
{
    Ok(OpenClient {
        client: ClientRow {
            number: row.client.number,
            url: row.client.url.copy(alloc)?,
            key: row.client.key.copy(alloc)?,
            secure: row.client.secure,
            controller: row.client.controller,
        },
        registration: row.registration,
    })
}

// Adds a copy of the client at a place, where those before it were copied.
fn copy_at(
    alloc: Global,
    place: usize,
    rows: &Ordered<OpenClient>,
    copy: &mut Ordered<OpenClient>,
) -> Result<(), NoMemory>
    requires keyed { IsKeyed (λ row. row.client.number) rows.now.entries }
    requires place { place < length rows.now.entries }
    requires before { copy.old.entries ≡ take place rows.now.entries }
    requires room { 0 < copy.old.spare }
    ensures { OnOk result (copy.new.entries ≡ take (place + 1) rows.now.entries) }
{
    match rows.at(place) {
        Some(row) => {
            let row = copy_row(alloc, row)?;
            copy.add(row.client.number, row);
            Ok(())
        }
        None => Ok(()),
    }
}

// Clients of their own that equal these.
pub(crate) fn copy_rows(
    alloc: Global,
    rows: &Ordered<OpenClient>,
) -> Result<Ordered<OpenClient>, NoMemory>
    requires { IsKeyed (λ row. row.client.number) rows.now.entries }
    ensures { IfOk result (λ copy. copy.entries ≡ rows.now.entries) }
{
    let mut copy = Ordered::new(alloc);
    for place in 0..rows.len() {
        copy.make_room()?;
        copy_at(alloc, place, rows, &mut copy)?;
    }
    Ok(copy)
}

// Counts of their own that equal these.
pub(crate) fn copy_counts(alloc: Global, counts: &[u32]) -> Result<Vec<u32>, NoMemory>
    ensures { IfOk result (λ copy. copy.items ≡ counts.now) }
{
    let mut copy = Vec::new(alloc);
    copy.extend_from_slice(counts)?;
    Ok(copy)
}

// The key of the client at a place comes into the tally of those before it.
fn add_key(
    alloc: Global,
    place: usize,
    rows: &Ordered<OpenClient>,
    keys: &mut Tally,
) -> Result<(), NoMemory>
    requires place { place < length rows.now.entries }
    requires before { Tallies is_of (take place (values_of rows.now.entries)) keys.old }
    ensures { OnOk result (Tallies is_of (take (place + 1) (values_of rows.now.entries)) keys.new) }
{
    match rows.at(place) {
        Some(row) => {
            let key = row.client.key.copy(alloc)?;
            keys.make_room()?;
            keys.add(key);
            Ok(())
        }
        None => Ok(()),
    }
}

// The tally of the keys of these clients.
pub(crate) fn keys_of(alloc: Global, rows: &Ordered<OpenClient>) -> Result<Tally, NoMemory>
    ensures { IfOk result (λ keys. Tallies is_of (values_of rows.now.entries) keys) }
{
    let mut keys = Tally::new(alloc);
    for place in 0..rows.len() {
        add_key(alloc, place, rows, &mut keys)?;
    }
    Ok(keys)
}
