//! Copies of rows, of their flags and of the fetch events that are pending on them.

ghost use Rattle.std.specs.Prelude.{◌≡◌, ◌+◌, ◌<◌, IfOk, length, map, nat_eq, take};
ghost use Rattle.std.specs.List.{IsDistinct};
ghost use Rattle.std.specs.Map.{keys_of};
ghost use Rattle.sw_worker.specs.Table.{runs_activate};

use crate::workers::runs_activate;
use std::alloc::Global;
use sw_data::{NoMemory, WorkerRow};
use sw_list::{Flags, Ordered};

fn copy_row(alloc: Global, row: &WorkerRow) -> Result<WorkerRow, NoMemory>
    ensures { IfOk result (λ copy. copy ≡ row.now) }
{
    Ok(WorkerRow {
        number: row.number,
        registration: row.registration,
        script: row.script.copy(alloc)?,
        kind: row.kind,
        body: row.body.share()?,
        state: row.state,
        skip_waiting: row.skip_waiting,
        fetch: row.fetch,
        handlers: row.handlers.share()?,
        handler: row.handler,
    })
}

// Rows of their own that equal these.
pub(crate) fn copy_rows(alloc: Global, rows: &[WorkerRow]) -> Result<Vec<WorkerRow>, NoMemory>
    ensures { IfOk result (λ copy. copy.items ≡ rows.now) }
{
    let mut copy = Vec::new(alloc);
    for row in rows {
        copy.push(copy_row(alloc, row)?)?;
    }
    Ok(copy)
}

// On which of these workers a handler of phase activate runs.
pub(crate) fn activating_of(alloc: Global, rows: &[WorkerRow]) -> Result<Flags, NoMemory>
    ensures { IfOk result (λ activating. activating.flags ≡ map runs_activate rows.now) }
{
    let mut activating = Flags::new(alloc);
    for row in rows {
        activating.make_room()?;
        activating.add(runs_activate(row));
    }
    Ok(activating)
}

// Counts of their own that equal these.
pub(crate) fn copy_counts(alloc: Global, counts: &[u64]) -> Result<Vec<u64>, NoMemory>
    ensures { IfOk result (λ copy. copy.items ≡ counts.now) }
{
    let mut copy = Vec::new(alloc);
    copy.extend_from_slice(counts)?;
    Ok(copy)
}

// Adds the event at a place, where those before it were copied.
fn copy_event(place: usize, events: &Ordered<u32>, copy: &mut Ordered<u32>)
    requires apart { IsDistinct nat_eq (keys_of events.now.entries) }
    requires place { place < length events.now.entries }
    requires before { copy.old.entries ≡ take place events.now.entries }
    requires room { 0 < copy.old.spare }
    ensures { copy.new.entries ≡ take (place + 1) events.now.entries }
{
    match events.number(place) {
        Some(event) => match events.at(place) {
            Some(worker) => copy.add(event, *worker),
            None => {}
        },
        None => {}
    }
}

// The same events on the same workers.
pub(crate) fn copy_events(alloc: Global, events: &Ordered<u32>) -> Result<Ordered<u32>, NoMemory>
    requires { IsDistinct nat_eq (keys_of events.now.entries) }
    ensures { IfOk result (λ copy. copy.entries ≡ events.now.entries) }
{
    let mut copy = Ordered::new(alloc);
    for place in 0..events.len() {
        copy.make_room()?;
        copy_event(place, events, &mut copy);
    }
    Ok(copy)
}
