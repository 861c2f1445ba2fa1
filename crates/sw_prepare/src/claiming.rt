//! The durable changes of a claim (Service Workers, Clients, "claim()").

ghost use Rattle.std.specs.Prelude.{◌≡◌, ℕ, Bool, true, IfOk, Some, flat_map, option_map};
ghost use Rattle.sw_activate.specs.Claiming.{activation_change};
ghost use Rattle.sw_activate.specs.Names.{numbers_of};
ghost use Rattle.sw_client.specs.Table as clients_of_table;
ghost use Rattle.sw_rules.specs.Clients.{claim_clients};
ghost use Rattle.sw_rules.specs.Rows.{is_active};
ghost use Rattle.sw_tables.specs.Lent.{Rest, lent};
ghost use Rattle.sw_tables.specs.Linked.{HasSlots, Linked};
ghost use Rattle.sw_worker.specs.Table as workers_of_table;
ghost use Rattle.sw_worker.specs.Table.{worker_at};

use crate::kept::active_change;
use std::alloc::Global;
use sw_activate::claimed;
use sw_client::Clients;
use sw_data::{Change, NoMemory};
use sw_reg::Registrations;
use sw_scope::ScopeMap;
use sw_worker::Workers;

// The durable changes where the waiting workers of these registrations become the active ones, in order.
fn active_changes(
    alloc: Global,
    numbers: &[u32],
    map: &ScopeMap,
    registrations: &Registrations,
) -> Result<Vec<Change>, NoMemory>
    ensures { (of_workers : workers_of_table.Table) (of_clients : clients_of_table.Table)
        (rest : Rest) → HasSlots of_workers registrations.now → IfOk result (λ changes.
        changes.items ≡ flat_map (activation_change
        (lent map.now of_workers registrations.now of_clients rest)) numbers.now) }
{
    let mut changes = Vec::new(alloc);
    for number in numbers {
        let mut more = active_change(alloc, *number, map, registrations)?;
        changes.append(&mut more)?;
    }
    Ok(changes)
}

// The durable changes of a claim by an active worker of a registration: those of the registrations that it activates.
pub(crate) fn claim_changes(
    alloc: Global,
    worker: u32,
    map: &ScopeMap,
    workers: &Workers,
    registrations: &Registrations,
    clients: &Clients,
) -> Result<Vec<Change>, NoMemory>
    requires linked { Linked map.now workers.now registrations.now clients.now }
    ensures { (rest : Rest) (registration : ℕ) → option_map {U = ℕ × Bool}
        (λ row. (row.registration, is_active row.state)) (worker_at worker workers.now.rows)
        ≡ Some (registration, true) → IfOk result (λ changes. changes.items ≡ (claim_clients
        (lent map.now workers.now registrations.now clients.now rest) worker registration
        (numbers_of clients.now)).changes) }
{
    let numbers = claimed(alloc, worker, map, workers, registrations, clients)?;
    active_changes(alloc, &numbers, map, registrations)
}
