//! The tables of a host after a restart.

ghost use Rattle.std.specs.Prelude.{◌≡◌, [], Some, IfOk, OnOk};
ghost use Rattle.sw_data.specs.declared.storage.KeptWorker.{KeptWorker};
ghost use Rattle.sw_core.specs.Restored.{Restores, IsRestored, quiet_rest};
ghost use Rattle.sw_core.specs.Rows.{chosen_worker, is_activated};
ghost use Rattle.sw_rules.specs.Restart.{restart};
ghost use Rattle.sw_rules.specs.Storage.{IsMade};
ghost use Rattle.sw_tables.specs.Happened.{CountsTasks};
ghost use Rattle.sw_tables.specs.Lent.{lent};
ghost use Rattle.sw_tables.specs.Linked.{ArePlaces, Linked};

use crate::rows::{add_registration, restore_worker, set_preload};
use crate::tables::Restored;
use std::alloc::Global;
use sw_caches::Caches;
use sw_change::Content;
use sw_client::Clients;
use sw_data::{KeptRegistration, NoMemory};
use sw_ledgers::Preloads;
use sw_reg::Registrations;
use sw_scope::ScopeMap;
use sw_worker::Workers;

// No registrations, beside these caches. It takes no memory.
fn none_restored(alloc: Global, caches: Caches) -> Restored
    ensures restored { IsRestored [] result }
    ensures caches { result.caches ≡ caches }
{
    Restored {
        map: ScopeMap::new(alloc),
        workers: Workers::new(alloc),
        registrations: Registrations::new(alloc),
        clients: Clients::new(alloc),
        caches,
        preloads: Preloads::new(alloc),
    }
}

// Whether the worker of a kept registration is activated after a restart. It takes no memory.
fn stays_activated(row: &KeptRegistration) -> bool
    ensures { result ≡ is_activated row.now }
{
    row.activated && row.waiting.is_none()
}

// Adds a kept registration, which has a worker.
fn restore(alloc: Global, row: KeptRegistration, tables: &mut Restored) -> Result<(), NoMemory>
    requires workers { ArePlaces (λ row. row.number) tables.old.workers.rows }
    requires registrations { ArePlaces (λ row. row.number) tables.old.registrations.rows }
    ensures added { OnOk result ((worker : KeptWorker) → chosen_worker row ≡ Some worker
        → Restores row worker tables.old tables.new) }
    ensures caches { tables.new.caches ≡ tables.old.caches }
{
    let number = add_registration(
        alloc,
        &row.key,
        &row.scope,
        row.mode,
        &mut tables.map,
        &mut tables.registrations,
        &mut tables.clients,
    )?;
    set_preload(
        alloc,
        number,
        row.preload,
        &row.preload_value,
        &mut tables.preloads,
    )?;
    let activated = stays_activated(&row);
    restore_worker(
        alloc,
        number,
        row.waiting.or(row.active),
        activated,
        &mut tables.workers,
        &mut tables.registrations,
    )
}

// The tables of a host after a restart from a content that changes have made.
pub(crate) fn restored(alloc: Global, content: Content) -> Result<Restored, NoMemory>
    requires { IsMade content }
    ensures linked { IfOk result (λ r. Linked r.map r.workers r.registrations r.clients) }
    ensures state { IfOk result (λ r. lent r.map r.workers r.registrations r.clients
        (quiet_rest r.preloads r.caches.rows) ≡ restart content) }
    ensures counts { IfOk result (λ r. CountsTasks r.workers []) }
    ensures clients { IfOk result (λ r. r.clients.rows ≡ []) }
{
    let (rows, caches) = content.into_parts(alloc)?;
    let mut tables = none_restored(alloc, caches);
    for row in rows {
        restore(alloc, row, &mut tables)?;
    }
    Ok(tables)
}
