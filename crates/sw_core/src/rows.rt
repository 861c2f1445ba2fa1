//! The rows that a kept registration gets at a restart.

ghost use Rattle.std.specs.Prelude.{◌≡◌, ◌<◌, ◌==◌, ◌++◌, ◌∷◌, [], ℕ, List, true, length, is_none, Some, IfOk, OnOk, if◌then◌else◌};
ghost use Rattle.sw_data.specs.declared.storage.KeptWorker.{KeptWorker};
ghost use Rattle.sw_data.specs.declared.workers.WorkerState.TheVariants as worker_state;
ghost use Rattle.sw_ledgers.specs.Preloaded.{preload_of, preload_value_of};
ghost use Rattle.sw_reg.specs.Edits.{new_registration};
ghost use Rattle.sw_reg.specs.Table.{firsts, has_registration, is_registration};
ghost use Rattle.sw_core.specs.Parts.{is_fresh};
ghost use Rattle.sw_core.specs.Rows.{raised, seated, worker_row};
ghost use Rattle.sw_rules.specs.Restart.{no_handlers};
ghost use Rattle.sw_rules.specs.Rows.{changed};
ghost use Rattle.sw_scope.specs.Scopes.{maps, with_row};
ghost use Rattle.sw_tables.specs.Linked.{ArePlaces};
ghost use Rattle.sw_worker.specs.Edits.{advanced};
ghost use Rattle.sw_worker.specs.Table.{has_worker, is_worker, may_advance};

use std::alloc::Global;
use sw_client::Clients;
use sw_data::{Handlers, Items, KeptWorker, Mode, NoMemory, Phase, Text, WorkerState};
use sw_ledgers::Preloads;
use sw_reg::Registrations;
use sw_scope::ScopeMap;
use sw_worker::Workers;

// Adds a registration, which has no worker, under its key and scope, and gives its number.
pub(crate) fn add_registration(
    alloc: Global,
    key: &Text,
    scope: &Text,
    mode: Mode,
    map: &mut ScopeMap,
    registrations: &mut Registrations,
    clients: &mut Clients,
) -> Result<u32, NoMemory>
    ensures number { IfOk result (λ number. number ≡ length registrations.old.rows) }
    ensures scopes { OnOk result ((other text : List ℕ) → maps map.new other text
        ≡ with_row map.old (record {
          key = key.now;
          scope = scope.now;
          number = length registrations.old.rows;
        }) other text) }
    ensures made { OnOk result (registrations.new.rows ≡ registrations.old.rows
        ++ new_registration (length registrations.old.rows) key.now scope.now mode ∷ []) }
    ensures clients { OnOk result (clients.new.rows ≡ clients.old.rows) }
    ensures known { OnOk result (length registrations.old.rows < clients.new.known) }
{
    let number = registrations.make(alloc, key, scope, mode)?;
    let Some(known) = number.checked_add(1) else {
        return Err(NoMemory);
    };
    clients.know(known)?;
    map.set(alloc, key, scope, number)?;
    Ok(number)
}

// A worker goes on to a state that may follow its own. It takes no memory.
fn advance(worker: u32, to: WorkerState, workers: &mut Workers)
    requires { may_advance worker to workers.old.rows ≡ true }
    ensures { workers.new ≡ record workers.old {
      rows = changed (is_worker worker) (advanced to) workers.old.rows;
    } }
{
    let _ = workers.advance(worker, to);
}

// A new worker becomes activating. It takes no memory.
#[tactic(auto, using(crate::proofs::LastRows::may_install, crate::proofs::LastRows::may_wait, crate::proofs::LastRows::may_activate, crate::proofs::LastRows::advanced_twice))]
fn to_activating(worker: u32, workers: &mut Workers)
    requires { has_worker is_fresh worker workers.old.rows ≡ true }
    ensures { workers.new ≡ record workers.old {
      rows = changed (is_worker worker) (advanced worker_state.Activating) workers.old.rows;
    } }
{
    advance(worker, WorkerState::Installing, workers);
    advance(worker, WorkerState::Installed, workers);
    advance(worker, WorkerState::Activating, workers);
}

// A new worker becomes activated, or activating with its activate handler started. It takes no memory.
#[tactic(auto, using(crate::proofs::LastRows::may_end, crate::proofs::LastRows::is_idle_still, crate::proofs::LastRows::advanced_twice, sw_tables::proofs::TakeOver::begun_twice))]
fn raise(worker: u32, activated: bool, workers: &mut Workers)
    requires { has_worker is_fresh worker workers.old.rows ≡ true }
    ensures { workers.new ≡ record workers.old {
      rows = changed (is_worker worker) (raised activated) workers.old.rows;
    } }
{
    to_activating(worker, workers);
    if activated {
        advance(worker, WorkerState::Activated, workers);
    } else {
        workers.start_handler(worker, Phase::Activate);
    }
}

// No calls, and nothing fails.
fn no_handlers(alloc: Global) -> Handlers
    ensures { result ≡ no_handlers }
{
    Handlers {
        throws: false,
        install: Items::new(alloc),
        install_fails: false,
        activate: Items::new(alloc),
    }
}

// Adds a worker that was kept, and gives its number.
fn add_worker(
    alloc: Global,
    registration: u32,
    kept: KeptWorker,
    activated: bool,
    workers: &mut Workers,
) -> Result<u32, NoMemory>
    requires { ArePlaces (λ row. row.number) workers.old.rows }
    ensures number { IfOk result (λ number. number ≡ length workers.old.rows) }
    ensures made { OnOk result (workers.new ≡ record workers.old {
      rows = workers.old.rows
          ++ worker_row (length workers.old.rows) registration kept activated ∷ [];
      spare_rows = workers.new.spare_rows;
    }) }
{
    let KeptWorker { script, kind, body } = kept;
    let handlers = no_handlers(alloc);
    let number = workers.make(alloc, registration, &script, kind, body, None, handlers)?;
    raise(number, activated, workers);
    Ok(number)
}

// A worker becomes the first waiting one of a registration and then its active one. It takes no memory.
#[tactic(auto, using(crate::proofs::LastRows::has_installing, crate::proofs::LastRows::has_waiting, crate::proofs::LastRows::firsts_same, crate::proofs::LastRows::seated_rows))]
fn seat(registration: u32, worker: u32, registrations: &mut Registrations)
    requires { has_registration (λ row. is_none row.installing) registration registrations.old.rows
        ≡ true }
    ensures { registrations.new ≡ record registrations.old {
      rows = changed (is_registration registration)
          (seated (firsts registrations.old.rows) worker) registrations.old.rows;
    } }
{
    registrations.to_installing(registration, worker);
    registrations.to_waiting(registration);
    registrations.to_active(registration);
}

// Adds the worker of a registration that was kept, which becomes its active one.
pub(crate) fn restore_worker(
    alloc: Global,
    registration: u32,
    kept: Option<KeptWorker>,
    activated: bool,
    workers: &mut Workers,
    registrations: &mut Registrations,
) -> Result<(), NoMemory>
    requires places { ArePlaces (λ row. row.number) workers.old.rows }
    requires empty { has_registration (λ row. is_none row.installing)
        registration registrations.old.rows ≡ true }
    ensures workers { OnOk result ((worker : KeptWorker) → kept ≡ Some worker
        → workers.new ≡ record workers.old {
          rows = workers.old.rows
              ++ worker_row (length workers.old.rows) registration worker activated ∷ [];
          spare_rows = workers.new.spare_rows;
        }) }
    ensures registrations { OnOk result ((worker : KeptWorker) → kept ≡ Some worker
        → registrations.new ≡ record registrations.old {
          rows = changed (is_registration registration)
              (seated (firsts registrations.old.rows) (length workers.old.rows))
              registrations.old.rows;
        }) }
{
    match kept {
        Some(kept) => {
            let worker = add_worker(alloc, registration, kept, activated, workers)?;
            seat(registration, worker, registrations);
            Ok(())
        }
        None => Ok(()),
    }
}

// A registration gets its navigation preload.
pub(crate) fn set_preload(
    alloc: Global,
    registration: u32,
    on: bool,
    value: &Text,
    preloads: &mut Preloads,
) -> Result<(), NoMemory>
    ensures flag { OnOk result ((n : ℕ) → preload_of preloads.new.rows n
        ≡ (if n == registration then on else preload_of preloads.old.rows n)) }
    ensures value { OnOk result ((n : ℕ) → preload_value_of preloads.new.rows n
        ≡ (if n == registration then value.now else preload_value_of preloads.old.rows n)) }
{
    let row = preloads.set_row(alloc, registration, on, value)?;
    preloads.set_put(row);
    Ok(())
}
