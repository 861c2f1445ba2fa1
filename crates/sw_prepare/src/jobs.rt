//! The changes of the events of jobs: of an unregister job's run, and of the parts of an install.

ghost use Rattle.std.specs.Prelude.{◌≡◌, false, Option, find, IfOk, IfSome, option_map, option_and_then};
ghost use Rattle.std.specs.Option.{option_copied, option_map_or};
ghost use Rattle.sw_activate.specs.Answers.{unregister_refusal};
ghost use Rattle.sw_client.specs.Table as clients_of;
ghost use Rattle.sw_data.specs.declared.recordings.FetchLine.{FetchLine};
ghost use Rattle.sw_data.specs.declared.rows.JobKind.TheVariants as job_kind;
ghost use Rattle.sw_data.specs.declared.rows.WorkerRow.{WorkerRow};
ghost use Rattle.sw_data.specs.declared.storage.Change.TheVariants as change;
ghost use Rattle.sw_prepare.specs.OfJobs.{end_changes, failure_changes, has_failed, is_first_install, is_unchanged, mode_changes, new_mode, registration_of_job, throws, unregistered, waiting_changes, worker_changes, worker_of_job};
ghost use Rattle.sw_prepare.specs.Telling.{HasChanges};
ghost use Rattle.sw_install.specs.Fetches.{ComesTo};
ghost use Rattle.sw_install.specs.Underway.{IsUnderWay};
ghost use Rattle.sw_reg.specs.Table as registrations_of;
ghost use Rattle.sw_rules.specs.Installing as rules;
ghost use Rattle.sw_rules.specs.Registering as registering;
ghost use Rattle.sw_rules.specs.Rows.{is_job};
ghost use Rattle.sw_scope.specs.Scopes.{Scopes};
ghost use Rattle.sw_tables.specs.Happened.{with_jobs};
ghost use Rattle.sw_tables.specs.Lent.{Rest, lent, shown_worker};
ghost use Rattle.sw_tables.specs.Linked.{HasScopes, HasSlots};
ghost use Rattle.sw_worker.specs.Table as workers_of;
ghost use Rattle.sw_worker.specs.Table.{worker_at};

use crate::kept::{gone_change, mode_change, told};
use crate::lists::nothing;
use std::alloc::Global;
use sw_data::{Change, Fault, KeptWorker, Mode, NoMemory, RegistrationRow, WorkerRow};
use sw_install::FetchOutcome;
use sw_queue::Queues;
use sw_reg::Registrations;
use sw_scope::ScopeMap;
use sw_worker::Workers;

// The registration that an unregister job takes out of the map; none where the job is refused.
fn unregistered(job: u32, refusal: Option<Fault>, map: &ScopeMap, queues: &Queues) -> Option<u32>
    ensures { result ≡ unregistered refusal job map.now queues.now.rows }
{
    if refusal.is_some() {
        return None;
    }
    match queues.row(job) {
        Some(row) => map.get(&row.job.key, &row.job.scope),
        None => None,
    }
}

// The changes of the run of an unregister job, whose security fault, if any, is the given one.
pub(crate) fn unregister_changes(
    alloc: Global,
    job: u32,
    refusal: Option<Fault>,
    map: &ScopeMap,
    queues: &Queues,
    registrations: &Registrations,
) -> Result<Vec<Change>, NoMemory>
    requires scopes { HasScopes map.now registrations.now }
    requires job { IfSome (find (is_job job) queues.now.rows) (λ row.
        (row.job.what ≡ job_kind.Unregister) × (refusal ≡ unregister_refusal row.job)) }
    ensures { (of_workers : workers_of.Table) (of_clients : clients_of.Table) (rest : Rest)
        → HasSlots of_workers registrations.now → IfOk result (λ changes. HasChanges (registering.run
        (lent map.now of_workers registrations.now of_clients (with_jobs queues.now.rows rest))
        job) changes.items) }
{
    match unregistered(job, refusal, map, queues) {
        Some(registration) => gone_change(alloc, registration, map, registrations),
        None => Ok(nothing(alloc)),
    }
}

// The registration of a job, and the mode that the job gives it.
fn new_mode(job: u32, queues: &Queues) -> Option<(u32, Mode)>
    ensures { result ≡ new_mode job queues.now.rows }
{
    match queues.row(job) {
        Some(row) => match row.registration {
            Some(registration) => Some((registration, row.job.mode)),
            None => None,
        },
        None => None,
    }
}

// The changes where the registration of a job gets the job's mode.
fn mode_changes(
    alloc: Global,
    job: u32,
    map: &ScopeMap,
    queues: &Queues,
    registrations: &Registrations,
) -> Result<Vec<Change>, NoMemory>
    ensures { (of_workers : workers_of.Table) (of_clients : clients_of.Table) (rest : Rest)
        → HasSlots of_workers registrations.now → IfOk result (λ changes. changes.items
        ≡ mode_changes (lent map.now of_workers registrations.now of_clients rest)
        (new_mode job queues.now.rows)) }
{
    match new_mode(job, queues) {
        Some((registration, mode)) => mode_change(alloc, registration, mode, map, registrations),
        None => Ok(nothing(alloc)),
    }
}

// Whether the script of a job is the same.
fn is_unchanged(outcome: &FetchOutcome) -> bool
    ensures { result ≡ is_unchanged outcome.now }
{
    matches!(outcome, FetchOutcome::Unchanged)
}

// The changes of the end of the fetch of a job's script, which came to this outcome.
pub(crate) fn fetched_changes(
    alloc: Global,
    job: u32,
    outcome: &FetchOutcome,
    map: &ScopeMap,
    queues: &Queues,
    registrations: &Registrations,
) -> Result<Vec<Change>, NoMemory>
    ensures { (of_workers : workers_of.Table) (of_clients : clients_of.Table) (rest : Rest)
        (line : Option FetchLine) (made : Option WorkerRow)
        → HasSlots of_workers registrations.now
        → ComesTo outcome.now made
        (lent map.now of_workers registrations.now of_clients (with_jobs queues.now.rows rest))
        job line
        → IfOk result (λ changes. HasChanges (rules.fetched
        (lent map.now of_workers registrations.now of_clients (with_jobs queues.now.rows rest))
        job line) changes.items) }
{
    if is_unchanged(outcome) {
        mode_changes(alloc, job, map, queues, registrations)
    } else {
        Ok(nothing(alloc))
    }
}

// The row of the worker that a job made.
fn job_worker<'a>(job: u32, queues: &Queues, workers: &'a Workers) -> Option<&'a WorkerRow>
    ensures { option_copied result
        ≡ option_and_then (λ number. worker_at number workers.now.rows)
        (option_and_then (λ row. row.worker) (find (is_job job) queues.now.rows)) }
{
    match queues.row(job) {
        Some(row) => match row.worker {
            Some(number) => workers.row(number),
            None => None,
        },
        None => None,
    }
}

// Whether the script of a worker throws, where there is a worker.
fn has_thrown(made: Option<&WorkerRow>) -> bool
    ensures { result ≡ option_map_or (λ row. row.handlers.throws) (option_copied made.entry) false }
{
    match made {
        Some(made) => made.handlers.get().throws,
        None => false,
    }
}

// Whether the script of the worker of a job throws.
fn throws(job: u32, queues: &Queues, workers: &Workers) -> bool
    ensures { (scopes : Scopes) (of : registrations_of.Table) (of_clients : clients_of.Table)
        (rest : Rest) → result
        ≡ throws (lent scopes workers.now of of_clients (with_jobs queues.now.rows rest)) job }
{
    has_thrown(job_worker(job, queues, workers))
}

// The changes of the evaluation of a job's script.
pub(crate) fn evaluated_changes(
    alloc: Global,
    job: u32,
    map: &ScopeMap,
    queues: &Queues,
    workers: &Workers,
    registrations: &Registrations,
) -> Result<Vec<Change>, NoMemory>
    requires { HasSlots workers.now registrations.now }
    ensures { (of_clients : clients_of.Table) (rest : Rest)
        → IfOk result (λ changes. HasChanges (rules.evaluated
        (lent map.now workers.now registrations.now of_clients (with_jobs queues.now.rows rest))
        job) changes.items) }
{
    if throws(job, queues, workers) {
        Ok(nothing(alloc))
    } else {
        mode_changes(alloc, job, map, queues, registrations)
    }
}

// The registration of a job.
fn registration_of_job(job: u32, queues: &Queues) -> Option<u32>
    ensures { result ≡ registration_of_job job queues.now.rows }
{
    match queues.row(job) {
        Some(row) => row.registration,
        None => None,
    }
}

// Whether no worker of its registration was there when the job's worker began to install.
fn is_first_install(job: u32, queues: &Queues) -> bool
    ensures { result ≡ is_first_install job queues.now.rows }
{
    match queues.row(job) {
        Some(row) => row.remembered.is_none(),
        None => false,
    }
}

// Whether an install failed, whose handler is at its end.
fn has_failed(made: &WorkerRow) -> bool
    ensures { result ≡ has_failed (shown_worker made.now) }
{
    made.handlers.get().install_fails
        || match made.handler {
            Some(handler) => handler.faulted,
            None => false,
        }
}

// A registration gets this waiting worker.
fn waiting(alloc: Global, made: &WorkerRow, row: &RegistrationRow) -> Result<Change, NoMemory>
    ensures { IfOk result (λ new. new ≡ change.Waiting row.now.key row.now.scope row.now.mode
        (rules.kept_worker (shown_worker made.now))) }
{
    let key = row.key.copy(alloc)?;
    let scope = row.scope.copy(alloc)?;
    let worker = KeptWorker {
        script: made.script.copy(alloc)?,
        kind: made.kind,
        body: made.body.share()?,
    };
    Ok(Change::Waiting {
        key,
        scope,
        mode: row.mode,
        worker,
    })
}

// The same, where there is the registration.
fn waiting_of(
    alloc: Global,
    made: &WorkerRow,
    row: Option<&RegistrationRow>,
) -> Result<Option<Change>, NoMemory>
    ensures { IfOk result (λ new. new ≡ option_map (λ of. change.Waiting of.key of.scope of.mode
        (rules.kept_worker (shown_worker made.now))) (option_copied row.entry)) }
{
    match row {
        Some(row) => Ok(Some(waiting(alloc, made, row)?)),
        None => Ok(None),
    }
}

// The changes where a registration gets this waiting worker.
fn waiting_changes(
    alloc: Global,
    registration: u32,
    made: &WorkerRow,
    registrations: &Registrations,
) -> Result<Vec<Change>, NoMemory>
    ensures { (scopes : Scopes) (of_workers : workers_of.Table) (of_clients : clients_of.Table)
        (rest : Rest) → IfOk result (λ changes. changes.items
        ≡ waiting_changes (lent scopes of_workers registrations.now of_clients rest)
        registration (shown_worker made.now)) }
{
    let new = waiting_of(alloc, made, registrations.row(registration))?;
    told(alloc, new)
}

// The changes of a failed install: a registration that had no worker before leaves the map.
fn failure_changes(
    alloc: Global,
    job: u32,
    registration: u32,
    map: &ScopeMap,
    queues: &Queues,
    registrations: &Registrations,
) -> Result<Vec<Change>, NoMemory>
    ensures { (of_workers : workers_of.Table) (of_clients : clients_of.Table) (rest : Rest)
        → HasSlots of_workers registrations.now → IfOk result (λ changes. changes.items
        ≡ failure_changes (lent map.now of_workers registrations.now of_clients
        (with_jobs queues.now.rows rest)) job registration) }
{
    if is_first_install(job, queues) {
        gone_change(alloc, registration, map, registrations)
    } else {
        Ok(nothing(alloc))
    }
}

// The changes of the end of the install of this worker.
fn end_changes(
    alloc: Global,
    job: u32,
    registration: u32,
    made: &WorkerRow,
    map: &ScopeMap,
    queues: &Queues,
    registrations: &Registrations,
) -> Result<Vec<Change>, NoMemory>
    ensures { (of_workers : workers_of.Table) (of_clients : clients_of.Table) (rest : Rest)
        → HasSlots of_workers registrations.now → IfOk result (λ changes. changes.items
        ≡ end_changes (lent map.now of_workers registrations.now of_clients
        (with_jobs queues.now.rows rest)) job registration (shown_worker made.now)) }
{
    if has_failed(made) {
        failure_changes(alloc, job, registration, map, queues, registrations)
    } else {
        waiting_changes(alloc, registration, made, registrations)
    }
}

// The same, where the job has made a worker.
fn worker_changes(
    alloc: Global,
    job: u32,
    registration: u32,
    map: &ScopeMap,
    queues: &Queues,
    workers: &Workers,
    registrations: &Registrations,
) -> Result<Vec<Change>, NoMemory>
    ensures { (of_clients : clients_of.Table) (rest : Rest)
        → HasSlots workers.now registrations.now → IfOk result (λ changes. changes.items
        ≡ worker_changes
        (lent map.now workers.now registrations.now of_clients (with_jobs queues.now.rows rest))
        job (worker_of_job
        (lent map.now workers.now registrations.now of_clients (with_jobs queues.now.rows rest))
        job) registration) }
{
    match job_worker(job, queues, workers) {
        Some(made) => end_changes(alloc, job, registration, made, map, queues, registrations),
        None => Ok(nothing(alloc)),
    }
}

// The changes of the end of the install handler of a job's worker.
pub(crate) fn installed_changes(
    alloc: Global,
    job: u32,
    map: &ScopeMap,
    queues: &Queues,
    workers: &Workers,
    registrations: &Registrations,
) -> Result<Vec<Change>, NoMemory>
    requires slots { HasSlots workers.now registrations.now }
    requires goes { IsUnderWay job queues.now.rows workers.now registrations.now }
    ensures { (of_clients : clients_of.Table) (rest : Rest)
        → IfOk result (λ changes. HasChanges (rules.installed
        (lent map.now workers.now registrations.now of_clients (with_jobs queues.now.rows rest))
        job) changes.items) }
{
    match registration_of_job(job, queues) {
        Some(registration) => worker_changes(
            alloc,
            job,
            registration,
            map,
            queues,
            workers,
            registrations,
        ),
        None => Ok(nothing(alloc)),
    }
}
