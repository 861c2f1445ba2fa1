//! The run of a job, worked out.

ghost use Rattle.std.specs.Prelude.{◌≡◌, ◌<◌, ◌≤◌, ℕ, List, None, length, IfOk};
ghost use Rattle.sw_activate.specs.Answers.{unregister_refusal};
ghost use Rattle.sw_data.specs.declared.rows.JobKind.TheVariants as job_kind;
ghost use Rattle.sw_data.specs.Addresses.{without_fragment};
ghost use Rattle.sw_install.specs.Runs.{HasNewRegistration, register_fault};
ghost use Rattle.sw_ledgers.specs.Drawn.{FitsDraw};
ghost use Rattle.sw_rules.specs.Jobs.{next_draw};
ghost use Rattle.sw_scope.specs.Scopes.{maps};
ghost use Rattle.sw_work.specs.Plans.{first_preload};
ghost use Rattle.sw_work.specs.Running.{HasTables, IsRun};

use crate::plan::{NewFetch, Work};
use std::alloc::Global;
use sw_client::Clients;
use sw_data::{Fault, Job, JobKind, JobRow, NoMemory, SecurityCause, Text};
use sw_install::Rows;
use sw_ledgers::{Draws, NewPreload, Preloads};
use sw_reg::Registrations;
use sw_scope::ScopeMap;
use sw_url::{is_trustworthy, same_origin};

// The first security fault of a register job.
fn register_fault(alloc: Global, job: &Job) -> Result<Option<Fault>, NoMemory>
    ensures { IfOk result (λ why. why ≡ register_fault job.now) }
{
    if !is_trustworthy(alloc, &job.script)? {
        return Ok(Some(Fault::SecurityError(SecurityCause::Untrusted)));
    }
    if !same_origin(alloc, &job.script, &job.referrer)? {
        return Ok(Some(Fault::SecurityError(SecurityCause::ScriptOrigin)));
    }
    if !same_origin(alloc, &job.scope, &job.referrer)? {
        return Ok(Some(Fault::SecurityError(SecurityCause::ScopeOrigin)));
    }
    Ok(None)
}

// The security fault of an unregister job.
fn unregister_fault(alloc: Global, job: &Job) -> Result<Option<Fault>, NoMemory>
    ensures { IfOk result (λ why. why ≡ unregister_refusal job.now) }
{
    if same_origin(alloc, &job.scope, &job.referrer)? {
        Ok(None)
    } else {
        Ok(Some(Fault::SecurityError(SecurityCause::ScopeOrigin)))
    }
}

// The number that the next fetch of a script gets, and the room to draw it.
fn new_fetch(alloc: Global, script: &Text, draws: &mut Draws) -> Result<NewFetch, NoMemory>
    ensures same { draws.new.rows ≡ draws.old.rows }
    ensures number { IfOk result (λ fetch. fetch.ordinal ≡ next_draw draws.old.rows script.now) }
    ensures address { IfOk result (λ fetch. without_fragment script.now ≡ fetch.draw) }
    ensures room { IfOk result (λ fetch. FitsDraw fetch.draw draws.new) }
{
    Ok(NewFetch {
        ordinal: draws.next(script),
        draw: draws.draw_row(alloc, script)?,
    })
}

// The first navigation preload of the next registration, with its room.
fn next_preload(
    alloc: Global,
    registrations: &Registrations,
    preloads: &mut Preloads,
) -> Result<NewPreload, NoMemory>
    ensures same { preloads.new.rows ≡ preloads.old.rows }
    ensures first { IfOk result (λ row. row ≡ first_preload (length registrations.now.rows)) }
    ensures room { IfOk result (λ row. 0 < preloads.new.spare) }
{
    let Ok(registration) = u32::try_from(registrations.len()) else {
        return Err(NoMemory);
    };
    let value = Text::of(alloc, "true")?;
    preloads.set_row(alloc, registration, false, &value)
}

// The finished rows of a registration of a job, with the room for them.
fn new_registration(
    alloc: Global,
    job: &Job,
    map: &mut ScopeMap,
    registrations: &mut Registrations,
    clients: &mut Clients,
) -> Result<Rows, NoMemory>
    ensures scopes { (key scope : List ℕ) → maps map.new key scope ≡ maps map.old key scope }
    ensures registrations { registrations.new.rows ≡ registrations.old.rows }
    ensures clients { clients.new.rows ≡ clients.old.rows }
    ensures known { clients.old.known ≤ clients.new.known }
    ensures new { IfOk result (λ rows. HasNewRegistration rows.registration rows.scope job.now
        map.new registrations.new clients.new) }
{
    let row = registrations.make_row(alloc, &job.key, &job.scope, job.mode)?;
    let number = row.number();
    let Some(known) = number.checked_add(1) else {
        return Err(NoMemory);
    };
    let scope = map.set_row(alloc, &job.key, &job.scope, number)?;
    clients.know(known)?;
    Ok(Rows {
        registration: Some(row),
        scope: Some(scope),
        worker: None,
    })
}

// What a register job with this fault maps, with the room for it: nothing where it is refused or its scope is mapped.
fn mapped_rows(
    alloc: Global,
    refusal: Option<Fault>,
    job: &Job,
    map: &mut ScopeMap,
    registrations: &mut Registrations,
    clients: &mut Clients,
) -> Result<Rows, NoMemory>
    ensures scopes { (key scope : List ℕ) → maps map.new key scope ≡ maps map.old key scope }
    ensures registrations { registrations.new.rows ≡ registrations.old.rows }
    ensures clients { clients.new.rows ≡ clients.old.rows }
    ensures known { clients.old.known ≤ clients.new.known }
    ensures new { IfOk result (λ rows. refusal ≡ None
        → maps map.old job.now.key job.now.scope ≡ None
        → HasNewRegistration rows.registration rows.scope job.now map.new registrations.new
        clients.new) }
{
    if refusal.is_none() && map.get(&job.key, &job.scope).is_none() {
        return new_registration(alloc, job, map, registrations, clients);
    }
    Ok(Rows {
        registration: None,
        scope: None,
        worker: None,
    })
}

// A register job, worked out.
#[tactic(auto, using(crate::proofs::Working::registers))]
fn register_work(
    alloc: Global,
    job: u32,
    row: &JobRow,
    map: &mut ScopeMap,
    registrations: &mut Registrations,
    clients: &mut Clients,
    preloads: &mut Preloads,
    draws: &mut Draws,
) -> Result<Work, NoMemory>
    requires { row.now.job.what ≡ job_kind.Register }
    ensures scopes { (key scope : List ℕ) → maps map.new key scope ≡ maps map.old key scope }
    ensures registrations { registrations.new.rows ≡ registrations.old.rows }
    ensures clients { clients.new.rows ≡ clients.old.rows }
    ensures known { clients.old.known ≤ clients.new.known }
    ensures preloads { preloads.new.rows ≡ preloads.old.rows }
    ensures draws { draws.new.rows ≡ draws.old.rows }
    ensures run { IfOk result (IsRun job row.now
        (HasTables map.new registrations.new clients.new preloads.new draws.new)) }
{
    let of = &row.job;
    let refusal = register_fault(alloc, of)?;
    let rows = mapped_rows(alloc, refusal, of, map, registrations, clients)?;
    let fetch = new_fetch(alloc, &of.script, draws)?;
    let preload = next_preload(alloc, registrations, preloads)?;
    Ok(Work::Register {
        job,
        refusal,
        fetch,
        preload,
        rows,
    })
}

// An update job, worked out.
#[tactic(auto, using(crate::proofs::Working::updates))]
fn update_work(alloc: Global, job: u32, row: &JobRow, draws: &mut Draws) -> Result<Work, NoMemory>
    requires { row.now.job.what ≡ job_kind.Update }
    ensures draws { draws.new.rows ≡ draws.old.rows }
    ensures run { IfOk result (IsRun job row.now (λ host. host.draws ≡ draws.new)) }
{
    let fetch = new_fetch(alloc, &row.job.script, draws)?;
    Ok(Work::Update { job, fetch })
}

// An unregister job, worked out.
#[tactic(auto, using(crate::proofs::Working::unregisters))]
fn unregister_work(alloc: Global, job: u32, row: &JobRow) -> Result<Work, NoMemory>
    requires { row.now.job.what ≡ job_kind.Unregister }
    ensures { IfOk result (IsRun job row.now (λ host. Unit {0})) }
{
    let refusal = unregister_fault(alloc, &row.job)?;
    Ok(Work::Unregister { job, refusal })
}

/// A job, worked out by its type.
pub fn run_work(
    alloc: Global,
    job: u32,
    row: &JobRow,
    map: &mut ScopeMap,
    registrations: &mut Registrations,
    clients: &mut Clients,
    preloads: &mut Preloads,
    draws: &mut Draws,
) -> Result<Work, NoMemory>
    ensures scopes { (key scope : List ℕ) → maps map.new key scope ≡ maps map.old key scope }
    ensures registrations { registrations.new.rows ≡ registrations.old.rows }
    ensures clients { clients.new.rows ≡ clients.old.rows }
    ensures known { clients.old.known ≤ clients.new.known }
    ensures preloads { preloads.new.rows ≡ preloads.old.rows }
    ensures draws { draws.new.rows ≡ draws.old.rows }
    ensures run { IfOk result (IsRun job row.now
        (HasTables map.new registrations.new clients.new preloads.new draws.new)) }
{
    match row.job.what {
        JobKind::Register => register_work(
            alloc,
            job,
            row,
            map,
            registrations,
            clients,
            preloads,
            draws,
        ),
        JobKind::Update => update_work(alloc, job, row, draws),
        JobKind::Unregister => unregister_work(alloc, job, row),
    }
}
