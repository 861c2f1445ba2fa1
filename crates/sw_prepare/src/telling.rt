//! The durable changes of an event that was worked out, told before it is done.

ghost use Rattle.std.specs.Cow.{cow_slice_items};
ghost use Rattle.std.specs.Prelude.{◌≡◌, ℕ, Bool, Option, find, true, false, IfOk, IfSome, Some, None, option_map};
ghost use Rattle.std.specs.Option.{option_copied};
ghost use Rattle.sw_work.specs.Planned.{Fits};
ghost use Rattle.sw_data.specs.declared.events.Event.{Event};
ghost use Rattle.sw_data.specs.declared.recordings.FetchLine.{FetchLine};
ghost use Rattle.sw_data.specs.declared.rows.WorkerRow.{WorkerRow};
ghost use Rattle.sw_prepare.specs.Telling.{HasChanges};
ghost use Rattle.sw_install.specs.Fetches.{ComesTo};
ghost use Rattle.sw_laws.specs.Coherent.{Coherent};
ghost use Rattle.sw_pages.specs.Acts as pages;
ghost use Rattle.sw_prepare.specs.Held.{held, held_by};
ghost use Rattle.sw_rules.specs.Activating as activating;
ghost use Rattle.sw_rules.specs.Clients as rules;
ghost use Rattle.sw_rules.specs.Installing as installing;
ghost use Rattle.sw_rules.specs.Jobs.{is_unregister};
ghost use Rattle.sw_rules.specs.Preloading.{set_preload};
ghost use Rattle.sw_rules.specs.Registering as registering;
ghost use Rattle.sw_rules.specs.Rows.{is_active, is_job};
ghost use Rattle.sw_rules.specs.Step.{changes_of, enabled, step};
ghost use Rattle.sw_rules.specs.Told.{Outcome};
ghost use Rattle.sw_tables.specs.Linked.{registration_of};
ghost use Rattle.sw_state.specs.Hosted.{state_of};
ghost use Rattle.sw_work.specs.Plans.{FitsAsked, FitsPageAct, FitsWork, IsAsked, IsUnregister, Means};
ghost use Rattle.sw_worker.specs.Table.{worker_at};

use crate::forgetting::forgotten;
use crate::laws::register_has_no_changes;
use crate::{activating, claiming, jobs, preloading};
use std::alloc::Global;
use std::borrow::CowSlice;
use sw_data::{Change, Fault, NoMemory};
use sw_install::FetchOutcome;
use sw_ledgers::NewPreload;
use sw_pages::PageAct;
use sw_state::HostTables;
use sw_work::{Act, Asked, Plan, Work};

// ---- acts of pages

// The durable changes where a client closes.
fn close_changes(host: &HostTables, alloc: Global, client: u32) -> Result<Vec<Change>, NoMemory>
    ensures { IfOk result (λ changes. changes.items
        ≡ (rules.leave (state_of host.now) client).changes) }
{
    activating::close_changes(
        alloc,
        client,
        &host.map,
        &host.workers,
        &host.registrations,
        &host.clients,
    )
}

// The durable changes where a worker of a registration skips waiting.
fn skip_waiting_changes(
    host: &HostTables,
    alloc: Global,
    registration: u32,
    worker: u32,
) -> Result<Vec<Change>, NoMemory>
    requires owner { registration_of host.now.workers.rows worker ≡ Some registration }
    ensures { IfOk result (λ changes. changes.items
        ≡ (rules.skip_waiting (state_of host.now) registration worker).changes) }
{
    activating::skip_waiting_changes(
        alloc,
        registration,
        worker,
        &host.map,
        &host.workers,
        &host.registrations,
        &host.clients,
    )
}

// The durable changes of a claim.
fn claim_changes(
    host: &HostTables,
    alloc: Global,
    registration: u32,
    worker: u32,
) -> Result<Vec<Change>, NoMemory>
    requires claimant { option_map {U = ℕ × Bool} (λ row. (row.registration, is_active row.state))
        (worker_at worker host.now.workers.rows) ≡ Some (registration, true) }
    ensures { IfOk result (λ changes. changes.items
        ≡ (pages.told_by (PageAct.Claim registration worker) (state_of host.now)).changes) }
{
    claiming::claim_changes(
        alloc,
        worker,
        &host.map,
        &host.workers,
        &host.registrations,
        &host.clients,
    )
}

// The durable changes where a fetch event of a worker of a registration ends.
fn end_changes(
    host: &HostTables,
    alloc: Global,
    event: u32,
    registration: u32,
) -> Result<Vec<Change>, NoMemory>
    ensures { IfOk result (λ changes. changes.items
        ≡ (rules.end_event (state_of host.now) event registration).changes) }
{
    activating::end_changes(
        alloc,
        event,
        registration,
        &host.map,
        &host.workers,
        &host.registrations,
        &host.clients,
    )
}

// The durable changes of an act of a page.
#[tactic(auto, unfolding(sw_rules::specs::Clients::add_client, sw_rules::specs::Clients::add_event, sw_rules::specs::Jobs::schedule))]
fn page_changes(host: &HostTables, alloc: Global, act: &PageAct) -> Result<Vec<Change>, NoMemory>
    requires { FitsPageAct act.now host.now }
    ensures { IfOk result (λ changes. changes.items
        ≡ (pages.told_by act.now (state_of host.now)).changes) }
{
    match act {
        PageAct::Nothing | PageAct::Open(_) | PageAct::Schedule(_) | PageAct::Begin(_) => {
            Ok(Vec::new(alloc))
        }
        PageAct::Close(client) => close_changes(host, alloc, *client),
        PageAct::SkipWaiting {
            registration,
            worker,
        } => skip_waiting_changes(host, alloc, *registration, *worker),
        PageAct::Claim {
            registration,
            worker,
        } => claim_changes(host, alloc, *registration, *worker),
        PageAct::End {
            event,
            registration,
        } => end_changes(host, alloc, *event, *registration),
        PageAct::Preload { .. } => unreachable!(),
    }
}

// ---- actions and calls

// The durable changes where a registration gets its navigation preload.
fn preload_changes(
    host: &HostTables,
    alloc: Global,
    row: &NewPreload,
) -> Result<Vec<Change>, NoMemory>
    ensures { IfOk result (λ changes. changes.items
        ≡ (set_preload (state_of host.now) row.now.registration row.now.on row.now.value).changes) }
{
    preloading::preload_changes(
        alloc,
        row.registration(),
        row.is_on(),
        row.value(),
        &host.map,
        &host.registrations,
        &host.preloads,
    )
}

// The durable changes of an action or of a call that was worked out, which doesn't hold them.
fn asked_changes(host: &HostTables, alloc: Global, asked: &Asked) -> Result<Vec<Change>, NoMemory>
    requires fits { FitsAsked asked.now host.now }
    requires not_held { held_by asked.now.act ≡ None }
    ensures { (outcome : Outcome) → IsAsked outcome asked.now (state_of host.now)
        → IfOk result (λ changes. changes.items ≡ outcome.told.changes) }
{
    match &asked.act {
        Act::Page(act) => page_changes(host, alloc, act),
        Act::Preload(row) => preload_changes(host, alloc, row),
        Act::Caches { .. } => unreachable!(),
        Act::Forget(key) => forgotten(alloc, key),
    }
}

// ---- jobs

// The run of a register job, or of an update job, has no durable changes.
fn no_changes(host: &HostTables, alloc: Global, job: u32) -> Result<Vec<Change>, NoMemory>
    requires { IfSome (find (is_job job) host.now.queues.rows)
        (λ row. is_unregister row.job.what ≡ false) }
    ensures { IfOk result (λ changes.
        HasChanges (registering.run (state_of host.now) job) changes.items) }
{
    register_has_no_changes();
    Ok(Vec::new(alloc))
}

// The durable changes of the run of an unregister job.
fn unregister_changes(
    host: &HostTables,
    alloc: Global,
    job: u32,
    refusal: Option<Fault>,
) -> Result<Vec<Change>, NoMemory>
    requires { IsUnregister job refusal host.now.queues.rows }
    ensures { IfOk result (λ changes.
        HasChanges (registering.run (state_of host.now) job) changes.items) }
{
    jobs::unregister_changes(
        alloc,
        job,
        refusal,
        &host.map,
        &host.queues,
        &host.registrations,
    )
}

// The durable changes where the fetch of a job's script has ended.
fn fetched_changes(
    host: &HostTables,
    alloc: Global,
    job: u32,
    outcome: &FetchOutcome,
) -> Result<Vec<Change>, NoMemory>
    ensures { (line : Option FetchLine) (made : Option WorkerRow)
        → ComesTo outcome.now made (state_of host.now) job line
        → IfOk result (λ changes.
        HasChanges (installing.fetched (state_of host.now) job line) changes.items) }
{
    jobs::fetched_changes(
        alloc,
        job,
        outcome,
        &host.map,
        &host.queues,
        &host.registrations,
    )
}

// The durable changes where a job's script was evaluated.
fn evaluated_changes(host: &HostTables, alloc: Global, job: u32) -> Result<Vec<Change>, NoMemory>
    ensures { IfOk result (λ changes.
        HasChanges (installing.evaluated (state_of host.now) job) changes.items) }
{
    jobs::evaluated_changes(
        alloc,
        job,
        &host.map,
        &host.queues,
        &host.workers,
        &host.registrations,
    )
}

// The durable changes where the install handler of a job's worker ends.
#[tactic(auto, using(sw_work::proofs::Coherence::under_way))]
fn installed_changes(host: &HostTables, alloc: Global, job: u32) -> Result<Vec<Change>, NoMemory>
    requires { Coherent (state_of host.now) }
    ensures { IfOk result (λ changes.
        HasChanges (installing.installed (state_of host.now) job) changes.items) }
{
    jobs::installed_changes(
        alloc,
        job,
        &host.map,
        &host.queues,
        &host.workers,
        &host.registrations,
    )
}

// The durable changes of an owed Try Activate.
fn try_activate_changes(
    host: &HostTables,
    alloc: Global,
    registration: u32,
) -> Result<Vec<Change>, NoMemory>
    ensures { IfOk result (λ changes.
        HasChanges (activating.tryactivate (state_of host.now) registration) changes.items) }
{
    activating::try_activate_changes(
        alloc,
        registration,
        &host.map,
        &host.workers,
        &host.registrations,
        &host.clients,
    )
}

// The durable changes where the activate handler of a worker ends.
#[tactic(auto, using(sw_work::proofs::Coherence::runs_while_activating))]
fn activated_changes(host: &HostTables, alloc: Global, worker: u32) -> Result<Vec<Change>, NoMemory>
    requires { Coherent (state_of host.now) }
    ensures { IfOk result (λ changes.
        HasChanges (activating.activated (state_of host.now) worker) changes.items) }
{
    activating::activated_changes(
        alloc,
        worker,
        &host.map,
        &host.workers,
        &host.registrations,
        &host.clients,
    )
}

// ---- a plan

// The durable changes that an act holds.
fn held_by(act: &Act) -> Option<&[Change]>
    ensures { option_copied result ≡ held_by act.now }
{
    match act {
        Act::Caches { changes, .. } => Some(changes.as_slice()),
        _ => None,
    }
}

// The durable changes that a work holds.
fn held(work: &Work) -> Option<&[Change]>
    ensures { option_copied result ≡ held work.now }
{
    match work {
        Work::Asked(asked) => held_by(&asked.act),
        Work::Added { step, .. } => Some(step.changes.as_slice()),
        _ => None,
    }
}

// The durable changes of a work, which doesn't hold them.
fn work_changes(host: &HostTables, alloc: Global, work: &Work) -> Result<Vec<Change>, NoMemory>
    requires coherent { Coherent (state_of host.now) }
    requires fits { FitsWork work.now host.now }
    requires not_held { held work.now ≡ None }
    ensures { (outcome : Outcome) → Means work.now host.now outcome
        → IfOk result (λ changes. changes.items ≡ outcome.told.changes) }
{
    match work {
        Work::Asked(asked) => asked_changes(host, alloc, asked),
        Work::Start { .. } => Ok(Vec::new(alloc)),
        Work::Register { job, .. } => no_changes(host, alloc, *job),
        Work::Update { job, .. } => no_changes(host, alloc, *job),
        Work::Unregister { job, refusal } => unregister_changes(host, alloc, *job, *refusal),
        Work::Fetched { job, outcome, .. } => fetched_changes(host, alloc, *job, outcome),
        Work::Added { .. } => unreachable!(),
        Work::Evaluated(job) => evaluated_changes(host, alloc, *job),
        Work::Installed(job) => installed_changes(host, alloc, *job),
        Work::TryActivate(registration) => try_activate_changes(host, alloc, *registration),
        Work::Activated(worker) => activated_changes(host, alloc, *worker),
    }
}

/// The durable changes of an event that was worked out, before it is done. Those that the plan holds are lent; the others
/// need memory for themselves alone.
pub fn changes<'a>(
    host: &HostTables,
    alloc: Global,
    plan: &'a Plan,
) -> Result<CowSlice<'a, Change, Global>, NoMemory>
    requires coherent { Coherent (state_of host.now) }
    requires fits { Fits plan.now host.now }
    ensures { (event : Event) → enabled (state_of host.now) event ≡ true
        → IfSome (step (state_of host.now) event) (Means plan.now.work host.now)
        → IfOk result (λ changes. cow_slice_items changes
        ≡ changes_of (state_of host.now) event) }
{
    match held(&plan.work) {
        Some(changes) => Ok(CowSlice::Borrowed(changes)),
        None => Ok(CowSlice::Owned(work_changes(host, alloc, &plan.work)?)),
    }
}
