//! Calls of handlers, worked out with all their room.

ghost use Rattle.std.specs.Prelude.{◌≡◌, ℕ, true, List, IfOk, IfSome, IsSome, Some, None, option_map, if◌then◌else◌};
ghost use Rattle.std.specs.Option.{option_copied};
ghost use Rattle.sw_cachestorage.specs.Actions.{acts_on_caches};
ghost use Rattle.sw_cachestorage.specs.Acts.{FitsAct, IsOutcome, IsStep};
ghost use Rattle.sw_cachestorage.specs.Adding.{FitsStart, begun};
ghost use Rattle.sw_data.specs.declared.events.Who.{Who};
ghost use Rattle.sw_data.specs.declared.events.Who.TheVariants as maker;
ghost use Rattle.sw_data.specs.declared.workers.Phase.{Phase};
ghost use Rattle.sw_data.specs.Events.{is_handler};
ghost use Rattle.sw_laws.specs.Coherent.{Coherent};
ghost use Rattle.sw_pages.specs.Acts as pages;
ghost use Rattle.sw_pages.specs.Jobs.{IsNextJob, comes_to};
ghost use Rattle.sw_rules.specs.Caching.{add_all};
ghost use Rattle.sw_rules.specs.Calls as calls;
ghost use Rattle.sw_rules.specs.Rows.{is_number, maker_worker, worker_row};
ghost use Rattle.sw_rules.specs.Told.{Outcome};
ghost use Rattle.sw_scope.specs.Scopes.{maps};
ghost use Rattle.sw_state.specs.Hosted.{Hosted, SameRows, shown_of, state_of};
ghost use Rattle.sw_tables.specs.Lent.{shown_worker};
ghost use Rattle.sw_work.specs.Called.{FitsCall, HasRow, noted_call};
ghost use Rattle.sw_work.specs.Plans.{FitsWork, Means, Works, has_calls_left};
ghost use Rattle.sw_worker.specs.Table as workers_of;
ghost use Rattle.sw_worker.specs.Table.{is_there};

use crate::plan::{Act, Asked, Then, Work};
use std::alloc::Global;
use sw_caches::Caches;
use sw_cachestorage::{
    AddAllStep, CacheStep, add_all, batch_ops, delete_cache, delete_request, open_cache,
    put_response,
};
use sw_data::{
    Answer, CacheAddAll, Call, Fault, Job, NoMemory, Phase, RegistrationRow, StateCause, Text, Who,
    WorkerRow,
};
use sw_pages::{PageAct, Worked, claim_of, schedule_asked, skip_waiting_of, update_named};
use sw_scope::ScopeMap;
use sw_state::HostTables;

// ---- what was worked out, noted

// What follows a call of the handler of a worker, by its answer.
fn called(worker: u32, answer: &Answer) -> Then
    ensures { result ≡ Then.Called worker (calls.is_fault answer.now) }
{
    Then::Called {
        worker,
        fault: matches!(answer, Answer::Fault(_)),
    }
}

// The work of a call on caches that was worked out.
fn cache_work(worker: u32, step: CacheStep) -> Work
    ensures fits { (host : Hosted) → FitsAct step.act host.caches
        → has_calls_left worker (state_of host) ≡ true → FitsWork result host }
    ensures means { (host : Hosted) (outcome : Outcome)
        → IsOutcome outcome (state_of host) host.caches.rows step
        → Means result host (calls.noted outcome worker) }
{
    let CacheStep {
        answer,
        act,
        changes,
    } = step;
    let then = called(worker, &answer);
    Work::Asked(Asked {
        answer,
        act: Act::Caches { act, changes },
        then,
    })
}

// The work of a call that was worked out as an action of a page. Its promise has no effect.
fn page_work(worker: u32, worked: Worked) -> Work
    ensures fits { (host : Hosted) → FitsCall worker worked.act host → FitsWork result host }
    ensures means { (host : Hosted) (by : Who) → is_handler by ≡ true
        → Means result host (calls.noted (pages.outcome_of by worked (state_of host)) worker) }
{
    let Worked { answer, act, .. } = worked;
    let then = called(worker, &answer);
    Work::Asked(Asked {
        answer,
        act: Act::Page(act),
        then,
    })
}

// The work of an addAll that was worked out up to its fetches. Its promise has no effect.
fn begun_work(worker: u32, step: AddAllStep) -> Work
    requires maker { IfSome step.start (λ new. maker_worker new.row.maker ≡ Some worker) }
    ensures fits { (host : Hosted) → FitsStart step.start host
        → has_calls_left worker (state_of host) ≡ true → FitsWork result host }
    ensures means { (host : Hosted) (by : Who) → is_handler by ≡ true
        → Means result host (calls.noted (begun by step (state_of host)) worker) }
{
    let AddAllStep { answer, start, .. } = step;
    let then = called(worker, &answer);
    match start {
        Some(new) => Work::Start { answer, new, then },
        None => Work::Asked(Asked {
            answer,
            act: Act::Page(PageAct::Nothing),
            then,
        }),
    }
}

// ---- the calls

// A call on caches, in the name of the worker of a row whose registration has this one.
fn on_caches(
    alloc: Global,
    row: &WorkerRow,
    of: &RegistrationRow,
    call: &Call,
    caches: &mut Caches,
) -> Result<CacheStep, NoMemory>
    requires { acts_on_caches call.now ≡ true }
    ensures same { caches.new.rows ≡ caches.old.rows }
    ensures fits { IfOk result (λ step. FitsAct step.act caches.new) }
    ensures step { IfOk result (λ step. (by : Who) (in_phase : Phase) → IsStep caches.old.rows
        (λ state. calls.called state by (shown_worker row.now) in_phase of.now.key call.now) step) }
{
    match call {
        Call::CacheOpen { name } => open_cache(alloc, caches, &of.key, name),
        Call::CacheDelete { name } => delete_cache(alloc, caches, &of.key, name),
        Call::Put(put) => put_response(alloc, caches, &row.script, &of.key, put.get()),
        Call::Delete(asked) => { delete_request(alloc, caches, &row.script, &of.key, asked.get()) }
        Call::Batch(asked) => batch_ops(alloc, caches, &row.script, &of.key, asked.get()),
        _ => unreachable!(),
    }
}

// The work of a call on caches.
fn caches_work(
    alloc: Global,
    row: &WorkerRow,
    of: &RegistrationRow,
    call: &Call,
    caches: &mut Caches,
) -> Result<Work, NoMemory>
    requires caches { acts_on_caches call.now ≡ true }
    requires left { workers_of.has_calls_left row.now ≡ true }
    ensures same { caches.new.rows ≡ caches.old.rows }
    ensures fits { IfOk result (λ work. (host : Hosted) → HasRow row.now host
        → FitsWork work (record host { caches = caches.new })) }
    ensures means { IfOk result (λ work. (host : Hosted) (by : Who) (in_phase : Phase)
        → Means work (record host { caches = caches.old })
        (noted_call by in_phase row.now of.now.key call.now
        (state_of (record host { caches = caches.old })))) }
{
    let step = on_caches(alloc, row, of, call, caches)?;
    Ok(cache_work(row.number, step))
}

// The work of skipping the waiting.
fn skip_work(row: &WorkerRow) -> Work
    requires left { workers_of.has_calls_left row.now ≡ true }
    ensures fits { (host : Hosted) → Coherent (state_of host) → HasRow row.now host
        → FitsWork result host }
    ensures means { (host : Hosted) (by : Who) (in_phase : Phase) (key : List ℕ)
        → is_handler by ≡ true
        → Means result host (noted_call by in_phase row.now key Call.SkipWaiting (state_of host)) }
{
    page_work(row.number, skip_waiting_of(row))
}

// The work of claiming clients.
fn claim_work(row: &WorkerRow) -> Work
    requires left { workers_of.has_calls_left row.now ≡ true }
    ensures fits { (host : Hosted) → Coherent (state_of host) → HasRow row.now host
        → FitsWork result host }
    ensures means { (host : Hosted) (by : Who) (in_phase : Phase) (key : List ℕ)
        → is_handler by ≡ true
        → Means result host (noted_call by in_phase row.now key Call.Claim (state_of host)) }
{
    page_work(row.number, claim_of(row))
}

// A registration, where it is mapped.
fn where_mapped<'a>(of: &'a RegistrationRow, map: &ScopeMap) -> Option<&'a RegistrationRow>
    ensures { option_copied result
        ≡ (if is_number (maps map.now of.now.key of.now.scope) of.now.number
        then Some of.now else None) }
{
    match map.get(&of.key, &of.scope) {
        Some(number) if number == of.number => Some(of),
        _ => None,
    }
}

// The registration of a worker, where it is mapped.
fn own_registration<'a>(host: &'a HostTables, row: &WorkerRow) -> Option<&'a RegistrationRow>
    ensures { option_map (shown_of host.now) (option_copied result)
        ≡ calls.own_registration (state_of host.now) (shown_worker row.now) }
{
    match host.registrations.row(row.registration) {
        Some(of) => where_mapped(of, &host.map),
        None => None,
    }
}

// What an update of a worker's own registration comes to, which an install handler is refused.
fn update_own(
    host: &HostTables,
    alloc: Global,
    row: &WorkerRow,
    phase: Phase,
) -> Result<Result<Job, Worked>, NoMemory>
    ensures next { IfOk result (IsNextJob host.now.queues.rows) }
    ensures gives { IfOk result (λ job. pages.Gives (λ state by.
        calls.update_own state by (shown_worker row.now) phase)
        (comes_to host.now.queues.rows job) host.now) }
{
    match phase {
        Phase::Install => Ok(Err(Worked {
            answer: Answer::Fault(Fault::InvalidState(StateCause::Installing)),
            act: PageAct::Nothing,
            awaited: None,
        })),
        Phase::Activate => { update_named(host, alloc, own_registration(host, row), &row.script) }
    }
}

// What an update comes to, by the number of the worker, which is there.
fn update_by(
    host: &HostTables,
    alloc: Global,
    worker: u32,
    phase: Phase,
) -> Result<Result<Job, Worked>, NoMemory>
    requires { is_there worker host.now.workers.rows ≡ true }
    ensures next { IfOk result (IsNextJob host.now.queues.rows) }
    ensures gives { IfOk result (λ job. IfSome (worker_row (state_of host.now) worker) (λ row.
        pages.Gives (λ state by. calls.update_own state by row phase)
        (comes_to host.now.queues.rows job) host.now)) }
{
    match host.workers.row(worker) {
        Some(row) => update_own(host, alloc, row, phase),
        None => unreachable!(),
    }
}

// The work of an update.
fn update_work(
    host: &mut HostTables,
    alloc: Global,
    worker: u32,
    phase: Phase,
) -> Result<Work, NoMemory>
    requires there { is_there worker host.old.workers.rows ≡ true }
    requires left { has_calls_left worker (state_of host.old) ≡ true }
    ensures same { SameRows host.old host.new }
    ensures fits { IfOk result (λ work. FitsWork work host.new) }
    ensures means { IfOk result (λ work. (by : Who) → is_handler by ≡ true
        → IfSome (worker_row (state_of host.old) worker) (λ row. Means work host.old
        (calls.noted (calls.update_own (state_of host.old) by row phase) worker))) }
{
    let job = update_by(host, alloc, worker, phase)?;
    let worked = schedule_asked(host, alloc, job)?;
    Ok(page_work(worker, worked))
}

// The work of an addAll at a key, in the name of a worker.
fn add_all_work(
    host: &mut HostTables,
    alloc: Global,
    by: Who,
    worker: u32,
    base: &Text,
    key: &Text,
    asked: &CacheAddAll,
) -> Result<Work, NoMemory>
    requires by { maker_worker by ≡ Some worker }
    requires left { has_calls_left worker (state_of host.old) ≡ true }
    ensures same { SameRows host.old host.new }
    ensures fits { IfOk result (λ work. FitsWork work host.new) }
    ensures means { IfOk result (λ work. Means work host.old
        (calls.noted (add_all (state_of host.old) by base.now asked.now key.now) worker)) }
{
    let step = add_all(host, alloc, by, base, key, asked)?;
    Ok(begun_work(worker, step))
}

/// The work of the next call of the handler of a worker.
pub fn call_work(
    host: &mut HostTables,
    alloc: Global,
    worker: u32,
    phase: Phase,
    number: u32,
    call: &Call,
) -> Result<Work, NoMemory>
    requires coherent { Coherent (state_of host.old) }
    requires next { IsSome (calls.make_call (state_of host.old)
        (maker.Handler worker phase number) call.now) }
    ensures same { SameRows host.old host.new }
    ensures works { IfOk result (Works host.old host.new
        (calls.make_call (state_of host.old) (maker.Handler worker phase number) call.now)) }
{
    let Some(row) = host.workers.row(worker) else {
        unreachable!();
    };
    let Some(of) = host.registrations.row(row.registration) else {
        unreachable!();
    };
    match call {
        Call::SkipWaiting => Ok(skip_work(row)),
        Call::Claim => Ok(claim_work(row)),
        Call::Update => update_work(host, alloc, worker, phase),
        Call::AddAll(asked) => {
            let base = row.script.copy(alloc)?;
            let key = of.key.copy(alloc)?;
            let by = Who::Handler {
                worker,
                phase,
                call: number,
            };
            add_all_work(host, alloc, by, worker, &base, &key, asked.get())
        }
        _ => caches_work(alloc, row, of, call, &mut host.caches),
    }
}
