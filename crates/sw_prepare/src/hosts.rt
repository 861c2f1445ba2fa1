//! The host's events, worked out.

ghost use Rattle.std.specs.Prelude.{◌≡◌, true, option_copied, IfOk, IsSome};
ghost use Rattle.sw_data.specs.declared.events.Who.TheVariants as maker;
ghost use Rattle.sw_data.specs.Events.{who_of};
ghost use Rattle.sw_laws.specs.Coherent.{Coherent};
ghost use Rattle.sw_rules.specs.Caching.{added};
ghost use Rattle.sw_rules.specs.Installing as rules;
ghost use Rattle.sw_rules.specs.Registering.{run};
ghost use Rattle.sw_rules.specs.Step.{enabled, step};
ghost use Rattle.sw_state.specs.Hosted.{SameRows, state_of};
ghost use Rattle.sw_work.specs.Plans.{Works};

use crate::lanes::work_of_forget;
use std::alloc::Global;
use sw_cachestorage::added;
use sw_data::{Event, FetchLine, NoMemory, unboxed_option};
use sw_install::Rows;
use sw_state::HostTables;
use sw_work::{Work, fetch_ended, fetched_of, run_work};

// The run of a job, which may run.
fn work_of_run(host: &mut HostTables, alloc: Global, job: u32) -> Result<Work, NoMemory>
    requires { IsSome (run (state_of host.old) job) }
    ensures same { SameRows host.old host.new }
    ensures works { IfOk result (Works host.old host.new (run (state_of host.old) job)) }
{
    let Some(row) = host.queues.row(job) else {
        unreachable!();
    };
    run_work(
        alloc,
        job,
        row,
        &mut host.map,
        &mut host.registrations,
        &mut host.clients,
        &mut host.preloads,
        &mut host.draws,
    )
}

// The end of the fetch of a job's script, which is in flight.
fn work_of_fetched(
    host: &mut HostTables,
    alloc: Global,
    job: u32,
    line: Option<&FetchLine>,
) -> Result<Work, NoMemory>
    requires coherent { Coherent (state_of host.old) }
    requires ends { IsSome (rules.fetched (state_of host.old) job (option_copied line)) }
    ensures same { SameRows host.old host.new }
    ensures works { IfOk result (Works host.old host.new
        (rules.fetched (state_of host.old) job (option_copied line.entry))) }
{
    let Some(row) = host.queues.row(job) else {
        unreachable!();
    };
    let Some(registration) = row.registration else {
        unreachable!();
    };
    let (outcome, worker) = fetch_ended(
        alloc,
        row,
        registration,
        fetched_of(line),
        &mut host.workers,
        &host.registrations,
    )?;
    let rows = Rows {
        registration: None,
        scope: None,
        worker,
    };
    Ok(Work::Fetched { job, outcome, rows })
}

// What the end of the fetches of an addAll comes to, which has not settled.
fn work_of_added(
    host: &mut HostTables,
    alloc: Global,
    task: u32,
    lines: &[Option<FetchLine>],
) -> Result<Work, NoMemory>
    requires { IsSome (added (state_of host.old) task lines.now) }
    ensures same { SameRows host.old host.new }
    ensures works { IfOk result
        (Works host.old host.new (added (state_of host.old) task lines.now)) }
{
    let step = added(host, alloc, task, lines)?;
    Ok(Work::Added { task, step })
}

// What an event of the host comes to.
#[tactic(auto, unfolding(sw_rules::specs::Step::step, sw_data::specs::Events::who_of))]
pub(crate) fn work_of_host(
    host: &mut HostTables,
    alloc: Global,
    event: &Event,
) -> Result<Work, NoMemory>
    requires coherent { Coherent (state_of host.old) }
    requires who { who_of event.now ≡ maker.Host }
    requires enabled { enabled (state_of host.old) event.now ≡ true }
    ensures same { SameRows host.old host.new }
    ensures works { IfOk result
        (Works host.old host.new (step (state_of host.old) event.now)) }
{
    match event {
        Event::Run { job, .. } => work_of_run(host, alloc, *job),
        Event::Fetched { job, line, .. } => work_of_fetched(
            host,
            alloc,
            *job,
            unboxed_option(line),
        ),
        Event::Evaluated { job, .. } => Ok(Work::Evaluated(*job)),
        Event::Installed { job, .. } => Ok(Work::Installed(*job)),
        Event::TryActivate { registration, .. } => Ok(Work::TryActivate(*registration)),
        Event::Activated { worker, .. } => Ok(Work::Activated(*worker)),
        Event::Added { task, lines, .. } => { work_of_added(host, alloc, *task, lines.as_slice()) }
        Event::Forget { place, .. } => work_of_forget(host, alloc, place),
        // The host makes no others.
        _ => unreachable!(),
    }
}
