//! The host's events, done: it takes no memory. Each answers none exactly where it isn't enabled.

ghost use Rattle.std.specs.Prelude.{◌≡◌, ◌≤◌, ◌+◌, Option, None, false, codes, length};
ghost use Rattle.sw_client.specs.Table.{users_of};
ghost use Rattle.sw_data.specs.declared.recordings.FetchLine.{FetchLine};
ghost use Rattle.sw_install.specs.Fetches.{ComesTo};
ghost use Rattle.sw_laws.specs.Coherent.{Coherent};
ghost use Rattle.sw_ledgers.specs.Preloaded.{preload_of, preload_value_of};
ghost use Rattle.sw_rules.specs.Activating as activating;
ghost use Rattle.sw_rules.specs.Installing as installing;
ghost use Rattle.sw_rules.specs.Registering as registering;
ghost use Rattle.sw_tables.specs.Happened.{Happened};
ghost use Rattle.sw_state.specs.Hosted.{state_of};
ghost use Rattle.sw_work.specs.Plans.{FitsFetched, FitsPreload, FitsRegister, FitsUpdate, IsUnregister, job_room, users_with};

use sw_data::{Answer, Fault};
use sw_install::{FetchOutcome, Rows};
use sw_ledgers::NewPreload;
use sw_rules::Notices;
use sw_state::HostTables;
use sw_work::{
    NewFetch, activate_answer, draw_where, evaluated_answer, fetched_answer, finished_answer,
    installed_answer, ok_answer, ran_answer,
};

// An event adds no rows.
fn no_rows() -> Rows
    ensures { result ≡ record { registration = None; scope = None; worker = None } }
{
    Rows {
        registration: None,
        scope: None,
        worker: None,
    }
}

// The next registration gets its first navigation preload.
fn first_preload(host: &mut HostTables, row: NewPreload)
    requires { FitsPreload row host.old }
    ensures state { state_of host.new ≡ state_of host.old }
    ensures flag { preload_of host.new.preloads.rows (length host.new.registrations.rows)
        ≡ false }
    ensures value { preload_value_of host.new.preloads.rows (length host.new.registrations.rows)
        ≡ codes "true" }
    ensures tables { host.new ≡ record host.old { preloads = host.new.preloads } }
{
    host.preloads.set_put(row);
}

// A register job runs.
#[tactic(auto, using(sw_work::proofs::Coherence::job_numbers))]
pub(crate) fn run_register(
    host: &mut HostTables,
    job: u32,
    refusal: Option<Fault>,
    fetch: NewFetch,
    preload: NewPreload,
    mut rows: Rows,
    notices: &mut Notices,
) -> Option<Answer>
    requires coherent { Coherent (state_of host.old) }
    requires fits { FitsRegister job refusal fetch preload rows host.old }
    requires room { job_room job host.old ≤ notices.old.spare }
    ensures { Happened (registering.run (state_of host.old) job) result
        notices.old notices.new (state_of host.old) (state_of host.new) }
{
    first_preload(host, preload);
    let done = sw_install::run_register(
        job,
        refusal,
        fetch.ordinal,
        &mut host.map,
        &mut host.queues,
        &mut host.workers,
        &mut host.registrations,
        &mut host.clients,
        notices,
        &mut rows,
    );
    draw_where(done, fetch.draw, &mut host.draws);
    ran_answer(done)
}

// An update job runs.
#[tactic(auto, using(sw_work::proofs::Coherence::job_numbers))]
pub(crate) fn run_update(
    host: &mut HostTables,
    job: u32,
    fetch: NewFetch,
    notices: &mut Notices,
) -> Option<Answer>
    requires coherent { Coherent (state_of host.old) }
    requires fits { FitsUpdate job fetch host.old }
    requires room { job_room job host.old ≤ notices.old.spare }
    ensures { Happened (registering.run (state_of host.old) job) result
        notices.old notices.new (state_of host.old) (state_of host.new) }
{
    let mut rows = no_rows();
    let done = sw_install::run_update(
        job,
        fetch.ordinal,
        &mut host.map,
        &mut host.queues,
        &mut host.workers,
        &mut host.registrations,
        &mut host.clients,
        notices,
        &mut rows,
    );
    draw_where(done, fetch.draw, &mut host.draws);
    ran_answer(done)
}

// An unregister job runs.
pub(crate) fn run_unregister(
    host: &mut HostTables,
    job: u32,
    refusal: Option<Fault>,
    notices: &mut Notices,
) -> Option<Answer>
    requires job { IsUnregister job refusal host.old.queues.rows }
    requires room { job_room job host.old ≤ notices.old.spare }
    ensures { Happened (registering.run (state_of host.old) job) result
        notices.old notices.new (state_of host.old) (state_of host.new) }
{
    let done = sw_activate::run_unregister(
        job,
        refusal,
        &mut host.map,
        &mut host.queues,
        &mut host.workers,
        &mut host.registrations,
        &mut host.clients,
        notices,
    );
    finished_answer(done)
}

// The fetch of a job's script has ended.
#[tactic(auto, using(sw_work::proofs::Coherence::under_way))]
pub(crate) fn fetched(
    host: &mut HostTables,
    job: u32,
    outcome: FetchOutcome,
    mut rows: Rows,
    notices: &mut Notices,
) -> Option<Answer>
    requires coherent { Coherent (state_of host.old) }
    requires fits { FitsFetched outcome rows host.old }
    requires room { job_room job host.old ≤ notices.old.spare }
    ensures { (line : Option FetchLine)
        → ComesTo outcome rows.worker (state_of host.old) job line
        → Happened (installing.fetched (state_of host.old) job line) result
        notices.old notices.new (state_of host.old) (state_of host.new) }
{
    let done = sw_install::fetched(
        job,
        outcome,
        &mut host.map,
        &mut host.queues,
        &mut host.workers,
        &mut host.registrations,
        &mut host.clients,
        notices,
        &mut rows,
    );
    fetched_answer(done)
}

// A job's script was evaluated.
#[tactic(auto, using(sw_work::proofs::Coherence::under_way))]
pub(crate) fn evaluated(host: &mut HostTables, job: u32, notices: &mut Notices) -> Option<Answer>
    requires coherent { Coherent (state_of host.old) }
    requires room { job_room job host.old ≤ notices.old.spare }
    ensures { Happened (installing.evaluated (state_of host.old) job) result
        notices.old notices.new (state_of host.old) (state_of host.new) }
{
    let mut rows = no_rows();
    let done = sw_install::evaluated(
        job,
        &mut host.map,
        &mut host.queues,
        &mut host.workers,
        &mut host.registrations,
        &mut host.clients,
        notices,
        &mut rows,
    );
    evaluated_answer(done)
}

// The install handler of a job's worker ends.
#[tactic(auto, using(sw_work::proofs::Coherence::under_way))]
pub(crate) fn installed(host: &mut HostTables, job: u32, notices: &mut Notices) -> Option<Answer>
    requires coherent { Coherent (state_of host.old) }
    requires room { job_room job host.old ≤ notices.old.spare }
    ensures { Happened (installing.installed (state_of host.old) job) result
        notices.old notices.new (state_of host.old) (state_of host.new) }
{
    let mut rows = no_rows();
    let done = sw_install::installed(
        job,
        &mut host.map,
        &mut host.queues,
        &mut host.workers,
        &mut host.registrations,
        &mut host.clients,
        notices,
        &mut rows,
    );
    installed_answer(done)
}

// An owed Try Activate.
pub(crate) fn try_activate(
    host: &mut HostTables,
    registration: u32,
    notices: &mut Notices,
) -> Option<Answer>
    requires { 2 + users_of registration host.old.clients.rows ≤ notices.old.spare }
    ensures { Happened (activating.tryactivate (state_of host.old) registration) result
        notices.old notices.new (state_of host.old) (state_of host.new) }
{
    let done = sw_activate::try_activate(
        registration,
        &mut host.map,
        &mut host.queues,
        &mut host.workers,
        &mut host.registrations,
        &mut host.clients,
        notices,
    );
    activate_answer(done)
}

// The activate handler of a worker ends.
#[tactic(auto, using(sw_work::proofs::Coherence::runs_while_activating))]
pub(crate) fn activated(host: &mut HostTables, worker: u32, notices: &mut Notices) -> Option<Answer>
    requires coherent { Coherent (state_of host.old) }
    requires room { 6 + users_with worker host.old ≤ notices.old.spare }
    ensures { Happened (activating.activated (state_of host.old) worker) result
        notices.old notices.new (state_of host.old) (state_of host.new) }
{
    let done = sw_activate::activated(
        worker,
        &mut host.map,
        &mut host.queues,
        &mut host.workers,
        &mut host.registrations,
        &mut host.clients,
        notices,
    );
    ok_answer(done)
}
