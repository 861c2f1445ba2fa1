//! Plans carried out: it takes no memory, and can't fail.

ghost use Rattle.std.specs.Prelude.{◌≡◌, ◌≤◌};
ghost use Rattle.sw_work.specs.Planned.{Fits};
ghost use Rattle.sw_laws.specs.Coherent.{Coherent};
ghost use Rattle.sw_rules.specs.Told.{Outcome};
ghost use Rattle.sw_state.specs.Hosted.{state_of};
ghost use Rattle.sw_work.specs.Plans.{FitsWork, Goes, Means, work_room};

use crate::acts::{do_added, do_asked, do_start};
use crate::hosting::{
    activated, evaluated, fetched, installed, run_register, run_unregister, run_update,
    try_activate,
};
use sw_data::Answer;
use sw_rules::Notices;
use sw_state::HostTables;
use sw_work::{Plan, Reply, Work};

// What a work comes to; none exactly where it isn't enabled.
fn carry_out(host: &mut HostTables, work: Work, notices: &mut Notices) -> Option<Answer>
    requires coherent { Coherent (state_of host.old) }
    requires fits { FitsWork work host.old }
    requires room { work_room work host.old ≤ notices.old.spare }
    ensures { (outcome : Outcome) → Means work host.old outcome
        → Goes outcome result notices.old notices.new (state_of host.new) }
{
    match work {
        Work::Asked(asked) => do_asked(host, asked, notices),
        Work::Start { answer, new, then } => do_start(host, answer, new, then),
        Work::Register {
            job,
            refusal,
            fetch,
            preload,
            rows,
        } => run_register(host, job, refusal, fetch, preload, rows, notices),
        Work::Update { job, fetch } => run_update(host, job, fetch, notices),
        Work::Unregister { job, refusal } => run_unregister(host, job, refusal, notices),
        Work::Fetched { job, outcome, rows } => fetched(host, job, outcome, rows, notices),
        Work::Added { task, step } => do_added(host, task, step),
        Work::Evaluated(job) => evaluated(host, job, notices),
        Work::Installed(job) => installed(host, job, notices),
        Work::TryActivate(registration) => try_activate(host, registration, notices),
        Work::Activated(worker) => activated(host, worker, notices),
    }
}

/// Carries out a plan that was made for an event that is enabled. It takes no memory.
pub fn finish(host: &mut HostTables, plan: Plan) -> Reply
    requires coherent { Coherent (state_of host.old) }
    requires fits { Fits plan host.old }
    requires enabled { (outcome : Outcome) × Means plan.work host.old outcome }
    ensures answer { (outcome : Outcome) → Means plan.work host.old outcome
        → result.answer ≡ outcome.answer }
    ensures notices { (outcome : Outcome) → Means plan.work host.old outcome
        → result.notices ≡ outcome.told.notices }
    ensures state { (outcome : Outcome) → Means plan.work host.old outcome
        → state_of host.new ≡ outcome.told.state }
{
    let Plan { work, mut notices } = plan;
    match carry_out(host, work, &mut notices) {
        Some(answer) => Reply {
            answer,
            notices: notices.into_items(),
        },
        None => unreachable!(),
    }
}
