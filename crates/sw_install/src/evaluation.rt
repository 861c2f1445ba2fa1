//! The evaluation of a job's script (Service Workers, Appendix A, "Update" and "Install", to the install event).

ghost use Rattle.std.specs.Prelude.{◌≡◌, ◌+◌, ◌<◌, ◌≤◌, true, false, not, length, is_none, option_map, None};
ghost use Rattle.sw_client.specs.Table as clients;
ghost use Rattle.sw_data.specs.declared.rows.Job.{Job};
ghost use Rattle.sw_data.specs.declared.workers.Slot.TheVariants as in_place;
ghost use Rattle.sw_install.specs.Answers.{evaluated_answer};
ghost use Rattle.sw_install.specs.Underway.{IsUnderWay};
ghost use Rattle.sw_queue.specs.Kept.{followers_of};
ghost use Rattle.sw_queue.specs.Tables.{FollowersStay, has_head, has_job};
ghost use Rattle.sw_reg.specs.Table.{is_there, slot_of};
ghost use Rattle.sw_rules.specs.Installing as rules;
ghost use Rattle.sw_rules.specs.Noticing.{Did};
ghost use Rattle.sw_rules.specs.Rows.{is_first, is_waiting, newest_worker};
ghost use Rattle.sw_scope.specs.Scopes.{Scopes};
ghost use Rattle.sw_tables.specs.Happened.{Happened, KeepCounts, with_jobs};
ghost use Rattle.sw_tables.specs.Lent.{Rest, lent};
ghost use Rattle.sw_tables.specs.Linked.{ArePlaces, HasSlots, Linked};
ghost use Rattle.sw_tables.specs.Parts.{StayLinked, is_of_in, is_parsed, rests_in};
ghost use Rattle.sw_worker.specs.Table.{has_worker};

use crate::calls::Rows;
use crate::dropping::reject_and_drop;
use crate::notes::{job_in, note_install};
use sw_client::Clients;
use sw_data::{Cause, Fault, JobPhase, Mode, Notice, Settlement, WorkerState};
use sw_queue::Queues;
use sw_reg::Registrations;
use sw_rules::Notices;
use sw_scope::ScopeMap;
use sw_tables::{NotNow, discard, newest_row, set_mode, settle, to_installing};
use sw_worker::Workers;

// The number of the newest worker of a registration. It takes no memory.
fn newest_number(registration: u32, workers: &Workers, registrations: &Registrations) -> Option<u32>
    requires { HasSlots workers.now registrations.now }
    ensures { (scopes : Scopes) (of_clients : clients.Table) (rest : Rest)
        → result ≡ option_map (λ newest. newest.number)
        (newest_worker (lent scopes workers.now registrations.now of_clients rest) registration) }
{
    match newest_row(registration, workers, registrations) {
        Some(row) => Some(row.number),
        None => None,
    }
}

// A script threw: its worker becomes redundant, and its job is rejected. It takes no memory.
fn throw(
    job: u32,
    registration: u32,
    worker: u32,
    map: &mut ScopeMap,
    queues: &mut Queues,
    workers: &mut Workers,
    registrations: &mut Registrations,
    clients: &Clients,
    notices: &mut Notices,
)
    requires linked { Linked map.old workers.old registrations.old clients.now }
    requires there { is_there registration registrations.old.rows ≡ true }
    requires worker { has_worker (is_of_in is_parsed registration) worker workers.old.rows ≡ true }
    requires first { has_job (is_first queues.old.rows) job queues.old.rows ≡ true }
    requires queued { has_job (λ row. is_none row.leader) job queues.old.rows ≡ true }
    requires room { length (followers_of job queues.old.rows) + 2 < notices.old.spare }
    ensures did { (rest : Rest) → Did (rules.throw
        (lent map.old workers.old registrations.old clients.now (with_jobs queues.old.rows rest))
        job registration worker)
        notices.old notices.new
        (lent map.new workers.new registrations.new clients.now (with_jobs queues.new.rows rest)) }
    ensures linked { Linked map.new workers.new registrations.new clients.now }
    ensures counts { KeepCounts workers.old workers.new }
{
    discard(registration, worker, workers, registrations, notices);
    let why = Fault::TypeError {
        cause: Cause::Threw,
        index: None,
    };
    reject_and_drop(
        job,
        registration,
        why,
        map,
        queues,
        workers,
        registrations,
        clients,
        notices,
    );
}

// A job's worker begins to install, which is told; the newest worker is remembered. It takes no memory.
fn begin_install(
    job: u32,
    registration: u32,
    worker: u32,
    queues: &mut Queues,
    workers: &mut Workers,
    registrations: &mut Registrations,
    notices: &mut Notices,
)
    requires slots { HasSlots workers.old registrations.old }
    requires numbers { ArePlaces (λ row. row.job.number) queues.old.rows }
    requires head { has_head (λ row. not (is_waiting row.phase)) job queues.old.rows ≡ true }
    requires worker { has_worker (rests_in is_parsed registration) worker workers.old.rows ≡ true }
    requires empty { slot_of in_place.Installing registration registrations.old.rows ≡ None }
    requires room { 0 < notices.old.spare }
    ensures did { (scopes : Scopes) (of_clients : clients.Table) (rest : Rest)
        → Did (rules.begin_install
        (lent scopes workers.old registrations.old of_clients (with_jobs queues.old.rows rest))
        job registration worker)
        notices.old notices.new
        (lent scopes workers.new registrations.new of_clients (with_jobs queues.new.rows rest)) }
    ensures linked { StayLinked workers.old registrations.old workers.new registrations.new }
    ensures counts { KeepCounts workers.old workers.new }
    ensures queued { has_job (λ row. is_none row.leader) job queues.new.rows
        ≡ has_job (λ row. is_none row.leader) job queues.old.rows }
    ensures followers { FollowersStay queues.old.rows queues.new.rows }
    ensures room { notices.new.spare + 1 ≡ notices.old.spare }
{
    let remembered = newest_number(registration, workers, registrations);
    to_installing(registration, worker, workers, registrations);
    note_install(job, remembered, queues);
    notices.push(Notice::Worker {
        worker,
        state: WorkerState::Installing,
    });
}

// A worker installs: its registration gets the job's mode, and the job's promise resolves. It takes no memory.
fn install(
    job: u32,
    mode: Mode,
    registration: u32,
    worker: u32,
    map: &ScopeMap,
    queues: &mut Queues,
    workers: &mut Workers,
    registrations: &mut Registrations,
    clients: &Clients,
    notices: &mut Notices,
)
    requires linked { Linked map.now workers.old registrations.old clients.now }
    requires there { is_there registration registrations.old.rows ≡ true }
    requires worker { has_worker (is_of_in is_parsed registration) worker workers.old.rows ≡ true }
    requires empty { slot_of in_place.Installing registration registrations.old.rows ≡ None }
    requires numbers { ArePlaces (λ row. row.job.number) queues.old.rows }
    requires head { has_head (λ row. not (is_waiting row.phase)) job queues.old.rows ≡ true }
    requires queued { has_job (λ row. is_none row.leader) job queues.old.rows ≡ true }
    requires room { length (followers_of job queues.old.rows) + 2 < notices.old.spare }
    ensures did { (rest : Rest) (of_job : Job) → of_job.number ≡ job → of_job.mode ≡ mode
        → Did (rules.install
        (lent map.now workers.old registrations.old clients.now (with_jobs queues.old.rows rest))
        of_job registration worker)
        notices.old notices.new
        (lent map.now workers.new registrations.new clients.now (with_jobs queues.new.rows rest)) }
    ensures linked { Linked map.now workers.new registrations.new clients.now }
    ensures counts { KeepCounts workers.old workers.new }
{
    set_mode(registration, mode, registrations);
    begin_install(
        job,
        registration,
        worker,
        queues,
        workers,
        registrations,
        notices,
    );
    settle(job, Settlement::Registration(registration), queues, notices);
    notices.push(Notice::UpdateFound(registration));
}

/// A job's script was evaluated: whether its worker installs, or else its script threw. It takes no memory.
pub fn evaluated(
    job: u32,
    map: &mut ScopeMap,
    queues: &mut Queues,
    workers: &mut Workers,
    registrations: &mut Registrations,
    clients: &mut Clients,
    notices: &mut Notices,
    _rows: &mut Rows,
) -> Result<bool, NotNow>
    requires linked { Linked map.old workers.old registrations.old clients.old }
    requires goes { IsUnderWay job queues.old.rows workers.old registrations.old }
    requires room { length (followers_of job queues.old.rows) + 4 ≤ notices.old.spare }
    ensures did { (rest : Rest) → Happened (rules.evaluated
        (lent map.old workers.old registrations.old clients.old (with_jobs queues.old.rows rest))
        job) (evaluated_answer result) notices.old notices.new
        (lent map.old workers.old registrations.old clients.old (with_jobs queues.old.rows rest))
        (lent map.new workers.new registrations.new clients.new (with_jobs queues.new.rows rest)) }
    ensures linked { Linked map.new workers.new registrations.new clients.new }
    ensures counts { KeepCounts workers.old workers.new }
    ensures rows { _rows.new ≡ _rows.old }
{
    let Some(row) = job_in(job, JobPhase::Evaluating, queues) else {
        return Err(NotNow);
    };
    let mode = row.job.mode;
    let Some(registration) = row.registration else {
        return Err(NotNow);
    };
    let Some(worker) = row.worker else {
        return Err(NotNow);
    };
    let throws = match workers.row(worker) {
        Some(made) => made.handlers.get().throws,
        None => return Err(NotNow),
    };
    if throws {
        throw(
            job,
            registration,
            worker,
            map,
            queues,
            workers,
            registrations,
            clients,
            notices,
        );
        return Ok(false);
    }
    install(
        job,
        mode,
        registration,
        worker,
        map,
        queues,
        workers,
        registrations,
        clients,
        notices,
    );
    Ok(true)
}
