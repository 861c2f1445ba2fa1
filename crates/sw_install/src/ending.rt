//! The end of the install handler of a job's worker (Service Workers, Appendix A, "Install", from the install event on).

ghost use Rattle.std.specs.Prelude.{◌≡◌, ◌+◌, ◌<◌, ◌≤◌, ◌||◌, true, length, is_none, is_some, if◌then◌else◌};
ghost use Rattle.sw_data.specs.declared.rows.JobRow.{JobRow};
ghost use Rattle.sw_install.specs.Answers.{installed_answer};
ghost use Rattle.sw_install.specs.Underway.{IsUnderWay};
ghost use Rattle.sw_queue.specs.Kept.{followers_of};
ghost use Rattle.sw_queue.specs.Tables.{has_head};
ghost use Rattle.sw_reg.specs.Table.{is_there};
ghost use Rattle.sw_rules.specs.Installing as rules;
ghost use Rattle.sw_rules.specs.Noticing.{Did};
ghost use Rattle.sw_rules.specs.Registrations as mapping;
ghost use Rattle.sw_rules.specs.State.{Worker};
ghost use Rattle.sw_rules.specs.Told.{quiet};
ghost use Rattle.sw_tables.specs.Happened.{CountsTasks, Happened, KeepCounts, unsettled_of, with_jobs};
ghost use Rattle.sw_tables.specs.Lent.{Rest, lent};
ghost use Rattle.sw_tables.specs.Linked.{HasSlots, Linked};
ghost use Rattle.sw_tables.specs.Parts.{SlotsBecome, StayLinked, is_installing, is_of_in, rests_in};
ghost use Rattle.sw_worker.specs.Table.{has_worker, is_running};

use crate::calls::Rows;
use crate::notes::job_in;
use sw_client::Clients;
use sw_data::{HandlerRow, JobPhase, Phase, WorkerRow};
use sw_queue::Queues;
use sw_reg::Registrations;
use sw_rules::Notices;
use sw_scope::ScopeMap;
use sw_tables::{NotNow, become_waiting, discard, end_handler, ended_handler, finish, unmap};
use sw_worker::Workers;

// The install handler of a worker ends. It takes no memory.
fn end_install(registration: u32, worker: u32, workers: &mut Workers, registrations: &Registrations)
    requires slots { HasSlots workers.old registrations.now }
    requires running { has_worker is_running worker workers.old.rows ≡ true }
    requires worker { has_worker (is_of_in is_installing registration) worker workers.old.rows
        ≡ true }
    ensures state { SlotsBecome (λ state. (rules.end_handler state worker).state)
        workers.old registrations.now workers.new registrations.now }
    ensures slots { HasSlots workers.new registrations.now }
    ensures linked { StayLinked workers.old registrations.now workers.new registrations.now }
    ensures counts { unsettled_of worker workers.old.rows ≡ 0
        → KeepCounts workers.old workers.new }
    ensures worker { has_worker (rests_in is_installing registration) worker workers.new.rows
        ≡ true }
{
    end_handler(worker, workers, registrations);
}

// A registration that had no worker before leaves the map. It takes no memory.
fn leave(
    registration: u32,
    remembered: Option<u32>,
    map: &mut ScopeMap,
    workers: &Workers,
    registrations: &Registrations,
    clients: &Clients,
    notices: &mut Notices,
)
    requires linked { Linked map.old workers.now registrations.now clients.now }
    requires there { is_there registration registrations.now.rows ≡ true }
    requires room { 0 < notices.old.spare }
    ensures did { (rest : Rest) → Did (if is_none remembered
        then mapping.unmap
        (lent map.old workers.now registrations.now clients.now rest) registration
        else quiet (lent map.old workers.now registrations.now clients.now rest))
        notices.old notices.new (lent map.new workers.now registrations.now clients.now rest) }
    ensures linked { Linked map.new workers.now registrations.now clients.now }
{
    if remembered.is_none() {
        unmap(registration, map, registrations, notices);
    }
}

// An install failed: the worker becomes redundant, a registration that had no worker before it leaves the map, and the
// job is over. It takes no memory.
fn fail_install(
    job: u32,
    remembered: Option<u32>,
    registration: u32,
    worker: u32,
    map: &mut ScopeMap,
    queues: &mut Queues,
    workers: &mut Workers,
    registrations: &mut Registrations,
    clients: &Clients,
    notices: &mut Notices,
)
    requires linked { Linked map.old workers.old registrations.old clients.now }
    requires there { is_there registration registrations.old.rows ≡ true }
    requires running { has_worker is_running worker workers.old.rows ≡ true }
    requires worker { has_worker (is_of_in is_installing registration) worker workers.old.rows
        ≡ true }
    requires head { has_head (λ row. is_some row.settled) job queues.old.rows ≡ true }
    requires room { 2 ≤ notices.old.spare }
    ensures did { (rest : Rest) (row : JobRow) → row.job.number ≡ job → row.remembered ≡ remembered
        → Did (rules.fail_install
        (lent map.old workers.old registrations.old clients.now (with_jobs queues.old.rows rest))
        row registration worker)
        notices.old notices.new
        (lent map.new workers.new registrations.new clients.now (with_jobs queues.new.rows rest)) }
    ensures linked { Linked map.new workers.new registrations.new clients.now }
    ensures counts { unsettled_of worker workers.old.rows ≡ 0
        → KeepCounts workers.old workers.new }
{
    end_install(registration, worker, workers, registrations);
    discard(registration, worker, workers, registrations, notices);
    leave(
        registration,
        remembered,
        map,
        workers,
        registrations,
        clients,
        notices,
    );
    finish(job, queues);
}

// An install succeeded: the worker waits, and the job is over. It takes no memory.
fn finish_install(
    job: u32,
    registration: u32,
    worker: u32,
    map: &ScopeMap,
    queues: &mut Queues,
    workers: &mut Workers,
    registrations: &mut Registrations,
    clients: &Clients,
    notices: &mut Notices,
)
    requires linked { Linked map.now workers.old registrations.old clients.now }
    requires running { has_worker is_running worker workers.old.rows ≡ true }
    requires worker { has_worker (is_of_in is_installing registration) worker workers.old.rows
        ≡ true }
    requires head { has_head (λ row. is_some row.settled) job queues.old.rows ≡ true }
    requires room { 2 ≤ notices.old.spare }
    ensures did { (rest : Rest) (made : Worker) → made.number ≡ worker
        → Did (rules.finish_install
        (lent map.now workers.old registrations.old clients.now (with_jobs queues.old.rows rest))
        job registration made)
        notices.old notices.new
        (lent map.now workers.new registrations.new clients.now (with_jobs queues.new.rows rest)) }
    ensures linked { Linked map.now workers.new registrations.new clients.now }
    ensures counts { unsettled_of worker workers.old.rows ≡ 0
        → KeepCounts workers.old workers.new }
{
    end_install(registration, worker, workers, registrations);
    become_waiting(registration, worker, workers, registrations, notices);
    finish(job, queues);
}

// Whether an install failed, whose handler is at its end.
fn has_failed(made: &WorkerRow, handler: HandlerRow) -> bool
    ensures { result ≡ (made.now.handlers.install_fails || handler.faulted) }
{
    made.handlers.get().install_fails || handler.faulted
}

/// The install handler of a job's worker ends, where it has made its calls: whether the install succeeded. It takes no
/// memory.
pub fn installed(
    job: u32,
    map: &mut ScopeMap,
    queues: &mut Queues,
    workers: &mut Workers,
    registrations: &mut Registrations,
    clients: &mut Clients,
    notices: &mut Notices,
    _rows: &mut Rows,
) -> Result<bool, NotNow>
    requires linked { Linked map.old workers.old registrations.old clients.old }
    requires goes { IsUnderWay job queues.old.rows workers.old registrations.old }
    requires room { length (followers_of job queues.old.rows) + 4 ≤ notices.old.spare }
    ensures did { (rest : Rest) → CountsTasks workers.old rest.tasks → Happened (rules.installed
        (lent map.old workers.old registrations.old clients.old (with_jobs queues.old.rows rest))
        job) (installed_answer result) notices.old notices.new
        (lent map.old workers.old registrations.old clients.old (with_jobs queues.old.rows rest))
        (lent map.new workers.new registrations.new clients.new (with_jobs queues.new.rows rest)) }
    ensures linked { Linked map.new workers.new registrations.new clients.new }
    ensures counts { KeepCounts workers.old workers.new }
    ensures rows { _rows.new ≡ _rows.old }
{
    let Some(row) = job_in(job, JobPhase::Installing, queues) else {
        return Err(NotNow);
    };
    let remembered = row.remembered;
    let Some(registration) = row.registration else {
        return Err(NotNow);
    };
    let Some(worker) = row.worker else {
        return Err(NotNow);
    };
    let Some(made) = workers.row(worker) else {
        return Err(NotNow);
    };
    let Some(handler) = ended_handler(Phase::Install, made) else {
        return Err(NotNow);
    };
    if has_failed(made, handler) {
        fail_install(
            job,
            remembered,
            registration,
            worker,
            map,
            queues,
            workers,
            registrations,
            clients,
            notices,
        );
        return Ok(false);
    }
    finish_install(
        job,
        registration,
        worker,
        map,
        queues,
        workers,
        registrations,
        clients,
        notices,
    );
    Ok(true)
}
