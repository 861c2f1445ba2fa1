//! What follows the fetch of a job's script (Service Workers, Appendix A, "Update", from the fetch on).

ghost use Rattle.std.specs.Prelude.{◌≡◌, ◌+◌, ◌<◌, ◌≤◌, ◌++◌, ◌∷◌, [], ℕ, Option, true, not, length, is_none};
ghost use Rattle.sw_client.specs.Table as clients;
ghost use Rattle.sw_data.specs.declared.recordings.Fetched.{Fetched};
ghost use Rattle.sw_data.specs.declared.recordings.FetchLine.{FetchLine};
ghost use Rattle.sw_data.specs.declared.rows.Job.{Job};
ghost use Rattle.sw_data.specs.declared.rows.JobRow.{JobRow};
ghost use Rattle.sw_install.specs.Answers.{fetched_answer};
ghost use Rattle.sw_install.specs.Fetches.{ComesTo, HasNewWorker, IsNewWorker};
ghost use Rattle.sw_install.specs.Underway.{IsUnderWay};
ghost use Rattle.sw_install.specs.declared.calls.FetchOutcome.TheVariants as in_case;
ghost use Rattle.sw_queue.specs.Kept.{followers_of};
ghost use Rattle.sw_queue.specs.Tables.{has_head, has_job};
ghost use Rattle.sw_reg.specs.Table.{is_there};
ghost use Rattle.sw_rules.specs.Installing as rules;
ghost use Rattle.sw_rules.specs.Noticing.{Did};
ghost use Rattle.sw_rules.specs.Rows.{is_first, is_waiting};
ghost use Rattle.sw_scope.specs.Scopes.{Scopes};
ghost use Rattle.sw_tables.specs.Happened.{Happened, KeepCounts, with_jobs};
ghost use Rattle.sw_tables.specs.Lent.{Rest, lent, shown_worker};
ghost use Rattle.sw_tables.specs.Linked.{ArePlaces, Linked};
ghost use Rattle.sw_tables.specs.Parts.{StayLinked};
ghost use Rattle.sw_worker.specs.Table as workers;

use crate::calls::{FetchOutcome, FetchedAnswer, Rows};
use crate::dropping::reject_and_drop;
use crate::notes::{job_in, note_worker};
use sw_client::Clients;
use sw_data::{JobPhase, Mode, Notice, Settlement, WorkerState};
use sw_queue::Queues;
use sw_reg::Registrations;
use sw_rules::Notices;
use sw_scope::ScopeMap;
use sw_tables::{NotNow, resolve_and_finish, set_mode};
use sw_worker::{NewWorker, Workers};

// A registration whose worker is the same gets the job's mode, and the job is over. It takes no memory.
fn keep_script(
    job: u32,
    mode: Mode,
    registration: u32,
    map: &ScopeMap,
    queues: &mut Queues,
    workers: &Workers,
    registrations: &mut Registrations,
    clients: &Clients,
    notices: &mut Notices,
)
    requires linked { Linked map.now workers.now registrations.old clients.now }
    requires there { is_there registration registrations.old.rows ≡ true }
    requires first { has_job (is_first queues.old.rows) job queues.old.rows ≡ true }
    requires queued { has_job (λ row. is_none row.leader) job queues.old.rows ≡ true }
    requires room { length (followers_of job queues.old.rows) < notices.old.spare }
    ensures did { (rest : Rest) (of_job : Job) → of_job.number ≡ job → of_job.mode ≡ mode
        → Did (rules.keep_script
        (lent map.now workers.now registrations.old clients.now (with_jobs queues.old.rows rest))
        of_job registration)
        notices.old notices.new
        (lent map.now workers.now registrations.new clients.now (with_jobs queues.new.rows rest)) }
    ensures linked { Linked map.now workers.now registrations.new clients.now }
{
    set_mode(registration, mode, registrations);
    resolve_and_finish(job, Settlement::Registration(registration), queues, notices);
}

// A parsed worker is added; the answer is its number. It takes no memory.
fn add_worker(new: NewWorker, workers: &mut Workers, registrations: &Registrations) -> u32
    requires { IsNewWorker new workers.old registrations.now }
    ensures rows { workers.new.rows ≡ workers.old.rows ++ new ∷ [] }
    ensures events { workers.new.events ≡ workers.old.events }
    ensures linked { StayLinked workers.old registrations.now workers.new registrations.now }
    ensures counts { KeepCounts workers.old workers.new }
    ensures number { result ≡ length workers.old.rows }
{
    workers.make_put(new)
}

// A worker is made for a job, which goes on to its evaluation. It takes no memory.
fn make_worker(
    job: u32,
    new: NewWorker,
    queues: &mut Queues,
    workers: &mut Workers,
    registrations: &Registrations,
    notices: &mut Notices,
)
    requires new { IsNewWorker new workers.old registrations.now }
    requires numbers { ArePlaces (λ row. row.job.number) queues.old.rows }
    requires head { has_head (λ row. not (is_waiting row.phase)) job queues.old.rows ≡ true }
    requires room { 0 < notices.old.spare }
    ensures did { (scopes : Scopes) (of_clients : clients.Table) (rest : Rest)
        (row : JobRow) (registration : ℕ) (fetched : Fetched) → row.job.number ≡ job
        → shown_worker new ≡ rules.made_worker
        (lent scopes workers.old registrations.now of_clients (with_jobs queues.old.rows rest))
        row registration fetched
        → Did (rules.make_worker
        (lent scopes workers.old registrations.now of_clients (with_jobs queues.old.rows rest))
        row registration fetched)
        notices.old notices.new
        (lent scopes workers.new registrations.now of_clients (with_jobs queues.new.rows rest)) }
    ensures linked { StayLinked workers.old registrations.now workers.new registrations.now }
    ensures counts { KeepCounts workers.old workers.new }
{
    let worker = add_worker(new, workers, registrations);
    note_worker(job, worker, queues);
    notices.push(Notice::Worker {
        worker,
        state: WorkerState::Parsed,
    });
}

/// The fetch of a job's script has ended, and came to this outcome; the row of the worker that it may add is among the
/// finished rows. It takes no memory.
pub fn fetched(
    job: u32,
    outcome: FetchOutcome,
    map: &mut ScopeMap,
    queues: &mut Queues,
    workers: &mut Workers,
    registrations: &mut Registrations,
    clients: &mut Clients,
    notices: &mut Notices,
    rows: &mut Rows,
) -> Result<FetchedAnswer, NotNow>
    requires linked { Linked map.old workers.old registrations.old clients.old }
    requires goes { IsUnderWay job queues.old.rows workers.old registrations.old }
    requires worker { outcome ≡ in_case.Changed
        → HasNewWorker rows.old.worker workers.old registrations.old }
    requires room { length (followers_of job queues.old.rows) + 4 ≤ notices.old.spare }
    ensures did { (rest : Rest) (line : Option FetchLine) → ComesTo outcome rows.old.worker
        (lent map.old workers.old registrations.old clients.old (with_jobs queues.old.rows rest))
        job line
        → Happened (rules.fetched
        (lent map.old workers.old registrations.old clients.old (with_jobs queues.old.rows rest))
        job line) (fetched_answer result) notices.old notices.new
        (lent map.old workers.old registrations.old clients.old (with_jobs queues.old.rows rest))
        (lent map.new workers.new registrations.new clients.new (with_jobs queues.new.rows rest)) }
    ensures linked { Linked map.new workers.new registrations.new clients.new }
    ensures counts { KeepCounts workers.old workers.new }
    ensures registration { rows.new.registration ≡ rows.old.registration }
    ensures scope { rows.new.scope ≡ rows.old.scope }
{
    let Some(row) = job_in(job, JobPhase::Fetching, queues) else {
        return Err(NotNow);
    };
    let mode = row.job.mode;
    let Some(registration) = row.registration else {
        return Err(NotNow);
    };
    match outcome {
        FetchOutcome::Rejected(why) => {
            reject_and_drop(
                job,
                registration,
                why,
                map,
                queues,
                workers,
                registrations,
                clients,
                notices,
            );
            Ok(FetchedAnswer::Rejected)
        }
        FetchOutcome::Unchanged => {
            keep_script(
                job,
                mode,
                registration,
                map,
                queues,
                workers,
                registrations,
                clients,
                notices,
            );
            Ok(FetchedAnswer::Unchanged)
        }
        FetchOutcome::Changed => {
            if let Some(new) = rows.worker.take() {
                make_worker(job, new, queues, workers, registrations, notices);
            }
            Ok(FetchedAnswer::Changed)
        }
    }
}
