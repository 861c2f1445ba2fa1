//! What is noted of a job that runs.

ghost use Rattle.std.specs.Prelude.{◌≡◌, true, not, ◌&&◌, find, is_none, Some, option_and_then, if◌then◌else◌, None};
ghost use Rattle.std.specs.Option.{option_copied};
ghost use Rattle.sw_data.specs.declared.rows.JobPhase.TheVariants as job_phase;
ghost use Rattle.sw_install.specs.Runs.{fetches};
ghost use Rattle.sw_install.specs.Underway.{is_in};
ghost use Rattle.sw_queue.specs.Tables.{FollowersStay, has_head};
ghost use Rattle.sw_rules.specs.Rows.{changed, is_in_phase, is_job, is_waiting};
ghost use Rattle.sw_tables.specs.Linked.{ArePlaces};

use sw_data::{JobPhase, JobRow};
use sw_queue::{JobNotes, Queues};

// Whether a job joined no other and is in this phase.
fn is_in_phase(row: &JobRow, phase: JobPhase) -> bool
    ensures { result ≡ is_in_phase (is_in phase) row.now }
{
    row.leader.is_none() && row.phase == phase
}

// The row of a job that joined no other, in this phase. It takes no memory.
pub(crate) fn job_in(job: u32, phase: JobPhase, queues: &Queues) -> Option<&JobRow>
    ensures { option_copied result ≡ option_and_then
        (λ row. if is_in_phase (is_in phase) row then Some row else None)
        (find (is_job job) queues.now.rows) }
{
    match queues.row(job) {
        Some(row) => {
            if is_in_phase(row, phase) {
                Some(row)
            } else {
                None
            }
        }
        None => None,
    }
}

// A job's worker begins to install, and the newest worker is remembered. It takes no memory.
pub(crate) fn note_install(job: u32, remembered: Option<u32>, queues: &mut Queues)
    requires numbers { ArePlaces (λ row. row.job.number) queues.old.rows }
    requires head { has_head (λ row. not (is_waiting row.phase)) job queues.old.rows ≡ true }
    ensures rows { queues.new.rows ≡ changed (is_job job)
        (λ row. record row { phase = job_phase.Installing; remembered = remembered })
        queues.old.rows }
    ensures followers { FollowersStay queues.old.rows queues.new.rows }
{
    if let Some(row) = queues.row(job) {
        let notes = JobNotes {
            phase: JobPhase::Installing,
            remembered,
            registration: row.registration,
            fetch: row.fetch,
            worker: row.worker,
        };
        queues.note(job, notes);
    }
}

// A worker was made for a job, which goes on to its evaluation. It takes no memory.
pub(crate) fn note_worker(job: u32, worker: u32, queues: &mut Queues)
    requires numbers { ArePlaces (λ row. row.job.number) queues.old.rows }
    requires head { has_head (λ row. not (is_waiting row.phase)) job queues.old.rows ≡ true }
    ensures rows { queues.new.rows ≡ changed (is_job job)
        (λ row. record row { phase = job_phase.Evaluating; worker = Some worker })
        queues.old.rows }
    ensures followers { FollowersStay queues.old.rows queues.new.rows }
{
    if let Some(row) = queues.row(job) {
        let notes = JobNotes {
            phase: JobPhase::Evaluating,
            worker: Some(worker),
            registration: row.registration,
            fetch: row.fetch,
            remembered: row.remembered,
        };
        queues.note(job, notes);
    }
}

// A job that has started fetches its script for a registration, with this number. It takes no memory.
pub(crate) fn note_fetch(job: u32, registration: u32, ordinal: u32, queues: &mut Queues)
    requires numbers { ArePlaces (λ row. row.job.number) queues.old.rows }
    requires head { has_head (λ row. not (is_waiting row.phase)) job queues.old.rows ≡ true }
    ensures rows { queues.new.rows
        ≡ changed (is_job job) (fetches registration ordinal) queues.old.rows }
{
    if let Some(row) = queues.row(job) {
        let notes = JobNotes {
            phase: JobPhase::Fetching,
            registration: Some(registration),
            fetch: Some(ordinal),
            remembered: row.remembered,
            worker: row.worker,
        };
        queues.note(job, notes);
    }
}
