//! Jobs that may run, and how they end.

ghost use Rattle.std.specs.Prelude.{◌≡◌, ◌+◌, ◌<◌, ◌≤◌, true, ◌&&◌, length, is_none, is_some};
ghost use Rattle.sw_queue.specs.Kept.{followers_of};
ghost use Rattle.sw_queue.specs.Tables.{FollowersStay, has_head, has_job};
ghost use Rattle.sw_rules.specs.Jobs as rules;
ghost use Rattle.sw_rules.specs.Rows.{is_in_phase, is_first, is_waiting};
ghost use Rattle.sw_tables.specs.Happened.{JobsBecome, JobsDid};

use sw_data::{JobPhase, JobRow, Settlement};
use sw_queue::Queues;
use sw_rules::Notices;

// Whether a job joined no other and waits.
fn waits(row: &JobRow) -> bool
    ensures { result ≡ is_in_phase is_waiting row.now }
{
    row.leader.is_none() && row.phase == JobPhase::Waiting
}

// Whether a job stands first in its queue.
fn is_first(row: &JobRow, queues: &Queues) -> bool
    ensures { result ≡ is_first queues.now.rows row.now }
{
    match queues.first(&row.job.key, &row.job.scope) {
        Some(first) => first == row.job.number,
        None => false,
    }
}

/// Whether a job may run: it waits, and stands first in its queue. It takes no memory.
pub fn may_run(job: u32, queues: &Queues) -> bool
    ensures { result ≡ has_job
        (λ row. is_in_phase is_waiting row && is_first queues.now.rows row) job queues.now.rows }
{
    match queues.row(job) {
        Some(row) => waits(row) && is_first(row, queues),
        None => false,
    }
}

/// The promises of a queued job and of the jobs that joined it get this value, where they have none, and their makers
/// are told. It takes no memory.
#[tactic(auto, unfolding(sw_rules::specs::Jobs::settle))]
pub fn settle(job: u32, value: Settlement, queues: &mut Queues, notices: &mut Notices)
    requires there { has_job (λ row. is_none row.leader) job queues.old.rows ≡ true }
    requires room { length (followers_of job queues.old.rows) < notices.old.spare }
    ensures did { JobsDid (λ state. rules.settle state job value) notices.old notices.new
        queues.old.rows queues.new.rows }
    ensures heads { has_job (is_first queues.old.rows) job queues.old.rows ≡ true
        → has_head (λ row. is_some row.settled) job queues.new.rows ≡ true }
    ensures followers { FollowersStay queues.old.rows queues.new.rows }
    ensures room { notices.old.spare
        ≤ notices.new.spare + (length (followers_of job queues.old.rows) + 1) }
{
    queues.tell_settled(job, value, notices);
    queues.settle(job, value);
}

/// The first job of its queue, whose promise has settled, leaves its queue. It takes no memory.
#[tactic(auto, unfolding(sw_rules::specs::Jobs::finish))]
pub fn finish(job: u32, queues: &mut Queues)
    requires { has_head (λ row. is_some row.settled) job queues.old.rows ≡ true }
    ensures state { JobsBecome (λ state. (rules.finish state job).state)
        queues.old.rows queues.new.rows }
    ensures followers { FollowersStay queues.old.rows queues.new.rows }
{
    queues.finish(job);
}

/// The promise of the first job of its queue gets a value, and the job leaves its queue. It takes no memory.
pub fn resolve_and_finish(job: u32, value: Settlement, queues: &mut Queues, notices: &mut Notices)
    requires first { has_job (is_first queues.old.rows) job queues.old.rows ≡ true }
    requires there { has_job (λ row. is_none row.leader) job queues.old.rows ≡ true }
    requires room { length (followers_of job queues.old.rows) < notices.old.spare }
    ensures did { JobsDid (λ state. rules.resolve_and_finish state job value)
        notices.old notices.new queues.old.rows queues.new.rows }
    ensures followers { FollowersStay queues.old.rows queues.new.rows }
    ensures room { notices.old.spare
        ≤ notices.new.spare + (length (followers_of job queues.old.rows) + 1) }
{
    settle(job, value, queues, notices);
    finish(job, queues);
}
