//! A job that may run goes on to the fetch of its script.

ghost use Rattle.std.specs.Prelude.{◌≡◌, true, not};
ghost use Rattle.sw_client.specs.Table as clients;
ghost use Rattle.sw_data.specs.declared.rows.Job.{Job};
ghost use Rattle.sw_data.specs.declared.rows.JobPhase.TheVariants as job_phase;
ghost use Rattle.sw_install.specs.Runs.{HasItsNames, drawn, fetches, is_ready};
ghost use Rattle.sw_queue.specs.Tables.{has_head, has_job, with_phase};
ghost use Rattle.sw_rules.specs.Jobs.{next_draw};
ghost use Rattle.sw_rules.specs.Noticing.{Did, NoticeList};
ghost use Rattle.sw_rules.specs.Registering as rules;
ghost use Rattle.sw_rules.specs.Rows.{changed, is_job, is_waiting};
ghost use Rattle.sw_scope.specs.Scopes.{Scopes};
ghost use Rattle.sw_tables.specs.Happened.{with_jobs};
ghost use Rattle.sw_tables.specs.Lent.{Rest, lent};
ghost use Rattle.sw_tables.specs.Linked.{ArePlaces};
ghost use Rattle.sw_worker.specs.Table as workers;

use crate::notes::note_fetch;
use sw_queue::Queues;
use sw_reg::Registrations;

// The first job of the queue of a registration's key and scope starts. It takes no memory.
fn start(job: u32, registration: u32, queues: &mut Queues, registrations: &Registrations)
    requires numbers { ArePlaces (λ row. row.job.number) queues.old.rows }
    requires ready { has_job (is_ready queues.old.rows) job queues.old.rows ≡ true }
    requires names { HasItsNames registration job queues.old.rows registrations.now.rows }
    ensures rows { queues.new.rows
        ≡ changed (is_job job) (with_phase job_phase.Fetching) queues.old.rows }
    ensures head { has_head (λ row. not (is_waiting row.phase)) job queues.new.rows ≡ true }
{
    if let Some(row) = registrations.row(registration) {
        let _ = queues.start(&row.key, &row.scope);
    }
}

// A job's script is to be fetched for a registration of its key and scope, with this number. It takes no memory.
pub(crate) fn fetch_script(
    job: u32,
    registration: u32,
    ordinal: u32,
    queues: &mut Queues,
    registrations: &Registrations,
)
    requires numbers { ArePlaces (λ row. row.job.number) queues.old.rows }
    requires ready { has_job (is_ready queues.old.rows) job queues.old.rows ≡ true }
    requires names { HasItsNames registration job queues.old.rows registrations.now.rows }
    ensures rows { queues.new.rows
        ≡ changed (is_job job) (fetches registration ordinal) queues.old.rows }
    ensures did { (scopes : Scopes) (of_workers : workers.Table) (of_clients : clients.Table)
        (rest : Rest) (of_job : Job) (list : NoticeList) → of_job.number ≡ job
        → ordinal ≡ next_draw rest.draws of_job.script
        → Did (rules.fetch_script
        (lent scopes of_workers registrations.now of_clients (with_jobs queues.old.rows rest))
        of_job registration) list list
        (lent scopes of_workers registrations.now of_clients
        (drawn of_job.script (with_jobs queues.new.rows rest))) }
{
    start(job, registration, queues, registrations);
    note_fetch(job, registration, ordinal, queues);
}
