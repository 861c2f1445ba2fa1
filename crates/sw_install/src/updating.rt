//! The run of an update job (Service Workers, Appendix A, "Update", before the fetch).

ghost use Rattle.std.specs.Prelude.{◌≡◌, ◌+◌, ◌≤◌, true, length, bytes_eq};
ghost use Rattle.std.specs.Option.{option_map_or};
ghost use Rattle.sw_client.specs.Table as clients;
ghost use Rattle.sw_data.specs.declared.rows.JobKind.TheVariants as job_kind;
ghost use Rattle.sw_install.specs.Runs.{IsNextDraw, IsOfKind, drawn_by, ran_answer, script_of};
ghost use Rattle.sw_queue.specs.Kept.{followers_of};
ghost use Rattle.sw_rules.specs.Registering as rules;
ghost use Rattle.sw_rules.specs.Rows.{newest_worker};
ghost use Rattle.sw_scope.specs.Scopes.{Scopes};
ghost use Rattle.sw_tables.specs.Happened.{Happened, KeepCounts, with_jobs};
ghost use Rattle.sw_tables.specs.Lent.{Rest, lent};
ghost use Rattle.sw_tables.specs.Linked.{ArePlaces, HasSlots, Linked};

use crate::calls::{Ran, Rows};
use crate::starting::fetch_script;
use sw_client::Clients;
use sw_data::{Cause, Fault, Job, Settlement};
use sw_queue::Queues;
use sw_reg::Registrations;
use sw_rules::Notices;
use sw_scope::ScopeMap;
use sw_tables::{NotNow, mapped_row, may_run, newest_row, resolve_and_finish};
use sw_worker::Workers;

// Whether the newest worker of a registration, if any, has the job's script. It takes no memory.
fn has_script(
    job: &Job,
    registration: u32,
    workers: &Workers,
    registrations: &Registrations,
) -> bool
    requires { HasSlots workers.now registrations.now }
    ensures { (scopes : Scopes) (of_clients : clients.Table) (rest : Rest)
        → result ≡ option_map_or (λ newest. bytes_eq newest.script job.now.script)
        (newest_worker (lent scopes workers.now registrations.now of_clients rest) registration)
        true }
{
    match newest_row(registration, workers, registrations) {
        Some(newest) => newest.script == job.script,
        None => true,
    }
}

/// An update job runs. It takes no memory.
pub fn run_update(
    job: u32,
    ordinal: u32,
    map: &mut ScopeMap,
    queues: &mut Queues,
    workers: &mut Workers,
    registrations: &mut Registrations,
    clients: &mut Clients,
    notices: &mut Notices,
    _rows: &mut Rows,
) -> Result<Ran, NotNow>
    requires linked { Linked map.old workers.old registrations.old clients.old }
    requires numbers { ArePlaces (λ row. row.job.number) queues.old.rows }
    requires kind { IsOfKind job_kind.Update job queues.old.rows }
    requires room { length (followers_of job queues.old.rows) + 4 ≤ notices.old.spare }
    ensures did { (rest : Rest) → IsNextDraw ordinal rest.draws job queues.old.rows → Happened
        (rules.run
        (lent map.old workers.old registrations.old clients.old (with_jobs queues.old.rows rest))
        job) (ran_answer result) notices.old notices.new
        (lent map.old workers.old registrations.old clients.old (with_jobs queues.old.rows rest))
        (lent map.new workers.new registrations.new clients.new
        (drawn_by result (script_of job queues.old.rows) (with_jobs queues.new.rows rest))) }
    ensures linked { Linked map.new workers.new registrations.new clients.new }
    ensures counts { KeepCounts workers.old workers.new }
    ensures rows { _rows.new ≡ _rows.old }
{
    if !may_run(job, queues) {
        return Err(NotNow);
    }
    let Some(row) = queues.row(job) else {
        return Err(NotNow);
    };
    let Some(mapped) = mapped_row(&row.job.key, &row.job.scope, map, registrations) else {
        let why = Fault::TypeError {
            cause: Cause::NoRegistration,
            index: None,
        };
        resolve_and_finish(job, Settlement::Fault(why), queues, notices);
        return Ok(Ran::Finished);
    };
    let registration = mapped.number;
    if !has_script(&row.job, registration, workers, registrations) {
        let why = Fault::TypeError {
            cause: Cause::Script,
            index: None,
        };
        resolve_and_finish(job, Settlement::Fault(why), queues, notices);
        return Ok(Ran::Finished);
    }
    fetch_script(job, registration, ordinal, queues, registrations);
    Ok(Ran::Fetch(ordinal))
}
