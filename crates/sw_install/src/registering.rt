//! The run of a register job (Service Workers, Appendix A, "Register").

ghost use Rattle.std.specs.Prelude.{◌≡◌, ◌+◌, ◌<◌, ◌≤◌, ◌&&◌, codes, true, false, length, bytes_eq, find, Some, None, IfSome};
ghost use Rattle.std.specs.Option.{option_map_or};
ghost use Rattle.sw_client.specs.Table as clients;
ghost use Rattle.sw_data.specs.declared.rows.Job.{Job};
ghost use Rattle.sw_data.specs.declared.rows.JobKind.TheVariants as job_kind;
ghost use Rattle.sw_data.specs.declared.rows.JobRow.{JobRow};
ghost use Rattle.sw_install.specs.Runs.{HasWhatItMaps, IsNewRegistration, IsNextDraw, IsOfKind, IsRefusal, drawn, drawn_by, is_ready, ran_answer, script_of};
ghost use Rattle.sw_queue.specs.Kept.{followers_of};
ghost use Rattle.sw_queue.specs.Tables.{has_job};
ghost use Rattle.sw_rules.specs.Jobs.{next_draw, same_kind, same_mode};
ghost use Rattle.sw_rules.specs.Noticing.{Did};
ghost use Rattle.sw_rules.specs.Registering as rules;
ghost use Rattle.sw_rules.specs.Registrations as mapping;
ghost use Rattle.sw_rules.specs.Rows.{is_job, newest_worker};
ghost use Rattle.sw_rules.specs.Told.{followed};
ghost use Rattle.sw_scope.specs.Scopes.{Scopes, maps};
ghost use Rattle.sw_tables.specs.Happened.{Happened, KeepCounts, with_jobs};
ghost use Rattle.sw_tables.specs.Lent.{Rest, lent};
ghost use Rattle.sw_tables.specs.Linked.{ArePlaces, HasSlots, Linked};

use crate::calls::{Ran, Rows};
use crate::starting::fetch_script;
use sw_client::Clients;
use sw_data::{Fault, Job, Mode, Settlement, WorkerRow};
use sw_queue::Queues;
use sw_reg::{NewRegistration, Registrations};
use sw_rules::{Notices, same_kind, same_mode};
use sw_scope::{NewScope, ScopeMap};
use sw_tables::{NotNow, map_registration, mapped_row, may_run, newest_row, resolve_and_finish};
use sw_worker::Workers;

// Whether a worker has the script and the type of a job, and its registration's mode is that of the job.
fn is_of_job(newest: &WorkerRow, job: &Job, mode: Mode) -> bool
    ensures { result ≡ (bytes_eq newest.now.script job.now.script
        && same_kind newest.now.kind job.now.kind && same_mode mode job.now.mode) }
{
    newest.script == job.script && same_kind(newest.kind, job.kind) && same_mode(mode, job.mode)
}

// Whether a registration of this mode has the script, the type and the mode of a job already. It takes no memory.
fn is_registered(
    job: &Job,
    registration: u32,
    mode: Mode,
    workers: &Workers,
    registrations: &Registrations,
) -> bool
    requires { HasSlots workers.now registrations.now }
    ensures { (scopes : Scopes) (of_clients : clients.Table) (rest : Rest)
        → result ≡ option_map_or
        (λ newest. bytes_eq newest.script job.now.script && same_kind newest.kind job.now.kind
        && same_mode mode job.now.mode)
        (newest_worker (lent scopes workers.now registrations.now of_clients rest) registration)
        false }
{
    match newest_row(registration, workers, registrations) {
        Some(newest) => is_of_job(newest, job, mode),
        None => false,
    }
}

// A registration of a job is made and mapped, and the job's script is to be fetched for it. It takes no memory.
fn map_new(
    job: u32,
    ordinal: u32,
    row: NewRegistration,
    scope: NewScope,
    map: &mut ScopeMap,
    queues: &mut Queues,
    workers: &Workers,
    registrations: &mut Registrations,
    clients: &Clients,
    notices: &mut Notices,
)
    requires linked { Linked map.old workers.now registrations.old clients.now }
    requires numbers { ArePlaces (λ row. row.job.number) queues.old.rows }
    requires ready { has_job (is_ready queues.old.rows) job queues.old.rows ≡ true }
    requires new { IfSome (find (is_job job) queues.old.rows) (λ of_job. IsNewRegistration row scope
        of_job.job map.old registrations.old clients.now) }
    requires unmapped { maps map.old row.key row.scope ≡ None }
    requires room { 0 < notices.old.spare }
    ensures did { (rest : Rest) (of_job : JobRow) → find (is_job job) queues.old.rows ≡ Some of_job
        → ordinal ≡ next_draw rest.draws of_job.job.script
        → rest.preload (length registrations.old.rows) ≡ false
        → rest.preload_value (length registrations.old.rows) ≡ codes "true"
        → Did (followed (mapping.map_registration
        (lent map.old workers.now registrations.old clients.now (with_jobs queues.old.rows rest))
        of_job.job) (λ after. rules.fetch_script after of_job.job (length registrations.old.rows)))
        notices.old notices.new
        (lent map.new workers.now registrations.new clients.now
        (drawn of_job.job.script (with_jobs queues.new.rows rest))) }
    ensures linked { Linked map.new workers.now registrations.new clients.now }
{
    let registration = map_registration(row, scope, map, registrations, clients, notices);
    fetch_script(job, registration, ordinal, queues, registrations);
}

/// A register job runs, whose first security fault is this one, if any. It takes no memory.
pub fn run_register(
    job: u32,
    refusal: Option<Fault>,
    ordinal: u32,
    map: &mut ScopeMap,
    queues: &mut Queues,
    workers: &mut Workers,
    registrations: &mut Registrations,
    clients: &mut Clients,
    notices: &mut Notices,
    rows: &mut Rows,
) -> Result<Ran, NotNow>
    requires linked { Linked map.old workers.old registrations.old clients.old }
    requires numbers { ArePlaces (λ row. row.job.number) queues.old.rows }
    requires kind { IsOfKind job_kind.Register job queues.old.rows }
    requires refusal { IsRefusal refusal job queues.old.rows }
    requires new { HasWhatItMaps refusal rows.old.registration rows.old.scope job queues.old.rows
        map.old registrations.old clients.old }
    requires room { length (followers_of job queues.old.rows) + 4 ≤ notices.old.spare }
    ensures did { (rest : Rest) → IsNextDraw ordinal rest.draws job queues.old.rows
        → rest.preload (length registrations.old.rows) ≡ false
        → rest.preload_value (length registrations.old.rows) ≡ codes "true"
        → Happened (rules.run
        (lent map.old workers.old registrations.old clients.old (with_jobs queues.old.rows rest))
        job) (ran_answer result) notices.old notices.new
        (lent map.old workers.old registrations.old clients.old (with_jobs queues.old.rows rest))
        (lent map.new workers.new registrations.new clients.new
        (drawn_by result (script_of job queues.old.rows) (with_jobs queues.new.rows rest))) }
    ensures linked { Linked map.new workers.new registrations.new clients.new }
    ensures counts { KeepCounts workers.old workers.new }
    ensures worker { rows.new.worker ≡ rows.old.worker }
{
    if !may_run(job, queues) {
        return Err(NotNow);
    }
    if let Some(why) = refusal {
        resolve_and_finish(job, Settlement::Fault(why), queues, notices);
        return Ok(Ran::Finished);
    }
    let Some(row) = queues.row(job) else {
        return Err(NotNow);
    };
    let Some(mapped) = mapped_row(&row.job.key, &row.job.scope, map, registrations) else {
        let (Some(new), Some(scope)) = (rows.registration.take(), rows.scope.take()) else {
            return Err(NotNow);
        };
        map_new(
            job,
            ordinal,
            new,
            scope,
            map,
            queues,
            workers,
            registrations,
            clients,
            notices,
        );
        return Ok(Ran::Fetch(ordinal));
    };
    let registration = mapped.number;
    if is_registered(&row.job, registration, mapped.mode, workers, registrations) {
        resolve_and_finish(job, Settlement::Registration(registration), queues, notices);
        return Ok(Ran::Finished);
    }
    fetch_script(job, registration, ordinal, queues, registrations);
    Ok(Ran::Fetch(ordinal))
}
