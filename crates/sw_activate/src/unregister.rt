//! The run of an unregister job (Service Workers, Appendix A, "Unregister").

ghost use Rattle.std.specs.Prelude.{◌≡◌, ◌+◌, ◌≤◌, length, find, true, is_none, Some, IfSome, option_map};
ghost use Rattle.std.specs.Option.{option_copied};
ghost use Rattle.sw_activate.specs.Answers.{finished_answer, unregister_refusal};
ghost use Rattle.sw_client.specs.Table as clients_of;
ghost use Rattle.sw_data.specs.declared.rows.JobKind.TheVariants as job_kind;
ghost use Rattle.sw_queue.specs.Kept.{followers_of};
ghost use Rattle.sw_queue.specs.Tables.{has_job};
ghost use Rattle.sw_reg.specs.Table.{is_there};
ghost use Rattle.sw_rules.specs.Noticing.{Did};
ghost use Rattle.sw_rules.specs.Registering as rules;
ghost use Rattle.sw_rules.specs.Rows.{is_first, is_job, mapped_registration};
ghost use Rattle.sw_tables.specs.Happened.{Happened, KeepCounts, with_jobs};
ghost use Rattle.sw_tables.specs.Lent.{Rest, lent};
ghost use Rattle.sw_tables.specs.Linked.{ArePlaces, HasScopes, Linked};
ghost use Rattle.sw_worker.specs.Table as workers_of;

use sw_client::Clients;
use sw_data::{Fault, RegistrationRow, Settlement};
use sw_queue::Queues;
use sw_reg::Registrations;
use sw_rules::Notices;
use sw_scope::ScopeMap;
use sw_tables::{
    NotNow, finish, mapped_row, may_run, resolve_and_finish, settle, try_clear, unmap,
};
use sw_worker::Workers;

// A registration leaves the map, its job's promise resolves, and it is cleared where it may be.
fn unregister_mapped(
    job: u32,
    registration: u32,
    map: &mut ScopeMap,
    queues: &mut Queues,
    workers: &mut Workers,
    registrations: &mut Registrations,
    clients: &Clients,
    notices: &mut Notices,
)
    requires linked { Linked map.old workers.old registrations.old clients.now }
    requires there { is_there registration registrations.old.rows ≡ true }
    requires first { has_job (is_first queues.old.rows) job queues.old.rows ≡ true }
    requires leads { has_job (λ row. is_none row.leader) job queues.old.rows ≡ true }
    requires room { 5 + length (followers_of job queues.old.rows) ≤ notices.old.spare }
    ensures did { (rest : Rest) → IfSome (find (is_job job) queues.old.rows) (λ row.
        Did (rules.unregister_mapped
        (lent map.old workers.old registrations.old clients.now (with_jobs queues.old.rows rest))
        row.job registration)
        notices.old notices.new
        (lent map.new workers.new registrations.new clients.now (with_jobs queues.new.rows rest))) }
    ensures linked { Linked map.new workers.new registrations.new clients.now }
    ensures counts { KeepCounts workers.old workers.new }
{
    unmap(registration, map, registrations, notices);
    settle(job, Settlement::Truth(true), queues, notices);
    try_clear(registration, workers, registrations, clients, notices);
    finish(job, queues);
}

// The mapped registration of the key and the scope of a job.
fn mapped_of(
    job: u32,
    map: &ScopeMap,
    queues: &Queues,
    registrations: &Registrations,
) -> Option<u32>
    requires scopes { HasScopes map.now registrations.now }
    requires places { ArePlaces (λ row. row.number) registrations.now.rows }
    ensures mapped { (of_workers : workers_of.Table) (of_clients : clients_of.Table) (rest : Rest)
        → IfSome (find (is_job job) queues.now.rows) (λ row. result
        ≡ option_map (λ of. of.number) (mapped_registration
        (lent map.now of_workers registrations.now of_clients rest) row.job.key row.job.scope)) }
    ensures there { IfSome result (λ number. is_there number registrations.now.rows ≡ true) }
{
    match queues.row(job) {
        Some(row) => number_of(mapped_row(&row.job.key, &row.job.scope, map, registrations)),
        None => None,
    }
}

// The number of a registration, where there is one.
fn number_of(row: Option<&RegistrationRow>) -> Option<u32>
    ensures { result ≡ option_map (λ of. of.number) (option_copied row.entry) }
{
    match row {
        Some(row) => Some(row.number),
        None => None,
    }
}

// An unregister job runs, which may.
fn run_allowed(
    job: u32,
    refusal: Option<Fault>,
    map: &mut ScopeMap,
    queues: &mut Queues,
    workers: &mut Workers,
    registrations: &mut Registrations,
    clients: &Clients,
    notices: &mut Notices,
)
    requires linked { Linked map.old workers.old registrations.old clients.now }
    requires job { IfSome (find (is_job job) queues.old.rows)
        (λ row. refusal ≡ unregister_refusal row.job) }
    requires first { has_job (is_first queues.old.rows) job queues.old.rows ≡ true }
    requires leads { has_job (λ row. is_none row.leader) job queues.old.rows ≡ true }
    requires room { 5 + length (followers_of job queues.old.rows) ≤ notices.old.spare }
    ensures did { (rest : Rest) → IfSome (find (is_job job) queues.old.rows) (λ row.
        Did (rules.run_unregister
        (lent map.old workers.old registrations.old clients.now (with_jobs queues.old.rows rest))
        row.job).told
        notices.old notices.new
        (lent map.new workers.new registrations.new clients.now (with_jobs queues.new.rows rest))) }
    ensures linked { Linked map.new workers.new registrations.new clients.now }
    ensures counts { KeepCounts workers.old workers.new }
{
    match refusal {
        Some(why) => resolve_and_finish(job, Settlement::Fault(why), queues, notices),
        None => match mapped_of(job, map, queues, registrations) {
            Some(registration) => unregister_mapped(
                job,
                registration,
                map,
                queues,
                workers,
                registrations,
                clients,
                notices,
            ),
            None => resolve_and_finish(job, Settlement::Truth(false), queues, notices),
        },
    }
}

/// An unregister job runs, where it may: its security fault, if any, is the given one. It takes no memory.
pub fn run_unregister(
    job: u32,
    refusal: Option<Fault>,
    map: &mut ScopeMap,
    queues: &mut Queues,
    workers: &mut Workers,
    registrations: &mut Registrations,
    clients: &mut Clients,
    notices: &mut Notices,
) -> Result<(), NotNow>
    requires linked { Linked map.old workers.old registrations.old clients.old }
    requires job { IfSome (find (is_job job) queues.old.rows) (λ row.
        (row.job.what ≡ job_kind.Unregister) × (refusal ≡ unregister_refusal row.job)) }
    requires room { 5 + length (followers_of job queues.old.rows) ≤ notices.old.spare }
    ensures did { (rest : Rest) → Happened (rules.run
        (lent map.old workers.old registrations.old clients.old (with_jobs queues.old.rows rest))
        job) (finished_answer result) notices.old notices.new
        (lent map.old workers.old registrations.old clients.old (with_jobs queues.old.rows rest))
        (lent map.new workers.new registrations.new clients.new (with_jobs queues.new.rows rest)) }
    ensures linked { Linked map.new workers.new registrations.new clients.new }
    ensures counts { KeepCounts workers.old workers.new }
{
    if !may_run(job, queues) {
        return Err(NotNow);
    }
    run_allowed(
        job,
        refusal,
        map,
        queues,
        workers,
        registrations,
        clients,
        notices,
    );
    Ok(())
}
