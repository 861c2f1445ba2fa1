//! The end of an activate handler (Service Workers, Appendix A, "Activate", from the activate event on).

ghost use Rattle.std.specs.Prelude.{◌≡◌, ◌+◌, ◌≤◌, true, IfSome};
ghost use Rattle.sw_activate.specs.Answers.{ok_answer};
ghost use Rattle.sw_activate.specs.Running.{RunsWhileActivating};
ghost use Rattle.sw_client.specs.Table.{users_of};
ghost use Rattle.sw_reg.specs.Table.{is_there};
ghost use Rattle.sw_rules.specs.Activating as rules;
ghost use Rattle.sw_rules.specs.Noticing.{Did};
ghost use Rattle.sw_tables.specs.Happened.{CountsTasks, Happened, KeepCounts, unsettled_of};
ghost use Rattle.sw_tables.specs.Lent.{Rest, lent};
ghost use Rattle.sw_tables.specs.Linked.{Linked};
ghost use Rattle.sw_tables.specs.Parts.{is_activating, is_of_in};
ghost use Rattle.sw_worker.specs.Table.{has_worker, is_running, worker_at};

use crate::checks::recheck;
use sw_client::Clients;
use sw_data::Phase;
use sw_queue::Queues;
use sw_reg::Registrations;
use sw_rules::Notices;
use sw_scope::ScopeMap;
use sw_tables::{NotNow, become_activated, end_handler, ended_handler};
use sw_worker::Workers;

// The activate handler of a worker has ended: it becomes activated, and its registration is rechecked.
fn finish_activate(
    registration: u32,
    worker: u32,
    map: &ScopeMap,
    workers: &mut Workers,
    registrations: &mut Registrations,
    clients: &mut Clients,
    notices: &mut Notices,
)
    requires linked { Linked map.now workers.old registrations.old clients.old }
    requires running { has_worker is_running worker workers.old.rows ≡ true }
    requires worker { has_worker (is_of_in is_activating registration) worker workers.old.rows
        ≡ true }
    requires there { is_there registration registrations.old.rows ≡ true }
    requires room { 6 + users_of registration clients.old.rows ≤ notices.old.spare }
    ensures did { (rest : Rest) → Did (rules.finish_activate
        (lent map.now workers.old registrations.old clients.old rest) registration worker)
        notices.old notices.new
        (lent map.now workers.new registrations.new clients.new rest) }
    ensures linked { Linked map.now workers.new registrations.new clients.new }
    ensures counts { unsettled_of worker workers.old.rows ≡ 0
        → KeepCounts workers.old workers.new }
{
    end_handler(worker, workers, registrations);
    become_activated(registration, worker, workers, registrations, notices);
    recheck(registration, map, workers, registrations, clients, notices);
}

/// The activate handler of a worker ends, where it has made its calls: the worker is activated. It takes no memory.
pub fn activated(
    worker: u32,
    map: &mut ScopeMap,
    _queues: &mut Queues,
    workers: &mut Workers,
    registrations: &mut Registrations,
    clients: &mut Clients,
    notices: &mut Notices,
) -> Result<(), NotNow>
    requires linked { Linked map.old workers.old registrations.old clients.old }
    requires handler { RunsWhileActivating worker workers.old.rows }
    requires room { IfSome (worker_at worker workers.old.rows)
        (λ row. 6 + users_of row.registration clients.old.rows ≤ notices.old.spare) }
    ensures did { (rest : Rest) → CountsTasks workers.old rest.tasks → Happened
        (rules.activated (lent map.old workers.old registrations.old clients.old rest) worker)
        (ok_answer result) notices.old notices.new
        (lent map.old workers.old registrations.old clients.old rest)
        (lent map.new workers.new registrations.new clients.new rest) }
    ensures linked { Linked map.new workers.new registrations.new clients.new }
    ensures counts { KeepCounts workers.old workers.new }
    ensures queues { _queues.new ≡ _queues.old }
{
    let Some(row) = workers.row(worker) else {
        return Err(NotNow);
    };
    let Some(_) = ended_handler(Phase::Activate, row) else {
        return Err(NotNow);
    };
    let registration = row.registration;
    finish_activate(
        registration,
        worker,
        map,
        workers,
        registrations,
        clients,
        notices,
    );
    Ok(())
}
