//! The owed Try Activate (Service Workers, Appendix A, "Install", its last step).

ghost use Rattle.std.specs.Prelude.{◌≡◌, ◌+◌, ◌≤◌, true};
ghost use Rattle.sw_activate.specs.Answers.{activate_answer};
ghost use Rattle.sw_client.specs.Table as clients_of;
ghost use Rattle.sw_client.specs.Table.{users_of};
ghost use Rattle.sw_reg.specs.Table.{is_there};
ghost use Rattle.sw_rules.specs.Activating as rules;
ghost use Rattle.sw_scope.specs.Scopes.{Scopes};
ghost use Rattle.sw_tables.specs.Happened.{Happened, KeepCounts};
ghost use Rattle.sw_tables.specs.Lent.{Rest, lent};
ghost use Rattle.sw_tables.specs.Linked.{ArePlaces, Linked};
ghost use Rattle.sw_worker.specs.Table as workers_of;

use sw_client::Clients;
use sw_queue::Queues;
use sw_reg::Registrations;
use sw_rules::Notices;
use sw_scope::ScopeMap;
use sw_tables::{NotNow, pay};
use sw_worker::Workers;

// Whether a registration is owed a Try Activate.
fn is_owed(registration: u32, registrations: &Registrations) -> bool
    requires { ArePlaces (λ row. row.number) registrations.now.rows }
    ensures owed { (scopes : Scopes) (of_workers : workers_of.Table) (of_clients : clients_of.Table)
        (rest : Rest) → result
        ≡ rules.is_owed (lent scopes of_workers registrations.now of_clients rest) registration }
    ensures there { result ≡ true → is_there registration registrations.now.rows ≡ true }
{
    match registrations.row(registration) {
        Some(row) => row.owed,
        None => false,
    }
}

/// An owed Try Activate: the new active worker, or none. It takes no memory.
pub fn try_activate(
    registration: u32,
    map: &mut ScopeMap,
    _queues: &mut Queues,
    workers: &mut Workers,
    registrations: &mut Registrations,
    clients: &mut Clients,
    notices: &mut Notices,
) -> Result<Option<u32>, NotNow>
    requires linked { Linked map.old workers.old registrations.old clients.old }
    requires room { 2 + users_of registration clients.old.rows ≤ notices.old.spare }
    ensures did { (rest : Rest) → Happened
        (rules.tryactivate
        (lent map.old workers.old registrations.old clients.old rest) registration)
        (activate_answer result) notices.old notices.new
        (lent map.old workers.old registrations.old clients.old rest)
        (lent map.new workers.new registrations.new clients.new rest) }
    ensures linked { Linked map.new workers.new registrations.new clients.new }
    ensures counts { KeepCounts workers.old workers.new }
    ensures queues { _queues.new ≡ _queues.old }
{
    if !is_owed(registration, registrations) {
        return Err(NotNow);
    }
    pay(registration, registrations);
    Ok(sw_tables::try_activate(registration, workers, registrations, clients, notices))
}
