//! Clients that come, leave their registration, get a controller, and go.

ghost use Rattle.std.specs.Prelude.{◌≡◌, ◌+◌, ◌<◌, ◌≤◌, ℕ, Some};
ghost use Rattle.sw_client.specs.Table.{FitsClient, users_of};
ghost use Rattle.sw_reg.specs.Table as registrations;
ghost use Rattle.sw_rules.specs.Clients as rules;
ghost use Rattle.sw_rules.specs.Noticing.{Did};
ghost use Rattle.sw_rules.specs.Registrations.{left_by};
ghost use Rattle.sw_scope.specs.Scopes.{Scopes};
ghost use Rattle.sw_tables.specs.Lent.{Rest, lent};
ghost use Rattle.sw_tables.specs.Linked.{IsNoted, Linked, registration_of};
ghost use Rattle.sw_worker.specs.Table as workers;

use sw_client::{Clients, NewClient};
use sw_data::Notice;
use sw_rules::Notices;

/// A client has no controller any more. It takes no memory.
pub fn leave(client: u32, clients: &mut Clients)
    ensures state { (scopes : Scopes) (of_workers : workers.Table)
        (of_registrations : registrations.Table) (rest : Rest)
        → lent scopes of_workers of_registrations clients.new rest
        ≡ left_by client (lent scopes of_workers of_registrations clients.old rest) }
    ensures linked { (scopes : Scopes) (of_workers : workers.Table)
        (of_registrations : registrations.Table)
        → Linked scopes of_workers of_registrations clients.old
        → Linked scopes of_workers of_registrations clients.new }
    ensures users { (registration : ℕ)
        → users_of registration clients.new.rows ≤ users_of registration clients.old.rows }
    ensures known { clients.new.known ≡ clients.old.known }
{
    clients.unset_controller(client);
}

/// A client's controller becomes this worker of a registration, and the client is told. It takes no memory.
pub fn take_control(
    client: u32,
    worker: u32,
    registration: u32,
    clients: &mut Clients,
    notices: &mut Notices,
)
    requires known { registration < clients.old.known }
    requires room { 0 < notices.old.spare }
    ensures did { (scopes : Scopes) (of_workers : workers.Table)
        (of_registrations : registrations.Table) (rest : Rest)
        → Did (rules.take_control (lent scopes of_workers of_registrations clients.old rest)
        worker client) notices.old notices.new
        (lent scopes of_workers of_registrations clients.new rest) }
    ensures linked { (scopes : Scopes) (of_workers : workers.Table)
        (of_registrations : registrations.Table)
        → registration_of of_workers.rows worker ≡ Some registration
        → Linked scopes of_workers of_registrations clients.old
        → Linked scopes of_workers of_registrations clients.new }
    ensures known { clients.new.known ≡ clients.old.known }
    ensures room { notices.new.spare + 1 ≡ notices.old.spare }
{
    let _ = clients.set_controller(client, (worker, registration));
    notices.push(Notice::ControllerChange(client));
}

/// A client is no longer there. It takes no memory.
pub fn remove(client: u32, clients: &mut Clients)
    ensures state { (scopes : Scopes) (of_workers : workers.Table)
        (of_registrations : registrations.Table) (rest : Rest)
        → lent scopes of_workers of_registrations clients.new rest
        ≡ (rules.remove_client (lent scopes of_workers of_registrations clients.old rest)
        client).state }
    ensures linked { (scopes : Scopes) (of_workers : workers.Table)
        (of_registrations : registrations.Table)
        → Linked scopes of_workers of_registrations clients.old
        → Linked scopes of_workers of_registrations clients.new }
    ensures known { clients.new.known ≡ clients.old.known }
{
    let _ = clients.remove(client);
}

/// Adds a client whose row was made, last. It takes no memory.
#[tactic(auto, unfolding(sw_rules::specs::Clients::add_client))]
pub fn add(new: NewClient, clients: &mut Clients)
    requires { FitsClient new clients.old }
    ensures state { (scopes : Scopes) (of_workers : workers.Table)
        (of_registrations : registrations.Table) (rest : Rest)
        → lent scopes of_workers of_registrations clients.new rest
        ≡ (rules.add_client (lent scopes of_workers of_registrations clients.old rest)
        new.client).state }
    ensures linked { (scopes : Scopes) (of_workers : workers.Table)
        (of_registrations : registrations.Table)
        → IsNoted of_workers new
        → Linked scopes of_workers of_registrations clients.old
        → Linked scopes of_workers of_registrations clients.new }
    ensures known { clients.new.known ≡ clients.old.known }
{
    clients.add_put(new);
}
