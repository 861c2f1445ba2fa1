//! What is looked at again when an event ends or a client leaves.

ghost use Rattle.std.specs.Prelude.{◌≡◌, ◌+◌, ◌≤◌, true, if◌then◌else◌};
ghost use Rattle.sw_activate.specs.Names.{KeepNames};
ghost use Rattle.sw_client.specs.Table.{users_of};
ghost use Rattle.sw_reg.specs.Table.{is_there};
ghost use Rattle.sw_rules.specs.Noticing.{Did};
ghost use Rattle.sw_rules.specs.Registrations as rules;
ghost use Rattle.sw_rules.specs.Rows.{is_mapped};
ghost use Rattle.sw_rules.specs.Told.{quiet};
ghost use Rattle.sw_tables.specs.Happened.{KeepCounts};
ghost use Rattle.sw_tables.specs.Lent.{Rest, lent};
ghost use Rattle.sw_tables.specs.Linked.{Linked};

use sw_client::Clients;
use sw_reg::Registrations;
use sw_rules::Notices;
use sw_scope::ScopeMap;
use sw_tables::{is_mapped, is_used, try_activate, try_clear};
use sw_worker::Workers;

// Try Clear Registration where a registration is unregistered.
fn clear_unmapped(
    registration: u32,
    map: &ScopeMap,
    workers: &mut Workers,
    registrations: &mut Registrations,
    clients: &Clients,
    notices: &mut Notices,
)
    requires linked { Linked map.now workers.old registrations.old clients.now }
    requires there { is_there registration registrations.old.rows ≡ true }
    requires room { 3 ≤ notices.old.spare }
    ensures did { (rest : Rest) → Did
        (if is_mapped (lent map.now workers.old registrations.old clients.now rest) registration
        then quiet (lent map.now workers.old registrations.old clients.now rest)
        else rules.try_clear (lent map.now workers.old registrations.old clients.now rest)
        registration)
        notices.old notices.new
        (lent map.now workers.new registrations.new clients.now rest) }
    ensures linked { Linked map.now workers.new registrations.new clients.now }
    ensures counts { KeepCounts workers.old workers.new }
    ensures names { KeepNames workers.old registrations.old clients.now
        workers.new registrations.new clients.now }
    ensures room { notices.old.spare ≤ notices.new.spare + 3 }
{
    if is_mapped(registration, map, registrations) {
        return;
    }
    try_clear(registration, workers, registrations, clients, notices);
}

/// Try Clear Registration where a registration is unregistered, then Try Activate. It takes no memory.
pub fn recheck(
    registration: u32,
    map: &ScopeMap,
    workers: &mut Workers,
    registrations: &mut Registrations,
    clients: &mut Clients,
    notices: &mut Notices,
)
    requires linked { Linked map.now workers.old registrations.old clients.old }
    requires there { is_there registration registrations.old.rows ≡ true }
    requires room { 5 + users_of registration clients.old.rows ≤ notices.old.spare }
    ensures did { (rest : Rest) → Did (rules.recheck
        (lent map.now workers.old registrations.old clients.old rest) registration)
        notices.old notices.new
        (lent map.now workers.new registrations.new clients.new rest) }
    ensures linked { Linked map.now workers.new registrations.new clients.new }
    ensures counts { KeepCounts workers.old workers.new }
    ensures names { KeepNames workers.old registrations.old clients.old
        workers.new registrations.new clients.new }
    ensures room { notices.old.spare
        ≤ notices.new.spare + (5 + users_of registration clients.old.rows) }
{
    clear_unmapped(registration, map, workers, registrations, clients, notices);
    try_activate(registration, workers, registrations, clients, notices);
}

/// A registration that a client has left is rechecked, unless another client uses it. It takes no memory.
pub fn release(
    registration: u32,
    map: &ScopeMap,
    workers: &mut Workers,
    registrations: &mut Registrations,
    clients: &mut Clients,
    notices: &mut Notices,
)
    requires linked { Linked map.now workers.old registrations.old clients.old }
    requires there { is_there registration registrations.old.rows ≡ true }
    requires room { 5 ≤ notices.old.spare }
    ensures did { (rest : Rest) → Did (rules.release
        (lent map.now workers.old registrations.old clients.old rest) registration)
        notices.old notices.new
        (lent map.now workers.new registrations.new clients.new rest) }
    ensures linked { Linked map.now workers.new registrations.new clients.new }
    ensures counts { KeepCounts workers.old workers.new }
    ensures names { KeepNames workers.old registrations.old clients.old
        workers.new registrations.new clients.new }
    ensures room { notices.old.spare ≤ notices.new.spare + 5 }
{
    if is_used(registration, clients) {
        return;
    }
    recheck(registration, map, workers, registrations, clients, notices);
}
