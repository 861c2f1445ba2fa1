//! Clients that leave a registration (Service Workers, Appendix A, "Handle Service Worker Client Unload").

ghost use Rattle.std.specs.Prelude.{◌≡◌, ◌+◌, ◌≤◌, Some};
ghost use Rattle.sw_activate.specs.Answers.{left, ok_answer};
ghost use Rattle.sw_activate.specs.Names.{KeepNames};
ghost use Rattle.sw_rules.specs.Noticing.{Did};
ghost use Rattle.sw_rules.specs.Registrations as rules;
ghost use Rattle.sw_tables.specs.Happened.{Happened, KeepCounts};
ghost use Rattle.sw_tables.specs.Lent.{Rest, lent};
ghost use Rattle.sw_tables.specs.Linked.{Linked};

use crate::checks::release;
use sw_client::Clients;
use sw_queue::Queues;
use sw_reg::Registrations;
use sw_rules::Notices;
use sw_scope::ScopeMap;
use sw_tables::{NotNow, leave, used_registration};
use sw_worker::Workers;

// A client leaves the registration that it uses, and counts no longer as using it; it stays in its list.
pub(crate) fn unload_client(
    client: u32,
    map: &ScopeMap,
    workers: &mut Workers,
    registrations: &mut Registrations,
    clients: &mut Clients,
    notices: &mut Notices,
)
    requires linked { Linked map.now workers.old registrations.old clients.old }
    requires room { 5 ≤ notices.old.spare }
    ensures did { (rest : Rest) → Did (rules.unload
        (lent map.now workers.old registrations.old clients.old rest) client)
        notices.old notices.new
        (lent map.now workers.new registrations.new clients.new rest) }
    ensures linked { Linked map.now workers.new registrations.new clients.new }
    ensures counts { KeepCounts workers.old workers.new }
    ensures names { KeepNames workers.old registrations.old clients.old
        workers.new registrations.new clients.new }
    ensures room { notices.old.spare ≤ notices.new.spare + 5 }
{
    match used_registration(client, clients) {
        Some(registration) => {
            leave(client, clients);
            release(registration, map, workers, registrations, clients, notices);
        }
        None => {}
    }
}

/// A client leaves the registration that it uses, and counts no longer as using it; it stays in its list. It takes no
/// memory.
pub fn unload(
    client: u32,
    map: &mut ScopeMap,
    _queues: &mut Queues,
    workers: &mut Workers,
    registrations: &mut Registrations,
    clients: &mut Clients,
    notices: &mut Notices,
) -> Result<(), NotNow>
    requires linked { Linked map.old workers.old registrations.old clients.old }
    requires room { 5 ≤ notices.old.spare }
    ensures did { (rest : Rest) → Happened
        (Some (left (lent map.old workers.old registrations.old clients.old rest) client))
        (ok_answer result) notices.old notices.new
        (lent map.old workers.old registrations.old clients.old rest)
        (lent map.new workers.new registrations.new clients.new rest) }
    ensures linked { Linked map.new workers.new registrations.new clients.new }
    ensures counts { KeepCounts workers.old workers.new }
    ensures queues { _queues.new ≡ _queues.old }
{
    unload_client(client, map, workers, registrations, clients, notices);
    Ok(())
}
