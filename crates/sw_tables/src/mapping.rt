//! The map of scopes and the rows of registrations: making, mode, leaving the map, and the owed Try Activate.

ghost use Rattle.std.specs.Prelude.{◌≡◌, ◌+◌, ◌<◌, ℕ, List, codes, false, true, length, None, if◌then◌else◌};
ghost use Rattle.sw_client.specs.Table as clients;
ghost use Rattle.sw_data.specs.declared.rows.Job.{Job};
ghost use Rattle.sw_reg.specs.Edits.{new_registration};
ghost use Rattle.sw_reg.specs.Fits.{FitsRegistration};
ghost use Rattle.sw_reg.specs.Table.{is_there};
ghost use Rattle.sw_rules.specs.Activating.{paid};
ghost use Rattle.sw_rules.specs.Noticing.{Did};
ghost use Rattle.sw_rules.specs.Registrations as rules;
ghost use Rattle.sw_rules.specs.Rows.{is_number};
ghost use Rattle.sw_scope.specs.Scopes.{FitsScope, maps, without_scope};
ghost use Rattle.sw_tables.specs.Lent.{Rest, lent};
ghost use Rattle.sw_tables.specs.Linked.{ArePlaces, HasScopes, Linked};
ghost use Rattle.sw_tables.specs.Parts.{SlotsBecome, StayLinked};
ghost use Rattle.sw_worker.specs.Table as workers;

use crate::found::is_number;
use sw_client::Clients;
use sw_data::{Mode, Notice, RegistrationRow};
use sw_reg::{NewRegistration, Registrations};
use sw_rules::Notices;
use sw_scope::{NewScope, ScopeMap};

// Takes the scope of a registration out of the map, where it is mapped to this one.
fn forget(row: &RegistrationRow, map: &mut ScopeMap)
    ensures { (key scope : List ℕ) → maps map.new key scope
        ≡ (if is_number (maps map.old row.now.key row.now.scope) row.now.number
        then without_scope map.old row.now.key row.now.scope key scope
        else maps map.old key scope) }
{
    if is_number(map.get(&row.key, &row.scope), row.number) {
        let _ = map.remove(&row.key, &row.scope);
    }
}

/// A registration leaves the map. It takes no memory.
pub fn unmap(
    registration: u32,
    map: &mut ScopeMap,
    registrations: &Registrations,
    notices: &mut Notices,
)
    requires scopes { HasScopes map.old registrations.now }
    requires places { ArePlaces (λ row. row.number) registrations.now.rows }
    requires there { is_there registration registrations.now.rows ≡ true }
    requires room { 0 < notices.old.spare }
    ensures did { (of_workers : workers.Table) (of_clients : clients.Table) (rest : Rest)
        → Did (rules.unmap (lent map.old of_workers registrations.now of_clients rest)
        registration) notices.old notices.new
        (lent map.new of_workers registrations.now of_clients rest) }
    ensures scopes { HasScopes map.new registrations.now }
    ensures linked { (of_workers : workers.Table) (of_clients : clients.Table)
        → Linked map.old of_workers registrations.now of_clients
        → Linked map.new of_workers registrations.now of_clients }
    ensures room { notices.new.spare + 1 ≡ notices.old.spare }
{
    if let Some(row) = registrations.row(registration) {
        forget(row, map);
    }
    notices.push(Notice::Unmapped(registration));
}

/// A registration is made and mapped; the answer is its number. It takes no memory.
pub fn map_registration(
    row: NewRegistration,
    scope: NewScope,
    map: &mut ScopeMap,
    registrations: &mut Registrations,
    clients: &Clients,
    notices: &mut Notices,
) -> u32
    requires fits { FitsRegistration row registrations.old }
    requires new { row ≡ new_registration row.number row.key row.scope row.mode }
    requires mappable { FitsScope scope map.old }
    requires key { scope.key ≡ row.key }
    requires scope { scope.scope ≡ row.scope }
    requires same { scope.number ≡ row.number }
    requires unmapped { maps map.old row.key row.scope ≡ None }
    requires places { ArePlaces (λ row. row.number) registrations.old.rows }
    requires known { length registrations.old.rows < clients.now.known }
    requires room { 0 < notices.old.spare }
    ensures did { (of_workers : workers.Table) (rest : Rest) (job : Job)
        → rest.preload (length registrations.old.rows) ≡ false
        → rest.preload_value (length registrations.old.rows) ≡ codes "true"
        → job.key ≡ row.key → job.scope ≡ row.scope → job.mode ≡ row.mode
        → Did (rules.map_registration
        (lent map.old of_workers registrations.old clients.now rest) job)
        notices.old notices.new
        (lent map.new of_workers registrations.new clients.now rest) }
    ensures linked { (of_workers : workers.Table)
        → Linked map.old of_workers registrations.old clients.now
        → Linked map.new of_workers registrations.new clients.now }
    ensures number { result ≡ length registrations.old.rows }
    ensures room { notices.new.spare + 1 ≡ notices.old.spare }
{
    map.set_put(scope);
    let number = registrations.make_put(row);
    notices.push(Notice::Mapped(number));
    number
}

/// A registration gets a mode. It takes no memory.
pub fn set_mode(registration: u32, mode: Mode, registrations: &mut Registrations)
    requires { is_there registration registrations.old.rows ≡ true }
    ensures state { (of_workers : workers.Table)
        → SlotsBecome (λ state. (rules.set_mode state registration mode).state)
        of_workers registrations.old of_workers registrations.new }
    ensures linked { (of_workers : workers.Table)
        → StayLinked of_workers registrations.old of_workers registrations.new }
{
    registrations.set_mode(registration, mode);
}

/// A registration is no longer owed a Try Activate. It takes no memory.
pub fn pay(registration: u32, registrations: &mut Registrations)
    requires { is_there registration registrations.old.rows ≡ true }
    ensures state { (of_workers : workers.Table) → SlotsBecome (paid registration)
        of_workers registrations.old of_workers registrations.new }
    ensures linked { (of_workers : workers.Table)
        → StayLinked of_workers registrations.old of_workers registrations.new }
{
    registrations.owe(registration, false);
}
