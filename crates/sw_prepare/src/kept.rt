//! Registrations that are kept, and the changes of one.

ghost use Rattle.std.specs.Prelude.{◌≡◌, IfOk, option_map, option_to_list};
ghost use Rattle.std.specs.Option.{option_copied};
ghost use Rattle.sw_activate.specs.Claiming.{activation_change};
ghost use Rattle.sw_client.specs.Table as clients;
ghost use Rattle.sw_data.specs.declared.storage.Change.TheVariants as change;
ghost use Rattle.sw_prepare.specs.Kept.{is_kept_row, kept_at, kept_registration, names_of, unless};
ghost use Rattle.sw_rules.specs.Jobs as rules;
ghost use Rattle.sw_rules.specs.Registrations as mapping;
ghost use Rattle.sw_rules.specs.Rows.{is_number};
ghost use Rattle.sw_rules.specs.Told.{kept_change};
ghost use Rattle.sw_tables.specs.Lent.{Rest, lent, shown_registration};
ghost use Rattle.sw_tables.specs.Linked.{HasSlots};
ghost use Rattle.sw_worker.specs.Table as workers;

use crate::lists::{nothing, one};
use std::alloc::Global;
use sw_data::{Change, Mode, NoMemory, RegistrationRow, Text};
use sw_reg::Registrations;
use sw_rules::same_mode;
use sw_scope::ScopeMap;

// Whether a number is there and is this one.
fn is_number(number: Option<u32>, other: u32) -> bool
    ensures { result ≡ is_number number other }
{
    match number {
        Some(number) => number == other,
        None => false,
    }
}

// Whether a registration is mapped, and has a waiting or an active worker.
fn is_kept(row: &RegistrationRow, map: &ScopeMap) -> bool
    ensures { result ≡ is_kept_row map.now row.now }
{
    is_number(map.get(&row.key, &row.scope), row.number)
        && (row.waiting.is_some() || row.active.is_some())
}

// The row of a registration in the table, where it is kept.
fn kept_at<'a>(
    registration: u32,
    map: &ScopeMap,
    registrations: &'a Registrations,
) -> Option<&'a RegistrationRow>
    ensures { option_copied result ≡ kept_at map.now registrations.now.rows registration }
{
    match registrations.row(registration) {
        Some(row) => { if is_kept(row, map) { Some(row) } else { None } }
        None => None,
    }
}

// The row of a registration, where it is kept. It takes no memory.
pub(crate) fn kept_row<'a>(
    registration: u32,
    map: &ScopeMap,
    registrations: &'a Registrations,
) -> Option<&'a RegistrationRow>
    ensures { (of_workers : workers.Table) (of_clients : clients.Table) (rest : Rest)
        → HasSlots of_workers registrations.now
        → option_map (shown_registration map.now rest) (option_copied result)
        ≡ kept_registration (lent map.now of_workers registrations.now of_clients rest)
        registration }
{
    kept_at(registration, map, registrations)
}

// The change, where there is one.
pub(crate) fn told(alloc: Global, change: Option<Change>) -> Result<Vec<Change>, NoMemory>
    ensures { IfOk result (λ changes. changes.items ≡ option_to_list change) }
{
    match change {
        Some(change) => one(alloc, change),
        None => Ok(nothing(alloc)),
    }
}

// The key and the scope of a registration, where there is one.
pub(crate) fn names(
    alloc: Global,
    row: Option<&RegistrationRow>,
) -> Result<Option<(Text, Text)>, NoMemory>
    ensures { IfOk result (λ names. names ≡ option_map names_of (option_copied row.entry)) }
{
    match row {
        Some(row) => Ok(Some((row.key.copy(alloc)?, row.scope.copy(alloc)?))),
        None => Ok(None),
    }
}

// The waiting worker of the registration of this key and scope becomes the active one.
fn active(names: Option<(Text, Text)>) -> Option<Change>
    ensures { result ≡ option_map (λ names. change.Active names.0 names.1) names }
{
    match names {
        Some((key, scope)) => Some(Change::Active { key, scope }),
        None => None,
    }
}

// The registration of this key and scope leaves the map.
fn gone(names: Option<(Text, Text)>) -> Option<Change>
    ensures { result ≡ option_map (λ names. change.Gone names.0 names.1) names }
{
    match names {
        Some((key, scope)) => Some(Change::Gone { key, scope }),
        None => None,
    }
}

// The registration of this key and scope gets this mode.
fn moded(names: Option<(Text, Text)>, mode: Mode) -> Option<Change>
    ensures { result ≡ option_map (λ names. change.Mode names.0 names.1 mode) names }
{
    match names {
        Some((key, scope)) => Some(Change::Mode { key, scope, mode }),
        None => None,
    }
}

// That the waiting worker of a registration becomes the active one, where the registration is kept.
pub(crate) fn active_change(
    alloc: Global,
    registration: u32,
    map: &ScopeMap,
    registrations: &Registrations,
) -> Result<Vec<Change>, NoMemory>
    ensures { (of_workers : workers.Table) (of_clients : clients.Table) (rest : Rest)
        → HasSlots of_workers registrations.now → IfOk result (λ changes. changes.items
        ≡ activation_change (lent map.now of_workers registrations.now of_clients rest)
        registration) }
{
    let names = names(alloc, kept_row(registration, map, registrations))?;
    told(alloc, active(names))
}

// That a registration leaves the map, where it is kept.
pub(crate) fn gone_change(
    alloc: Global,
    registration: u32,
    map: &ScopeMap,
    registrations: &Registrations,
) -> Result<Vec<Change>, NoMemory>
    ensures { (of_workers : workers.Table) (of_clients : clients.Table) (rest : Rest)
        → HasSlots of_workers registrations.now → IfOk result (λ changes. changes.items
        ≡ kept_change (lent map.now of_workers registrations.now of_clients rest) registration
        (λ row. change.Gone row.key row.scope)) }
{
    let names = names(alloc, kept_row(registration, map, registrations))?;
    told(alloc, gone(names))
}

// The row of a registration, unless it has this mode.
fn of_other_mode(row: Option<&RegistrationRow>, mode: Mode) -> Option<&RegistrationRow>
    ensures { option_copied result
        ≡ unless (λ row. rules.same_mode row.mode mode) (option_copied row.entry) }
{
    match row {
        Some(row) => {
            if same_mode(row.mode, mode) {
                None
            } else {
                Some(row)
            }
        }
        None => None,
    }
}

// That a registration gets a mode, where it is kept and has another one.
pub(crate) fn mode_change(
    alloc: Global,
    registration: u32,
    mode: Mode,
    map: &ScopeMap,
    registrations: &Registrations,
) -> Result<Vec<Change>, NoMemory>
    ensures { (of_workers : workers.Table) (of_clients : clients.Table) (rest : Rest)
        → HasSlots of_workers registrations.now → IfOk result (λ changes. changes.items
        ≡ (mapping.set_mode (lent map.now of_workers registrations.now of_clients rest)
        registration mode).changes) }
{
    let row = of_other_mode(kept_row(registration, map, registrations), mode);
    let names = names(alloc, row)?;
    told(alloc, moded(names, mode))
}
