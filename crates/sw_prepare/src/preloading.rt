//! The change of a navigation preload (Service Workers, "NavigationPreloadManager").

ghost use Rattle.std.specs.Prelude.{◌≡◌, IfOk, option_map};
ghost use Rattle.std.specs.Option.{option_copied};
ghost use Rattle.sw_client.specs.Table as clients;
ghost use Rattle.sw_data.specs.declared.storage.Change.TheVariants as change;
ghost use Rattle.sw_data.specs.Sameness.{same_truth};
ghost use Rattle.sw_prepare.specs.Kept.{has_preload_row, unless};
ghost use Rattle.sw_ledgers.specs.Preloaded.{preload_of, preload_value_of};
ghost use Rattle.sw_rules.specs.Preloading.{set_preload};
ghost use Rattle.sw_tables.specs.Lent.{Rest, lent};
ghost use Rattle.sw_tables.specs.Linked.{HasSlots};
ghost use Rattle.sw_worker.specs.Table as workers;

use crate::kept::{kept_row, names, told};
use std::alloc::Global;
use sw_data::{Change, NoMemory, RegistrationRow, Text};
use sw_ledgers::Preloads;
use sw_reg::Registrations;
use sw_scope::ScopeMap;

// Whether two flags are the same.
fn same_truth(one: bool, other: bool) -> bool
    ensures { result ≡ same_truth one other }
{
    one == other
}

// Whether a registration has this preload flag and value.
fn has_preload(row: &RegistrationRow, on: bool, value: &Text, preloads: &Preloads) -> bool
    ensures { result ≡ has_preload_row preloads.now.rows on value.now row.now }
{
    same_truth(preloads.is_on(row.number), on) && preloads.value(row.number) == value.as_str()
}

// The row of a registration, unless it has this preload flag and value.
fn of_other_preload<'a>(
    row: Option<&'a RegistrationRow>,
    on: bool,
    value: &Text,
    preloads: &Preloads,
) -> Option<&'a RegistrationRow>
    ensures { option_copied result
        ≡ unless (has_preload_row preloads.now.rows on value.now) (option_copied row.entry) }
{
    match row {
        Some(row) => {
            if has_preload(row, on, value, preloads) {
                None
            } else {
                Some(row)
            }
        }
        None => None,
    }
}

// The registration of this key and scope gets this preload flag and value.
fn preloaded(
    alloc: Global,
    names: Option<(Text, Text)>,
    on: bool,
    value: &Text,
) -> Result<Option<Change>, NoMemory>
    ensures { IfOk result (λ new. new
        ≡ option_map (λ names. change.Preload names.0 names.1 on value.now) names) }
{
    let value = value.copy(alloc)?;
    match names {
        Some((key, scope)) => Ok(Some(Change::Preload {
            key,
            scope,
            on,
            value,
        })),
        None => Ok(None),
    }
}

// The changes where a registration gets a preload flag and value.
pub(crate) fn preload_changes(
    alloc: Global,
    registration: u32,
    on: bool,
    value: &Text,
    map: &ScopeMap,
    registrations: &Registrations,
    preloads: &Preloads,
) -> Result<Vec<Change>, NoMemory>
    ensures { (of_workers : workers.Table) (of_clients : clients.Table) (rest : Rest)
        → HasSlots of_workers registrations.now
        → rest.preload ≡ preload_of preloads.now.rows
        → rest.preload_value ≡ preload_value_of preloads.now.rows
        → IfOk result (λ changes. changes.items
        ≡ (set_preload (lent map.now of_workers registrations.now of_clients rest)
        registration on value.now).changes) }
{
    let kept = kept_row(registration, map, registrations);
    let row = of_other_preload(kept, on, value, preloads);
    let names = names(alloc, row)?;
    let new = preloaded(alloc, names, on, value)?;
    told(alloc, new)
}
