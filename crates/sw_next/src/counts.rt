//! How much a host keeps.

ghost use Rattle.std.specs.Prelude.{◌≡◌, filter, length};
ghost use Rattle.sw_rules.specs.History.{mapped_registrations};
ghost use Rattle.sw_rules.specs.Rows.{is_number};
ghost use Rattle.sw_scope.specs.Scopes.{maps};
ghost use Rattle.sw_state.specs.Hosted.{state_of};

use sw_data::RegistrationRow;
use sw_reg::Registrations;
use sw_scope::ScopeMap;
use sw_state::HostTables;

// Whether a registration is mapped.
fn is_mapped(row: &RegistrationRow, map: &ScopeMap) -> bool
    ensures { result ≡ is_number (maps map.now row.now.key row.now.scope) row.now.number }
{
    match map.get(&row.key, &row.scope) {
        Some(number) => number == row.number,
        None => false,
    }
}

// How many registrations are mapped.
fn mapped_rows(map: &ScopeMap, registrations: &Registrations) -> usize
    ensures { result ≡ length (filter
        (λ row. is_number (maps map.now row.key row.scope) row.number) registrations.now.rows) }
{
    registrations
        .rows()
        .iter()
        .filter(|row| is_mapped(row, map))
        .count()
}

/// How many registrations are mapped. It takes no memory, and time in the number of all registrations.
pub fn mapped_count(host: &HostTables) -> usize
    ensures { result ≡ mapped_registrations (state_of host.now) }
{
    mapped_rows(&host.map, &host.registrations)
}

/// How many caches there are. It takes no memory.
pub fn cache_count(host: &HostTables) -> usize
    ensures { result ≡ length (state_of host.now).caches }
{
    host.caches.len()
}
