//! The tables of a host that a restart makes.

use sw_caches::Caches;
use sw_client::Clients;
use sw_ledgers::Preloads;
use sw_reg::Registrations;
use sw_scope::ScopeMap;
use sw_worker::Workers;

// The tables of a host after a restart: none has clients, and the tables that aren't here are empty.
#[derive(Drop)]
pub(crate) struct Restored {
    pub map: ScopeMap,
    pub workers: Workers,
    pub registrations: Registrations,
    pub clients: Clients,
    pub caches: Caches,
    pub preloads: Preloads,
}
