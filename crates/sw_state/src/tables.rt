//! The tables of a host.

ghost use Rattle.std.specs.Prelude.{◌≡◌, is_none};
ghost use Rattle.sw_ledgers.specs.Tasks.{has_task};
ghost use Rattle.sw_rules.specs.State.{initial};
ghost use Rattle.sw_state.specs.Hosted.{state_of};

use std::alloc::Global;
use std::marker::Model;
use sw_caches::Caches;
use sw_client::Clients;
use sw_ledgers::{Draws, Preloads, Promises, Tasks};
use sw_queue::Queues;
use sw_reg::Registrations;
use sw_scope::ScopeMap;
use sw_worker::Workers;

/// The tables of a host: the state, and what finds its rows.
#[derive(Drop)]
pub struct HostTables {
    pub map: ScopeMap,
    pub queues: Queues,
    pub workers: Workers,
    pub registrations: Registrations,
    pub clients: Clients,
    pub caches: Caches,
    pub preloads: Preloads,
    pub promises: Promises,
    pub tasks: Tasks,
    pub draws: Draws,
}

impl Model for HostTables {
    ghost use Rattle.sw_state.specs.Hosted.{Hosted, IsJoined};

    ghost Value = { Hosted };

    ghost view = { λ host. record {
      scopes = host.map;
      queues = host.queues;
      workers = host.workers;
      registrations = host.registrations;
      clients = host.clients;
      caches = host.caches;
      preloads = host.preloads;
      promises = host.promises;
      tasks = host.tasks;
      draws = host.draws;
    } };

    ghost invariant = { λ host. IsJoined (record {
      scopes = host.map;
      queues = host.queues;
      workers = host.workers;
      registrations = host.registrations;
      clients = host.clients;
      caches = host.caches;
      preloads = host.preloads;
      promises = host.promises;
      tasks = host.tasks;
      draws = host.draws;
    }) };
}

impl HostTables {
    /// A host of which nothing is kept. It takes no memory.
    pub fn new(alloc: Global) -> HostTables
        ensures { state_of result ≡ initial }
    {
        HostTables {
            map: ScopeMap::new(alloc),
            queues: Queues::new(alloc),
            workers: Workers::new(alloc),
            registrations: Registrations::new(alloc),
            clients: Clients::new(alloc),
            caches: Caches::new(alloc),
            preloads: Preloads::new(alloc),
            promises: Promises::new(alloc),
            tasks: Tasks::new(alloc),
            draws: Draws::new(alloc),
        }
    }

    /// Whether an addAll is there and has not settled. It takes no memory.
    pub fn is_unsettled(&self, task: u32) -> bool
        ensures { result ≡ has_task (λ row. is_none row.settled) task self.now.tasks.rows }
    {
        match self.tasks.row(task) {
            Some(row) => row.settled.is_none(),
            None => false,
        }
    }
}
