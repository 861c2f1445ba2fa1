//! What a host keeps, and the host that a restart makes of it.

ghost use Rattle.std.specs.Prelude.{◌≡◌, [], IfOk};
ghost use Rattle.sw_core.specs.Restored.{quiet_rest};
ghost use Rattle.sw_rules.specs.Durable.{durable};
ghost use Rattle.sw_rules.specs.Restart.{restart};
ghost use Rattle.sw_rules.specs.Storage.{IsMade};
ghost use Rattle.sw_tables.specs.Happened.{CountsTasks};
ghost use Rattle.sw_tables.specs.Lent.{lent};
ghost use Rattle.sw_tables.specs.Linked.{Linked};
ghost use Rattle.sw_state.specs.Hosted.{state_of};

use crate::core_tables::Core;
use crate::keeping::kept;
use crate::restart::restored;
use crate::tables::Restored;
use std::alloc::Global;
use sw_change::Content;
use sw_data::{Kept, NoMemory};
use sw_ledgers::{Draws, Promises, Tasks};
use sw_queue::Queues;
use sw_state::HostTables;

// The host of the tables of a restart, which has nothing else. It takes no memory.
fn host_of(alloc: Global, tables: Restored) -> HostTables
    requires linked { Linked tables.map tables.workers tables.registrations tables.clients }
    requires counts { CountsTasks tables.workers [] }
    ensures { state_of result ≡ lent tables.map tables.workers tables.registrations tables.clients
        (quiet_rest tables.preloads tables.caches.rows) }
{
    let Restored {
        map,
        workers,
        registrations,
        clients,
        caches,
        preloads,
    } = tables;
    HostTables {
        map,
        queues: Queues::new(alloc),
        workers,
        registrations,
        clients,
        caches,
        preloads,
        promises: Promises::new(alloc),
        tasks: Tasks::new(alloc),
        draws: Draws::new(alloc),
    }
}

// What the tables of a host keep: the durable part of its state.
fn kept_of(alloc: Global, host: &HostTables) -> Result<Kept, NoMemory>
    ensures kept { IfOk result (λ kept. kept ≡ durable (state_of host.now)) }
{
    kept(
        alloc,
        &host.map,
        &host.workers,
        &host.registrations,
        &host.caches,
        &host.preloads,
    )
}

impl Core {
    /// A host after a restart from a content that changes have made.
    pub fn restart(alloc: Global, content: Content) -> Result<Core, NoMemory>
        requires made { IsMade content }
        ensures state { IfOk result (λ core. state_of core ≡ restart content) }
    {
        let tables = restored(alloc, content)?;
        Ok(Core {
            host: host_of(alloc, tables),
        })
    }

    /// What the host keeps: the durable part of its state.
    pub fn kept(&self, alloc: Global) -> Result<Kept, NoMemory>
        ensures kept { IfOk result (λ kept. kept ≡ durable (state_of self.now)) }
    {
        kept_of(alloc, &self.host)
    }
}
