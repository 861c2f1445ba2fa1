//! The tables that a host lends.

ghost use Rattle.std.specs.Prelude.{◌≡◌};

use crate::core_tables::Core;
use sw_caches::Caches;
use sw_client::Clients;
use sw_queue::Queues;
use sw_reg::Registrations;
use sw_scope::ScopeMap;
use sw_worker::Workers;

impl Core {
    /// The mapped scopes. It takes no memory.
    pub fn map(&self) -> &ScopeMap
        ensures { result.now ≡ self.now.scopes }
    {
        &self.host.map
    }

    /// The jobs and their queues. It takes no memory.
    pub fn queues(&self) -> &Queues
        ensures { result.now ≡ self.now.queues }
    {
        &self.host.queues
    }

    /// The workers and the fetch events that are pending on them. It takes no memory.
    pub fn workers(&self) -> &Workers
        ensures { result.now ≡ self.now.workers }
    {
        &self.host.workers
    }

    /// The registrations. It takes no memory.
    pub fn registrations(&self) -> &Registrations
        ensures { result.now ≡ self.now.registrations }
    {
        &self.host.registrations
    }

    /// The open clients. It takes no memory.
    pub fn clients(&self) -> &Clients
        ensures { result.now ≡ self.now.clients }
    {
        &self.host.clients
    }

    /// The caches. It takes no memory.
    pub fn caches(&self) -> &Caches
        ensures { result.now ≡ self.now.caches }
    {
        &self.host.caches
    }
}
