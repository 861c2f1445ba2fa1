//! What is found in the tables of a host.

ghost use Rattle.std.specs.Prelude.{◌≡◌, true, Some, IfSome, option_map};
ghost use Rattle.std.specs.Option.{option_copied};
ghost use Rattle.sw_reg.specs.Table.{is_there};
ghost use Rattle.sw_rules.specs.Rows as rules;
ghost use Rattle.sw_state.specs.Hosted.{IsOwned, shown_of, state_of};
ghost use Rattle.sw_tables.specs.Lent.{shown_worker};
ghost use Rattle.sw_worker.specs.Table.{worker_at};

use crate::tables::HostTables;
use sw_data::{ClientRow, RegistrationRow, Slot, Text, WorkerRow};

impl HostTables {
    /// A client that is open. It takes no memory.
    pub fn client_row(&self, client: u32) -> Option<&ClientRow>
        ensures { option_copied result ≡ rules.client_row (state_of self.now) client }
    {
        self.clients.row(client)
    }

    /// The worker in a slot of a registration. It takes no memory.
    pub fn slot_row(&self, place: Slot, registration: u32) -> Option<&WorkerRow>
        ensures row { option_map shown_worker (option_copied result)
            ≡ rules.slot_worker (state_of self.now) place registration }
        ensures there { IfSome result (λ row.
            option_map shown_worker (worker_at row.now.number self.now.workers.rows)
            ≡ Some (shown_worker row.now)) }
        ensures owner { IfSome result (λ row. IsOwned self.now (row.now.number, registration)) }
    {
        sw_tables::slot_row(place, registration, &self.workers, &self.registrations)
    }

    /// The newest worker of a registration. It takes no memory.
    pub fn newest_row(&self, registration: u32) -> Option<&WorkerRow>
        ensures { option_map shown_worker (option_copied result)
            ≡ rules.newest_worker (state_of self.now) registration }
    {
        sw_tables::newest_row(registration, &self.workers, &self.registrations)
    }

    /// The mapped registration of a key and a scope. It takes no memory.
    pub fn mapped_row(&self, key: &Text, scope: &Text) -> Option<&RegistrationRow>
        ensures row { option_map (shown_of self.now) (option_copied result)
            ≡ rules.mapped_registration (state_of self.now) key.now scope.now }
        ensures there { IfSome result (λ row.
            is_there row.now.number self.now.registrations.rows ≡ true) }
    {
        sw_tables::mapped_row(key, scope, &self.map, &self.registrations)
    }

    /// The registration that an address of a key matches. It takes no memory.
    pub fn matched(&self, key: &Text, address: &[u8]) -> Option<u32>
        ensures { result
            ≡ rules.matched_registration_number (state_of self.now) key.now address.now }
    {
        sw_tables::matched(key, address, &self.map, &self.registrations)
    }
}
