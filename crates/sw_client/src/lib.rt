//! The table of clients: each is found by its number, and the users of each registration and the clients of each key are
//! counted.
#![tactic(auto)]

ghost use Rattle.std.specs.Prelude.{◌≡◌, ◌↔◌, ◌+◌, ◌-◌, ◌<◌, ◌≤◌, ◌^◌, ℕ, [], ◌++◌, ◌∷◌, true, false, bytes_eq, max, nat_eq, length, filter, find, map, slice_get, IfSome, IfOk, IsErr, OnOk, OnErr, Some, None};
ghost use Rattle.std.specs.List.{IsDistinct, list_any};
ghost use Rattle.std.specs.Option.{option_and_then, option_copied, option_map, option_map_or, option_to_list};
ghost use Rattle.std.specs.Map.{values_of};
ghost use Rattle.sw_data.specs.declared.answers.Notice.TheVariants as notice;
ghost use Rattle.sw_rules.specs.Rows.{changed, is_client, without};
ghost use Rattle.sw_client.specs.Table.{FitsClient, clients_of, controlled_by, handed, is_open, uncontrolled, users_of, uses};

mod copies;
mod counts;

use std::alloc::Global;
use std::marker::Model;
use sw_data::{ClientRow, NoMemory, Notice, Text};
use sw_list::{Ordered, Tally};
use sw_rules::Notices;

/// A client that is open, with the registration of its controller where it has one.
#[derive(Drop)]
pub struct OpenClient {
    pub client: ClientRow,
    pub registration: Option<u32>,
}

/// The clients, in order of opening. The hashes of a number and of a key are fixed, so some can be chosen that collide.
#[derive(Drop)]
pub struct Clients {
    rows: Ordered<OpenClient>,
    counts: Vec<u32>,
    // The keys of the clients.
    keys: Tally,
}

impl Model for Clients {
    ghost use Rattle.std.specs.Prelude.{min};
    ghost use Rattle.std.specs.Map.{values_of};
    ghost use Rattle.std.specs.Vec.{vec_len};
    ghost use Rattle.sw_client.specs.Table.{IsKept, Table};

    ghost Value = { Table };

    ghost view = { λ clients. record {
      rows = values_of clients.rows.entries;
      known = vec_len clients.counts;
      spare = min clients.rows.spare clients.keys.spare;
    } };

    ghost invariant = { λ clients.
        IsKept clients.rows.entries clients.counts.items clients.keys };
}

/// A finished row that isn't in the table yet. It means the row.
#[derive(Drop)]
pub struct NewClient {
    row: OpenClient,
    // A copy of its key, for the tally.
    key: Text,
}

impl Model for NewClient {
    ghost use Rattle.std.specs.Prelude.{◌≡◌};
    ghost use Rattle.sw_client.specs.declared.OpenClient.{OpenClient};

    ghost Value = { OpenClient };

    ghost view = { λ new. new.row };

    ghost invariant = { λ new. new.key ≡ new.row.client.key };
}

/// Why a client is not added: its number is there, or there is no memory.
#[derive(Debug, Clone, Copy, PartialEq, Eq)]
pub enum AddFault {
    InUse,
    NoMemory,
}

/// No client has this number.
#[derive(Debug, Clone, Copy, PartialEq, Eq)]
pub struct NoClient;

// Gives a client a controller, a worker of a registration.
fn give(row: &mut OpenClient, controller: (u32, u32))
    ensures { row.new ≡ controlled_by controller row.old }
{
    row.client.controller = Some(controller.0);
    row.registration = Some(controller.1);
}

// Takes the controller from a client.
fn release(row: &mut OpenClient)
    ensures { row.new ≡ uncontrolled row.old }
{
    row.client.controller = None;
    row.registration = None;
}

// Whether a client uses a registration.
fn is_user(row: &OpenClient, registration: u32) -> bool
    ensures { result ≡ uses registration row.now }
{
    match row.registration {
        Some(number) => number == registration,
        None => false,
    }
}

// Whether there is a client, and it uses a registration.
fn is_one_user(row: Option<&OpenClient>, registration: u32) -> bool
    ensures { result ≡ option_map_or (uses registration) (option_copied row.entry) false }
{
    match row {
        Some(row) => is_user(row, registration),
        None => false,
    }
}

// Tells a client, where there is one and it uses a registration, of its new controller.
fn tell_one(row: Option<&OpenClient>, registration: u32, notices: &mut Notices)
    requires { users_of registration (option_to_list (option_copied row)) ≤ notices.old.spare }
    ensures told { notices.new.rows ≡ notices.old.rows
        ++ map (λ row. notice.ControllerChange row.client.number)
        (filter (uses registration) (option_to_list (option_copied row.entry))) }
    ensures room { notices.new.spare
        + users_of registration (option_to_list (option_copied row.entry)) ≡ notices.old.spare }
{
    match row {
        Some(row) if is_user(row, registration) => {
            notices.push(Notice::ControllerChange(row.client.number));
        }
        _ => {}
    }
}

// Tells the clients that use a registration of their new controller.
fn tell(rows: &Ordered<OpenClient>, registration: u32, notices: &mut Notices)
    requires { users_of registration (values_of rows.now.entries) ≤ notices.old.spare }
    ensures told { notices.new.rows ≡ notices.old.rows
        ++ map (λ row. notice.ControllerChange row.client.number)
        (filter (uses registration) (values_of rows.now.entries)) }
    ensures room { notices.new.spare + users_of registration (values_of rows.now.entries)
        ≡ notices.old.spare }
{
    for place in 0..rows.len() {
        tell_one(rows.at(place), registration, notices);
    }
}

// A client gets this worker of a registration if it uses that one.
fn pass_on(row: &mut OpenClient, registration: u32, worker: u32)
    ensures { row.new ≡ handed registration worker row.old }
{
    if is_user(row, registration) {
        give(row, (worker, registration));
    }
}

// The clients that use a registration get this worker of it.
fn hand_over(rows: &mut Ordered<OpenClient>, registration: u32, worker: u32)
    ensures entries { rows.new.entries
        ≡ map (λ entry. (entry.0, handed registration worker entry.1)) rows.old.entries }
    ensures room { rows.new.spare ≡ rows.old.spare }
{
    for place in 0..rows.len() {
        pass_on(rows.at_mut(place), registration, worker);
    }
}

impl Clients {
    /// No clients, and no registration known. It takes no memory.
    pub fn new(alloc: Global) -> Clients
        ensures rows { result.rows ≡ [] }
        ensures known { result.known ≡ 0 }
    {
        Clients {
            rows: Ordered::new(alloc),
            counts: Vec::new(alloc),
            keys: Tally::new(alloc),
        }
    }

    /// A table of its own that equals this one, but for the room for more. It takes time and memory in the clients, in their
    /// addresses and keys, and in the registrations that are known.
    pub fn copy(&self, alloc: Global) -> Result<Clients, NoMemory>
        ensures { IfOk result (λ copy. copy ≡ record self.now { spare = copy.spare }) }
    {
        let rows = copies::copy_rows(alloc, &self.rows)?;
        let counts = copies::copy_counts(alloc, &self.counts)?;
        let keys = copies::keys_of(alloc, &self.rows)?;
        Ok(Clients { rows, counts, keys })
    }

    /// Makes the room to count the users of the registrations below this number; rows and counts stay. It stands apart
    /// because `set_controller` takes no memory.
    pub fn know(&mut self, registrations: u32) -> Result<(), NoMemory>
        ensures ok { OnOk result (self.new
            ≡ record self.old { known = max self.old.known registrations }) }
        ensures err { OnErr result (self.new ≡ self.old) }
    {
        let known = self.counts.len().max(registrations as usize);
        self.counts.resize(known, 0)?;
        Ok(())
    }

    /// How many clients use a registration: none for an unknown one. It takes no memory.
    pub fn users(&self, registration: u32) -> u32
        ensures count { result ≡ users_of registration self.now.rows }
        ensures unknown { self.now.known ≤ registration → result ≡ 0 }
    {
        counts::count_of(&self.counts, registration)
    }

    // The row of a number.
    #[tactic(auto, using(crate::proofs::OfClients::found_by))]
    fn found(&self, number: u32) -> Option<&OpenClient>
        ensures { option_copied result ≡ find (is_open number) self.now.rows }
    {
        self.rows.get(number)
    }

    /// The client of a number. It takes no memory.
    #[tactic(auto, using(crate::proofs::OfClients::found_client))]
    pub fn row(&self, number: u32) -> Option<&ClientRow>
        ensures { option_copied result ≡ find (is_client number) (clients_of self.now) }
    {
        Some(&self.found(number)?.client)
    }

    /// The registration that a client uses. It takes no memory.
    pub fn registration(&self, number: u32) -> Option<u32>
        ensures { result ≡ option_and_then (λ row. row.registration)
            (find (is_open number) self.now.rows) }
    {
        self.found(number)?.registration
    }

    /// How many clients use a registration, this one left out. It takes no memory.
    pub fn other_users(&self, number: u32, registration: u32) -> u32
        ensures { result
            ≡ users_of registration (changed (is_open number) uncontrolled self.now.rows) }
    {
        if is_one_user(self.rows.get(number), registration) {
            self.users(registration) - 1
        } else {
            self.users(registration)
        }
    }

    /// The client at a place in the order of opening. It takes no memory.
    #[tactic(auto, using(crate::proofs::OfClients::client_at))]
    pub fn at(&self, place: u32) -> Option<&ClientRow>
        ensures { option_copied result ≡ slice_get (clients_of self.now) place }
    {
        Some(&self.rows.at(place as usize)?.client)
    }

    /// No two clients have one number. A call does nothing; its clause is the law.
    pub fn are_apart(&self)
        ensures { IsDistinct nat_eq (map (λ row. row.number) (clients_of self.now)) }
    {
        let _ = &self.rows;
    }

    /// How many clients there are. It takes no memory.
    pub fn len(&self) -> u32
        ensures { result ≡ length self.now.rows }
    {
        self.rows.len() as u32
    }

    /// Whether a client of a key is open. It takes no memory.
    pub fn has_of(&self, key: &Text) -> bool
        ensures { result ≡ list_any (λ row. bytes_eq row.key key.now) (clients_of self.now) }
    {
        self.keys.has(key)
    }

    // Whether a client is there. It takes no memory.
    #[tactic(auto, using(crate::proofs::OfClients::is_there))]
    fn has(&self, number: u32) -> bool
        ensures { result ≡ list_any (is_client number) (clients_of self.now) }
    {
        self.rows.contains(number)
    }

    // Makes room for one more client, and a copy of its key; the rows stay.
    fn make_room(&mut self, alloc: Global, key: &Text) -> Result<Text, NoMemory>
        ensures rows { self.new.rows ≡ self.old.rows }
        ensures known { self.new.known ≡ self.old.known }
        ensures copied { IfOk result (λ copied. copied ≡ key.now) }
        ensures room { IfOk result (λ copied. 0 < self.new.spare) }
        ensures few { IfOk result (λ copied. length self.new.rows < 2 ^ 32 - 1) }
    {
        if self.len() == u32::MAX {
            return Err(NoMemory);
        }
        self.rows.make_room()?;
        self.keys.make_room()?;
        key.copy(alloc)
    }

    /// Makes room for a client, and its row: its number, its address, its key, whether it is secure, and the worker and
    /// the registration that control it. The rows stay as they were. A count or a number past its type is want of
    /// memory.
    pub fn add_row(
        &mut self,
        alloc: Global,
        number: u32,
        url: Text,
        key: Text,
        secure: bool,
        controller: Option<(u32, u32)>,
    ) -> Result<NewClient, AddFault>
        requires { IfSome controller (λ c. c.1 < self.old.known) }
        ensures rows { self.new.rows ≡ self.old.rows }
        ensures known { self.new.known ≡ self.old.known }
        ensures row { IfOk result (λ new. new ≡ record {
          client = record {
            number = number;
            url = url;
            key = key;
            secure = secure;
            controller = option_map (λ c. c.0) controller;
          };
          registration = option_map (λ c. c.1) controller;
        }) }
        ensures fits { IfOk result (λ new. FitsClient new self.new) }
        ensures in_use { (result ≡ Err AddFault.InUse)
            ↔ (list_any (is_client number) (clients_of self.old) ≡ true) }
    {
        if self.has(number) {
            return Err(AddFault::InUse);
        }
        let copied = match self.make_room(alloc, &key) {
            Ok(copied) => copied,
            Err(_) => return Err(AddFault::NoMemory),
        };
        Ok(NewClient {
            row: OpenClient {
                client: ClientRow {
                    number,
                    url,
                    key,
                    secure,
                    controller: controller.map(|c| c.0),
                },
                registration: controller.map(|c| c.1),
            },
            key: copied,
        })
    }

    /// Adds a row that was made, last. It takes no memory.
    pub fn add_put(&mut self, row: NewClient)
        requires { FitsClient row self.old }
        ensures rows { self.new.rows ≡ self.old.rows ++ row ∷ [] }
        ensures known { self.new.known ≡ self.old.known }
        ensures room { self.old.spare ≤ self.new.spare + 1 }
    {
        counts::raise(&mut self.counts, row.row.registration);
        self.rows.add(row.row.client.number, row.row);
        self.keys.add(row.key);
    }

    /// A client leaves. It takes no memory.
    pub fn remove(&mut self, number: u32) -> Result<(), NoClient>
        ensures none { IsErr result
            ↔ (find (is_client number) (clients_of self.old) ≡ None) }
        ensures err { OnErr result (self.new ≡ self.old) }
        ensures rows { OnOk result (self.new.rows ≡ without (is_open number) self.old.rows) }
        ensures clients { OnOk result (clients_of self.new
            ≡ without (is_client number) (clients_of self.old)) }
        ensures known { self.new.known ≡ self.old.known }
        ensures room { self.old.spare ≤ self.new.spare }
    {
        let Some(gone) = self.rows.get(number) else {
            return Err(NoClient);
        };
        counts::lower(&mut self.counts, gone.registration);
        self.keys.take(&gone.client.key);
        let _ = self.rows.remove(number);
        Ok(())
    }

    /// A client gets a controller, a worker of a registration that is known. It takes no memory.
    pub fn set_controller(&mut self, number: u32, controller: (u32, u32)) -> Result<(), NoClient>
        requires { controller.1 < self.old.known }
        ensures none { IsErr result
            ↔ (find (is_client number) (clients_of self.old) ≡ None) }
        ensures err { OnErr result (self.new ≡ self.old) }
        ensures rows { OnOk result (self.new ≡ record self.old {
          rows = changed (is_open number) (controlled_by controller) self.old.rows;
        }) }
        ensures clients { OnOk result (clients_of self.new ≡ changed (is_client number)
            (λ row. record row { controller = Some controller.0 }) (clients_of self.old)) }
    {
        let Some(row) = self.rows.get_mut(number) else {
            return Err(NoClient);
        };
        counts::exchange(&mut self.counts, row.registration, controller.1);
        give(row, controller);
        Ok(())
    }

    /// A client has no controller any more; nothing happens where its number isn't there. It takes no memory.
    pub fn unset_controller(&mut self, number: u32)
        ensures rows { self.new ≡ record self.old {
          rows = changed (is_open number) uncontrolled self.old.rows;
        } }
        ensures users { (registration : ℕ)
            → users_of registration self.new.rows ≤ users_of registration self.old.rows }
    {
        let Some(row) = self.rows.get_mut(number) else {
            return;
        };
        counts::lower(&mut self.counts, row.registration);
        release(row);
    }

    /// The clients that use a registration get this worker of it as controller and are told, in order of opening. It
    /// takes no memory, and looks at no client where none uses the registration.
    pub fn take_over(&mut self, registration: u32, worker: u32, notices: &mut Notices)
        requires { users_of registration self.old.rows ≤ notices.old.spare }
        ensures rows { self.new ≡ record self.old {
          rows = changed (uses registration) (controlled_by (worker, registration)) self.old.rows;
        } }
        ensures told { notices.new.rows ≡ notices.old.rows
            ++ map (λ row. notice.ControllerChange row.client.number)
            (filter (uses registration) self.old.rows) }
        ensures room { notices.new.spare + users_of registration self.old.rows
            ≡ notices.old.spare }
    {
        if self.users(registration) == 0 {
            return;
        }
        tell(&self.rows, registration, notices);
        hand_over(&mut self.rows, registration, worker);
    }
}
