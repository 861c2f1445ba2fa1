//! The last uses of keys.

ghost use Rattle.std.specs.Prelude.{◌≡◌, ◌+◌, ◌<◌, ◌++◌, ◌∷◌, [], ℕ, List, bytes_eq, false, nat_eq, option_and_then, None, if◌then◌else◌, IfOk, OnOk, OnErr};
ghost use Rattle.std.specs.Map.{lookup};
ghost use Rattle.std.specs.Option.{option_copied, option_map_or};
ghost use Rattle.indexmap.specs.IndexMap.{spare};
ghost use Rattle.sw_bucket.specs.Noted.{IsForgottenFrom, IsNotedOf, NotesOne, client_noted, is_ok, key_used_by, last_noted, moved_client};
ghost use Rattle.sw_bucket.specs.Uses.{client_key};
ghost use Rattle.sw_data.specs.declared.histories.Entry as past;
ghost use Rattle.sw_data.specs.declared.storage.Kept.{Kept};
ghost use Rattle.sw_rules.specs.History.{Legal, after};
ghost use Rattle.sw_rules.specs.Rows.{is_number};
ghost use Rattle.sw_state.specs.Hosted.{state_of};

use crate::keys::{client_key, copied, named_key};
use indexmap::IndexMap;
use std::alloc::Global;
use std::marker::Model;
use sw_core::Core;
use sw_data::{Answer, Entry, Event, NoMemory, Text};

// The client that an event opens or closes.
fn moved_client(event: &Event) -> Option<u32>
    ensures { result ≡ moved_client event.now }
{
    match event {
        Event::Open { client, .. } | Event::Close { client, .. } => Some(*client),
        _ => None,
    }
}

/// When each key was used last, and the key of each client that is open, so that its closing finds it. The hash of a key
/// is fixed, so keys can be chosen that collide.
#[derive(Drop)]
pub struct Uses {
    // How many entries were noted.
    noted: u64,
    // The place of the last use of each key that was used.
    places: IndexMap<Text, u64>,
    clients: IndexMap<u32, Text>,
}

impl Model for Uses {
    ghost use Rattle.sw_bucket.specs.Noted.{Noted};

    ghost Value = { Noted };

    ghost view = { λ uses. record {
      count = uses.noted;
      places = uses.places.entries;
      clients = uses.clients.entries;
    } };
}

// The number of the next entry.
fn following(place: u64) -> Result<u64, NoMemory>
    ensures { IfOk result (λ next. next ≡ place + 1) }
{
    match place.checked_add(1) {
        Some(next) => Ok(next),
        None => Err(NoMemory),
    }
}

// Notes the place of a use, where there is one. It takes no memory.
#[tactic(auto, using(sw_laws::proofs::Lists::bytes_eq_symmetric))]
fn note_use(places: &mut IndexMap<Text, u64>, used: Option<Text>, place: u64)
    requires { 0 < spare places.old }
    ensures { (key : List ℕ)
        → option_map_or (λ place. place) (lookup (bytes_eq key) places.new.entries) 0
        ≡ (if option_map_or (bytes_eq key) used false then place
        else option_map_or (λ place. place) (lookup (bytes_eq key) places.old.entries) 0) }
{
    match used {
        Some(key) => {
            let _ = places.insert(key, place);
        }
        None => {}
    }
}

// Notes the key of a client, or that it has none. It takes no memory.
fn note_client(clients: &mut IndexMap<u32, Text>, client: u32, key: Option<Text>)
    requires { 0 < spare clients.old }
    ensures { (number : ℕ) → lookup (nat_eq number) clients.new.entries
        ≡ (if nat_eq client number then key else lookup (nat_eq number) clients.old.entries) }
{
    match key {
        Some(key) => {
            let _ = clients.insert(client, key);
        }
        None => {
            let _ = clients.swap_remove(&client);
        }
    }
}

// Notes the key of a client that was opened or closed, where one was. It takes no memory.
fn note_moved(clients: &mut IndexMap<u32, Text>, moved: Option<u32>, key: Option<Text>)
    requires { 0 < spare clients.old }
    ensures { (number : ℕ) → lookup (nat_eq number) clients.new.entries
        ≡ (if is_number moved number then key else lookup (nat_eq number) clients.old.entries) }
{
    match moved {
        Some(client) => note_client(clients, client, key),
        None => {}
    }
}

// The key of the client that was opened, where one is.
fn key_of_moved(core: &Core, moved: Option<u32>) -> Option<&Text>
    ensures { option_copied result ≡ option_and_then (client_key (state_of core.now)) moved }
{
    client_key(core, moved?)
}

impl Uses {
    /// Nothing is noted. It takes no memory.
    pub fn new(alloc: Global) -> Uses
        ensures { (base : Kept) → IsNotedOf base [] result }
    {
        Uses {
            noted: 0,
            places: IndexMap::new(alloc),
            clients: IndexMap::new(alloc),
        }
    }

    /// The last use of a key: the position of the last entry that uses it, and 0 where none does. It takes no memory.
    pub fn last(&self, key: &Text) -> u64
        ensures { result ≡ last_noted self.now key.now }
    {
        match self.places.get(key) {
            Some(place) => *place,
            None => 0,
        }
    }

    // The key of a client that was closed, where it was open.
    fn closed(&self, alloc: Global, answer: &Answer, client: u32) -> Result<Option<Text>, NoMemory>
        ensures { IfOk result (λ key. key
            ≡ (if is_ok answer.now then client_noted self.now client else None)) }
    {
        match answer {
            Answer::Ok => copied(alloc, self.clients.get(&client)),
            _ => Ok(None),
        }
    }

    /// The key that an entry uses.
    pub(crate) fn used(
        &self,
        alloc: Global,
        core: &Core,
        entry: &Entry,
    ) -> Result<Option<Text>, NoMemory>
        ensures { IfOk result (λ key. key
            ≡ key_used_by self.now (state_of core.now) entry.now.answer entry.now.event) }
    {
        match &entry.event {
            Event::Close { client, .. } => self.closed(alloc, &entry.answer, *client),
            _ => named_key(alloc, core, &entry.event),
        }
    }

    // Notes one more entry.
    fn note_one(&mut self, alloc: Global, core: &Core, entry: &Entry) -> Result<(), NoMemory>
        ensures ok { OnOk result (NotesOne self.old (state_of core.now) entry.now self.new) }
        ensures err { OnErr result (self.new ≡ self.old) }
    {
        let used = self.used(alloc, core, entry)?;
        let moved = moved_client(&entry.event);
        let key = copied(alloc, key_of_moved(core, moved))?;
        self.places.reserve(1)?;
        self.clients.reserve(1)?;
        let place = self.noted;
        self.noted = following(place)?;
        note_use(&mut self.places, used, place);
        note_moved(&mut self.clients, moved, key);
        Ok(())
    }

    /// Notes one more entry, on a host after it, or after it and further forgets of the host: where this was noted of the
    /// history before it, it is noted of the history with it. A count past its type is want of memory.
    pub fn note(&mut self, alloc: Global, core: &Core, entry: &Entry) -> Result<(), NoMemory>
        ensures ok { OnOk result ((base : Kept) (history : List past.Entry)
            → IsNotedOf base history self.old → Legal base (history ++ entry.now ∷ [])
            → IsForgottenFrom (after base (history ++ entry.now ∷ [])) (state_of core.now)
            → IsNotedOf base (history ++ entry.now ∷ []) self.new) }
        ensures others { OnOk result ((key : List ℕ) → option_map_or (bytes_eq key)
            (key_used_by self.old (state_of core.now) entry.now.answer entry.now.event) false ≡ false
            → last_noted self.new key ≡ last_noted self.old key) }
        ensures err { OnErr result (self.new ≡ self.old) }
    {
        self.note_one(alloc, core, entry)
    }
}
