//! The events that wait for their changes to be written.

ghost use Rattle.std.specs.Prelude.{◌≡◌, ◌≤◌, ◌<◌, ◌++◌, ◌∷◌, [], length, OnOk};
ghost use Rattle.sw_store.specs.Stores.{all_stamped};

use std::alloc::Global;
use std::marker::Model;
use std::mem;
use sw_data::{Entry, NoMemory};

// The entries of the events that wait, and the spellings of their changes.
#[derive(Drop)]
pub(crate) struct Group {
    entries: Vec<Entry>,
    payload: Vec<u8>,
}

impl Model for Group {
    ghost use Rattle.std.specs.Prelude.{◌-◌};
    ghost use Rattle.std.specs.Vec.{vec_len, vec_capacity};
    ghost use Rattle.sw_store.specs.Stores.{GroupState};

    ghost Value = { GroupState };

    ghost view = { λ group. record {
      entries = group.entries.items;
      payload = group.payload.items;
      entry_room = vec_capacity group.entries - vec_len group.entries;
      payload_room = vec_capacity group.payload - vec_len group.payload;
    } };
}

// The entries, which were acknowledged at this clock.
fn stamp_all(entries: &mut [Entry], clock: u64)
    ensures { entries.new ≡ all_stamped clock entries.old }
{
    for entry in entries.iter_mut() {
        entry.stamp = clock;
    }
}

impl Group {
    // Nothing waits.
    pub(crate) fn new(alloc: Global) -> Group
        ensures entries { result.entries ≡ [] }
        ensures payload { result.payload ≡ [] }
    {
        Group {
            entries: Vec::new(alloc),
            payload: Vec::new(alloc),
        }
    }

    // How many events wait.
    pub(crate) fn len(&self) -> usize
        ensures { result ≡ length self.now.entries }
    {
        self.entries.len()
    }

    // The spellings of the changes that wait.
    pub(crate) fn payload(&self) -> &[u8]
        ensures { result.now ≡ self.now.payload }
    {
        self.payload.as_slice()
    }

    // Makes room for one entry more, and so many bytes.
    pub(crate) fn make_room(&mut self, bytes: usize) -> Result<(), NoMemory>
        ensures entries { self.new.entries ≡ self.old.entries }
        ensures payload { self.new.payload ≡ self.old.payload }
        ensures entry_room { OnOk result (0 < self.new.entry_room) }
        ensures payload_room { OnOk result (bytes ≤ self.new.payload_room) }
    {
        self.entries.reserve(1)?;
        self.payload.reserve(bytes)?;
        Ok(())
    }

    // One entry more, and the spellings of its changes. It takes no memory.
    pub(crate) fn add(&mut self, entry: Entry, more: &[u8])
        requires entry_room { 0 < self.old.entry_room }
        requires payload_room { length more.now ≤ self.old.payload_room }
        ensures entries { self.new.entries ≡ self.old.entries ++ entry ∷ [] }
        ensures payload { self.new.payload ≡ self.old.payload ++ more.now }
    {
        self.entries.push_reserved(entry);
        if self.payload.extend_from_slice(more).is_err() {
            unreachable!();
        }
    }

    // Takes the entries, which were acknowledged at this clock. It takes no memory.
    pub(crate) fn take_stamped(&mut self, alloc: Global, clock: u64) -> Vec<Entry>
        ensures taken { result.items ≡ all_stamped clock self.old.entries }
        ensures left { self.new.entries ≡ [] }
        ensures payload { self.new.payload ≡ [] }
    {
        let mut entries = self.take(alloc);
        stamp_all(entries.as_mut_slice(), clock);
        self.payload.clear();
        entries
    }

    // Takes the entries, as they are. It takes no memory.
    pub(crate) fn take(&mut self, alloc: Global) -> Vec<Entry>
        ensures taken { result.items ≡ self.old.entries }
        ensures left { self.new.entries ≡ [] }
        ensures payload { self.new.payload ≡ self.old.payload }
    {
        mem::replace(&mut self.entries, Vec::new(alloc))
    }
}
