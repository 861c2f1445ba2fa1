//! The recorded network: what a recording answers for a fetch, found without a scan of its lines.
#![tactic(auto)]

ghost use Rattle.std.specs.Prelude.{◌≡◌, ◌-◌, ◌++◌, ◌∷◌, [], List, ℕ, min, length, bytes_eq, slice_get, if◌then◌else◌, None, IfOk, OnOk};
ghost use Rattle.std.specs.Option.{option_copied, option_and_then};
ghost use Rattle.indexmap.specs.IndexMap.{get_by};
ghost use Rattle.sw_data.specs.Network.{answered_line, drawn_from};
ghost use Rattle.sw_net.specs.Places.{drawn_place, noted, places_from};

use indexmap::IndexMap;
use std::alloc::Global;
use std::marker::Model;
use sw_data::{FetchLine, Items, NoMemory, Text};

/// Where a worker stands for a moment before it takes what it fetched. It means nothing.
pub trait Gate {
    /// Stands there for the fetch of this number of an address.
    fn pass(&self, address: &Text, ordinal: u32);
}

/// The gate at which no worker waits.
#[derive(Debug, Clone, Copy)]
pub struct NoGate;

impl Gate for NoGate {
    fn pass(&self, _address: &Text, _ordinal: u32) {}
}

// The places of each address's lines, in order.
type Places = IndexMap<Vec<u8>, Vec<usize>>;

/// The fetch lines of a recording, which are found by their address.
#[derive(Drop)]
pub struct Net {
    lines: Items<FetchLine>,
    places: Places,
}

impl Model for Net {
    ghost use Rattle.std.specs.Prelude.{◌≡◌, List, ℕ};
    ghost use Rattle.sw_data.specs.declared.recordings.FetchLine.{FetchLine};
    ghost use Rattle.sw_net.specs.Places.{noted, places_from};

    ghost Value = { List FetchLine };

    ghost view = { λ net. net.lines };

    ghost invariant = { λ net. (address : List ℕ)
        → noted (λ key. key.items) (λ own. own.items) net.places.entries address
        ≡ places_from (λ line. line.fetch) 0 net.lines address };
}

// Notes the first line of an address.
#[tactic(auto, using(crate::proofs::Noting::noted_new))]
fn note_first(alloc: Global, places: &mut Places, address: &[u8], at: usize) -> Result<(), NoMemory>
    requires { get_by (λ key. bytes_eq address.now key.items) places.old ≡ None }
    ensures { OnOk result ((asked : List ℕ)
        → noted (λ key. key.items) (λ own. own.items) places.new.entries asked
        ≡ noted (λ key. key.items) (λ own. own.items) places.old.entries asked
        ++ (if bytes_eq address.now asked then at ∷ [] else [])) }
{
    let mut key = Vec::new(alloc);
    key.extend_from_slice(address)?;
    let mut own = Vec::new(alloc);
    own.push(at)?;
    places.insert(key, own)?;
    Ok(())
}

// Notes one more line of an address.
#[tactic(auto, using(crate::proofs::Noting::noted_more))]
fn note(alloc: Global, places: &mut Places, address: &[u8], at: usize) -> Result<(), NoMemory>
    ensures { OnOk result ((asked : List ℕ)
        → noted (λ key. key.items) (λ own. own.items) places.new.entries asked
        ≡ noted (λ key. key.items) (λ own. own.items) places.old.entries asked
        ++ (if bytes_eq address.now asked then at ∷ [] else [])) }
{
    match places.get_mut(address) {
        Some(own) => {
            own.push(at)?;
            Ok(())
        }
        None => note_first(alloc, places, address, at),
    }
}

// The places of each address among these lines.
#[tactic(auto, using(crate::proofs::Noting::places_more))]
fn places_of(alloc: Global, lines: &[FetchLine]) -> Result<Places, NoMemory>
    ensures { IfOk result (λ places. (address : List ℕ)
        → noted (λ key. key.items) (λ own. own.items) places.entries address
        ≡ places_from (λ line. line.fetch) 0 lines.now address) }
{
    let mut places = IndexMap::new(alloc);
    for at in 0..lines.len() {
        note(alloc, &mut places, lines[at].fetch.as_bytes(), at)?;
    }
    Ok(places)
}

// The places of the lines of an address. It takes no memory.
#[tactic(auto, using(crate::proofs::Noting::noted_there, crate::proofs::Noting::noted_absent))]
fn own_places<'a>(places: &'a Places, address: &[u8]) -> &'a [usize]
    ensures { result.now
        ≡ noted (λ key. key.items) (λ own. own.items) places.now.entries address.now }
{
    match places.get(address) {
        Some(own) => own.as_slice(),
        None => &[],
    }
}

// The place of this number, past the last one the last.
fn drawn(own: &[usize], ordinal: u32) -> Option<usize>
    ensures { result ≡ slice_get own.now (min ordinal (length own.now - 1)) }
{
    let last = own.len().saturating_sub(1);
    own.get((ordinal as usize).min(last)).copied()
}

// A line, unless it is a network error.
fn answered(line: &FetchLine) -> Option<&FetchLine>
    ensures { option_copied result ≡ answered_line line.now }
{
    if line.fetched.is_some() {
        Some(line)
    } else {
        None
    }
}

impl Net {
    /// The network of these lines, in the order of their recording.
    pub fn new(alloc: Global, fetches: Items<FetchLine>) -> Result<Net, NoMemory>
        ensures { IfOk result (λ net. net ≡ fetches) }
    {
        let places = places_of(alloc, fetches.as_slice())?;
        Ok(Net {
            lines: fetches,
            places,
        })
    }

    /// The place, among the lines, of the one that the fetch of this number gets from an address without its fragment.
    /// None for an address without lines. It takes no memory.
    #[tactic(auto, using(crate::proofs::Drawing::drawn_at))]
    pub fn place(&self, address: &[u8], ordinal: u32) -> Option<usize>
        ensures place { result
            ≡ drawn_place (λ line. line.fetch) self.now address.now ordinal }
        ensures line { option_and_then (slice_get self.now) result
            ≡ drawn_from (λ line. line.fetch) self.now address.now ordinal }
    {
        let own = own_places(&self.places, address);
        drawn(own, ordinal)
    }

    // The line at a place, unless it is a network error. It takes no memory.
    fn line_at(&self, place: Option<usize>) -> Option<&FetchLine>
        ensures { option_copied result
            ≡ option_and_then answered_line (option_and_then (slice_get self.now) place) }
    {
        let line = self.lines.as_slice().get(place?)?;
        answered(line)
    }

    /// The line that the fetch of this number gets from an address without its fragment: the line of that number, past
    /// the last one the last. None for an address without lines and for a network error. It takes no memory.
    pub fn fetch(&self, address: &Text, ordinal: u32) -> Option<&FetchLine>
        ensures { option_copied result
            ≡ option_and_then answered_line
            (drawn_from (λ line. line.fetch) self.now address.now ordinal) }
    {
        self.fetch_bytes(address.as_bytes(), ordinal)
    }

    /// The line that `fetch` gives for the address that these bytes are. It takes no memory.
    pub fn fetch_bytes(&self, address: &[u8], ordinal: u32) -> Option<&FetchLine>
        ensures { option_copied result
            ≡ option_and_then answered_line
            (drawn_from (λ line. line.fetch) self.now address.now ordinal) }
    {
        let place = self.place(address, ordinal);
        self.line_at(place)
    }

    /// The lines, in the order of their recording.
    pub fn lines(&self) -> &Items<FetchLine>
        ensures { result.now ≡ self.now }
    {
        &self.lines
    }
}
