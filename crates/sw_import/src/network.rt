//! The recorded network with what its scripts import.

ghost use Rattle.std.specs.Prelude.{◌≡◌, List, ℕ, [], length, slice_get, IfOk};
ghost use Rattle.std.specs.Option.{option_and_then, option_copied, option_map_or};
ghost use Rattle.sw_data.specs.Network.{drawn_from};
ghost use Rattle.sw_import.specs.Checking.{imports_of};
ghost use Rattle.sw_import.specs.Pairs.{paired};

use std::alloc::Global;
use std::marker::Model;
use sw_data::{FetchLine, Fetched, Items, NoMemory, Text};
use sw_net::Net;
use sw_readers::ImportFetch;

// The fetch lines, and beside each what its script imports.
type Apart = (Vec<FetchLine>, Vec<Items<Text>>);

/// The lines of a recorded network, which are found by their address.
#[derive(Drop)]
pub struct Network {
    net: Net,
    imports: Vec<Items<Text>>,
}

impl Model for Network {
    ghost use Rattle.std.specs.Prelude.{◌≡◌, List, length};
    ghost use Rattle.sw_readers.specs.declared.inputs.ImportFetch.{ImportFetch};
    ghost use Rattle.sw_import.specs.Pairs.{paired};

    ghost Value = { List ImportFetch };

    ghost view = { λ network. paired network.net network.imports.items };

    ghost invariant = { λ network. length network.net ≡ length network.imports.items };
}

// The lines apart from what their scripts import.
fn apart(alloc: Global, fetches: Items<ImportFetch>) -> Result<Apart, NoMemory>
    ensures pairs { IfOk result (λ both. paired both.0.items both.1.items ≡ fetches) }
    ensures even { IfOk result (λ both. length both.0.items ≡ length both.1.items) }
{
    let mut lines = Vec::new(alloc);
    let mut all_imports = Vec::new(alloc);
    for fetch in fetches.into_vec() {
        let ImportFetch { line, imports } = fetch;
        lines.push(line)?;
        all_imports.push(imports)?;
    }
    Ok((lines, all_imports))
}

// What is fetched by the line at a place.
fn fetched_at(net: &Net, place: Option<usize>) -> Option<&Fetched>
    ensures { option_copied result
        ≡ option_and_then (λ line. line.fetched) (option_and_then (slice_get net.now) place) }
{
    let line = net.lines().as_slice().get(place?)?;
    line.fetched.as_ref()
}

// The list at a place, or the empty one.
fn imports_at(all: &[Items<Text>], place: Option<usize>) -> &[Text]
    ensures { result.now
        ≡ option_map_or (λ imports. imports) (option_and_then (slice_get all.now) place) [] }
{
    let Some(at) = place else {
        return &[];
    };
    match all.get(at) {
        Some(imports) => imports.as_slice(),
        None => &[],
    }
}

impl Network {
    /// The network of these lines, in the order of their recording.
    pub fn new(alloc: Global, fetches: Items<ImportFetch>) -> Result<Network, NoMemory>
        ensures { IfOk result (λ network. network ≡ fetches) }
    {
        let (lines, imports) = apart(alloc, fetches)?;
        let net = Net::new(alloc, Items::from_vec(lines))?;
        Ok(Network { net, imports })
    }

    /// The place of the line that the fetch of this number gets from an address. It takes no memory.
    #[tactic(auto, using(crate::proofs::Pairing::drawn_pair))]
    pub fn place(&self, address: &Text, ordinal: u32) -> Option<usize>
        ensures { option_and_then (slice_get self.now) result
            ≡ drawn_from (λ l. l.line.fetch) self.now address.now ordinal }
    {
        self.net.place(address.as_bytes(), ordinal)
    }

    /// What is fetched by the line at a place, or none for a network error. It takes no memory.
    #[tactic(auto, using(crate::proofs::Pairing::line_at_place))]
    pub fn fetched(&self, place: Option<usize>) -> Option<&Fetched>
        ensures { option_copied result
            ≡ option_and_then (λ l. l.line.fetched) (option_and_then (slice_get self.now) place) }
    {
        fetched_at(&self.net, place)
    }

    /// What the script in the line at a place imports. It takes no memory.
    #[tactic(auto, using(crate::proofs::Pairing::imports_at_place))]
    pub fn imports(&self, place: Option<usize>) -> &[Text]
        ensures { result.now ≡ imports_of (option_and_then (slice_get self.now) place) }
    {
        imports_at(self.imports.as_slice(), place)
    }
}
