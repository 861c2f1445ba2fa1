//! A check in its course.

ghost use Rattle.std.specs.Prelude.{◌≡◌, [], List, ℕ, filter, fold, map, slice_get, IfOk, OnOk};
ghost use Rattle.std.specs.List.{list_any};
ghost use Rattle.std.specs.Option.{option_and_then, option_copied};
ghost use Rattle.std.specs.Result.{result_map_both};
ghost use Rattle.sw_rules.specs.Installing.{is_ok_status};
ghost use Rattle.sw_rules.specs.Jobs.{next_draw};
ghost use Rattle.sw_import.specs.Checking as checking;
ghost use Rattle.sw_import.specs.Counting.{times};

use crate::address::import_address;
use crate::answers::{ImportCause, Outcome, Resource, Store};
use crate::network::Network;
use std::alloc::Global;
use std::marker::Model;
use sw_data::address::without_fragment;
use sw_data::{Bytes, Fetched, Items, NoMemory, Request, Text, is_javascript};
use sw_ledgers::Draws;

/// A check in its course: the requests that it made, its list of resources, the addresses that imports named, and
/// whether all is as stored so far.
#[derive(Drop)]
pub struct Course {
    made: Vec<Request>,
    resources: Vec<Resource>,
    named: Vec<Text>,
    same: bool,
}

impl Model for Course {
    ghost use Rattle.std.specs.Prelude.{map};
    ghost use Rattle.sw_import.specs.Checking.{Course};

    ghost Value = { Course };

    ghost view = { λ course. record {
      made = map (λ request. request.url) course.made.items;
      resources = course.resources.items;
      named = course.named.items;
      same = course.same;
    } };
}

/// The requests that a check made, and what it comes to for its script.
#[derive(Drop)]
pub struct Ended {
    pub made: Vec<Request>,
    pub outcome: Outcome,
}

impl Model for Ended {
    ghost use Rattle.std.specs.Prelude.{map};
    ghost use Rattle.sw_import.specs.Checking.{Ended};

    ghost Value = { Ended };

    ghost view = { λ ended. record {
      made = map (λ request. request.url) ended.made.items;
      outcome = ended.outcome;
    } };
}

fn is_ok_status(status: u16) -> bool
    ensures { result ≡ is_ok_status status }
{
    200 <= status && status <= 299
}

// The body of a good response, or why the response is bad. It takes no memory.
fn judged(fetched: Option<&Fetched>) -> Result<&Bytes, ImportCause>
    ensures { result_map_both (λ body. body.now) (λ why. why) result
        ≡ checking.judged (option_copied fetched.entry) }
{
    match fetched {
        None => Err(ImportCause::Network),
        Some(fetched) => {
            if !is_javascript(fetched.response.headers.as_slice()) {
                return Err(ImportCause::Mime);
            }
            if !is_ok_status(fetched.response.status) {
                return Err(ImportCause::Status);
            }
            Ok(fetched.response.body.get())
        }
    }
}

// How many of these requests are of an address without fragment.
fn times(made: &[Request], address: &[u8]) -> usize
    ensures { result ≡ times (λ request. request.url) address.now made.now }
{
    made.iter()
        .filter(|request| without_fragment(request.url.as_bytes()) == address)
        .count()
}

// The number that the next fetch of an address gets, these requests being made.
#[tactic(auto, using(crate::proofs::Drawing::drawn_after))]
fn next_number(draws: &Draws, made: &[Request], address: &Text) -> Result<u32, NoMemory>
    ensures { IfOk result (λ number. number
        ≡ next_draw (checking.with_fetches draws.now.rows (map (λ request. request.url) made.now))
        address.now) }
{
    let own = times(made, without_fragment(address.as_bytes()));
    let own = u32::try_from(own).map_err(|_| NoMemory)?;
    draws.next(address).checked_add(own).ok_or(NoMemory)
}

// The request for a script at an address.
fn request_of(alloc: Global, address: &Text) -> Result<Request, NoMemory>
    ensures { IfOk result (λ request. request.url ≡ address.now) }
{
    Ok(Request {
        method: Text::of(alloc, "GET")?,
        url: address.copy(alloc)?,
        headers: Items::new(alloc),
    })
}

// Whether a resource has this address.
fn has_resource(resources: &[Resource], address: &Text) -> bool
    ensures { result ≡ list_any (checking.has_address address.now) resources.now }
{
    resources
        .iter()
        .any(|resource| resource.address == *address)
}

// Whether an import named a resource.
fn is_named(named: &[Text], resource: &Resource) -> bool
    ensures { result ≡ checking.is_named named.now resource.now }
{
    named.iter().any(|address| resource.address == *address)
}

// Leaves the resources that imports named.
fn leave_named(resources: &mut Vec<Resource>, named: &[Text])
    ensures { resources.new.items ≡ filter (checking.is_named named.now) resources.old.items }
{
    resources.retain(|resource| is_named(named, resource));
}

impl Course {
    /// Nothing is fetched yet. It takes no memory.
    pub fn new(alloc: Global) -> Course
        ensures begins { (script : List ℕ) → checking.with_fetch result script ≡ checking.begun script }
        ensures made { result.made ≡ [] }
    {
        Course {
            made: Vec::new(alloc),
            resources: Vec::new(alloc),
            named: Vec::new(alloc),
            same: false,
        }
    }

    /// Fetches an address. It gives the place of the line that the fetch gets.
    pub fn fetch(
        &mut self,
        alloc: Global,
        network: &Network,
        draws: &Draws,
        address: &Text,
    ) -> Result<Option<usize>, NoMemory>
        ensures made { OnOk result (self.new ≡ checking.with_fetch self.old address.now) }
        ensures place { IfOk result (λ place. option_and_then (slice_get network.now) place
            ≡ checking.next_line network.now
            (checking.with_fetches draws.now.rows self.old.made) address.now) }
    {
        let number = next_number(draws, self.made.as_slice(), address)?;
        self.made.push(request_of(alloc, address)?)?;
        Ok(network.place(address, number))
    }

    // Adds a resource.
    fn add(&mut self, alloc: Global, address: &Text, body: &Bytes) -> Result<(), NoMemory>
        ensures { OnOk result (self.new
            ≡ checking.with_resource self.old address.now body.now) }
    {
        let address = address.copy(alloc)?;
        let body = body.copy(alloc)?;
        self.resources.push(Resource { address, body })?;
        Ok(())
    }

    // A stored resource is fetched.
    fn refetch(
        &mut self,
        alloc: Global,
        network: &Network,
        draws: &Draws,
        stored: &Resource,
    ) -> Result<(), NoMemory>
        ensures { OnOk result (self.new
            ≡ checking.refetch network.now draws.now.rows self.old stored.now) }
    {
        let place = self.fetch(alloc, network, draws, &stored.address)?;
        match judged(network.fetched(place)) {
            Ok(body) => {
                self.same = self.same && *body == stored.body;
                self.add(alloc, &stored.address, body)
            }
            Err(_) => Ok(()),
        }
    }

    // Each of these stored resources is fetched in order.
    fn refetch_each(
        &mut self,
        alloc: Global,
        network: &Network,
        draws: &Draws,
        resources: &[Resource],
    ) -> Result<(), NoMemory>
        ensures { OnOk result (self.new
            ≡ fold (checking.refetch network.now draws.now.rows) self.old resources.now) }
    {
        for stored in resources {
            self.refetch(alloc, network, draws, stored)?;
        }
        Ok(())
    }

    // Where the script's body is the stored one, each stored resource is fetched.
    fn refetch_all(
        &mut self,
        alloc: Global,
        network: &Network,
        draws: &Draws,
        store: Option<&Store>,
        body: &Bytes,
    ) -> Result<(), NoMemory>
        ensures { OnOk result (self.new ≡ checking.refetched network.now draws.now.rows
            (option_copied store.entry) body.now self.old) }
    {
        match store {
            None => Ok(()),
            Some(store) => {
                if *body != store.body {
                    return Ok(());
                }
                self.same = true;
                self.refetch_each(alloc, network, draws, store.resources.as_slice())
            }
        }
    }

    // An address that is imported. It answers whether the check goes on.
    fn import(
        &mut self,
        alloc: Global,
        network: &Network,
        draws: &Draws,
        address: Text,
    ) -> Result<bool, NoMemory>
        ensures { IfOk result (λ on. (self.new, on)
            ≡ checking.import_of network.now draws.now.rows self.old address) }
    {
        self.named.push(address.copy(alloc)?)?;
        if has_resource(self.resources.as_slice(), &address) {
            return Ok(true);
        }
        let place = self.fetch(alloc, network, draws, &address)?;
        match judged(network.fetched(place)) {
            Ok(body) => {
                self.add(alloc, &address, body)?;
                Ok(true)
            }
            Err(_) => Ok(false),
        }
    }

    // The texts that a script imports, in order. It answers whether the check goes on.
    fn import_all(
        &mut self,
        alloc: Global,
        network: &Network,
        draws: &Draws,
        script: &Text,
        imports: &[Text],
    ) -> Result<bool, NoMemory>
        ensures { IfOk result (λ on. (self.new, on)
            ≡ checking.import_all network.now draws.now.rows script.now self.old imports.now) }
    {
        for text in imports {
            let Some(address) = import_address(alloc, text, script)? else {
                return Ok(false);
            };
            if !self.import(alloc, network, draws, address)? {
                return Ok(false);
            }
        }
        Ok(true)
    }

    // What the check comes to, where all imports were good or one wasn't.
    fn closed(self, all: bool, body: Bytes) -> Ended
        ensures { result ≡ checking.closed body (self, all) }
    {
        let Course {
            made,
            mut resources,
            named,
            same: _,
        } = self;
        if !all {
            return Ended {
                made,
                outcome: Outcome::Failed(ImportCause::Import),
            };
        }
        leave_named(&mut resources, named.as_slice());
        let resources = Items::from_vec(resources);
        Ended {
            made,
            outcome: Outcome::Changed(Store { body, resources }),
        }
    }

    // What the check comes to, the script's response being good and the stored resources being fetched.
    fn decided(
        mut self,
        alloc: Global,
        network: &Network,
        draws: &Draws,
        script: &Text,
        imports: &[Text],
        body: &Bytes,
    ) -> Result<Ended, NoMemory>
        ensures { IfOk result (λ ended. ended
            ≡ checking.decided network.now draws.now.rows script.now imports.now body.now self) }
    {
        if self.same {
            return Ok(Ended {
                made: self.made,
                outcome: Outcome::Unchanged,
            });
        }
        let all = self.import_all(alloc, network, draws, script, imports)?;
        let body = body.copy(alloc)?;
        Ok(self.closed(all, body))
    }
}

/// The check of a script that has this store, or none. It changes nothing: the draws are those before it.
pub fn check_script(
    alloc: Global,
    network: &Network,
    draws: &Draws,
    store: Option<&Store>,
    script: &Text,
) -> Result<Ended, NoMemory>
    ensures { IfOk result (λ ended. ended
        ≡ checking.ended network.now draws.now.rows (option_copied store.entry) script.now) }
{
    let mut course = Course::new(alloc);
    let place = course.fetch(alloc, network, draws, script)?;
    match judged(network.fetched(place)) {
        Ok(body) => {
            course.refetch_all(alloc, network, draws, store, body)?;
            course.decided(alloc, network, draws, script, network.imports(place), body)
        }
        Err(cause) => Ok(Ended {
            made: course.made,
            outcome: Outcome::Failed(cause),
        }),
    }
}
