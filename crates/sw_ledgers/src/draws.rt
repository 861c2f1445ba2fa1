//! How many fetches of each address were drawn.

ghost use Rattle.std.specs.Prelude.{◌≡◌, ◌≤◌, ◌<◌, ◌+◌, ◌^◌, [], List, ℕ, All, map, length, IfOk};
ghost use Rattle.sw_data.specs.declared.exchange.Request.{Request};
ghost use Rattle.sw_data.specs.Addresses.{without_fragment};
ghost use Rattle.sw_rules.specs.Caching.{drawn_numbers, with_draws};
ghost use Rattle.sw_rules.specs.Jobs.{next_draw, with_draw};
ghost use Rattle.sw_ledgers.specs.Drawn.{FitsDraw, FitsDraws, addresses_of, drawn_of, one_more};

use indexmap::IndexMap;
use std::alloc::Global;
use std::marker::Model;
use sw_data::address::without_fragment;
use sw_data::{Items, NoMemory, Request, Text};

/// How many fetches of each address, without its fragment, were drawn. The hash of an address is fixed, so addresses can
/// be chosen that collide.
#[derive(Drop)]
pub struct Draws {
    numbers: IndexMap<Vec<u8>, u32>,
}

impl Model for Draws {
    ghost use Rattle.indexmap.specs.IndexMap.{spare};
    ghost use Rattle.sw_ledgers.specs.Drawn.{Table, rows_of};

    ghost Value = { Table };

    ghost view = { λ draws. record {
      rows = rows_of (λ key. key.items) draws.numbers.entries;
      spare = spare draws.numbers;
    } };
}

/// The address of a fetch that isn't drawn yet, without its fragment.
#[derive(Debug, Drop)]
pub struct NewDraw {
    address: Vec<u8>,
}

impl Model for NewDraw {
    ghost use Rattle.std.specs.Prelude.{List, ℕ};

    ghost Value = { List ℕ };

    ghost view = { λ new. new.address.items };
}

/// The addresses of the fetches of an addAll that aren't drawn yet, without their fragments, and the room for their
/// numbers.
#[derive(Debug, Drop)]
pub struct NewDraws {
    addresses: Vec<Vec<u8>>,
    numbers: Vec<u32>,
}

impl Model for NewDraws {
    ghost use Rattle.std.specs.Prelude.{◌≡◌, ◌≤◌, [], List, ℕ, length, map};
    ghost use Rattle.std.specs.Vec.{vec_capacity};

    ghost Value = { List (List ℕ) };

    ghost view = { λ new. map (λ own. own.items) new.addresses.items };

    ghost invariant = { λ new. (new.numbers.items ≡ [])
        × (length new.addresses.items ≤ vec_capacity new.numbers) };
}

impl Draws {
    /// Nothing is drawn. It takes no memory.
    pub fn new(alloc: Global) -> Draws
        ensures { result.rows ≡ [] }
    {
        Draws {
            numbers: IndexMap::new(alloc),
        }
    }

    // How many fetches of an address without fragment were drawn.
    #[tactic(auto, using(crate::proofs::Drawing::found_drawn))]
    fn drawn(&self, address: &[u8]) -> u32
        ensures { result ≡ drawn_of self.now.rows address.now }
    {
        match self.numbers.get(address) {
            Some(number) => *number,
            None => 0,
        }
    }

    /// The number that the next fetch of an address gets. It takes no memory.
    pub fn next(&self, address: &Text) -> u32
        ensures { result ≡ next_draw self.now.rows address.now }
    {
        self.drawn(without_fragment(address.as_bytes()))
    }

    // An address without its fragment, of which so many more fetches can be counted.
    fn countable(&self, alloc: Global, address: &Text, many: usize) -> Result<Vec<u8>, NoMemory>
        ensures address { IfOk result (λ own. own.items ≡ without_fragment address.now) }
        ensures count { IfOk result (λ own. drawn_of self.now.rows own.items + many < 2 ^ 32) }
    {
        let front = without_fragment(address.as_bytes());
        if ((u32::MAX - self.drawn(front)) as usize) < many {
            return Err(NoMemory);
        }
        let mut own = Vec::new(alloc);
        own.extend_from_slice(front)?;
        Ok(own)
    }

    /// Makes room to draw a fetch of an address.
    pub fn draw_row(&mut self, alloc: Global, address: &Text) -> Result<NewDraw, NoMemory>
        ensures same { self.new.rows ≡ self.old.rows }
        ensures room { self.old.spare ≤ self.new.spare }
        ensures row { IfOk result (λ new. new ≡ without_fragment address.now) }
        ensures fits { IfOk result (λ new. FitsDraw new self.new) }
    {
        self.numbers.reserve(1)?;
        Ok(NewDraw {
            address: self.countable(alloc, address, 1)?,
        })
    }

    // Draws a fetch of an address without fragment, and gives its number. It takes no memory.
    #[tactic(auto, using(crate::proofs::Drawing::found_drawn, crate::proofs::Drawing::drawn_once))]
    fn put(&mut self, address: Vec<u8>) -> u32
        requires { FitsDraw address.items self.old }
        ensures rows { self.new.rows ≡ one_more self.old.rows address.items }
        ensures number { result ≡ drawn_of self.old.rows address.items }
        ensures room { self.old.spare ≤ self.new.spare + 1 }
    {
        let number = self.drawn(address.as_slice());
        // No address stands twice.
        let _many = self.numbers.len();
        let _ = self.numbers.insert(address, number + 1);
        number
    }

    /// Draws a fetch of an address, and gives its number. It takes no memory.
    pub fn draw_put(&mut self, row: NewDraw) -> u32
        requires { FitsDraw row self.old }
        ensures drawn { (address : List ℕ) → without_fragment address ≡ row
            → self.new.rows ≡ with_draw self.old.rows address }
        ensures number { (address : List ℕ) → without_fragment address ≡ row
            → result ≡ next_draw self.old.rows address }
        ensures room { self.old.spare ≤ self.new.spare + 1 }
    {
        self.put(row.address)
    }

    // The addresses of requests, without their fragments, of which as many more fetches can be counted.
    fn all_countable(&self, alloc: Global, requests: &[Request]) -> Result<Vec<Vec<u8>>, NoMemory>
        ensures addresses { IfOk result (λ all. map (λ own. own.items) all.items
            ≡ addresses_of requests.now) }
        ensures counts { IfOk result (λ all.
            All (λ address. drawn_of self.now.rows address + length requests.now < 2 ^ 32)
            (map (λ own. own.items) all.items)) }
    {
        let mut all = Vec::new(alloc);
        for request in requests {
            all.push(self.countable(alloc, &request.url, requests.len())?)?;
        }
        Ok(all)
    }

    /// Makes room to draw a fetch for each of these requests.
    pub fn draw_rows(&mut self, alloc: Global, requests: &[Request]) -> Result<NewDraws, NoMemory>
        ensures same { self.new.rows ≡ self.old.rows }
        ensures room { self.old.spare ≤ self.new.spare }
        ensures rows { IfOk result (λ new. new ≡ addresses_of requests.now) }
        ensures fits { IfOk result (λ new. FitsDraws new self.new) }
    {
        self.numbers.reserve(requests.len())?;
        let addresses = self.all_countable(alloc, requests)?;
        let mut numbers = Vec::new(alloc);
        numbers.reserve(requests.len())?;
        Ok(NewDraws { addresses, numbers })
    }

    /// Draws the fetches of an addAll, and gives their numbers in the order of its requests. It takes no memory.
    #[tactic(auto, using(crate::proofs::Drawing::drawn_numbers_are, crate::proofs::Drawing::drawn_rows_are, crate::proofs::Drawing::drawn_begun, crate::proofs::Drawing::drawn_next, crate::proofs::Drawing::fits_first))]
    pub fn draw_all(&mut self, rows: NewDraws) -> Items<u32>
        requires { FitsDraws rows self.old }
        ensures drawn { (requests : List Request) → addresses_of requests ≡ rows
            → self.new.rows ≡ with_draws self.old.rows requests }
        ensures numbers { (requests : List Request) → addresses_of requests ≡ rows
            → result ≡ drawn_numbers self.old.rows requests }
        ensures room { self.old.spare ≤ self.new.spare + length rows }
    {
        let NewDraws {
            addresses,
            mut numbers,
        } = rows;
        for address in addresses {
            numbers.push_reserved(self.put(address));
        }
        Items::from_vec(numbers)
    }
}
