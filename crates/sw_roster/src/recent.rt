//! The clients with a focus, last focused first.

ghost use Rattle.std.specs.Prelude.{◌≡◌, [], ◌∷◌, IfOk, OnErr, OnOk};
ghost use Rattle.std.specs.List.{list_any};
ghost use Rattle.sw_roster.specs.Members.{is_same};
ghost use Rattle.sw_rules.specs.Rows.{without};

use std::alloc::Global;
use std::marker::Model;
use sw_data::NoMemory;
use sw_list::Ordered;

// The clients with a focus. A focus takes a binary search, a constant number of look-ups and a plain move of those that were
// focused later.
#[derive(Drop)]
pub(crate) struct Recent {
    // By rising focus; each number stands under itself.
    numbers: Ordered<u32>,
}

impl Model for Recent {
    ghost use Rattle.std.specs.Prelude.{ℕ, List, reverse};
    ghost use Rattle.std.specs.Map.{values_of};
    ghost use Rattle.sw_client.specs.Keyed.{IsKeyed};

    ghost Value = { List ℕ };

    ghost view = { λ recent. reverse (values_of recent.numbers.entries) };

    ghost invariant = { λ recent. IsKeyed (λ number. number) recent.numbers.entries };
}

impl Recent {
    // No client has a focus. It takes no memory.
    pub(crate) fn new(alloc: Global) -> Recent
        ensures { result ≡ [] }
    {
        Recent {
            numbers: Ordered::new(alloc),
        }
    }

    // Whether a client has a focus. It takes no memory.
    pub(crate) fn has(&self, client: u32) -> bool
        ensures { result ≡ list_any (is_same client) self.now }
    {
        self.numbers.contains(client)
    }

    // A client is focused.
    pub(crate) fn focus(&mut self, client: u32) -> Result<(), NoMemory>
        ensures ok { OnOk result (self.new ≡ client ∷ without (is_same client) self.old) }
        ensures err { OnErr result (self.new ≡ self.old) }
    {
        self.numbers.make_room()?;
        let _ = self.numbers.remove(client);
        self.numbers.add(client, client);
        Ok(())
    }

    // A client has no focus any more. It takes no memory.
    pub(crate) fn leave(&mut self, client: u32)
        ensures { self.new ≡ without (is_same client) self.old }
    {
        let _ = self.numbers.remove(client);
    }

    // The clients with a focus, last focused first.
    pub(crate) fn numbers(&self, alloc: Global) -> Result<Vec<u32>, NoMemory>
        ensures { IfOk result (λ all. all.items ≡ self.now) }
    {
        let mut all = Vec::new(alloc);
        for place in 0..self.numbers.len() {
            if let Some(number) = self.numbers.at(place) {
                all.push(*number)?;
            }
        }
        all.reverse();
        Ok(all)
    }
}
