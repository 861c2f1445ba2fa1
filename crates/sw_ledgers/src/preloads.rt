//! The navigation preloads of registrations.

ghost use Rattle.std.specs.Prelude.{◌≡◌, ◌≤◌, ◌<◌, ◌==◌, [], ℕ, IfOk, if◌then◌else◌};
ghost use Rattle.sw_ledgers.specs.Preloaded.{preload_of, preload_value_of};

use indexmap::IndexMap;
use std::alloc::Global;
use std::marker::Model;
use sw_data::{NoMemory, Text};

// The flag and the header value of a navigation preload.
#[derive(Debug, Drop)]
pub(crate) struct Preload {
    pub(crate) on: bool,
    pub(crate) value: Text,
}

/// The navigation preload of each registration that has set it.
#[derive(Drop)]
pub struct Preloads {
    preloads: IndexMap<u32, Preload>,
}

impl Model for Preloads {
    ghost use Rattle.indexmap.specs.IndexMap.{spare};
    ghost use Rattle.sw_ledgers.specs.Preloaded.{Table, rows_of};

    ghost Value = { Table };

    ghost view = { λ preloads. record {
      rows = rows_of preloads.preloads.entries;
      spare = spare preloads.preloads;
    } };
}

/// The navigation preload of a registration, which isn't in the table yet.
#[derive(Debug, Drop)]
pub struct NewPreload {
    registration: u32,
    preload: Preload,
}

impl Model for NewPreload {
    ghost use Rattle.sw_ledgers.specs.Preloaded.{PreloadRow, row_of};

    ghost Value = { PreloadRow };

    ghost view = { λ new. row_of (new.registration, new.preload) };
}

impl NewPreload {
    /// The registration that gets it. It takes no memory.
    pub fn registration(&self) -> u32
        ensures { result ≡ self.now.registration }
    {
        self.registration
    }

    /// Its flag. It takes no memory.
    pub fn is_on(&self) -> bool
        ensures { result ≡ self.now.on }
    {
        self.preload.on
    }

    /// Its header value. It takes no memory.
    pub fn value(&self) -> &Text
        ensures { result.now ≡ self.now.value }
    {
        &self.preload.value
    }
}

impl Preloads {
    /// Each registration has the first flag and value. It takes no memory.
    pub fn new(alloc: Global) -> Preloads
        ensures { result.rows ≡ [] }
    {
        Preloads {
            preloads: IndexMap::new(alloc),
        }
    }

    /// The navigation preload flag of a registration. It takes no memory.
    #[tactic(auto, using(crate::proofs::Preloading::flag_found))]
    pub fn is_on(&self, registration: u32) -> bool
        ensures { result ≡ preload_of self.now.rows registration }
    {
        match self.preloads.get(&registration) {
            Some(preload) => preload.on,
            None => false,
        }
    }

    /// The navigation preload header value of a registration. It takes no memory.
    #[tactic(auto, using(crate::proofs::Preloading::value_found))]
    pub fn value(&self, registration: u32) -> &str
        ensures { result.now ≡ preload_value_of self.now.rows registration }
    {
        match self.preloads.get(&registration) {
            Some(preload) => preload.value.as_str(),
            None => "true",
        }
    }

    /// Makes room for the navigation preload of a registration.
    pub fn set_row(
        &mut self,
        alloc: Global,
        registration: u32,
        on: bool,
        value: &Text,
    ) -> Result<NewPreload, NoMemory>
        ensures same { self.new.rows ≡ self.old.rows }
        ensures room { self.old.spare ≤ self.new.spare }
        ensures row { IfOk result (λ new. new
            ≡ record { registration = registration; on = on; value = value.now }) }
        ensures fits { IfOk result (λ new. 0 < self.new.spare) }
    {
        self.preloads.reserve(1)?;
        Ok(NewPreload {
            registration,
            preload: Preload {
                on,
                value: value.copy(alloc)?,
            },
        })
    }

    /// A registration gets its navigation preload. It takes no memory.
    pub fn set_put(&mut self, row: NewPreload)
        requires { 0 < self.old.spare }
        ensures flag { (n : ℕ) → preload_of self.new.rows n
            ≡ (if n == row.registration then row.on else preload_of self.old.rows n) }
        ensures value { (n : ℕ) → preload_value_of self.new.rows n
            ≡ (if n == row.registration then row.value else preload_value_of self.old.rows n) }
    {
        let _ = self.preloads.insert(row.registration, row.preload);
    }
}
