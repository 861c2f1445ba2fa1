//! The checks of scripts, one after another.

ghost use Rattle.std.specs.Prelude.{◌≡◌, bytes_eq, map, option_map, IfOk, OnErr};
ghost use Rattle.std.specs.Map.{lookup};
ghost use Rattle.sw_ledgers.specs.Drawn.{FitsDraws, addresses_of};
ghost use Rattle.sw_import.specs.Checking.{answer_of, check, nothing, settled, with_fetches};

use crate::answers::{Checked, Outcome, Resource, Store};
use crate::course::{Ended, check_script};
use crate::network::Network;
use indexmap::IndexMap;
use std::alloc::Global;
use std::marker::Model;
use sw_data::{Items, NoMemory, Request, Text};
use sw_ledgers::{Draws, NewDraws};
use sw_readers::{ImportFetch, ImportRecording};

/// A recorded network, and what the checks of scripts so far left: the store of each script that has one, and how many
/// fetches of each address were drawn.
#[derive(Drop)]
pub struct Imports {
    network: Network,
    stores: IndexMap<Text, Store>,
    draws: Draws,
}

impl Model for Imports {
    ghost use Rattle.sw_import.specs.Checking.{DryRun};

    ghost Value = { DryRun };

    ghost view = { λ imports. record {
      lines = imports.network;
      checks = record {
        stores = imports.stores.entries;
        draws = imports.draws.rows;
      };
    } };
}

// A count as a number of an answer.
fn counted(count: usize) -> Result<u32, NoMemory>
    ensures { IfOk result (λ number. number ≡ count) }
{
    u32::try_from(count).map_err(|_| NoMemory)
}

// The answer to a check that made so many fetches.
fn answer_of(fetches: usize, outcome: &Outcome) -> Result<Checked, NoMemory>
    ensures { IfOk result (λ checked. checked ≡ answer_of fetches outcome.now) }
{
    let fetches = counted(fetches)?;
    match outcome {
        Outcome::Failed(cause) => Ok(Checked::Failed {
            cause: *cause,
            fetches,
        }),
        Outcome::Unchanged => Ok(Checked::Unchanged { fetches }),
        Outcome::Changed(store) => Ok(Checked::Changed {
            fetches,
            resources: counted(store.resources.as_slice().len())?,
        }),
    }
}

// Draws the fetches of these requests. It takes no memory.
#[tactic(auto, using(crate::proofs::Drawing::fetches_of))]
fn draw(draws: &mut Draws, rows: NewDraws, made: &[Request])
    requires fits { FitsDraws rows draws.old }
    requires rows { rows ≡ addresses_of made.now }
    ensures { draws.new.rows
        ≡ with_fetches draws.old.rows (map (λ request. request.url) made.now) }
{
    let _numbers = draws.draw_all(rows);
}

impl Imports {
    /// Nothing is checked yet, on the network of these lines.
    pub(crate) fn over(alloc: Global, fetches: Items<ImportFetch>) -> Result<Imports, NoMemory>
        ensures lines { IfOk result (λ imports. imports.lines ≡ fetches) }
        ensures checks { IfOk result (λ imports. imports.checks ≡ nothing) }
    {
        Ok(Imports {
            network: Network::new(alloc, fetches)?,
            stores: IndexMap::new(alloc),
            draws: Draws::new(alloc),
        })
    }

    /// Nothing is checked yet, on the network of a recording. Its own list of checks plays no part.
    pub fn new(alloc: Global, recording: ImportRecording) -> Result<Imports, NoMemory>
        ensures lines { IfOk result (λ imports. imports.lines ≡ recording.fetches) }
        ensures checks { IfOk result (λ imports. imports.checks ≡ nothing) }
    {
        Imports::over(alloc, recording.fetches)
    }

    // Carries out what a check of a script comes to.
    fn settle(&mut self, alloc: Global, script: &Text, ended: Ended) -> Result<Checked, NoMemory>
        ensures ok { IfOk result (λ checked. (checked, self.new.checks)
            ≡ settled self.old.checks script.now ended) }
        ensures lines { self.new.lines ≡ self.old.lines }
        ensures err { OnErr result (self.new ≡ self.old) }
    {
        let Ended { made, outcome } = ended;
        let answer = answer_of(made.len(), &outcome)?;
        let rows = self.draws.draw_rows(alloc, made.as_slice())?;
        match outcome {
            Outcome::Changed(store) => {
                let script = script.copy(alloc)?;
                self.stores.reserve(1)?;
                draw(&mut self.draws, rows, made.as_slice());
                let _ = self.stores.insert(script, store);
            }
            Outcome::Failed(_) | Outcome::Unchanged => {
                draw(&mut self.draws, rows, made.as_slice())
            }
        }
        Ok(answer)
    }

    /// The update check of a script, an http or https address without its fragment, and of the scripts that it imports.
    #[tactic(auto, unfolding(crate::specs::Checking::check))]
    pub fn check(&mut self, alloc: Global, script: &Text) -> Result<Checked, NoMemory>
        ensures ok { IfOk result (λ checked. (checked, self.new.checks)
            ≡ check self.old.lines self.old.checks script.now) }
        ensures lines { self.new.lines ≡ self.old.lines }
        ensures err { OnErr result (self.new ≡ self.old) }
    {
        let store = self.stores.get(script);
        let ended = check_script(alloc, &self.network, &self.draws, store, script)?;
        self.settle(alloc, script, ended)
    }

    /// What is stored of the scripts that a script imports, or none where the script has no store. It takes no memory.
    pub fn resources(&self, script: &Text) -> Option<&[Resource]>
        ensures { option_map (λ own. own.now) result
            ≡ option_map (λ store. store.resources)
            (lookup (bytes_eq script.now) self.now.checks.stores) }
    {
        let store = self.stores.get(script)?;
        Some(store.resources.as_slice())
    }
}
