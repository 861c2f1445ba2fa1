//! The recording while it is made.

ghost use Rattle.std.specs.Prelude.{◌≡◌, ◌+◌, ◌%◌, OnOk, string_bytes, replicate};
ghost use Rattle.sw_gen.specs.Generated.{next, count_of, with_client};

use crate::lines::client_lines;
use std::alloc::Global;
use std::marker::Model;
use sw_data::NoMemory;

// How many lanes there are.
const LANES: usize = 8;

/// What is made so far: the last number, how many lines each lane has, and the text.
#[derive(Drop)]
pub struct Made {
    x: u32,
    counts: [u32; LANES],
    text: String,
}

impl Model for Made {
    ghost use Rattle.std.specs.Prelude.{string_bytes};
    ghost use Rattle.sw_gen.specs.Generated as generated;

    ghost Value = { generated.Made };

    ghost view = { λ made.
        record { x = made.x; counts = made.counts; text = string_bytes made.text } };
}

// The number after a number.
fn next(x: u32) -> u32
    ensures { result ≡ next x }
{
    ((1_103_515_245 * u64::from(x) + 12_345) % 2_147_483_648) as u32
}

// The lines of a client that closes, caches, updates or unregisters.
fn count_of(kind: u32) -> u32
    ensures { result ≡ count_of kind }
{
    if kind == 1 { 5 } else { 4 }
}

impl Made {
    /// The scripts alone, whose lines are `text`.
    pub fn new(text: String, number: u32) -> Made
        ensures { result
            ≡ record { x = number % 2147483648; counts = replicate 8 0; text = string_bytes text } }
    {
        Made {
            x: number % 2_147_483_648,
            counts: [0; LANES],
            text,
        }
    }

    /// Adds the lines of a client.
    #[tactic(auto, unfolding(crate::specs::Generated::with_client))]
    pub fn add(&mut self, alloc: Global, client: u32) -> Result<(), NoMemory>
        ensures { OnOk result (self.new ≡ with_client client self.old) }
    {
        let first = next(self.x);
        let second = next(first);
        let script = first / 65_536 % 16;
        let kind = second / 65_536 % 4;
        let lane = client % 8;
        let before = self.counts[lane as usize];
        let at = before.checked_add(1).ok_or(NoMemory)?;
        let after = before.checked_add(count_of(kind)).ok_or(NoMemory)?;
        let lines = client_lines(alloc, lane, at, client, script, kind)?;
        self.text.push_str(lines.as_str())?;
        self.counts[lane as usize] = after;
        self.x = second;
        Ok(())
    }

    /// The text.
    pub fn into_text(self) -> String
        ensures { string_bytes result ≡ self.text }
    {
        self.text
    }
}
