//! The clock of a disk in memory, and what a crash at each moment that is past may have left.

ghost use Rattle.std.specs.Prelude.{◌≡◌, ◌+◌, ◌++◌, ◌≤◌, ◌∷◌, [], OnOk, OnErr};
ghost use Rattle.std.specs.List.{All};
ghost use Rattle.sw_data.specs.Faults.{Rose};
ghost use Rattle.sw_disk.specs.DiskRule.{capped};

use super::part::MemoryPart;
use crate::part::Parts;
use std::alloc::Global;
use sw_data::Failed;

// What the parts were when the entry of a sync that answered `Ok` was, and the clock then. A crash since the sync
// before it left nothing that a crash then couldn't leave: writes and cuts only add to what may be left.
#[derive(Debug, Drop)]
pub(crate) struct Past {
    pub(crate) clock: u64,
    pub(crate) parts: Parts<MemoryPart>,
}

// The clock, and what is past.
#[derive(Debug, Drop)]
pub(crate) struct History {
    pub(crate) clock: u64,
    pub(crate) past: Vec<Past>,
    ghost in_order: { All (λ p. Rose p.clock clock) past.items },
}

impl History {
    // The clock 0, with nothing past; it takes no memory.
    pub(crate) fn new(alloc: Global) -> History
        ensures clock { result.clock ≡ 0 }
        ensures past { result.past.items ≡ [] }
    {
        History {
            clock: 0,
            past: Vec::new(alloc),
        }
    }

    // Counts a call.
    #[tactic(auto, using(crate::proofs::Moved::later_all))]
    pub(crate) fn tick(&mut self)
        ensures clock { self.new.clock ≡ capped (self.old.clock + 1) }
        ensures later { self.old.clock ≤ self.new.clock }
        ensures past { self.new.past ≡ self.old.past }
    {
        self.clock = self.clock.saturating_add(1);
    }

    // Keeps what the parts were at the entry of a sync, of which this was the clock.
    pub(crate) fn keep(&mut self, entry: u64, parts: Parts<MemoryPart>) -> Result<(), Failed>
        requires { Rose entry self.old.clock }
        ensures clock { self.new.clock ≡ self.old.clock }
        ensures ok { OnOk result
            (self.new.past.items ≡ self.old.past.items ++
            (record { clock = entry; parts = parts }) ∷ []) }
        ensures err { OnErr result (self.new.past.items ≡ self.old.past.items) }
    {
        match self.past.push(Past {
            clock: entry,
            parts,
        }) {
            Ok(()) => Ok(()),
            Err(_) => Err(Failed),
        }
    }
}
