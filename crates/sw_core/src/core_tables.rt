//! A host.

ghost use Rattle.std.specs.Prelude.{◌≡◌};
ghost use Rattle.sw_rules.specs.State.{initial};
ghost use Rattle.sw_state.specs.Hosted.{state_of};

use std::alloc::Global;
use std::marker::Model;
use sw_state::HostTables;

/// A host: its tables, which nobody else changes.
#[derive(Drop)]
pub struct Core {
    pub(crate) host: HostTables,
}

impl Model for Core {
    ghost use Rattle.sw_state.specs.Hosted.{Hosted};

    ghost Value = { Hosted };

    ghost view = { λ core. core.host };
}

impl Core {
    /// A host of which nothing is kept. It takes no memory.
    pub fn new(alloc: Global) -> Core
        ensures { state_of result ≡ initial }
    {
        Core {
            host: HostTables::new(alloc),
        }
    }
}
