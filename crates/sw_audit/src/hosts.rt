//! A host that follows a recording.

ghost use Rattle.std.specs.Prelude.{◌≡◌, ◌∷◌, [], IfOk};
ghost use Rattle.sw_audit.specs.Following.{HasFollowed};
ghost use Rattle.sw_data.specs.declared.histories.Entry as entries;
ghost use Rattle.sw_lane.specs.Recorded.{AreLanesOf};
ghost use Rattle.sw_rules.specs.History.{IsOpening};
ghost use Rattle.sw_rules.specs.Restart.{restart};
ghost use Rattle.sw_rules.specs.Storage.{IsMade};

use crate::enabled::marks;
use crate::ends::ending;
use crate::entering::{enter, opening};
use crate::machines::{Ending, Machine};
use crate::marks::Mark;
use crate::taking::taken;
use std::alloc::Global;
use std::marker::Model;
use sw_change::Content;
use sw_core::{Core, CoreBoard};
use sw_data::{Entry, NoMemory, Recording};
use sw_lane::Lanes;
use sw_laws::laws::states_are_coherent;
use sw_net::Net;

/// A host, what is left of the lanes of a recording, and its network.
#[derive(Drop)]
pub struct Host {
    core: Core,
    lanes: Lanes,
    net: Net,
}

impl Model for Host {
    ghost use Rattle.sw_audit.specs.Following.{Following, IsLed};

    ghost Value = { Following };

    ghost view = { λ host. record { core = host.core; lanes = host.lanes; net = host.net } };

    ghost invariant = { λ host. IsLed host.core host.lanes host.net };
}

// The lanes of a recording at their beginning, and its network.
fn set_out(alloc: Global, recording: Recording) -> Result<(Lanes, Net), NoMemory>
    ensures lanes { IfOk result (λ made. AreLanesOf recording [] made.0) }
    ensures net { IfOk result (λ made. recording.fetches ≡ made.1) }
{
    let net = Net::new(alloc, recording.fetches)?;
    let lanes = Lanes::new(alloc, recording.lanes)?;
    Ok((lanes, net))
}

// A content from which there is no memory to restart, which is let go.
fn unmade(base: Content) -> NoMemory {
    drop(base);
    NoMemory
}

// Lanes and a network for which there is no host, which are let go.
fn unled(lanes: Lanes, net: Net) -> NoMemory {
    drop(lanes);
    drop(net);
    NoMemory
}

impl Host {
    /// The host after a restart from a content, before anything of a recording has happened.
    pub fn restart(alloc: Global, base: Content, recording: Recording) -> Result<Host, NoMemory>
        requires { IsMade base }
        ensures { IfOk result (λ host. (opening : entries.Entry) → IsOpening base opening
            → HasFollowed host recording (opening ∷ []) (restart base)) }
    {
        states_are_coherent();
        match set_out(alloc, recording) {
            Ok((lanes, net)) => match Core::restart(alloc, base) {
                Ok(core) => Ok(Host { core, lanes, net }),
                Err(NoMemory) => Err(unled(lanes, net)),
            },
            Err(NoMemory) => Err(unmade(base)),
        }
    }

    /// The marks of the events that may happen next: those of lanes first, then those of handlers, then those of the host.
    /// It takes time in the rows of the host.
    pub fn marks(&self, alloc: Global) -> Result<Vec<Mark>, NoMemory> {
        marks(alloc, &self.core, &self.lanes)
    }
}

impl Machine for Host {
    ghost use Rattle.sw_audit.specs.Following.{HasFollowed};

    ghost stands = { HasFollowed };

    fn opening(&self, alloc: Global) -> Result<Entry, NoMemory> {
        opening(alloc, &self.core)
    }

    fn numbers(&self) {
        self.core.are_few();
        let _lanes = self.lanes.len();
    }

    fn happen(&mut self, alloc: Global, mark: Mark) -> Result<Option<Entry>, NoMemory> {
        match taken(alloc, &self.core, &mut self.lanes, &self.net, mark) {
            Ok(Some(event)) => match enter(alloc, &mut self.core, event) {
                Ok(entry) => Ok(Some(entry)),
                Err(NoMemory) => Err(NoMemory),
            },
            Ok(None) => Ok(None),
            Err(NoMemory) => Err(NoMemory),
        }
    }

    fn ending(&self) -> Option<Ending> {
        let board = CoreBoard {
            core: &self.core,
            flights: &[],
        };
        ending(&self.lanes, &board)
    }
}
