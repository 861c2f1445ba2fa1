//! A host with the order of focus of its clients.

ghost use Rattle.std.specs.Prelude.{◌≡◌, ◌≢◌, ◌↔◌, [], ◌∷◌, true, false, if◌then◌else◌, Err, None, Some, IfOk, OnErr, OnOk};
ghost use Rattle.sw_laws.specs.Coherent.{Coherent};
ghost use Rattle.sw_roster.specs.Members as rules;
ghost use Rattle.sw_roster.specs.Members.{by_focus, dropped, is_same, may_ask, members};
ghost use Rattle.sw_rules.specs.Rows.{client_row, without};
ghost use Rattle.sw_rules.specs.Step.{Step, enabled};
ghost use Rattle.sw_state.specs.Hosted.{state_of};

use crate::asking::{add_others, got, listed_of, may_ask};
use crate::faults::RosterFault;
use crate::recent::Recent;
use std::alloc::Global;
use std::marker::Model;
use sw_core::Core;
use sw_data::{Answer, Event, NoMemory};
use sw_work::Reply;

/// A host, and its clients with a focus in the order of focus. To focus a client takes a binary search, a constant number
/// of look-ups and a plain move of the numbers that were focused later, sixteen bytes each; a list takes time in the
/// clients that are open.
#[derive(Drop)]
pub struct Roster {
    core: Core,
    recent: Recent,
}

impl Model for Roster {
    ghost use Rattle.sw_laws.specs.Coherent.{Coherent};
    ghost use Rattle.sw_roster.specs.Members.{Rostered};
    ghost use Rattle.sw_state.specs.Hosted.{state_of};

    ghost Value = { Rostered };

    ghost view = { λ roster. record {
      state = state_of roster.core;
      recent = roster.recent;
    } };

    ghost invariant = { λ roster. Coherent (state_of roster.core) };
}

// Whether an `open` with this answer added its client.
fn has_opened(answer: &Answer) -> bool
    ensures { result ≡ rules.has_opened answer.now }
{
    matches!(answer, Answer::None | Answer::Worker(_))
}

// Whether a `close` with this answer closed its client.
fn has_closed(answer: &Answer) -> bool
    ensures { result ≡ rules.has_closed answer.now }
{
    matches!(answer, Answer::Ok)
}

// A number, where it is so.
fn number_if(number: u32, is_so: bool) -> Option<u32>
    ensures { result ≡ (if is_so then Some number else None) }
{
    if is_so { Some(number) } else { None }
}

// The client that an event with this answer opened or closed.
fn turned(event: &Event, answer: &Answer) -> Option<u32>
    ensures { result ≡ rules.turned event.now answer.now }
{
    match event {
        Event::Open { client, .. } => number_if(*client, has_opened(answer)),
        Event::Close { client, .. } => number_if(*client, has_closed(answer)),
        _ => None,
    }
}

impl Roster {
    /// A host whose clients have no focus. It takes no memory.
    pub fn new(alloc: Global, core: Core) -> Roster
        requires { Coherent (state_of core) }
        ensures state { result.state ≡ state_of core }
        ensures recent { result.recent ≡ [] }
    {
        Roster {
            core,
            recent: Recent::new(alloc),
        }
    }

    /// The host. It takes no memory.
    pub fn core(&self) -> &Core
        ensures state { state_of result.now ≡ self.now.state }
        ensures coherent { Coherent (state_of result.now) }
    {
        &self.core
    }

    /// An event that is enabled happens. The client that it opens or closes has no focus then. After want of memory all is
    /// as before.
    pub fn act(&mut self, alloc: Global, event: &Event) -> Result<Reply, NoMemory>
        requires enabled { enabled self.old.state event.now ≡ true }
        ensures step { IfOk result (λ reply. Step self.old.state event.now
            reply.answer reply.notices self.new.state) }
        ensures recent { IfOk result (λ reply. self.new.recent
            ≡ dropped (rules.turned event.now reply.answer) self.old.recent) }
        ensures err { OnErr result (self.new ≡ self.old) }
    {
        let reply = self.core.apply(alloc, event)?;
        if let Some(client) = turned(event, &reply.answer) {
            self.recent.leave(client);
        }
        Ok(reply)
    }

    /// A client is focused: it stands first, the others behind it as they stood. After a refusal all is as before.
    pub fn focus(&mut self, client: u32) -> Result<(), RosterFault>
        ensures no_client { (result ≡ Err RosterFault.NoClient)
            ↔ (client_row self.old.state client ≡ None) }
        ensures no_worker { result ≢ Err RosterFault.NoWorker }
        ensures state { self.new.state ≡ self.old.state }
        ensures recent { OnOk result (self.new.recent
            ≡ client ∷ without (is_same client) self.old.recent) }
        ensures err { OnErr result (self.new ≡ self.old) }
    {
        if self.core.clients().row(client).is_none() {
            return Err(RosterFault::NoClient);
        }
        self.recent.focus(client)?;
        Ok(())
    }

    /// The number of a client, where a worker may see it. It takes no memory.
    pub fn get(&self, client: u32, worker: u32) -> Result<Option<u32>, RosterFault>
        ensures no_worker { (result ≡ Err RosterFault.NoWorker)
            ↔ (may_ask self.now.state worker ≡ false) }
        ensures no_client { result ≢ Err RosterFault.NoClient }
        ensures memory { result ≢ Err RosterFault.NoMemory }
        ensures got { IfOk result (λ got. got ≡ rules.got self.now.state client worker) }
    {
        if !may_ask(&self.core, worker) {
            return Err(RosterFault::NoWorker);
        }
        Ok(got(&self.core, client, worker))
    }

    /// The numbers of the clients that a worker sees and controls, and of those that it doesn't control too where it asks
    /// for them: those that were focused, last focused first, then the others in order of opening.
    pub fn list(
        &self,
        alloc: Global,
        worker: u32,
        uncontrolled: bool,
    ) -> Result<Vec<u32>, RosterFault>
        ensures no_worker { (result ≡ Err RosterFault.NoWorker)
            ↔ (may_ask self.now.state worker ≡ false) }
        ensures no_client { result ≢ Err RosterFault.NoClient }
        ensures listed { IfOk result (λ all. all.items
            ≡ by_focus self.now.recent (members self.now.state worker uncontrolled)) }
    {
        if !may_ask(&self.core, worker) {
            return Err(RosterFault::NoWorker);
        }
        let recent = self.recent.numbers(alloc)?;
        let mut all = listed_of(&self.core, alloc, recent.as_slice(), worker, uncontrolled)?;
        add_others(&self.core, &self.recent, worker, uncontrolled, &mut all)?;
        Ok(all)
    }
}
