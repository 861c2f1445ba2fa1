//! Events that happen, and their entries.

ghost use Rattle.std.specs.Prelude.{◌≡◌, true, IfOk, OnErr};
ghost use Rattle.sw_audit.specs.Following.{IsEntered};
ghost use Rattle.sw_audit.specs.Continuing.{Opens};
ghost use Rattle.sw_data.specs.Events.{who_of};
ghost use Rattle.sw_laws.specs.Coherent.{Coherent};
ghost use Rattle.sw_rules.specs.Step.{enabled};
ghost use Rattle.sw_state.specs.Hosted.{state_of};

use std::alloc::Global;
use sw_core::Core;
use sw_data::{Answer, Entry, Event, Items, NoMemory, Who};
use sw_laws::laws::states_are_coherent;
use sw_work::Reply;

// The entry of a restart into the state that a host is in.
pub(crate) fn opening(alloc: Global, core: &Core) -> Result<Entry, NoMemory>
    ensures { IfOk result (Opens (state_of core.now)) }
{
    let Ok(registrations) = u32::try_from(core.mapped_count()) else {
        return Err(NoMemory);
    };
    let Ok(caches) = u32::try_from(core.cache_count()) else {
        return Err(NoMemory);
    };
    Ok(Entry {
        pass: 0,
        who: Who::Host,
        event: Event::Restarted { who: Who::Host },
        answer: Answer::Restarted {
            registrations,
            caches,
        },
        notices: Items::new(alloc),
        stamp: 0,
    })
}

// An event for which there is no memory, which is let go.
fn unmade(event: Event) -> NoMemory {
    drop(event);
    NoMemory
}

// The entry of an event that was answered so.
fn entry_of(event: Event, reply: Reply) -> Entry
    ensures event { result.event ≡ event }
    ensures maker { result.who ≡ who_of event }
    ensures answer { result.answer ≡ reply.answer }
    ensures notices { result.notices ≡ reply.notices }
{
    let Reply { answer, notices } = reply;
    Entry {
        pass: 0,
        who: event.who(),
        event,
        answer,
        notices,
        stamp: 0,
    }
}

// An event that may happen does.
pub(crate) fn enter(alloc: Global, core: &mut Core, event: Event) -> Result<Entry, NoMemory>
    requires coherent { Coherent (state_of core.old) }
    requires enabled { enabled (state_of core.old) event ≡ true }
    ensures entered { IfOk result (λ entry.
        IsEntered event (state_of core.old) entry (state_of core.new)) }
    ensures coherent { Coherent (state_of core.new) }
    ensures same { OnErr result (state_of core.new ≡ state_of core.old) }
{
    states_are_coherent();
    match core.apply(alloc, &event) {
        Ok(reply) => Ok(entry_of(event, reply)),
        Err(NoMemory) => Err(unmade(event)),
    }
}
