//! Actions of pages that were worked out, with the room for their promises and navigation preloads.

ghost use Rattle.std.specs.Prelude.{◌≡◌, None, IfOk};
ghost use Rattle.sw_data.specs.declared.events.Who.TheVariants as maker;
ghost use Rattle.sw_pages.specs.Acts as pages;
ghost use Rattle.sw_pages.specs.Fits.{FitsHost, FitsPage};
ghost use Rattle.sw_rules.specs.State.{State};
ghost use Rattle.sw_rules.specs.Told.{Told};
ghost use Rattle.sw_state.specs.Hosted.{SameRows};
ghost use Rattle.sw_work.specs.Plans.{FitsAsked, FitsTheAct, FitsThen, IsAsked, caller_of, told_by_act, told_then};

use std::alloc::Global;
use sw_data::NoMemory;
use sw_ledgers::Awaited;
use sw_pages::{PageAct, Worked};
use sw_state::HostTables;
use sw_work::{Act, Asked, Then};

// What follows a lane's action whose promise waits for this, if for anything.
#[tactic(auto, unfolding(sw_rules::specs::Jobs::promise))]
pub(crate) fn then_of(
    host: &mut HostTables,
    lane: u32,
    at: u32,
    awaited: Option<Awaited>,
) -> Result<Then, NoMemory>
    ensures same { SameRows host.old host.new }
    ensures others { host.new ≡ record host.old { promises = host.new.promises } }
    ensures fits { IfOk result (λ then. (state : State) → FitsThen then state host.new) }
    ensures caller { IfOk result (λ then. caller_of then ≡ None) }
    ensures told { IfOk result (λ then. (told : Told)
        → pages.promised (maker.Lane lane at) awaited told ≡ told_then then told) }
{
    match awaited {
        Some(awaited) => Ok(Then::Promise(host.promises.promise_row(lane, at, awaited)?)),
        None => Ok(Then::Nothing),
    }
}

// What an act of a page is among all acts.
fn act_of(host: &mut HostTables, alloc: Global, act: PageAct) -> Result<Act, NoMemory>
    requires { FitsPage act host.old.workers host.old.registrations host.old.clients
        host.old.queues }
    ensures same { SameRows host.old host.new }
    ensures others { host.new ≡ record host.old { preloads = host.new.preloads } }
    ensures fits { IfOk result (λ all. FitsTheAct all host.new) }
    ensures told { IfOk result (λ all. (state : State)
        → pages.told_by act state ≡ told_by_act all state) }
{
    match act {
        PageAct::Preload {
            registration,
            on,
            value,
        } => {
            let row = host.preloads.set_row(alloc, registration, on, &value)?;
            Ok(Act::Preload(row))
        }
        act => Ok(Act::Page(act)),
    }
}

// An action of a lane that was worked out, with the room for its promise and its navigation preload.
pub(crate) fn asked(
    host: &mut HostTables,
    alloc: Global,
    lane: u32,
    at: u32,
    worked: Worked,
) -> Result<Asked, NoMemory>
    requires { FitsHost worked host.old }
    ensures same { SameRows host.old host.new }
    ensures fits { IfOk result (λ asked. FitsAsked asked host.new) }
    ensures agrees { IfOk result (λ asked. (state : State)
        → IsAsked (pages.outcome_of (maker.Lane lane at) worked state) asked state) }
{
    let Worked {
        answer,
        act,
        awaited,
    } = worked;
    let then = then_of(host, lane, at, awaited)?;
    let act = act_of(host, alloc, act)?;
    Ok(Asked { answer, act, then })
}
