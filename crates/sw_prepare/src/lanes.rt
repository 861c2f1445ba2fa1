//! Events of lanes, worked out with all their room.

ghost use Rattle.std.specs.Prelude.{◌≡◌, true, false, is_some, IfOk, IfSome};
ghost use Rattle.sw_cachestorage.specs.Actions.{cache_action};
ghost use Rattle.sw_cachestorage.specs.Adding as adding;
ghost use Rattle.sw_cachestorage.specs.Adding.{FitsStart};
ghost use Rattle.sw_prepare.specs.Paged.{is_of_storage};
ghost use Rattle.sw_data.specs.declared.events.Who.TheVariants as maker;
ghost use Rattle.sw_data.specs.Events.{is_lane, who_of};
ghost use Rattle.sw_laws.specs.Coherent.{Coherent};
ghost use Rattle.sw_pages.specs.Acts as pages;
ghost use Rattle.sw_pages.specs.Fits.{FitsHost};
ghost use Rattle.sw_rules.specs.Caching as rules;
ghost use Rattle.sw_rules.specs.Forgetting as forgetting;
ghost use Rattle.sw_rules.specs.Step.{enabled, step};
ghost use Rattle.sw_state.specs.Hosted.{Hosted, SameRows, state_of};
ghost use Rattle.sw_work.specs.Plans.{FitsAsked, FitsWork, IsAsked, Means, Works};

use crate::asked::{asked, then_of};
use std::alloc::Global;
use sw_cachestorage::{
    AddAllStep, add_all_at, is_busy, is_on_caches, place_key, prepare_on_caches,
};
use sw_data::{Answer, CacheAddAll, Event, NoMemory, Place, Who, unboxed_option};
use sw_pages::{
    PageAct, Worked, await_promise, begin, claim, close_client, end, open_client, preload_state,
    preload_switch, preload_value, ready, register, registration_at, registrations_of,
    skip_waiting, soft_update, unregister, update,
};
use sw_state::HostTables;
use sw_work::{Act, Asked, Then, Work};

// An answer that leaves all as it is.
fn answered(answer: Answer) -> Asked
    ensures { result ≡ record {
      answer = answer;
      act = Act.Page PageAct.Nothing;
      then = Then.Nothing;
    } }
{
    Asked {
        answer,
        act: Act::Page(PageAct::Nothing),
        then: Then::Nothing,
    }
}

// What an action of a page comes to.
#[tactic(auto, unfolding(sw_rules::specs::Step::step, sw_data::specs::Events::who_of))]
fn page(
    host: &mut HostTables,
    alloc: Global,
    lane: u32,
    at: u32,
    event: &Event,
) -> Result<Worked, NoMemory>
    requires coherent { Coherent (state_of host.old) }
    requires who { who_of event.now ≡ maker.Lane lane at }
    requires page { is_of_storage event.now ≡ false }
    requires enabled { enabled (state_of host.old) event.now ≡ true }
    ensures same { SameRows host.old host.new }
    ensures fits { IfOk result (λ worked. FitsHost worked host.new) }
    ensures gives { IfOk result (λ worked. IfSome (step (state_of host.old) event.now)
        (λ outcome. outcome
        ≡ pages.outcome_of (maker.Lane lane at) worked (state_of host.old))) }
{
    match event {
        Event::Open {
            client,
            url,
            partition,
            ..
        } => open_client(host, alloc, *client, url, unboxed_option(partition)),
        Event::Close { client, .. } => Ok(close_client(host, *client)),
        Event::Register {
            register: registering,
            ..
        } => register(host, alloc, registering.get()),
        Event::Update { of, .. } => update(host, alloc, of),
        Event::SoftUpdate { of, .. } => soft_update(host, alloc, of),
        Event::Unregister { of, .. } => unregister(host, alloc, of),
        Event::Await { of, .. } => Ok(await_promise(host, lane, *of)),
        Event::Ready { client, .. } => Ok(ready(host, *client)),
        Event::Registration { client, url, .. } => registration_at(host, alloc, *client, url),
        Event::Registrations { client, .. } => registrations_of(host, alloc, *client),
        Event::SkipWaiting { of, slot, .. } => skip_waiting(host, alloc, of, *slot),
        Event::Claim { of, slot, .. } => claim(host, alloc, of, *slot),
        Event::Begin { client, event, .. } => begin(host, *client, *event),
        Event::End { event, .. } => Ok(end(host, *event)),
        Event::PreloadEnable { of, .. } => preload_switch(host, alloc, of, true),
        Event::PreloadDisable { of, .. } => preload_switch(host, alloc, of, false),
        Event::PreloadValue { of, value, .. } => preload_value(host, alloc, of, value),
        Event::PreloadState { of, .. } => preload_state(host, alloc, of),
        // No lane makes the others.
        _ => unreachable!(),
    }
}

// The work of an action of a page.
fn work_of_page(
    host: &mut HostTables,
    alloc: Global,
    lane: u32,
    at: u32,
    event: &Event,
) -> Result<Work, NoMemory>
    requires coherent { Coherent (state_of host.old) }
    requires who { who_of event.now ≡ maker.Lane lane at }
    requires page { is_of_storage event.now ≡ false }
    requires enabled { enabled (state_of host.old) event.now ≡ true }
    ensures same { SameRows host.old host.new }
    ensures works { IfOk result (Works host.old host.new (step (state_of host.old) event.now)) }
{
    let worked = page(host, alloc, lane, at, event)?;
    Ok(Work::Asked(asked(host, alloc, lane, at, worked)?))
}

// An action on caches.
#[tactic(auto, using(crate::proofs::OnCaches::agrees))]
fn on_caches(host: &mut HostTables, alloc: Global, event: &Event) -> Result<Asked, NoMemory>
    requires caches { is_some (cache_action event.now) ≡ true }
    ensures same { SameRows host.old host.new }
    ensures fits { IfOk result (λ asked. FitsAsked asked host.new) }
    ensures agrees { IfOk result (λ asked. IfSome (cache_action event.now) (λ action.
        IsAsked
        (rules.with_key (state_of host.old) action.place (action.act (state_of host.old)))
        asked (state_of host.old))) }
{
    let step = prepare_on_caches(alloc, &mut host.caches, event)?;
    Ok(Asked {
        answer: step.answer,
        act: Act::Caches {
            act: step.act,
            changes: step.changes,
        },
        then: Then::Nothing,
    })
}

// The work of an action on caches.
#[tactic(auto, using(crate::proofs::OnCaches::steps))]
fn work_on_caches(host: &mut HostTables, alloc: Global, event: &Event) -> Result<Work, NoMemory>
    requires who { is_lane (who_of event.now) ≡ true }
    requires caches { is_some (cache_action event.now) ≡ true }
    ensures same { SameRows host.old host.new }
    ensures works { IfOk result (Works host.old host.new (step (state_of host.old) event.now)) }
{
    Ok(Work::Asked(on_caches(host, alloc, event)?))
}

// An addAll that was worked out up to its fetches, with the room for its promise.
fn begun(host: &mut HostTables, lane: u32, at: u32, step: AddAllStep) -> Result<Work, NoMemory>
    requires fits { FitsStart step.start host.old }
    requires maker { IfSome step.start (λ new. new.row.maker ≡ maker.Lane lane at) }
    ensures same { SameRows host.old host.new }
    ensures fits { IfOk result (λ work. FitsWork work host.new) }
    ensures means { IfOk result (λ work. (host : Hosted)
        → Means work host (adding.begun (maker.Lane lane at) step (state_of host))) }
{
    let AddAllStep {
        answer,
        start,
        awaited,
    } = step;
    let then = then_of(host, lane, at, Some(awaited))?;
    match start {
        Some(new) => Ok(Work::Start { answer, new, then }),
        None => Ok(Work::Asked(Asked {
            answer,
            act: Act::Page(PageAct::Nothing),
            then,
        })),
    }
}

// The work of an addAll.
fn work_of_add_all(
    host: &mut HostTables,
    alloc: Global,
    lane: u32,
    at: u32,
    place: &Place,
    add: &CacheAddAll,
) -> Result<Work, NoMemory>
    ensures same { SameRows host.old host.new }
    ensures fits { IfOk result (λ work. FitsWork work host.new) }
    ensures means { IfOk result (λ work. Means work host.old
        (rules.add_all_at (state_of host.old) (maker.Lane lane at) place.now add.now)) }
{
    let step = add_all_at(host, alloc, Who::Lane { lane, at }, place, add)?;
    begun(host, lane, at, step)
}

// A key is forgotten, unless it is busy.
fn forget(host: &HostTables, alloc: Global, place: &Place) -> Result<Asked, NoMemory>
    ensures fits { IfOk result (λ asked. FitsAsked asked host.now) }
    ensures agrees { IfOk result (λ asked.
        IsAsked
        (rules.with_key (state_of host.now) place.now (forgetting.forget (state_of host.now)))
        asked (state_of host.now)) }
{
    let key = match place_key(alloc, place)? {
        Ok(key) => key,
        Err(why) => return Ok(answered(Answer::Fault(why))),
    };
    if is_busy(host, &key) {
        return Ok(answered(Answer::Busy));
    }
    Ok(Asked {
        answer: Answer::Ok,
        act: Act::Forget(key),
        then: Then::Nothing,
    })
}

// The work of forgetting a key.
pub(crate) fn work_of_forget(
    host: &mut HostTables,
    alloc: Global,
    place: &Place,
) -> Result<Work, NoMemory>
    ensures same { SameRows host.old host.new }
    ensures fits { IfOk result (λ work. FitsWork work host.new) }
    ensures means { IfOk result (λ work. Means work host.old
        (rules.with_key (state_of host.old) place.now (forgetting.forget (state_of host.old)))) }
{
    Ok(Work::Asked(forget(host, alloc, place)?))
}

// What an action of a lane comes to.
#[tactic(auto, unfolding(sw_rules::specs::Step::step, sw_data::specs::Events::who_of))]
pub(crate) fn work_of_lane(
    host: &mut HostTables,
    alloc: Global,
    lane: u32,
    at: u32,
    event: &Event,
) -> Result<Work, NoMemory>
    requires coherent { Coherent (state_of host.old) }
    requires who { who_of event.now ≡ maker.Lane lane at }
    requires enabled { enabled (state_of host.old) event.now ≡ true }
    ensures same { SameRows host.old host.new }
    ensures works { IfOk result (Works host.old host.new (step (state_of host.old) event.now)) }
{
    if is_on_caches(event) {
        return work_on_caches(host, alloc, event);
    }
    match event {
        Event::AddAll { place, add, .. } => {
            work_of_add_all(host, alloc, lane, at, place, add.get())
        }
        Event::Forget { place, .. } => work_of_forget(host, alloc, place),
        _ => work_of_page(host, alloc, lane, at, event),
    }
}
