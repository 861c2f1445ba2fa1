//! The event of a recorded action, and the action that an event is.

ghost use Rattle.std.specs.Prelude.{◌≡◌};
ghost use Rattle.sw_data.specs.Events.{action_of_event, event_of_action};

use crate::{Action, Event, Who};

/// The event that an action is, with its maker. It takes no memory.
#[tactic(auto, unfolding(crate::specs::Events::event_of_action))]
pub fn event_of_action(who: Who, action: Action) -> Event
    ensures { result ≡ event_of_action who action }
{
    match action {
        Action::Open {
            client,
            url,
            partition,
        } => Event::Open {
            who,
            client,
            url,
            partition,
        },
        Action::Close { client } => Event::Close { who, client },
        Action::Register(register) => Event::Register { who, register },
        Action::Update(of) => Event::Update { who, of },
        Action::SoftUpdate(of) => Event::SoftUpdate { who, of },
        Action::Unregister(of) => Event::Unregister { who, of },
        Action::Await { of } => Event::Await { who, of },
        Action::Ready { client } => Event::Ready { who, client },
        Action::Registration { client, url } => Event::Registration { who, client, url },
        Action::Registrations { client } => Event::Registrations { who, client },
        Action::SkipWaiting { of, slot } => Event::SkipWaiting { who, of, slot },
        Action::Claim { of, slot } => Event::Claim { who, of, slot },
        Action::Begin { client, event } => Event::Begin { who, client, event },
        Action::End { event } => Event::End { who, event },
        Action::CacheOpen { place, name } => Event::CacheOpen { who, place, name },
        Action::CacheHas { place, name } => Event::CacheHas { who, place, name },
        Action::CacheDelete { place, name } => Event::CacheDelete { who, place, name },
        Action::CacheKeys { place } => Event::CacheKeys { who, place },
        Action::Forget { place } => Event::Forget { who, place },
        Action::Match { place, find } => Event::Match { who, place, find },
        Action::MatchAll { place, query } => Event::MatchAll { who, place, query },
        Action::Keys { place, query } => Event::Keys { who, place, query },
        Action::Put { place, put } => Event::Put { who, place, put },
        Action::Delete { place, delete } => Event::Delete { who, place, delete },
        Action::Batch { place, batch } => Event::Batch { who, place, batch },
        Action::AddAll { place, add } => Event::AddAll { who, place, add },
        Action::PreloadEnable(of) => Event::PreloadEnable { who, of },
        Action::PreloadDisable(of) => Event::PreloadDisable { who, of },
        Action::PreloadValue { of, value } => Event::PreloadValue { who, of, value },
        Action::PreloadState(of) => Event::PreloadState { who, of },
    }
}

/// The action that an event is; none where it is that of no action, and is let go. It takes no memory.
#[tactic(auto, unfolding(crate::specs::Events::action_of_event))]
pub fn action_of_event(event: Event) -> Option<Action>
    ensures { result ≡ action_of_event event }
{
    match event {
        Event::Open {
            who: _,
            client,
            url,
            partition,
        } => Some(Action::Open {
            client,
            url,
            partition,
        }),
        Event::Close { who: _, client } => Some(Action::Close { client }),
        Event::Register { who: _, register } => Some(Action::Register(register)),
        Event::Update { who: _, of } => Some(Action::Update(of)),
        Event::SoftUpdate { who: _, of } => Some(Action::SoftUpdate(of)),
        Event::Unregister { who: _, of } => Some(Action::Unregister(of)),
        Event::Await { who: _, of } => Some(Action::Await { of }),
        Event::Ready { who: _, client } => Some(Action::Ready { client }),
        Event::Registration {
            who: _,
            client,
            url,
        } => Some(Action::Registration { client, url }),
        Event::Registrations { who: _, client } => Some(Action::Registrations { client }),
        Event::SkipWaiting { who: _, of, slot } => Some(Action::SkipWaiting { of, slot }),
        Event::Claim { who: _, of, slot } => Some(Action::Claim { of, slot }),
        Event::Begin {
            who: _,
            client,
            event,
        } => Some(Action::Begin { client, event }),
        Event::End { who: _, event } => Some(Action::End { event }),
        Event::CacheOpen {
            who: _,
            place,
            name,
        } => Some(Action::CacheOpen { place, name }),
        Event::CacheHas {
            who: _,
            place,
            name,
        } => Some(Action::CacheHas { place, name }),
        Event::CacheDelete {
            who: _,
            place,
            name,
        } => Some(Action::CacheDelete { place, name }),
        Event::CacheKeys { who: _, place } => Some(Action::CacheKeys { place }),
        Event::Forget { who: _, place } => Some(Action::Forget { place }),
        Event::Match {
            who: _,
            place,
            find,
        } => Some(Action::Match { place, find }),
        Event::MatchAll {
            who: _,
            place,
            query,
        } => Some(Action::MatchAll { place, query }),
        Event::Keys {
            who: _,
            place,
            query,
        } => Some(Action::Keys { place, query }),
        Event::Put { who: _, place, put } => Some(Action::Put { place, put }),
        Event::Delete {
            who: _,
            place,
            delete,
        } => Some(Action::Delete { place, delete }),
        Event::Batch {
            who: _,
            place,
            batch,
        } => Some(Action::Batch { place, batch }),
        Event::AddAll { who: _, place, add } => Some(Action::AddAll { place, add }),
        Event::PreloadEnable { who: _, of } => Some(Action::PreloadEnable(of)),
        Event::PreloadDisable { who: _, of } => Some(Action::PreloadDisable(of)),
        Event::PreloadValue { who: _, of, value } => Some(Action::PreloadValue { of, value }),
        Event::PreloadState { who: _, of } => Some(Action::PreloadState(of)),
        Event::Call { .. }
        | Event::Run { .. }
        | Event::Fetched { .. }
        | Event::Evaluated { .. }
        | Event::Installed { .. }
        | Event::TryActivate { .. }
        | Event::Activated { .. }
        | Event::Added { .. }
        | Event::Restarted { .. } => None,
    }
}
