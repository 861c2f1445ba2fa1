//! The texts of makers and of events.

ghost use Rattle.std.specs.Prelude.{◌≡◌, ◌==◌, IfOk, string_bytes};
ghost use Rattle.std.specs.List.{before_last};
ghost use Rattle.sw_print.specs.Transcript.{phase_word, who_text, call_word, root_key, forget_text, event_text, mark};

use crate::lists::quoted;
use std::alloc::{AllocError, Global};
use sw_data::{Call, Event, Phase, Place, Text, Who};

// The word for a worker's handler.
fn phase_word(phase: Phase) -> &'static str
    ensures { result.now ≡ phase_word phase }
{
    match phase {
        Phase::Install => "install",
        Phase::Activate => "activate",
    }
}

// A handler's call as the maker of an event.
fn handler_text(alloc: Global, worker: u32, phase: Phase, call: u32) -> Result<String, AllocError>
    ensures { IfOk result (λ text. string_bytes text ≡ who_text (Who.Handler worker phase call)) }
{
    let word = phase_word(phase);
    format!(in alloc; "w{worker}.{word}.{call}")
}

// The maker of an event.
fn who_text(alloc: Global, who: Who) -> Result<String, AllocError>
    ensures { IfOk result (λ text. string_bytes text ≡ who_text who) }
{
    match who {
        Who::Host => String::from_str(alloc, "-"),
        Who::Lane { lane, at } => format!(in alloc; "L{lane}.{at}"),
        Who::Handler {
            worker,
            phase,
            call,
        } => handler_text(alloc, worker, phase, call),
    }
}

// The word for a handler's call.
fn call_word(call: &Call) -> &'static str
    ensures { result.now ≡ call_word call.now }
{
    match call {
        Call::SkipWaiting => "skipWaiting",
        Call::Claim => "claim",
        Call::Update => "update",
        Call::CacheOpen { .. } => "cacheOpen",
        Call::CacheDelete { .. } => "cacheDelete",
        Call::Put(_) => "put",
        Call::Delete(_) => "delete",
        Call::Batch(_) => "batch",
        Call::AddAll(_) => "addAll",
    }
}

// What stands before the last slash of a text.
fn before_slash(text: &str) -> &str
    ensures { result.now ≡ before_last (λ b. b == 47) text.now }
{
    match text.rsplit_once('/') {
        Some((front, _)) => front,
        None => "",
    }
}

// The key of a place at the root of an origin.
fn root_key(alloc: Global, place: &Place) -> Result<String, AllocError>
    ensures { IfOk result (λ key. string_bytes key ≡ root_key place.now) }
{
    let origin = before_slash(place.at.as_str());
    match &place.partition {
        None => String::from_str(alloc, origin),
        Some(partition) => {
            let partition = partition.get().as_str();
            format!(in alloc; "{origin}^{partition}")
        }
    }
}

// The name of a forget, and the key of the host's.
fn forget_text(alloc: Global, who: Who, place: &Place) -> Result<String, AllocError>
    ensures { IfOk result (λ text. string_bytes text ≡ forget_text who place.now) }
{
    match who {
        Who::Host => {
            let key = Text::from_string(root_key(alloc, place)?);
            let key = quoted(alloc, &key)?;
            format!(in alloc; "forget {key}")
        }
        Who::Lane { .. } | Who::Handler { .. } => String::from_str(alloc, "forget"),
    }
}

// The name of an event, and what a host's event is about.
fn event_text(alloc: Global, event: &Event) -> Result<String, AllocError>
    ensures { IfOk result (λ text. string_bytes text ≡ event_text event.now) }
{
    match event {
        Event::Open { .. } => String::from_str(alloc, "open"),
        Event::Close { .. } => String::from_str(alloc, "close"),
        Event::Register { .. } => String::from_str(alloc, "register"),
        Event::Update { .. } => String::from_str(alloc, "update"),
        Event::SoftUpdate { .. } => String::from_str(alloc, "softUpdate"),
        Event::Unregister { .. } => String::from_str(alloc, "unregister"),
        Event::Await { .. } => String::from_str(alloc, "await"),
        Event::Ready { .. } => String::from_str(alloc, "ready"),
        Event::Registration { .. } => String::from_str(alloc, "registration"),
        Event::Registrations { .. } => String::from_str(alloc, "registrations"),
        Event::SkipWaiting { .. } => String::from_str(alloc, "skipWaiting"),
        Event::Claim { .. } => String::from_str(alloc, "claim"),
        Event::Begin { .. } => String::from_str(alloc, "begin"),
        Event::End { .. } => String::from_str(alloc, "end"),
        Event::CacheOpen { .. } => String::from_str(alloc, "cacheOpen"),
        Event::CacheHas { .. } => String::from_str(alloc, "cacheHas"),
        Event::CacheDelete { .. } => String::from_str(alloc, "cacheDelete"),
        Event::CacheKeys { .. } => String::from_str(alloc, "cacheKeys"),
        Event::Forget { who, place } => forget_text(alloc, *who, place),
        Event::Match { .. } => String::from_str(alloc, "match"),
        Event::MatchAll { .. } => String::from_str(alloc, "matchAll"),
        Event::Keys { .. } => String::from_str(alloc, "keys"),
        Event::Put { .. } => String::from_str(alloc, "put"),
        Event::Delete { .. } => String::from_str(alloc, "delete"),
        Event::Batch { .. } => String::from_str(alloc, "batch"),
        Event::AddAll { .. } => String::from_str(alloc, "addAll"),
        Event::PreloadEnable { .. } => String::from_str(alloc, "preloadEnable"),
        Event::PreloadDisable { .. } => String::from_str(alloc, "preloadDisable"),
        Event::PreloadValue { .. } => String::from_str(alloc, "preloadValue"),
        Event::PreloadState { .. } => String::from_str(alloc, "preloadState"),
        Event::Call { call, .. } => String::from_str(alloc, call_word(call)),
        Event::Run { job, .. } => format!(in alloc; "run j{job}"),
        Event::Fetched { job, .. } => format!(in alloc; "fetched j{job}"),
        Event::Evaluated { job, .. } => format!(in alloc; "evaluated j{job}"),
        Event::Installed { job, .. } => format!(in alloc; "installed j{job}"),
        Event::TryActivate { registration, .. } => {
            format!(in alloc; "tryactivate r{registration}")
        }
        Event::Activated { worker, .. } => format!(in alloc; "activated w{worker}"),
        Event::Added { task, .. } => format!(in alloc; "added a{task}"),
        Event::Restarted { .. } => String::from_str(alloc, "restarted"),
    }
}

/// The mark of an event: its maker and its name.
pub fn mark(alloc: Global, event: &Event) -> Result<String, AllocError>
    ensures { IfOk result (λ text. string_bytes text ≡ mark event.now) }
{
    let who = who_text(alloc, event.who())?;
    let name = event_text(alloc, event)?;
    format!(in alloc; "{who} {name}")
}
