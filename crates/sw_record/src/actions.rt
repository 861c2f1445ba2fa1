//! The action of a lane line, and its lane.

ghost use Rattle.std.specs.Prelude.{◌≡◌, IfOk};
ghost use Rattle.serde_json.specs.View.{view};
ghost use Rattle.sw_record.specs.Lanes as lanes;

use crate::lanes::{
    add_all_line, await_line, batch_line, begin_line, client_line, delete_line, event_line,
    match_line, name_line, open_line, page_line, preload_line, put_line, query_line, register_line,
    scope_line, slot_line, url_line,
};
use serde_json::Value;
use std::alloc::Global;
use sw_data::Action;
use sw_forms::{Flaw, LANES_LIMIT, Limit, NO_FORM, Part, Word, both, word_member};

#[tactic(auto, unfolding(crate::specs::Lanes::action_of_word))]
fn open_action(alloc: Global, value: &Value) -> Part<Action>
    ensures { IfOk result (λ action. action
        ≡ lanes.action_of_word Word.Open (view value.now)) }
{
    Ok(open_line(alloc, value)?.map(|(client, (url, partition))| Action::Open {
        client,
        url,
        partition,
    }))
}

#[tactic(auto, unfolding(crate::specs::Lanes::action_of_word))]
fn close_action(value: &Value) -> Result<Action, Flaw>
    ensures { result ≡ lanes.action_of_word Word.Close (view value.now) }
{
    client_line(value).map(|client| Action::Close { client })
}

#[tactic(auto, unfolding(crate::specs::Lanes::action_of_word))]
fn register_action(alloc: Global, value: &Value) -> Part<Action>
    ensures { IfOk result (λ action. action
        ≡ lanes.action_of_word Word.Register (view value.now)) }
{
    Ok(register_line(alloc, value)?.map(|register| Action::Register(register)))
}

#[tactic(auto, unfolding(crate::specs::Lanes::action_of_word))]
fn update_action(alloc: Global, value: &Value) -> Part<Action>
    ensures { IfOk result (λ action. action
        ≡ lanes.action_of_word Word.Update (view value.now)) }
{
    Ok(scope_line(alloc, value)?.map(|of| Action::Update(of)))
}

#[tactic(auto, unfolding(crate::specs::Lanes::action_of_word))]
fn soft_update_action(alloc: Global, value: &Value) -> Part<Action>
    ensures { IfOk result (λ action. action
        ≡ lanes.action_of_word Word.SoftUpdate (view value.now)) }
{
    Ok(scope_line(alloc, value)?.map(|of| Action::SoftUpdate(of)))
}

#[tactic(auto, unfolding(crate::specs::Lanes::action_of_word))]
fn unregister_action(alloc: Global, value: &Value) -> Part<Action>
    ensures { IfOk result (λ action. action
        ≡ lanes.action_of_word Word.Unregister (view value.now)) }
{
    Ok(scope_line(alloc, value)?.map(|of| Action::Unregister(of)))
}

#[tactic(auto, unfolding(crate::specs::Lanes::action_of_word))]
fn await_action(value: &Value) -> Result<Action, Flaw>
    ensures { result ≡ lanes.action_of_word Word.Await (view value.now) }
{
    await_line(value).map(|of| Action::Await { of })
}

#[tactic(auto, unfolding(crate::specs::Lanes::action_of_word))]
fn ready_action(value: &Value) -> Result<Action, Flaw>
    ensures { result ≡ lanes.action_of_word Word.Ready (view value.now) }
{
    client_line(value).map(|client| Action::Ready { client })
}

#[tactic(auto, unfolding(crate::specs::Lanes::action_of_word))]
fn registration_action(alloc: Global, value: &Value) -> Part<Action>
    ensures { IfOk result (λ action. action
        ≡ lanes.action_of_word Word.Registration (view value.now)) }
{
    Ok(url_line(alloc, value)?.map(|(client, url)| Action::Registration { client, url }))
}

#[tactic(auto, unfolding(crate::specs::Lanes::action_of_word))]
fn registrations_action(value: &Value) -> Result<Action, Flaw>
    ensures { result ≡ lanes.action_of_word Word.Registrations (view value.now) }
{
    client_line(value).map(|client| Action::Registrations { client })
}

#[tactic(auto, unfolding(crate::specs::Lanes::action_of_word))]
fn skip_waiting_action(alloc: Global, value: &Value) -> Part<Action>
    ensures { IfOk result (λ action. action
        ≡ lanes.action_of_word Word.SkipWaiting (view value.now)) }
{
    Ok(slot_line(alloc, value)?.map(|(of, slot)| Action::SkipWaiting { of, slot }))
}

#[tactic(auto, unfolding(crate::specs::Lanes::action_of_word))]
fn claim_action(alloc: Global, value: &Value) -> Part<Action>
    ensures { IfOk result (λ action. action
        ≡ lanes.action_of_word Word.Claim (view value.now)) }
{
    Ok(slot_line(alloc, value)?.map(|(of, slot)| Action::Claim { of, slot }))
}

#[tactic(auto, unfolding(crate::specs::Lanes::action_of_word))]
fn begin_action(value: &Value) -> Result<Action, Flaw>
    ensures { result ≡ lanes.action_of_word Word.Begin (view value.now) }
{
    begin_line(value).map(|(client, event)| Action::Begin { client, event })
}

#[tactic(auto, unfolding(crate::specs::Lanes::action_of_word))]
fn end_action(value: &Value) -> Result<Action, Flaw>
    ensures { result ≡ lanes.action_of_word Word.End (view value.now) }
{
    event_line(value).map(|event| Action::End { event })
}

#[tactic(auto, unfolding(crate::specs::Lanes::action_of_word))]
fn cache_open_action(alloc: Global, value: &Value) -> Part<Action>
    ensures { IfOk result (λ action. action
        ≡ lanes.action_of_word Word.CacheOpen (view value.now)) }
{
    Ok(name_line(alloc, value)?.map(|(place, name)| Action::CacheOpen { place, name }))
}

#[tactic(auto, unfolding(crate::specs::Lanes::action_of_word))]
fn cache_has_action(alloc: Global, value: &Value) -> Part<Action>
    ensures { IfOk result (λ action. action
        ≡ lanes.action_of_word Word.CacheHas (view value.now)) }
{
    Ok(name_line(alloc, value)?.map(|(place, name)| Action::CacheHas { place, name }))
}

#[tactic(auto, unfolding(crate::specs::Lanes::action_of_word))]
fn cache_delete_action(alloc: Global, value: &Value) -> Part<Action>
    ensures { IfOk result (λ action. action
        ≡ lanes.action_of_word Word.CacheDelete (view value.now)) }
{
    Ok(name_line(alloc, value)?.map(|(place, name)| Action::CacheDelete { place, name }))
}

#[tactic(auto, unfolding(crate::specs::Lanes::action_of_word))]
fn cache_keys_action(alloc: Global, value: &Value) -> Part<Action>
    ensures { IfOk result (λ action. action
        ≡ lanes.action_of_word Word.CacheKeys (view value.now)) }
{
    Ok(page_line(alloc, value)?.map(|place| Action::CacheKeys { place }))
}

#[tactic(auto, unfolding(crate::specs::Lanes::action_of_word))]
fn forget_action(alloc: Global, value: &Value) -> Part<Action>
    ensures { IfOk result (λ action. action
        ≡ lanes.action_of_word Word.Forget (view value.now)) }
{
    Ok(page_line(alloc, value)?.map(|place| Action::Forget { place }))
}

#[tactic(auto, unfolding(crate::specs::Lanes::action_of_word))]
fn match_action(alloc: Global, value: &Value) -> Part<Action>
    ensures { IfOk result (λ action. action
        ≡ lanes.action_of_word Word.Match (view value.now)) }
{
    Ok(match_line(alloc, value)?.map(|(place, find)| Action::Match { place, find }))
}

#[tactic(auto, unfolding(crate::specs::Lanes::action_of_word))]
fn match_all_action(alloc: Global, value: &Value) -> Part<Action>
    ensures { IfOk result (λ action. action
        ≡ lanes.action_of_word Word.MatchAll (view value.now)) }
{
    Ok(query_line(alloc, value)?.map(|(place, query)| Action::MatchAll { place, query }))
}

#[tactic(auto, unfolding(crate::specs::Lanes::action_of_word))]
fn keys_action(alloc: Global, value: &Value) -> Part<Action>
    ensures { IfOk result (λ action. action
        ≡ lanes.action_of_word Word.Keys (view value.now)) }
{
    Ok(query_line(alloc, value)?.map(|(place, query)| Action::Keys { place, query }))
}

#[tactic(auto, unfolding(crate::specs::Lanes::action_of_word))]
fn put_action(alloc: Global, value: &Value) -> Part<Action>
    ensures { IfOk result (λ action. action
        ≡ lanes.action_of_word Word.Put (view value.now)) }
{
    Ok(put_line(alloc, value)?.map(|(place, put)| Action::Put { place, put }))
}

#[tactic(auto, unfolding(crate::specs::Lanes::action_of_word))]
fn delete_action(alloc: Global, value: &Value) -> Part<Action>
    ensures { IfOk result (λ action. action
        ≡ lanes.action_of_word Word.Delete (view value.now)) }
{
    Ok(delete_line(alloc, value)?.map(|(place, delete)| Action::Delete { place, delete }))
}

#[tactic(auto, unfolding(crate::specs::Lanes::action_of_word))]
fn batch_action(alloc: Global, value: &Value) -> Part<Action>
    ensures { IfOk result (λ action. action
        ≡ lanes.action_of_word Word.Batch (view value.now)) }
{
    Ok(batch_line(alloc, value)?.map(|(place, batch)| Action::Batch { place, batch }))
}

#[tactic(auto, unfolding(crate::specs::Lanes::action_of_word))]
fn add_all_action(alloc: Global, value: &Value) -> Part<Action>
    ensures { IfOk result (λ action. action
        ≡ lanes.action_of_word Word.AddAll (view value.now)) }
{
    Ok(add_all_line(alloc, value)?.map(|(place, add)| Action::AddAll { place, add }))
}

#[tactic(auto, unfolding(crate::specs::Lanes::action_of_word))]
fn preload_enable_action(alloc: Global, value: &Value) -> Part<Action>
    ensures { IfOk result (λ action. action
        ≡ lanes.action_of_word Word.PreloadEnable (view value.now)) }
{
    Ok(scope_line(alloc, value)?.map(|of| Action::PreloadEnable(of)))
}

#[tactic(auto, unfolding(crate::specs::Lanes::action_of_word))]
fn preload_disable_action(alloc: Global, value: &Value) -> Part<Action>
    ensures { IfOk result (λ action. action
        ≡ lanes.action_of_word Word.PreloadDisable (view value.now)) }
{
    Ok(scope_line(alloc, value)?.map(|of| Action::PreloadDisable(of)))
}

#[tactic(auto, unfolding(crate::specs::Lanes::action_of_word))]
fn preload_value_action(alloc: Global, value: &Value) -> Part<Action>
    ensures { IfOk result (λ action. action
        ≡ lanes.action_of_word Word.PreloadValue (view value.now)) }
{
    Ok(preload_line(alloc, value)?.map(|(of, value)| Action::PreloadValue { of, value }))
}

#[tactic(auto, unfolding(crate::specs::Lanes::action_of_word))]
fn preload_state_action(alloc: Global, value: &Value) -> Part<Action>
    ensures { IfOk result (λ action. action
        ≡ lanes.action_of_word Word.PreloadState (view value.now)) }
{
    Ok(scope_line(alloc, value)?.map(|of| Action::PreloadState(of)))
}

// The action that a word names.
fn action_of_word(alloc: Global, word: Word, value: &Value) -> Part<Action>
    ensures { IfOk result (λ action. action ≡ lanes.action_of_word word (view value.now)) }
{
    match word {
        Word::Open => open_action(alloc, value),
        Word::Close => Ok(close_action(value)),
        Word::Register => register_action(alloc, value),
        Word::Update => update_action(alloc, value),
        Word::SoftUpdate => soft_update_action(alloc, value),
        Word::Unregister => unregister_action(alloc, value),
        Word::Await => Ok(await_action(value)),
        Word::Ready => Ok(ready_action(value)),
        Word::Registration => registration_action(alloc, value),
        Word::Registrations => Ok(registrations_action(value)),
        Word::SkipWaiting => skip_waiting_action(alloc, value),
        Word::Claim => claim_action(alloc, value),
        Word::Begin => Ok(begin_action(value)),
        Word::End => Ok(end_action(value)),
        Word::CacheOpen => cache_open_action(alloc, value),
        Word::CacheHas => cache_has_action(alloc, value),
        Word::CacheDelete => cache_delete_action(alloc, value),
        Word::CacheKeys => cache_keys_action(alloc, value),
        Word::Forget => forget_action(alloc, value),
        Word::Match => match_action(alloc, value),
        Word::MatchAll => match_all_action(alloc, value),
        Word::Keys => keys_action(alloc, value),
        Word::Put => put_action(alloc, value),
        Word::Delete => delete_action(alloc, value),
        Word::Batch => batch_action(alloc, value),
        Word::AddAll => add_all_action(alloc, value),
        Word::PreloadEnable => preload_enable_action(alloc, value),
        Word::PreloadDisable => preload_disable_action(alloc, value),
        Word::PreloadValue => preload_value_action(alloc, value),
        Word::PreloadState => preload_state_action(alloc, value),
    }
}

/// The action of a lane line.
#[tactic(auto, unfolding(crate::specs::Lanes::action_member))]
pub fn action_member(alloc: Global, value: &Value) -> Part<Action>
    ensures { IfOk result (λ action. action ≡ lanes.action_member (view value.now)) }
{
    match word_member(value) {
        Some(word) => action_of_word(alloc, word, value),
        None => Ok(Err(NO_FORM)),
    }
}

/// The lane of a lane line.
#[tactic(auto, unfolding(crate::specs::Lanes::lane_member))]
pub fn lane_member(value: &Value) -> Result<usize, Flaw>
    ensures { result ≡ lanes.lane_member (view value.now) }
{
    match value.get("lane").and_then(Value::as_u64) {
        Some(lane) if lane < LANES_LIMIT => Ok(lane as usize),
        Some(_) => Err(Flaw::Limit(Limit::Lanes)),
        None => Err(NO_FORM),
    }
}

/// The lane of a line and its action.
#[tactic(auto, unfolding(crate::specs::Lanes::lane_line))]
pub fn lane_line(alloc: Global, value: &Value) -> Part<(usize, Action)>
    ensures { IfOk result (λ line. line ≡ lanes.lane_line (view value.now)) }
{
    let action = action_member(alloc, value)?;
    Ok(both(lane_member(value), action))
}
