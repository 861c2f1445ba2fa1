//! The words of lane lines and calls.

ghost use Rattle.std.specs.Prelude.{◌≡◌};
ghost use Rattle.serde_json.specs.View.{view};
ghost use Rattle.sw_forms.specs.Words as words;

use serde_json::Value;

/// What a line or a call does.
#[derive(Debug, Clone, Copy, PartialEq, Eq)]
pub enum Word {
    Open,
    Close,
    Register,
    Update,
    SoftUpdate,
    Unregister,
    Await,
    Ready,
    Registration,
    Registrations,
    SkipWaiting,
    Claim,
    Begin,
    End,
    CacheOpen,
    CacheHas,
    CacheDelete,
    CacheKeys,
    Forget,
    Match,
    MatchAll,
    Keys,
    Put,
    Delete,
    Batch,
    AddAll,
    PreloadEnable,
    PreloadDisable,
    PreloadValue,
    PreloadState,
}

// The word that a text is.
#[tactic(auto, unfolding(crate::specs::Words::word_of))]
fn word_of(text: &str) -> Option<Word>
    ensures { result ≡ words.word_of text.now }
{
    match text {
        "open" => Some(Word::Open),
        "close" => Some(Word::Close),
        "register" => Some(Word::Register),
        "update" => Some(Word::Update),
        "softUpdate" => Some(Word::SoftUpdate),
        "unregister" => Some(Word::Unregister),
        "await" => Some(Word::Await),
        "ready" => Some(Word::Ready),
        "registration" => Some(Word::Registration),
        "registrations" => Some(Word::Registrations),
        "skipWaiting" => Some(Word::SkipWaiting),
        "claim" => Some(Word::Claim),
        "begin" => Some(Word::Begin),
        "end" => Some(Word::End),
        "cacheOpen" => Some(Word::CacheOpen),
        "cacheHas" => Some(Word::CacheHas),
        "cacheDelete" => Some(Word::CacheDelete),
        "cacheKeys" => Some(Word::CacheKeys),
        "forget" => Some(Word::Forget),
        "match" => Some(Word::Match),
        "matchAll" => Some(Word::MatchAll),
        "keys" => Some(Word::Keys),
        "put" => Some(Word::Put),
        "delete" => Some(Word::Delete),
        "batch" => Some(Word::Batch),
        "addAll" => Some(Word::AddAll),
        "preloadEnable" => Some(Word::PreloadEnable),
        "preloadDisable" => Some(Word::PreloadDisable),
        "preloadValue" => Some(Word::PreloadValue),
        "preloadState" => Some(Word::PreloadState),
        _ => None,
    }
}

/// What a line or a call does.
#[tactic(auto, unfolding(crate::specs::Words::word_member))]
pub fn word_member(value: &Value) -> Option<Word>
    ensures { result ≡ words.word_member (view value.now) }
{
    match value.get("do").and_then(Value::as_str) {
        Some(text) => word_of(text),
        None => None,
    }
}
