//! The members of a JSON object, and values of one kind.

ghost use Rattle.std.specs.Prelude.{◌≡◌, Result, map, option_map, bytes_eq, string_bytes, IfOk};
ghost use Rattle.std.specs.List.{list_all, list_any};
ghost use Rattle.std.specs.Map.{keys_of};
ghost use Rattle.serde_json.specs.Find.{as_str};
ghost use Rattle.serde_json.specs.View.{view};
ghost use Rattle.sw_forms.specs.declared.flaw.Flaw.{Flaw};
ghost use Rattle.sw_forms.specs.Members as members;

use crate::error::Limit;
use crate::flaw::{Flaw, NO_FORM, Part, needs};
use crate::limits::TEXT_LIMIT;
use serde_json::{Map, Value};
use std::alloc::Global;
use sw_data::Text;

// Whether a name is one of these.
fn is_one_of(name: &str, names: &[&str]) -> bool
    ensures { result ≡ list_any (λ other. bytes_eq name.now other.now) names.now }
{
    names.iter().any(|other| name == *other)
}

// Whether each key of an object is one of these.
fn has_only_keys(members: &Map<String, Value>, names: &[&str]) -> bool
    ensures { result ≡ list_all
        (λ key. list_any (λ other. bytes_eq (string_bytes key) other.now) names.now)
        (keys_of members.now.entries) }
{
    members.keys().all(|key| is_one_of(key.as_str(), names))
}

/// Whether a value is an object, and each of its members has one of the names.
pub fn has_only(names: &[&str], value: &Value) -> bool
    ensures { result ≡ members.has_only (map (λ name. name.now) names.now) (view value.now) }
{
    match value.as_object() {
        Some(members) => has_only_keys(members, names),
        None => false,
    }
}

/// The values of an array.
#[tactic(auto, using(crate::proofs::PartLemmas::values_of_view))]
pub fn as_list(value: &Value) -> Option<&[Value]>
    ensures { option_map (λ values. map view values.now) result ≡ members.as_list (view value.now) }
{
    match value.as_array() {
        Some(values) => Some(values.as_slice()),
        None => None,
    }
}

/// A text of at most 4,096 bytes.
pub fn short(alloc: Global, text: &str) -> Part<Text>
    ensures { IfOk result (λ text_read. text_read ≡ members.short text.now) }
{
    let copy = Text::of(alloc, text)?;
    Ok(needs(text.len() <= TEXT_LIMIT, Flaw::Limit(Limit::Text), Ok(copy)))
}

/// A value that is a text of at most 4,096 bytes.
pub fn short_text_of(alloc: Global, value: &Value) -> Part<Text>
    ensures { IfOk result (λ text. text ≡ members.short_text_of (view value.now)) }
{
    match value.as_str() {
        Some(text) => short(alloc, text),
        None => Ok(Err(NO_FORM)),
    }
}

/// A text of at most 4,096 bytes that must be there.
pub fn short_text_member(alloc: Global, value: Option<&Value>) -> Part<Text>
    ensures { IfOk result (λ text. text
        ≡ members.required members.short_text_of (option_map (λ v. view v.now) value.entry)) }
{
    match value {
        Some(value) => short_text_of(alloc, value),
        None => Ok(Err(NO_FORM)),
    }
}

/// A text of at most 4,096 bytes that may be absent.
pub fn short_text_option(alloc: Global, value: Option<&Value>) -> Part<Option<Text>>
    ensures { IfOk result (λ text. text
        ≡ members.optional members.short_text_of (option_map (λ v. view v.now) value.entry)) }
{
    match value {
        Some(value) => match short_text_of(alloc, value)? {
            Ok(text) => Ok(Ok(Some(text))),
            Err(why) => Ok(Err(why)),
        },
        None => Ok(Ok(None)),
    }
}

/// A number of 32 bits.
pub fn number_of(value: &Value) -> Result<u32, Flaw>
    ensures { result ≡ members.number_of (view value.now) }
{
    match value.as_u64() {
        Some(number) => u32::try_from(number).map_err(|_| NO_FORM),
        None => Err(NO_FORM),
    }
}

/// A number of 32 bits that must be there.
pub fn number_member(value: Option<&Value>) -> Result<u32, Flaw>
    ensures { result ≡ members.required members.number_of
        (option_map (λ v. view v.now) value.entry) }
{
    match value {
        Some(value) => number_of(value),
        None => Err(NO_FORM),
    }
}

/// A truth value.
pub fn truth_of(value: &Value) -> Result<bool, Flaw>
    ensures { result ≡ members.truth_of (view value.now) }
{
    value.as_bool().ok_or(NO_FORM)
}
