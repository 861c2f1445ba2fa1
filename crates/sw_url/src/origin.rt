//! Storage keys and the bound of a scope.

ghost use Rattle.std.specs.Prelude.{◌≡◌, ◌++◌, codes, string_bytes, IfOk, option_and_then, option_copied, option_map};
ghost use Rattle.sw_data.specs.Addresses.{address_of, allowed_bound, joined, parsed_against, parsed_origin, equal_origins, is_within_bound, path_of, path_of_same_origin, origin_of, same_origin, scope_bound};
ghost use Rattle.sw_data.specs.Keys.{key_of, key_origin, partitioned};

use crate::fault::UrlFault;
use crate::parsing::{is_http, joined, parsed, parsed_against};
use std::alloc::{AllocError, Global};
use sw_data::{NoMemory, Text};
use url::Url;

/// The storage key of an http or https address and a partition: the serialized origin, followed
/// by `^` and the partition where there is one (Storage, "obtain a storage key"; partitions are
/// our own).
///
/// None where the text doesn't parse or its scheme is neither http nor https.
#[tactic(auto, unfolding(sw_data::specs::Keys::key_of, sw_data::specs::Addresses::origin_of))]
pub fn key_of(
    alloc: Global,
    address: &Text,
    partition: Option<&Text>,
) -> Result<Option<Text>, NoMemory>
    ensures key { IfOk result (λ key. key ≡ key_of address.now (option_copied partition.entry)) }

    // A key's origin, which is what stands before its first `^`, is its address's origin.
    ensures origin { IfOk result (λ key. option_map key_origin key ≡ origin_of address.now) }
{
    match parsed(alloc, address.as_str()) {
        Ok(url) => match origin(alloc, &url)? {
            Some(origin) => Ok(Some(partitioned(alloc, origin, partition)?)),
            None => Ok(None),
        },
        Err(UrlFault::NoMemory) => Err(NoMemory),
        Err(_) => Ok(None),
    }
}

/// Two texts are addresses of one origin (HTML, 7.1.1, "same origin"). A text that doesn't parse,
/// or whose scheme is neither http nor https, has the origin of no other.
#[tactic(auto, unfolding(sw_data::specs::Keys::key_of))]
pub fn same_origin(alloc: Global, left: &Text, right: &Text) -> Result<bool, NoMemory>
    ensures { IfOk result (λ same. same ≡ same_origin left.now right.now) }
{
    // A key without a partition is an origin.
    let left = key_of(alloc, left, None)?;
    let right = key_of(alloc, right, None)?;
    Ok(equal_origins(&left, &right))
}

/// The bound of the scopes that a script may have: the path of `./` against the script, or the
/// path of a `Service-Worker-Allowed` value against it (Service Workers, "Update").
///
/// None where the script doesn't parse, where the value doesn't parse, and where the value has
/// another origin than the script.
#[tactic(auto, unfolding(sw_data::specs::Addresses::scope_bound))]
pub fn max_scope(
    alloc: Global,
    script: &Text,
    allowed: Option<&Text>,
) -> Result<Option<Text>, NoMemory>
    ensures { IfOk result (λ bound. bound ≡ scope_bound script.now (option_copied allowed.entry)) }
{
    match allowed {
        Some(value) => allowed_bound(alloc, value.as_str(), script.as_str()),
        None => default_bound(alloc, script.as_str()),
    }
}

/// The path of the scope starts with the bound, byte for byte (Service Workers, "Update"). A scope
/// that doesn't parse isn't within.
#[tactic(auto, unfolding(sw_data::specs::Addresses::is_within_bound))]
pub fn is_within_bound(alloc: Global, scope: &Text, bound: &Text) -> Result<bool, NoMemory>
    ensures { IfOk result (λ within. within ≡ is_within_bound scope.now bound.now) }
{
    match parsed(alloc, scope.as_str()) {
        Ok(url) => Ok(url.path().as_bytes().starts_with(bound.as_bytes())),
        Err(UrlFault::NoMemory) => Err(NoMemory),
        Err(_) => Ok(false),
    }
}

// The serialized origin of an http or https address.
pub(crate) fn origin(alloc: Global, url: &Url) -> Result<Option<Text>, NoMemory>
    ensures { IfOk result (λ origin. origin ≡ parsed_origin url.now) }
{
    if !is_http(url) {
        return Ok(None);
    }
    match url.origin() {
        Ok(origin) => Ok(Some(Text::from_string(origin.ascii_serialization(alloc)?))),
        Err(_) => Err(NoMemory),
    }
}

// The origin, followed by `^` and the partition where there is one.
pub(crate) fn partitioned(
    alloc: Global,
    origin: Text,
    partition: Option<&Text>,
) -> Result<Text, NoMemory>
    ensures { IfOk result (λ key. key ≡ partitioned (option_copied partition.entry) origin) }
{
    match partition {
        Some(partition) => Ok(Text::from_string(marked(
            alloc,
            origin.as_str(),
            partition.as_str(),
        )?)),
        None => Ok(origin),
    }
}

fn marked(alloc: Global, origin: &str, partition: &str) -> Result<String, AllocError>
    ensures { IfOk result (λ key. string_bytes key ≡ origin.now ++ codes "^" ++ partition.now) }
{
    format!(in alloc; "{origin}^{partition}")
}

// The path of `./` against the script.
fn default_bound(alloc: Global, script: &str) -> Result<Option<Text>, NoMemory>
    ensures { IfOk result (λ bound. bound
        ≡ option_map path_of (parsed_against (codes "./") script.now)) }
{
    match parsed_against(alloc, "./", script) {
        Ok(url) => Ok(Some(Text::of(alloc, url.path())?)),
        Err(UrlFault::NoMemory) => Err(NoMemory),
        Err(_) => Ok(None),
    }
}

// The path of the allowed value against the script.
fn allowed_bound(alloc: Global, value: &str, script: &str) -> Result<Option<Text>, NoMemory>
    ensures { IfOk result (λ bound. bound
        ≡ option_and_then (allowed_bound value.now) (address_of script.now)) }
{
    match parsed(alloc, script) {
        Ok(script) => bound_of(alloc, value, &script),
        Err(UrlFault::NoMemory) => Err(NoMemory),
        Err(_) => Ok(None),
    }
}

fn bound_of(alloc: Global, value: &str, script: &Url) -> Result<Option<Text>, NoMemory>
    ensures { IfOk result (λ bound. bound ≡ allowed_bound value.now script.now) }
{
    match joined(value, script) {
        Ok(url) => path_of_same_origin(alloc, script, &url),
        Err(UrlFault::NoMemory) => Err(NoMemory),
        Err(_) => Ok(None),
    }
}

// The path of an address that has the script's origin.
fn path_of_same_origin(alloc: Global, script: &Url, url: &Url) -> Result<Option<Text>, NoMemory>
    ensures { IfOk result (λ bound. bound ≡ path_of_same_origin script.now url.now) }
{
    let left = origin(alloc, script)?;
    let right = origin(alloc, url)?;
    if !equal_origins(&left, &right) {
        return Ok(None);
    }
    Ok(Some(Text::of(alloc, url.path())?))
}

fn equal_origins(left: &Option<Text>, right: &Option<Text>) -> bool
    ensures { result ≡ equal_origins left.now right.now }
{
    match (left, right) {
        (Some(left), Some(right)) => left == right,
        _ => false,
    }
}
