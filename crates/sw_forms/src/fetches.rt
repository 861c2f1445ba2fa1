//! Fetch lines: what the network answers for an address, and what a worker made from it does.

ghost use Rattle.std.specs.Prelude.{◌≡◌, IfOk};
ghost use Rattle.serde_json.specs.View.{view};
ghost use Rattle.sw_forms.specs.Fetches as fetches;
ghost use Rattle.sw_url.specs.HttpAddress.{http_address};

use crate::calls::calls_of;
use crate::error::{Limit, LineCause};
use crate::exchanges::response_parts;
use crate::flaw::{Flaw, NO_FORM, Part, both, needs};
use crate::limits::TEXT_LIMIT;
use crate::members::has_only;
use serde_json::Value;
use std::alloc::Global;
use sw_data::{Call, FetchLine, Fetched, Handlers, Items, NoMemory, Response, Text};
use sw_url::{UrlFault, http_address};

// Whether a text is the second of two words.
fn choice_of(first: &str, second: &str, value: &Value) -> Result<bool, Flaw>
    ensures { result ≡ fetches.choice_of first.now second.now (view value.now) }
{
    match value.as_str() {
        Some(text) if text == first => Ok(false),
        Some(text) if text == second => Ok(true),
        _ => Err(NO_FORM),
    }
}

#[tactic(auto, unfolding(crate::specs::Fetches::throws_member))]
fn throws_member(value: &Value) -> Result<bool, Flaw>
    ensures { result ≡ fetches.throws_member (view value.now) }
{
    match value.get("run") {
        Some(run) => choice_of("ok", "throw", run),
        None => Ok(false),
    }
}

#[tactic(auto, unfolding(crate::specs::Fetches::calls_member))]
fn calls_member(alloc: Global, value: &Value) -> Part<Items<Call>>
    ensures { IfOk result (λ calls. calls ≡ fetches.calls_member (view value.now)) }
{
    match value.get("calls") {
        Some(calls) => calls_of(alloc, calls),
        None => Ok(Ok(Items::new(alloc))),
    }
}

#[tactic(auto, unfolding(crate::specs::Fetches::fails_member))]
fn fails_member(value: &Value) -> Result<bool, Flaw>
    ensures { result ≡ fetches.fails_member (view value.now) }
{
    match value.get("end") {
        Some(end) => choice_of("ok", "fail", end),
        None => Ok(false),
    }
}

// What an install handler does: its calls, and whether it ends in a failure.
#[tactic(auto, unfolding(crate::specs::Fetches::install_of))]
fn install_of(alloc: Global, value: &Value) -> Part<(Items<Call>, bool)>
    ensures { IfOk result (λ install. install ≡ fetches.install_of (view value.now)) }
{
    if !has_only(&["calls", "end"], value) {
        return Ok(Err(NO_FORM));
    }
    let calls = calls_member(alloc, value)?;
    Ok(both(calls, fails_member(value)))
}

#[tactic(auto, unfolding(crate::specs::Fetches::install_member))]
fn install_member(alloc: Global, value: &Value) -> Part<(Items<Call>, bool)>
    ensures { IfOk result (λ install. install ≡ fetches.install_member (view value.now)) }
{
    match value.get("install") {
        Some(install) => install_of(alloc, install),
        None => Ok(Ok((Items::new(alloc), false))),
    }
}

// What an activate handler does.
#[tactic(auto, unfolding(crate::specs::Fetches::activate_of))]
fn activate_of(alloc: Global, value: &Value) -> Part<Items<Call>>
    ensures { IfOk result (λ calls. calls ≡ fetches.activate_of (view value.now)) }
{
    if !has_only(&["calls"], value) {
        return Ok(Err(NO_FORM));
    }
    calls_member(alloc, value)
}

#[tactic(auto, unfolding(crate::specs::Fetches::activate_member))]
fn activate_member(alloc: Global, value: &Value) -> Part<Items<Call>>
    ensures { IfOk result (λ calls. calls ≡ fetches.activate_member (view value.now)) }
{
    match value.get("activate") {
        Some(activate) => activate_of(alloc, activate),
        None => Ok(Ok(Items::new(alloc))),
    }
}

#[tactic(auto, unfolding(crate::specs::Flaws::both))]
fn handlers_from(
    throws: Result<bool, Flaw>,
    install: Result<(Items<Call>, bool), Flaw>,
    activate: Result<Items<Call>, Flaw>,
) -> Result<Handlers, Flaw>
    ensures { result ≡ fetches.handlers_from throws install activate }
{
    match both(throws, both(install, activate)) {
        Ok((throws, ((install, install_fails), activate))) => Ok(Handlers {
            throws,
            install,
            install_fails,
            activate,
        }),
        Err(why) => Err(why),
    }
}

// What a worker does when it runs, installs and activates.
#[tactic(auto, unfolding(crate::specs::Fetches::handlers_of))]
fn handlers_of(alloc: Global, value: &Value) -> Part<Handlers>
    ensures { IfOk result (λ handlers. handlers ≡ fetches.handlers_of (view value.now)) }
{
    let install = install_member(alloc, value)?;
    let activate = activate_member(alloc, value)?;
    Ok(handlers_from(throws_member(value), install, activate))
}

// The http or https address of a fetch line, without its fragment.
fn kept_address(alloc: Global, text: &str) -> Part<Text>
    ensures { IfOk result (λ address. address ≡ fetches.kept_address (http_address text.now)) }
{
    match http_address(alloc, text) {
        Ok(address) => Ok(Ok(address)),
        Err(UrlFault::NoMemory) => Err(NoMemory),
        Err(_) => Ok(Err(Flaw::Cause(LineCause::Address))),
    }
}

/// The address of a fetch line, of at most 4,096 bytes as it is written.
#[tactic(auto, unfolding(crate::specs::Fetches::address_part))]
pub fn address_part(alloc: Global, value: &Value) -> Part<Text>
    ensures { IfOk result (λ address. address ≡ fetches.address_part (view value.now)) }
{
    match value.as_str() {
        Some(text) => {
            let address = kept_address(alloc, text)?;
            let fits = text.len() <= TEXT_LIMIT;
            Ok(needs(fits, Flaw::Limit(Limit::Text), address))
        }
        None => Ok(Err(NO_FORM)),
    }
}

fn error_of(mark: &Value) -> Result<Option<Fetched>, Flaw>
    ensures { result ≡ fetches.error_of (view mark.now) }
{
    match mark.as_bool() {
        Some(true) => Ok(None),
        _ => Err(NO_FORM),
    }
}

/// A line of a network error.
#[tactic(auto, unfolding(crate::specs::Fetches::error_line))]
pub fn error_line(mark: &Value, value: &Value) -> Result<Option<Fetched>, Flaw>
    ensures { result ≡ fetches.error_line (view mark.now) (view value.now) }
{
    if !has_only(&["fetch", "error"], value) {
        return Err(NO_FORM);
    }
    error_of(mark)
}

#[tactic(auto, unfolding(crate::specs::Flaws::both))]
fn fetched_from(
    response: Result<Response, Flaw>,
    handlers: Result<Handlers, Flaw>,
) -> Result<Option<Fetched>, Flaw>
    ensures { result ≡ fetches.fetched_from response handlers }
{
    match both(response, handlers) {
        Ok((response, handlers)) => Ok(Some(Fetched { response, handlers })),
        Err(why) => Err(why),
    }
}

// A response, and what a worker made from it does.
#[tactic(auto, unfolding(crate::specs::Fetches::answer_line))]
fn answer_line(alloc: Global, value: &Value) -> Part<Option<Fetched>>
    ensures { IfOk result (λ fetched. fetched ≡ fetches.answer_line (view value.now)) }
{
    if !has_only(
        &[
            "fetch", "status", "headers", "text", "body", "run", "install", "activate",
        ],
        value,
    ) {
        return Ok(Err(NO_FORM));
    }
    let response = response_parts(alloc, value)?;
    let handlers = handlers_of(alloc, value)?;
    Ok(fetched_from(response, handlers))
}

#[tactic(auto, unfolding(crate::specs::Fetches::fetched_of))]
fn fetched_of(alloc: Global, value: &Value) -> Part<Option<Fetched>>
    ensures { IfOk result (λ fetched. fetched ≡ fetches.fetched_of (view value.now)) }
{
    match value.get("error") {
        Some(mark) => Ok(error_line(mark, value)),
        None => answer_line(alloc, value),
    }
}

#[tactic(auto, unfolding(crate::specs::Flaws::both))]
fn fetch_from(
    address: Result<Text, Flaw>,
    fetched: Result<Option<Fetched>, Flaw>,
) -> Result<FetchLine, Flaw>
    ensures { result ≡ fetches.fetch_from address fetched }
{
    match both(address, fetched) {
        Ok((fetch, fetched)) => Ok(FetchLine { fetch, fetched }),
        Err(why) => Err(why),
    }
}

/// The fetch line of an address.
#[tactic(auto, unfolding(crate::specs::Fetches::fetch_line))]
pub fn fetch_line(alloc: Global, address: &Value, value: &Value) -> Part<FetchLine>
    ensures { IfOk result (λ line. line
        ≡ fetches.fetch_line (view address.now) (view value.now)) }
{
    let address = address_part(alloc, address)?;
    let fetched = fetched_of(alloc, value)?;
    Ok(fetch_from(address, fetched))
}
