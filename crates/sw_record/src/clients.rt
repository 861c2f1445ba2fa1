//! The parts of actions on clients and registrations.

ghost use Rattle.std.specs.Prelude.{◌≡◌, ◌||◌, ◌&&◌, IfOk};
ghost use Rattle.std.specs.List.{list_all};
ghost use Rattle.serde_json.specs.View.{view};
ghost use Rattle.sw_record.specs.Lanes as lanes;

use serde_json::Value;
use std::alloc::Global;
use sw_data::header::is_value;
use sw_data::{Boxed, ClientScope, Kind, Mode, Place, Registering, Slot, Text};
use sw_forms::{
    Flaw, LineCause, NO_FORM, PARTITION_LIMIT, Part, both, boxed_part, needs, number_member, short,
    short_text_member, short_text_option,
};

#[tactic(auto, unfolding(crate::specs::Lanes::client_member))]
pub fn client_member(value: &Value) -> Result<u32, Flaw>
    ensures { result ≡ lanes.client_member (view value.now) }
{
    number_member(value.get("client"))
}

#[tactic(auto, unfolding(crate::specs::Lanes::event_member))]
pub fn event_member(value: &Value) -> Result<u32, Flaw>
    ensures { result ≡ lanes.event_member (view value.now) }
{
    number_member(value.get("event"))
}

#[tactic(auto, unfolding(crate::specs::Lanes::of_member))]
pub fn of_member(value: &Value) -> Result<u32, Flaw>
    ensures { result ≡ lanes.of_member (view value.now) }
{
    number_member(value.get("of"))
}

/// A text under a name, of at most 4,096 bytes.
#[tactic(auto, unfolding(crate::specs::Lanes::text_member))]
pub fn text_member(alloc: Global, name: &str, value: &Value) -> Part<Text>
    ensures { IfOk result (λ text. text ≡ lanes.text_member name.now (view value.now)) }
{
    short_text_member(alloc, value.get(name))
}

#[tactic(auto, unfolding(crate::specs::Lanes::scope_option))]
fn scope_option(alloc: Global, value: &Value) -> Part<Option<Text>>
    ensures { IfOk result (λ scope. scope ≡ lanes.scope_option (view value.now)) }
{
    short_text_option(alloc, value.get("scope"))
}

#[tactic(auto, unfolding(sw_forms::specs::Flaws::both))]
fn client_scope_from(
    client: Result<u32, Flaw>,
    scope: Result<Text, Flaw>,
) -> Result<ClientScope, Flaw>
    ensures { result ≡ lanes.client_scope_from client scope }
{
    match both(client, scope) {
        Ok((client, scope)) => Ok(ClientScope { client, scope }),
        Err(why) => Err(why),
    }
}

/// A scope that a client names.
#[tactic(auto, unfolding(crate::specs::Lanes::client_scope_parts))]
pub fn client_scope_parts(alloc: Global, value: &Value) -> Part<ClientScope>
    ensures { IfOk result (λ of. of ≡ lanes.client_scope_parts (view value.now)) }
{
    let scope = text_member(alloc, "scope", value)?;
    Ok(client_scope_from(client_member(value), scope))
}

fn slot_word(text: &str) -> Result<Slot, Flaw>
    ensures { result ≡ lanes.slot_word text.now }
{
    match text {
        "installing" => Ok(Slot::Installing),
        "waiting" => Ok(Slot::Waiting),
        "active" => Ok(Slot::Active),
        _ => Err(NO_FORM),
    }
}

/// A slot of a registration.
#[tactic(auto, unfolding(crate::specs::Lanes::slot_member))]
pub fn slot_member(value: &Value) -> Result<Slot, Flaw>
    ensures { result ≡ lanes.slot_member (view value.now) }
{
    match value.get("slot").and_then(Value::as_str) {
        Some(text) => slot_word(text),
        None => Err(NO_FORM),
    }
}

fn kind_word(text: &str) -> Result<Kind, Flaw>
    ensures { result ≡ lanes.kind_word text.now }
{
    match text {
        "classic" => Ok(Kind::Classic),
        "module" => Ok(Kind::Module),
        _ => Err(NO_FORM),
    }
}

#[tactic(auto, unfolding(crate::specs::Lanes::kind_member))]
fn kind_member(value: &Value) -> Result<Kind, Flaw>
    ensures { result ≡ lanes.kind_member (view value.now) }
{
    match value.get("type") {
        Some(kind) => match kind.as_str() {
            Some(text) => kind_word(text),
            None => Err(NO_FORM),
        },
        None => Ok(Kind::Classic),
    }
}

fn mode_word(text: &str) -> Result<Mode, Flaw>
    ensures { result ≡ lanes.mode_word text.now }
{
    match text {
        "imports" => Ok(Mode::Imports),
        "all" => Ok(Mode::All),
        "none" => Ok(Mode::Never),
        _ => Err(NO_FORM),
    }
}

#[tactic(auto, unfolding(crate::specs::Lanes::mode_member))]
fn mode_member(value: &Value) -> Result<Mode, Flaw>
    ensures { result ≡ lanes.mode_member (view value.now) }
{
    match value.get("cache") {
        Some(mode) => match mode.as_str() {
            Some(text) => mode_word(text),
            None => Err(NO_FORM),
        },
        None => Ok(Mode::Imports),
    }
}

// The type and the mode of a registration.
#[tactic(auto, unfolding(crate::specs::Lanes::settings))]
fn settings(value: &Value) -> Result<(Kind, Mode), Flaw>
    ensures { result ≡ lanes.settings (view value.now) }
{
    both(kind_member(value), mode_member(value))
}

// The script and the scope of a registration.
#[tactic(auto, unfolding(crate::specs::Lanes::addresses))]
fn addresses(alloc: Global, value: &Value) -> Part<(Text, Option<Text>)>
    ensures { IfOk result (λ texts. texts ≡ lanes.addresses (view value.now)) }
{
    let script = text_member(alloc, "script", value)?;
    let scope = scope_option(alloc, value)?;
    Ok(both(script, scope))
}

#[tactic(auto, unfolding(sw_forms::specs::Flaws::both))]
fn register_from(
    client: Result<u32, Flaw>,
    addresses: Result<(Text, Option<Text>), Flaw>,
    settings: Result<(Kind, Mode), Flaw>,
) -> Result<Registering, Flaw>
    ensures { result ≡ lanes.register_from client addresses settings }
{
    match both(client, both(addresses, settings)) {
        Ok((client, ((script, scope), (kind, mode)))) => Ok(Registering {
            client,
            script,
            scope,
            kind,
            mode,
        }),
        Err(why) => Err(why),
    }
}

/// A registration that a client asks for.
#[tactic(auto, unfolding(crate::specs::Lanes::register_parts))]
pub fn register_parts(alloc: Global, value: &Value) -> Part<Boxed<Registering>>
    ensures { IfOk result (λ register. register ≡ lanes.register_parts (view value.now)) }
{
    let addresses = addresses(alloc, value)?;
    boxed_part(
        alloc,
        register_from(client_member(value), addresses, settings(value)),
    )
}

fn preload_text(alloc: Global, text: &str) -> Part<Text>
    ensures { IfOk result (λ kept. kept ≡ lanes.preload_text text.now) }
{
    let kept = short(alloc, text)?;
    Ok(needs(
        is_value(text.as_bytes()),
        Flaw::Cause(LineCause::Header),
        kept,
    ))
}

/// A preload value within the limit of texts, which may stand in a header.
#[tactic(auto, unfolding(crate::specs::Lanes::preload_value_member))]
pub fn preload_value_member(alloc: Global, value: &Value) -> Part<Text>
    ensures { IfOk result (λ kept. kept ≡ lanes.preload_value_member (view value.now)) }
{
    match value.get("value").and_then(Value::as_str) {
        Some(text) => preload_text(alloc, text),
        None => Ok(Err(NO_FORM)),
    }
}

fn is_partition_byte(byte: u8) -> bool
    ensures { result ≡ lanes.is_partition_byte byte }
{
    (b'a' <= byte && byte <= b'z') || (b'0' <= byte && byte <= b'9') || byte == b'.' || byte == b'-'
}

fn has_partition_bytes(text: &[u8]) -> bool
    ensures { result ≡ list_all lanes.is_partition_byte text.now }
{
    text.iter().all(|byte| is_partition_byte(*byte))
}

// 1 to 64 of a to z, 0 to 9, `.` and `-`.
fn is_partition(text: &str) -> bool
    ensures { result ≡ lanes.is_partition text.now }
{
    0 < text.len() && text.len() <= PARTITION_LIMIT && has_partition_bytes(text.as_bytes())
}

fn partition_of(alloc: Global, value: &Value) -> Part<Boxed<Text>>
    ensures { IfOk result (λ partition. partition ≡ lanes.partition_of (view value.now)) }
{
    match value.as_str() {
        Some(text) if is_partition(text) => Ok(Ok(Boxed::new(alloc, Text::of(alloc, text)?)?)),
        _ => Ok(Err(NO_FORM)),
    }
}

/// The partition of a page.
#[tactic(auto, unfolding(crate::specs::Lanes::partition_member))]
pub fn partition_member(alloc: Global, value: &Value) -> Part<Option<Boxed<Text>>>
    ensures { IfOk result (λ partition. partition ≡ lanes.partition_member (view value.now)) }
{
    match value.get("partition") {
        Some(partition) => match partition_of(alloc, partition)? {
            Ok(partition) => Ok(Ok(Some(partition))),
            Err(why) => Ok(Err(why)),
        },
        None => Ok(Ok(None)),
    }
}

#[tactic(auto, unfolding(sw_forms::specs::Flaws::both))]
fn place_from(
    at: Result<Text, Flaw>,
    partition: Result<Option<Boxed<Text>>, Flaw>,
) -> Result<Place, Flaw>
    ensures { result ≡ lanes.place_from at partition }
{
    match both(at, partition) {
        Ok((at, partition)) => Ok(Place { at, partition }),
        Err(why) => Err(why),
    }
}

/// The address of a page and its partition.
#[tactic(auto, unfolding(crate::specs::Lanes::place_parts))]
pub fn place_parts(alloc: Global, value: &Value) -> Part<Place>
    ensures { IfOk result (λ place. place ≡ lanes.place_parts (view value.now)) }
{
    let at = text_member(alloc, "at", value)?;
    let partition = partition_member(alloc, value)?;
    Ok(place_from(at, partition))
}
