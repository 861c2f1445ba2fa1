//! Clients that open and close.

ghost use Rattle.std.specs.Prelude.{◌≡◌, Some, IfOk, IfSome, option_copied, option_map};
ghost use Rattle.sw_data.specs.Addresses.{is_trustworthy};
ghost use Rattle.sw_pages.specs.Acts.{Gives};
ghost use Rattle.sw_pages.specs.Fits.{FitsHost};
ghost use Rattle.sw_rules.specs.Activating as activating;
ghost use Rattle.sw_rules.specs.Clients as rules;
ghost use Rattle.sw_state.specs.Hosted.{IsOwned, SameRows, state_of};

use crate::look::{active_at, refused};
use crate::worked::{PageAct, Worked, answered};
use std::alloc::Global;
use sw_data::{Answer, Cause, NoMemory, Text};
use sw_state::HostTables;
use sw_url::{UrlFault, is_trustworthy, key_of, serialized};

// The answer of a worker that stands before its registration, where there is one.
fn worker_or_none(found: Option<(u32, u32)>) -> Answer
    ensures { result ≡ activating.worker_or_none (option_map (λ found. found.0) found) }
{
    match found {
        Some((worker, _)) => Answer::Worker(worker),
        None => Answer::None,
    }
}

// The controller that a client of a key gets where it opens, with its registration.
fn opening_controller(host: &HostTables, secure: bool, key: &Text, url: &Text) -> Option<(u32, u32)>
    requires { secure ≡ is_trustworthy url.now }
    ensures controller { option_map (λ found. found.0) result
        ≡ rules.opening_controller (state_of host.now) key.now url.now }
    ensures owner { IfSome result (IsOwned host.now) }
{
    if secure {
        active_at(host, key, url.as_bytes())
    } else {
        None
    }
}

// A client opens at an address of this key.
fn open_as(
    host: &mut HostTables,
    alloc: Global,
    client: u32,
    url: Text,
    key: Text,
) -> Result<Worked, NoMemory>
    ensures same { SameRows host.old host.new }
    ensures fits { IfOk result (λ worked. FitsHost worked host.new) }
    ensures gives { IfOk result (λ worked. Gives (λ state who.
        rules.open_at state client url (Some key)) worked host.old) }
{
    let secure = is_trustworthy(alloc, &url)?;
    let controller = opening_controller(host, secure, &key, &url);
    let Ok(new) = host
        .clients
        .add_row(alloc, client, url, key, secure, controller)
    else {
        return Err(NoMemory);
    };
    Ok(Worked {
        answer: worker_or_none(controller),
        act: PageAct::Open(new),
        awaited: None,
    })
}

// A client opens at a parsed address, which has a key or not.
fn open_at(
    host: &mut HostTables,
    alloc: Global,
    client: u32,
    url: Text,
    key: Option<Text>,
) -> Result<Worked, NoMemory>
    ensures same { SameRows host.old host.new }
    ensures fits { IfOk result (λ worked. FitsHost worked host.new) }
    ensures gives { IfOk result (λ worked. Gives (λ state who.
        rules.open_at state client url key) worked host.old) }
{
    match key {
        Some(key) => open_as(host, alloc, client, url, key),
        None => Ok(refused(Cause::Scheme)),
    }
}

/// A client opens: its controller is the active worker of the registration that its address matches, where that address
/// is trustworthy (HTML, "create an environment"; Service Workers, Appendix A, "Handle Fetch").
pub fn open_client(
    host: &mut HostTables,
    alloc: Global,
    client: u32,
    url: &Text,
    partition: Option<&Text>,
) -> Result<Worked, NoMemory>
    ensures same { SameRows host.old host.new }
    ensures fits { IfOk result (λ worked. FitsHost worked host.new) }
    ensures gives { IfOk result (λ worked. Gives (λ state who.
        rules.open_client state client url.now (option_copied partition.entry))
        worked host.old) }
{
    if host.client_row(client).is_some() {
        return Ok(answered(Answer::InUse));
    }
    match serialized(alloc, url) {
        Ok(address) => {
            let key = key_of(alloc, url, partition)?;
            open_at(host, alloc, client, address, key)
        }
        Err(UrlFault::NoMemory) => Err(NoMemory),
        Err(_) => Ok(refused(Cause::Unparsed)),
    }
}

/// A client closes (Service Workers, Appendix A, "Handle Service Worker Client Unload"). It takes no memory.
pub fn close_client(host: &HostTables, client: u32) -> Worked
    ensures fits { FitsHost result host.now }
    ensures gives { Gives (λ state who. rules.close state client) result host.now }
{
    match host.client_row(client) {
        Some(_) => Worked {
            answer: Answer::Ok,
            act: PageAct::Close(client),
            awaited: None,
        },
        None => answered(Answer::NoClient),
    }
}
