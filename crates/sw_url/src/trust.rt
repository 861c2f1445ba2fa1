//! Trustworthy addresses.

ghost use Rattle.std.specs.Prelude.{◌≡◌, ◌||◌, false, IfOk, bytes_eq, codes, nat_eq};
ghost use Rattle.std.specs.List.{ends_with};
ghost use Rattle.std.specs.Option.{option_map_or};
ghost use Rattle.url.specs.Parts.{nonempty_host};
ghost use Rattle.url.specs.Host.{borrowed_host};
ghost use Rattle.sw_data.specs.Addresses.{is_loopback, is_trusted, is_trustworthy};

use crate::fault::UrlFault;
use crate::parsing::parsed;
use std::alloc::Global;
use sw_data::{NoMemory, Text};
use url::{Host, Url};

/// The text is a trustworthy address: https, or http at 127.0.0.0/8, `[::1]`, `localhost` or a
/// name below `localhost` (Secure Contexts, 3.1 and 3.2, in a profile of our own). A text that
/// doesn't parse isn't.
#[tactic(auto, unfolding(sw_data::specs::Addresses::is_trustworthy))]
pub fn is_trustworthy(alloc: Global, address: &Text) -> Result<bool, NoMemory>
    ensures { IfOk result (λ trusted. trusted ≡ is_trustworthy address.now) }
{
    match parsed(alloc, address.as_str()) {
        Ok(url) => Ok(is_trusted(&url)),
        Err(UrlFault::NoMemory) => Err(NoMemory),
        Err(_) => Ok(false),
    }
}

pub(crate) fn is_trusted(url: &Url) -> bool
    ensures { result ≡ is_trusted url.now }
{
    url.scheme() == "https" || (url.scheme() == "http" && is_at_loopback(url))
}

fn is_at_loopback(url: &Url) -> bool
    ensures { result ≡ option_map_or is_loopback (nonempty_host url.now) false }
{
    match url.host() {
        Some(host) => is_loopback(host),
        None => false,
    }
}

fn is_loopback(host: Host<&str>) -> bool
    ensures { result ≡ is_loopback (borrowed_host host.entry) }
{
    match host {
        Host::Domain(name) => is_local_name(name.as_bytes()),
        Host::Ipv4(address) => address.octets()[0] == 127,
        Host::Ipv6(address) => address.segments() == [0, 0, 0, 0, 0, 0, 0, 1],
    }
}

fn is_local_name(name: &[u8]) -> bool
    ensures { result
        ≡ bytes_eq name.now (codes "localhost") || ends_with nat_eq name.now (codes ".localhost") }
{
    name == b"localhost".as_slice() || name.ends_with(b".localhost")
}
