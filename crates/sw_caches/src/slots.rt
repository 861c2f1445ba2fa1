//! The numbers of pairs, behind digests of their addresses.

ghost use Rattle.std.specs.Prelude.{◌≡◌};
ghost use Rattle.sw_caches.specs.Slots.{address_digest, address_mark};

use sw_data::Text;
use sw_data::address::{without_fragment, without_query};
use sw_list::{Mark, digest, mixed};

// The digest of an address without its fragment, or also without its query.
#[tactic(auto, unfolding(crate::specs::Slots::address_digest))]
pub(crate) fn address_digest(without_queries: bool, address: &Text) -> u64
    ensures { result ≡ address_digest without_queries address.now }
{
    if without_queries {
        mixed(digest(without_query(address.as_bytes())), b'#')
    } else {
        digest(without_fragment(address.as_bytes()))
    }
}

// The mark of an address.
pub(crate) fn mark_of(address: &Text, number: u64) -> Mark
    ensures { result ≡ address_mark address.now number }
{
    Mark {
        first: address_digest(false, address),
        second: address_digest(true, address),
        number,
    }
}
