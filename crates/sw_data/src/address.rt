//! Cuts of serialized addresses, as bytes.

ghost use Rattle.std.specs.Prelude.{◌≡◌};
ghost use Rattle.sw_data.specs.Addresses.{without_fragment, without_query};

use crate::cut::before;

/// The address without its fragment: what stands before the first `#` (URL, 4.5, "exclude
/// fragment"). It takes no memory.
#[tactic(auto, unfolding(crate::specs::Addresses::without_fragment))]
pub fn without_fragment(address: &[u8]) -> &[u8]
    ensures { result.now ≡ without_fragment address.now }
{
    before(address, b'#')
}

/// The address without fragment and query: what stands before the first `?` of the address
/// without its fragment. It takes no memory.
#[tactic(auto, unfolding(crate::specs::Addresses::without_query))]
pub fn without_query(address: &[u8]) -> &[u8]
    ensures { result.now ≡ without_query address.now }
{
    before(without_fragment(address), b'?')
}
