//! A numbered entry of a cache.

ghost use Rattle.std.specs.Prelude.{◌≡◌};
ghost use Rattle.sw_caches.specs.Bytes.{put_size};

use sw_data::{Request, Response};

// A request and the response that is kept under it.
pub(crate) type Pair = (Request, Response);

/// A request and the response that a cache keeps under it.
#[derive(Drop)]
pub struct Entry {
    pub(crate) number: u64,
    // The bytes of the operation that puts the pair.
    pub(crate) size: u64,
    pub(crate) pair: Box<Pair>,
    ghost sized: { size ≡ put_size pair.value },
}

impl Entry {
    ghost use Rattle.sw_caches.specs.Entries.{pair};

    /// The request and the response; it takes no memory.
    pub fn pair(&self) -> &(Request, Response)
        ensures { result.now ≡ pair self.now }
    {
        &self.pair
    }
}
