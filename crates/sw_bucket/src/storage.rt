//! The usage of a host.

ghost use Rattle.std.specs.Prelude.{◌≡◌, IfOk};
ghost use Rattle.sw_rules.specs.Durable.{durable};
ghost use Rattle.sw_sizes.specs.Rows.{ArePartsOf};
ghost use Rattle.sw_sizes.specs.Usage.{usage, usage_of};
ghost use Rattle.sw_state.specs.Hosted.{state_of};

use std::alloc::Global;
use sw_core::Core;
use sw_data::{NoMemory, Text};
use sw_sizes::{Sizes, scanned_usage};

/// How many bytes the changes of a checkpoint of a host are spelled in: the sum over all keys. It copies all that is kept,
/// and scans the registrations.
#[tactic(auto, using(crate::proofs::Taken::scanned))]
pub fn usage(alloc: Global, core: &Core) -> Result<u64, NoMemory>
    ensures { IfOk result (λ bytes. bytes ≡ usage (durable (state_of core.now))) }
{
    let kept = core.kept(alloc)?;
    scanned_usage(kept.registrations.as_slice(), core.caches())
}

/// The usage of a host, the bytes of whose registrations were counted. It takes no memory.
#[tactic(auto, using(crate::proofs::Taken::same_caches))]
pub fn counted_usage(core: &Core, sizes: &Sizes) -> Result<u64, NoMemory>
    ensures { ArePartsOf (durable (state_of core.now)) sizes.now
        → IfOk result (λ bytes. bytes ≡ usage (durable (state_of core.now))) }
{
    sizes.usage(core.caches())
}

/// The usage of a key of such a host. It takes no memory.
#[tactic(auto, using(crate::proofs::Taken::same_caches))]
pub fn counted_key_usage(core: &Core, sizes: &Sizes, key: &Text) -> Result<u64, NoMemory>
    ensures { ArePartsOf (durable (state_of core.now)) sizes.now
        → IfOk result (λ bytes. bytes ≡ usage_of key.now (durable (state_of core.now))) }
{
    sizes.key_usage(core.caches(), key)
}
