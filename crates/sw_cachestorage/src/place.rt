//! The storage key of a page.

ghost use Rattle.std.specs.Prelude.{◌≡◌, IfOk};
ghost use Rattle.sw_cachestorage.specs.Places.{fault_of};
ghost use Rattle.sw_rules.specs.Caching.{place_key};

use std::alloc::Global;
use sw_data::{Cause, Fault, NoMemory, Place, SecurityCause, Text, unboxed_option};
use sw_url::{PageFault, page_key};

/// The storage key of a page, or why it has none: its address doesn't parse, isn't http or https,
/// or isn't trustworthy.
pub fn place_key(alloc: Global, place: &Place) -> Result<Result<Text, Fault>, NoMemory>
    ensures { IfOk result (λ key. key ≡ place_key place.now) }
{
    match page_key(alloc, &place.at, unboxed_option(&place.partition))? {
        Ok(key) => Ok(Ok(key)),
        Err(refusal) => Ok(Err(fault_of(refusal))),
    }
}

// The fault that a refusal of a page is.
fn fault_of(refusal: PageFault) -> Fault
    ensures { result ≡ fault_of refusal }
{
    match refusal {
        PageFault::Unparsed => Fault::TypeError {
            cause: Cause::Unparsed,
            index: None,
        },
        PageFault::Scheme => Fault::TypeError {
            cause: Cause::Scheme,
            index: None,
        },
        PageFault::Untrusted => Fault::SecurityError(SecurityCause::Untrusted),
    }
}
