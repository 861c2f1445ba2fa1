//! Why an address is refused.

ghost use Rattle.std.specs.Prelude.{◌≡◌};

use std::alloc::AllocError;
use sw_data::NoMemory;
use thiserror::Error;

/// Why a call gave no address.
#[derive(Debug, Clone, Copy, PartialEq, Eq, Error)]
pub enum UrlFault {
    /// A growth was refused by the allocator.
    #[error("there is no memory")]
    NoMemory,
    /// The base doesn't parse, or the text doesn't parse against it.
    #[error("the address doesn't parse")]
    Unparsed,
    /// The scheme is neither http nor https.
    #[error("the scheme is neither http nor https")]
    Scheme,
    /// The path holds `%2f` or `%5c` in any case.
    #[error("the path holds an escaped slash")]
    EscapedSlash,
}

impl From<NoMemory> for UrlFault {
    ghost use Rattle.sw_url.specs.declared.fault.UrlFault.TheVariants.{NoMemory};

    ghost from_gives = { λ _ e. e ≡ NoMemory };

    fn from(_: NoMemory) -> UrlFault {
        UrlFault::NoMemory
    }
}

impl From<AllocError> for UrlFault {
    ghost use Rattle.sw_url.specs.declared.fault.UrlFault.TheVariants.{NoMemory};

    ghost from_gives = { λ _ e. e ≡ NoMemory };

    fn from(_: AllocError) -> UrlFault {
        UrlFault::NoMemory
    }
}
