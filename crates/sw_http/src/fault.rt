//! Why a request or a response is refused.

ghost use Rattle.std.specs.Prelude.{◌≡◌};

use std::alloc::AllocError;
use sw_data::NoMemory;
use thiserror::Error;

/// Why a call gave no request or response.
#[derive(Debug, Clone, Copy, PartialEq, Eq, Error)]
pub enum HttpFault {
    /// A growth was refused by the allocator.
    #[error("there is no memory")]
    NoMemory,
    /// The method is no token.
    #[error("the method is no token")]
    BadMethod,
    /// The status is outside 100 to 999.
    #[error("the status is outside 100 to 999")]
    BadStatus,
    /// The name of a header is no token of 1 to 65,535 bytes.
    #[error("the name of a header is no token of 1 to 65,535 bytes")]
    BadName,
    /// The value of a header has a character below U+0020 other than a tab, or U+007F.
    #[error("the value of a header has a character that none may have")]
    BadValue,
    /// The body has more than 1,048,576 bytes.
    #[error("the body has more than 1,048,576 bytes")]
    BodyTooLarge,
}

impl From<NoMemory> for HttpFault {
    ghost use Rattle.sw_http.specs.declared.fault.HttpFault.TheVariants.{NoMemory};

    ghost from_gives = { λ _ e. e ≡ NoMemory };

    fn from(_: NoMemory) -> HttpFault {
        HttpFault::NoMemory
    }
}

impl From<AllocError> for HttpFault {
    ghost use Rattle.sw_http.specs.declared.fault.HttpFault.TheVariants.{NoMemory};

    ghost from_gives = { λ _ e. e ≡ NoMemory };

    fn from(_: AllocError) -> HttpFault {
        HttpFault::NoMemory
    }
}
