//! Why a recording wasn't read.

ghost use Rattle.std.specs.Prelude.{◌≡◌};

use std::alloc::AllocError;
use sw_data::NoMemory;

/// What is wrong with a line. The causes are tested one after another, each over the whole line.
#[derive(Debug, Clone, Copy, PartialEq, Eq)]
pub enum LineCause {
    /// It isn't UTF-8, or no JSON value.
    Json,
    /// It isn't of one of the forms.
    Form,
    /// A method is no token.
    Method,
    /// A status is outside 100 to 999.
    Status,
    /// The name of a header is no token, or a value has a character that may not stand in one.
    Header,
    /// A body isn't base64 with its padding and zero trailing bits (RFC 4648, section 4).
    Base64,
    /// The address of a fetch line doesn't parse, or is neither http nor https.
    Address,
    /// It awaits what isn't an earlier register, update, unregister or addAll of its lane.
    Await,
}

/// What a line has too much of. `Body` is tested after all causes, the others right after `Form`.
#[derive(Debug, Clone, Copy, PartialEq, Eq)]
pub enum Limit {
    /// More than 65,536 actions of all lanes.
    Actions,
    /// A lane of 64 or more.
    Lanes,
    /// An address, a cache name or a preload value of more than 4,096 bytes.
    Text,
    /// More than 64 headers in one list.
    Headers,
    /// More than 256 operations or requests in one action or call.
    Operations,
    /// More than 64 calls of one handler.
    Calls,
    /// A body of more than 1,048,576 bytes.
    Body,
}

/// Why a recording wasn't read: its first bad line, counted from 1, or want of memory.
#[derive(Debug, Clone, Copy, PartialEq, Eq)]
pub enum RecordingError {
    /// There was no memory.
    NoMemory,
    /// The line is no part of a recording.
    BadLine { line: u32, cause: LineCause },
    /// The line passes a limit.
    TooLarge { line: u32, limit: Limit },
}

impl From<NoMemory> for RecordingError {
    ghost use Rattle.sw_forms.specs.declared.error.RecordingError.TheVariants.{NoMemory};

    ghost from_gives = { λ _ error. error ≡ NoMemory };

    fn from(_: NoMemory) -> RecordingError {
        RecordingError::NoMemory
    }
}

impl From<AllocError> for RecordingError {
    ghost use Rattle.sw_forms.specs.declared.error.RecordingError.TheVariants.{NoMemory};

    ghost from_gives = { λ _ error. error ≡ NoMemory };

    fn from(_: AllocError) -> RecordingError {
        RecordingError::NoMemory
    }
}
