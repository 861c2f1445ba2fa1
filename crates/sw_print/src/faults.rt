//! The texts of faults and of the values of promises.

ghost use Rattle.std.specs.Prelude.{◌≡◌, IfOk, string_bytes};
ghost use Rattle.sw_print.specs.Transcript.{cause_word, security_word, state_word, fault_text, truth_word, settlement_text};

use std::alloc::{AllocError, Global};
use sw_data::{Cause, Fault, SecurityCause, Settlement, StateCause};

/// The word for the cause of a TypeError.
pub fn cause_word(cause: Cause) -> &'static str
    ensures { result.now ≡ cause_word cause }
{
    match cause {
        Cause::Unparsed => "unparsed",
        Cause::Scheme => "scheme",
        Cause::EscapedSlash => "escaped-slash",
        Cause::Method => "method",
        Cause::Partial => "partial",
        Cause::Vary => "vary",
        Cause::Network => "network",
        Cause::Status => "status",
        Cause::NoRegistration => "no-registration",
        Cause::Script => "script",
        Cause::Threw => "threw",
    }
}

/// The word for the cause of a SecurityError.
pub fn security_word(cause: SecurityCause) -> &'static str
    ensures { result.now ≡ security_word cause }
{
    match cause {
        SecurityCause::Origin => "origin",
        SecurityCause::Untrusted => "untrusted",
        SecurityCause::ScriptOrigin => "script-origin",
        SecurityCause::ScopeOrigin => "scope-origin",
        SecurityCause::Mime => "mime",
        SecurityCause::Scope => "scope",
    }
}

/// The word for the cause of an InvalidStateError.
pub fn state_word(cause: StateCause) -> &'static str
    ensures { result.now ≡ state_word cause }
{
    match cause {
        StateCause::NoWorker => "no-worker",
        StateCause::NotActive => "not-active",
        StateCause::Installing => "installing",
    }
}

/// The word for a truth value.
pub fn truth_word(truth: bool) -> &'static str
    ensures { result.now ≡ truth_word truth }
{
    if truth { "true" } else { "false" }
}

// A TypeError, with its index behind a space where it has one.
fn type_error_text(alloc: Global, cause: Cause, index: Option<u32>) -> Result<String, AllocError>
    ensures { IfOk result (λ text. string_bytes text ≡ fault_text (Fault.TypeError cause index)) }
{
    let word = cause_word(cause);
    match index {
        None => format!(in alloc; "TypeError {word}"),
        Some(index) => format!(in alloc; "TypeError {word} {index}"),
    }
}

// A SecurityError.
fn security_error_text(alloc: Global, cause: SecurityCause) -> Result<String, AllocError>
    ensures { IfOk result (λ text. string_bytes text ≡ fault_text (Fault.SecurityError cause)) }
{
    let word = security_word(cause);
    format!(in alloc; "SecurityError {word}")
}

// An InvalidStateError with a cause.
fn state_error_text(alloc: Global, cause: StateCause) -> Result<String, AllocError>
    ensures { IfOk result (λ text. string_bytes text ≡ fault_text (Fault.InvalidState cause)) }
{
    let word = state_word(cause);
    format!(in alloc; "InvalidStateError {word}")
}

/// The text of a fault.
pub fn fault_text(alloc: Global, fault: Fault) -> Result<String, AllocError>
    ensures { IfOk result (λ text. string_bytes text ≡ fault_text fault) }
{
    match fault {
        Fault::TypeError { cause, index } => type_error_text(alloc, cause, index),
        Fault::SecurityError(cause) => security_error_text(alloc, cause),
        Fault::InvalidState(cause) => state_error_text(alloc, cause),
        Fault::InvalidStateAt { index } => format!(in alloc; "InvalidStateError {index}"),
        Fault::Quota => String::from_str(alloc, "QuotaExceededError"),
        Fault::CacheGone => String::from_str(alloc, "CacheGone"),
        Fault::NoRegistration => String::from_str(alloc, "NoRegistration"),
    }
}

/// The text of the value that a promise settled with.
pub fn settlement_text(alloc: Global, value: Settlement) -> Result<String, AllocError>
    ensures { IfOk result (λ text. string_bytes text ≡ settlement_text value) }
{
    match value {
        Settlement::Done => String::from_str(alloc, "ok"),
        Settlement::Registration(number) => format!(in alloc; "r{number}"),
        Settlement::Truth(truth) => String::from_str(alloc, truth_word(truth)),
        Settlement::Fault(fault) => fault_text(alloc, fault),
    }
}
