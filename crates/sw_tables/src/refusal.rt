//! What an event answers that isn't enabled.

/// The event isn't enabled now, and nothing has changed.
#[derive(Debug, Clone, Copy, PartialEq, Eq)]
pub struct NotNow;
