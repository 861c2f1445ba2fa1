//! Workers, registrations and the words for their states.

/// The update-via-cache mode of a registration (Service Workers, "ServiceWorkerUpdateViaCache").
#[derive(Debug, Clone, Copy, PartialEq, Eq)]
pub enum Mode {
    Imports,
    All,
    /// The standard's `none`.
    Never,
}

/// The type of a worker's script.
#[derive(Debug, Clone, Copy, PartialEq, Eq)]
pub enum Kind {
    Classic,
    Module,
}

/// The state of a worker (Service Workers, "ServiceWorkerState").
#[derive(Debug, Clone, Copy, PartialEq, Eq)]
pub enum WorkerState {
    Parsed,
    Installing,
    Installed,
    Activating,
    Activated,
    Redundant,
}

/// A place for a worker in its registration.
#[derive(Debug, Clone, Copy, PartialEq, Eq)]
pub enum Slot {
    Installing,
    Waiting,
    Active,
}

/// Which of a worker's two handlers.
#[derive(Debug, Clone, Copy, PartialEq, Eq)]
pub enum Phase {
    Install,
    Activate,
}
