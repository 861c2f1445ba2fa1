//! What a check answers, and what is stored of a script.

use sw_data::{Bytes, Items, Text};

/// Why a check failed.
#[derive(Debug, Clone, Copy, PartialEq, Eq)]
pub enum ImportCause {
    /// The script's fetch was a network error.
    Network,
    /// The script's response isn't JavaScript.
    Mime,
    /// The status of the script's response is outside 200 to 299.
    Status,
    /// An import is no http or https address, or its response is bad.
    Import,
}

/// The answer to a check, and how many fetches it made.
#[derive(Debug, Clone, Copy, PartialEq, Eq)]
pub enum Checked {
    /// What is stored stays.
    Failed { cause: ImportCause, fetches: u32 },
    /// The script's body and each good response for a stored resource are as stored. What is stored stays.
    Unchanged { fetches: u32 },
    /// The new store has so many resources.
    Changed { fetches: u32, resources: u32 },
}

/// An imported script that is stored: its parsed address without its fragment, and its body.
#[derive(Drop)]
pub struct Resource {
    pub address: Text,
    pub body: Bytes,
}

/// What is stored of a script: its body, and the scripts that it imports, in the order in which they were fetched.
#[derive(Drop)]
pub struct Store {
    pub body: Bytes,
    pub resources: Items<Resource>,
}

/// What a check comes to for its script.
#[derive(Drop)]
pub enum Outcome {
    Failed(ImportCause),
    Unchanged,
    Changed(Store),
}
