//! What a pass knows, as plain data that exists in proofs alone. No value of these types is made.
use std::collections::LinkedList;

/// Its place in the turn.
pub enum Place {
    Away,
    Out,
    Counted,
}

/// What a pass has seen and what numbers it was given.
pub struct Note<E> {
    pub number: u64,
    pub seen: LinkedList<E>,
    pub known: u64,
}

pub struct View<V, E> {
    /// The value that the lock was made with.
    pub opened: Option<V>,
    pub number: u64,
    pub ticket: Option<u64>,
    pub place: Place,
    /// The history, as far as the pass has seen it.
    pub seen: LinkedList<E>,
    /// The largest number of entries that the pass was told.
    pub known: u64,
    pub turns: u64,
    /// How many passes it stands for. At 0 it is spent.
    pub passes: u64,
    /// How many views there are, kept by the first one alone.
    pub made: u64,
    /// What it holds of passes that were joined to it.
    pub joined: LinkedList<Note<E>>,
}
