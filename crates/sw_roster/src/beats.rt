//! What happens on a roster, in order, and how that ends.

use sw_data::{Entry, Items};
use sw_readers::RosterLine;

/// What is answered to what is asked of the clients.
#[derive(Drop)]
pub enum RosterAnswer {
    /// The client has the focus.
    Ok,
    Client(u32),
    Undefined,
    Clients(Items<u32>),
    NoClient,
    NoWorker,
}

/// One thing after another: an event that happened, or what was asked of the clients, with its answer.
#[derive(Drop)]
pub enum Beat {
    Happened(Entry),
    Asked {
        line: RosterLine,
        answer: RosterAnswer,
    },
}

/// How the lines of a roster end.
#[derive(Debug, Clone, Copy, PartialEq, Eq)]
pub enum RosterEnd {
    /// Every line was taken, and no task is ready.
    Done,
    /// The next line is an action that may not happen, and no task is ready.
    Stalled,
    /// There are as many entries as a roster makes, and one more event comes next.
    Spent,
}
