//! What the lines of the commands beside `replay` hold, as plain data: the checks of imported scripts, the lines of a
//! roster, and the look-ups beside a replay.
use sw_data::{Action, Boxed, FetchLine, Items, Recording, Text};

/// One answer of the network for an address, with what the script in it imports.
#[derive(Drop)]
pub struct ImportFetch {
    pub line: FetchLine,
    /// The texts that the script imports, in order, as they are written.
    pub imports: Items<Text>,
}

/// The answers of the network in order, and the scripts that are checked, in order: parsed addresses without their
/// fragments.
#[derive(Drop)]
pub struct ImportRecording {
    pub fetches: Items<ImportFetch>,
    pub checks: Items<Text>,
}

/// One line of a roster: an action of the one lane, or what is asked of the clients.
#[derive(Drop)]
pub enum RosterLine {
    Action(Action),
    /// This client is focused.
    Focus(u32),
    /// A worker asks for a client by its number.
    Get { client: u32, worker: u32 },
    /// A worker asks for its clients, those that it doesn't control too or not.
    List { worker: u32, uncontrolled: bool },
}

/// The answers of the network in order, and the lines of a roster, in order.
#[derive(Drop)]
pub struct RosterRecording {
    pub fetches: Items<FetchLine>,
    pub lines: Items<RosterLine>,
}

/// One look-up beside a replay: a parsed address without its fragment, and a partition if it has one.
#[derive(Drop)]
pub struct LookLine {
    pub address: Text,
    pub partition: Option<Boxed<Text>>,
}

/// A recording, and the look-ups beside its replay, in order.
#[derive(Drop)]
pub struct WatchedRecording {
    pub recording: Recording,
    pub looks: Items<LookLine>,
}
