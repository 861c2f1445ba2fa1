//! Events: what one algorithm does between two waits, with its maker.

ghost use Rattle.std.specs.Prelude.{◌≡◌, None, Some, if◌then◌else◌};
ghost use Rattle.std.specs.Option.{option_copied};
ghost use Rattle.sw_data.specs.Events.{is_lane, named_client, named_page, who_of};

use crate::base::boxed::Boxed;
use crate::base::items::Items;
use crate::base::text::Text;
use crate::recordings::{
    CacheAddAll, CacheBatch, CacheDelete, CacheMatch, CachePut, CacheQuery, Call, ClientScope,
    FetchLine, Place, Registering,
};
use crate::workers::{Phase, Slot};

/// The maker of an event: the host, a lane's action at its position, or a call of a worker's handler.
#[derive(Debug, Clone, Copy, PartialEq, Eq)]
pub enum Who {
    Host,
    Lane {
        lane: u32,
        at: u32,
    },
    Handler {
        worker: u32,
        phase: Phase,
        call: u32,
    },
}

/// One event. A lane's action has a variant of its own with the action's members; `Call` is a call of a handler as
/// it was recorded; the others are the host's.
#[derive(Drop)]
pub enum Event {
    Open {
        who: Who,
        client: u32,
        url: Text,
        partition: Option<Boxed<Text>>,
    },
    Close {
        who: Who,
        client: u32,
    },
    Register {
        who: Who,
        register: Boxed<Registering>,
    },
    Update {
        who: Who,
        of: ClientScope,
    },
    SoftUpdate {
        who: Who,
        of: ClientScope,
    },
    Unregister {
        who: Who,
        of: ClientScope,
    },
    Await {
        who: Who,
        of: u32,
    },
    Ready {
        who: Who,
        client: u32,
    },
    Registration {
        who: Who,
        client: u32,
        url: Text,
    },
    Registrations {
        who: Who,
        client: u32,
    },
    SkipWaiting {
        who: Who,
        of: ClientScope,
        slot: Slot,
    },
    Claim {
        who: Who,
        of: ClientScope,
        slot: Slot,
    },
    Begin {
        who: Who,
        client: u32,
        event: u32,
    },
    End {
        who: Who,
        event: u32,
    },
    CacheOpen {
        who: Who,
        place: Place,
        name: Text,
    },
    CacheHas {
        who: Who,
        place: Place,
        name: Text,
    },
    CacheDelete {
        who: Who,
        place: Place,
        name: Text,
    },
    CacheKeys {
        who: Who,
        place: Place,
    },
    Forget {
        who: Who,
        place: Place,
    },
    Match {
        who: Who,
        place: Place,
        find: Boxed<CacheMatch>,
    },
    MatchAll {
        who: Who,
        place: Place,
        query: Boxed<CacheQuery>,
    },
    Keys {
        who: Who,
        place: Place,
        query: Boxed<CacheQuery>,
    },
    Put {
        who: Who,
        place: Place,
        put: Boxed<CachePut>,
    },
    Delete {
        who: Who,
        place: Place,
        delete: Boxed<CacheDelete>,
    },
    Batch {
        who: Who,
        place: Place,
        batch: Boxed<CacheBatch>,
    },
    AddAll {
        who: Who,
        place: Place,
        add: Boxed<CacheAddAll>,
    },
    PreloadEnable {
        who: Who,
        of: ClientScope,
    },
    PreloadDisable {
        who: Who,
        of: ClientScope,
    },
    PreloadValue {
        who: Who,
        of: ClientScope,
        value: Text,
    },
    PreloadState {
        who: Who,
        of: ClientScope,
    },
    Call {
        who: Who,
        call: Call,
    },
    Run {
        who: Who,
        job: u32,
    },
    /// The fetch of a job's script has ended; no line is a network error.
    Fetched {
        who: Who,
        job: u32,
        line: Option<Boxed<FetchLine>>,
    },
    Evaluated {
        who: Who,
        job: u32,
    },
    Installed {
        who: Who,
        job: u32,
    },
    TryActivate {
        who: Who,
        registration: u32,
    },
    Activated {
        who: Who,
        worker: u32,
    },
    /// The fetches of an addAll have ended, in the order of its requests; no line is a network error.
    Added {
        who: Who,
        task: u32,
        lines: Items<Option<FetchLine>>,
    },
    Restarted {
        who: Who,
    },
}

// A page, where a lane names it.
fn page_of_lane(who: Who, place: &Place) -> Option<&Place>
    ensures { option_copied result ≡ (if is_lane who then Some place.now else None) }
{
    match who {
        Who::Lane { .. } => Some(place),
        _ => None,
    }
}

impl Event {
    /// The maker of an event.
    #[tactic(auto, unfolding(crate::specs::Events::who_of))]
    pub fn who(&self) -> Who
        ensures { result ≡ who_of self.now }
    {
        match self {
            Event::Open { who, .. } => *who,
            Event::Close { who, .. } => *who,
            Event::Register { who, .. } => *who,
            Event::Update { who, .. } => *who,
            Event::SoftUpdate { who, .. } => *who,
            Event::Unregister { who, .. } => *who,
            Event::Await { who, .. } => *who,
            Event::Ready { who, .. } => *who,
            Event::Registration { who, .. } => *who,
            Event::Registrations { who, .. } => *who,
            Event::SkipWaiting { who, .. } => *who,
            Event::Claim { who, .. } => *who,
            Event::Begin { who, .. } => *who,
            Event::End { who, .. } => *who,
            Event::CacheOpen { who, .. } => *who,
            Event::CacheHas { who, .. } => *who,
            Event::CacheDelete { who, .. } => *who,
            Event::CacheKeys { who, .. } => *who,
            Event::Forget { who, .. } => *who,
            Event::Match { who, .. } => *who,
            Event::MatchAll { who, .. } => *who,
            Event::Keys { who, .. } => *who,
            Event::Put { who, .. } => *who,
            Event::Delete { who, .. } => *who,
            Event::Batch { who, .. } => *who,
            Event::AddAll { who, .. } => *who,
            Event::PreloadEnable { who, .. } => *who,
            Event::PreloadDisable { who, .. } => *who,
            Event::PreloadValue { who, .. } => *who,
            Event::PreloadState { who, .. } => *who,
            Event::Call { who, .. } => *who,
            Event::Run { who, .. } => *who,
            Event::Fetched { who, .. } => *who,
            Event::Evaluated { who, .. } => *who,
            Event::Installed { who, .. } => *who,
            Event::TryActivate { who, .. } => *who,
            Event::Activated { who, .. } => *who,
            Event::Added { who, .. } => *who,
            Event::Restarted { who } => *who,
        }
    }

    /// The client that an action names, which `await` and `end` don't. It takes no memory.
    #[tactic(auto, unfolding(crate::specs::Events::named_client))]
    pub fn named_client(&self) -> Option<u32>
        ensures { result ≡ named_client self.now }
    {
        match self {
            Event::Open { client, .. }
            | Event::Close { client, .. }
            | Event::Ready { client, .. }
            | Event::Registration { client, .. }
            | Event::Registrations { client, .. }
            | Event::Begin { client, .. } => Some(*client),
            Event::Register { register, .. } => Some(register.get().client),
            Event::Update { of, .. }
            | Event::SoftUpdate { of, .. }
            | Event::Unregister { of, .. }
            | Event::SkipWaiting { of, .. }
            | Event::Claim { of, .. }
            | Event::PreloadEnable { of, .. }
            | Event::PreloadDisable { of, .. }
            | Event::PreloadValue { of, .. }
            | Event::PreloadState { of, .. } => Some(of.client),
            _ => None,
        }
    }

    /// The page that an action on caches names, or a lane that forgets a key. It takes no memory.
    #[tactic(auto, unfolding(crate::specs::Events::named_page))]
    pub fn named_page(&self) -> Option<&Place>
        ensures { option_copied result ≡ named_page self.now }
    {
        match self {
            Event::CacheOpen { place, .. }
            | Event::CacheHas { place, .. }
            | Event::CacheDelete { place, .. }
            | Event::CacheKeys { place, .. }
            | Event::Match { place, .. }
            | Event::MatchAll { place, .. }
            | Event::Keys { place, .. }
            | Event::Put { place, .. }
            | Event::Delete { place, .. }
            | Event::Batch { place, .. }
            | Event::AddAll { place, .. } => Some(place),
            Event::Forget { who, place } => page_of_lane(*who, place),
            _ => None,
        }
    }
}
