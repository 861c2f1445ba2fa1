//! What was read of a recording so far, and one line more.

ghost use Rattle.std.specs.Prelude.{◌≡◌, ◌<◌, length, IfOk};
ghost use Rattle.serde_json.specs.View.{view};
ghost use Rattle.sw_data.specs.declared.recordings.Action.{Action};
ghost use Rattle.sw_record.specs.Grammar as grammar;

use crate::actions::lane_line;
use crate::lines::FromLines;
use serde_json::Value;
use std::alloc::Global;
use sw_data::{Action, FetchLine, Items, NoMemory, Recording};
use sw_forms::{ACTIONS_LIMIT, Flaw, Limit, LineCause, Part, fetch_line, needs};

/// The recording of the lines so far, and the count of its actions.
#[derive(Drop)]
pub struct Reading {
    pub recording: Recording,
    pub actions: usize,
}

/// Nothing was read.
pub fn nothing_read(alloc: Global) -> Reading
    ensures { result ≡ grammar.nothing_read }
{
    Reading {
        recording: Recording {
            fetches: Items::new(alloc),
            lanes: Items::new(alloc),
        },
        actions: 0,
    }
}

/// The action's promise can be awaited.
pub fn has_promise(action: &Action) -> bool
    ensures { result ≡ grammar.has_promise action.now }
{
    match action {
        Action::Register(_) | Action::Update(_) | Action::Unregister(_) | Action::AddAll { .. } =>
            true,
        _ => false,
    }
}

// There is an action at a position of a lane so far, and its promise can be awaited.
fn is_promise_at(lanes: &[Items<Action>], lane: usize, at: usize) -> bool
    ensures { result ≡ grammar.is_promise (grammar.action_so_far lane at lanes.now) }
{
    match lanes.get(lane) {
        Some(actions) => match actions.as_slice().get(at) {
            Some(action) => has_promise(action),
            None => false,
        },
        None => false,
    }
}

// An action may stand behind those of its lane.
fn may_follow(lane: usize, next: &Action, lanes: &[Items<Action>]) -> bool
    ensures { result ≡ grammar.may_follow lane next.now lanes.now }
{
    match next {
        Action::Await { of } => is_promise_at(lanes, lane, *of as usize),
        _ => true,
    }
}

// The lanes, and empty ones up to this lane.
#[tactic(auto, using(crate::proofs::LineLemmas::with_action_padded))]
fn with_lane(
    alloc: Global,
    lanes: Vec<Items<Action>>,
    lane: usize,
) -> Result<Vec<Items<Action>>, NoMemory>
    ensures longer { IfOk result (λ all. lane < length all.items) }
    ensures same { IfOk result (λ all. (next : Action) →
        grammar.with_action lane next all.items ≡ grammar.with_action lane next lanes.items) }
{
    let mut all = lanes;
    while all.len() <= lane {
        all.push(Items::new(alloc))?;
    }
    Ok(all)
}

// The lanes with a further action of a lane.
#[tactic(auto, using(crate::proofs::LineLemmas::with_action_set))]
fn with_action(
    alloc: Global,
    lanes: Vec<Items<Action>>,
    lane: usize,
    next: Action,
) -> Result<Vec<Items<Action>>, NoMemory>
    ensures { IfOk result (λ all. all.items ≡ grammar.with_action lane next lanes.items) }
{
    let mut all = with_lane(alloc, lanes, lane)?;
    all[lane].push(next)?;
    Ok(all)
}

// A further fetch line.
fn with_fetch(so_far: Reading, line: FetchLine) -> Result<Reading, NoMemory>
    ensures { IfOk result (λ reading. reading ≡ grammar.with_fetch so_far line) }
{
    let Reading { recording, actions } = so_far;
    let Recording { mut fetches, lanes } = recording;
    fetches.push(line)?;
    Ok(Reading {
        recording: Recording { fetches, lanes },
        actions,
    })
}

// A further action.
fn with_lane_action(
    alloc: Global,
    so_far: Reading,
    lane: usize,
    next: Action,
) -> Result<Reading, NoMemory>
    ensures { IfOk result (λ reading. reading ≡ grammar.with_lane_action so_far lane next) }
{
    let Reading { recording, actions } = so_far;
    let Recording { fetches, lanes } = recording;
    let lanes = with_action(alloc, lanes.into_vec(), lane, next)?;
    let Some(actions) = actions.checked_add(1) else {
        return Err(NoMemory);
    };
    Ok(Reading {
        recording: Recording {
            fetches,
            lanes: Items::from_vec(lanes),
        },
        actions,
    })
}

// A further action, where it may follow.
fn followed(alloc: Global, so_far: Reading, lane: usize, next: Action) -> Part<Reading>
    ensures { IfOk result (λ reading. reading ≡ grammar.followed so_far lane next) }
{
    if !may_follow(lane, &next, so_far.recording.lanes.as_slice()) {
        return Ok(Err(Flaw::Cause(LineCause::Await)));
    }
    Ok(Ok(with_lane_action(alloc, so_far, lane, next)?))
}

// What was read with a lane line.
fn with_lane_line(alloc: Global, so_far: Reading, value: &Value) -> Part<Reading>
    ensures { IfOk result (λ reading. reading
        ≡ grammar.with_lane_line so_far (view value.now)) }
{
    let line = lane_line(alloc, value)?;
    let few = so_far.actions < ACTIONS_LIMIT;
    match needs(few, Flaw::Limit(Limit::Actions), line) {
        Ok((lane, next)) => followed(alloc, so_far, lane, next),
        Err(why) => Ok(Err(why)),
    }
}

impl FromLines for Reading {
    ghost use Rattle.sw_record.specs.Grammar.{with_value};

    ghost reads = { with_value };

    // A fetch line, or a lane line.
    #[tactic(auto, unfolding(crate::specs::Grammar::with_value))]
    fn with_value(self, alloc: Global, value: &Value) -> Part<Reading> {
        match value.get("fetch") {
            Some(address) => match fetch_line(alloc, address, value)? {
                Ok(line) => Ok(Ok(with_fetch(self, line)?)),
                Err(why) => Ok(Err(why)),
            },
            None => with_lane_line(alloc, self, value),
        }
    }
}
