//! Reading a roster.

ghost use Rattle.std.specs.Prelude.{◌≡◌, ◌<◌, length, option_map, IfOk};
ghost use Rattle.serde_json.specs.View.{view};
ghost use Rattle.sw_readers.specs.Roster as grammar;
ghost use Rattle.sw_readers.specs.Roster.{roster_of};
ghost use Rattle.sw_record.specs.Grammar.{Reads};

use crate::inputs::{RosterLine, RosterRecording};
use serde_json::Value;
use std::alloc::Global;
use sw_data::{Action, FetchLine, Items, NoMemory};
use sw_forms::{
    ACTIONS_LIMIT, Flaw, Limit, LineCause, NO_FORM, Part, RecordingError, both, fetch_line,
    has_only, needs, number_member, number_of, truth_of,
};
use sw_record::{FromLines, action_member, has_promise, lane_member, read_lines};

/// The lines so far, and of each action of the lane whether its promise can be awaited.
#[derive(Drop)]
pub struct RosterReading {
    pub recording: RosterRecording,
    pub promises: Items<bool>,
}

// Nothing was read.
fn nothing_read(alloc: Global) -> RosterReading
    ensures { result ≡ grammar.nothing_read }
{
    RosterReading {
        recording: RosterRecording {
            fetches: Items::new(alloc),
            lines: Items::new(alloc),
        },
        promises: Items::new(alloc),
    }
}

// A client is focused.
#[tactic(auto, unfolding(crate::specs::Roster::focus_line))]
fn focus_line(client: &Value, value: &Value) -> Result<RosterLine, Flaw>
    ensures { result ≡ grammar.focus_line (view client.now) (view value.now) }
{
    if !has_only(&["focus"], value) {
        return Err(NO_FORM);
    }
    number_of(client).map(|client| RosterLine::Focus(client))
}

// A worker asks for a client.
#[tactic(auto, unfolding(crate::specs::Roster::get_line))]
fn get_line(client: &Value, value: &Value) -> Result<RosterLine, Flaw>
    ensures { result ≡ grammar.get_line (view client.now) (view value.now) }
{
    if !has_only(&["get", "worker"], value) {
        return Err(NO_FORM);
    }
    let worker = number_member(value.get("worker"));
    both(number_of(client), worker).map(|(client, worker)| RosterLine::Get { client, worker })
}

// Whether the clients that the worker doesn't control are asked for too.
fn uncontrolled_member(value: &Value) -> Result<bool, Flaw>
    ensures { result ≡ grammar.uncontrolled_member (view value.now) }
{
    match value.get("uncontrolled") {
        Some(truth) => truth_of(truth),
        None => Err(NO_FORM),
    }
}

// A worker asks for its clients.
#[tactic(auto, unfolding(crate::specs::Roster::list_line))]
fn list_line(worker: &Value, value: &Value) -> Result<RosterLine, Flaw>
    ensures { result ≡ grammar.list_line (view worker.now) (view value.now) }
{
    if !has_only(&["list", "uncontrolled"], value) {
        return Err(NO_FORM);
    }
    let uncontrolled = uncontrolled_member(value);
    both(number_of(worker), uncontrolled).map(|(worker, uncontrolled)| RosterLine::List {
        worker,
        uncontrolled,
    })
}

#[tactic(auto, unfolding(crate::specs::Roster::list_asked))]
fn list_asked(value: &Value) -> Option<Result<RosterLine, Flaw>>
    ensures { result ≡ grammar.list_asked (view value.now) }
{
    match value.get("list") {
        Some(worker) => Some(list_line(worker, value)),
        None => None,
    }
}

#[tactic(auto, unfolding(crate::specs::Roster::get_asked))]
fn get_asked(value: &Value) -> Option<Result<RosterLine, Flaw>>
    ensures { result ≡ grammar.get_asked (view value.now) }
{
    match value.get("get") {
        Some(client) => Some(get_line(client, value)),
        None => list_asked(value),
    }
}

// What a line asks of the clients, if it does.
#[tactic(auto, unfolding(crate::specs::Roster::asked))]
fn asked(value: &Value) -> Option<Result<RosterLine, Flaw>>
    ensures { result ≡ grammar.asked (view value.now) }
{
    match value.get("focus") {
        Some(client) => Some(focus_line(client, value)),
        None => get_asked(value),
    }
}

// A roster has lane 0 alone.
fn only_lane(lane: Result<usize, Flaw>) -> Result<usize, Flaw>
    ensures { result ≡ grammar.only_lane lane }
{
    match lane {
        Ok(0) => Ok(0),
        Ok(_) => Err(NO_FORM),
        Err(why) => Err(why),
    }
}

// The action of a lane line.
#[tactic(auto, unfolding(crate::specs::Roster::roster_action))]
fn roster_action(alloc: Global, value: &Value) -> Part<Action>
    ensures { IfOk result (λ action. action ≡ grammar.roster_action (view value.now)) }
{
    let action = action_member(alloc, value)?;
    Ok(both(only_lane(lane_member(value)), action).map(|(_, action)| action))
}

// An action may stand behind those of the lane.
fn may_follow(promises: &[bool], next: &Action) -> bool
    ensures { result ≡ grammar.may_follow promises.now next.now }
{
    match next {
        Action::Await { of } => match promises.get(*of as usize) {
            Some(can) => *can,
            None => false,
        },
        _ => true,
    }
}

// A further fetch line.
fn with_fetch(so_far: RosterReading, next: FetchLine) -> Result<RosterReading, NoMemory>
    ensures { IfOk result (λ reading. reading ≡ grammar.with_fetch so_far next) }
{
    let RosterReading {
        recording,
        promises,
    } = so_far;
    let RosterRecording { mut fetches, lines } = recording;
    fetches.push(next)?;
    Ok(RosterReading {
        recording: RosterRecording { fetches, lines },
        promises,
    })
}

// A further line.
fn with_line(so_far: RosterReading, next: RosterLine) -> Result<RosterReading, NoMemory>
    ensures { IfOk result (λ reading. reading ≡ grammar.with_line so_far next) }
{
    let RosterReading {
        recording,
        promises,
    } = so_far;
    let RosterRecording { fetches, mut lines } = recording;
    lines.push(next)?;
    Ok(RosterReading {
        recording: RosterRecording { fetches, lines },
        promises,
    })
}

// A further action.
fn with_action(so_far: RosterReading, next: Action) -> Result<RosterReading, NoMemory>
    ensures { IfOk result (λ reading. reading ≡ grammar.with_action so_far next) }
{
    let can = has_promise(&next);
    let RosterReading {
        recording,
        mut promises,
    } = with_line(so_far, RosterLine::Action(next))?;
    promises.push(can)?;
    Ok(RosterReading {
        recording,
        promises,
    })
}

// A further action, where it may follow.
fn followed(so_far: RosterReading, next: Action) -> Part<RosterReading>
    ensures { IfOk result (λ reading. reading ≡ grammar.followed so_far next) }
{
    if !may_follow(so_far.promises.as_slice(), &next) {
        return Ok(Err(Flaw::Cause(LineCause::Await)));
    }
    Ok(Ok(with_action(so_far, next)?))
}

// What was read with a lane line.
fn with_lane_line(alloc: Global, so_far: RosterReading, value: &Value) -> Part<RosterReading>
    ensures { IfOk result (λ reading. reading ≡ grammar.with_lane_line so_far (view value.now)) }
{
    let action = roster_action(alloc, value)?;
    let few = so_far.promises.as_slice().len() < ACTIONS_LIMIT;
    match needs(few, Flaw::Limit(Limit::Actions), action) {
        Ok(next) => followed(so_far, next),
        Err(why) => Ok(Err(why)),
    }
}

// What was read with a line that is no fetch line.
#[tactic(auto, unfolding(crate::specs::Roster::with_roster_line))]
fn with_roster_line(alloc: Global, so_far: RosterReading, value: &Value) -> Part<RosterReading>
    ensures { IfOk result (λ reading. reading
        ≡ grammar.with_roster_line so_far (view value.now)) }
{
    match asked(value) {
        Some(Ok(next)) => Ok(Ok(with_line(so_far, next)?)),
        Some(Err(why)) => Ok(Err(why)),
        None => with_lane_line(alloc, so_far, value),
    }
}

impl FromLines for RosterReading {
    ghost use Rattle.sw_readers.specs.Roster.{with_value};

    ghost reads = { with_value };

    // A fetch line, what is asked of the clients, or a lane line.
    #[tactic(auto, unfolding(crate::specs::Roster::with_value))]
    fn with_value(self, alloc: Global, value: &Value) -> Part<RosterReading> {
        match value.get("fetch") {
            Some(address) => match fetch_line(alloc, address, value)? {
                Ok(line) => Ok(Ok(with_fetch(self, line)?)),
                Err(why) => Ok(Err(why)),
            },
            None => with_roster_line(alloc, self, value),
        }
    }
}

/// The roster that a source's bytes are: one JSON object on each line, blank lines being skipped but
/// counted.
///
/// `BadLine` and `TooLarge` tell the first bad line, counted from 1, and of its flaws the one that is tested
/// first.
#[tactic(auto, unfolding(crate::specs::Roster::roster_of))]
pub fn read_roster(alloc: Global, bytes: &[u8]) -> Result<RosterRecording, RecordingError>
    ensures { Reads result (roster_of bytes.now) }
{
    match read_lines(alloc, nothing_read(alloc), bytes) {
        Ok(reading) => Ok(reading.recording),
        Err(why) => Err(why),
    }
}
