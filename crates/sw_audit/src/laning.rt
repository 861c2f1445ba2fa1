//! The events of lanes.

ghost use Rattle.std.specs.Prelude.{◌≡◌, List, None, IfSome};
ghost use Rattle.sw_audit.specs.Continuing.{IsBarred};
ghost use Rattle.sw_audit.specs.Taken.{IsTaken};
ghost use Rattle.sw_audit.specs.declared.marks.Mark.TheVariants as mark;
ghost use Rattle.sw_data.specs.declared.histories.Entry as past;
ghost use Rattle.sw_data.specs.declared.recordings.Recording.{Recording};
ghost use Rattle.sw_lane.specs.Picked.{is_ready};
ghost use Rattle.sw_lane.specs.Recorded.{AreLanesOf};

use sw_data::{Event, Who, event_of_action};
use sw_lane::{Board, Lanes};

// Whether the next action of a lane may happen.
fn is_ready<B: Board>(lanes: &Lanes, board: &B, lane: u32) -> bool
    ensures { result ≡ is_ready (B.state board.now) lanes.now lane }
{
    match lanes.action(lane) {
        Some(action) => board.lane_ready(lane, action),
        None => false,
    }
}

// The event of a lane's next action, which is taken, where it may happen. None exactly where it may not.
pub(crate) fn lane_event<B: Board>(lanes: &mut Lanes, board: &B, lane: u32) -> Option<Event>
    ensures some { (recording : Recording) (before : List past.Entry)
        → AreLanesOf recording before lanes.old → IfSome result
        (IsTaken recording before (B.state board.now) (mark.Lane lane) lanes.new) }
    ensures none { (recording : Recording) (before : List past.Entry)
        → AreLanesOf recording before lanes.old → result ≡ None
        → IsBarred recording before (B.state board.now) (mark.Lane lane) }
    ensures same { result ≡ None → lanes.new ≡ lanes.old }
{
    if !is_ready(lanes, board, lane) {
        return None;
    }
    let at = lanes.at(lane);
    let action = lanes.take(lane);
    Some(event_of_action(Who::Lane { lane, at }, action))
}
