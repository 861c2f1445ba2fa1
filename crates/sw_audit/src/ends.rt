//! The end that a history has come to.

ghost use Rattle.std.specs.Prelude.{◌≡◌, [], List};
ghost use Rattle.sw_audit.specs.Continuing.{IsEnd};
ghost use Rattle.sw_data.specs.declared.histories.Entry as past;
ghost use Rattle.sw_data.specs.declared.recordings.Recording.{Recording};
ghost use Rattle.sw_lane.specs.Recorded.{AreLanesOf};
ghost use Rattle.sw_laws.specs.Coherent.{Coherent};

use crate::machines::Ending;
use sw_lane::{Board, Lanes, Pick, Work};

// The end that a history has come to, if any, where nothing is in flight.
pub(crate) fn ending<B: Board>(lanes: &Lanes, board: &B) -> Option<Ending>
    requires coherent { Coherent (B.state board.now) }
    requires alone { B.in_flight board.now ≡ [] }
    ensures { (recording : Recording) (history : List past.Entry)
        → AreLanesOf recording history lanes.now
        → IsEnd recording history (B.state board.now) result }
{
    match lanes.pick(board) {
        Pick::Done => Some(Ending::Done),
        Pick::Stalled(lane) => Some(Ending::Stalled(lane)),
        Pick::Work(Work::Action { .. }) => None,
        Pick::Work(Work::Task(_)) => None,
        Pick::Idle => None,
    }
}
