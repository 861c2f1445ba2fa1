//! A host as the board that lanes are picked by.

ghost use Rattle.std.specs.Prelude.{◌≡◌, ◌<◌, ◌^◌, true, length};
ghost use Rattle.std.specs.List.{list_all};
ghost use Rattle.sw_lane.specs.Picked.{in_flight, is_fetch};

use crate::core_tables::Core;
use sw_data::{Action, Task};
use sw_lane::Board;
use sw_next::many_in_flight;

/// A host as the board that lanes are picked by, while passes have these fetches in flight.
#[derive(Clone, Copy)]
pub struct CoreBoard<'a> {
    pub core: &'a Core,
    pub flights: &'a [Option<Task>],
    ghost fetches: { list_all is_fetch (in_flight flights.now) ≡ true },
    ghost few: { length flights.now < 2 ^ 32 },
}

impl Board for CoreBoard<'_> {
    ghost use Rattle.sw_lane.specs.Picked as lane;
    ghost use Rattle.sw_state.specs.Hosted.{state_of};

    ghost state = { λ board. state_of board.core.now };

    ghost in_flight = { λ board. lane.in_flight board.flights.now };

    #[tactic(auto, unfolding(sw_rules::specs::Step::step, sw_data::specs::Events::event_of_action, sw_data::specs::Events::who_of))]
    fn lane_ready(&self, lane: u32, action: &Action) -> bool {
        match action {
            Action::Await { of } => self.core.has_settled(lane, *of),
            Action::Ready { client } => self.core.is_ready(*client),
            Action::Begin { client, .. } => self.core.may_begin(*client),
            _ => true,
        }
    }

    fn next_task(&self) -> Option<Task> {
        self.core.next_task(self.flights)
    }

    fn in_flight(&self) -> u32 {
        many_in_flight(self.flights)
    }
}
