//! What a board says, and what is picked.

ghost use Rattle.std.specs.Prelude.{◌≡◌, ℕ, List, length};
ghost use Rattle.sw_data.specs.declared.events.Who.TheVariants.{Lane};
ghost use Rattle.sw_data.specs.declared.histories.Task.{Task};
ghost use Rattle.sw_data.specs.Events.{event_of_action};
ghost use Rattle.sw_rules.specs.State.{State};
ghost use Rattle.sw_rules.specs.Step.{enabled};
ghost use Rattle.sw_lane.specs.Picked.{task_left};

use sw_data::{Action, Task};

/// What may happen in a state, while some tasks are in flight.
pub trait Board {
    /// The state.
    ghost state: { Self → State };

    /// The tasks that were taken up, and whose events have not happened.
    ghost in_flight: { Self → List Task };

    /// Whether this action may happen as the next one of this lane.
    fn lane_ready(&self, lane: u32, action: &Action) -> bool
        ensures { (at : ℕ) → result
            ≡ enabled (state self.now) (event_of_action (Lane lane at) action.now) };

    /// The first ready task that isn't in flight.
    fn next_task(&self) -> Option<Task>
        ensures { result ≡ task_left (state self.now) (in_flight self.now) };

    /// How many tasks are in flight.
    fn in_flight(&self) -> u32
        ensures { result ≡ length (in_flight self.now) };
}

/// What is to be done.
#[derive(Debug, Clone, Copy, PartialEq, Eq)]
pub enum Work {
    /// The action of a lane at its position.
    Action { lane: u32, at: u32 },
    Task(Task),
}

/// What is picked.
#[derive(Debug, Clone, Copy, PartialEq, Eq)]
pub enum Pick {
    Work(Work),
    /// Nothing is ready, and something is in flight.
    Idle,
    /// Nothing is ready and nothing is in flight, and every lane is at its end.
    Done,
    /// Nothing is ready and nothing is in flight, and this is the lowest lane with actions left.
    Stalled(u32),
}
