//! The lanes of a recording.

ghost use Rattle.std.specs.Prelude.{◌≡◌, ◌++◌, ◌∷◌, [], ℕ, List, length, true, map, is_some, Some, option_map, IfOk};
ghost use Rattle.sw_data.specs.declared.events.Who.TheVariants as who;
ghost use Rattle.sw_data.specs.declared.histories.Entry.{Entry};
ghost use Rattle.sw_data.specs.declared.recordings.Recording.{Recording};
ghost use Rattle.sw_lane.specs.Left.{Left, begun, at_of, action_of, taken};
ghost use Rattle.sw_lane.specs.Recorded.{AreLanesOf, Says};
ghost use Rattle.sw_lane.specs.Picked.{picked, is_ready, ready_lane, lane_left, at_rest};

use crate::lane::Lane;
use crate::picks::{Board, Pick, Work};
use std::alloc::Global;
use std::marker::Model;
use sw_data::{Action, Items, NoMemory};

/// What is left of each lane of a recording.
#[derive(Drop)]
pub struct Lanes {
    lanes: Vec<Lane>,
}

impl Model for Lanes {
    ghost use Rattle.std.specs.Prelude.{◌<◌, ◌^◌, length, List};
    ghost use Rattle.sw_lane.specs.Left.{Left};

    ghost Value = { List Left };

    ghost view = { λ lanes. lanes.lanes.items };

    ghost invariant = { λ lanes. length lanes.lanes.items < 2 ^ 32 };
}

// The lanes at their beginning.
fn begin(alloc: Global, lanes: Vec<Items<Action>>) -> Result<Vec<Lane>, NoMemory>
    ensures { IfOk result (λ all. all.items ≡ map begun lanes.items) }
{
    let mut all = Vec::new(alloc);
    for actions in lanes {
        match Lane::new(actions) {
            Some(lane) => all.push(lane)?,
            None => return Err(NoMemory),
        }
    }
    Ok(all)
}

impl Lanes {
    /// The lanes of a recording at their beginning. Numbers that would pass their type are want of memory.
    #[tactic(auto, using(crate::proofs::Following::begins))]
    pub fn new(alloc: Global, lanes: Items<Items<Action>>) -> Result<Lanes, NoMemory>
        ensures lanes { IfOk result (λ made. made ≡ map begun lanes) }
        ensures begins { IfOk result (λ made. (recording : Recording)
            → recording.lanes ≡ lanes → AreLanesOf recording [] made) }
    {
        let lanes = lanes.into_vec();
        if lanes.len() > u32::MAX as usize {
            return Err(NoMemory);
        }
        let lanes = begin(alloc, lanes)?;
        Ok(Lanes { lanes })
    }

    /// How many lanes there are; it takes no memory.
    pub fn len(&self) -> u32
        ensures { result ≡ length self.now }
    {
        self.lanes.len() as u32
    }

    /// The next action of a lane, none where the lane is at its end; it takes no memory.
    pub fn action(&self, lane: u32) -> Option<&Action>
        ensures { option_map (λ action. action.now) result ≡ action_of self.now lane }
    {
        self.lanes.get(lane as usize)?.next()
    }

    /// Takes the next action of a lane by value, which has actions left; it takes no memory.
    pub fn take(&mut self, lane: u32) -> Action
        requires { is_some (action_of self.old lane) ≡ true }
        ensures action { action_of self.old lane ≡ Some result }
        ensures moved { self.new ≡ taken lane self.old }
        ensures goes_on { (recording : Recording) (history : List Entry) (entry : Entry) (at : ℕ)
            → AreLanesOf recording history self.old → entry.who ≡ who.Lane lane at
            → AreLanesOf recording (history ++ entry ∷ []) self.new }
    {
        self.take_next(lane)
    }

    // Takes the next action of a lane.
    fn take_next(&mut self, lane: u32) -> Action
        requires { is_some (action_of self.old lane) ≡ true }
        ensures action { action_of self.old lane ≡ Some result }
        ensures moved { self.new ≡ taken lane self.old }
    {
        self.lanes[lane as usize].take()
    }

    /// Puts back the action of a lane that was taken last; it takes no memory.
    pub fn put_back(&mut self, lane: u32, action: Action)
        requires { (before : List Left) × (taken lane before ≡ self.old)
            × (action_of before lane ≡ Some action) }
        ensures { (before : List Left) → taken lane before ≡ self.old
            → action_of before lane ≡ Some action → self.new ≡ before }
    {
        self.lanes[lane as usize].put_back(action);
    }

    /// The position of the next action of a lane, 0 where there is no such lane; it takes no memory.
    pub fn at(&self, lane: u32) -> u32
        ensures { result ≡ at_of self.now lane }
    {
        match self.lanes.get(lane as usize) {
            Some(lane) => lane.at(),
            None => 0,
        }
    }

    // Whether the next action of a lane may happen.
    fn is_ready<B: Board>(&self, board: &B, lane: u32) -> bool
        ensures { result ≡ is_ready (B.state board.now) self.now lane }
    {
        match self.action(lane) {
            Some(action) => board.lane_ready(lane, action),
            None => false,
        }
    }

    // The lowest lane whose next action may happen.
    fn ready_lane<B: Board>(&self, board: &B) -> Option<u32>
        ensures { result ≡ ready_lane (B.state board.now) self.now }
    {
        (0..self.lanes.len() as u32).find(|lane| self.is_ready(board, *lane))
    }

    // The lowest lane with actions left.
    fn lane_left(&self) -> Option<u32>
        ensures { result ≡ lane_left self.now }
    {
        (0..self.lanes.len() as u32).find(|lane| self.action(*lane).is_some())
    }

    // What is picked where nothing is ready.
    fn at_rest(&self, in_flight: u32) -> Pick
        ensures { result ≡ at_rest in_flight self.now }
    {
        if in_flight > 0 {
            return Pick::Idle;
        }
        match self.lane_left() {
            Some(lane) => Pick::Stalled(lane),
            None => Pick::Done,
        }
    }

    /// What is picked; it takes no memory.
    #[tactic(auto, using(crate::proofs::Saying::says))]
    pub fn pick<B: Board>(&self, board: &B) -> Pick
        ensures pick { result ≡ picked (B.state board.now) (B.in_flight board.now) self.now }
        ensures says { (recording : Recording) (history : List Entry)
            → AreLanesOf recording history self.now
            → Says recording history (B.state board.now) (B.in_flight board.now) self.now result }
    {
        self.picked(board)
    }

    // What is picked.
    fn picked<B: Board>(&self, board: &B) -> Pick
        ensures { result ≡ picked (B.state board.now) (B.in_flight board.now) self.now }
    {
        match self.ready_lane(board) {
            Some(lane) => Pick::Work(Work::Action {
                lane,
                at: self.at(lane),
            }),
            None => match board.next_task() {
                Some(task) => Pick::Work(Work::Task(task)),
                None => self.at_rest(board.in_flight()),
            },
        }
    }
}
