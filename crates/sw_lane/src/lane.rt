//! One lane.

ghost use Rattle.std.specs.Prelude.{◌≡◌, ◌^◌, ◌<◌, ◌+◌, true, length, is_some, Some, option_map, slice_get, IfSome};
ghost use Rattle.sw_lane.specs.Left.{Left, begun, next_taken};

use std::collections::VecDeque;
use std::marker::Model;
use sw_data::{Action, Items};

// The position of a lane, and the actions that it goes on with.
#[derive(Drop)]
pub(crate) struct Lane {
    at: u32,
    left: VecDeque<Action>,
}

impl Model for Lane {
    ghost use Rattle.std.specs.Prelude.{◌<◌, ◌≤◌, ◌^◌, ◌+◌, length};
    ghost use Rattle.std.specs.VecDeque.{deque_capacity};
    ghost use Rattle.sw_lane.specs.Left.{Left};

    ghost Value = { Left };

    ghost view = { λ lane. record { at = lane.at; actions = lane.left.items } };

    // There is room for each action that was taken.
    ghost invariant = { λ lane. (lane.at + length lane.left.items < 2 ^ 32)
        × (lane.at + length lane.left.items ≤ deque_capacity lane.left) };
}

impl Lane {
    // A lane at its beginning; none where its positions would pass their type. It takes no memory.
    pub(crate) fn new(actions: Items<Action>) -> Option<Lane>
        ensures { IfSome result (λ lane. lane ≡ begun actions) }
    {
        let actions = actions.into_vec();
        if actions.len() > u32::MAX as usize {
            return None;
        }
        Some(Lane {
            at: 0,
            left: VecDeque::from_vec(actions),
        })
    }

    // The position of the next action; it takes no memory.
    pub(crate) fn at(&self) -> u32
        ensures { result ≡ self.now.at }
    {
        self.at
    }

    // The next action; it takes no memory.
    pub(crate) fn next(&self) -> Option<&Action>
        ensures { option_map (λ action. action.now) result ≡ slice_get self.now.actions 0 }
    {
        self.left.front()
    }

    // Takes the next action; it takes no memory.
    pub(crate) fn take(&mut self) -> Action
        requires { is_some (slice_get self.old.actions 0) ≡ true }
        ensures action { slice_get self.old.actions 0 ≡ Some result }
        ensures moved { self.new ≡ next_taken self.old }
    {
        match self.left.pop_front() {
            Some(action) => {
                self.at += 1;
                action
            }
            None => unreachable!(),
        }
    }

    // Puts back the action that was taken last; it takes no memory.
    pub(crate) fn put_back(&mut self, action: Action)
        requires { (before : Left) × (next_taken before ≡ self.old)
            × (slice_get before.actions 0 ≡ Some action) }
        ensures { (before : Left) → next_taken before ≡ self.old
            → slice_get before.actions 0 ≡ Some action → self.new ≡ before }
    {
        self.at -= 1;
        self.left.push_front_reserved(action);
    }
}
