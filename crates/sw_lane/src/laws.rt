//! Laws of the definitions. A call does nothing; its clause is the law.

ghost use Rattle.std.specs.Prelude.{◌≡◌, ◌++◌, ◌∷◌, [], List, false};
ghost use Rattle.sw_data.specs.declared.histories.Entry.{Entry};
ghost use Rattle.sw_data.specs.declared.recordings.Recording.{Recording};
ghost use Rattle.sw_data.specs.Events.{is_lane};
ghost use Rattle.sw_lane.specs.Left.{Left};
ghost use Rattle.sw_lane.specs.Recorded.{AreLanesOf};

/// An entry that no lane made, of the host or of a handler, leaves the lanes as they are.
#[tactic(auto, using(crate::proofs::Following::stays))]
pub fn other_entries_leave_the_lanes()
    ensures { (recording : Recording) (history : List Entry) (lanes : List Left) (entry : Entry)
        → AreLanesOf recording history lanes → is_lane entry.who ≡ false
        → AreLanesOf recording (history ++ entry ∷ []) lanes }
{}
