//! Laws of the definitions. A call does nothing; its clause is the law.

ghost use Rattle.sw_rules.specs.Laws.{IsDetermined};

/// An old state and an event determine the answer, the notices and the new state.
#[tactic(auto, using(crate::proofs::LawLemmas::is_determined))]
pub fn steps_are_determined()
    ensures { IsDetermined }
{}
