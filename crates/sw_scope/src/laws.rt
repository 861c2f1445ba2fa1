//! Laws of the map of scopes. A call does nothing; its clause is the law.

ghost use Rattle.sw_scope.specs.Laws.{LengthsAreOfScopes, LongestIsTheStandards, MatchIsTheLongestFront, OneLengthIsOneStep};

/// The longest front of an address that is a scope is the longest scope of the standard, whatever the list of scopes.
#[tactic(auto, using(crate::proofs::LawLemmas::longest_is))]
pub fn longest_is_the_standards()
    ensures { LongestIsTheStandards }
{}

/// The registration that an address matches is that of its longest front, where each scope has its mapped registration.
#[tactic(auto, using(crate::proofs::LawLemmas::match_is))]
pub fn match_is_the_longest_front()
    ensures { MatchIsTheLongestFront }
{}

/// A length is counted exactly where a scope of that length maps to a registration.
#[tactic(auto, using(crate::proofs::LawLemmas::lengths_are))]
pub fn lengths_are_of_scopes()
    ensures { LengthsAreOfScopes }
{}

/// Where all scopes of a key are as long, at most one length is counted, however many they are.
pub fn one_length_is_one_step()
    ensures { OneLengthIsOneStep }
{}
