//! Laws of the definitions. A call does nothing; its clause is the law.

ghost use Rattle.sw_caches.specs.Changes.{AreBytesOfChanges};

/// The bytes of a cache are those of the changes of a checkpoint that make it.
#[tactic(auto, using(crate::proofs::ChangeLemmas::bytes_of_changes))]
pub fn bytes_are_those_of_changes()
    ensures { AreBytesOfChanges }
{}
