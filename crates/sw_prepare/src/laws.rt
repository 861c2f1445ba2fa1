//! A law of the durable changes of jobs. A call does nothing; its clause is the law.

ghost use Rattle.sw_prepare.specs.Laws.{RegistersQuietly};

// The run of a register job, or of an update job, has no durable changes.
#[tactic(auto, using(crate::proofs::Registers::registers_quietly))]
pub(crate) fn register_has_no_changes()
    ensures { RegistersQuietly }
{}
