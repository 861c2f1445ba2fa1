//! The laws. A call does nothing; its clause is the law.

ghost use Rattle.sw_laws.specs.Laws.{DurableIsKept, FetchesStay, HasSlots, IsAlwaysCoherent, IsAlwaysControlled, RestartsOnce, RestsWithoutWork, SettlesOnce, TellsItsMap};

/// A restart leaves a coherent state, and each event keeps it so: the rows of every state after a legal history fit
/// together.
#[tactic(auto, using(crate::proofs::LawProofs::is_always_coherent))]
pub fn states_are_coherent()
    ensures { IsAlwaysCoherent }
{}

/// In every legal history each controller is null or the active worker that matching or claiming gave.
#[tactic(auto, using(crate::proofs::LawProofs::is_always_controlled))]
pub fn clients_are_controlled()
    ensures { IsAlwaysControlled }
{}

/// Where no task is ready after a legal history, no unfinished job, running handler, unsettled addAll or owed Try
/// Activate is left.
#[tactic(auto, using(crate::proofs::LawProofs::rests_without_work))]
pub fn no_task_leaves_no_work()
    ensures { RestsWithoutWork }
{}

/// Restarting twice is restarting once, and what is kept of the state that a restart leaves is the content of the
/// restart.
#[tactic(auto, using(crate::proofs::Twice::restarts_once))]
pub fn restarts_are_idempotent()
    ensures { RestartsOnce }
{}

/// A registration has at most one installing, one waiting and one active worker, and each event leaves a worker's state,
/// moves it to the next one, or makes it redundant.
#[tactic(auto, using(crate::proofs::LawProofs::has_slots))]
pub fn slots_hold_one_worker()
    ensures { HasSlots }
{}

/// A promise, of a job or an addAll, settles at most once, and a job that joined another has its value.
#[tactic(auto, using(crate::proofs::LawProofs::settles_once))]
pub fn promises_settle_once()
    ensures { SettlesOnce }
{}

/// The content that the changes of the first entries of a legal history make of its base is the durable part of the
/// state after them, for each number of entries from one on.
#[tactic(auto, using(crate::proofs::DurableKept::durable_is_kept))]
pub fn changes_keep_the_durable_part()
    ensures { DurableIsKept }
{}

/// A job that fetches goes on to do so, and an addAll stays unsettled, until the event that ends its fetches.
#[tactic(auto, using(crate::proofs::FetchesStay::fetches_stay))]
pub fn fetches_stay()
    ensures { FetchesStay }
{}

/// A step leaves what a key and a scope map to, unless a notice of it names a registration of theirs.
#[tactic(auto, using(crate::proofs::MapTold::tells_its_map))]
pub fn notices_tell_the_map()
    ensures { TellsItsMap }
{}
