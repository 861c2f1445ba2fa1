//! What an action does to the caches.

ghost use Rattle.std.specs.Prelude.{◌≡◌, []};
ghost use Rattle.sw_data.specs.declared.answers.Fault.TheVariants as fault;

use std::alloc::Global;
use sw_caches::{CachePlan, NewCache};
use sw_data::{Answer, Cause, Change, Fault, Items, Text};

/// What is done to the caches, with its room.
#[derive(Drop)]
pub enum CacheAct {
    Nothing,
    /// The cache is added last.
    Make(NewCache),
    /// The cache of this key and name is removed.
    Drop { key: Text, name: Text },
    /// A batch is carried out.
    Carry(CachePlan),
}

/// An action on caches, worked out: its answer, what it does, and its durable changes. It tells nothing else.
#[derive(Drop)]
pub struct CacheStep {
    pub answer: Answer,
    pub act: CacheAct,
    pub changes: Items<Change>,
}

/// An answer that leaves the caches as they are.
pub fn answered(alloc: Global, answer: Answer) -> CacheStep
    ensures { result ≡ record { answer = answer; act = CacheAct.Nothing; changes = [] } }
{
    CacheStep {
        answer,
        act: CacheAct::Nothing,
        changes: Items::new(alloc),
    }
}

/// A fault, which leaves the caches as they are.
pub fn refused(alloc: Global, why: Fault) -> CacheStep
    ensures { result ≡ record { answer = Answer.Fault why; act = CacheAct.Nothing; changes = [] } }
{
    answered(alloc, Answer::Fault(why))
}

/// An address that doesn't parse.
pub fn unparsed(alloc: Global) -> CacheStep
    ensures { result ≡ record {
      answer = Answer.Fault (fault.TypeError Cause.Unparsed None);
      act = CacheAct.Nothing;
      changes = [];
    } }
{
    refused(
        alloc,
        Fault::TypeError {
            cause: Cause::Unparsed,
            index: None,
        },
    )
}
