//! Events that happen.

ghost use Rattle.std.specs.Prelude.{◌≡◌, true, IfOk, OnErr};
ghost use Rattle.sw_laws.specs.Coherent.{Coherent};
ghost use Rattle.sw_rules.specs.Step.{Step, enabled};
ghost use Rattle.sw_state.specs.Hosted.{state_of};

use crate::core_tables::Core;
use std::alloc::Global;
use sw_data::{Event, NoMemory};
use sw_work::Reply;

impl Core {
    /// An event that is enabled happens: it is worked out and done. After want of memory the state is as before.
    #[tactic(auto, using(crate::proofs::Applying::worked, crate::proofs::Applying::stepped))]
    pub fn apply(&mut self, alloc: Global, event: &Event) -> Result<Reply, NoMemory>
        requires coherent { Coherent (state_of self.old) }
        requires enabled { enabled (state_of self.old) event.now ≡ true }
        ensures step { IfOk result (λ reply. Step (state_of self.old) event.now
            reply.answer reply.notices (state_of self.new)) }
        ensures same { OnErr result (state_of self.new ≡ state_of self.old) }
    {
        let plan = self.prepare(alloc, event)?;
        Ok(self.finish(plan))
    }
}
