//! Events, worked out and done.

ghost use Rattle.std.specs.Cow.{cow_slice_items};
ghost use Rattle.std.specs.Prelude.{◌≡◌, true, IfOk, IfSome};
ghost use Rattle.sw_data.specs.declared.events.Event as events;
ghost use Rattle.sw_laws.specs.Coherent.{Coherent};
ghost use Rattle.sw_rules.specs.Step.{changes_of, enabled, step};
ghost use Rattle.sw_rules.specs.Told.{Outcome};
ghost use Rattle.sw_state.specs.Hosted.{state_of};
ghost use Rattle.sw_work.specs.Planned.{Fits};
ghost use Rattle.sw_work.specs.Plans.{Means};

use crate::core_tables::Core;
use std::alloc::Global;
use std::borrow::CowSlice;
use sw_data::{Change, Event, NoMemory};
use sw_finish::finish;
use sw_prepare::{changes, prepare};
use sw_work::{Plan, Reply};

impl Core {
    /// Works an event out that is enabled, with all its room. The state stays as it is.
    pub fn prepare(&mut self, alloc: Global, event: &Event) -> Result<Plan, NoMemory>
        requires coherent { Coherent (state_of self.old) }
        requires enabled { enabled (state_of self.old) event.now ≡ true }
        ensures same { state_of self.new ≡ state_of self.old }
        ensures fits { IfOk result (λ plan. Fits plan self.new) }
        ensures means { IfOk result (λ plan.
            IfSome (step (state_of self.old) event.now) (Means plan.work self.new)) }
    {
        prepare(&mut self.host, alloc, event)
    }

    /// The durable changes of an event that was worked out, before it is done. Those that the plan holds are lent; the
    /// others need memory for themselves alone.
    pub fn changes<'a>(
        &self,
        alloc: Global,
        plan: &'a Plan,
    ) -> Result<CowSlice<'a, Change, Global>, NoMemory>
        requires coherent { Coherent (state_of self.now) }
        requires fits { Fits plan.now self.now }
        ensures { (event : events.Event) → enabled (state_of self.now) event ≡ true
            → IfSome (step (state_of self.now) event) (Means plan.now.work self.now)
            → IfOk result (λ changes. cow_slice_items changes
            ≡ changes_of (state_of self.now) event) }
    {
        changes(&self.host, alloc, plan)
    }

    /// Carries out a plan that was made for an event that is enabled. It takes no memory.
    pub fn finish(&mut self, plan: Plan) -> Reply
        requires coherent { Coherent (state_of self.old) }
        requires fits { Fits plan self.old }
        requires enabled { (outcome : Outcome) × Means plan.work self.old outcome }
        ensures answer { (outcome : Outcome) → Means plan.work self.old outcome
            → result.answer ≡ outcome.answer }
        ensures notices { (outcome : Outcome) → Means plan.work self.old outcome
            → result.notices ≡ outcome.told.notices }
        ensures state { (outcome : Outcome) → Means plan.work self.old outcome
            → state_of self.new ≡ outcome.told.state }
    {
        finish(&mut self.host, plan)
    }
}
