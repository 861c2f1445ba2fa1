//! Events, worked out with all their room. The state stays as it is.

ghost use Rattle.std.specs.Prelude.{◌≡◌, true, IfOk, IfSome};
ghost use Rattle.sw_work.specs.Planned.{Fits};
ghost use Rattle.sw_laws.specs.Coherent.{Coherent};
ghost use Rattle.sw_rules.specs.Step.{enabled, step};
ghost use Rattle.sw_state.specs.Hosted.{SameRows, state_of};
ghost use Rattle.sw_work.specs.Plans.{Means, Works};

use crate::calls::work_of_call;
use crate::hosts::work_of_host;
use crate::lanes::work_of_lane;
use crate::planning::planned;
use std::alloc::Global;
use sw_data::{Event, NoMemory, Who};
use sw_state::HostTables;
use sw_work::{Plan, Work};

// What an event comes to.
fn work_of(host: &mut HostTables, alloc: Global, event: &Event) -> Result<Work, NoMemory>
    requires coherent { Coherent (state_of host.old) }
    requires enabled { enabled (state_of host.old) event.now ≡ true }
    ensures same { SameRows host.old host.new }
    ensures works { IfOk result
        (Works host.old host.new (step (state_of host.old) event.now)) }
{
    match event.who() {
        Who::Lane { lane, at } => work_of_lane(host, alloc, lane, at, event),
        Who::Handler { .. } => work_of_call(host, alloc, event),
        Who::Host => work_of_host(host, alloc, event),
    }
}

/// Works an event out that is enabled, with all its room. The state stays as it is.
pub fn prepare(host: &mut HostTables, alloc: Global, event: &Event) -> Result<Plan, NoMemory>
    requires coherent { Coherent (state_of host.old) }
    requires enabled { enabled (state_of host.old) event.now ≡ true }
    ensures same { state_of host.new ≡ state_of host.old }
    ensures fits { IfOk result (λ plan. Fits plan host.new) }
    ensures means { IfOk result (λ plan.
        IfSome (step (state_of host.old) event.now) (Means plan.work host.new)) }
{
    let work = work_of(host, alloc, event)?;
    planned(host, alloc, work)
}
