//! Calls of handlers, worked out with all their room.

ghost use Rattle.std.specs.Prelude.{◌≡◌, true, IfOk};
ghost use Rattle.sw_data.specs.Events.{is_handler, who_of};
ghost use Rattle.sw_laws.specs.Coherent.{Coherent};
ghost use Rattle.sw_rules.specs.Step.{enabled, step};
ghost use Rattle.sw_state.specs.Hosted.{SameRows, state_of};
ghost use Rattle.sw_work.specs.Plans.{Works};

use std::alloc::Global;
use sw_data::{Event, NoMemory, Who};
use sw_state::HostTables;
use sw_work::{Work, call_work};

// What a call of a handler comes to.
#[tactic(auto, unfolding(sw_rules::specs::Step::step, sw_data::specs::Events::who_of))]
pub(crate) fn work_of_call(
    host: &mut HostTables,
    alloc: Global,
    event: &Event,
) -> Result<Work, NoMemory>
    requires coherent { Coherent (state_of host.old) }
    requires who { is_handler (who_of event.now) ≡ true }
    requires enabled { enabled (state_of host.old) event.now ≡ true }
    ensures same { SameRows host.old host.new }
    ensures works { IfOk result (Works host.old host.new (step (state_of host.old) event.now)) }
{
    match event {
        Event::Call {
            who: Who::Handler {
                worker,
                phase,
                call: number,
            },
            call,
        } => call_work(host, alloc, *worker, *phase, *number, call),
        // Handlers make no others.
        _ => unreachable!(),
    }
}
