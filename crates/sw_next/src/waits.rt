//! Whether what a lane waits for has come.

ghost use Rattle.std.specs.Prelude.{◌≡◌, ℕ, is_some};
ghost use Rattle.sw_data.specs.declared.events.Who.TheVariants as maker;
ghost use Rattle.sw_rules.specs.Clients as rules;
ghost use Rattle.sw_rules.specs.Rows.{worker_row};
ghost use Rattle.sw_tables.specs.Parts.{is_activating};
ghost use Rattle.sw_state.specs.Hosted.{state_of};

use sw_data::WorkerState;
use sw_pages::{promised_value, ready_answer};
use sw_state::HostTables;

// Whether a worker in this state is activating.
fn is_activating(state: WorkerState) -> bool
    ensures { result ≡ is_activating state }
{
    state == WorkerState::Activating
}

/// Whether the promise of an action of a lane has settled.
pub fn has_settled(host: &HostTables, lane: u32, of: u32) -> bool
    ensures { (at : ℕ)
        → result ≡ is_some (rules.await (state_of host.now) (maker.Lane lane at) of) }
{
    promised_value(host, lane, of).is_some()
}

/// Whether the ready promise of a client has a registration, or the client isn't open.
pub fn is_ready(host: &HostTables, client: u32) -> bool
    ensures { result ≡ is_some (rules.ready (state_of host.now) client) }
{
    ready_answer(host, client).is_some()
}

// Whether a fetch event may begin on a worker, or is refused at once.
fn may_begin_on(host: &HostTables, worker: u32) -> bool
    ensures { (event : ℕ) → result ≡ is_some (rules.begin_on (state_of host.now) event
        (worker_row (state_of host.now) worker)) }
{
    match host.workers.row(worker) {
        Some(row) => !is_activating(row.state),
        None => true,
    }
}

/// Whether a fetch event of a client may begin, or is refused at once.
pub fn may_begin(host: &HostTables, client: u32) -> bool
    ensures { (event : ℕ) → result ≡ is_some (rules.begin (state_of host.now) client event) }
{
    let Some(row) = host.client_row(client) else {
        return true;
    };
    match row.controller {
        Some(worker) => may_begin_on(host, worker),
        None => true,
    }
}
