//! Navigation preload (Service Workers, "NavigationPreloadManager").

ghost use Rattle.std.specs.Prelude.{◌≡◌, true, is_some, IfOk};
ghost use Rattle.sw_ledgers.specs.Preloaded.{preload_of, preload_value_of};
ghost use Rattle.sw_pages.specs.Acts.{Gives};
ghost use Rattle.sw_pages.specs.Fits.{FitsHost};
ghost use Rattle.sw_reg.specs.Table.{is_there};
ghost use Rattle.sw_rules.specs.Preloading as rules;
ghost use Rattle.sw_rules.specs.Rows.{active_worker_number};
ghost use Rattle.sw_state.specs.Hosted.{shown_of, state_of};

use crate::slots::named;
use crate::worked::{PageAct, Worked, answered};
use std::alloc::Global;
use sw_data::{Answer, ClientScope, Fault, NoMemory, RegistrationRow, Slot, StateCause, Text};
use sw_state::HostTables;

// Whether a registration has an active worker.
fn is_active(host: &HostTables, registration: u32) -> bool
    ensures { result ≡ is_some (active_worker_number (state_of host.now) registration) }
{
    host.slot_row(Slot::Active, registration).is_some()
}

// The flag of the navigation preload of a registration.
fn is_on(host: &HostTables, registration: u32) -> bool
    ensures { result ≡ preload_of host.now.preloads.rows registration }
{
    host.preloads.is_on(registration)
}

// The value of the navigation preload of a registration.
fn value_of(host: &HostTables, registration: u32) -> &str
    ensures { result.now ≡ preload_value_of host.now.preloads.rows registration }
{
    host.preloads.value(registration)
}

// A registration with an active worker gets a preload flag and value.
fn set(host: &HostTables, row: &RegistrationRow, on: bool, value: Text) -> Worked
    requires { is_there row.now.number host.now.registrations.rows ≡ true }
    ensures fits { FitsHost result host.now }
    ensures gives { Gives (λ state who.
        rules.preload_set state (shown_of host.now row.now) on value) result host.now }
{
    if !is_active(host, row.number) {
        return answered(Answer::Fault(Fault::InvalidState(StateCause::NotActive)));
    }
    Worked {
        answer: Answer::Ok,
        act: PageAct::Preload {
            registration: row.number,
            on,
            value,
        },
        awaited: None,
    }
}

/// A client switches the navigation preload of a registration on or off (Service Workers, NavigationPreloadManager,
/// "enable()" and "disable()").
pub fn preload_switch(
    host: &HostTables,
    alloc: Global,
    of: &ClientScope,
    on: bool,
) -> Result<Worked, NoMemory>
    ensures fits { IfOk result (λ worked. FitsHost worked host.now) }
    ensures gives { IfOk result (λ worked. Gives (λ state who.
        rules.preload_switch state of.now on) worked host.now) }
{
    let row = match named(host, alloc, of)? {
        Ok(row) => row,
        Err(reply) => return Ok(answered(reply)),
    };
    let value = Text::of(alloc, value_of(host, row.number))?;
    Ok(set(host, row, on, value))
}

/// A client sets the value of the navigation preload of a registration (Service Workers, NavigationPreloadManager,
/// "setHeaderValue()").
pub fn preload_value(
    host: &HostTables,
    alloc: Global,
    of: &ClientScope,
    value: &Text,
) -> Result<Worked, NoMemory>
    ensures fits { IfOk result (λ worked. FitsHost worked host.now) }
    ensures gives { IfOk result (λ worked. Gives (λ state who.
        rules.preload_value state of.now value.now) worked host.now) }
{
    let row = match named(host, alloc, of)? {
        Ok(row) => row,
        Err(reply) => return Ok(answered(reply)),
    };
    let on = is_on(host, row.number);
    let value = value.copy(alloc)?;
    Ok(set(host, row, on, value))
}

/// The flag and the value of the navigation preload of a registration that a client names (Service Workers,
/// NavigationPreloadManager, "getState()").
pub fn preload_state(host: &HostTables, alloc: Global, of: &ClientScope) -> Result<Worked, NoMemory>
    ensures fits { IfOk result (λ worked. FitsHost worked host.now) }
    ensures gives { IfOk result (λ worked. Gives (λ state who.
        rules.preload_state state of.now) worked host.now) }
{
    let row = match named(host, alloc, of)? {
        Ok(row) => row,
        Err(reply) => return Ok(answered(reply)),
    };
    let on = is_on(host, row.number);
    let value = Text::of(alloc, value_of(host, row.number))?;
    Ok(answered(Answer::Preload { on, value }))
}
