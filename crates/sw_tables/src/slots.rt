//! Workers that go on, and the slots of their registrations.

ghost use Rattle.std.specs.Prelude.{◌≡◌, ◌<◌, ◌≤◌, ◌+◌, ◌++◌, ◌∷◌, ◌==◌, ◌&&◌, [], ℕ, Bool, true, None, is_some, if◌then◌else◌};
ghost use Rattle.std.specs.Option.{option_map_or};
ghost use Rattle.sw_data.specs.declared.answers.Notice.TheVariants as notice;
ghost use Rattle.sw_data.specs.declared.workers.Phase.TheVariants as in_phase;
ghost use Rattle.sw_data.specs.declared.workers.Slot.TheVariants as in_place;
ghost use Rattle.sw_data.specs.declared.workers.WorkerState.{WorkerState};
ghost use Rattle.sw_data.specs.declared.workers.WorkerState.TheVariants as in_state;
ghost use Rattle.sw_reg.specs.Edits.{without};
ghost use Rattle.sw_reg.specs.Table as registrations_of;
ghost use Rattle.sw_reg.specs.Table.{firsts, has_registration, is_registration, slot_of};
ghost use Rattle.sw_rules.specs.Activating as activating;
ghost use Rattle.sw_rules.specs.Clients.{flagged};
ghost use Rattle.sw_rules.specs.Installing as rules;
ghost use Rattle.sw_rules.specs.Registrations.{become, retire, start_handler};
ghost use Rattle.sw_rules.specs.Rows.{changed, is_number};
ghost use Rattle.sw_rules.specs.State.{Worker};
ghost use Rattle.sw_tables.specs.Happened.{KeepCounts, unsettled_of};
ghost use Rattle.sw_tables.specs.Linked.{HasSlots};
ghost use Rattle.sw_tables.specs.Shifts.{IsQuietIn, Vacates, retired, told_redundant};
ghost use Rattle.sw_tables.specs.Parts as parts;
ghost use Rattle.sw_tables.specs.Parts.{SlotsBecome, SlotsDid, StayLinked, is_activating, is_of_in, is_parsed, may_be_discarded, rests_in, waits};
ghost use Rattle.sw_worker.specs.Edits.{advanced};
ghost use Rattle.sw_rules.specs.Calls as calls;
ghost use Rattle.sw_worker.specs.Table.{has_calls_left, has_worker, is_running, is_there, is_worker, may_advance};

use sw_data::{Notice, Phase, Slot, WorkerState};
use sw_reg::Registrations;
use sw_rules::Notices;
use sw_worker::Workers;

// A worker goes on to a state that may follow its own. It takes no memory.
fn advance(worker: u32, to: WorkerState, workers: &mut Workers)
    requires { may_advance worker to workers.old.rows ≡ true }
    ensures { workers.new ≡ record workers.old {
      rows = changed (is_worker worker) (advanced to) workers.old.rows;
    } }
{
    let _ = workers.advance(worker, to);
}

// A worker goes on to a state that may follow its own, which is told. It takes no memory.
fn tell_state(worker: u32, to: WorkerState, workers: &mut Workers, notices: &mut Notices)
    requires follows { may_advance worker to workers.old.rows ≡ true }
    requires room { 0 < notices.old.spare }
    ensures rows { workers.new ≡ record workers.old {
      rows = changed (is_worker worker) (advanced to) workers.old.rows;
    } }
    ensures told { notices.new.rows ≡ notices.old.rows ++ notice.Worker worker to ∷ [] }
    ensures room { notices.new.spare + 1 ≡ notices.old.spare }
{
    advance(worker, to, workers);
    notices.push(Notice::Worker { worker, state: to });
}

// Whether a worker is the installing one of a registration. It takes no memory.
fn is_installing(registration: u32, worker: u32, registrations: &Registrations) -> bool
    ensures { result
        ≡ is_number (slot_of in_place.Installing registration registrations.now.rows) worker }
{
    match registrations.slot(registration, Slot::Installing) {
        Some(installing) => installing == worker,
        None => false,
    }
}

// A worker is no longer the installing one of a registration, where it was. It takes no memory.
fn leave_installing(registration: u32, worker: u32, registrations: &mut Registrations)
    requires { registrations_of.is_there registration registrations.old.rows ≡ true }
    ensures { registrations.new
        ≡ (if is_number (slot_of in_place.Installing registration registrations.old.rows) worker
        then record registrations.old {
          rows = changed (is_registration registration) (without in_place.Installing) registrations.old.rows;
        }
        else registrations.old) }
{
    if is_installing(registration, worker, registrations) {
        registrations.leave(registration, Slot::Installing);
    }
}

/// The handler of a worker ends. It takes no memory.
#[tactic(auto, unfolding(sw_rules::specs::Installing::end_handler))]
pub fn end_handler(worker: u32, workers: &mut Workers, registrations: &Registrations)
    requires slots { HasSlots workers.old registrations.now }
    requires running { has_worker is_running worker workers.old.rows ≡ true }
    ensures state { SlotsBecome (λ state. (rules.end_handler state worker).state)
        workers.old registrations.now workers.new registrations.now }
    ensures slots { HasSlots workers.new registrations.now }
    ensures linked { StayLinked workers.old registrations.now workers.new registrations.now }
    ensures counts { unsettled_of worker workers.old.rows ≡ 0
        → KeepCounts workers.old workers.new }
    ensures rests { (test : WorkerState → Bool) (registration : ℕ)
        → has_worker (is_of_in test registration) worker workers.old.rows ≡ true
        → has_worker (rests_in test registration) worker workers.new.rows ≡ true }
{
    workers.end_handler(worker);
}

/// The skip waiting flag of a worker is set. It takes no memory.
pub fn set_skip(worker: u32, workers: &mut Workers, registrations: &Registrations)
    requires slots { HasSlots workers.old registrations.now }
    requires there { is_there worker workers.old.rows ≡ true }
    ensures state { SlotsBecome (λ state. flagged worker state)
        workers.old registrations.now workers.new registrations.now }
    ensures slots { HasSlots workers.new registrations.now }
    ensures linked { StayLinked workers.old registrations.now workers.new registrations.now }
    ensures counts { KeepCounts workers.old workers.new }
{
    workers.set_skip(worker);
}

/// The handler of a worker has made a call, which was answered by a fault or not, and made an addAll or not. It takes no
/// memory.
#[tactic(auto, unfolding(sw_rules::specs::Calls::note_call))]
pub fn note_call(
    worker: u32,
    fault: bool,
    task: bool,
    workers: &mut Workers,
    registrations: &Registrations,
)
    requires slots { HasSlots workers.old registrations.now }
    requires calls { has_worker has_calls_left worker workers.old.rows ≡ true }
    ensures state { SlotsBecome (λ state. (calls.note_call state worker fault).state)
        workers.old registrations.now workers.new registrations.now }
    ensures slots { HasSlots workers.new registrations.now }
    ensures linked { StayLinked workers.old registrations.now workers.new registrations.now }
    ensures counts { (number : ℕ) → unsettled_of number workers.new.rows
        ≡ (if task && number == worker then unsettled_of number workers.old.rows + 1
        else unsettled_of number workers.old.rows) }
{
    workers.call_made(worker, fault, task);
}

/// A worker that was not yet installed becomes redundant, which is told; it is no longer the installing worker of its
/// registration. It takes no memory.
pub fn discard(
    registration: u32,
    worker: u32,
    workers: &mut Workers,
    registrations: &mut Registrations,
    notices: &mut Notices,
)
    requires slots { HasSlots workers.old registrations.old }
    requires worker { has_worker (may_be_discarded registration) worker workers.old.rows ≡ true }
    requires room { 0 < notices.old.spare }
    ensures did { SlotsDid (λ state. become state worker in_state.Redundant) notices.old notices.new
        workers.old registrations.old workers.new registrations.new }
    ensures slots { HasSlots workers.new registrations.new }
    ensures linked { StayLinked workers.old registrations.old workers.new registrations.new }
    ensures counts { KeepCounts workers.old workers.new }
    ensures room { notices.new.spare + 1 ≡ notices.old.spare }
{
    leave_installing(registration, worker, registrations);
    tell_state(worker, WorkerState::Redundant, workers, notices);
}

/// A worker that was parsed begins to install, in the empty slot of its registration, and its install handler starts.
/// It takes no memory.
pub fn to_installing(
    registration: u32,
    worker: u32,
    workers: &mut Workers,
    registrations: &mut Registrations,
)
    requires slots { HasSlots workers.old registrations.old }
    requires worker { has_worker (rests_in is_parsed registration) worker workers.old.rows ≡ true }
    requires empty { slot_of in_place.Installing registration registrations.old.rows ≡ None }
    ensures state { SlotsBecome (λ state. (start_handler
        (become state worker in_state.Installing).state worker in_phase.Install).state)
        workers.old registrations.old workers.new registrations.new }
    ensures slots { HasSlots workers.new registrations.new }
    ensures linked { StayLinked workers.old registrations.old workers.new registrations.new }
    ensures counts { KeepCounts workers.old workers.new }
{
    advance(worker, WorkerState::Installing, workers);
    workers.start_handler(worker, Phase::Install);
    registrations.to_installing(registration, worker);
}

// A worker, where there is one, becomes redundant, which is told. It takes no memory.
fn tell_redundant(worker: Option<u32>, workers: &mut Workers, notices: &mut Notices)
    requires follows { option_map_or (λ old. may_advance old in_state.Redundant workers.old.rows)
        worker true ≡ true }
    requires room { 0 < notices.old.spare }
    ensures rows { workers.new ≡ record workers.old { rows = retired worker workers.old.rows } }
    ensures told { notices.new.rows ≡ notices.old.rows ++ told_redundant worker }
    ensures room { notices.old.spare ≤ notices.new.spare + 1 }
{
    match worker {
        Some(old) => tell_state(old, WorkerState::Redundant, workers, notices),
        None => {}
    }
}

// The worker in a slot of a registration, where there is one, becomes redundant, which is told, and the slot is empty.
// It takes no memory.
pub(crate) fn retire(
    place: Slot,
    registration: u32,
    workers: &mut Workers,
    registrations: &mut Registrations,
    notices: &mut Notices,
)
    requires slots { HasSlots workers.old registrations.old }
    requires there { registrations_of.is_there registration registrations.old.rows ≡ true }
    requires quiet { IsQuietIn place registration workers.old registrations.old }
    requires room { 0 < notices.old.spare }
    ensures did { SlotsDid (λ state. retire state place registration) notices.old notices.new
        workers.old registrations.old workers.new registrations.new }
    ensures vacates { Vacates place registration
        workers.old workers.new registrations.old registrations.new }
    ensures slots { HasSlots workers.new registrations.new }
    ensures linked { StayLinked workers.old registrations.old workers.new registrations.new }
    ensures counts { KeepCounts workers.old workers.new }
    ensures room { notices.old.spare ≤ notices.new.spare + 1 }
{
    tell_redundant(registrations.slot(registration, place), workers, notices);
    registrations.leave(registration, place);
}

// The installing worker of a registration becomes the waiting one, and a Try Activate is owed. It takes no memory.
fn wait(registration: u32, registrations: &mut Registrations)
    requires { has_registration (λ row. is_some row.installing) registration registrations.old.rows
        ≡ true }
    ensures { registrations.new ≡ record registrations.old {
      rows = changed (is_registration registration) (waits (firsts registrations.old.rows))
          registrations.old.rows;
    } }
{
    registrations.to_waiting(registration);
    registrations.owe(registration, true);
}

/// The installing worker of a registration becomes the waiting one, which is told; the one that it replaces becomes
/// redundant, which is told before. A Try Activate is owed. It takes no memory.
pub fn become_waiting(
    registration: u32,
    worker: u32,
    workers: &mut Workers,
    registrations: &mut Registrations,
    notices: &mut Notices,
)
    requires slots { HasSlots workers.old registrations.old }
    requires worker { has_worker (rests_in parts.is_installing registration) worker workers.old.rows
        ≡ true }
    requires room { 2 ≤ notices.old.spare }
    ensures did { (row : Worker) → row.number ≡ worker
        → SlotsDid (λ state. rules.become_waiting state registration row) notices.old notices.new
        workers.old registrations.old workers.new registrations.new }
    ensures slots { HasSlots workers.new registrations.new }
    ensures linked { StayLinked workers.old registrations.old workers.new registrations.new }
    ensures counts { KeepCounts workers.old workers.new }
    ensures room { notices.old.spare ≤ notices.new.spare + 2 }
{
    retire(Slot::Waiting, registration, workers, registrations, notices);
    wait(registration, registrations);
    tell_state(worker, WorkerState::Installed, workers, notices);
}

/// A worker becomes activated, which is told. It takes no memory.
pub fn become_activated(
    registration: u32,
    worker: u32,
    workers: &mut Workers,
    registrations: &Registrations,
    notices: &mut Notices,
)
    requires slots { HasSlots workers.old registrations.now }
    requires worker { has_worker (rests_in is_activating registration) worker workers.old.rows
        ≡ true }
    requires room { 0 < notices.old.spare }
    ensures did { SlotsDid (λ state. activating.become_activated state registration worker)
        notices.old notices.new workers.old registrations.now workers.new registrations.now }
    ensures slots { HasSlots workers.new registrations.now }
    ensures linked { StayLinked workers.old registrations.now workers.new registrations.now }
    ensures counts { KeepCounts workers.old workers.new }
    ensures room { notices.new.spare + 1 ≡ notices.old.spare }
{
    tell_state(worker, WorkerState::Activated, workers, notices);
}
