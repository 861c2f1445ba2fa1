//! How a registration is cleared, and how its waiting worker becomes the active one.

ghost use Rattle.std.specs.Prelude.{◌≡◌, ◌<◌, ◌≤◌, ◌+◌, ◌++◌, ◌∷◌, [], true, false, ◌&&◌, ◌||◌, ℕ, All, Some, IfSome};
ghost use Rattle.sw_client.specs.Table as clients_table;
ghost use Rattle.sw_client.specs.Table.{users_of};
ghost use Rattle.sw_data.specs.declared.answers.Notice.TheVariants as notice;
ghost use Rattle.sw_data.specs.declared.workers.Phase.TheVariants as phase;
ghost use Rattle.sw_data.specs.declared.workers.Slot.TheVariants as in_place;
ghost use Rattle.sw_data.specs.declared.workers.WorkerState.TheVariants as worker_state;
ghost use Rattle.sw_reg.specs.Edits.{with_active};
ghost use Rattle.sw_reg.specs.Table as registrations_table;
ghost use Rattle.sw_reg.specs.Table.{is_registration, is_there, slot_of};
ghost use Rattle.sw_rules.specs.Noticing.{Did};
ghost use Rattle.sw_rules.specs.Registrations as rules;
ghost use Rattle.sw_rules.specs.Rows as found;
ghost use Rattle.sw_rules.specs.Rows.{changed};
ghost use Rattle.sw_scope.specs.Scopes.{Scopes};
ghost use Rattle.sw_tables.specs.Happened.{KeepCounts};
ghost use Rattle.sw_tables.specs.Lent.{Rest, lent};
ghost use Rattle.sw_tables.specs.Linked.{HasSlots, IsNoted, Linked};
ghost use Rattle.sw_tables.specs.Shifts.{IsQuiet, IsQuietIn, activating, is_free, is_pending_in, may_replace, picked};
ghost use Rattle.sw_tables.specs.Parts.{SlotsDid, is_activating, StayLinked};
ghost use Rattle.sw_worker.specs.Edits.{advanced, started};
ghost use Rattle.sw_worker.specs.Table as workers_table;
ghost use Rattle.sw_worker.specs.Table.{has_pending, has_worker, is_idle, is_worker, may_advance};

use crate::slots::retire;
use sw_client::Clients;
use sw_data::{Notice, Phase, Slot, WorkerState};
use sw_reg::Registrations;
use sw_rules::Notices;
use sw_worker::Workers;

// A waiting worker becomes activating, and its activate handler starts.
#[tactic(auto, using(crate::proofs::TakeOver::begun_twice, crate::proofs::TakeOver::idle_still))]
fn begin(worker: u32, workers: &mut Workers)
    requires may { may_advance worker worker_state.Activating workers.old.rows ≡ true }
    requires idle { has_worker is_idle worker workers.old.rows ≡ true }
    ensures { workers.new ≡ record workers.old {
      rows = changed (is_worker worker) activating workers.old.rows;
    } }
{
    let _ = workers.advance(worker, WorkerState::Activating);
    workers.start_handler(worker, Phase::Activate);
}

// The waiting worker of a registration becomes the active one, which is told, and its activate handler starts; none was
// active.
fn replace(
    registration: u32,
    worker: u32,
    workers: &mut Workers,
    registrations: &mut Registrations,
    notices: &mut Notices,
)
    requires slots { HasSlots workers.old registrations.old }
    requires waiting { slot_of in_place.Waiting registration registrations.old.rows ≡ Some worker }
    requires empty { slot_of in_place.Active registration registrations.old.rows ≡ None }
    requires room { 0 < notices.old.spare }
    ensures workers { workers.new ≡ record workers.old {
      rows = changed (is_worker worker) activating workers.old.rows;
    } }
    ensures registrations { registrations.new ≡ record registrations.old {
      rows = changed (is_registration registration) with_active registrations.old.rows;
    } }
    ensures told { notices.new.rows
        ≡ notices.old.rows ++ notice.Worker worker worker_state.Activating ∷ [] }
    ensures room { notices.new.spare + 1 ≡ notices.old.spare }
{
    begin(worker, workers);
    notices.push(Notice::Worker {
        worker,
        state: WorkerState::Activating,
    });
    registrations.to_active(registration);
}

/// A registration is cleared: its installing, waiting and active worker become redundant, in this order, and its slots
/// are empty. It takes no memory.
pub fn clear(
    registration: u32,
    workers: &mut Workers,
    registrations: &mut Registrations,
    notices: &mut Notices,
)
    requires slots { HasSlots workers.old registrations.old }
    requires there { is_there registration registrations.old.rows ≡ true }
    requires quiet { IsQuiet registration workers.old registrations.old }
    requires room { 3 ≤ notices.old.spare }
    ensures did { SlotsDid (λ state. rules.clear state registration) notices.old notices.new
        workers.old registrations.old workers.new registrations.new }
    ensures slots { HasSlots workers.new registrations.new }
    ensures linked { StayLinked workers.old registrations.old workers.new registrations.new }
    ensures counts { KeepCounts workers.old workers.new }
    ensures room { notices.old.spare ≤ notices.new.spare + 3 }
{
    retire(
        Slot::Installing,
        registration,
        workers,
        registrations,
        notices,
    );
    retire(Slot::Waiting, registration, workers, registrations, notices);
    retire(Slot::Active, registration, workers, registrations, notices);
}

// A handler or a fetch event of the worker in a slot is pending.
fn is_pending_in(
    place: Slot,
    registration: u32,
    workers: &Workers,
    registrations: &Registrations,
) -> bool
    ensures { result ≡ is_pending_in place registration workers.now registrations.now }
{
    match registrations.slot(registration, place) {
        Some(worker) => !workers.has_no_pending(worker),
        None => false,
    }
}

// A handler or a fetch event of a worker in one of the slots is pending.
fn is_pending_in_some(registration: u32, workers: &Workers, registrations: &Registrations) -> bool
    ensures { result
        ≡ (is_pending_in in_place.Installing registration workers.now registrations.now
        || (is_pending_in in_place.Waiting registration workers.now registrations.now
        || is_pending_in in_place.Active registration workers.now registrations.now)) }
{
    is_pending_in(Slot::Installing, registration, workers, registrations)
        || is_pending_in(Slot::Waiting, registration, workers, registrations)
        || is_pending_in(Slot::Active, registration, workers, registrations)
}

/// A handler or a fetch event of a worker of the registration is pending: only one of its installing, waiting or active
/// worker can be. It takes no memory.
#[tactic(auto, using(crate::proofs::Pending::none_pending))]
pub fn has_pending_worker(
    registration: u32,
    workers: &Workers,
    registrations: &Registrations,
) -> bool
    requires slots { HasSlots workers.now registrations.now }
    ensures pending { (scopes : Scopes) (of_clients : clients_table.Table) (rest : Rest)
        → result ≡ found.has_pending_worker
        (lent scopes workers.now registrations.now of_clients rest) registration }
    ensures quiet { result ≡ false → IsQuiet registration workers.now registrations.now }
{
    is_pending_in_some(registration, workers, registrations)
}

/// A client uses the registration, by the count that is kept. It takes no memory.
pub fn is_used(registration: u32, clients: &Clients) -> bool
    ensures used { (scopes : Scopes) (of_workers : workers_table.Table)
        (of_registrations : registrations_table.Table) (rest : Rest)
        → HasSlots of_workers of_registrations → All (IsNoted of_workers) clients.now.rows
        → result ≡ found.is_used
        (lent scopes of_workers of_registrations clients.now rest) registration }
    ensures count { result ≡ false → users_of registration clients.now.rows ≡ 0 }
{
    clients.users(registration) > 0
}

// No client uses the registration, and no event of a worker of it is pending.
fn is_free(
    registration: u32,
    workers: &Workers,
    registrations: &Registrations,
    clients: &Clients,
) -> bool
    requires slots { HasSlots workers.now registrations.now }
    requires noted { All (IsNoted workers.now) clients.now.rows }
    ensures free { (scopes : Scopes) (rest : Rest)
        → result
        ≡ is_free (lent scopes workers.now registrations.now clients.now rest) registration }
    ensures quiet { result ≡ true → IsQuiet registration workers.now registrations.now }
{
    if is_used(registration, clients) {
        return false;
    }
    !has_pending_worker(registration, workers, registrations)
}

/// A registration without users and pending events is cleared. It takes no memory.
pub fn try_clear(
    registration: u32,
    workers: &mut Workers,
    registrations: &mut Registrations,
    clients: &Clients,
    notices: &mut Notices,
)
    requires slots { HasSlots workers.old registrations.old }
    requires noted { All (IsNoted workers.old) clients.now.rows }
    requires there { is_there registration registrations.old.rows ≡ true }
    requires room { 3 ≤ notices.old.spare }
    ensures did { (scopes : Scopes) (rest : Rest)
        → Did (rules.try_clear
        (lent scopes workers.old registrations.old clients.now rest) registration)
        notices.old notices.new (lent scopes workers.new registrations.new clients.now rest) }
    ensures slots { HasSlots workers.new registrations.new }
    ensures linked { StayLinked workers.old registrations.old workers.new registrations.new }
    ensures counts { KeepCounts workers.old workers.new }
    ensures room { notices.old.spare ≤ notices.new.spare + 3 }
{
    if is_free(registration, workers, registrations, clients) {
        clear(registration, workers, registrations, notices);
    }
}

// Whether a worker is activating.
fn is_activating(worker: u32, workers: &Workers) -> bool
    ensures { result ≡ has_worker (λ row. is_activating row.state) worker workers.now.rows }
{
    match workers.row(worker) {
        Some(row) => row.state == WorkerState::Activating,
        None => false,
    }
}

// Whether the skip waiting flag of a worker is set.
fn skips_waiting(worker: u32, workers: &Workers) -> bool
    ensures { result ≡ has_worker (λ row. row.skip_waiting) worker workers.now.rows }
{
    match workers.row(worker) {
        Some(row) => row.skip_waiting,
        None => false,
    }
}

// Whether the active worker may be replaced by the waiting one.
fn may_replace(
    registration: u32,
    waiting: u32,
    active: u32,
    workers: &Workers,
    clients: &Clients,
) -> bool
    ensures { result ≡ may_replace registration waiting active workers.now clients.now }
{
    !is_activating(active, workers)
        && workers.has_no_pending(active)
        && (skips_waiting(waiting, workers) || clients.users(registration) == 0)
}

// The waiting worker, where no worker is active or it may replace the active one.
fn pick(
    registration: u32,
    workers: &Workers,
    registrations: &Registrations,
    clients: &Clients,
) -> Option<u32>
    ensures { result ≡ picked registration workers.now registrations.now clients.now }
{
    let waiting = registrations.slot(registration, Slot::Waiting)?;
    let may = match registrations.slot(registration, Slot::Active) {
        Some(active) => may_replace(registration, waiting, active, workers, clients),
        None => true,
    };
    if may { Some(waiting) } else { None }
}

/// The waiting worker that Try Activate makes active, if it does so. It takes no memory.
#[tactic(auto, using(crate::proofs::Trying::picked_waits, crate::proofs::Trying::picked_quiet))]
pub fn chosen(
    registration: u32,
    workers: &Workers,
    registrations: &Registrations,
    clients: &Clients,
) -> Option<u32>
    ensures chosen { (scopes : Scopes) (rest : Rest)
        → HasSlots workers.now registrations.now → All (IsNoted workers.now) clients.now.rows
        → result ≡ rules.chosen
        (lent scopes workers.now registrations.now clients.now rest) registration }
    ensures waiting { (number : ℕ) → result ≡ Some number
        → slot_of in_place.Waiting registration registrations.now.rows ≡ Some number }
    ensures quiet { (number other : ℕ) → result ≡ Some number
        → slot_of in_place.Active registration registrations.now.rows ≡ Some other
        → has_pending other workers.now ≡ false }
{
    pick(registration, workers, registrations, clients)
}

/// The waiting worker of a registration becomes the active one in place of another, its activate handler starts, and it
/// becomes the controller of each client that uses the registration. It takes no memory.
pub fn activate(
    registration: u32,
    worker: u32,
    workers: &mut Workers,
    registrations: &mut Registrations,
    clients: &mut Clients,
    notices: &mut Notices,
)
    requires slots { HasSlots workers.old registrations.old }
    requires noted { All (IsNoted workers.old) clients.old.rows }
    requires waiting { slot_of in_place.Waiting registration registrations.old.rows ≡ Some worker }
    requires quiet { IsQuietIn in_place.Active registration workers.old registrations.old }
    requires room { 2 + users_of registration clients.old.rows ≤ notices.old.spare }
    ensures did { (scopes : Scopes) (rest : Rest)
        → Did (rules.activate
        (lent scopes workers.old registrations.old clients.old rest) registration worker)
        notices.old notices.new (lent scopes workers.new registrations.new clients.new rest) }
    ensures linked { (scopes : Scopes) → Linked scopes workers.old registrations.old clients.old
        → Linked scopes workers.new registrations.new clients.new }
    ensures counts { KeepCounts workers.old workers.new }
    ensures room { notices.old.spare
        ≤ notices.new.spare + (2 + users_of registration clients.old.rows) }
{
    retire(Slot::Active, registration, workers, registrations, notices);
    replace(registration, worker, workers, registrations, notices);
    clients.take_over(registration, worker, notices);
}

/// The waiting worker of a registration becomes the active one, where it may; the answer is that worker. It takes no
/// memory.
pub fn try_activate(
    registration: u32,
    workers: &mut Workers,
    registrations: &mut Registrations,
    clients: &mut Clients,
    notices: &mut Notices,
) -> Option<u32>
    requires slots { HasSlots workers.old registrations.old }
    requires noted { All (IsNoted workers.old) clients.old.rows }
    requires room { 2 + users_of registration clients.old.rows ≤ notices.old.spare }
    ensures did { (scopes : Scopes) (rest : Rest)
        → Did (rules.try_activate
        (lent scopes workers.old registrations.old clients.old rest) registration)
        notices.old notices.new (lent scopes workers.new registrations.new clients.new rest) }
    ensures answer { (scopes : Scopes) (rest : Rest) → result ≡ rules.chosen
        (lent scopes workers.old registrations.old clients.old rest) registration }
    ensures linked { (scopes : Scopes) → Linked scopes workers.old registrations.old clients.old
        → Linked scopes workers.new registrations.new clients.new }
    ensures counts { KeepCounts workers.old workers.new }
    ensures room { notices.old.spare
        ≤ notices.new.spare + (2 + users_of registration clients.old.rows) }
{
    match chosen(registration, workers, registrations, clients) {
        Some(worker) => {
            activate(
                registration,
                worker,
                workers,
                registrations,
                clients,
                notices,
            );
            Some(worker)
        }
        None => None,
    }
}
