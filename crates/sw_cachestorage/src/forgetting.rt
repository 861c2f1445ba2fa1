//! Forgetting a key: whether it is busy, and what goes where it isn't (own).

ghost use Rattle.std.specs.Prelude.{◌≡◌, ◌≤◌, ◌+◌, ◌*◌, ◌&&◌, ◌||◌, true, false, length, is_some, IfSome};
ghost use Rattle.std.specs.List.{list_any};
ghost use Rattle.sw_cachestorage.specs.Forgetting.{forget_at, forget_one, has_pending_of, mapped_at, mapped_of, room_of};
ghost use Rattle.sw_reg.specs.Table.{is_there};
ghost use Rattle.sw_rules.specs.Forgetting as rules;
ghost use Rattle.sw_rules.specs.Noticing.{Did};
ghost use Rattle.sw_rules.specs.Rows.{has_pending_worker};
ghost use Rattle.sw_state.specs.Hosted.{shown_of, state_of};

use sw_data::{RegistrationRow, Text};
use sw_rules::Notices;
use sw_state::HostTables;
use sw_tables::{clear, has_pending_worker, unmap};

// A handler or a fetch event of a worker of a registration is pending.
fn is_pending(host: &HostTables, number: u32) -> bool
    ensures { result ≡ has_pending_worker (state_of host.now) number }
{
    has_pending_worker(number, &host.workers, &host.registrations)
}

// A handler or a fetch event of a worker of a registration of a key is pending.
fn has_pending_of(host: &HostTables, key: &Text) -> bool
    ensures pending { result ≡ has_pending_of key.now (state_of host.now) }
    ensures either { result ≡ (list_any (λ row. is_some row.handler
        && rules.is_worker_of_key (state_of host.now) key.now row.number)
        (state_of host.now).workers
        || list_any (λ row. rules.is_worker_of_key (state_of host.now) key.now row.worker)
        (state_of host.now).fetch_events) }
{
    let mut at = host.registrations.first_of(key);
    while let Some(number) = at {
        if is_pending(host, number) {
            return true;
        }
        at = host.registrations.next_of(number);
    }
    false
}

/// A key has an open client, an unfinished job, a running handler, a pending fetch event or an unsettled addAll. It takes
/// no memory.
pub fn is_busy(host: &HostTables, key: &Text) -> bool
    ensures busy { result ≡ rules.is_busy (state_of host.now) key.now }
    ensures quiet { result ≡ false → has_pending_of key.now (state_of host.now) ≡ false }
{
    if host.clients.has_of(key) {
        return true;
    }
    if host.queues.has_unfinished_of(key) {
        return true;
    }
    if has_pending_of(host, key) {
        return true;
    }
    host.tasks.has_unsettled_of(key)
}

// The registration is a mapped one of a key.
fn is_mapped_of(host: &HostTables, row: &RegistrationRow, key: &Text) -> bool
    ensures { result ≡ rules.is_mapped_of key.now (shown_of host.now row.now) }
{
    match host.map.get(&row.key, &row.scope) {
        Some(number) => number == row.number && row.key == *key,
        None => false,
    }
}

// The number of the registration at a place, where it is a mapped one of a key.
fn mapped_at(host: &HostTables, place: u32, key: &Text) -> Option<u32>
    ensures number { result ≡ mapped_at key.now (state_of host.now) place }
    ensures there { IfSome result (λ number.
        is_there number host.now.registrations.rows ≡ true) }
{
    let row = host.registrations.rows().get(place as usize)?;
    if is_mapped_of(host, row, key) {
        Some(row.number)
    } else {
        None
    }
}

/// How many mapped registrations a key has. It takes no memory.
pub fn mapped_many(host: &HostTables, key: &Text) -> usize
    ensures { result ≡ length (mapped_of key.now (state_of host.now)) }
{
    let mut many = 0;
    let mut at = host.registrations.first_of(key);
    while let Some(number) = at {
        many += usize::from(mapped_at(host, number, key).is_some());
        at = host.registrations.next_of(number);
    }
    many
}

// A registration leaves the map and is cleared.
#[tactic(auto, unfolding(sw_rules::specs::Told::followed))]
fn forget_one(host: &mut HostTables, number: u32, notices: &mut Notices)
    requires there { is_there number host.old.registrations.rows ≡ true }
    requires quiet { has_pending_worker (state_of host.old) number ≡ false }
    requires room { 4 ≤ notices.old.spare }
    ensures did { Did (forget_one (state_of host.old) number) notices.old notices.new
        (state_of host.new) }
    ensures others { host.new ≡ record host.old {
      scopes = host.new.scopes;
      workers = host.new.workers;
      registrations = host.new.registrations;
    } }
    ensures room { notices.old.spare ≤ notices.new.spare + 4 }
{
    unmap(number, &mut host.map, &host.registrations, notices);
    clear(number, &mut host.workers, &mut host.registrations, notices);
}

// The registration at a place leaves the map and is cleared, where it is a mapped one of a key.
fn forget_at(host: &mut HostTables, place: u32, key: &Text, notices: &mut Notices)
    requires quiet { has_pending_of key.now (state_of host.old) ≡ false }
    requires room { room_of (mapped_at key.now (state_of host.old) place) ≤ notices.old.spare }
    ensures did { Did (forget_at key.now (state_of host.old) place) notices.old notices.new
        (state_of host.new) }
    ensures others { host.new ≡ record host.old {
      scopes = host.new.scopes;
      workers = host.new.workers;
      registrations = host.new.registrations;
    } }
    ensures room { notices.old.spare ≤ notices.new.spare
        + room_of (mapped_at key.now (state_of host.old) place) }
{
    match mapped_at(host, place, key) {
        Some(number) => forget_one(host, number, notices),
        None => (),
    }
}

/// A key that isn't busy is forgotten: its mapped registrations leave the map and are cleared, by rising number, and its
/// caches are removed. It takes no memory.
pub fn forget(host: &mut HostTables, key: &Text, notices: &mut Notices)
    requires quiet { has_pending_of key.now (state_of host.old) ≡ false }
    requires room { 4 * length (mapped_of key.now (state_of host.old)) ≤ notices.old.spare }
    ensures did { Did (rules.forget_key (state_of host.old) key.now) notices.old notices.new
        (state_of host.new) }
    ensures others { host.new ≡ record host.old {
      scopes = host.new.scopes;
      workers = host.new.workers;
      registrations = host.new.registrations;
      caches = host.new.caches;
    } }
{
    let mut at = host.registrations.first_of(key);
    while let Some(number) = at {
        forget_at(host, number, key, notices);
        at = host.registrations.next_of(number);
    }
    host.caches.drop_key(key);
}
