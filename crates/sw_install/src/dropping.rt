//! A job that is rejected, and its registration that leaves the map where it has no worker.

ghost use Rattle.std.specs.Prelude.{◌≡◌, ◌+◌, ◌<◌, true, length, is_none};
ghost use Rattle.sw_queue.specs.Kept.{followers_of};
ghost use Rattle.sw_queue.specs.Tables.{has_job};
ghost use Rattle.sw_reg.specs.Table.{is_there};
ghost use Rattle.sw_rules.specs.Installing as rules;
ghost use Rattle.sw_rules.specs.Noticing.{Did};
ghost use Rattle.sw_rules.specs.Registrations as registrations_rules;
ghost use Rattle.sw_rules.specs.Rows.{is_first};
ghost use Rattle.sw_tables.specs.Happened.{with_jobs};
ghost use Rattle.sw_tables.specs.Lent.{Rest, lent};
ghost use Rattle.sw_tables.specs.Linked.{Linked};

use sw_client::Clients;
use sw_data::{Fault, Settlement};
use sw_queue::Queues;
use sw_reg::Registrations;
use sw_rules::Notices;
use sw_scope::ScopeMap;
use sw_tables::{finish, newest_row, settle, unmap};
use sw_worker::Workers;

// A registration without a worker leaves the map. It takes no memory.
#[tactic(auto, unfolding(sw_rules::specs::Registrations::drop_registration))]
pub(crate) fn drop_registration(
    registration: u32,
    map: &mut ScopeMap,
    workers: &Workers,
    registrations: &Registrations,
    clients: &Clients,
    notices: &mut Notices,
)
    requires linked { Linked map.old workers.now registrations.now clients.now }
    requires there { is_there registration registrations.now.rows ≡ true }
    requires room { 0 < notices.old.spare }
    ensures did { (rest : Rest) → Did (registrations_rules.drop_registration
        (lent map.old workers.now registrations.now clients.now rest) registration)
        notices.old notices.new
        (lent map.new workers.now registrations.now clients.now rest) }
    ensures linked { Linked map.new workers.now registrations.now clients.now }
{
    if newest_row(registration, workers, registrations).is_none() {
        unmap(registration, map, registrations, notices);
    }
}

// A job's promise is rejected, its registration leaves the map where it has no worker, and the job is over. It takes no
// memory.
pub(crate) fn reject_and_drop(
    job: u32,
    registration: u32,
    why: Fault,
    map: &mut ScopeMap,
    queues: &mut Queues,
    workers: &Workers,
    registrations: &Registrations,
    clients: &Clients,
    notices: &mut Notices,
)
    requires linked { Linked map.old workers.now registrations.now clients.now }
    requires there { is_there registration registrations.now.rows ≡ true }
    requires first { has_job (is_first queues.old.rows) job queues.old.rows ≡ true }
    requires queued { has_job (λ row. is_none row.leader) job queues.old.rows ≡ true }
    requires room { length (followers_of job queues.old.rows) + 1 < notices.old.spare }
    ensures did { (rest : Rest) → Did (rules.reject_and_drop
        (lent map.old workers.now registrations.now clients.now (with_jobs queues.old.rows rest))
        job registration why)
        notices.old notices.new
        (lent map.new workers.now registrations.now clients.now (with_jobs queues.new.rows rest)) }
    ensures linked { Linked map.new workers.now registrations.now clients.now }
{
    settle(job, Settlement::Fault(why), queues, notices);
    drop_registration(registration, map, workers, registrations, clients, notices);
    finish(job, queues);
}
