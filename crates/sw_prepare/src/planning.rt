//! Room for what a work tells.

ghost use Rattle.std.specs.Prelude.{◌≡◌, ◌≤◌, [], IfOk};
ghost use Rattle.sw_work.specs.Planned.{Fits};
ghost use Rattle.sw_work.specs.Plans.{FitsWork, act_room, job_room, page_room, users_with, work_room};

use std::alloc::Global;
use sw_cachestorage::mapped_many;
use sw_data::NoMemory;
use sw_pages::PageAct;
use sw_rules::Notices;
use sw_state::HostTables;
use sw_work::{Act, Plan, Work};

// A work that isn't done, for want of memory. The arms of `planned` move their work: one that they would drop themselves at
// an early end costs the check minutes.
fn undone(work: Work) -> NoMemory {
    drop(work);
    NoMemory
}

// How many notices an act of a page may tell.
fn page_room(host: &HostTables, act: &PageAct) -> usize
    ensures { result ≡ page_room act.now host.now }
{
    match act {
        PageAct::Close(_) => 5,
        PageAct::SkipWaiting { registration, .. } => {
            2 + host.clients.users(*registration) as usize
        }
        PageAct::Claim { .. } => 6 * host.clients.len() as usize,
        PageAct::End { registration, .. } => 5 + host.clients.users(*registration) as usize,
        _ => 0,
    }
}

// How many notices an act may tell.
fn act_room(host: &HostTables, act: &Act) -> Result<usize, NoMemory>
    ensures { IfOk result (λ room. room ≡ act_room act.now host.now) }
{
    match act {
        Act::Page(act) => Ok(page_room(host, act)),
        Act::Forget(key) => mapped_many(host, key).checked_mul(4).ok_or(NoMemory),
        _ => Ok(0),
    }
}

// How many notices a job's event may tell.
fn job_room(host: &HostTables, job: u32) -> Result<usize, NoMemory>
    ensures { IfOk result (λ room. room ≡ job_room job host.now) }
{
    host.queues
        .followers(job)
        .len()
        .checked_add(5)
        .ok_or(NoMemory)
}

// How many clients use the registration of a worker.
fn users_with(host: &HostTables, worker: u32) -> u32
    ensures { result ≡ users_with worker host.now }
{
    match host.workers.row(worker) {
        Some(row) => host.clients.users(row.registration),
        None => 0,
    }
}

// How many notices a work may tell.
fn work_room(host: &HostTables, work: &Work) -> Result<usize, NoMemory>
    ensures { IfOk result (λ room. room ≡ work_room work.now host.now) }
{
    match work {
        Work::Asked(asked) => act_room(host, &asked.act),
        Work::Start { .. } | Work::Added { .. } => Ok(0),
        Work::Register { job, .. } => job_room(host, *job),
        Work::Update { job, .. } => job_room(host, *job),
        Work::Unregister { job, .. } => job_room(host, *job),
        Work::Fetched { job, .. } => job_room(host, *job),
        Work::Evaluated(job) => job_room(host, *job),
        Work::Installed(job) => job_room(host, *job),
        Work::TryActivate(registration) => Ok(2 + host.clients.users(*registration) as usize),
        Work::Activated(worker) => Ok(6 + users_with(host, *worker) as usize),
    }
}

// Room for what a work tells.
fn notices_for(host: &HostTables, alloc: Global, work: &Work) -> Result<Notices, NoMemory>
    ensures empty { IfOk result (λ notices. notices.rows ≡ []) }
    ensures room { IfOk result (λ notices. work_room work.now host.now ≤ notices.spare) }
{
    let room = work_room(host, work)?;
    Notices::with_room(alloc, room)
}

// The plan of a work that was worked out, with room for what it tells.
pub(crate) fn planned(host: &HostTables, alloc: Global, work: Work) -> Result<Plan, NoMemory>
    requires { FitsWork work host.now }
    ensures { IfOk result (λ plan. Fits plan host.now × (plan.work ≡ work)) }
{
    match notices_for(host, alloc, &work) {
        Ok(notices) => Ok(Plan { work, notices }),
        Err(NoMemory) => Err(undone(work)),
    }
}
