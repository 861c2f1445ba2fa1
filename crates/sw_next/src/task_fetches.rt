//! The fetches of ready tasks.

ghost use Rattle.std.specs.Prelude.{◌≡◌, IfOk};
ghost use Rattle.sw_next.specs.Fetching.{fetches_of, fetches_of_add_all, fetches_of_job};
ghost use Rattle.sw_ledgers.specs.Tasks.{row_of};
ghost use Rattle.sw_state.specs.Hosted.{state_of};

use std::alloc::Global;
use sw_data::{JobRow, NoMemory, Task, Text};
use sw_ledgers::TaskRow;
use sw_state::HostTables;

// The script and the drawn number of a job's fetch, where it is drawn.
fn of_job(alloc: Global, row: &JobRow) -> Result<Vec<(Text, u32)>, NoMemory>
    ensures { IfOk result (λ all. all.items ≡ fetches_of_job row.now) }
{
    let mut all = Vec::new(alloc);
    if let Some(number) = row.fetch {
        all.push((row.job.script.copy(alloc)?, number))?;
    }
    Ok(all)
}

// The addresses and the drawn numbers of an addAll's fetches, in the order of its requests.
fn of_add_all(alloc: Global, row: &TaskRow) -> Result<Vec<(Text, u32)>, NoMemory>
    ensures { IfOk result (λ all. all.items ≡ fetches_of_add_all (row_of row.now)) }
{
    let mut all = Vec::new(alloc);
    let requests = row.requests.as_slice();
    let fetches = row.fetches.as_slice();
    for place in 0..requests.len().min(fetches.len()) {
        all.push((requests[place].url.copy(alloc)?, fetches[place]))?;
    }
    Ok(all)
}

// The fetch of a job.
fn fetches_of_job(host: &HostTables, alloc: Global, job: u32) -> Result<Vec<(Text, u32)>, NoMemory>
    ensures { IfOk result (λ all. all.items ≡ fetches_of (state_of host.now) (Task.Fetch job)) }
{
    match host.queues.row(job) {
        Some(row) => of_job(alloc, row),
        None => Ok(Vec::new(alloc)),
    }
}

// The fetches of an addAll.
fn fetches_of_add_all(
    host: &HostTables,
    alloc: Global,
    task: u32,
) -> Result<Vec<(Text, u32)>, NoMemory>
    ensures { IfOk result (λ all. all.items
        ≡ fetches_of (state_of host.now) (Task.FetchAll task)) }
{
    match host.tasks.row(task) {
        Some(row) => of_add_all(alloc, row),
        None => Ok(Vec::new(alloc)),
    }
}

/// The addresses and the drawn numbers of the fetches of a task, in order. Only a job's fetch and an addAll have any.
pub fn fetches(host: &HostTables, alloc: Global, task: Task) -> Result<Vec<(Text, u32)>, NoMemory>
    ensures { IfOk result (λ all. all.items ≡ fetches_of (state_of host.now) task) }
{
    match task {
        Task::Fetch(job) => fetches_of_job(host, alloc, job),
        Task::FetchAll(number) => fetches_of_add_all(host, alloc, number),
        _ => Ok(Vec::new(alloc)),
    }
}
