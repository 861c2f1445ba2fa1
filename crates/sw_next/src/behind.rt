//! The rows behind others.

ghost use Rattle.std.specs.Prelude.{◌≡◌, ◌+◌, option_map, slice_get};

use sw_ledgers::Tasks;
use sw_queue::Queues;
use sw_state::HostTables;
use sw_worker::Workers;

// The number of the job behind a job, none behind the last.
pub(crate) fn job_behind(queues: &Queues, job: u32) -> Option<u32>
    ensures { result
        ≡ option_map (λ row. row.job.number) (slice_get queues.now.rows (job + 1)) }
{
    Some(queues.rows().get(job as usize + 1)?.job.number)
}

// The number of the addAll behind an addAll, none behind the last.
#[tactic(auto, using(crate::proofs::FirstReady::number_behind))]
pub(crate) fn task_behind(tasks: &Tasks, task: u32) -> Option<u32>
    ensures { result ≡ option_map (λ row. row.number) (slice_get tasks.now.rows (task + 1)) }
{
    Some(tasks.rows().get(task as usize + 1)?.number)
}

// The number of the worker behind a worker, none behind the last.
pub(crate) fn worker_behind(workers: &Workers, worker: u32) -> Option<u32>
    ensures { result
        ≡ option_map (λ row. row.number) (slice_get workers.now.rows (worker + 1)) }
{
    Some(workers.rows().get(worker as usize + 1)?.number)
}
