//! How many rows a host has: no more than there are numbers.

ghost use Rattle.std.specs.Prelude.{◌≡◌, ◌<◌, ◌≤◌, ◌^◌, length, map};
ghost use Rattle.std.specs.List.{range_with_len};
ghost use Rattle.sw_laws.specs.Coherent.{Coherent};
ghost use Rattle.sw_state.specs.Hosted.{state_of};

use crate::core_tables::Core;
use sw_data::{JobRow, RegistrationRow, WorkerRow};

// A number in memory has 32 bits.
fn is_number(_number: u32)
    ensures { _number < 2 ^ 32 }
{}

// Registrations that stand at their numbers are few.
#[tactic(auto, using(crate::proofs::Numbered::few))]
fn few_registrations(rows: &[RegistrationRow])
    requires { map (λ row. row.number) rows.now ≡ range_with_len 0 (length rows.now) }
    ensures { length rows.now ≤ 2 ^ 32 }
{
    if let Some(last) = rows.last() {
        is_number(last.number);
    }
}

// Workers that stand at their numbers are few.
#[tactic(auto, using(crate::proofs::Numbered::few))]
fn few_workers(rows: &[WorkerRow])
    requires { map (λ row. row.number) rows.now ≡ range_with_len 0 (length rows.now) }
    ensures { length rows.now ≤ 2 ^ 32 }
{
    if let Some(last) = rows.last() {
        is_number(last.number);
    }
}

// Jobs that stand at their numbers are few.
#[tactic(auto, using(crate::proofs::Numbered::few))]
fn few_jobs(rows: &[JobRow])
    requires { map (λ row. row.job.number) rows.now ≡ range_with_len 0 (length rows.now) }
    ensures { length rows.now ≤ 2 ^ 32 }
{
    if let Some(last) = rows.last() {
        is_number(last.job.number);
    }
}

impl Core {
    /// A host has no more jobs, workers, registrations and addAlls than there are numbers of 32 bits. It does nothing.
    pub fn are_few(&self)
        requires coherent { Coherent (state_of self.now) }
        ensures registrations { length (state_of self.now).registrations ≤ 2 ^ 32 }
        ensures workers { length (state_of self.now).workers ≤ 2 ^ 32 }
        ensures jobs { length (state_of self.now).jobs ≤ 2 ^ 32 }
        ensures tasks { length (state_of self.now).tasks ≤ 2 ^ 32 }
    {
        few_registrations(self.host.registrations.rows());
        few_workers(self.host.workers.rows());
        few_jobs(self.host.queues.rows());
        is_number(self.host.tasks.len());
    }
}
