//! The texts of answers and of notices.

ghost use Rattle.std.specs.Prelude.{◌≡◌, IfOk, string_bytes};
ghost use Rattle.sw_print.specs.Transcript.{answer_text, switch_word, worker_state_word, notice_text};

use crate::faults::{fault_text, settlement_text, truth_word};
use crate::lists::{listed_names, listed_numbers, quoted};
use std::alloc::{AllocError, Global};
use sw_data::{Answer, Notice, Settlement, Text, WorkerState};

/// The word for a switch.
pub fn switch_word(on: bool) -> &'static str
    ensures { result.now ≡ switch_word on }
{
    if on { "on" } else { "off" }
}

// A first match: its cache, its place, its status and the length of its body.
fn hit_text(
    alloc: Global,
    name: &Text,
    place: u32,
    status: u16,
    length: u64,
) -> Result<String, AllocError>
    ensures { IfOk result (λ text. string_bytes text
        ≡ answer_text (Answer.Hit name.now place status length)) }
{
    let name = quoted(alloc, name)?;
    format!(in alloc; "hit {name} {place} {status} {length}")
}

// A registration's navigation preload: its switch and its value.
fn preload_text(alloc: Global, on: bool, value: &Text) -> Result<String, AllocError>
    ensures { IfOk result (λ text. string_bytes text ≡ answer_text (Answer.Preload on value.now)) }
{
    let word = switch_word(on);
    let value = quoted(alloc, value)?;
    format!(in alloc; "{word} {value}")
}

// How many registrations and caches there are after a restart.
fn restarted_text(alloc: Global, registrations: u32, caches: u32) -> Result<String, AllocError>
    ensures { IfOk result (λ text. string_bytes text
        ≡ answer_text (Answer.Restarted registrations caches)) }
{
    format!(in alloc; "{registrations} registrations {caches} caches")
}

/// The text of an answer.
pub fn answer_text(alloc: Global, answer: &Answer) -> Result<String, AllocError>
    ensures { IfOk result (λ text. string_bytes text ≡ answer_text answer.now) }
{
    match answer {
        Answer::Ok => String::from_str(alloc, "ok"),
        Answer::None => String::from_str(alloc, "none"),
        Answer::Undefined => String::from_str(alloc, "undefined"),
        Answer::Truth(truth) => String::from_str(alloc, truth_word(*truth)),
        Answer::Made => String::from_str(alloc, "made"),
        Answer::Found => String::from_str(alloc, "found"),
        Answer::Worker(worker) => format!(in alloc; "w{worker}"),
        Answer::Registration(number) => format!(in alloc; "r{number}"),
        Answer::Registrations(numbers) => listed_numbers(alloc, "r", numbers.as_slice()),
        Answer::Job(job) => format!(in alloc; "j{job}"),
        Answer::Joined { job, leader } => format!(in alloc; "j{job} joined j{leader}"),
        Answer::Task(task) => format!(in alloc; "a{task}"),
        Answer::Names(names) => listed_names(alloc, names.as_slice()),
        Answer::Places(places) => listed_numbers(alloc, "", places.as_slice()),
        Answer::Hit {
            name,
            place,
            status,
            length,
        } => hit_text(alloc, name, *place, *status, *length),
        Answer::Preload { on, value } => preload_text(alloc, *on, value),
        Answer::Fault(fault) => fault_text(alloc, *fault),
        Answer::InUse => String::from_str(alloc, "InUse"),
        Answer::NoClient => String::from_str(alloc, "NoClient"),
        Answer::NoWorker => String::from_str(alloc, "NoWorker"),
        Answer::NoController => String::from_str(alloc, "NoController"),
        Answer::NoEvent => String::from_str(alloc, "NoEvent"),
        Answer::Busy => String::from_str(alloc, "Busy"),
        Answer::Finished => String::from_str(alloc, "finished"),
        Answer::Fetch(ordinal) => format!(in alloc; "fetch {ordinal}"),
        Answer::Rejected => String::from_str(alloc, "rejected"),
        Answer::Unchanged => String::from_str(alloc, "unchanged"),
        Answer::Changed => String::from_str(alloc, "changed"),
        Answer::Threw => String::from_str(alloc, "threw"),
        Answer::Installing => String::from_str(alloc, "installing"),
        Answer::Failed => String::from_str(alloc, "failed"),
        Answer::Restarted {
            registrations,
            caches,
        } => restarted_text(alloc, *registrations, *caches),
    }
}

// The word for a worker's state.
fn worker_state_word(state: WorkerState) -> &'static str
    ensures { result.now ≡ worker_state_word state }
{
    match state {
        WorkerState::Parsed => "parsed",
        WorkerState::Installing => "installing",
        WorkerState::Installed => "installed",
        WorkerState::Activating => "activating",
        WorkerState::Activated => "activated",
        WorkerState::Redundant => "redundant",
    }
}

// A change of a worker's state.
fn worker_text(alloc: Global, worker: u32, state: WorkerState) -> Result<String, AllocError>
    ensures { IfOk result (λ text. string_bytes text ≡ notice_text (Notice.Worker worker state)) }
{
    let word = worker_state_word(state);
    format!(in alloc; "w{worker} {word}")
}

// The end of a job's promise.
fn settled_text(alloc: Global, job: u32, value: Settlement) -> Result<String, AllocError>
    ensures { IfOk result (λ text. string_bytes text ≡ notice_text (Notice.Settled job value)) }
{
    let value = settlement_text(alloc, value)?;
    format!(in alloc; "settled j{job} {value}")
}

/// The text of a notice.
pub fn notice_text(alloc: Global, notice: Notice) -> Result<String, AllocError>
    ensures { IfOk result (λ text. string_bytes text ≡ notice_text notice) }
{
    match notice {
        Notice::Mapped(registration) => format!(in alloc; "mapped r{registration}"),
        Notice::Unmapped(registration) => format!(in alloc; "unmapped r{registration}"),
        Notice::Worker { worker, state } => worker_text(alloc, worker, state),
        Notice::Settled { job, value } => settled_text(alloc, job, value),
        Notice::UpdateFound(registration) => format!(in alloc; "updatefound r{registration}"),
        Notice::ControllerChange(client) => format!(in alloc; "controllerchange c{client}"),
    }
}
