//! The end of an addAll's fetches (Service Workers, Cache, "addAll()").

ghost use Rattle.std.specs.Prelude.{◌≡◌, true, is_none, option_copied, IfOk, IfSome};
ghost use Rattle.sw_cachestorage.specs.Acts.{FitsAct, IsStep};
ghost use Rattle.sw_cachestorage.specs.Added.{IsEnded, fault_at, fetched_at, maker_of, noted_settled, put_at, response_fault, settled_by, stored};
ghost use Rattle.sw_ledgers.specs.Tasks.{has_task, row_of};
ghost use Rattle.sw_rules.specs.Caching as rules;
ghost use Rattle.sw_state.specs.Hosted.{SameRows, state_of};
ghost use Rattle.sw_worker.specs.Table.{has_unsettled, has_worker};

use crate::act::{CacheAct, CacheStep, refused};
use crate::writes::batch;
use std::alloc::Global;
use sw_caches::Caches;
use sw_data::{
    Answer, Cause, Change, Fault, FetchLine, Fetched, Items, NoMemory, Op, Request, Response,
    Settlement, Who,
};
use sw_ledgers::{TaskRow, Tasks};
use sw_match::varies_on_all;
use sw_state::HostTables;
use sw_worker::Workers;

/// What the fetches of an addAll came to, worked out: its answer, what is done to the caches, the durable changes, what it
/// settles with, and whether that is a fault.
#[derive(Drop)]
pub struct AddedStep {
    pub answer: Answer,
    pub act: CacheAct,
    pub changes: Items<Change>,
    pub value: Settlement,
    pub faulted: bool,
}

// What was fetched at a place, if anything.
fn fetched_at(lines: &[Option<FetchLine>], place: usize) -> Option<&Fetched>
    ensures { option_copied result ≡ fetched_at lines.now place }
{
    match lines.get(place) {
        Some(Some(line)) => line.fetched.as_ref(),
        _ => None,
    }
}

// The fault of a response.
fn response_fault(response: &Response) -> Option<Cause>
    ensures { result ≡ response_fault response.now }
{
    if response.status < 200 || response.status > 299 {
        return Some(Cause::Status);
    }
    if response.status == 206 {
        return Some(Cause::Partial);
    }
    if varies_on_all(response.headers.as_slice()) {
        return Some(Cause::Vary);
    }
    None
}

// The fault of the response at a place; none there is a network error.
fn fault_at(lines: &[Option<FetchLine>], place: usize) -> Option<Cause>
    ensures { result ≡ fault_at lines.now place }
{
    match fetched_at(lines, place) {
        Some(fetched) => response_fault(&fetched.response),
        None => Some(Cause::Network),
    }
}

// A place as a number, where it is one.
fn number_of(place: usize) -> Result<u32, NoMemory>
    ensures { IfOk result (λ number. number ≡ place) }
{
    match u32::try_from(place) {
        Ok(number) => Ok(number),
        Err(_) => Err(NoMemory),
    }
}

// The first fault of the responses to these requests.
fn responses_fault(
    requests: &[Request],
    lines: &[Option<FetchLine>],
) -> Result<Option<Fault>, NoMemory>
    ensures { IfOk result (λ why. why ≡ rules.responses_fault 0 requests.now lines.now) }
{
    for place in 0..requests.len() {
        if let Some(cause) = fault_at(lines, place) {
            let index = Some(number_of(place)?);
            return Ok(Some(Fault::TypeError { cause, index }));
        }
    }
    Ok(None)
}

// The put of a request and of the response at a place, where something was fetched.
fn put_at(
    alloc: Global,
    request: &Request,
    lines: &[Option<FetchLine>],
    place: usize,
) -> Result<Option<Op>, NoMemory>
    ensures { IfOk result (λ put. put ≡ put_at request.now lines.now place) }
{
    match fetched_at(lines, place) {
        Some(fetched) => Ok(Some(Op::Put {
            request: request.copy(alloc)?,
            response: fetched.response.copy(alloc)?,
        })),
        None => Ok(None),
    }
}

// The batch of an addAll.
fn puts_of(
    alloc: Global,
    requests: &[Request],
    lines: &[Option<FetchLine>],
) -> Result<Vec<Op>, NoMemory>
    ensures { IfOk result (λ ops. ops.items ≡ rules.puts_of requests.now lines.now) }
{
    let mut ops = Vec::new(alloc);
    for place in 0..requests.len() {
        if let Some(put) = put_at(alloc, &requests[place], lines, place)? {
            ops.push(put)?;
        }
    }
    Ok(ops)
}

// What an addAll does to its cache, worked out.
fn stored(
    alloc: Global,
    row: &TaskRow,
    lines: &[Option<FetchLine>],
    caches: &mut Caches,
) -> Result<CacheStep, NoMemory>
    ensures same { caches.new.rows ≡ caches.old.rows }
    ensures fits { IfOk result (λ step. FitsAct step.act caches.new) }
    ensures step { IfOk result
        (IsStep caches.old.rows (λ state. stored state lines.now (row_of row.now))) }
{
    match responses_fault(row.requests.as_slice(), lines)? {
        Some(why) => Ok(refused(alloc, why)),
        None => {
            let ops = puts_of(alloc, row.requests.as_slice(), lines)?;
            batch(alloc, caches, &row.key, &row.name, ops, None, false)
        }
    }
}

// An addAll settles with what was done to its cache.
fn settled(step: CacheStep) -> AddedStep
    ensures { result ≡ settled_by step }
{
    let CacheStep {
        answer,
        act,
        changes,
    } = step;
    let (value, faulted) = match answer {
        Answer::Fault(why) => (Settlement::Fault(why), true),
        _ => (Settlement::Done, false),
    };
    AddedStep {
        answer,
        act,
        changes,
        value,
        faulted,
    }
}

/// The fetches of an addAll have ended, worked out. No table changes but for its room.
pub fn added(
    host: &mut HostTables,
    alloc: Global,
    task: u32,
    lines: &[Option<FetchLine>],
) -> Result<AddedStep, NoMemory>
    requires { has_task (λ row. is_none row.settled) task host.old.tasks.rows ≡ true }
    ensures same { SameRows host.old host.new }
    ensures fits { IfOk result (λ step. FitsAct step.act host.new.caches) }
    ensures step { IfOk result (IsEnded task lines.now host.old) }
{
    let Some(row) = host.tasks.row(task) else {
        unreachable!();
    };
    let step = stored(alloc, row, lines, &mut host.caches)?;
    Ok(settled(step))
}

// The worker whose handler made an addAll, if one did.
fn maker_of(task: u32, tasks: &Tasks) -> Option<u32>
    ensures { result ≡ maker_of task tasks.now.rows }
{
    match tasks.row(task) {
        Some(row) => match row.maker {
            Who::Handler { worker, .. } => Some(worker),
            _ => None,
        },
        None => None,
    }
}

// The handler of a worker, where there is one, notes that an addAll of it has settled.
fn note_settled(worker: Option<u32>, fault: bool, workers: &mut Workers)
    requires { IfSome worker
        (λ number. has_worker has_unsettled number workers.old.rows ≡ true) }
    ensures { workers.new ≡ record workers.old {
      rows = noted_settled worker fault workers.old.rows;
    } }
{
    if let Some(worker) = worker {
        workers.task_settled(worker, fault);
    }
}

/// An addAll settles, and the handler that made it notes a fault. It takes no memory.
pub fn settle_added(host: &mut HostTables, task: u32, value: Settlement, faulted: bool)
    requires { has_task (λ row. is_none row.settled) task host.old.tasks.rows ≡ true }
    ensures state { state_of host.new
        ≡ (rules.settle_task (state_of host.old) task value faulted).state }
    ensures others { host.new ≡ record host.old {
      workers = host.new.workers;
      tasks = host.new.tasks;
    } }
{
    let maker = maker_of(task, &host.tasks);
    host.tasks.settle(task, value);
    note_settled(maker, faulted, &mut host.workers);
}
