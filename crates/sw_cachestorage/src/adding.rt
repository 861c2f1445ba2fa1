//! addAll (Service Workers, Cache, "addAll()"): up to its fetches, and behind them.

ghost use Rattle.std.specs.Prelude.{◌≡◌, ◌≤◌, None, Some, true, IfOk, IfSome};
ghost use Rattle.sw_cachestorage.specs.Adding.{FitsNew, FitsStart, FitsTables, IsBegun, added_by};
ghost use Rattle.sw_data.specs.declared.answers.Answer.TheVariants as answer;
ghost use Rattle.sw_data.specs.declared.answers.Settlement.TheVariants as settlement;
ghost use Rattle.sw_ledgers.specs.declared.promises.Awaited.TheVariants as awaited;
ghost use Rattle.sw_rules.specs.Caching as rules;
ghost use Rattle.sw_rules.specs.Calls as calls;
ghost use Rattle.sw_rules.specs.Rows.{maker_worker};
ghost use Rattle.sw_rules.specs.State.{State};
ghost use Rattle.sw_rules.specs.Told.{quiet};
ghost use Rattle.sw_state.specs.Hosted.{SameRows, state_of};
ghost use Rattle.sw_worker.specs.Table.{has_calls_left, has_worker};

use crate::place::place_key;
use std::alloc::Global;
use sw_caches::has_http_scheme;
use sw_data::{
    Answer, CacheAddAll, Cause, Fault, Items, NoMemory, Place, Request, Settlement, Text, Who,
};
use sw_ledgers::{Awaited, Draws, NewDraws, NewTask, Tasks};
use sw_match::is_get;
use sw_state::HostTables;
use sw_tables::note_call;
use sw_url::{UrlFault, resolve};

/// An addAll that goes on to its fetches: its row, in which they have no numbers yet, and the room for the numbers.
#[derive(Drop)]
pub struct NewAddAll {
    pub row: NewTask,
    pub draws: NewDraws,
}

/// An addAll, worked out up to its fetches: its answer, what goes on to them, and what its promise waits for.
#[derive(Drop)]
pub struct AddAllStep {
    pub answer: Answer,
    pub start: Option<NewAddAll>,
    pub awaited: Awaited,
}

// A fault, which the promise of the addAll gets.
fn rejected(why: Fault) -> AddAllStep
    ensures { result ≡ record {
      answer = answer.Fault why;
      start = None;
      awaited = awaited.Value (settlement.Fault why);
    } }
{
    AddAllStep {
        answer: Answer::Fault(why),
        start: None,
        awaited: Awaited::Value(Settlement::Fault(why)),
    }
}

// Why a request is refused before any fetch.
fn request_fault(request: &Request) -> Option<Cause>
    ensures { result ≡ rules.request_fault request.now }
{
    if !has_http_scheme(request.url.as_bytes()) {
        return Some(Cause::Scheme);
    }
    if !is_get(request) {
        return Some(Cause::Method);
    }
    None
}

// A request with its address parsed against a base, or why it is refused.
fn fetchable(
    alloc: Global,
    base: &Text,
    request: &Request,
) -> Result<Result<Request, Cause>, NoMemory>
    ensures { IfOk result (λ parsed. parsed ≡ rules.fetchable base.now request.now) }
{
    match resolve(alloc, &request.url, base) {
        Ok(url) => {
            let parsed = request.with_url(alloc, url)?;
            match request_fault(&parsed) {
                Some(why) => Ok(Err(why)),
                None => Ok(Ok(parsed)),
            }
        }
        Err(UrlFault::NoMemory) => Err(NoMemory),
        Err(_) => Ok(Err(Cause::Unparsed)),
    }
}

// All requests with their addresses parsed, or why the first bad one is refused.
fn fetchable_all(
    alloc: Global,
    base: &Text,
    requests: &[Request],
) -> Result<Result<Items<Request>, Cause>, NoMemory>
    ensures { IfOk result (λ all. all ≡ rules.fetchable_all base.now requests.now) }
{
    let mut all = Items::new(alloc);
    for request in requests {
        match fetchable(alloc, base, request)? {
            Ok(parsed) => all.push(parsed)?,
            Err(why) => return Ok(Err(why)),
        }
    }
    Ok(Ok(all))
}

// An addAll whose requests are good goes on to its fetches.
fn start(
    host: &mut HostTables,
    alloc: Global,
    who: Who,
    key: &Text,
    name: &Text,
    requests: Items<Request>,
) -> Result<AddAllStep, NoMemory>
    ensures same { SameRows host.old host.new }
    ensures task_room { host.old.tasks.spare ≤ host.new.tasks.spare }
    ensures draw_room { host.old.draws.spare ≤ host.new.draws.spare }
    ensures fits { IfOk result (λ step. FitsStart step.start host.new) }
    ensures maker { IfOk result (λ step. IfSome step.start (λ new. new.row.maker ≡ who)) }
    ensures step { IfOk result (IsBegun who
        (λ state. rules.start_task state who key.now name.now requests) host.old) }
{
    let new = host.draws.draw_rows(alloc, requests.as_slice())?;
    let row = host
        .tasks
        .make_row(alloc, who, key, name, requests, Items::new(alloc))?;
    let number = row.number();
    Ok(AddAllStep {
        answer: Answer::Task(number),
        start: Some(NewAddAll { row, draws: new }),
        awaited: Awaited::Task(number),
    })
}

/// An addAll, worked out up to its fetches, at a key: the cache is there, and each request is good in turn. No table
/// changes but for its room.
#[tactic(auto, unfolding(sw_rules::specs::Registering::rejected, sw_rules::specs::Told::followed))]
pub fn add_all(
    host: &mut HostTables,
    alloc: Global,
    who: Who,
    base: &Text,
    key: &Text,
    asked: &CacheAddAll,
) -> Result<AddAllStep, NoMemory>
    ensures same { SameRows host.old host.new }
    ensures task_room { host.old.tasks.spare ≤ host.new.tasks.spare }
    ensures draw_room { host.old.draws.spare ≤ host.new.draws.spare }
    ensures fits { IfOk result (λ step. FitsStart step.start host.new) }
    ensures maker { IfOk result (λ step. IfSome step.start (λ new. new.row.maker ≡ who)) }
    ensures step { IfOk result (IsBegun who
        (λ state. rules.add_all state who base.now asked.now key.now) host.old) }
{
    if !host.caches.has(key, &asked.name) {
        return Ok(rejected(Fault::CacheGone));
    }
    match fetchable_all(alloc, base, asked.requests.as_slice())? {
        Ok(requests) => start(host, alloc, who, key, &asked.name, requests),
        Err(cause) => Ok(rejected(Fault::TypeError { cause, index: None })),
    }
}

/// An addAll of a page, worked out up to its fetches: its promise gets a fault of the page's address too.
#[tactic(auto, unfolding(sw_rules::specs::Registering::rejected, sw_rules::specs::Told::followed))]
pub fn add_all_at(
    host: &mut HostTables,
    alloc: Global,
    who: Who,
    place: &Place,
    asked: &CacheAddAll,
) -> Result<AddAllStep, NoMemory>
    ensures same { SameRows host.old host.new }
    ensures task_room { host.old.tasks.spare ≤ host.new.tasks.spare }
    ensures draw_room { host.old.draws.spare ≤ host.new.draws.spare }
    ensures fits { IfOk result (λ step. FitsStart step.start host.new) }
    ensures maker { IfOk result (λ step. IfSome step.start (λ new. new.row.maker ≡ who)) }
    ensures step { IfOk result (IsBegun who
        (λ state. rules.add_all_at state who place.now asked.now) host.old) }
{
    match place_key(alloc, place)? {
        Ok(key) => add_all(host, alloc, who, &place.at, &key, asked),
        Err(why) => Ok(rejected(why)),
    }
}

// The numbers of the fetches of an addAll are drawn, and the addAll is added last.
#[tactic(auto, unfolding(sw_rules::specs::Caching::add_task))]
fn add(new: NewAddAll, tasks: &mut Tasks, draws: &mut Draws)
    requires { FitsTables new tasks.old draws.old }
    ensures { (others : State)
        → added_by new (record others { tasks = tasks.old.rows; draws = draws.old.rows })
        ≡ quiet (record others { tasks = tasks.new.rows; draws = draws.new.rows }) }
{
    let NewAddAll { row, draws: drawn } = new;
    let fetches = draws.draw_all(drawn);
    tasks.make_put(row.with_fetches(fetches));
}

/// An addAll of a lane that was worked out goes on to its fetches, whose numbers are drawn. It takes no memory.
pub fn start_all(host: &mut HostTables, new: NewAddAll)
    requires fits { FitsNew new host.old }
    requires maker { maker_worker new.row.maker ≡ None }
    ensures told { added_by new (state_of host.old) ≡ quiet (state_of host.new) }
    ensures others { host.new ≡ record host.old {
      tasks = host.new.tasks;
      draws = host.new.draws;
    } }
{
    add(new, &mut host.tasks, &mut host.draws);
}

/// An addAll of a handler that was worked out goes on to its fetches, whose numbers are drawn, and the handler has made
/// one call more, which was answered by a fault or not. It takes no memory.
pub fn start_called(host: &mut HostTables, new: NewAddAll, worker: u32, fault: bool)
    requires fits { FitsNew new host.old }
    requires maker { maker_worker new.row.maker ≡ Some worker }
    requires calls { has_worker has_calls_left worker host.old.workers.rows ≡ true }
    ensures state { state_of host.new
        ≡ (calls.note_call (added_by new (state_of host.old)).state worker fault).state }
    ensures others { host.new ≡ record host.old {
      workers = host.new.workers;
      tasks = host.new.tasks;
      draws = host.new.draws;
    } }
{
    add(new, &mut host.tasks, &mut host.draws);
    note_call(worker, fault, true, &mut host.workers, &host.registrations);
}
