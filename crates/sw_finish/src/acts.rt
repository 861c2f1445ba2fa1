//! What actions and calls do, done: it takes no memory.

ghost use Rattle.std.specs.Prelude.{◌≡◌, ◌≤◌, ◌<◌, true, List, None, Some};
ghost use Rattle.sw_cachestorage.specs.Acts.{FitsAct};
ghost use Rattle.sw_cachestorage.specs.Added.{IsAdded};
ghost use Rattle.sw_cachestorage.specs.Adding.{FitsNew, added_by};
ghost use Rattle.sw_client.specs.Table as clients_table;
ghost use Rattle.sw_data.specs.declared.storage.Change.{Change};
ghost use Rattle.sw_pages.specs.Acts.{told_by};
ghost use Rattle.sw_queue.specs.Tables.{FitsJob};
ghost use Rattle.sw_rules.specs.Calls as calls;
ghost use Rattle.sw_rules.specs.Clients as rules;
ghost use Rattle.sw_rules.specs.Jobs as jobs;
ghost use Rattle.sw_rules.specs.Noticing.{Did, NoticeList};
ghost use Rattle.sw_rules.specs.Preloading.{set_preload};
ghost use Rattle.sw_rules.specs.Rows.{maker_worker};
ghost use Rattle.sw_rules.specs.Told.{Outcome, Told};
ghost use Rattle.sw_tables.specs.Linked.{IsNoted, registration_of};
ghost use Rattle.sw_state.specs.Hosted.{state_of};
ghost use Rattle.sw_work.specs.Plans.{FitsAdded, FitsAsked, FitsPageAct, FitsStart, FitsTheAct, FitsThen, Goes, act_room, has_calls_left, outcome_of, page_room, started_outcome, told_by_act, told_by_caches, told_then, with_promise};
ghost use Rattle.sw_worker.specs.Fits.{FitsEvent};

use sw_activate::unload;
use sw_cachestorage::{
    AddedStep, CacheAct, NewAddAll, finish_on_caches, forget, settle_added, start_all, start_called,
};
use sw_client::NewClient;
use sw_data::Answer;
use sw_ledgers::{NewPreload, NewPromise};
use sw_pages::PageAct;
use sw_queue::NewJob;
use sw_rules::Notices;
use sw_state::HostTables;
use sw_tables::{add, note_call, remove};
use sw_work::{Act, Asked, Then};
use sw_worker::NewEvent;

// A client is added last.
fn add_client(host: &mut HostTables, new: NewClient)
    requires fits { clients_table.FitsClient new host.old.clients }
    requires noted { IsNoted host.old.workers new }
    ensures state { state_of host.new
        ≡ (rules.add_client (state_of host.old) new.client).state }
    ensures promises { host.new.promises ≡ host.old.promises }
{
    add(new, &mut host.clients);
}

// A client leaves the registration that it uses, and is removed.
#[tactic(auto, unfolding(sw_rules::specs::Clients::leave))]
fn close_client(host: &mut HostTables, client: u32, notices: &mut Notices)
    requires room { 5 ≤ notices.old.spare }
    ensures did { Did (rules.leave (state_of host.old) client) notices.old notices.new
        (state_of host.new) }
    ensures promises { host.new.promises ≡ host.old.promises }
{
    let _ = unload(
        client,
        &mut host.map,
        &mut host.queues,
        &mut host.workers,
        &mut host.registrations,
        &mut host.clients,
        notices,
    );
    remove(client, &mut host.clients);
}

// A job is scheduled.
#[tactic(auto, unfolding(sw_rules::specs::Jobs::schedule))]
fn schedule(host: &mut HostTables, row: NewJob)
    requires { FitsJob row host.old.queues }
    ensures state { state_of host.new ≡ (jobs.schedule (state_of host.old) row.job).state }
    ensures promises { host.new.promises ≡ host.old.promises }
{
    let _ = host.queues.schedule_put(row);
}

// The skip waiting flag of a worker of a registration is set.
fn skip_waiting(host: &mut HostTables, registration: u32, worker: u32, notices: &mut Notices)
    requires owner { registration_of host.old.workers.rows worker ≡ Some registration }
    requires room { page_room (PageAct.SkipWaiting registration worker) host.old
        ≤ notices.old.spare }
    ensures did { Did (rules.skip_waiting (state_of host.old) registration worker)
        notices.old notices.new (state_of host.new) }
    ensures promises { host.new.promises ≡ host.old.promises }
{
    let _ = sw_activate::skip_waiting(
        worker,
        &mut host.map,
        &mut host.queues,
        &mut host.workers,
        &mut host.registrations,
        &mut host.clients,
        notices,
    );
}

// The active worker of a registration claims the clients that match it.
fn claim(host: &mut HostTables, registration: u32, worker: u32, notices: &mut Notices)
    requires fits { FitsPageAct (PageAct.Claim registration worker) host.old }
    requires room { page_room (PageAct.Claim registration worker) host.old ≤ notices.old.spare }
    ensures did { Did (told_by (PageAct.Claim registration worker) (state_of host.old))
        notices.old notices.new (state_of host.new) }
    ensures promises { host.new.promises ≡ host.old.promises }
{
    let _ = sw_activate::claim(
        worker,
        &mut host.map,
        &mut host.queues,
        &mut host.workers,
        &mut host.registrations,
        &mut host.clients,
        notices,
    );
}

// The fetch event begins.
fn begin_event(host: &mut HostTables, new: NewEvent)
    requires { FitsEvent new host.old.workers }
    ensures state { state_of host.new
        ≡ (rules.add_event (state_of host.old) new.number new.worker).state }
    ensures promises { host.new.promises ≡ host.old.promises }
{
    host.workers.begin_put(new);
}

// The fetch event of a worker of a registration ends.
fn end_event(host: &mut HostTables, event: u32, registration: u32, notices: &mut Notices)
    requires fits { FitsPageAct (PageAct.End event registration) host.old }
    requires room { page_room (PageAct.End event registration) host.old ≤ notices.old.spare }
    ensures did { Did (rules.end_event (state_of host.old) event registration)
        notices.old notices.new (state_of host.new) }
    ensures promises { host.new.promises ≡ host.old.promises }
{
    let _ = sw_activate::end_event(
        event,
        &mut host.map,
        &mut host.queues,
        &mut host.workers,
        &mut host.registrations,
        &mut host.clients,
        notices,
    );
}

// What an act of a page does.
fn do_page(host: &mut HostTables, act: PageAct, notices: &mut Notices)
    requires fits { FitsPageAct act host.old }
    requires room { page_room act host.old ≤ notices.old.spare }
    ensures did { Did (told_by act (state_of host.old)) notices.old notices.new
        (state_of host.new) }
    ensures promises { host.new.promises ≡ host.old.promises }
{
    match act {
        PageAct::Nothing => (),
        PageAct::Open(new) => add_client(host, new),
        PageAct::Close(client) => close_client(host, client, notices),
        PageAct::Schedule(row) => schedule(host, row),
        PageAct::SkipWaiting {
            registration,
            worker,
        } => skip_waiting(host, registration, worker, notices),
        PageAct::Claim {
            registration,
            worker,
        } => claim(host, registration, worker, notices),
        PageAct::Begin(new) => begin_event(host, new),
        PageAct::End {
            event,
            registration,
        } => end_event(host, event, registration, notices),
        PageAct::Preload { .. } => unreachable!(),
    }
}

// The registration gets its navigation preload.
#[tactic(auto, unfolding(sw_rules::specs::Preloading::set_preload))]
fn set_preload(host: &mut HostTables, row: NewPreload)
    requires { 0 < host.old.preloads.spare }
    ensures state { state_of host.new
        ≡ (set_preload (state_of host.old) row.registration row.on row.value).state }
    ensures promises { host.new.promises ≡ host.old.promises }
{
    host.preloads.set_put(row);
}

// What is done to the caches.
fn act_on_caches(host: &mut HostTables, act: CacheAct)
    requires { FitsAct act host.old.caches }
    ensures state { (changes : List Change)
        → state_of host.new ≡ (told_by_caches act changes (state_of host.old)).state }
    ensures promises { host.new.promises ≡ host.old.promises }
{
    finish_on_caches(&mut host.caches, act);
}

// What an act does.
fn do_act(host: &mut HostTables, act: Act, notices: &mut Notices)
    requires fits { FitsTheAct act host.old }
    requires room { act_room act host.old ≤ notices.old.spare }
    ensures did { Did (told_by_act act (state_of host.old)) notices.old notices.new
        (state_of host.new) }
    ensures promises { host.new.promises ≡ host.old.promises }
{
    match act {
        Act::Page(act) => do_page(host, act, notices),
        Act::Preload(row) => set_preload(host, row),
        Act::Caches { act, .. } => act_on_caches(host, act),
        Act::Forget(key) => forget(host, &key, notices),
    }
}

// The handler of a worker has made one call more, which made no addAll.
#[tactic(auto, unfolding(sw_rules::specs::Calls::note_call))]
fn call_made(host: &mut HostTables, worker: u32, fault: bool)
    requires { has_calls_left worker (state_of host.old) ≡ true }
    ensures { state_of host.new ≡ (calls.note_call (state_of host.old) worker fault).state }
{
    note_call(worker, fault, false, &mut host.workers, &host.registrations);
}

// A promise takes the place of an earlier one of its lane and position.
fn promise(host: &mut HostTables, row: NewPromise)
    requires { 0 < host.old.promises.spare }
    ensures { state_of host.new ≡ with_promise row (state_of host.old) }
{
    host.promises.promise_put(row);
}

// What follows.
fn follow(host: &mut HostTables, then: Then)
    requires { FitsThen then (state_of host.old) host.old }
    ensures { (told : Told) (before after : NoticeList)
        → Did told before after (state_of host.old)
        → Did (told_then then told) before after (state_of host.new) }
{
    match then {
        Then::Nothing => (),
        Then::Promise(row) => promise(host, row),
        Then::Called { worker, fault } => call_made(host, worker, fault),
    }
}

// An action or a call is done.
pub(crate) fn do_asked(host: &mut HostTables, asked: Asked, notices: &mut Notices) -> Option<Answer>
    requires fits { FitsAsked asked host.old }
    requires room { act_room asked.act host.old ≤ notices.old.spare }
    ensures { Goes (outcome_of asked (state_of host.old)) result notices.old notices.new
        (state_of host.new) }
{
    let Asked { answer, act, then } = asked;
    do_act(host, act, notices);
    follow(host, then);
    Some(answer)
}

// An addAll of a lane goes on to its fetches, and its promise waits for it.
fn start_promised(host: &mut HostTables, new: NewAddAll, row: NewPromise)
    requires fits { FitsNew new host.old }
    requires lane { maker_worker new.row.maker ≡ None }
    requires room { 0 < host.old.promises.spare }
    ensures { state_of host.new
        ≡ with_promise row (added_by new (state_of host.old)).state }
{
    start_all(host, new);
    promise(host, row);
}

// An addAll goes on to its fetches, and what follows.
fn start_then(host: &mut HostTables, new: NewAddAll, then: Then)
    requires { FitsStart new then host.old }
    ensures { (notices : NoticeList)
        → Did (told_then then (added_by new (state_of host.old))) notices notices
        (state_of host.new) }
{
    match then {
        Then::Nothing => start_all(host, new),
        Then::Promise(row) => start_promised(host, new, row),
        Then::Called { worker, fault } => start_called(host, new, worker, fault),
    }
}

// An addAll goes on to its fetches.
pub(crate) fn do_start(
    host: &mut HostTables,
    answer: Answer,
    new: NewAddAll,
    then: Then,
) -> Option<Answer>
    requires { FitsStart new then host.old }
    ensures { (notices : NoticeList)
        → Goes (started_outcome answer new then (state_of host.old)) result notices notices
        (state_of host.new) }
{
    start_then(host, new, then);
    Some(answer)
}

// The fetches of an addAll have ended: its cache is changed, and it settles.
pub(crate) fn do_added(host: &mut HostTables, task: u32, step: AddedStep) -> Option<Answer>
    requires { FitsAdded task step host.old }
    ensures { (outcome : Outcome) (notices : NoticeList)
        → IsAdded outcome (state_of host.old) task step
        → Goes outcome result notices notices (state_of host.new) }
{
    let AddedStep {
        answer,
        act,
        value,
        faulted,
        ..
    } = step;
    act_on_caches(host, act);
    settle_added(host, task, value, faulted);
    Some(answer)
}
