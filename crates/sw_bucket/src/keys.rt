//! The key of what an event names, looked up in a host.

ghost use Rattle.std.specs.Prelude.{◌≡◌, option_and_then, IfOk};
ghost use Rattle.std.specs.Option.{option_copied};
ghost use Rattle.sw_bucket.specs.Uses.{caller_key, client_key, job_key, named_key, page_key, registration_key, work_key};
ghost use Rattle.sw_data.specs.Events.{named_client, named_page};
ghost use Rattle.sw_rules.specs.Rows.{key_of_worker};
ghost use Rattle.sw_state.specs.Hosted.{state_of};

use crate::places::page_key;
use std::alloc::Global;
use sw_core::Core;
use sw_data::{Event, NoMemory, Text, Who};

/// A text of its own that equals this one, where there is one.
pub(crate) fn copied(alloc: Global, text: Option<&Text>) -> Result<Option<Text>, NoMemory>
    ensures { IfOk result (λ copy. copy ≡ option_copied text.entry) }
{
    match text {
        Some(text) => Ok(Some(text.copy(alloc)?)),
        None => Ok(None),
    }
}

/// The key of an open client.
pub(crate) fn client_key(core: &Core, client: u32) -> Option<&Text>
    ensures { option_copied result ≡ client_key (state_of core.now) client }
{
    Some(&core.clients().row(client)?.key)
}

// The key of a job.
fn job_key(core: &Core, job: u32) -> Option<&Text>
    ensures { option_copied result ≡ job_key (state_of core.now) job }
{
    Some(&core.queues().row(job)?.job.key)
}

// The key of a registration.
#[tactic(auto, using(crate::proofs::Shown::registration_shown))]
fn registration_key(core: &Core, registration: u32) -> Option<&Text>
    ensures { option_copied result ≡ registration_key (state_of core.now) registration }
{
    Some(&core.registrations().row(registration)?.key)
}

// The key of a worker's registration.
#[tactic(auto, using(crate::proofs::Shown::owner_shown, crate::proofs::Same::of_registration))]
fn worker_key(core: &Core, worker: u32) -> Option<&Text>
    ensures { option_copied result ≡ key_of_worker (state_of core.now) worker }
{
    registration_key(core, core.workers().row(worker)?.registration)
}

// The key of the worker whose handler makes a call.
fn caller_key(core: &Core, who: Who) -> Option<&Text>
    ensures { option_copied result ≡ caller_key (state_of core.now) who }
{
    match who {
        Who::Handler { worker, .. } => worker_key(core, worker),
        _ => None,
    }
}

// The key of what a call of a handler or an event of the host names.
#[tactic(auto, unfolding(crate::specs::Uses::work_key))]
fn work_key<'a>(core: &'a Core, event: &Event) -> Option<&'a Text>
    ensures { option_copied result ≡ work_key (state_of core.now) event.now }
{
    match event {
        Event::Call { who, .. } => caller_key(core, *who),
        Event::Run { job, .. }
        | Event::Fetched { job, .. }
        | Event::Evaluated { job, .. }
        | Event::Installed { job, .. } => job_key(core, *job),
        Event::TryActivate { registration, .. } => registration_key(core, *registration),
        Event::Activated { worker, .. } => worker_key(core, *worker),
        Event::Added { task, .. } => core.task_key(*task),
        _ => None,
    }
}

// The key of the client that an action names.
fn key_of_client<'a>(core: &'a Core, event: &Event) -> Option<&'a Text>
    ensures { option_copied result
        ≡ option_and_then (client_key (state_of core.now)) (named_client event.now) }
{
    client_key(core, event.named_client()?)
}

// The key of the page that an action names.
fn key_of_page(alloc: Global, event: &Event) -> Result<Option<Text>, NoMemory>
    ensures { IfOk result (λ key. key ≡ option_and_then page_key (named_page event.now)) }
{
    match event.named_page() {
        Some(place) => page_key(alloc, place),
        None => Ok(None),
    }
}

/// The key of what an event names.
pub(crate) fn named_key(alloc: Global, core: &Core, event: &Event) -> Result<Option<Text>, NoMemory>
    ensures { IfOk result (λ key. key
        ≡ named_key (client_key (state_of core.now)) (state_of core.now) event.now) }
{
    match key_of_client(core, event) {
        Some(key) => Ok(Some(key.copy(alloc)?)),
        None => match key_of_page(alloc, event)? {
            Some(key) => Ok(Some(key)),
            None => copied(alloc, work_key(core, event)),
        },
    }
}
