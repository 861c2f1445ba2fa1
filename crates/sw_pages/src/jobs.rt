//! Registering, updating and unregistering: the actions that make jobs.

ghost use Rattle.std.specs.Prelude.{◌≡◌, length, IfOk, Some, None, option_copied, option_map};
ghost use Rattle.sw_data.specs.Addresses.{scope_address, script_address, without_fragment};
ghost use Rattle.sw_pages.specs.Acts.{Gives};
ghost use Rattle.sw_pages.specs.Fits.{FitsHost};
ghost use Rattle.sw_pages.specs.Jobs.{IsNextJob, asked_job, comes_to, job_answer, register_job, schedules, unregister_job, update_job, with_cause};
ghost use Rattle.sw_rules.specs.Registering as rules;
ghost use Rattle.sw_rules.specs.Rows.{named_scope};
ghost use Rattle.sw_rules.specs.Told.{type_error};
ghost use Rattle.sw_state.specs.Hosted.{SameRows, shown_of};

use crate::worked::{PageAct, Worked, answered, rejected};
use std::alloc::Global;
use sw_data::{
    Answer, Cause, ClientRow, ClientScope, Fault, Job, JobKind, Kind, Mode, NoMemory, Registering,
    RegistrationRow, StateCause, Text, WorkerRow,
};
use sw_ledgers::Awaited;
use sw_state::HostTables;
use sw_url::{UrlFault, resolve, scope_url, script_url};

// ---- the jobs

// The number of the next job. One past its type is want of memory.
fn next_number(host: &HostTables) -> Result<u32, NoMemory>
    ensures { IfOk result (λ number. number ≡ length host.now.queues.rows) }
{
    match u32::try_from(host.queues.len()) {
        Ok(number) => Ok(number),
        Err(_) => Err(NoMemory),
    }
}

// The TypeError of a cause, without an index.
pub(crate) fn type_error(cause: Cause) -> Fault
    ensures { result ≡ type_error cause }
{
    Fault::TypeError { cause, index: None }
}

// The script address of a registration, or the cause of its refusal.
fn script(alloc: Global, text: &Text, base: &Text) -> Result<Result<Text, Cause>, NoMemory>
    ensures { IfOk result (λ found. found ≡ with_cause (script_address text.now base.now)) }
{
    match script_url(alloc, text, base) {
        Ok(address) => Ok(Ok(address)),
        Err(UrlFault::Unparsed) => Ok(Err(Cause::Unparsed)),
        Err(UrlFault::Scheme) => Ok(Err(Cause::Scheme)),
        Err(UrlFault::EscapedSlash) => Ok(Err(Cause::EscapedSlash)),
        Err(UrlFault::NoMemory) => Err(NoMemory),
    }
}

// The scope address of a registration, or the cause of its refusal.
fn scope(
    alloc: Global,
    text: Option<&Text>,
    script: &Text,
    base: &Text,
) -> Result<Result<Text, Cause>, NoMemory>
    ensures { IfOk result (λ found. found
        ≡ with_cause (scope_address (option_copied text.entry) script.now base.now)) }
{
    match scope_url(alloc, text, script, base) {
        Ok(address) => Ok(Ok(address)),
        Err(UrlFault::Unparsed) => Ok(Err(Cause::Unparsed)),
        Err(UrlFault::Scheme) => Ok(Err(Cause::Scheme)),
        Err(UrlFault::EscapedSlash) => Ok(Err(Cause::EscapedSlash)),
        Err(UrlFault::NoMemory) => Err(NoMemory),
    }
}

// The job of a registration whose addresses are allowed.
fn register_job(
    alloc: Global,
    number: u32,
    client: &ClientRow,
    asked: &Registering,
    script: Text,
    scope: Text,
) -> Result<Job, NoMemory>
    ensures { IfOk result (λ job. job
        ≡ register_job number client.now asked.now script scope) }
{
    Ok(Job {
        number,
        what: JobKind::Register,
        key: client.key.copy(alloc)?,
        scope,
        script,
        kind: asked.kind,
        mode: asked.mode,
        has_client: true,
        referrer: client.url.copy(alloc)?,
    })
}

// The job of a registration, or what it comes to where an address of it is refused.
fn asked_job(
    alloc: Global,
    number: u32,
    client: &ClientRow,
    asked: &Registering,
) -> Result<Result<Job, Worked>, NoMemory>
    ensures { IfOk result (λ job. job ≡ asked_job number client.now asked.now) }
{
    let script = match script(alloc, &asked.script, &client.url)? {
        Ok(script) => script,
        Err(cause) => return Ok(Err(rejected(type_error(cause)))),
    };
    match scope(alloc, asked.scope.as_ref(), &script, &client.url)? {
        Ok(scope) => Ok(Ok(register_job(alloc, number, client, asked, script, scope)?)),
        Err(cause) => Ok(Err(rejected(type_error(cause)))),
    }
}

// An address without its fragment.
#[tactic(auto, using(std::proofs::lemmas::Str::Pattern::split_once_first), unfolding(sw_data::specs::Addresses::without_fragment))]
fn bare(address: &Text) -> &str
    ensures { result.now ≡ without_fragment address.now }
{
    match address.as_str().split_once('#') {
        Some((front, _)) => front,
        None => address.as_str(),
    }
}

// The scope that a client names: its text parsed against the client's address, without its fragment.
pub(crate) fn named_scope(
    alloc: Global,
    client: &ClientRow,
    text: &Text,
) -> Result<Option<Text>, NoMemory>
    ensures { IfOk result (λ scope. scope ≡ named_scope client.now text.now) }
{
    match resolve(alloc, text, &client.url) {
        Ok(address) => Ok(Some(Text::of(alloc, bare(&address))?)),
        Err(UrlFault::NoMemory) => Err(NoMemory),
        Err(_) => Ok(None),
    }
}

// The job of an update of a registration whose newest worker is this one.
fn update_job(
    alloc: Global,
    number: u32,
    row: &RegistrationRow,
    newest: &WorkerRow,
    client: Option<&Text>,
) -> Result<Job, NoMemory>
    ensures { IfOk result (λ job. job ≡ update_job number row.now newest.now
        (option_copied client.entry)) }
{
    Ok(Job {
        number,
        what: JobKind::Update,
        key: row.key.copy(alloc)?,
        scope: row.scope.copy(alloc)?,
        script: newest.script.copy(alloc)?,
        kind: newest.kind,
        mode: row.mode,
        has_client: client.is_some(),
        referrer: match client {
            Some(url) => url.copy(alloc)?,
            None => Text::of(alloc, "")?,
        },
    })
}

// The job of unregistering.
fn unregister_job(
    alloc: Global,
    number: u32,
    client: &ClientRow,
    scope: Text,
) -> Result<Job, NoMemory>
    ensures { IfOk result (λ job. job ≡ unregister_job number client.now scope) }
{
    Ok(Job {
        number,
        what: JobKind::Unregister,
        key: client.key.copy(alloc)?,
        scope,
        script: Text::of(alloc, "")?,
        kind: Kind::Classic,
        mode: Mode::Imports,
        has_client: true,
        referrer: client.url.copy(alloc)?,
    })
}

// ---- what the actions come to, by the jobs that they make

// What registering comes to.
fn register_asked(
    host: &HostTables,
    alloc: Global,
    asked: &Registering,
) -> Result<Result<Job, Worked>, NoMemory>
    ensures next { IfOk result (IsNextJob host.now.queues.rows) }
    ensures gives { IfOk result (λ job. Gives (λ state who. rules.register state who asked.now)
        (comes_to host.now.queues.rows job) host.now) }
{
    let Some(client) = host.client_row(asked.client) else {
        return Ok(Err(answered(Answer::NoClient)));
    };
    let number = next_number(host)?;
    asked_job(alloc, number, client, asked)
}

/// What an update of a registration comes to that is named, or isn't there, for whoever has this address (Service
/// Workers, ServiceWorkerRegistration, "update()").
#[tactic(auto, unfolding(sw_rules::specs::Registering::rejected, sw_rules::specs::Told::followed))]
pub fn update_named(
    host: &HostTables,
    alloc: Global,
    row: Option<&RegistrationRow>,
    referrer: &Text,
) -> Result<Result<Job, Worked>, NoMemory>
    ensures next { IfOk result (IsNextJob host.now.queues.rows) }
    ensures gives { IfOk result (λ job. Gives (λ state who. rules.update_named state who
        (option_map (shown_of host.now) (option_copied row.entry)) referrer.now)
        (comes_to host.now.queues.rows job) host.now) }
{
    let Some(row) = row else {
        return Ok(Err(rejected(Fault::NoRegistration)));
    };
    let Some(newest) = host.newest_row(row.number) else {
        return Ok(Err(rejected(Fault::InvalidState(StateCause::NoWorker))));
    };
    let number = next_number(host)?;
    Ok(Ok(update_job(alloc, number, row, newest, Some(referrer))?))
}

// What an update comes to.
#[tactic(auto, unfolding(sw_rules::specs::Registering::rejected, sw_rules::specs::Told::followed))]
fn update_asked(
    host: &HostTables,
    alloc: Global,
    of: &ClientScope,
) -> Result<Result<Job, Worked>, NoMemory>
    ensures next { IfOk result (IsNextJob host.now.queues.rows) }
    ensures gives { IfOk result (λ job. Gives (λ state who. rules.update state who of.now)
        (comes_to host.now.queues.rows job) host.now) }
{
    let Some(client) = host.client_row(of.client) else {
        return Ok(Err(answered(Answer::NoClient)));
    };
    let Some(scope) = named_scope(alloc, client, &of.scope)? else {
        return Ok(Err(rejected(type_error(Cause::Unparsed))));
    };
    let row = host.mapped_row(&client.key, &scope);
    update_named(host, alloc, row, &client.url)
}

// What an update comes to that nobody waits for, of a registration that is named, or isn't there.
fn soft_update_named(
    host: &HostTables,
    alloc: Global,
    row: Option<&RegistrationRow>,
) -> Result<Result<Job, Worked>, NoMemory>
    ensures next { IfOk result (IsNextJob host.now.queues.rows) }
    ensures gives { IfOk result (λ job. Gives (λ state who. rules.soft_update_named state
        (option_map (shown_of host.now) (option_copied row.entry)))
        (comes_to host.now.queues.rows job) host.now) }
{
    let Some(row) = row else {
        return Ok(Err(answered(Answer::Fault(Fault::NoRegistration))));
    };
    let Some(newest) = host.newest_row(row.number) else {
        return Ok(Err(answered(Answer::None)));
    };
    let number = next_number(host)?;
    Ok(Ok(update_job(alloc, number, row, newest, None)?))
}

// What an update comes to that nobody waits for.
fn soft_update_asked(
    host: &HostTables,
    alloc: Global,
    of: &ClientScope,
) -> Result<Result<Job, Worked>, NoMemory>
    ensures next { IfOk result (IsNextJob host.now.queues.rows) }
    ensures gives { IfOk result (λ job. Gives (λ state who. rules.soft_update state of.now)
        (comes_to host.now.queues.rows job) host.now) }
{
    let Some(client) = host.client_row(of.client) else {
        return Ok(Err(answered(Answer::NoClient)));
    };
    let Some(scope) = named_scope(alloc, client, &of.scope)? else {
        return Ok(Err(answered(Answer::Fault(type_error(Cause::Unparsed)))));
    };
    let row = host.mapped_row(&client.key, &scope);
    soft_update_named(host, alloc, row)
}

// What unregistering comes to.
#[tactic(auto, unfolding(sw_rules::specs::Registering::rejected, sw_rules::specs::Told::followed))]
fn unregister_asked(
    host: &HostTables,
    alloc: Global,
    of: &ClientScope,
) -> Result<Result<Job, Worked>, NoMemory>
    ensures next { IfOk result (IsNextJob host.now.queues.rows) }
    ensures gives { IfOk result (λ job. Gives (λ state who. rules.unregister state who of.now)
        (comes_to host.now.queues.rows job) host.now) }
{
    let Some(client) = host.client_row(of.client) else {
        return Ok(Err(answered(Answer::NoClient)));
    };
    let Some(scope) = named_scope(alloc, client, &of.scope)? else {
        return Ok(Err(rejected(type_error(Cause::Unparsed))));
    };
    let number = next_number(host)?;
    Ok(Ok(unregister_job(alloc, number, client, scope)?))
}

// ---- the actions

// The answer for a job that joined this one, or none.
fn job_answer(number: u32, leader: Option<u32>) -> Answer
    ensures { result ≡ job_answer number leader }
{
    match leader {
        Some(leader) => Answer::Joined {
            job: number,
            leader,
        },
        None => Answer::Job(number),
    }
}

// A job is scheduled. Where it has a client, the promise of the action waits for it.
fn schedule(host: &mut HostTables, alloc: Global, job: Job) -> Result<Worked, NoMemory>
    requires { job.number ≡ length host.old.queues.rows }
    ensures same { SameRows host.old host.new }
    ensures fits { IfOk result (λ worked. FitsHost worked host.new) }
    ensures worked { IfOk result (λ worked. worked ≡ schedules host.old.queues.rows job) }
{
    let number = job.number;
    let awaited = if job.has_client {
        Some(Awaited::Job(number))
    } else {
        None
    };
    let row = host.queues.schedule_row(alloc, job)?;
    Ok(Worked {
        answer: job_answer(number, row.leader()),
        act: PageAct::Schedule(row),
        awaited,
    })
}

/// The job of an action is scheduled, where it makes one.
pub fn schedule_asked(
    host: &mut HostTables,
    alloc: Global,
    asked: Result<Job, Worked>,
) -> Result<Worked, NoMemory>
    requires { IsNextJob host.old.queues.rows asked }
    ensures same { SameRows host.old host.new }
    ensures fits { IfOk result (λ worked. FitsHost worked host.new) }
    ensures worked { IfOk result (λ worked. worked ≡ comes_to host.old.queues.rows asked) }
{
    match asked {
        Ok(job) => schedule(host, alloc, job),
        Err(worked) => Ok(worked),
    }
}

/// A client registers a script for a scope (Service Workers, Appendix A, "Start Register").
pub fn register(
    host: &mut HostTables,
    alloc: Global,
    asked: &Registering,
) -> Result<Worked, NoMemory>
    ensures same { SameRows host.old host.new }
    ensures fits { IfOk result (λ worked. FitsHost worked host.new) }
    ensures gives { IfOk result (λ worked. Gives (λ state who.
        rules.register state who asked.now) worked host.old) }
{
    let job = register_asked(host, alloc, asked)?;
    schedule_asked(host, alloc, job)
}

/// A client updates a registration (Service Workers, ServiceWorkerRegistration, "update()").
pub fn update(host: &mut HostTables, alloc: Global, of: &ClientScope) -> Result<Worked, NoMemory>
    ensures same { SameRows host.old host.new }
    ensures fits { IfOk result (λ worked. FitsHost worked host.new) }
    ensures gives { IfOk result (λ worked. Gives (λ state who.
        rules.update state who of.now) worked host.old) }
{
    let job = update_asked(host, alloc, of)?;
    schedule_asked(host, alloc, job)
}

/// A client updates a registration, and nobody waits for it (Service Workers, Appendix A, "Soft Update").
pub fn soft_update(
    host: &mut HostTables,
    alloc: Global,
    of: &ClientScope,
) -> Result<Worked, NoMemory>
    ensures same { SameRows host.old host.new }
    ensures fits { IfOk result (λ worked. FitsHost worked host.new) }
    ensures gives { IfOk result (λ worked. Gives (λ state who.
        rules.soft_update state of.now) worked host.old) }
{
    let job = soft_update_asked(host, alloc, of)?;
    schedule_asked(host, alloc, job)
}

/// A client unregisters a scope (Service Workers, ServiceWorkerRegistration, "unregister()").
pub fn unregister(
    host: &mut HostTables,
    alloc: Global,
    of: &ClientScope,
) -> Result<Worked, NoMemory>
    ensures same { SameRows host.old host.new }
    ensures fits { IfOk result (λ worked. FitsHost worked host.new) }
    ensures gives { IfOk result (λ worked. Gives (λ state who.
        rules.unregister state who of.now) worked host.old) }
{
    let job = unregister_asked(host, alloc, of)?;
    schedule_asked(host, alloc, job)
}
