//! The end of the fetch of a job's script, worked out.

ghost use Rattle.std.specs.Prelude.{◌≡◌, ◌&&◌, Some, Ok, true, bytes_eq, codes, length, option_copied, IfOk};
ghost use Rattle.std.specs.Result.{result_map_both};
ghost use Rattle.sw_client.specs.Table as clients;
ghost use Rattle.sw_data.specs.Headers.{first_value};
ghost use Rattle.sw_install.specs.Fetches.{HasNewWorker, IsOutcome};
ghost use Rattle.sw_install.specs.declared.calls.FetchOutcome.TheVariants as outcome;
ghost use Rattle.sw_reg.specs.Table.{is_there};
ghost use Rattle.sw_rules.specs.Installing as rules;
ghost use Rattle.sw_rules.specs.Jobs.{same_kind};
ghost use Rattle.sw_scope.specs.Scopes.{Scopes};
ghost use Rattle.sw_tables.specs.Lent.{Rest, lent};
ghost use Rattle.sw_tables.specs.Linked.{HasSlots};
ghost use Rattle.sw_worker.specs.Edits.{new_worker};
ghost use Rattle.sw_worker.specs.Fits.{FitsWorker};

use std::alloc::Global;
use sw_data::header::same_name;
use sw_data::{
    Bytes, Cause, Fault, FetchLine, Fetched, Header, Job, JobRow, NoMemory, SecurityCause, Shared,
    Text, WorkerRow, copy_handlers, is_javascript,
};
use sw_install::FetchOutcome;
use sw_reg::Registrations;
use sw_rules::same_kind;
use sw_tables::newest_row;
use sw_url::{is_within_bound, max_scope};
use sw_worker::{NewWorker, Workers};

// The value of the first line that allows a scope.
fn allowed_value(headers: &[Header]) -> Option<&Text>
    ensures { option_copied result ≡ first_value (codes "service-worker-allowed") headers.now }
{
    let line = headers.iter().find(|line| same_name(
        line.name.as_bytes(),
        b"service-worker-allowed",
    ))?;
    Some(&line.value)
}

// Whether the scope of a job is within the bound that its script and a response give.
fn is_scope_allowed(alloc: Global, job: &Job, headers: &[Header]) -> Result<bool, NoMemory>
    ensures { IfOk result (λ allowed. allowed ≡ rules.is_scope_allowed job.now headers.now) }
{
    match max_scope(alloc, &job.script, allowed_value(headers))? {
        Some(bound) => is_within_bound(alloc, &job.scope, &bound),
        None => Ok(false),
    }
}

// Whether a status is one of success.
fn is_ok_status(status: u16) -> bool
    ensures { result ≡ rules.is_ok_status status }
{
    200 <= status && status <= 299
}

// The script that a fetch gave, or its first fault.
fn script_of<'a>(
    alloc: Global,
    job: &Job,
    fetched: Option<&'a Fetched>,
) -> Result<Result<&'a Fetched, Fault>, NoMemory>
    ensures { IfOk result (λ script. result_map_both (λ given. given.now) (λ why. why) script
        ≡ rules.script_of job.now (option_copied fetched.entry)) }
{
    let Some(fetched) = fetched else {
        return Ok(Err(Fault::TypeError {
            cause: Cause::Network,
            index: None,
        }));
    };
    let headers = fetched.response.headers.as_slice();
    if !is_javascript(headers) {
        return Ok(Err(Fault::SecurityError(SecurityCause::Mime)));
    }
    if !is_scope_allowed(alloc, job, headers)? {
        return Ok(Err(Fault::SecurityError(SecurityCause::Scope)));
    }
    if !is_ok_status(fetched.response.status) {
        return Ok(Err(Fault::TypeError {
            cause: Cause::Status,
            index: None,
        }));
    }
    Ok(Ok(fetched))
}

// Whether a worker has the script and the type of a job, and this body.
fn is_made_of(newest: &WorkerRow, job: &Job, body: &Shared<Bytes>) -> bool
    ensures { result ≡ (bytes_eq newest.now.script job.now.script
        && same_kind newest.now.kind job.now.kind && bytes_eq newest.now.body body.now) }
{
    newest.script == job.script
        && same_kind(newest.kind, job.kind)
        && *newest.body.get() == *body.get()
}

// Whether the newest worker of a registration has the script and the type of a job, and this body.
fn is_same_script(
    job: &Job,
    registration: u32,
    body: &Shared<Bytes>,
    workers: &Workers,
    registrations: &Registrations,
) -> bool
    requires { HasSlots workers.now registrations.now }
    ensures { (scopes : Scopes) (of_clients : clients.Table) (rest : Rest)
        → result ≡ rules.is_same_script
        (lent scopes workers.now registrations.now of_clients rest)
        job.now registration body.now }
{
    match newest_row(registration, workers, registrations) {
        Some(newest) => is_made_of(newest, job, body),
        None => false,
    }
}

// The finished row of the worker that a job makes for its registration of what was fetched, with the room for it.
fn new_worker(
    alloc: Global,
    row: &JobRow,
    registration: u32,
    fetched: &Fetched,
    workers: &mut Workers,
) -> Result<NewWorker, NoMemory>
    ensures same { workers.new ≡ record workers.old { spare_rows = workers.new.spare_rows } }
    ensures row { IfOk result (λ new. new
        ≡ new_worker (length workers.old.rows) registration row.now.job.script row.now.job.kind
        fetched.now.response.body row.now.fetch fetched.now.handlers) }
    ensures fits { IfOk result (λ new. FitsWorker new workers.new) }
{
    let body = fetched.response.body.share()?;
    let handlers = copy_handlers(alloc, &fetched.handlers)?;
    let job = &row.job;
    workers.make_row(
        alloc,
        registration,
        &job.script,
        job.kind,
        body,
        row.fetch,
        handlers,
    )
}

// What the fetch of a job's script comes to, which gave this script, and the worker that is made where it changed.
fn script_fetched(
    alloc: Global,
    row: &JobRow,
    registration: u32,
    script: &Fetched,
    workers: &mut Workers,
    registrations: &Registrations,
) -> Result<(FetchOutcome, Option<NewWorker>), NoMemory>
    requires slots { HasSlots workers.old registrations.now }
    requires script { rules.script_of row.now.job (Some script.now) ≡ Ok script.now }
    ensures same { workers.new ≡ record workers.old { spare_rows = workers.new.spare_rows } }
    ensures comes { IfOk result (λ found.
        (scopes : Scopes) (of_clients : clients.Table) (rest : Rest)
        → IsOutcome found.0 found.1
        (lent scopes workers.old registrations.now of_clients rest)
        row.now (Some script.now) registration) }
    ensures fits { IfOk result (λ found.
        is_there registration registrations.now.rows ≡ true → found.0 ≡ outcome.Changed
        → HasNewWorker found.1 workers.new registrations.now) }
{
    let body = &script.response.body;
    if is_same_script(&row.job, registration, body, workers, registrations) {
        return Ok((FetchOutcome::Unchanged, None));
    }
    let worker = new_worker(alloc, row, registration, script, workers)?;
    Ok((FetchOutcome::Changed, Some(worker)))
}

/// What the fetch of a job's script comes to, which gave this or ended in a network error, and the worker that is made where
/// it changed the script.
pub fn fetch_ended(
    alloc: Global,
    row: &JobRow,
    registration: u32,
    fetched: Option<&Fetched>,
    workers: &mut Workers,
    registrations: &Registrations,
) -> Result<(FetchOutcome, Option<NewWorker>), NoMemory>
    requires { HasSlots workers.old registrations.now }
    ensures same { workers.new ≡ record workers.old { spare_rows = workers.new.spare_rows } }
    ensures comes { IfOk result (λ found.
        (scopes : Scopes) (of_clients : clients.Table) (rest : Rest)
        → IsOutcome found.0 found.1
        (lent scopes workers.old registrations.now of_clients rest)
        row.now (option_copied fetched.entry) registration) }
    ensures fits { IfOk result (λ found.
        is_there registration registrations.now.rows ≡ true → found.0 ≡ outcome.Changed
        → HasNewWorker found.1 workers.new registrations.now) }
{
    match script_of(alloc, &row.job, fetched)? {
        Ok(script) => script_fetched(alloc, row, registration, script, workers, registrations),
        Err(why) => Ok((FetchOutcome::Rejected(why), None)),
    }
}

/// What was fetched; none for a network error.
pub fn fetched_of(line: Option<&FetchLine>) -> Option<&Fetched>
    ensures { option_copied result ≡ rules.fetched_of (option_copied line.entry) }
{
    line?.fetched.as_ref()
}
