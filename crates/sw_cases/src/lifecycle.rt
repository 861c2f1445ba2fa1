//! The tables of the lifecycle.
//!
//! - on `flags`: `add COUNT`, `set PLACE`, `clear PLACE`, `get PLACE`, `first FROM`
//! - on `worker`: `make`, `advance WORKER STATE`, `begin WORKER EVENT`
//! - on `reg`: `make KEY SCOPE`, `scope NUMBER`, `len`
//! - on `ledgers`: `draw ADDRESS`, `next ADDRESS`
//! - on `queue`: `schedule KEY SCOPE COUNT` (what becomes of the last of so many equal jobs), `start KEY SCOPE`, `followers JOB`
//! - on `client`: `open NUMBER`, `openAll COUNT`, `closeAll COUNT`, `users REGISTRATION`, `len`
ghost use Rattle.std.specs.Prelude.{◌≡◌, IfOk};

use crate::row::{
    Answer, Fault, count, named, number_or_none, place_or_none, plain, quoted, small_number, text,
    truth, word,
};
use crate::table::Table;
use serde_json::Value;
use std::alloc::Global;
use sw_client::{AddFault, Clients};
use sw_data::{Bytes, Handlers, Items, Job, JobKind, Kind, Mode, Shared, Text, WorkerState};
use sw_ledgers::Draws;
use sw_list::Flags;
use sw_queue::{Queues, Scheduled};
use sw_reg::Registrations;
use sw_worker::{BeginFault, Workers};

fn add_flags(flags: &mut Flags, count: usize) -> Result<(), Fault> {
    for _ in 0..count {
        flags.make_room()?;
        flags.add(false);
    }
    Ok(())
}

fn put_flag(flags: &mut Flags, place: usize, flag: bool) -> Result<(), Fault> {
    if place >= flags.len() {
        return Err(Fault::BadRow);
    }
    flags.set(place, flag);
    Ok(())
}

fn flag(alloc: Global, flag: Option<bool>) -> Answer {
    match flag {
        Some(flag) => truth(alloc, flag),
        None => plain(alloc, "none"),
    }
}

impl Table for Flags {
    fn call(&mut self, alloc: Global, parts: &[Value]) -> Answer {
        let word = word(parts, 0)?;
        let place = count(parts, 1)?;
        match word {
            "add" => add_flags(self, place)?,
            "set" => put_flag(self, place, true)?,
            "clear" => put_flag(self, place, false)?,
            "get" => return flag(alloc, self.get(place)),
            "first" => return place_or_none(alloc, self.first_from(place)),
            _ => return Err(Fault::BadRow),
        }
        plain(alloc, "ok")
    }
}

// Makes a worker whose handlers make no call.
fn make_worker(alloc: Global, workers: &mut Workers) -> Answer {
    let script = Text::of(alloc, "https://a.test/sw.js")?;
    let body = Shared::new(alloc, Bytes::of(alloc, b"//")?)?;
    let handlers = Handlers {
        throws: false,
        install: Items::new(alloc),
        install_fails: false,
        activate: Items::new(alloc),
    };
    let number = workers.make(alloc, 0, &script, Kind::Classic, body, Some(0), handlers)?;
    Ok(format!(in alloc; "{number}")?)
}

fn state(word: &str) -> Result<WorkerState, Fault> {
    match word {
        "parsed" => Ok(WorkerState::Parsed),
        "installing" => Ok(WorkerState::Installing),
        "installed" => Ok(WorkerState::Installed),
        "activating" => Ok(WorkerState::Activating),
        "activated" => Ok(WorkerState::Activated),
        "redundant" => Ok(WorkerState::Redundant),
        _ => Err(Fault::BadRow),
    }
}

fn advance(alloc: Global, workers: &mut Workers, worker: u32, to: WorkerState) -> Answer {
    if workers.row(worker).is_none() {
        return Err(Fault::BadRow);
    }
    match workers.advance(worker, to) {
        Ok(()) => plain(alloc, "ok"),
        Err(why) => named(alloc, why),
    }
}

fn begin(alloc: Global, workers: &mut Workers, worker: u32, event: u32) -> Answer {
    if workers.row(worker).is_none() {
        return Err(Fault::BadRow);
    }
    match workers.begin(worker, event) {
        Ok(()) => plain(alloc, "ok"),
        Err(BeginFault::NoMemory) => Err(Fault::NoMemory),
        Err(why) => named(alloc, why),
    }
}

impl Table for Workers {
    fn call(&mut self, alloc: Global, parts: &[Value]) -> Answer {
        match word(parts, 0)? {
            "make" => make_worker(alloc, self),
            "advance" => advance(
                alloc,
                self,
                small_number(parts, 1)?,
                state(word(parts, 2)?)?,
            ),
            "begin" => begin(
                alloc,
                self,
                small_number(parts, 1)?,
                small_number(parts, 2)?,
            ),
            _ => Err(Fault::BadRow),
        }
    }
}

fn make_registration(alloc: Global, registrations: &mut Registrations, parts: &[Value]) -> Answer {
    let key = text(alloc, parts, 1)?;
    let scope = text(alloc, parts, 2)?;
    let number = registrations.make(alloc, &key, &scope, Mode::Imports)?;
    Ok(format!(in alloc; "{number}")?)
}

fn scope(alloc: Global, registrations: &Registrations, number: u32) -> Answer {
    match registrations.row(number) {
        Some(row) => quoted(alloc, row.scope.as_str()),
        None => plain(alloc, "none"),
    }
}

impl Table for Registrations {
    fn call(&mut self, alloc: Global, parts: &[Value]) -> Answer {
        match word(parts, 0)? {
            "make" => make_registration(alloc, self, parts),
            "scope" => scope(alloc, self, small_number(parts, 1)?),
            "len" => place_or_none(alloc, Some(self.len())),
            _ => Err(Fault::BadRow),
        }
    }
}

fn draw(alloc: Global, draws: &mut Draws, address: &Text) -> Result<u32, Fault> {
    let row = draws.draw_row(alloc, address)?;
    Ok(draws.draw_put(row))
}

impl Table for Draws {
    fn call(&mut self, alloc: Global, parts: &[Value]) -> Answer {
        let address = text(alloc, parts, 1)?;
        let number = match word(parts, 0)? {
            "draw" => draw(alloc, self, &address)?,
            "next" => self.next(&address),
            _ => return Err(Fault::BadRow),
        };
        Ok(format!(in alloc; "{number}")?)
    }
}

// An update of this number.
fn job(alloc: Global, number: u32, key: Text, scope: Text) -> Result<Job, Fault>
    ensures { IfOk result (λ job. job.number ≡ number) }
{
    Ok(Job {
        number,
        what: JobKind::Update,
        key,
        scope,
        script: Text::of(alloc, "/x")?,
        kind: Kind::Classic,
        mode: Mode::Imports,
        has_client: true,
        referrer: Text::of(alloc, "")?,
    })
}

// Schedules the next job.
fn schedule(
    alloc: Global,
    queues: &mut Queues,
    key: Text,
    scope: Text,
) -> Result<Scheduled, Fault> {
    let Ok(number) = u32::try_from(queues.len()) else {
        return Err(Fault::NoMemory);
    };
    let job = job(alloc, number, key, scope)?;
    Ok(queues.schedule(alloc, job)?)
}

// Schedules so many equal jobs, and says what became of the last.
fn schedule_all(alloc: Global, queues: &mut Queues, parts: &[Value]) -> Answer {
    let mut last = Scheduled::Queued;
    for _ in 0..count(parts, 3)? {
        let key = text(alloc, parts, 1)?;
        let scope = text(alloc, parts, 2)?;
        last = schedule(alloc, queues, key, scope)?;
    }
    named(alloc, last)
}

fn start(alloc: Global, queues: &mut Queues, parts: &[Value]) -> Answer {
    let key = text(alloc, parts, 1)?;
    let scope = text(alloc, parts, 2)?;
    match queues.start(&key, &scope) {
        Ok(job) => Ok(format!(in alloc; "{job}")?),
        Err(why) => named(alloc, why),
    }
}

impl Table for Queues {
    fn call(&mut self, alloc: Global, parts: &[Value]) -> Answer {
        match word(parts, 0)? {
            "schedule" => schedule_all(alloc, self, parts),
            "start" => start(alloc, self, parts),
            "followers" => place_or_none(
                alloc,
                Some(self.followers(small_number(parts, 1)?).len()),
            ),
            _ => Err(Fault::BadRow),
        }
    }
}

// Opens a client, which a worker of a registration controls or none.
fn open(
    alloc: Global,
    clients: &mut Clients,
    number: u32,
    controller: Option<(u32, u32)>,
) -> Result<Result<(), AddFault>, Fault> {
    if let Some((_, registration)) = controller {
        let Some(known) = registration.checked_add(1) else {
            return Err(Fault::BadRow);
        };
        clients.know(known)?;
    }
    let url = Text::of(alloc, "https://a.test/x")?;
    let key = Text::of(alloc, "https://a.test")?;
    match clients.add_row(alloc, number, url, key, true, controller) {
        Ok(row) => {
            clients.add_put(row);
            Ok(Ok(()))
        }
        Err(fault) => Ok(Err(fault)),
    }
}

fn opened(alloc: Global, answer: Result<(), AddFault>) -> Answer {
    match answer {
        Ok(()) => plain(alloc, "ok"),
        Err(AddFault::NoMemory) => Err(Fault::NoMemory),
        Err(why) => named(alloc, why),
    }
}

// Opens the clients below a number, of which each third has no controller, and the others one of the second and of the
// third registration, and says what the last that was tried was answered.
fn open_all(alloc: Global, clients: &mut Clients, count: u32) -> Answer {
    for number in 0..count {
        let controller = match number % 3 {
            0 => None,
            registration => Some((number, registration)),
        };
        let answer = open(alloc, clients, number, controller)?;
        if answer.is_err() {
            return opened(alloc, answer);
        }
    }
    plain(alloc, "ok")
}

fn close_all(alloc: Global, clients: &mut Clients, count: u32) -> Answer {
    for number in (0..count).rev() {
        if clients.remove(number).is_err() {
            return plain(alloc, "NoClient");
        }
    }
    plain(alloc, "ok")
}

impl Table for Clients {
    fn call(&mut self, alloc: Global, parts: &[Value]) -> Answer {
        match word(parts, 0)? {
            "open" => {
                let answer = open(alloc, self, small_number(parts, 1)?, None)?;
                opened(alloc, answer)
            }
            "openAll" => open_all(alloc, self, small_number(parts, 1)?),
            "closeAll" => close_all(alloc, self, small_number(parts, 1)?),
            "users" => number_or_none(alloc, Some(u64::from(self.users(small_number(parts, 1)?)))),
            "len" => number_or_none(alloc, Some(u64::from(self.len()))),
            _ => Err(Fault::BadRow),
        }
    }
}
