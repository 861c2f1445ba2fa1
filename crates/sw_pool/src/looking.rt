//! Look-ups beside the lock.

ghost use Rattle.std.specs.Prelude.{◌≡◌, ◌↔◌, ◌<◌, ◌≤◌, [], length, IfOk, IsTrue};
ghost use mathlib.Core.List.{IsPrefix};
ghost use Rattle.std.specs.Fork.{AcceptsAt, ChangesAt};
ghost use Rattle.std.specs.Thread.{IsSend, IsSync};
ghost use Rattle.sw_pool.specs.Looks.{AreAnswers};
ghost use Rattle.sw_pool.specs.Yards.{IsWorked};

use crate::crew::{Crew, drive};
use crate::working::{Worked, end_of};
use crate::yard::Yard;
use std::alloc::Global;
use std::sync::Wait;
use std::thread::{Threads, join_mut};
use sw_data::{NoMemory, Text};
use sw_disk::Disk;
use sw_net::Gate;
use sw_turns::DriveEnd;
use sw_view::{Look, Looker, Publisher, Watched};

/// A look-up: a storage key, and an address.
#[derive(Drop)]
pub struct Asked {
    pub key: Text,
    pub address: Text,
}

// Takes these look-ups, in order. Each passes the gate before, with its address and its number.
fn look_up_all<G: Gate>(
    alloc: Global,
    gate: &G,
    asked: &[Asked],
    looker: &mut Looker,
) -> Result<Vec<Look>, NoMemory>
    ensures base { looker.new.base ≡ looker.old.base }
    ensures book { looker.new.book ≡ looker.old.book }
    ensures answers { IfOk result (λ looks.
        AreAnswers looker.old.base looker.new.entries 0 asked.now looks.items) }
{
    let mut looks = Vec::new(alloc);
    for place in asked {
        gate.pass(
            &place.address,
            u32::try_from(looks.len()).unwrap_or(u32::MAX),
        );
        match looker.look_up(&place.key, place.address.as_bytes()) {
            Ok(look) => looks.push(look)?,
            Err(_) => return Err(NoMemory),
        }
    }
    Ok(looks)
}

// What works, worked with.
fn worked_with<C, F: Fn(usize, &mut C)>(work: &F, crew: &mut C)
    requires { AcceptsAt F.Fn work.now 0 crew.old }
    ensures { ChangesAt F.Fn work.now 0 crew.old crew.new }
{
    work(0, crew);
}

// Work, and look-ups beside it on a thread of their own, where one can be made; else they come behind it.
fn side_by_side<R: Threads, C: Send, F: Fn(usize, &mut C) + Sync, G: Gate + Sync>(
    rt: &R,
    alloc: Global,
    gate: &G,
    asked: &[Asked],
    looker: &mut Looker,
    work: &F,
    crew: &mut C,
) -> Result<Vec<Look>, NoMemory>
    requires { AcceptsAt F.Fn work.now 0 crew.old }
    ensures crew { ChangesAt F.Fn work.now 0 crew.old crew.new }
    ensures base { looker.new.base ≡ looker.old.base }
    ensures book { looker.new.book ≡ looker.old.book }
    ensures answers { IfOk result (λ looks.
        AreAnswers looker.old.base looker.new.entries 0 asked.now looks.items) }
{
    let mut look = || -> Result<Vec<Look>, NoMemory>
        ensures base { looker.exit.now.base ≡ looker.entry.now.base }
        ensures book { looker.exit.now.book ≡ looker.entry.now.book }
        ensures answers { IfOk result (λ looks.
            AreAnswers looker.entry.now.base looker.exit.now.entries 0 asked.entry.now looks.items) }
    { look_up_all(alloc, gate, asked, looker) };
    let mut drive = ||
        requires { AcceptsAt F.Fn work.now 0 crew.now }
        ensures { ChangesAt F.Fn work.entry.now 0 crew.entry.now crew.exit.now }
    { worked_with(work, crew) };
    let (looks, ()) = join_mut(rt, &mut look, &mut drive);
    looks
}

// Whether a looker has seen no more entries than are published; then what it has seen begins them. The view ends.
fn covers<R: Wait>(rt: &R, publisher: Publisher, looker: &Looker) -> bool
    requires { looker.now.book ≡ publisher.book }
    ensures exactly { IsTrue result
        ↔ (length looker.now.entries ≤ length publisher.entries) }
    ensures front { length looker.now.entries ≤ length publisher.entries
        → IsPrefix looker.now.entries publisher.entries }
{
    let told = publisher.covers(looker);
    publisher.end(rt);
    told
}

/// Works on a recording to its end, as `work` does, while these look-ups are taken in order and without the lock, on a
/// thread of their own where one can be made; else they come behind it. Each passes the gate before, with its address and
/// its number. Where not all are answered for want of memory, the run has its end all the same. Publishing waits by `waits`.
pub fn work_watched<
    R: Threads + Wait + Sync,
    W: Wait + Drop + Send,
    D: Disk + Send,
    G: Gate + Sync,
>(
    rt: &R,
    waits: W,
    alloc: Global,
    yard: Yard<D>,
    number: u64,
    publisher: Publisher,
    mut looker: Looker,
    asked: &[Asked],
    gate: &G,
) -> (Worked<D>, Result<Vec<Look>, NoMemory>)
    requires some { 0 < yard.origin.passes }
    requires few { yard.origin.passes ≤ 64 }
    requires number { number ≡ D.clock yard.origin.start }
    requires base { publisher.base ≡ yard.origin.base }
    requires none { publisher.entries ≡ [] }
    requires looker { looker ≡ publisher }
    ensures worked { IsWorked D.Disk yard.origin result.0.disk result.0.progress result.0.end }
    ensures answers { IfOk result.1 (λ looks. AreAnswers yard.origin.base
        result.0.progress.history.items 0 asked.now looks.items) }
{
    let passes = yard.passes();
    let watched = Watched::new(yard, publisher, waits);
    match Crew::new(alloc, watched, passes, number) {
        Ok(mut crew) => {
            let work = |_: usize, crew: &mut Crew<Watched<Yard<D>, W>>|
                requires { IsSync R.row × IsSync G.row × IsSend D.row × IsSend W.row }
                ensures { crew.exit.now.lock ≡ crew.entry.now.lock }
            { drive(rt, gate, crew) };
            let looks = side_by_side(rt, alloc, gate, asked, &mut looker, &work, &mut crew);
            let (watched, otherwise) = crew.close();
            let (yard, publisher) = watched.into_parts();
            if covers(rt, publisher, &looker) {
                (end_of(yard, otherwise), looks)
            } else {
                (end_of(yard, otherwise), Err(NoMemory))
            }
        }
        Err(watched) => {
            let (yard, publisher) = watched.into_parts();
            publisher.end(rt);
            (end_of(yard, DriveEnd::NoMemory), Err(NoMemory))
        }
    }
}
