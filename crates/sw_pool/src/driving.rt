//! A worker at work.

ghost use Rattle.std.specs.Prelude.{◌≡◌, ◌≢◌, ◌^◌, None, IfSome};
ghost use Rattle.sw_lock.specs.Passes.{IsPassOf, number, opened_of, seen, turns};
ghost use Rattle.sw_pool.specs.Yards.{IsAnswered, IsEndSeen};
ghost use Rattle.sw_pool.specs.declared.ends.Brief.TheVariants as brief;

use crate::ends::{Brief, Nothing, Turned};
use crate::yard::Yard;
use std::sync::Wait;
use std::thread::yield_now;
use sw_data::Text;
use sw_disk::Disk;
use sw_lock::{Logged, Pass, Shared};
use sw_net::Gate;
use sw_view::Watched;

// Passes the gate once for each of the fetches.
fn pass_gate<G: Gate>(gate: &G, fetches: Vec<(Text, u32)>) {
    for (address, number) in &fetches {
        gate.pass(address, *number);
    }
    drop(fetches);
}

// How often an idle worker looks for entries of others before its next turn.
const LOOKS: u32 = 1000;

// Waits until other passes have made entries, for so many looks.
fn rest<T: Logged>(lock: &Shared<T>, pass: &mut Pass<T>)
    requires { IsPassOf lock.now pass.old }
    ensures pass { IsPassOf lock.now pass.new }
    ensures number { number pass.new ≡ number pass.old }
{
    let known = lock.look(pass);
    for _ in 0..LOOKS {
        yield_now();
        if lock.look(pass) != known {
            return;
        }
    }
}

// Makes turns until a step answers that the work has ended, or the pass has made 2^40 of them. What the pass takes up passes the
// gate before its next turn.
pub(crate) fn drive_on<R: Wait, T: Logged<Given = Nothing, Out = Turned>, G: Gate>(
    rt: &R,
    lock: &Shared<T>,
    pass: &mut Pass<T>,
    gate: &G,
) -> Option<Brief>
    requires { IsPassOf lock.now pass.old }
    ensures pass { IsPassOf lock.now pass.new }
    ensures number { number pass.new ≡ number pass.old }
    ensures spent { result ≡ None → turns pass.new ≡ 2 ^ 40 }
    ensures end { IfSome result (IsAnswered T.Logged (T.base (opened_of lock.now))
        (number pass.old) (seen pass.new)) }
{
    'turns: for _ in rt.forever() {
        match lock.turn(rt, pass, Nothing) {
            Ok(Turned::Entered) => {}
            Ok(Turned::Fetch { task: _, fetches }) => pass_gate(gate, fetches),
            Ok(Turned::Idle) => rest(lock, pass),
            Ok(Turned::Ended(brief)) => return Some(brief),
            Err(_) => return None,
        }
    }
    unreachable!()
}

/// Makes turns until the work has ended, or the pass has made 2^40 of them. What the pass takes up passes the gate before
/// its next turn.
pub fn drive<R: Wait, D: Disk, G: Gate>(
    rt: &R,
    lock: &Shared<Yard<D>>,
    pass: &mut Pass<Yard<D>>,
    gate: &G,
) -> Brief
    requires { IsPassOf lock.now pass.old }
    ensures pass { IsPassOf lock.now pass.new }
    ensures number { number pass.new ≡ number pass.old }
    ensures spent { result ≡ brief.Spent → turns pass.new ≡ 2 ^ 40 }
    ensures end { result ≢ brief.Spent
        → IsEndSeen D.Disk (opened_of lock.now).origin (seen pass.new) result }
{
    match drive_on(rt, lock, pass, gate) {
        Some(brief) => brief,
        None => Brief::Spent,
    }
}

/// The same where the entries of each turn are published.
pub fn drive_watched<R: Wait + Drop + Send, D: Disk + Send, G: Gate + Sync>(
    rt: &R,
    lock: &Shared<Watched<Yard<D>, R>>,
    pass: &mut Pass<Watched<Yard<D>, R>>,
    gate: &G,
) -> Brief
    requires { IsPassOf lock.now pass.old }
    ensures pass { IsPassOf lock.now pass.new }
    ensures number { number pass.new ≡ number pass.old }
    ensures spent { result ≡ brief.Spent → turns pass.new ≡ 2 ^ 40 }
    ensures end { result ≢ brief.Spent
        → IsEndSeen D.Disk (opened_of lock.now).value.origin (seen pass.new) result }
{
    match drive_on(rt, lock, pass, gate) {
        Some(brief) => brief,
        None => Brief::Spent,
    }
}
