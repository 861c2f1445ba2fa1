//! A lock with all its passes, which work.

ghost use Rattle.std.specs.Prelude.{◌≡◌, ◌<◌, ◌≤◌, All, length, vec_len, IfErr, IfOk};
ghost use Rattle.sw_lock.specs.Passes.{IsPassOf, made_of, number_of, opened_of};
ghost use Rattle.sw_pool.specs.Yards.{IsUnkept};

use crate::driving::drive_on;
use crate::ends::{Nothing, Turned};
use std::alloc::Global;
use std::sync::Wait;
use std::thread::{Threads, for_each_mut};
use sw_lock::{Logged, Pass, Shared};
use sw_net::Gate;
use sw_turns::DriveEnd;

/// A lock with all its passes.
pub(crate) struct Crew<T: Logged> {
    lock: Shared<T>,
    passes: Vec<Pass<T>>,
    ghost of_lock: { All (IsPassOf lock) passes.items },
    ghost all: { vec_len passes ≡ made_of lock },
}

// Each pass of a lock works, on a thread of its own where one can be made.
fn drive_all<
    R: Threads + Wait + Sync,
    T: Logged<Given = Nothing, Out = Turned> + Send,
    G: Gate + Sync,
>(rt: &R, lock: &Shared<T>, gate: &G, passes: &mut [Pass<T>])
    requires { All (IsPassOf lock.now) passes.old }
    ensures all { All (IsPassOf lock.now) passes.new }
    ensures count { length passes.new ≡ length passes.old }
{
    for_each_mut(
        rt,
        passes,
        64,
        &|_, pass| {
            let _ = drive_on(rt, lock, pass, gate);
        },
    );
}

// How a run has ended of which no end is kept: for want of turns, or of memory.
fn unkept<T: Logged>(lock: &Shared<T>, passes: &[Pass<T>]) -> DriveEnd
    requires { All (IsPassOf lock.now) passes.now }
    ensures { IsUnkept (number_of lock.now) result }
{
    for pass in passes {
        if let Some(spent) = pass.spent(lock) {
            return DriveEnd::Spent(spent);
        }
    }
    DriveEnd::NoMemory
}

// The lock is closed, with all its passes. It gives back its value, and how the run has ended where no end is kept in it.
fn close<T: Logged>(lock: Shared<T>, passes: Vec<Pass<T>>) -> (T, DriveEnd)
    requires passes { All (IsPassOf lock) passes.items }
    requires all { vec_len passes ≡ made_of lock }
    ensures base { T.base result.0 ≡ T.base (opened_of lock) }
    ensures otherwise { IsUnkept (number_of lock) result.1 }
{
    let otherwise = unkept(&lock, &passes);
    match lock.close(passes) {
        Ok(value) => (value, otherwise),
        Err(_) => unreachable!(),
    }
}

impl<T: Logged> Crew<T> {
    // A lock of this number on a value. After want of memory the value comes back as it was.
    pub(crate) fn new(alloc: Global, value: T, passes: u32, number: u64) -> Result<Crew<T>, T>
        requires many { (0 < passes) × (passes ≤ 64) }
        requires told { passes ≡ T.passes (T.base value) }
        ensures opened { IfOk result (λ crew. opened_of crew.lock ≡ value) }
        ensures number { IfOk result (λ crew. number_of crew.lock ≡ number) }
        ensures back { IfErr result (λ it. it ≡ value) }
    {
        match Shared::numbered(alloc, value, passes, number) {
            Ok((lock, passes)) => Ok(Crew { lock, passes }),
            Err((_, value)) => Err(value),
        }
    }

    // The value, and how the work has ended where no end is kept in it.
    pub(crate) fn close(self) -> (T, DriveEnd)
        ensures base { T.base result.0 ≡ T.base (opened_of self.lock) }
        ensures otherwise { IsUnkept (number_of self.lock) result.1 }
    {
        let Crew { lock, passes } = self;
        close(lock, passes)
    }
}

// Each pass works, on a thread of its own where one can be made.
pub(crate) fn drive<
    R: Threads + Wait + Sync,
    T: Logged<Given = Nothing, Out = Turned> + Send,
    G: Gate + Sync,
>(rt: &R, gate: &G, crew: &mut Crew<T>)
    ensures { crew.new.lock ≡ crew.old.lock }
{
    drive_all(rt, &crew.lock, gate, crew.passes.as_mut_slice());
}
