//! Passes on threads of their own, over a list of numbers.
ghost use Rattle.std.specs.Prelude.{◌≡◌, ◌++◌, ◌∷◌, ℕ, [], All, MatchBool};
ghost use Rattle.sw_lock.specs.Passes.{IsPassOf};

use std::hint::spin_loop;
use std::sync::Wait;
use std::thread;
use std::thread::Threads;
use sw_lock::{Logged, Missing, Pass, Shared};

#[derive(Clone, Copy, Debug)]
struct Mark {
    pass: u32,
    turn: u64,
}

#[derive(Drop)]
struct Marks<D> {
    list: Vec<Mark>,
    passes: u32,
    // How often each step spins.
    spins: u32,
    held: D,
}

impl<D> Logged for Marks<D> {
    type Entry = Mark;

    type Given = u64;

    type Out = bool;

    ghost Base = { ℕ };

    ghost base = { λ marks. marks.passes };

    ghost passes = { λ base. base };

    ghost log = { λ marks. marks.list.items };

    ghost maker = { λ mark. mark.pass };

    ghost steps = { λ before given pass after answer. MatchBool answer
        (after.list.items ≡ before.list.items ++ record { pass = pass; turn = given } ∷ [])
        (after.list.items ≡ before.list.items) };

    fn step(&mut self, given: u64, pass: u32) -> bool {
        for _ in 0..self.spins {
            spin_loop();
        }
        if self.list.len() >= self.list.capacity() {
            return false;
        }
        self.list.push_reserved(Mark { pass, turn: given });
        true
    }

    fn entries(&self) -> u64 {
        self.list.len() as u64
    }
}

fn make_turns<D, R: Wait>(rt: &R, lock: &Shared<Marks<D>>, pass: &mut Pass<Marks<D>>, turns: u64)
    requires { IsPassOf lock.now pass.old }
    ensures { IsPassOf lock.now pass.new }
{
    for turn in 0..turns {
        let _ = lock.turn(rt, pass, turn);
    }
}

fn all_turns<D: Send, R: Threads + Wait + Sync>(
    rt: &R,
    lock: &Shared<Marks<D>>,
    passes: &mut [Pass<Marks<D>>],
    turns: u64,
)
    requires { All (IsPassOf lock.now) passes.old }
    ensures { All (IsPassOf lock.now) passes.new }
{
    thread::for_each_mut(rt, passes, 16, &|_, pass| make_turns(rt, lock, pass, turns));
}

// In the last case a step takes far longer than a pass looks before it sleeps: each waiting pass has to be woken.
#[test]
fn each_pass_has_its_turns_in_its_order(rt: HostRuntime) {
    for (passes, turns, spins) in [(4u32, 1000u64, 0), (16, 200, 0), (3, 40, 100_000)] {
        let mut next = vec![in rt.alloc(); 0u64; passes as usize].expect(&rt, "memory");
        let marks = Marks {
            list: Vec::with_capacity(rt.alloc(), passes as usize * turns as usize).expect(
                &rt, "memory",
            ),
            passes,
            spins,
            held: (),
        };
        let Ok((lock, mut all)) = Shared::new(rt.alloc(), marks, passes) else {
            panic!(rt; "no memory")
        };
        all_turns(&rt, &lock, all.as_mut_slice(), turns);
        let Ok(marks) = lock.close(all) else {
            panic!(rt; "a pass is missing")
        };
        for mark in &marks.list {
            let count = next.get_mut(mark.pass as usize).expect(&rt, "a pass");
            assert_eq!(rt; *count, mark.turn, "pass {}", mark.pass);
            *count = mark.turn.wrapping_add(1);
        }
        assert!(rt; next.iter().all(|count| *count == turns), "all turns");
    }
}

// What a pass is told before and after an entry, and after a turn that makes none.
fn looks<R: Wait>(
    rt: &R,
    lock: &Shared<Marks<()>>,
    pass: &mut Pass<Marks<()>>,
) -> (u64, bool, u64, bool, u64)
    requires { IsPassOf lock.now pass.old }
    ensures { IsPassOf lock.now pass.new }
{
    let before = lock.look(pass);
    let made = lock.turn(rt, pass, 7) == Ok(true);
    let after = lock.look(pass);
    let full = lock.turn(rt, pass, 8) == Ok(false);
    (before, made, after, full, lock.look(pass))
}

#[test]
fn a_look_after_an_entry_tells_of_it(rt: HostRuntime) {
    let marks = Marks {
        list: Vec::with_capacity(rt.alloc(), 1).expect(&rt, "memory"),
        passes: 1,
        spins: 0,
        held: (),
    };
    let Ok((lock, mut all)) = Shared::new(rt.alloc(), marks, 1) else {
        panic!(rt; "no memory")
    };
    let mut only = all.pop().expect(&rt, "one pass");
    assert_eq!(rt; looks(&rt, &lock, &mut only), (0, true, 1, true, 1));
    assert!(rt; all.push(only).is_ok());
    assert!(rt; lock.close(all).is_ok());
}

#[test]
fn a_lock_closes_with_all_its_passes_only(rt: HostRuntime) {
    let marks = Marks {
        list: Vec::new(rt.alloc()),
        passes: 2,
        spins: 0,
        held: (),
    };
    let Ok((lock, mut all)) = Shared::new(rt.alloc(), marks, 2) else {
        panic!(rt; "no memory")
    };
    let second = all.pop().expect(&rt, "two passes");
    let Err(Missing { shared, mut passes }) = lock.close(all) else {
        panic!(rt; "one pass is enough")
    };
    assert_eq!(rt; passes.len(), 1);
    assert!(rt; passes.push(second).is_ok());
    assert!(rt; shared.close(passes).is_ok());
}
