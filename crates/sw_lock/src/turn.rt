//! One turn: draw a ticket, wait until it is served, work on the value, count its entries, pass on.
ghost use Rattle.std.specs.Prelude.{◌≡◌, ◌↔◌, ◌+◌, ◌<◌, ◌≤◌, ◌^◌, length, Some, IfOk, IfErr, IsErr};
ghost use Rattle.sw_lock.specs.declared.view.Place.TheVariants.{Away};
ghost use Rattle.sw_lock.specs.Steps.{IsIdle, Found, Advanced, Took, with_ticket};
ghost use Rattle.sw_lock.specs.Passes.{number, seen, known, turns, opened_of, lock_of, number_of, IsPassOf, IsSame, Turned};

use crate::lock::Shared;
use crate::logged::Logged;
use crate::pass::{Pass, Spent};
use crate::rule::{Count, Draw, Look, PassOn, See};
use crate::view::View;
use atomic_table::Seat;
use std::hint::spin_loop;
use std::sync::Wait;
use std::thread::yield_now;

// The words of the table.
const ENTRIES: usize = 0;

const NEXT: usize = 1;

const SERVED: usize = 2;

// Looks at the served word before a waiting thread begins to yield, and before it parks.
const SPINS: u32 = 64;

const YIELDS: u32 = 80;

// A park compares these bits of a word.
const LOW: u64 = 0xffff_ffff;

// One step on the value, and how many entries it made.
fn advance<T: Logged>(slot: &mut Option<T>, given: T::Given, pass: u32) -> (T::Out, u64)
    requires { (x : T) × (slot.old ≡ Some x) × (pass < T.passes (T.base x)) }
    ensures { (x : T) → slot.old ≡ Some x
        → (y : T) × (slot.new ≡ Some y) × Advanced T.Logged x given pass y result.0 result.1 }
{
    let value = slot.as_mut().unwrap();
    let before = value.entries();
    let answer = value.step(given, pass);
    (answer, value.entries() - before)
}

impl<T: Logged> Shared<T> {
    fn draw(&self, seat: &mut Seat<Option<T>, View<T, T::Entry>>) -> u64
        requires table { seat.old.table_id ≡ self.now.table.shared.table_id }
        requires idle { IsIdle seat.old.me }
        requires room { seat.old.me.0.turns < 2 ^ 40 }
        ensures table { seat.new.table_id ≡ seat.old.table_id }
        ensures drew { seat.new.me ≡ with_ticket seat.old.me result }
    {
        self.table.shared.fetch_add::<Draw>(seat, NEXT, 1)
    }

    // Waits a little: first on the processor, then by letting other threads go first, then asleep until the served word changes.
    fn rest<R: Wait>(&self, rt: &R, served: u64, looks: u32) {
        if looks < SPINS {
            spin_loop();
        } else if looks < YIELDS {
            yield_now();
        } else {
            self.table.shared.park(rt, SERVED, (served & LOW) as u32);
        }
    }

    // Waits until the ticket is served. The seat has the value then.
    fn wait_for<R: Wait>(&self, rt: &R, seat: &mut Seat<Option<T>, View<T, T::Entry>>, ticket: u64)
        requires table { seat.old.table_id ≡ self.now.table.shared.table_id }
        requires drawn { seat.old.me.0.ticket ≡ Some ticket }
        requires place { seat.old.me.0.place ≡ Away }
        requires alone { seat.old.me.0.passes ≡ 1 }
        ensures table { seat.new.table_id ≡ seat.old.table_id }
        ensures found { (x : T) × Found T.Logged seat.old.me x seat.new.me }
    {
        let mut looks: u32 = 0;
        'wait: for _ in rt.forever() {
            let served = self.table.shared.load::<See<T>>(seat, SERVED);
            if served == ticket {
                return;
            }
            self.rest(rt, served, looks);
            looks = looks.saturating_add(1);
        }
        unreachable!()
    }

    // Wakes those who wait for a later ticket, if there may be any.
    fn wake(&self, ticket: u64) {
        if self.table.shared.peek(NEXT) != ticket.wrapping_add(1) {
            self.table.shared.wake_all(SERVED);
        }
    }

    fn take_turn<R: Wait>(
        &self,
        rt: &R,
        seat: &mut Seat<Option<T>, View<T, T::Entry>>,
        given: T::Given,
        pass: u32,
    ) -> T::Out
        requires table { seat.old.table_id ≡ self.now.table.shared.table_id }
        requires opened { seat.old.me.0.opened ≡ Some (opened_of self.now) }
        requires pass { pass ≡ seat.old.me.0.number }
        requires idle { IsIdle seat.old.me }
        requires room { seat.old.me.0.turns < 2 ^ 40 }
        ensures table { seat.new.table_id ≡ seat.old.table_id }
        ensures took { Took T.Logged (opened_of self.now) seat.old.me given result seat.new.me }
    {
        let ticket = self.draw(seat);
        self.wait_for(rt, seat, ticket);
        let (answer, added) = advance(seat.slot_mut(&self.table.shared, 0), given, pass);
        self.table
            .shared
            .fetch_add::<Count<T>>(seat, ENTRIES, added);
        let served = self.table.shared.fetch_add::<PassOn>(seat, SERVED, 1);
        self.wake(served);
        answer
    }

    /// One turn of the pass: it waits until the turn is its own, and makes one step of the value.
    /// `Spent` comes exactly where the pass has made 2^40 turns; nothing changed then.
    pub fn turn<R: Wait>(
        &self,
        rt: &R,
        pass: &mut Pass<T>,
        given: T::Given,
    ) -> Result<T::Out, Spent>
        requires { IsPassOf self.now pass.old }
        ensures pass { IsPassOf self.now pass.new × (number pass.new ≡ number pass.old) }
        ensures spent { IsErr result ↔ (turns pass.old ≡ 2 ^ 40) }
        ensures same { IfErr result (λ _. IsSame pass.old pass.new) }
        ensures lock { IfErr result (λ spent. lock_of spent ≡ number_of self.now) }
        ensures turn { IfOk result (λ answer. Turned self.now pass.old pass.new given answer) }
        ensures counted { IfOk result (λ _. turns pass.new ≡ turns pass.old + 1) }
        ensures known { known pass.old ≤ known pass.new }
    {
        if let Some(spent) = pass.spent(self) {
            return Err(spent);
        }
        let answer = self.take_turn(rt, &mut pass.seat, given, pass.number);
        pass.turns += 1;
        Ok(answer)
    }

    /// A number of entries that the history has, at least what the pass had seen and was told. It waits for nobody.
    pub fn look(&self, pass: &mut Pass<T>) -> u64
        requires { IsPassOf self.now pass.old }
        ensures pass { IsPassOf self.now pass.new × (number pass.new ≡ number pass.old) }
        ensures same { (seen pass.new ≡ seen pass.old) × (turns pass.new ≡ turns pass.old) }
        ensures told { known pass.new ≡ result }
        ensures known { known pass.old ≤ result }
        ensures seen { length (seen pass.old) ≤ result }
    {
        self.table.shared.load::<Look>(&mut pass.seat, ENTRIES)
    }
}
