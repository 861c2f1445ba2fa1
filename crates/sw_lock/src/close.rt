//! The end of a lock, once all its passes are back.
ghost use Rattle.std.specs.Prelude.{◌≡◌, ◌≤◌, ◌<◌, ◌↔◌, length, All, vec_len, Some, IfOk, IfErr, IsErr};
ghost use Rattle.sw_lock.specs.Entries.{ThenOthers};
ghost use Rattle.sw_lock.specs.declared.view.Place.TheVariants.{Away};
ghost use Rattle.sw_lock.specs.Turns.{IsEnd};
ghost use Rattle.sw_lock.specs.Passes.{number, seen, known, opened_of, made_of, IsPassOf, IsGathered};

use crate::lock::{Missing, Shared};
use crate::logged::Logged;
use crate::pass::Pass;
use crate::rule::Together;
use crate::view::View;
use atomic_table::Seat;

impl<T: Logged> Shared<T> {
    // One seat that stands for all passes.
    fn gather(&self, first: Pass<T>, others: Vec<Pass<T>>) -> Seat<Option<T>, View<T, T::Entry>>
        requires first { first.seat.table_id ≡ self.now.table.shared.table_id }
        requires others { All (λ p. p.seat.table_id ≡ self.now.table.shared.table_id) others.items }
        ensures table { result.table_id ≡ self.now.table.shared.table_id }
        ensures gathered { IsGathered first others.items result }
    {
        let mut seat = first.into_seat();
        for pass in others {
            let other = pass.into_seat();
            self.table.shared.join_seat::<Together>(&mut seat, other);
        }
        seat
    }

    // The value, once one seat stands for all passes.
    fn finish(self, seat: Seat<Option<T>, View<T, T::Entry>>) -> T
        requires table { seat.table_id ≡ self.table.shared.table_id }
        requires place { seat.me.0.place ≡ Away }
        requires some { 0 < seat.me.0.passes }
        requires all { made_of self ≤ seat.me.0.passes }
        ensures { IsEnd T.Logged (opened_of self) seat.me.0 result }
    {
        let Shared {
            table,
            made: _,
            number: _,
        } = self;
        let mut closed = table.close_with(seat);
        let Some(value) = closed.take(0) else {
            unreachable!()
        };
        closed.free();
        value
    }

    /// The value, where all passes are given. `Missing` comes exactly where fewer are given than were made.
    pub fn close(self, mut passes: Vec<Pass<T>>) -> Result<T, Missing<T>>
        requires { All (IsPassOf self) passes.items }
        ensures missing { IsErr result ↔ (vec_len passes < made_of self) }
        ensures back { IfErr result (λ m. (m.shared ≡ self) × (m.passes.items ≡ passes.items)) }
        ensures base { IfOk result (λ value. T.base value ≡ T.base (opened_of self)) }
        ensures seen { IfOk result (λ value.
            All (λ p. ThenOthers T.maker (number p) (seen p) (T.log value)) passes.items) }
        ensures known { IfOk result (λ value.
            All (λ p. known p ≤ length (T.log value)) passes.items) }
    {
        if passes.len() < self.made as usize {
            return Err(Missing {
                shared: self,
                passes,
            });
        }
        let Some(last) = passes.pop() else {
            unreachable!()
        };
        let seat = self.gather(last, passes);
        Ok(self.finish(seat))
    }
}
