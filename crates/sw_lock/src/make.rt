//! Making a lock with its passes.
ghost use Rattle.std.specs.Prelude.{◌≡◌, ◌≤◌, ◌<◌, ◌+◌, [], All, map, vec_capacity, Some, IfOk, IfErr};
ghost use Rattle.std.specs.List.{range_with_len};
ghost use Rattle.sw_lock.specs.Steps.{IsFirst};
ghost use Rattle.sw_lock.specs.Passes.{number, turns, opened_of, made_of, number_of, IsNew};

use crate::lock::Shared;
use crate::logged::Logged;
use crate::pass::Pass;
use crate::rule::{Further, Start};
use crate::view::View;
use atomic_table::{Refused, Seat, Table};
use std::alloc::Global;
use std::snapshot::Snapshot;
use sw_data::NoMemory;

impl<T: Logged> Shared<T> {
    // The lock with its first seat.
    fn open(
        alloc: Global,
        value: T,
        passes: u32,
        lock: u64,
    ) -> Result<(Shared<T>, Seat<Option<T>, View<T, T::Entry>>), (NoMemory, T)>
        requires many { (0 < passes) × (passes ≤ 64) }
        requires told { passes ≡ T.passes (T.base value) }
        ensures back { IfErr result (λ e. e.1 ≡ value) }
        ensures lock { IfOk result (λ r. (opened_of r.0 ≡ value) × (made_of r.0 ≡ passes)) }
        ensures number { IfOk result (λ r. number_of r.0 ≡ lock) }
        ensures seat { IfOk result (λ r.
            (r.1.table_id ≡ r.0.table.shared.table_id) × IsFirst T.log value 1 r.1.me) }
    {
        let start = Start {
            opened: Snapshot::of(&value),
            made: passes,
            number: lock,
        };
        let entries = value.entries();
        let Ok(mut slots) = Vec::with_capacity(alloc, 1) else {
            return Err((NoMemory, value));
        };
        slots.push_reserved(Some(value));
        match Table::new(alloc, &[entries, 0, 0], slots, &start) {
            Ok((table, seat)) => Ok((
                Shared {
                    table,
                    made: passes,
                    number: lock,
                },
                seat,
            )),
            Err(Refused { mut slots }) => {
                let Some(Some(value)) = slots.pop() else {
                    unreachable!()
                };
                slots.destroy_empty();
                Err((NoMemory, value))
            }
        }
    }

    // A further pass, whose number is how many there were.
    fn further(&self, first: &mut Pass<T>, next: u32) -> Pass<T>
        requires pass { first.old.seat.table_id ≡ self.now.table.shared.table_id }
        requires first { IsFirst T.log (opened_of self.now) next first.old.seat.me }
        requires few { next < made_of self.now }
        ensures pass { first.new.seat.table_id ≡ self.now.table.shared.table_id }
        ensures first { IsFirst T.log (opened_of self.now) (next + 1) first.new.seat.me }
        ensures further { IsNew self.now result × (number result ≡ next) }
    {
        let seat = self.table.shared.split_seat::<Further>(&mut first.seat);
        Pass {
            seat,
            number: next,
            turns: 0,
        }
    }

    // All passes, in the order of their numbers, in a list that has room for them.
    fn deal(&self, seat: Seat<Option<T>, View<T, T::Entry>>, mut all: Vec<Pass<T>>) -> Vec<Pass<T>>
        requires table { seat.table_id ≡ self.now.table.shared.table_id }
        requires first { IsFirst T.log (opened_of self.now) 1 seat.me }
        requires some { 0 < made_of self.now }
        requires empty { all.items ≡ [] }
        requires room { made_of self.now ≤ vec_capacity all }
        ensures new { All (IsNew self.now) result.items }
        ensures numbers { map number result.items ≡ range_with_len 0 (made_of self.now) }
    {
        let mut first = Pass {
            seat,
            number: 0,
            turns: 0,
        };
        for next in 1..self.made {
            all.push_reserved(self.further(&mut first, next));
        }
        let _ = all.insert(0, first);
        all
    }

    /// A lock on the value, and as many passes as the value's base tells. They have seen what the value has.
    /// After want of memory the value comes back as it was.
    pub fn new(
        alloc: Global,
        value: T,
        passes: u32,
    ) -> Result<(Shared<T>, Vec<Pass<T>>), (NoMemory, T)>
        requires many { (0 < passes) × (passes ≤ 64) }
        requires told { passes ≡ T.passes (T.base value) }
        ensures back { IfErr result (λ e. e.1 ≡ value) }
        ensures opened { IfOk result (λ r. opened_of r.0 ≡ value) }
        ensures made { IfOk result (λ r. made_of r.0 ≡ passes) }
        ensures new { IfOk result (λ r. All (IsNew r.0) r.1.items) }
        ensures numbers { IfOk result (λ r. map number r.1.items ≡ range_with_len 0 passes) }
    {
        Self::numbered(alloc, value, passes, 0)
    }

    /// The same, of a lock with this number, which `Spent` carries.
    pub fn numbered(
        alloc: Global,
        value: T,
        passes: u32,
        lock: u64,
    ) -> Result<(Shared<T>, Vec<Pass<T>>), (NoMemory, T)>
        requires many { (0 < passes) × (passes ≤ 64) }
        requires told { passes ≡ T.passes (T.base value) }
        ensures back { IfErr result (λ e. e.1 ≡ value) }
        ensures opened { IfOk result (λ r. opened_of r.0 ≡ value) }
        ensures made { IfOk result (λ r. made_of r.0 ≡ passes) }
        ensures number { IfOk result (λ r. number_of r.0 ≡ lock) }
        ensures new { IfOk result (λ r. All (IsNew r.0) r.1.items) }
        ensures numbers { IfOk result (λ r. map number r.1.items ≡ range_with_len 0 passes) }
    {
        let Ok(all) = Vec::with_capacity(alloc, passes as usize) else {
            return Err((NoMemory, value));
        };
        let (lock, seat) = Self::open(alloc, value, passes, lock)?;
        let all = lock.deal(seat, all);
        Ok((lock, all))
    }
}
