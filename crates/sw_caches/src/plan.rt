//! A batch on one cache, worked out before it is done.

ghost use Rattle.std.specs.Prelude.{◌≡◌, ◌<◌, false, ◌+◌, ◌^◌, ◌++◌, ◌∷◌, [], ℕ, List, None, Result, Ok, Err, OnOk, IfOk, IfErr, length};
ghost use Rattle.sw_data.specs.declared.exchange.Op.{Op};
ghost use Rattle.sw_data.specs.declared.exchange.Op.TheVariants as op;
ghost use Rattle.sw_rules.specs.Matching.{Pair};
ghost use Rattle.sw_rules.specs.Batch.{go, put_fault};
ghost use Rattle.sw_list.specs.Marks.{HasLost, KeepsBelow, KeepsSlots, has};
ghost use Rattle.sw_list.specs.Numbered.{AllFrom};
ghost use Rattle.sw_caches.specs.Entries.{AreTight, marks, number, pairs};
ghost use Rattle.sw_caches.specs.Plans.{IsDraft, IsThrown, carried, left_by};

use crate::entries::has_matching;
use crate::entry::Entry;
use crate::fault::BatchFault;
use crate::rules::{put_fault, put_size};
use crate::slots::mark_of;
use std::alloc::Global;
use sw_data::{NoMemory, Op, Options, Request, Response};
use sw_list::{Slots, put_mark, take_mark};
use sw_match::finds_nothing;

// No option is set.
pub(crate) const NO_OPTIONS: Options = Options {
    ignore_search: false,
    ignore_method: false,
    ignore_vary: false,
};

/// What a batch takes out and what it adds, whose numbers the index has already.
#[derive(Drop)]
pub struct PairsPlan {
    pub(crate) deletes: Vec<(Request, Options)>,
    pub(crate) added: Vec<Entry>,
    pub(crate) first: u64,
    pub(crate) next: u64,
}

impl PairsPlan {
    // A plan of no operation.
    pub(crate) fn new(alloc: Global, first: u64) -> PairsPlan
        ensures deletes { result.deletes.items ≡ [] }
        ensures added { result.added.items ≡ [] }
        ensures first { result.first ≡ first }
        ensures next { result.next ≡ first }
    {
        PairsPlan {
            deletes: Vec::new(alloc),
            added: Vec::new(alloc),
            first,
            next: first,
        }
    }

    // A delete is the next operation.
    fn delete(
        &mut self,
        slots: &Slots,
        at: u32,
        request: Request,
        options: Options,
    ) -> Result<(), BatchFault>
        requires { IsDraft self.old slots.now }
        ensures draft { IsDraft self.new slots.now }
        ensures first { self.new.first ≡ self.old.first }
        ensures ok { OnOk result ((old : List Pair) (rest : List Op)
            → go (left_by self.old.deletes.items (pairs self.old.added.items) old)
            (pairs self.old.added.items) at (op.Delete request options ∷ rest)
            ≡ go (left_by self.new.deletes.items (pairs self.new.added.items) old)
            (pairs self.new.added.items) (at + 1) rest) }
        ensures err { IfErr result (λ fault. (old : List Pair) (rest : List Op)
            → IsThrown fault (go old (pairs self.old.added.items) at
            (op.Delete request options ∷ rest))) }
    {
        if finds_nothing(&request, options) {
            return Ok(());
        }
        if has_matching(&self.added, slots, &request, options) {
            return Err(BatchFault::InvalidState { at });
        }
        self.deletes.push((request, options))?;
        Ok(())
    }

    // A put is the next operation.
    fn put(
        &mut self,
        alloc: Global,
        slots: &mut Slots,
        at: u32,
        request: Request,
        response: Response,
    ) -> Result<(), BatchFault>
        requires { IsDraft self.old slots.old }
        ensures draft { IsDraft self.new slots.new }
        ensures first { self.new.first ≡ self.old.first }
        ensures below { KeepsBelow self.old.first slots.old slots.new }
        ensures ok { OnOk result ((old : List Pair) (rest : List Op)
            → go (left_by self.old.deletes.items (pairs self.old.added.items) old)
            (pairs self.old.added.items) at (op.Put request response ∷ rest)
            ≡ go (left_by self.new.deletes.items (pairs self.new.added.items) old)
            (pairs self.new.added.items) (at + 1) rest) }
        ensures err { IfErr result (λ fault. (old : List Pair) (rest : List Op)
            → IsThrown fault (go old (pairs self.old.added.items) at
            (op.Put request response ∷ rest))) }
    {
        match put_fault(&request, &response) {
            Some(cause) => Err(BatchFault::TypeError { at, cause }),
            None => self.put_allowed(alloc, slots, at, request, response),
        }
    }

    // A put that may be is the next operation.
    fn put_allowed(
        &mut self,
        alloc: Global,
        slots: &mut Slots,
        at: u32,
        request: Request,
        response: Response,
    ) -> Result<(), BatchFault>
        requires draft { IsDraft self.old slots.old }
        requires allowed { put_fault request response ≡ None }
        ensures draft { IsDraft self.new slots.new }
        ensures first { self.new.first ≡ self.old.first }
        ensures below { KeepsBelow self.old.first slots.old slots.new }
        ensures ok { OnOk result ((old : List Pair) (rest : List Op)
            → go (left_by self.old.deletes.items (pairs self.old.added.items) old)
            (pairs self.old.added.items) at (op.Put request response ∷ rest)
            ≡ go (left_by self.new.deletes.items (pairs self.new.added.items) old)
            (pairs self.new.added.items) (at + 1) rest) }
        ensures err { IfErr result (λ fault. (old : List Pair) (rest : List Op)
            → IsThrown fault (go old (pairs self.old.added.items) at
            (op.Put request response ∷ rest))) }
    {
        if has_matching(&self.added, slots, &request, NO_OPTIONS) {
            return Err(BatchFault::InvalidState { at });
        }
        self.add(alloc, slots, request, response)?;
        Ok(())
    }

    // Adds a pair under the next number.
    fn add(
        &mut self,
        alloc: Global,
        slots: &mut Slots,
        request: Request,
        response: Response,
    ) -> Result<(), NoMemory>
        requires { IsDraft self.old slots.old }
        ensures draft { IsDraft self.new slots.new }
        ensures first { self.new.first ≡ self.old.first }
        ensures below { KeepsBelow self.old.first slots.old slots.new }
        ensures deletes { self.new.deletes.items ≡ self.old.deletes.items }
        ensures added { OnOk result (pairs self.new.added.items
            ≡ pairs self.old.added.items ++ (request, response) ∷ []) }
    {
        let number = self.next;
        if number == u64::MAX {
            return Err(NoMemory);
        }
        let size = put_size(&request, &response)?;
        let pair = Box::new(alloc, (request, response))?;
        self.added.reserve(1)?;
        put_mark(slots, mark_of(&pair.0.url, number))?;
        self.added.push_reserved(Entry { number, size, pair });
        self.next = number + 1;
        Ok(())
    }

    // One more operation.
    fn operate(
        &mut self,
        alloc: Global,
        slots: &mut Slots,
        at: u32,
        op: Op,
    ) -> Result<(), BatchFault>
        requires { IsDraft self.old slots.old }
        ensures draft { IsDraft self.new slots.new }
        ensures first { self.new.first ≡ self.old.first }
        ensures below { KeepsBelow self.old.first slots.old slots.new }
        ensures ok { OnOk result ((old : List Pair) (rest : List Op)
            → go (left_by self.old.deletes.items (pairs self.old.added.items) old)
            (pairs self.old.added.items) at (op ∷ rest)
            ≡ go (left_by self.new.deletes.items (pairs self.new.added.items) old)
            (pairs self.new.added.items) (at + 1) rest) }
        ensures err { IfErr result (λ fault. (old : List Pair) (rest : List Op)
            → IsThrown fault (go old (pairs self.old.added.items) at (op ∷ rest))) }
    {
        match op {
            Op::Delete { request, options } => self.delete(slots, at, request, options),
            Op::Put { request, response } => self.put(alloc, slots, at, request, response),
        }
    }
}

// Works out a batch, operation by operation.
pub(crate) fn work_out(
    plan: &mut PairsPlan,
    alloc: Global,
    slots: &mut Slots,
    ops: Vec<Op>,
) -> Result<(), BatchFault>
    requires draft { IsDraft plan.old slots.old }
    requires new { (plan.old.deletes.items ≡ []) × (plan.old.added.items ≡ []) }
    requires count { length ops.items < 2 ^ 32 }
    ensures draft { IsDraft plan.new slots.new }
    ensures first { plan.new.first ≡ plan.old.first }
    ensures below { KeepsBelow plan.old.first slots.old slots.new }
    ensures ok { OnOk result ((old : List Pair)
        → go old [] 0 ops.items ≡ Ok (carried plan.new old)) }
    ensures err { IfErr result (λ fault. (old : List Pair)
        → IsThrown fault (go old [] 0 ops.items)) }
{
    let mut at: u32 = 0;
    for op in ops {
        plan.operate(alloc, slots, at, op)?;
        at += 1;
    }
    Ok(())
}

// Takes the marks of a plan from the index; it takes no memory.
pub(crate) fn unmark_all(slots: &mut Slots, added: &[Entry])
    ensures below { (n : ℕ) → AllFrom number n added.now → KeepsBelow n slots.old slots.new }
    ensures fewer { KeepsSlots slots.new slots.old }
    ensures gone { HasLost (marks added.now) slots.new }
{
    for entry in added {
        take_mark(slots, mark_of(&entry.pair.0.url, entry.number));
    }
}

// Adds the pairs of a list, one after another, to no pairs.
pub(crate) fn add_all(
    alloc: Global,
    slots: &mut Slots,
    items: Vec<(Request, Response)>,
) -> Result<PairsPlan, NoMemory>
    requires { (key n : ℕ) → has slots.old key n ≡ false }
    ensures draft { IfOk result (λ plan. IsDraft plan slots.new) }
    ensures tight { IfOk result (λ plan. AreTight plan.added.items slots.new plan.next []) }
    ensures added { IfOk result (λ plan. pairs plan.added.items ≡ items.items) }
{
    let mut plan = PairsPlan::new(alloc, 1);
    for item in items {
        let (request, response) = item;
        plan.add(alloc, slots, request, response)?;
    }
    Ok(plan)
}
