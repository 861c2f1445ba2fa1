//! A batch on a plain list of pairs.

ghost use Rattle.std.specs.Prelude.{◌≡◌, ◌<◌, ◌≤◌, ◌+◌, ◌^◌, ◌++◌, ◌∷◌, [], List, Ok, IfOk, IfErr, OnOk, OnErr, length, vec_len, vec_capacity};
ghost use Rattle.sw_data.specs.declared.exchange.Op.{Op};
ghost use Rattle.sw_rules.specs.Matching.{Pair};
ghost use Rattle.sw_rules.specs.Batch.{batch, go, matches_added, without_matching};
ghost use Rattle.sw_caches.specs.Plans.{IsThrown, without_op, without_ops};

use crate::entry::Pair;
use crate::fault::BatchFault;
use crate::plan::NO_OPTIONS;
use crate::rules::{QUOTA, put_fault, size_of};
use std::alloc::Global;
use sw_data::{Op, Options, Request, Response};
use sw_match::{finds_nothing, matches_pair};

/// A batch on a list of pairs (Service Workers, Appendix A, "Batch Cache Operations"), found by
/// scanning the list. Any refusal leaves the list as it was.
pub fn apply_ops(
    alloc: Global,
    pairs: &mut Vec<(Request, Response)>,
    ops: &[Op],
) -> Result<(), BatchFault>
    ensures ok { OnOk result (batch pairs.old.items ops.now ≡ Ok pairs.new.items) }
    ensures same { OnErr result (pairs.new.items ≡ pairs.old.items) }
    ensures err { IfErr result (λ fault. IsThrown fault (batch pairs.old.items ops.now)) }
{
    if ops.len() > 4_294_967_295 {
        return Err(BatchFault::NoMemory);
    }
    let size = size_of(ops)?;
    let mut added = scan(alloc, ops)?;
    if size > QUOTA {
        return Err(BatchFault::Quota { size });
    }
    pairs.reserve(added.len())?;
    drop_all(pairs, ops);
    let _ = pairs.append(&mut added);
    Ok(())
}

// The pairs that operations add.
fn scan(alloc: Global, ops: &[Op]) -> Result<Vec<Pair>, BatchFault>
    requires { length ops.now < 2 ^ 32 }
    ensures ok { IfOk result (λ added. (old : List Pair)
        → go old [] 0 ops.now ≡ Ok (without_ops ops.now old ++ added.items)) }
    ensures err { IfErr result (λ fault. (old : List Pair) → IsThrown fault (go old [] 0 ops.now)) }
{
    let mut added = Vec::new(alloc);
    let mut at: u32 = 0;
    for op in ops {
        match scan_op(alloc, &mut added, at, op) {
            Ok(()) => at += 1,
            Err(fault) => return Err(fault),
        }
    }
    Ok(added)
}

// What the next operation adds.
fn scan_op(alloc: Global, added: &mut Vec<Pair>, at: u32, op: &Op) -> Result<(), BatchFault>
    ensures ok { OnOk result ((old : List Pair) (rest : List Op)
        → go old added.old.items at (op.now ∷ rest)
        ≡ go (without_op op.now old) added.new.items (at + 1) rest) }
    ensures err { IfErr result (λ fault. (old : List Pair) (rest : List Op)
        → IsThrown fault (go old added.old.items at (op.now ∷ rest))) }
{
    match op {
        Op::Delete { request, options } => {
            if !finds_nothing(request, *options) && is_added(added, request, *options) {
                return Err(BatchFault::InvalidState { at });
            }
        }
        Op::Put { request, response } => {
            if let Some(cause) = put_fault(request, response) {
                return Err(BatchFault::TypeError { at, cause });
            }
            if is_added(added, request, NO_OPTIONS) {
                return Err(BatchFault::InvalidState { at });
            }
            let copy = request.copy(alloc)?;
            added.push((copy, response.copy(alloc)?))?;
        }
    }
    Ok(())
}

fn is_added(added: &[Pair], query: &Request, options: Options) -> bool
    ensures { result ≡ matches_added query.now options added.now }
{
    added.iter().any(|pair| matches_pair(query, options, pair))
}

// Takes out what the operations match; it takes no memory.
fn drop_all(pairs: &mut Vec<Pair>, ops: &[Op])
    ensures pairs { pairs.new.items ≡ without_ops ops.now pairs.old.items }
    ensures bound { vec_len pairs.new ≤ vec_len pairs.old }
    ensures capacity { vec_capacity pairs.new ≡ vec_capacity pairs.old }
{
    for op in ops {
        drop_op(pairs, op);
    }
}

fn drop_op(pairs: &mut Vec<Pair>, op: &Op)
    ensures pairs { pairs.new.items ≡ without_op op.now pairs.old.items }
    ensures bound { vec_len pairs.new ≤ vec_len pairs.old }
    ensures capacity { vec_capacity pairs.new ≡ vec_capacity pairs.old }
{
    match op {
        Op::Delete { request, options } => {
            if !finds_nothing(request, *options) {
                drop_matched(pairs, request, *options);
            }
        }
        Op::Put {
            request,
            response: _,
        } => drop_matched(pairs, request, NO_OPTIONS),
    }
}

fn drop_matched(pairs: &mut Vec<Pair>, query: &Request, options: Options)
    ensures pairs { pairs.new.items ≡ without_matching query.now options pairs.old.items }
    ensures bound { vec_len pairs.new ≤ vec_len pairs.old }
    ensures capacity { vec_capacity pairs.new ≡ vec_capacity pairs.old }
{
    pairs.retain(|pair| !matches_pair(query, options, pair));
}
