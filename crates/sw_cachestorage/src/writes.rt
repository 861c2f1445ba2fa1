//! Writes to a cache (Service Workers, Cache, "put()", "delete()"; Appendix A, "Batch Cache Operations").

ghost use Rattle.std.specs.Prelude.{◌≡◌, ◌≢◌, ◌∷◌, [], IfOk};
ghost use Rattle.std.specs.Result.{result_map_both};
ghost use Rattle.sw_data.specs.declared.answers.Answer.TheVariants as answer;
ghost use Rattle.sw_rules.specs.Caching as rules;
ghost use Rattle.sw_rules.specs.Caching.{run_batch, unparsed_fault, with_cache_pairs};
ghost use Rattle.sw_rules.specs.Told.{refused};
ghost use Rattle.sw_cachestorage.specs.Acts.{FitsAct, IsStep};
ghost use Rattle.sw_cachestorage.specs.Faults.{done_answer, fault_by, thrown_by, thrown_fault};
ghost use Rattle.sw_cachestorage.specs.declared.act.CacheAct.TheVariants as CacheAct;
ghost use Rattle.sw_caches.specs.declared.fault.BatchFault.TheVariants as BatchFault;

use crate::act::{CacheAct, CacheStep, refused, unparsed};
use crate::changes::batch_changes;
use std::alloc::Global;
use sw_caches::{BatchFault, CachePlan, Caches};
use sw_data::{
    Answer, CacheBatch, CacheDelete, CachePut, Cause, Fault, NoMemory, Op, Request, Text,
};
use sw_url::{UrlFault, resolve};

// The fault that an action tells: an operation alone has no index but that of a clash.
fn fault_of(why: BatchFault, alone: bool) -> Fault
    ensures { result ≡ thrown_fault alone why }
{
    match why {
        BatchFault::TypeError { at, cause } => Fault::TypeError {
            cause,
            index: if alone { None } else { Some(at) },
        },
        BatchFault::InvalidState { at } => Fault::InvalidStateAt { index: at },
        BatchFault::CacheGone => Fault::CacheGone,
        BatchFault::Quota { .. } | BatchFault::NoMemory => Fault::Quota,
    }
}

// What a refused batch comes to.
fn refusal(alloc: Global, why: BatchFault, alone: bool) -> Result<CacheStep, NoMemory>
    ensures { IfOk result (λ step. (why ≢ BatchFault.NoMemory) × (step ≡ record {
      answer = answer.Fault (thrown_fault alone why);
      act = CacheAct.Nothing;
      changes = [];
    })) }
{
    match why {
        BatchFault::NoMemory => Err(NoMemory),
        _ => Ok(refused(alloc, fault_of(why, alone))),
    }
}

// The answer of a batch that goes: of a delete whether it removed a pair.
fn done(truth: Option<bool>) -> Answer
    ensures { result ≡ done_answer truth }
{
    match truth {
        Some(removed) => Answer::Truth(removed),
        None => Answer::Ok,
    }
}

// A batch, worked out: its answer and its change, or the fault that it throws.
pub(crate) fn batch(
    alloc: Global,
    caches: &mut Caches,
    key: &Text,
    name: &Text,
    ops: Vec<Op>,
    truth: Option<bool>,
    alone: bool,
) -> Result<CacheStep, NoMemory>
    ensures same { caches.new.rows ≡ caches.old.rows }
    ensures fits { IfOk result (λ step. FitsAct step.act caches.new) }
    ensures step { IfOk result (IsStep caches.old.rows (λ state.
        with_cache_pairs state key.now name.now
        (run_batch state key.now name.now ops.items (done_answer truth) (fault_by alone)))) }
{
    let changes = batch_changes(alloc, key, name, ops.as_slice())?;
    match caches.plan(alloc, key, name, ops) {
        Ok(plan) => Ok(CacheStep {
            answer: done(truth),
            act: CacheAct::Carry(plan),
            changes,
        }),
        Err(why) => refusal(alloc, why, alone),
    }
}

// One operation.
fn one(alloc: Global, op: Op) -> Result<Vec<Op>, NoMemory>
    ensures { IfOk result (λ ops. ops.items ≡ op ∷ []) }
{
    let mut ops = Vec::new(alloc);
    ops.push(op)?;
    Ok(ops)
}

/// A response is put under a request ("put()"), whose address is parsed against a base.
pub fn put_response(
    alloc: Global,
    caches: &mut Caches,
    base: &Text,
    key: &Text,
    put: &CachePut,
) -> Result<CacheStep, NoMemory>
    ensures same { caches.new.rows ≡ caches.old.rows }
    ensures fits { IfOk result (λ step. FitsAct step.act caches.new) }
    ensures step { IfOk result (IsStep caches.old.rows
        (λ state. rules.put_response state base.now put.now key.now)) }
{
    if !caches.has(key, &put.name) {
        return Ok(refused(alloc, Fault::CacheGone));
    }
    match resolve(alloc, &put.request.url, base) {
        Ok(url) => {
            let request = put.request.with_url(alloc, url)?;
            let response = put.response.copy(alloc)?;
            let ops = one(alloc, Op::Put { request, response })?;
            batch(alloc, caches, key, &put.name, ops, None, true)
        }
        Err(UrlFault::NoMemory) => Err(NoMemory),
        Err(_) => Ok(unparsed(alloc)),
    }
}

/// The pairs that a request matches are removed ("delete()"): whether there was one.
pub fn delete_request(
    alloc: Global,
    caches: &mut Caches,
    base: &Text,
    key: &Text,
    asked: &CacheDelete,
) -> Result<CacheStep, NoMemory>
    ensures same { caches.new.rows ≡ caches.old.rows }
    ensures fits { IfOk result (λ step. FitsAct step.act caches.new) }
    ensures step { IfOk result (IsStep caches.old.rows
        (λ state. rules.delete_request state base.now asked.now key.now)) }
{
    if !caches.has(key, &asked.name) {
        return Ok(refused(alloc, Fault::CacheGone));
    }
    match resolve(alloc, &asked.request.url, base) {
        Ok(url) => {
            let request = asked.request.with_url(alloc, url)?;
            let options = asked.options;
            let removed = caches.has_match(key, &asked.name, &request, options);
            let ops = one(alloc, Op::Delete { request, options })?;
            batch(alloc, caches, key, &asked.name, ops, removed, true)
        }
        Err(UrlFault::NoMemory) => Err(NoMemory),
        Err(_) => Ok(unparsed(alloc)),
    }
}

// An operation with its address parsed against a base, if it parses.
fn parsed_op(alloc: Global, base: &Text, op: &Op) -> Result<Option<Op>, NoMemory>
    ensures { IfOk result (λ parsed. parsed ≡ rules.parsed_op base.now op.now) }
{
    match op {
        Op::Delete { request, options } => match resolve(alloc, &request.url, base) {
            Ok(url) => Ok(Some(Op::Delete {
                request: request.with_url(alloc, url)?,
                options: *options,
            })),
            Err(UrlFault::NoMemory) => Err(NoMemory),
            Err(_) => Ok(None),
        },
        Op::Put { request, response } => match resolve(alloc, &request.url, base) {
            Ok(url) => Ok(Some(Op::Put {
                request: request.with_url(alloc, url)?,
                response: response.copy(alloc)?,
            })),
            Err(UrlFault::NoMemory) => Err(NoMemory),
            Err(_) => Ok(None),
        },
    }
}

// The operations with their addresses parsed, or those before the first whose address doesn't parse.
fn parsed_ops(alloc: Global, base: &Text, ops: &[Op]) -> Result<Result<Vec<Op>, Vec<Op>>, NoMemory>
    ensures { IfOk result (λ parsed.
        result_map_both (λ all. all.items) (λ before. before.items) parsed
        ≡ rules.parsed_ops base.now ops.now) }
{
    let mut parsed = Vec::new(alloc);
    for op in ops {
        match parsed_op(alloc, base, op)? {
            Some(op) => parsed.push(op)?,
            None => return Ok(Err(parsed)),
        }
    }
    Ok(Ok(parsed))
}

// What the operations of a batch throw, the quota aside.
fn thrown(planned: Result<CachePlan, BatchFault>) -> Option<BatchFault>
    ensures { result ≡ thrown_by planned }
{
    match planned {
        Ok(_) | Err(BatchFault::Quota { .. }) => None,
        Err(why) => Some(why),
    }
}

// A batch that has an operation whose address doesn't parse, behind these.
fn unparsed_batch(
    alloc: Global,
    caches: &mut Caches,
    key: &Text,
    name: &Text,
    before: Vec<Op>,
) -> Result<CacheStep, NoMemory>
    ensures same { caches.new.rows ≡ caches.old.rows }
    ensures fits { IfOk result (λ step. FitsAct step.act caches.new) }
    ensures step { IfOk result (IsStep caches.old.rows (λ state.
        with_cache_pairs state key.now name.now
        (λ pairs. refused state (unparsed_fault pairs before.items)))) }
{
    let Ok(at) = u32::try_from(before.len()) else {
        return Err(NoMemory);
    };
    let planned = caches.plan(alloc, key, name, before);
    match thrown(planned) {
        Some(why) => refusal(alloc, why, false),
        None => Ok(refused(
            alloc,
            Fault::TypeError {
                cause: Cause::Unparsed,
                index: Some(at),
            },
        )),
    }
}

/// A batch of operations, whose addresses are parsed against a base.
pub fn batch_ops(
    alloc: Global,
    caches: &mut Caches,
    base: &Text,
    key: &Text,
    asked: &CacheBatch,
) -> Result<CacheStep, NoMemory>
    ensures same { caches.new.rows ≡ caches.old.rows }
    ensures fits { IfOk result (λ step. FitsAct step.act caches.new) }
    ensures step { IfOk result (IsStep caches.old.rows
        (λ state. rules.batch_ops state base.now asked.now key.now)) }
{
    if !caches.has(key, &asked.name) {
        return Ok(refused(alloc, Fault::CacheGone));
    }
    match parsed_ops(alloc, base, asked.operations.as_slice())? {
        Ok(ops) => batch(alloc, caches, key, &asked.name, ops, None, false),
        Err(before) => unparsed_batch(alloc, caches, key, &asked.name, before),
    }
}
