//! Copies of fetch lines, handlers and their calls.

ghost use Rattle.std.specs.Prelude.{◌≡◌, IfOk};

use crate::ops::{copy_ops, copy_requests};
use crate::{
    Boxed, CacheAddAll, CacheBatch, CacheDelete, CachePut, Call, FetchLine, Fetched, Handlers,
    Items, NoMemory,
};
use std::alloc::Global;

fn copy_put(alloc: Global, put: &CachePut) -> Result<Boxed<CachePut>, NoMemory>
    ensures { IfOk result (λ copy. copy ≡ put.now) }
{
    let copy = CachePut {
        name: put.name.copy(alloc)?,
        request: put.request.copy(alloc)?,
        response: put.response.copy(alloc)?,
    };
    Boxed::new(alloc, copy)
}

fn copy_delete(alloc: Global, delete: &CacheDelete) -> Result<Boxed<CacheDelete>, NoMemory>
    ensures { IfOk result (λ copy. copy ≡ delete.now) }
{
    let copy = CacheDelete {
        name: delete.name.copy(alloc)?,
        request: delete.request.copy(alloc)?,
        options: delete.options,
    };
    Boxed::new(alloc, copy)
}

fn copy_batch(alloc: Global, batch: &CacheBatch) -> Result<Boxed<CacheBatch>, NoMemory>
    ensures { IfOk result (λ copy. copy ≡ batch.now) }
{
    let copy = CacheBatch {
        name: batch.name.copy(alloc)?,
        operations: copy_ops(alloc, batch.operations.as_slice())?,
    };
    Boxed::new(alloc, copy)
}

fn copy_add_all(alloc: Global, add: &CacheAddAll) -> Result<Boxed<CacheAddAll>, NoMemory>
    ensures { IfOk result (λ copy. copy ≡ add.now) }
{
    let copy = CacheAddAll {
        name: add.name.copy(alloc)?,
        requests: copy_requests(alloc, &add.requests)?,
    };
    Boxed::new(alloc, copy)
}

/// A call of its own that equals this one.
pub fn copy_call(alloc: Global, call: &Call) -> Result<Call, NoMemory>
    ensures { IfOk result (λ copy. copy ≡ call.now) }
{
    match call {
        Call::SkipWaiting => Ok(Call::SkipWaiting),
        Call::Claim => Ok(Call::Claim),
        Call::Update => Ok(Call::Update),
        Call::CacheOpen { name } => Ok(Call::CacheOpen {
            name: name.copy(alloc)?,
        }),
        Call::CacheDelete { name } => Ok(Call::CacheDelete {
            name: name.copy(alloc)?,
        }),
        Call::Put(put) => Ok(Call::Put(copy_put(alloc, put.get())?)),
        Call::Delete(delete) => Ok(Call::Delete(copy_delete(alloc, delete.get())?)),
        Call::Batch(batch) => Ok(Call::Batch(copy_batch(alloc, batch.get())?)),
        Call::AddAll(add) => Ok(Call::AddAll(copy_add_all(alloc, add.get())?)),
    }
}

/// A list of calls of its own that equals this one.
pub fn copy_calls(alloc: Global, calls: &Items<Call>) -> Result<Items<Call>, NoMemory>
    ensures { IfOk result (λ copy. copy ≡ calls.now) }
{
    let mut copy = Items::new(alloc);
    for call in calls.as_slice() {
        copy.push(copy_call(alloc, call)?)?;
    }
    Ok(copy)
}

/// Handlers of their own that equal these.
pub fn copy_handlers(alloc: Global, handlers: &Handlers) -> Result<Handlers, NoMemory>
    ensures { IfOk result (λ copy. copy ≡ handlers.now) }
{
    Ok(Handlers {
        throws: handlers.throws,
        install: copy_calls(alloc, &handlers.install)?,
        install_fails: handlers.install_fails,
        activate: copy_calls(alloc, &handlers.activate)?,
    })
}

/// What was fetched, on its own, equal to this.
pub fn copy_fetched(alloc: Global, fetched: &Fetched) -> Result<Fetched, NoMemory>
    ensures { IfOk result (λ copy. copy ≡ fetched.now) }
{
    Ok(Fetched {
        response: fetched.response.copy(alloc)?,
        handlers: copy_handlers(alloc, &fetched.handlers)?,
    })
}

/// A fetch line of its own that equals this one.
pub fn copy_line(alloc: Global, line: &FetchLine) -> Result<FetchLine, NoMemory>
    ensures { IfOk result (λ copy. copy ≡ line.now) }
{
    let fetched = match &line.fetched {
        Some(fetched) => Some(copy_fetched(alloc, fetched)?),
        None => None,
    };
    Ok(FetchLine {
        fetch: line.fetch.copy(alloc)?,
        fetched,
    })
}
