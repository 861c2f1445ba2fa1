//! Copies of requests and of the operations of a batch.

ghost use Rattle.std.specs.Prelude.{◌≡◌, IfOk};

use crate::{Items, NoMemory, Op, Request};
use std::alloc::Global;

/// An operation of its own that equals this one.
pub fn copy_op(alloc: Global, op: &Op) -> Result<Op, NoMemory>
    ensures { IfOk result (λ copy. copy ≡ op.now) }
{
    match op {
        Op::Delete { request, options } => Ok(Op::Delete {
            request: request.copy(alloc)?,
            options: *options,
        }),
        Op::Put { request, response } => Ok(Op::Put {
            request: request.copy(alloc)?,
            response: response.copy(alloc)?,
        }),
    }
}

// A list of requests of its own that equals this one.
pub(crate) fn copy_requests(
    alloc: Global,
    requests: &Items<Request>,
) -> Result<Items<Request>, NoMemory>
    ensures { IfOk result (λ copy. copy ≡ requests.now) }
{
    let mut copy = Items::new(alloc);
    for request in requests.as_slice() {
        copy.push(request.copy(alloc)?)?;
    }
    Ok(copy)
}

/// A list of operations of its own that equals this one.
pub fn copy_ops(alloc: Global, ops: &[Op]) -> Result<Items<Op>, NoMemory>
    ensures { IfOk result (λ copy. copy ≡ ops.now) }
{
    let mut copy = Items::new(alloc);
    for op in ops {
        copy.push(copy_op(alloc, op)?)?;
    }
    Ok(copy)
}
