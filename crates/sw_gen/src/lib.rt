//! The recording that a number and a size name: scripts, and clients that open, register, and close, cache, update or
//! unregister, in numbers and kinds that look random and are the same on every machine.
#![tactic(auto)]

ghost use Rattle.std.specs.Prelude.{◌≡◌, ◌≤◌, IfOk};
ghost use Rattle.sw_gen.specs.Generated.{generated, made};

use lines::fetch_lines;
use made::Made;
use std::alloc::Global;
use sw_data::{Bytes, NoMemory};

mod lines;
mod made;

/// The recording of this number with `size` clients, from 1 to 4096, as its bytes in UTF-8.
#[tactic(auto, using(crate::proofs::Growing::more_clients))]
pub fn generate(alloc: Global, number: u32, size: u32) -> Result<Bytes, NoMemory>
    requires least { 1 ≤ size }
    requires most { size ≤ 4096 }
    ensures { IfOk result (λ bytes. bytes ≡ generated number size) }
{
    let mut all = Made::new(fetch_lines(alloc)?, number);
    for client in 0..size {
        all.add(alloc, client)?;
    }
    Ok(Bytes::from_vec(all.into_text().into_bytes()))
}
