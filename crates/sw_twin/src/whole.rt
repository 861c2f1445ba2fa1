//! Spelling a whole part.

ghost use Rattle.std.specs.Prelude.{◌≡◌, ◌<◌, ◌^◌, ◌++◌, ◌∷◌, length, IfOk, OnOk};
ghost use Rattle.std.specs.List.{All};
ghost use Rattle.sw_journal.specs.Content.{Records, content};
ghost use Rattle.sw_journal.specs.Format.{format_2, record_bytes};
ghost use Rattle.sw_journal.specs.WholePart.{IsWhole, placed};

use crate::ones::ONE;
use std::alloc::Global;
use sw_data::{Bytes, NoMemory};

// The header of format 2.
const HEADER: [u8; 16] = *b"SWHOST-JOURNAL-2";

/// A whole part of format 2: the header, an open record for each payload, and a closed gate.
pub fn part_of(alloc: Global, payloads: &[Bytes]) -> Result<Bytes, NoMemory>
    requires { All (λ p. length p < 2 ^ 32) payloads.now }
    ensures whole { IfOk result (λ part. IsWhole payloads.now part) }
    ensures content { IfOk result
        (λ part. content part ≡ Records (placed format_2 16 payloads.now)) }
{
    let mut part = Vec::new(alloc);
    part.extend_from_slice(&HEADER)?;
    let mut number = 0;
    for payload in payloads {
        push_record(&mut part, number, payload.as_bytes())?;
        number += 1;
    }
    part.push(0)?;
    Ok(Bytes::from_vec(part))
}

// Adds an open record.
fn push_record(part: &mut Vec<u8>, number: u64, payload: &[u8]) -> Result<(), NoMemory>
    requires { length payload.now < 2 ^ 32 }
    ensures { OnOk result (part.new.items
        ≡ part.old.items ++ (1 ∷ record_bytes format_2 number payload.now)) }
{
    part.push(ONE)?;
    part.extend_from_slice(&(payload.len() as u32).to_be_bytes())?;
    part.extend_from_slice(&number.to_be_bytes())?;
    part.extend_from_slice(payload)?;
    Ok(())
}
