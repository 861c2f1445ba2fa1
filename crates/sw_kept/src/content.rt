//! The content that records make.

ghost use Rattle.std.specs.Prelude.{◌≡◌, IfOk, OnOk, Result};
ghost use Rattle.sw_kept.specs.Stored.{IsCarried, made_by};
ghost use Rattle.sw_rules.specs.Storage.{kept_after, nothing};

use std::alloc::Global;
use sw_change::Content;
use sw_codec::{ReadError, read};
use sw_data::{Bytes, Change, NoMemory};

// Carries changes out, one after the other.
fn carry_out(alloc: Global, content: &mut Content, changes: Vec<Change>) -> Result<(), NoMemory>
    ensures { OnOk result (content.new ≡ kept_after content.old changes.items) }
{
    for change in changes {
        content.apply(alloc, change)?;
    }
    Ok(())
}

// Carries the changes out that a payload spells. False where it spells none.
fn carry_payload(alloc: Global, content: &mut Content, payload: &[u8]) -> Result<bool, NoMemory>
    ensures { IfOk result (λ good. IsCarried good content.old content.new payload.now) }
{
    match read(alloc, payload) {
        Ok(changes) => {
            carry_out(alloc, content, changes)?;
            Ok(true)
        }
        Err(ReadError::BadAt(_)) => Ok(false),
        Err(ReadError::NoMemory) => Err(NoMemory),
    }
}

// The content that the changes of records make of nothing, or the offset of the gate of the first record that spells
// none.
pub(crate) fn content_by(
    alloc: Global,
    records: &[(u64, Bytes)],
) -> Result<Result<Content, u64>, NoMemory>
    ensures { IfOk result (λ made. made ≡ made_by nothing records.now) }
{
    let mut content = Content::new(alloc);
    for entry in records {
        if !carry_payload(alloc, &mut content, entry.1.as_bytes())? {
            return Ok(Err(entry.0));
        }
    }
    Ok(Ok(content))
}
