//! Changes, and a whole payload of them.

ghost use Rattle.std.specs.Prelude.{◌≡◌, ◌++◌, ◌∷◌, [], ◌&&◌, ◌==◌, not, length, true, OnOk, IfOk, Some};
ghost use Rattle.std.specs.List.{flat_map, list_all};
ghost use Rattle.sw_codec.specs.Spelling.{bytes_spelling, counted_spelling, are_counted, op_spelling, is_op, is_text, is_body, mode_byte, kind_byte, bit, change_spelling, has_spelling, spelled_all};

use super::exchange::put_ops;
use super::fields::{bit, kind_byte, mode_byte, put_bytes, put_text};
use std::alloc::Global;
use sw_data::{Bytes, Change, KeptWorker, Mode, NoMemory, Op, Text};

// Writes a tag and two texts: a key, and a scope or a name.
fn put_names(out: &mut Vec<u8>, tag: u8, key: &Text, name: &Text) -> Result<(), NoMemory>
    ensures bytes { OnOk result (out.new.items ≡ out.old.items
        ++ tag ∷ (bytes_spelling key.now ++ bytes_spelling name.now)) }
    ensures fits { IfOk result (λ _. (is_text key.now && is_text name.now) ≡ true) }
{
    out.push(tag)?;
    put_text(out, key)?;
    put_text(out, name)
}

// Writes a worker behind a mode.
fn put_worker(out: &mut Vec<u8>, mode: Mode, worker: &KeptWorker) -> Result<(), NoMemory>
    ensures bytes { OnOk result (out.new.items ≡ out.old.items
        ++ (mode_byte mode ∷ [] ++ bytes_spelling worker.now.script
        ++ kind_byte worker.now.kind ∷ [] ++ bytes_spelling worker.now.body)) }
    ensures fits { IfOk result (λ _.
        (is_text worker.now.script && is_body worker.now.body) ≡ true) }
{
    out.push(mode_byte(mode))?;
    put_text(out, &worker.script)?;
    out.push(kind_byte(worker.kind))?;
    put_bytes(out, worker.body.get())
}

// Writes a flag and a text.
fn put_flagged(out: &mut Vec<u8>, on: bool, text: &Text) -> Result<(), NoMemory>
    ensures bytes { OnOk result (out.new.items ≡ out.old.items
        ++ (bit 1 on ∷ [] ++ bytes_spelling text.now)) }
    ensures fits { IfOk result (λ _. is_text text.now ≡ true) }
{
    out.push(bit(1, on))?;
    put_text(out, text)
}

// Writes operations, at least one.
fn put_some_ops(out: &mut Vec<u8>, ops: &[Op]) -> Result<(), NoMemory>
    ensures bytes { OnOk result (out.new.items ≡ out.old.items
        ++ counted_spelling op_spelling ops.now) }
    ensures fits { IfOk result (λ _.
        (not (length ops.now == 0) && are_counted is_op ops.now) ≡ true) }
{
    if ops.is_empty() {
        return Err(NoMemory);
    }
    put_ops(out, ops)
}

// Writes a change.
#[tactic(auto, unfolding(crate::specs::Spelling::change_spelling, crate::specs::Spelling::has_spelling))]
fn put_change(out: &mut Vec<u8>, change: &Change) -> Result<(), NoMemory>
    ensures bytes { OnOk result (out.new.items ≡ out.old.items ++ change_spelling change.now) }
    ensures fits { IfOk result (λ _. has_spelling change.now ≡ true) }
{
    match change {
        Change::Waiting {
            key,
            scope,
            mode,
            worker,
        } => {
            put_names(out, 1, key, scope)?;
            put_worker(out, *mode, worker)
        }
        Change::Active { key, scope } => put_names(out, 2, key, scope),
        Change::Activated { key, scope } => put_names(out, 3, key, scope),
        Change::Mode { key, scope, mode } => {
            put_names(out, 4, key, scope)?;
            Ok(out.push(mode_byte(*mode))?)
        }
        Change::Gone { key, scope } => put_names(out, 5, key, scope),
        Change::CacheNew { key, name } => put_names(out, 6, key, name),
        Change::CacheDrop { key, name } => put_names(out, 7, key, name),
        Change::CacheOps {
            key,
            name,
            operations,
        } => {
            put_names(out, 8, key, name)?;
            put_some_ops(out, operations.as_slice())
        }
        Change::Forgot { key } => {
            out.push(9)?;
            put_text(out, key)
        }
        Change::Restarted => Ok(out.push(10)?),
        Change::Preload {
            key,
            scope,
            on,
            value,
        } => {
            put_names(out, 11, key, scope)?;
            put_flagged(out, *on, value)
        }
    }
}

/// The spellings of the changes, one after the other. It is want of memory too where a change has no spelling: a
/// `CacheOps` without operations, or a length or a count of 2^32 or more.
pub fn write(alloc: Global, changes: &[Change]) -> Result<Bytes, NoMemory>
    ensures { IfOk result (λ bytes. spelled_all changes.now ≡ Some bytes) }
{
    let mut out = Vec::new(alloc);
    for change in changes {
        put_change(&mut out, change)?;
    }
    Ok(Bytes::from_vec(out))
}
