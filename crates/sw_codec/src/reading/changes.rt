//! Changes, and a whole payload of them.

ghost use Rattle.std.specs.Prelude.{◌≡◌, length};
ghost use Rattle.sw_codec.specs.Outcome.{Gives, GivesAll};
ghost use Rattle.sw_codec.specs.Reading.{names_at, waiting_at, active_at, activated_at, update_mode_at, gone_at, cache_new_at, cache_drop_at, cache_ops_at, forgot_at, preload_at, change_at, read_changes};

use super::exchange::ops_of;
use super::fields::{byte_of, bytes_of, flag_of, kind_of, mode_of, text_of};
use crate::error::{Fault, ReadError};
use std::alloc::Global;
use sw_data::{Change, KeptWorker, Text};

// Two texts: a key, and a scope or a name.
fn names_of(alloc: Global, bytes: &[u8]) -> Result<((Text, Text), &[u8]), Fault>
    ensures { Gives (λ x. (x.0, x.1.now)) result (names_at bytes.now) }
{
    let (key, rest) = text_of(alloc, bytes)?;
    let (name, rest) = text_of(alloc, rest)?;
    Ok(((key, name), rest))
}

#[tactic(auto, unfolding(crate::specs::Reading::waiting_at))]
fn waiting_of(alloc: Global, bytes: &[u8]) -> Result<(Change, &[u8]), Fault>
    ensures { Gives (λ x. (x.0, x.1.now)) result (waiting_at bytes.now) }
{
    let ((key, scope), rest) = names_of(alloc, bytes)?;
    let (mode, rest) = mode_of(rest)?;
    let (script, rest) = text_of(alloc, rest)?;
    let (kind, rest) = kind_of(rest)?;
    let (body, rest) = bytes_of(alloc, rest)?;
    let worker = KeptWorker { script, kind, body };
    let waiting = Change::Waiting {
        key,
        scope,
        mode,
        worker,
    };
    Ok((waiting, rest))
}

#[tactic(auto, unfolding(crate::specs::Reading::active_at))]
fn active_of(alloc: Global, bytes: &[u8]) -> Result<(Change, &[u8]), Fault>
    ensures { Gives (λ x. (x.0, x.1.now)) result (active_at bytes.now) }
{
    let ((key, scope), rest) = names_of(alloc, bytes)?;
    Ok((Change::Active { key, scope }, rest))
}

#[tactic(auto, unfolding(crate::specs::Reading::activated_at))]
fn activated_of(alloc: Global, bytes: &[u8]) -> Result<(Change, &[u8]), Fault>
    ensures { Gives (λ x. (x.0, x.1.now)) result (activated_at bytes.now) }
{
    let ((key, scope), rest) = names_of(alloc, bytes)?;
    Ok((Change::Activated { key, scope }, rest))
}

#[tactic(auto, unfolding(crate::specs::Reading::update_mode_at))]
fn update_mode_of(alloc: Global, bytes: &[u8]) -> Result<(Change, &[u8]), Fault>
    ensures { Gives (λ x. (x.0, x.1.now)) result (update_mode_at bytes.now) }
{
    let ((key, scope), rest) = names_of(alloc, bytes)?;
    let (mode, rest) = mode_of(rest)?;
    Ok((Change::Mode { key, scope, mode }, rest))
}

#[tactic(auto, unfolding(crate::specs::Reading::gone_at))]
fn gone_of(alloc: Global, bytes: &[u8]) -> Result<(Change, &[u8]), Fault>
    ensures { Gives (λ x. (x.0, x.1.now)) result (gone_at bytes.now) }
{
    let ((key, scope), rest) = names_of(alloc, bytes)?;
    Ok((Change::Gone { key, scope }, rest))
}

#[tactic(auto, unfolding(crate::specs::Reading::cache_new_at))]
fn cache_new_of(alloc: Global, bytes: &[u8]) -> Result<(Change, &[u8]), Fault>
    ensures { Gives (λ x. (x.0, x.1.now)) result (cache_new_at bytes.now) }
{
    let ((key, name), rest) = names_of(alloc, bytes)?;
    Ok((Change::CacheNew { key, name }, rest))
}

#[tactic(auto, unfolding(crate::specs::Reading::cache_drop_at))]
fn cache_drop_of(alloc: Global, bytes: &[u8]) -> Result<(Change, &[u8]), Fault>
    ensures { Gives (λ x. (x.0, x.1.now)) result (cache_drop_at bytes.now) }
{
    let ((key, name), rest) = names_of(alloc, bytes)?;
    Ok((Change::CacheDrop { key, name }, rest))
}

#[tactic(auto, unfolding(crate::specs::Reading::cache_ops_at))]
fn cache_ops_of(alloc: Global, bytes: &[u8]) -> Result<(Change, &[u8]), Fault>
    ensures { Gives (λ x. (x.0, x.1.now)) result (cache_ops_at bytes.now) }
{
    let ((key, name), rest) = names_of(alloc, bytes)?;
    let (operations, rest) = ops_of(alloc, rest)?;
    let ops = Change::CacheOps {
        key,
        name,
        operations,
    };
    Ok((ops, rest))
}

#[tactic(auto, unfolding(crate::specs::Reading::forgot_at))]
fn forgot_of(alloc: Global, bytes: &[u8]) -> Result<(Change, &[u8]), Fault>
    ensures { Gives (λ x. (x.0, x.1.now)) result (forgot_at bytes.now) }
{
    let (key, rest) = text_of(alloc, bytes)?;
    Ok((Change::Forgot { key }, rest))
}

#[tactic(auto, unfolding(crate::specs::Reading::preload_at))]
fn preload_of(alloc: Global, bytes: &[u8]) -> Result<(Change, &[u8]), Fault>
    ensures { Gives (λ x. (x.0, x.1.now)) result (preload_at bytes.now) }
{
    let ((key, scope), rest) = names_of(alloc, bytes)?;
    let (on, rest) = flag_of(rest)?;
    let (value, rest) = text_of(alloc, rest)?;
    let preload = Change::Preload {
        key,
        scope,
        on,
        value,
    };
    Ok((preload, rest))
}

// A change: its tag, and the fields that the tag says.
#[tactic(auto, unfolding(crate::specs::Reading::change_at))]
fn change_of(alloc: Global, bytes: &[u8]) -> Result<(Change, &[u8]), Fault>
    ensures { Gives (λ x. (x.0, x.1.now)) result (change_at bytes.now) }
{
    let (tag, rest) = byte_of(bytes)?;
    match tag {
        1 => waiting_of(alloc, rest),
        2 => active_of(alloc, rest),
        3 => activated_of(alloc, rest),
        4 => update_mode_of(alloc, rest),
        5 => gone_of(alloc, rest),
        6 => cache_new_of(alloc, rest),
        7 => cache_drop_of(alloc, rest),
        8 => cache_ops_of(alloc, rest),
        9 => forgot_of(alloc, rest),
        10 => Ok((Change::Restarted, rest)),
        11 => preload_of(alloc, rest),
        _ => Err(Fault::Bad),
    }
}

/// The changes that the bytes spell, one after the other and nothing behind them. No memory is taken for a length or a
/// count before so many bytes are there.
pub fn read(alloc: Global, bytes: &[u8]) -> Result<Vec<Change>, ReadError>
    ensures { GivesAll (λ v. v.items) result (read_changes bytes.now) }
{
    let mut changes = Vec::new(alloc);
    let mut rest = bytes;
    loop {
        let offset = (bytes.len() - rest.len()) as u64;
        match change_of(alloc, rest) {
            Ok((change, after)) => {
                changes.push(change)?;
                rest = after;
            }
            Err(Fault::NoMemory) => return Err(ReadError::NoMemory),
            Err(Fault::Bad) => return Err(ReadError::BadAt(offset)),
        }
        if rest.is_empty() {
            return Ok(changes);
        }
    }
}
