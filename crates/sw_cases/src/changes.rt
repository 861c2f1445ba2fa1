//! Durable changes, and the content that they make. CHANGE is one of these arrays; BATCH is an object with the `name` of a cache
//! and `operations`, as in a lane line.
//!
//! - `waiting KEY SCOPE MODE SCRIPT KIND BODY`, `active KEY SCOPE`, `activated KEY SCOPE`, `mode KEY SCOPE MODE`, `gone KEY SCOPE`,
//!   `preload KEY SCOPE ON VALUE`, `cacheNew KEY NAME`, `cacheDrop KEY NAME`, `cacheOps KEY BATCH`, `forgot KEY`, `restarted`
//! - `change counts CHANGE..`: how many registrations and caches are kept
//! - `change again CHANGE..`: how many changes make the content again, and how many the content that these make

use crate::row::{Answer, Fault, bytes, form, list_of, part, text, word};
use serde_json::Value;
use std::alloc::Global;
use sw_change::{Content, changes_of, fold_all, laws};
use sw_data::{Change, KeptWorker, Kind, Mode, NoMemory, Shared, Text};
use sw_forms::batch_parts;

fn mode(parts: &[Value], place: usize) -> Result<Mode, Fault> {
    match word(parts, place)? {
        "imports" => Ok(Mode::Imports),
        "all" => Ok(Mode::All),
        "none" => Ok(Mode::Never),
        _ => Err(Fault::BadRow),
    }
}

fn kind(parts: &[Value], place: usize) -> Result<Kind, Fault> {
    match word(parts, place)? {
        "classic" => Ok(Kind::Classic),
        "module" => Ok(Kind::Module),
        _ => Err(Fault::BadRow),
    }
}

fn waiting(alloc: Global, key: Text, scope: Text, parts: &[Value]) -> Result<Change, Fault> {
    let mode = mode(parts, 3)?;
    let kind = kind(parts, 5)?;
    let script = text(alloc, parts, 4)?;
    let body = Shared::new(alloc, bytes(alloc, parts, 6)?)?;
    Ok(Change::Waiting {
        key,
        scope,
        mode,
        worker: KeptWorker { script, kind, body },
    })
}

fn preload(alloc: Global, key: Text, scope: Text, parts: &[Value]) -> Result<Change, Fault> {
    let on = part(parts, 3)?.as_bool().ok_or(Fault::BadRow)?;
    let value = text(alloc, parts, 4)?;
    Ok(Change::Preload {
        key,
        scope,
        on,
        value,
    })
}

// A change of a registration: its word, the key, the scope and the rest.
fn of_registration(alloc: Global, parts: &[Value]) -> Result<Change, Fault> {
    let key = text(alloc, parts, 1)?;
    let scope = text(alloc, parts, 2)?;
    match word(parts, 0)? {
        "waiting" => waiting(alloc, key, scope, parts),
        "active" => Ok(Change::Active { key, scope }),
        "activated" => Ok(Change::Activated { key, scope }),
        "mode" => {
            let mode = mode(parts, 3)?;
            Ok(Change::Mode { key, scope, mode })
        }
        "gone" => Ok(Change::Gone { key, scope }),
        "preload" => preload(alloc, key, scope, parts),
        _ => Err(Fault::BadRow),
    }
}

// The operations on a cache: its key, and an object with its name and the operations, as in a batch.
fn operations(alloc: Global, parts: &[Value]) -> Result<Change, Fault> {
    let key = text(alloc, parts, 1)?;
    let batch = form(batch_parts(alloc, part(parts, 2)?))?.into_inner();
    Ok(Change::CacheOps {
        key,
        name: batch.name,
        operations: batch.operations,
    })
}

fn change(alloc: Global, parts: &[Value]) -> Result<Change, Fault> {
    match word(parts, 0)? {
        "cacheNew" => {
            let key = text(alloc, parts, 1)?;
            let name = text(alloc, parts, 2)?;
            Ok(Change::CacheNew { key, name })
        }
        "cacheDrop" => {
            let key = text(alloc, parts, 1)?;
            let name = text(alloc, parts, 2)?;
            Ok(Change::CacheDrop { key, name })
        }
        "cacheOps" => operations(alloc, parts),
        "forgot" => {
            let key = text(alloc, parts, 1)?;
            Ok(Change::Forgot { key })
        }
        "restarted" => Ok(Change::Restarted),
        _ => of_registration(alloc, parts),
    }
}

/// The changes of an array.
pub fn changes(alloc: Global, values: &[Value]) -> Result<Vec<Change>, Fault> {
    let mut changes = Vec::new(alloc);
    for value in values {
        changes.push(change(alloc, list_of(value)?)?)?;
    }
    Ok(changes)
}

// The content that changes make, one carried out after the other.
fn carried_out(alloc: Global, changes: Vec<Change>) -> Result<Content, NoMemory> {
    let mut content = Content::new(alloc);
    for change in changes {
        match content.apply(alloc, change) {
            Ok(()) => {}
            Err(fault) => return Err(fault),
        }
    }
    Ok(content)
}

// How many registrations and caches a content keeps.
fn sizes(alloc: Global, content: Content) -> Result<(usize, usize), NoMemory> {
    match content.to_kept(alloc) {
        Ok(kept) => Ok((
            kept.registrations.as_slice().len(),
            kept.caches.as_slice().len(),
        )),
        Err(fault) => Err(fault),
    }
}

// How many registrations and caches the changes keep.
fn counts(alloc: Global, parts: &[Value]) -> Answer {
    let content = carried_out(alloc, changes(alloc, parts)?)?;
    let (registrations, caches) = sizes(alloc, content)?;
    Ok(format!(in alloc; "{registrations} {caches}")?)
}

// The changes that make a content again.
fn rebuilding(alloc: Global, content: Content) -> Result<Vec<Change>, NoMemory> {
    content.changes(alloc)
}

// How many changes make again what a content keeps.
fn kept_count(alloc: Global, content: Content) -> Result<usize, NoMemory> {
    let kept = content.into_kept(alloc)?;
    match changes_of(alloc, &kept) {
        Ok(changes) => Ok(changes.len()),
        Err(fault) => Err(fault),
    }
}

// How many changes make the content again that these make, and how many the content has that they make in turn.
fn again(alloc: Global, parts: &[Value]) -> Answer {
    let content = fold_all(alloc, changes(alloc, parts)?)?;
    let rebuilding = rebuilding(alloc, content)?;
    let first = rebuilding.len();
    let second = kept_count(alloc, fold_all(alloc, rebuilding)?)?;
    laws::is_rebuilt();
    Ok(format!(in alloc; "{first} {second}")?)
}

/// The answer to a row of `change`.
pub fn answer(alloc: Global, call: &str, parts: &[Value]) -> Answer {
    match call {
        "counts" => counts(alloc, parts),
        "again" => again(alloc, parts),
        _ => Err(Fault::BadRow),
    }
}
