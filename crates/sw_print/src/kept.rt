//! The text of what is kept.

ghost use Rattle.std.specs.Prelude.{◌≡◌, IfOk, string_bytes, ◌++◌, codes, flat_map};
ghost use Rattle.sw_print.specs.Showing.{mode_word, kind_word, active_word, worker_line, slot_line, preload_line, registration_lines, cache_line, shown};

use crate::answers::switch_word;
use crate::lists::quoted;
use std::alloc::{AllocError, Global};
use sw_data::{Kept, KeptCache, KeptRegistration, KeptWorker, Kind, Mode};

// The word for an update-via-cache mode.
fn mode_word(mode: Mode) -> &'static str
    ensures { result.now ≡ mode_word mode }
{
    match mode {
        Mode::Imports => "imports",
        Mode::All => "all",
        Mode::Never => "none",
    }
}

// The word for a script's type.
fn kind_word(kind: Kind) -> &'static str
    ensures { result.now ≡ kind_word kind }
{
    match kind {
        Kind::Classic => "classic",
        Kind::Module => "module",
    }
}

// The word for the state of an active worker.
fn active_word(activated: bool) -> &'static str
    ensures { result.now ≡ active_word activated }
{
    if activated { "activated" } else { "activating" }
}

// The line of a worker: its slot, its state, its script, its type and the length of its body.
fn worker_line(
    alloc: Global,
    slot: &str,
    state: &str,
    worker: &KeptWorker,
) -> Result<String, AllocError>
    ensures { IfOk result (λ text. string_bytes text ≡ worker_line slot.now state.now worker.now) }
{
    let script = quoted(alloc, &worker.script)?;
    let kind = kind_word(worker.kind);
    let length = worker.body.get().as_bytes().len();
    let mut line = format!(in alloc; " {slot} {state}")?;
    let rest = format!(in alloc; " {script} {kind} {length}\n")?;
    line.push_str(rest.as_str())?;
    Ok(line)
}

// The line of a slot's worker, or nothing for an empty slot.
fn slot_line(
    alloc: Global,
    slot: &str,
    state: &str,
    worker: &Option<KeptWorker>,
) -> Result<String, AllocError>
    ensures { IfOk result (λ text. string_bytes text ≡ slot_line slot.now state.now worker.now) }
{
    match worker {
        None => Ok(String::new(alloc)),
        Some(worker) => worker_line(alloc, slot, state, worker),
    }
}

// The line of a registration's navigation preload, or nothing where it is as it was made.
fn preload_line(alloc: Global, row: &KeptRegistration) -> Result<String, AllocError>
    ensures { IfOk result (λ text. string_bytes text ≡ preload_line row.now) }
{
    if !row.preload && row.preload_value.as_str() == "true" {
        return Ok(String::new(alloc));
    }
    let word = switch_word(row.preload);
    let value = quoted(alloc, &row.preload_value)?;
    format!(in alloc; " preload {word} {value}\n")
}

// The lines behind a registration's own: its waiting worker's, its active worker's and its navigation preload's.
fn further_lines(alloc: Global, row: &KeptRegistration) -> Result<String, AllocError>
    ensures { IfOk result (λ text. string_bytes text ≡
        slot_line (codes "waiting") (codes "installed") row.now.waiting
        ++ slot_line (codes "active") (active_word row.now.activated) row.now.active
        ++ preload_line row.now) }
{
    let mut lines = slot_line(alloc, "waiting", "installed", &row.waiting)?;
    let active = slot_line(alloc, "active", active_word(row.activated), &row.active)?;
    let preload = preload_line(alloc, row)?;
    lines.push_str(active.as_str())?;
    lines.push_str(preload.as_str())?;
    Ok(lines)
}

// The lines of a registration: its own with its key, its scope and its mode, and those behind it.
fn registration_lines(alloc: Global, row: &KeptRegistration) -> Result<String, AllocError>
    ensures { IfOk result (λ text. string_bytes text ≡ registration_lines row.now) }
{
    let key = quoted(alloc, &row.key)?;
    let scope = quoted(alloc, &row.scope)?;
    let mode = mode_word(row.mode);
    let further = further_lines(alloc, row)?;
    let mut lines = format!(in alloc; "registration {key}")?;
    let rest = format!(in alloc; " {scope} {mode}\n{further}")?;
    lines.push_str(rest.as_str())?;
    Ok(lines)
}

// The line of a cache: its key, its name and how many pairs it has.
fn cache_line(alloc: Global, row: &KeptCache) -> Result<String, AllocError>
    ensures { IfOk result (λ text. string_bytes text ≡ cache_line row.now) }
{
    let key = quoted(alloc, &row.key)?;
    let name = quoted(alloc, &row.name)?;
    let pairs = row.pairs.as_slice().len();
    let mut line = format!(in alloc; "cache {key}")?;
    let rest = format!(in alloc; " {name} {pairs}\n")?;
    line.push_str(rest.as_str())?;
    Ok(line)
}

// The lines of registrations, in order.
fn all_registrations(alloc: Global, rows: &[KeptRegistration]) -> Result<String, AllocError>
    ensures { IfOk result (λ text. string_bytes text ≡ flat_map registration_lines rows.now) }
{
    let mut text = String::new(alloc);
    for row in rows {
        let lines = registration_lines(alloc, row)?;
        text.push_str(lines.as_str())?;
    }
    Ok(text)
}

// The lines of caches, in order.
fn all_caches(alloc: Global, rows: &[KeptCache]) -> Result<String, AllocError>
    ensures { IfOk result (λ text. string_bytes text ≡ flat_map cache_line rows.now) }
{
    let mut text = String::new(alloc);
    for row in rows {
        let line = cache_line(alloc, row)?;
        text.push_str(line.as_str())?;
    }
    Ok(text)
}

/// The text of what is kept.
pub fn kept_text(alloc: Global, kept: &Kept) -> Result<String, AllocError>
    ensures { IfOk result (λ text. string_bytes text ≡ shown kept.now) }
{
    let registrations = kept.registrations.as_slice();
    let caches = kept.caches.as_slice();
    let count = registrations.len();
    let lines = all_registrations(alloc, registrations)?;
    let mut text = format!(in alloc; "registrations {count}\n{lines}")?;
    let count = caches.len();
    let lines = all_caches(alloc, caches)?;
    let rest = format!(in alloc; "caches {count}\n{lines}")?;
    text.push_str(rest.as_str())?;
    Ok(text)
}
