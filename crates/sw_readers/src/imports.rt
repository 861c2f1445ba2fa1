//! Reading the checks of imported scripts.

ghost use Rattle.std.specs.Prelude.{◌≡◌, IfOk};
ghost use Rattle.serde_json.specs.View.{view};
ghost use Rattle.sw_readers.specs.Imports as grammar;
ghost use Rattle.sw_readers.specs.Imports.{imports_of};
ghost use Rattle.sw_record.specs.Grammar.{Reads};

use crate::inputs::{ImportFetch, ImportRecording};
use serde_json::Value;
use std::alloc::Global;
use sw_data::{FetchLine, Fetched, Handlers, Items, NoMemory, Response, Text};
use sw_forms::{
    CALLS_LIMIT, Flaw, Limit, NO_FORM, Part, RecordingError, address_part, both, error_line,
    has_only, list_of, response_parts,
};
use sw_record::{FromLines, read_lines};

/// The lines so far.
#[derive(Drop)]
pub struct ImportReading {
    pub recording: ImportRecording,
}

// Nothing was read.
fn nothing_read(alloc: Global) -> ImportReading
    ensures { result ≡ grammar.nothing_read }
{
    ImportReading {
        recording: ImportRecording {
            fetches: Items::new(alloc),
            checks: Items::new(alloc),
        },
    }
}

// The texts that a script imports.
#[tactic(auto, unfolding(crate::specs::Imports::imports_member))]
fn imports_member(alloc: Global, value: &Value) -> Part<Items<Text>>
    ensures { IfOk result (λ imports. imports ≡ grammar.imports_member (view value.now)) }
{
    match value.get("imports") {
        Some(imports) => list_of(alloc, CALLS_LIMIT, Flaw::Limit(Limit::Calls), imports),
        None => Ok(Ok(Items::new(alloc))),
    }
}

// A worker that only runs.
fn no_handlers(alloc: Global) -> Handlers
    ensures { result ≡ grammar.no_handlers }
{
    Handlers {
        throws: false,
        install: Items::new(alloc),
        install_fails: false,
        activate: Items::new(alloc),
    }
}

#[tactic(auto, unfolding(sw_forms::specs::Flaws::both))]
fn answer_from(
    alloc: Global,
    response: Result<Response, Flaw>,
    imports: Result<Items<Text>, Flaw>,
) -> Result<(Option<Fetched>, Items<Text>), Flaw>
    ensures { result ≡ grammar.answer_from response imports }
{
    match both(response, imports) {
        Ok((response, imports)) => {
            let handlers = no_handlers(alloc);
            Ok((Some(Fetched { response, handlers }), imports))
        }
        Err(why) => Err(why),
    }
}

// A response, and what the script in it imports.
#[tactic(auto, unfolding(crate::specs::Imports::answer_line))]
fn answer_line(alloc: Global, value: &Value) -> Part<(Option<Fetched>, Items<Text>)>
    ensures { IfOk result (λ answer. answer ≡ grammar.answer_line (view value.now)) }
{
    if !has_only(
        &["fetch", "status", "headers", "text", "body", "imports"],
        value,
    ) {
        return Ok(Err(NO_FORM));
    }
    let response = response_parts(alloc, value)?;
    let imports = imports_member(alloc, value)?;
    Ok(answer_from(alloc, response, imports))
}

// What the network answers: a network error has nothing else.
#[tactic(auto, unfolding(crate::specs::Imports::answer_of))]
fn answer_of(alloc: Global, value: &Value) -> Part<(Option<Fetched>, Items<Text>)>
    ensures { IfOk result (λ answer. answer ≡ grammar.answer_of (view value.now)) }
{
    match value.get("error") {
        Some(mark) => match error_line(mark, value) {
            Ok(fetched) => Ok(Ok((fetched, Items::new(alloc)))),
            Err(why) => Ok(Err(why)),
        },
        None => answer_line(alloc, value),
    }
}

#[tactic(auto, unfolding(sw_forms::specs::Flaws::both))]
fn import_from(
    address: Result<Text, Flaw>,
    answer: Result<(Option<Fetched>, Items<Text>), Flaw>,
) -> Result<ImportFetch, Flaw>
    ensures { result ≡ grammar.import_from address answer }
{
    match both(address, answer) {
        Ok((fetch, (fetched, imports))) => Ok(ImportFetch {
            line: FetchLine { fetch, fetched },
            imports,
        }),
        Err(why) => Err(why),
    }
}

// The fetch line of an address.
#[tactic(auto, unfolding(crate::specs::Imports::import_line))]
fn import_line(alloc: Global, address: &Value, value: &Value) -> Part<ImportFetch>
    ensures { IfOk result (λ line. line
        ≡ grammar.import_line (view address.now) (view value.now)) }
{
    let address = address_part(alloc, address)?;
    let answer = answer_of(alloc, value)?;
    Ok(import_from(address, answer))
}

// The script of a check.
#[tactic(auto, unfolding(crate::specs::Imports::check_line))]
fn check_line(alloc: Global, address: &Value, value: &Value) -> Part<Text>
    ensures { IfOk result (λ script. script
        ≡ grammar.check_line (view address.now) (view value.now)) }
{
    if !has_only(&["check"], value) {
        return Ok(Err(NO_FORM));
    }
    address_part(alloc, address)
}

// A further fetch line.
fn with_fetch(so_far: ImportReading, line: ImportFetch) -> Result<ImportReading, NoMemory>
    ensures { IfOk result (λ reading. reading ≡ grammar.with_fetch so_far line) }
{
    let ImportReading { recording } = so_far;
    let ImportRecording {
        mut fetches,
        checks,
    } = recording;
    fetches.push(line)?;
    Ok(ImportReading {
        recording: ImportRecording { fetches, checks },
    })
}

// A further check.
fn with_check(so_far: ImportReading, script: Text) -> Result<ImportReading, NoMemory>
    ensures { IfOk result (λ reading. reading ≡ grammar.with_check so_far script) }
{
    let ImportReading { recording } = so_far;
    let ImportRecording {
        fetches,
        mut checks,
    } = recording;
    checks.push(script)?;
    Ok(ImportReading {
        recording: ImportRecording { fetches, checks },
    })
}

// What was read with a line that is no fetch line.
#[tactic(auto, unfolding(crate::specs::Imports::with_check_line))]
fn with_check_line(alloc: Global, so_far: ImportReading, value: &Value) -> Part<ImportReading>
    ensures { IfOk result (λ reading. reading ≡ grammar.with_check_line so_far (view value.now)) }
{
    match value.get("check") {
        Some(address) => match check_line(alloc, address, value)? {
            Ok(script) => Ok(Ok(with_check(so_far, script)?)),
            Err(why) => Ok(Err(why)),
        },
        None => Ok(Err(NO_FORM)),
    }
}

impl FromLines for ImportReading {
    ghost use Rattle.sw_readers.specs.Imports.{with_value};

    ghost reads = { with_value };

    // A fetch line, or a check.
    #[tactic(auto, unfolding(crate::specs::Imports::with_value))]
    fn with_value(self, alloc: Global, value: &Value) -> Part<ImportReading> {
        match value.get("fetch") {
            Some(address) => match import_line(alloc, address, value)? {
                Ok(line) => Ok(Ok(with_fetch(self, line)?)),
                Err(why) => Ok(Err(why)),
            },
            None => with_check_line(alloc, self, value),
        }
    }
}

/// The checks of imported scripts that a source's bytes are: one JSON object on each line, blank lines
/// being skipped but counted.
///
/// `BadLine` and `TooLarge` tell the first bad line, counted from 1, and of its flaws the one that is tested
/// first.
#[tactic(auto, unfolding(crate::specs::Imports::imports_of))]
pub fn read_imports(alloc: Global, bytes: &[u8]) -> Result<ImportRecording, RecordingError>
    ensures { Reads result (imports_of bytes.now) }
{
    match read_lines(alloc, nothing_read(alloc), bytes) {
        Ok(reading) => Ok(reading.recording),
        Err(why) => Err(why),
    }
}
