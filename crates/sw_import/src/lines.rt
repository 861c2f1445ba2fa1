//! The text of the checks.

ghost use Rattle.std.specs.Prelude.{◌≡◌, IfOk, string_bytes};
ghost use Rattle.json.specs.Print.{quoted};
ghost use Rattle.sw_import.specs.Checking.{nothing};
ghost use Rattle.sw_import.specs.Lines.{cause_word, check_line, checked_text, checks_text};

use crate::answers::{Checked, ImportCause};
use crate::checks::Imports;
use serde_json::Value;
use std::alloc::{AllocError, Global};
use sw_data::{NoMemory, Text};
use sw_readers::ImportRecording;

// A text as a JSON string.
fn quoted(alloc: Global, text: &Text) -> Result<String, AllocError>
    ensures { IfOk result (λ json. string_bytes json ≡ quoted text.now) }
{
    Value::try_from_str(alloc, text.as_str())?.to_string(alloc)
}

fn cause_word(cause: ImportCause) -> &'static str
    ensures { result.now ≡ cause_word cause }
{
    match cause {
        ImportCause::Network => "network",
        ImportCause::Mime => "mime",
        ImportCause::Status => "status",
        ImportCause::Import => "import",
    }
}

fn failed_text(alloc: Global, cause: ImportCause, fetches: u32) -> Result<String, AllocError>
    ensures { IfOk result (λ text. string_bytes text
        ≡ checked_text (Checked.Failed cause fetches)) }
{
    let cause = cause_word(cause);
    format!(in alloc; "failed {cause} {fetches}")
}

fn changed_text(alloc: Global, fetches: u32, resources: u32) -> Result<String, AllocError>
    ensures { IfOk result (λ text. string_bytes text
        ≡ checked_text (Checked.Changed fetches resources)) }
{
    format!(in alloc; "changed {fetches} {resources}")
}

// The text of an answer.
fn checked_text(alloc: Global, checked: Checked) -> Result<String, AllocError>
    ensures { IfOk result (λ text. string_bytes text ≡ checked_text checked) }
{
    match checked {
        Checked::Failed { cause, fetches } => failed_text(alloc, cause, fetches),
        Checked::Unchanged { fetches } => format!(in alloc; "unchanged {fetches}"),
        Checked::Changed { fetches, resources } => changed_text(alloc, fetches, resources),
    }
}

// The line of a check.
fn check_line(alloc: Global, script: &Text, checked: Checked) -> Result<String, AllocError>
    ensures { IfOk result (λ line. string_bytes line ≡ check_line script.now checked) }
{
    let script = quoted(alloc, script)?;
    let answer = checked_text(alloc, checked)?;
    format!(in alloc; "check {script} -> {answer}\n")
}

/// The lines of the checks of a recording's scripts in order, on its network, in UTF-8.
#[tactic(auto, using(crate::proofs::Printing::line_next), unfolding(crate::specs::Lines::checks_text))]
pub fn print_checks(alloc: Global, recording: ImportRecording) -> Result<Text, NoMemory>
    ensures { IfOk result (λ text. text
        ≡ checks_text recording.fetches nothing recording.checks) }
{
    let ImportRecording { fetches, checks } = recording;
    let mut imports = Imports::over(alloc, fetches)?;
    let mut text = String::new(alloc);
    for script in checks.as_slice() {
        let checked = imports.check(alloc, script)?;
        let line = check_line(alloc, script, checked)?;
        text.push_str(line.as_str())?;
    }
    Ok(Text::from_string(text))
}
