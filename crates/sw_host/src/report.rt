//! What a run comes to before writing: its status, and the text that stands for it.

ghost use Rattle.std.specs.Prelude.{◌≡◌, IfOk};
ghost use Rattle.sw_forms.specs.Refusals.{cause_word, limit_word, refusal_text};
ghost use Rattle.sw_forms.specs.declared.error.RecordingError.{RecordingError};
ghost use Rattle.sw_host.specs.Reading.{RefusedAs};
ghost use Rattle.sw_host.specs.Texts as texts;

use crate::statuses::Status;
use std::alloc::Global;
use sw_data::{NoMemory, Text};
use sw_record::{Limit, LineCause, RecordingError};

/// A status and the text that stands for it.
#[derive(Drop)]
pub struct Report {
    pub status: Status,
    pub text: Text,
}

/// A refusal of its own: its status, and the text that stands for it.
pub fn refused(alloc: Global, status: Status) -> Result<Report, NoMemory>
    ensures { IfOk result (λ report. report ≡ record {
      status = status;
      text = texts.refusal_text status;
    }) }
{
    Ok(Report {
        status,
        text: Text::of(alloc, status.refusal())?,
    })
}

/// The report of a bad journal.
pub fn bad_journal(alloc: Global, offset: u64) -> Result<Report, NoMemory>
    ensures { IfOk result (λ report. report ≡ record {
      status = Status.BadJournal;
      text = texts.bad_journal_text offset;
    }) }
{
    Ok(Report {
        status: Status::BadJournal,
        text: Text::from_string(format!(in alloc; "error: bad journal at {offset}\n")?),
    })
}

/// The refusal of bytes that are no recording.
pub fn refusal_of(alloc: Global, error: RecordingError) -> Result<Report, NoMemory>
    ensures { IfOk result (λ report. RefusedAs error report.status report.text) }
{
    match error {
        RecordingError::NoMemory => Err(NoMemory),
        RecordingError::BadLine { line, cause } => Ok(Report {
            status: Status::BadLine,
            text: bad_line(alloc, line, cause)?,
        }),
        RecordingError::TooLarge { line, limit } => Ok(Report {
            status: Status::TooLarge,
            text: large_line(alloc, line, limit)?,
        }),
    }
}

// The text of a line that is no part of a recording.
fn bad_line(alloc: Global, line: u32, cause: LineCause) -> Result<Text, NoMemory>
    ensures { IfOk result (λ text. text ≡ refusal_text (RecordingError.BadLine line cause)) }
{
    let cause = cause_word(cause);
    Ok(Text::from_string(format!(in alloc; "error: line {line}: {cause}\n")?))
}

// The text of a line that passes a limit.
fn large_line(alloc: Global, line: u32, limit: Limit) -> Result<Text, NoMemory>
    ensures { IfOk result (λ text. text ≡ refusal_text (RecordingError.TooLarge line limit)) }
{
    let limit = limit_word(limit);
    Ok(Text::from_string(format!(in alloc; "error: line {line}: too large: {limit}\n")?))
}

fn cause_word(cause: LineCause) -> &'static str
    ensures { result.now ≡ cause_word cause }
{
    match cause {
        LineCause::Json => "json",
        LineCause::Form => "form",
        LineCause::Method => "method",
        LineCause::Status => "status",
        LineCause::Header => "header",
        LineCause::Base64 => "base64",
        LineCause::Address => "address",
        LineCause::Await => "await",
    }
}

fn limit_word(limit: Limit) -> &'static str
    ensures { result.now ≡ limit_word limit }
{
    match limit {
        Limit::Actions => "actions",
        Limit::Lanes => "lanes",
        Limit::Text => "text",
        Limit::Headers => "headers",
        Limit::Operations => "operations",
        Limit::Calls => "calls",
        Limit::Body => "body",
    }
}
