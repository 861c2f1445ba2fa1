//! A source is read to its end.

ghost use Rattle.std.specs.Prelude.{◌≡◌, ◌+◌, ◌≤◌, IfErr, IfOk, OnOk};
ghost use Rattle.std.specs.Io.KnownBytes.{IsAtEnd};
ghost use Rattle.sw_data.specs.Streams.{ConsumesSome};
ghost use Rattle.sw_host.specs.Reading.{IsRead, IsUnread};

use crate::report::{Report, refused};
use crate::statuses::Status;
use std::alloc::Global;
use sw_data::{Bytes, NoMemory, Text};
use sw_io::{ReadAllError, Source, read_all};

// The bytes that the source has left; or the report of a source that was not read to its end, with the text for one that
// has more than `limit`.
pub(crate) fn bytes_of<S: Source>(
    alloc: Global,
    source: &mut S,
    limit: u64,
    large: &str,
) -> Result<Bytes, Result<Report, NoMemory>>
    ensures read { IfOk result (IsRead limit (S.left source.old)) }
    ensures unread { IfErr result (λ unread. IfOk unread (λ report.
        IsUnread limit large.now (S.left source.old) (S.faults source.old)
        (S.faults source.new) report.status report.text)) }
    ensures end { OnOk result (IsAtEnd (S.left source.new)) }
    ensures consumed { ConsumesSome (S.left source.old) (S.left source.new) }
    ensures reads { S.reads source.new ≤ S.reads source.old + (limit + 2) }
{
    match read_all(alloc, source, limit) {
        Ok(bytes) => Ok(bytes),
        Err(ReadAllError::ReadFault) => Err(refused(alloc, Status::ReadFault)),
        Err(ReadAllError::TooLarge) => Err(too_large(alloc, large)),
        Err(ReadAllError::NoMemory) => Err(Err(NoMemory)),
    }
}

// The report of more bytes than are read.
fn too_large(alloc: Global, text: &str) -> Result<Report, NoMemory>
    ensures { IfOk result (λ report. report
        ≡ record { status = Status.TooLarge; text = text.now }) }
{
    Ok(Report {
        status: Status::TooLarge,
        text: Text::of(alloc, text)?,
    })
}
