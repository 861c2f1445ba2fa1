//! A transcript is audited with a recording, on what the disk keeps.

ghost use Rattle.std.specs.Prelude.{◌≡◌, ◌⊎◌, IfOk, OnErr};
ghost use Rattle.sw_host.specs.Stands.{Audits, AuditsParts, IsAudited, IsVerdict, ReadsKept};
ghost use Rattle.sw_journal.specs.Quiet.{LeavesAlone};
ghost use Rattle.sw_rules.specs.Storage.{IsMade};

use crate::report::{Report, refusal_of, refused};
use crate::statuses::Status;
use crate::storing::kept_of;
use std::alloc::Global;
use sw_audit::{Verdict, audit};
use sw_change::Content;
use sw_data::{NoMemory, Recording, Text};
use sw_disk::Disk;
use sw_readers::divided;
use sw_record::{RECORDING_LIMIT, read_recording};

// The report of a verdict.
fn verdict_report(alloc: Global, verdict: Verdict) -> Result<Report, NoMemory>
    ensures { IfOk result (λ report. IsVerdict verdict report.status report.text) }
{
    match verdict {
        Verdict::Yes { entries } => Ok(Report {
            status: Status::Done,
            text: Text::from_string(format!(in alloc; "audit yes {entries} entries\n")?),
        }),
        Verdict::No => refused(alloc, Status::Refuted),
    }
}

// The report of a transcript on a host that has kept this.
fn audited(
    alloc: Global,
    content: Content,
    recording: Recording,
    transcript: &[u8],
) -> Result<Report, NoMemory>
    requires { IsMade content }
    ensures { IfOk result (λ report.
        IsAudited recording transcript.now content report.status report.text) }
{
    let verdict = audit(alloc, content, recording, transcript)?;
    verdict_report(alloc, verdict)
}

// The same on a disk.
fn audit_on<D: Disk>(
    alloc: Global,
    recording: Recording,
    transcript: &[u8],
    disk: &mut D,
) -> Result<Report, NoMemory>
    ensures audits { IfOk result (λ report. ReadsKept D.Disk disk.old disk.new
        (IsAudited recording transcript.now) report.status report.text) }
    ensures quiet { LeavesAlone D.Disk disk.old disk.new }
{
    match kept_of(alloc, disk) {
        Ok(content) => audited(alloc, content, recording, transcript),
        Err(unread) => unread,
    }
}

// The report of the bytes of a recording and of a transcript.
fn audit_parts<D: Disk>(
    alloc: Global,
    recorded: &[u8],
    transcript: &[u8],
    disk: &mut D,
) -> Result<Report, NoMemory>
    ensures audits { IfOk result (λ report. AuditsParts D.Disk disk.old disk.new recorded.now
        transcript.now report.status report.text) }
    ensures left { OnErr result ((disk.new ≡ disk.old) ⊎ LeavesAlone D.Disk disk.old disk.new) }
{
    if recorded.len() as u64 > RECORDING_LIMIT {
        return refused(alloc, Status::TooLarge);
    }
    match read_recording(alloc, recorded) {
        Ok(recording) => audit_on(alloc, recording, transcript, disk),
        Err(error) => refusal_of(alloc, error),
    }
}

// The report of the bytes of a source, which a line divides into a recording and a transcript.
pub(crate) fn audit_bytes<D: Disk>(
    alloc: Global,
    bytes: &[u8],
    disk: &mut D,
) -> Result<Report, NoMemory>
    ensures audits { IfOk result (λ report.
        Audits D.Disk disk.old disk.new bytes.now report.status report.text) }
    ensures left { OnErr result ((disk.new ≡ disk.old) ⊎ LeavesAlone D.Disk disk.old disk.new) }
{
    match divided(bytes) {
        Some((recorded, transcript)) => audit_parts(alloc, recorded, transcript, disk),
        None => refused(alloc, Status::NoTranscript),
    }
}
