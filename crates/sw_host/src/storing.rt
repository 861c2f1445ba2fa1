//! The commands on the disk alone.

ghost use Rattle.std.specs.Prelude.{IfErr, IfOk, OnErr};
ghost use Rattle.sw_host.specs.Stands.{Formats, IsLeftAlone, IsShown, Keeps, LeavesOthers, RefusesToRead, Shows};
ghost use Rattle.sw_journal.specs.Quiet.{LeavesAlone};

use crate::report::{Report, bad_journal, refused};
use crate::statuses::Status;
use std::alloc::Global;
use sw_change::Content;
use sw_data::{NoMemory, Text};
use sw_disk::Disk;
use sw_kept::{InitError, OpenError, init, open};
use sw_print::print_kept;

// How long a part of the disk may grow, in bytes.
pub(crate) const LIMIT: u64 = 4_294_967_296;

/// Formats the current part of the disk.
#[tactic(auto, using(crate::proofs::StoringLemmas::formatted))]
pub fn format<D: Disk>(alloc: Global, disk: &mut D) -> Result<Report, NoMemory>
    ensures formats { IfOk result (λ report.
        Formats D.Disk disk.old disk.new report.status report.text) }
    ensures alone { OnErr result (IsLeftAlone D.Disk disk.old disk.new) }
    ensures others { LeavesOthers D.Disk disk.old disk.new }
{
    match init(disk) {
        Ok(()) => Ok(Report {
            status: Status::Done,
            text: Text::of(alloc, "formatted\n")?,
        }),
        Err(InitError::DiskFault) => refused(alloc, Status::DiskFault),
        Err(InitError::AlreadyFormatted) => refused(alloc, Status::AlreadyFormatted),
    }
}

// What the disk keeps; or the report of a disk that could not be read.
pub(crate) fn kept_of<D: Disk>(
    alloc: Global,
    disk: &mut D,
) -> Result<Content, Result<Report, NoMemory>>
    ensures keeps { IfOk result (Keeps D.Disk disk.old) }
    ensures refuses { IfErr result (λ unread. IfOk unread (λ report.
        RefusesToRead D.Disk disk.old disk.new report.status report.text)) }
    ensures quiet { LeavesAlone D.Disk disk.old disk.new }
{
    match open(alloc, disk, LIMIT) {
        Ok((_, content)) => Ok(content),
        Err(OpenError::NoMemory) => Err(Err(NoMemory)),
        Err(OpenError::DiskFault) => Err(refused(alloc, Status::DiskFault)),
        Err(OpenError::NotFormatted) => Err(refused(alloc, Status::NotFormatted)),
        Err(OpenError::BadJournal(offset)) => Err(bad_journal(alloc, offset)),
    }
}

// What is kept, as text.
fn shown(alloc: Global, content: Content) -> Result<Report, NoMemory>
    ensures { IfOk result (λ report. IsShown content report.status report.text) }
{
    let kept = content.into_kept(alloc)?;
    Ok(Report {
        status: Status::Done,
        text: print_kept(alloc, &kept)?,
    })
}

/// Prints what the disk keeps.
pub fn show<D: Disk>(alloc: Global, disk: &mut D) -> Result<Report, NoMemory>
    ensures shows { IfOk result (λ report.
        Shows D.Disk disk.old disk.new report.status report.text) }
    ensures quiet { OnErr result (LeavesAlone D.Disk disk.old disk.new) }
{
    match kept_of(alloc, disk) {
        Ok(content) => shown(alloc, content),
        Err(unread) => unread,
    }
}
