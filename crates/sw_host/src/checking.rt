//! Imported scripts are checked, as a recording says.

ghost use Rattle.std.specs.Prelude.{Ok, IfOk};
ghost use Rattle.sw_host.specs.Stands.{Checks, IsChecked};

use crate::report::{Report, refusal_of};
use crate::statuses::Status;
use std::alloc::Global;
use sw_data::NoMemory;
use sw_import::print_checks;
use sw_readers::{ImportRecording, read_imports};

// The report of the scripts that a recording names.
fn checked(alloc: Global, recording: ImportRecording) -> Result<Report, NoMemory>
    ensures { IfOk result (λ report. IsChecked (Ok recording) report.status report.text) }
{
    Ok(Report {
        status: Status::Done,
        text: print_checks(alloc, recording)?,
    })
}

// The report of the bytes of such a recording.
pub(crate) fn check_bytes(alloc: Global, bytes: &[u8]) -> Result<Report, NoMemory>
    ensures { IfOk result (λ report. Checks bytes.now report.status report.text) }
{
    match read_imports(alloc, bytes) {
        Ok(recording) => checked(alloc, recording),
        Err(error) => refusal_of(alloc, error),
    }
}
