//! The lines of a roster are played.

ghost use Rattle.std.specs.Prelude.{◌≡◌, IfOk};
ghost use Rattle.sw_host.specs.Stands.{IsPlayed, Plays, roster_status};
ghost use Rattle.sw_roster.specs.Texts.{roster_text};

use crate::report::{Report, refusal_of};
use crate::statuses::Status;
use std::alloc::Global;
use sw_data::{NoMemory, Text};
use sw_readers::{RosterRecording, read_roster};
use sw_roster::{Beat, RosterEnd, print_roster, run_roster};

// The status of how the lines have ended.
fn status_of(over: RosterEnd) -> Status
    ensures { result ≡ roster_status over }
{
    match over {
        RosterEnd::Done => Status::Done,
        RosterEnd::Stalled => Status::Stalled,
        RosterEnd::Spent => Status::NoEntryLeft,
    }
}

// The text of what has come, which is let go. A larger function that let it go itself would cost the check minutes.
fn printed(alloc: Global, beats: Vec<Beat>, over: RosterEnd) -> Result<Text, NoMemory>
    ensures { IfOk result (λ text. text ≡ roster_text beats.items over) }
{
    let text = print_roster(alloc, beats.as_slice(), over);
    drop(beats);
    text
}

// The report of what has come of these lines.
fn played(alloc: Global, recording: RosterRecording) -> Result<Report, NoMemory>
    ensures { IfOk result (λ report. IsPlayed recording report.status report.text) }
{
    match run_roster(alloc, recording) {
        Ok((beats, over)) => match printed(alloc, beats, over) {
            Ok(text) => Ok(Report {
                status: status_of(over),
                text,
            }),
            Err(NoMemory) => Err(NoMemory),
        },
        Err(NoMemory) => Err(NoMemory),
    }
}

// The report of the bytes of a roster.
pub(crate) fn play_bytes(alloc: Global, bytes: &[u8]) -> Result<Report, NoMemory>
    ensures { IfOk result (λ report. Plays bytes.now report.status report.text) }
{
    match read_roster(alloc, bytes) {
        Ok(recording) => played(alloc, recording),
        Err(error) => refusal_of(alloc, error),
    }
}
