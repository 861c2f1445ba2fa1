//! Whether a text is the transcript of a recording.

ghost use Rattle.std.specs.Prelude.{◌∷◌, [], IfOk};
ghost use Rattle.sw_audit.specs.Following.{HasFollowed};
ghost use Rattle.sw_audit.specs.Accepted.{Says};
ghost use Rattle.sw_data.specs.declared.histories.Entry.{Entry};
ghost use Rattle.sw_data.specs.declared.recordings.Recording.{Recording};
ghost use Rattle.sw_data.specs.declared.storage.Kept.{Kept};
ghost use Rattle.sw_rules.specs.History.{IsOpening};
ghost use Rattle.sw_rules.specs.Restart.{restart};
ghost use Rattle.sw_rules.specs.Storage.{IsMade};

use crate::checking::check;
use crate::hosts::Host;
use crate::verdicts::Verdict;
use std::alloc::Global;
use sw_change::Content;
use sw_data::{NoMemory, Recording};

// What is said of a transcript by a host, which is let go. A larger function that let it go itself would cost the check
// minutes.
fn said(alloc: Global, mut host: Host, transcript: &[u8]) -> Result<Verdict, NoMemory>
    ensures { (base : Kept) (recording : Recording) → IsMade base
        → ((opening : Entry) → IsOpening base opening
        → HasFollowed host recording (opening ∷ []) (restart base))
        → IfOk result (Says base recording transcript.now) }
{
    let verdict = check(alloc, &mut host, transcript);
    drop(host);
    verdict
}

/// Checks a transcript against the host that a content restarts. Yes exactly where it is that of a legal history from the
/// content that follows the recording and is complete or stalled, with the number of its entries; no exactly where there
/// is no such history.
pub fn audit(
    alloc: Global,
    base: Content,
    recording: Recording,
    transcript: &[u8],
) -> Result<Verdict, NoMemory>
    requires { IsMade base }
    ensures { IfOk result (Says base recording transcript.now) }
{
    match Host::restart(alloc, base, recording) {
        Ok(host) => said(alloc, host, transcript),
        Err(NoMemory) => Err(NoMemory),
    }
}
