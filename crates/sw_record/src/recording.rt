//! Reading a recording whole.

ghost use Rattle.sw_record.specs.Grammar.{recording_of, Reads};

use crate::lines::read_lines;
use crate::reading::nothing_read;
use std::alloc::Global;
use sw_data::Recording;
use sw_forms::RecordingError;

/// The recording that a source's bytes are: one JSON object on each line, blank lines being
/// skipped but counted.
///
/// `BadLine` and `TooLarge` tell the first bad line, counted from 1, and of its flaws the one that
/// is tested first.
#[tactic(auto, unfolding(crate::specs::Grammar::recording_of))]
pub fn read_recording(alloc: Global, bytes: &[u8]) -> Result<Recording, RecordingError>
    ensures { Reads result (recording_of bytes.now) }
{
    match read_lines(alloc, nothing_read(alloc), bytes) {
        Ok(reading) => Ok(reading.recording),
        Err(why) => Err(why),
    }
}
