//! Reading a recording with look-ups beside its replay.

ghost use Rattle.std.specs.Prelude.{◌≡◌, IfOk};
ghost use Rattle.serde_json.specs.View.{view};
ghost use Rattle.sw_readers.specs.Watched as grammar;
ghost use Rattle.sw_readers.specs.Watched.{watched_of};
ghost use Rattle.sw_record.specs.Grammar.{Reads};

use crate::inputs::{LookLine, WatchedRecording};
use serde_json::Value;
use std::alloc::Global;
use sw_data::{Boxed, Items, NoMemory, Text};
use sw_forms::{Flaw, Limit, NO_FORM, Part, RecordingError, address_part, both, has_only, needs};
use sw_record::{FromLines, Reading, nothing_read, partition_member, read_lines};

/// The most look-ups.
pub const LOOKS_LIMIT: usize = 4096;

/// The lines of the recording so far, and the look-ups so far.
#[derive(Drop)]
pub struct WatchedReading {
    pub reading: Reading,
    pub looks: Items<LookLine>,
}

#[tactic(auto, unfolding(sw_forms::specs::Flaws::both))]
fn look_from(
    address: Result<Text, Flaw>,
    partition: Result<Option<Boxed<Text>>, Flaw>,
) -> Result<LookLine, Flaw>
    ensures { result ≡ grammar.look_from address partition }
{
    match both(address, partition) {
        Ok((address, partition)) => Ok(LookLine { address, partition }),
        Err(why) => Err(why),
    }
}

// A look-up.
#[tactic(auto, unfolding(crate::specs::Watched::look_line))]
fn look_line(alloc: Global, address: &Value, value: &Value) -> Part<LookLine>
    ensures { IfOk result (λ look. look
        ≡ grammar.look_line (view address.now) (view value.now)) }
{
    if !has_only(&["look", "partition"], value) {
        return Ok(Err(NO_FORM));
    }
    let address = address_part(alloc, address)?;
    let partition = partition_member(alloc, value)?;
    Ok(look_from(address, partition))
}

// A further look-up.
fn with_look(so_far: WatchedReading, look: LookLine) -> Result<WatchedReading, NoMemory>
    ensures { IfOk result (λ reading. reading ≡ grammar.with_look so_far look) }
{
    let WatchedReading { reading, mut looks } = so_far;
    looks.push(look)?;
    Ok(WatchedReading { reading, looks })
}

// What was read with a look-up.
fn with_look_line(
    alloc: Global,
    so_far: WatchedReading,
    address: &Value,
    value: &Value,
) -> Part<WatchedReading>
    ensures { IfOk result (λ reading. reading
        ≡ grammar.with_look_line so_far (view address.now) (view value.now)) }
{
    let look = look_line(alloc, address, value)?;
    let few = so_far.looks.as_slice().len() < LOOKS_LIMIT;
    match needs(few, Flaw::Limit(Limit::Actions), look) {
        Ok(look) => Ok(Ok(with_look(so_far, look)?)),
        Err(why) => Ok(Err(why)),
    }
}

// What was read with a line of the recording.
fn with_recording_line(alloc: Global, so_far: WatchedReading, value: &Value) -> Part<WatchedReading>
    ensures { IfOk result (λ reading. reading
        ≡ grammar.with_recording_line so_far (view value.now)) }
{
    let WatchedReading { reading, looks } = so_far;
    match reading.with_value(alloc, value)? {
        Ok(reading) => Ok(Ok(WatchedReading { reading, looks })),
        Err(why) => Ok(Err(why)),
    }
}

impl FromLines for WatchedReading {
    ghost use Rattle.sw_readers.specs.Watched.{with_value};

    ghost reads = { with_value };

    // A look-up, or a line of the recording.
    #[tactic(auto, unfolding(crate::specs::Watched::with_value))]
    fn with_value(self, alloc: Global, value: &Value) -> Part<WatchedReading> {
        match value.get("look") {
            Some(address) => with_look_line(alloc, self, address, value),
            None => with_recording_line(alloc, self, value),
        }
    }
}

/// The recording with look-ups beside its replay that a source's bytes are: one JSON object on each line,
/// blank lines being skipped but counted.
///
/// `BadLine` and `TooLarge` tell the first bad line, counted from 1, and of its flaws the one that is tested
/// first.
#[tactic(auto, unfolding(crate::specs::Watched::watched_of))]
pub fn read_watched(alloc: Global, bytes: &[u8]) -> Result<WatchedRecording, RecordingError>
    ensures { Reads result (watched_of bytes.now) }
{
    let nothing = WatchedReading {
        reading: nothing_read(alloc),
        looks: Items::new(alloc),
    };
    match read_lines(alloc, nothing, bytes) {
        Ok(WatchedReading { reading, looks }) => Ok(WatchedRecording {
            recording: reading.recording,
            looks,
        }),
        Err(why) => Err(why),
    }
}
