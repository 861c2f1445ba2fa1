//! The calls.

ghost use Rattle.std.specs.Prelude.{[]};
ghost use Rattle.sw_host.specs.declared.command.Command.TheVariants as command;
ghost use Rattle.swhost_c.specs.Calls.{Answers, AnswersText};

use crate::disk::disk_of;
use crate::handing::{Lengths, hand_nothing, hand_out, hand_text, none};
use std::alloc::Global;
use sw_data::NoMemory;
use sw_host::{format, replay_alone, show};

/// What `init` makes of three parts: its text and the parts after it, one behind the other in the room, and the lengths of
/// these four. The answer is the number of its status, or `NO_ROOM`.
#[unsafe(no_mangle)]
pub extern "C" fn swhost_init(
    alloc: Global,
    root: &[u8],
    left: &[u8],
    right: &[u8],
    room: &mut [u8],
    lengths: &mut Lengths,
) -> u32
    ensures { Answers command.Init [] (record {
      root = root.now;
      left = left.now;
      right = right.now;
    }) room.old room.new lengths.new result }
{
    match disk_of(alloc, root, left, right) {
        Ok(mut disk) => {
            let report = format(alloc, &mut disk);
            hand_out(report, disk, room, lengths)
        }
        Err(NoMemory) => hand_nothing(lengths),
    }
}

/// What `replay` by one worker makes of a recording and three parts, handed out in the same way.
#[unsafe(no_mangle)]
pub extern "C" fn swhost_replay(
    alloc: Global,
    recording: &[u8],
    root: &[u8],
    left: &[u8],
    right: &[u8],
    room: &mut [u8],
    lengths: &mut Lengths,
) -> u32
    ensures { Answers (command.Replay 1) recording.now (record {
      root = root.now;
      left = left.now;
      right = right.now;
    }) room.old room.new lengths.new result }
{
    match disk_of(alloc, root, left, right) {
        Ok(disk) => {
            let (report, disk) = replay_alone(alloc, recording, disk);
            hand_out(report, disk, room, lengths)
        }
        Err(NoMemory) => hand_nothing(lengths),
    }
}

/// What `show` prints of three parts: its text in the room, and the text's length. The parts stay as they are.
#[unsafe(no_mangle)]
pub extern "C" fn swhost_show(
    alloc: Global,
    root: &[u8],
    left: &[u8],
    right: &[u8],
    room: &mut [u8],
    length: &mut usize,
) -> u32
    ensures { AnswersText command.Show [] (record {
      root = root.now;
      left = left.now;
      right = right.now;
    }) room.old room.new length.new result }
{
    match disk_of(alloc, root, left, right) {
        Ok(mut disk) => hand_text(show(alloc, &mut disk), room, length),
        Err(NoMemory) => {
            *length = 0;
            none()
        }
    }
}
