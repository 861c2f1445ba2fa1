//! The image that a crash leaves, where the bytes in doubt are picked.

ghost use Rattle.std.specs.Prelude.{◌≡◌, ◌<◌, ◌≤◌, drop, length, slice_set, slice_index, if◌then◌else◌};
ghost use Rattle.sw_disk.specs.Picks.{in_doubt, first_pick, later_picks, picked, picks_left};

use super::part::MemoryPart;
use crate::part::Parts;

// Whether the byte of a place is in doubt.
fn is_in_doubt(marks: &[bool], at: usize) -> bool
    ensures { result ≡ in_doubt (drop at marks.now) }
{
    at >= marks.len() || marks[at]
}

// The next pick, or 0 where they are used up.
fn next_pick(picks: &[u8], used: &mut usize) -> u8
    ensures pick { result ≡ first_pick (drop used.old picks.now) }
    ensures used { drop used.new picks.now ≡ later_picks (drop used.old picks.now) }
    ensures within { used.old ≤ length picks.now → used.new ≤ length picks.now }
{
    if *used < picks.len() {
        let pick = picks[*used];
        *used += 1;
        pick
    } else {
        0
    }
}

// Puts the next pick in a place whose byte is in doubt.
fn pick_at(bytes: &mut [u8], at: usize, marks: &[bool], picks: &[u8], used: &mut usize)
    requires { at < length bytes.old }
    ensures bytes { bytes.new ≡ slice_set bytes.old at (if in_doubt (drop at marks.now)
        then first_pick (drop used.old picks.now) else slice_index bytes.old at) }
    ensures used { drop used.new picks.now ≡ (if in_doubt (drop at marks.now)
        then later_picks (drop used.old picks.now) else drop used.old picks.now) }
    ensures within { used.old ≤ length picks.now → used.new ≤ length picks.now }
{
    if is_in_doubt(marks, at) {
        bytes[at] = next_pick(picks, used);
    }
}

// Puts picks in the place of the bytes in doubt, and 0 where these are used up. It says how many it used.
pub(super) fn pick(bytes: &mut [u8], marks: &[bool], picks: &[u8]) -> usize
    ensures bytes { bytes.new ≡ picked marks.now bytes.old picks.now }
    ensures left { drop result picks.now ≡ picks_left marks.now bytes.old picks.now }
    ensures within { result ≤ length picks.now }
{
    let mut used = 0;
    for i in 0..bytes.len() {
        pick_at(bytes, i, marks, picks, &mut used);
    }
    used
}

impl MemoryPart {
    ghost use Rattle.std.specs.Prelude.{false};
    ghost use Rattle.sw_disk.specs.Picks.{part_picked, part_left};

    // Leaves the image in which the bytes in doubt are taken from picks, and says how many it used.
    pub(super) fn crash(&mut self, picks: &[u8]) -> usize
        ensures bytes { self.new.bytes.items ≡ part_picked self.old picks.now }
        ensures left { drop result picks.now ≡ part_left self.old picks.now }
        ensures within { result ≤ length picks.now }
        ensures sure { self.new.touched ≡ false }
    {
        let used = if self.touched {
            pick(&mut self.bytes, &self.doubts, picks)
        } else {
            0
        };
        self.settle();
        used
    }
}

impl Parts<MemoryPart> {
    ghost use Rattle.std.specs.Prelude.{◌↔◌};
    ghost use Rattle.sw_disk.specs.Image.{Image};
    ghost use Rattle.sw_disk.specs.Memory.{image_of, MayLeave};
    ghost use Rattle.sw_disk.specs.Picks.{image_picked};

    // Leaves the image in which the bytes in doubt are taken from picks.
    pub(super) fn crash(&mut self, picks: &[u8])
        ensures image { image_of self.new ≡ image_picked self.old picks.now }
        ensures sure { (c : Image) → MayLeave self.new c ↔ (c ≡ image_of self.new) }
    {
        let mut used = self.root.crash(picks);
        used += self.left.crash(picks.split_at(used).1);
        self.right.crash(picks.split_at(used).1);
    }
}
