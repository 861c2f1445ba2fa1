//! An index: a set of slots, each a digest and a number.

ghost use Rattle.std.specs.Prelude.{◌≡◌, ◌^◌, ◌<◌, ℕ, [], true, false, MatchOption, OnOk, OnErr};
ghost use Rattle.sw_list.specs.Marks.{AreFrom, HasLost, IsFree, KeepsBelow, KeepsOthers, KeepsSlots, NoneBetween, OnlyAdds, digest, has, is_under, mixed};

use std::collections::BTreeSet;
use std::ops::Bound;
use sw_data::NoMemory;

/// Numbers behind digests. Two texts can have one digest: whoever finds a number by a digest looks
/// up what has the number, and tests it.
pub type Slots = BTreeSet<(u64, u64)>;

/// A number and the two digests that it stands under.
#[derive(Debug, Clone, Copy)]
pub struct Mark {
    pub first: u64,
    pub second: u64,
    pub number: u64,
}

/// A digest with one more byte; it takes no memory.
pub fn mixed(sum: u64, byte: u8) -> u64
    ensures { result ≡ mixed sum byte }
{
    (sum ^ u64::from(byte)).wrapping_mul(1_099_511_628_211)
}

/// A digest of bytes; it takes no memory. Strangers can choose bytes that have the same one.
#[tactic(auto, unfolding(crate::specs::Marks::digest))]
pub fn digest(bytes: &[u8]) -> u64
    ensures { result ≡ digest bytes.now }
{
    let mut sum = 14_695_981_039_346_656_037;
    for byte in bytes {
        sum = mixed(sum, *byte);
    }
    sum
}

/// The least number above another one that the index has under a digest; it takes no memory.
pub fn next_number(slots: &Slots, key: u64, after: u64) -> Option<u64>
    ensures { MatchOption result (NoneBetween slots.now key after (2 ^ 64))
        (λ n. (after < n) × NoneBetween slots.now key after n) }
{
    let range = (
        Bound::Excluded((key, after)),
        Bound::Included((key, u64::MAX)),
    );
    match slots.range(range).next() {
        Some(slot) => Some(slot.1),
        None => None,
    }
}

// Puts a number under a digest.
fn put_number(slots: &mut Slots, key: u64, number: u64) -> Result<(), NoMemory>
    ensures keeps { KeepsSlots slots.old slots.new }
    ensures marked { OnOk result (has slots.new key number ≡ true) }
    ensures only { OnOk result ((k n : ℕ) → has slots.new k n ≡ true → has slots.old k n ≡ false
        → (k ≡ key) × (n ≡ number)) }
    ensures err { OnErr result (KeepsSlots slots.new slots.old) }
{
    match slots.insert((key, number)) {
        Ok(_) => Ok(()),
        Err(_) => Err(NoMemory),
    }
}

// Takes a number from under a digest; it takes no memory.
fn take_number(slots: &mut Slots, key: u64, number: u64)
    ensures others { KeepsOthers number slots.old slots.new }
    ensures fewer { KeepsSlots slots.new slots.old }
    ensures gone { has slots.new key number ≡ false }
{
    slots.remove(&(key, number));
}

/// Puts a mark of a new number into the index. Where it finds no memory, the index has what it had.
pub fn put_mark(slots: &mut Slots, mark: Mark) -> Result<(), NoMemory>
    requires { IsFree mark.number slots.old }
    ensures keeps { KeepsSlots slots.old slots.new }
    ensures marked { OnOk result ((key n : ℕ) → is_under mark key n ≡ true
        → has slots.new key n ≡ true) }
    ensures only { OnOk result (OnlyAdds mark slots.old slots.new) }
    ensures err { OnErr result (KeepsSlots slots.new slots.old) }
{
    put_number(slots, mark.first, mark.number)?;
    match put_number(slots, mark.second, mark.number) {
        Ok(()) => Ok(()),
        Err(fault) => {
            take_number(slots, mark.first, mark.number);
            Err(fault)
        }
    }
}

/// Takes a mark from the index; it takes no memory.
pub fn take_mark(slots: &mut Slots, mark: Mark)
    ensures others { KeepsOthers mark.number slots.old slots.new }
    ensures fewer { KeepsSlots slots.new slots.old }
    ensures gone { (key n : ℕ) → is_under mark key n ≡ true → has slots.new key n ≡ false }
{
    take_number(slots, mark.first, mark.number);
    take_number(slots, mark.second, mark.number);
}

/// Takes marks from the index; it takes no memory.
pub fn take_marks(slots: &mut Slots, marks: &[Mark])
    ensures below { (low : ℕ) → AreFrom low marks.now → KeepsBelow low slots.old slots.new }
    ensures fewer { KeepsSlots slots.new slots.old }
    ensures gone { HasLost marks.now slots.new }
{
    for mark in marks {
        take_mark(slots, *mark);
    }
}
