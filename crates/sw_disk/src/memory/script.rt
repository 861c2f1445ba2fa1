//! Which calls of a disk in memory fail.

ghost use Rattle.std.specs.Prelude.{◌≡◌};
ghost use Rattle.sw_disk.specs.Script.{is_listed, is_stopped, count_of, one_more};

/// The kinds of call of a disk by which its clock rises.
#[derive(Debug, Clone, Copy, PartialEq, Eq)]
pub enum CallKind {
    Len,
    Read,
    Write,
    Cut,
    Sync,
}

/// Calls that fail: those of a kind whose numbers are from `from` to `to`, both included. The calls of each kind are
/// numbered from 0.
#[derive(Debug, Clone, Copy, PartialEq, Eq)]
pub struct Failing {
    pub call: CallKind,
    pub from: u64,
    pub to: u64,
}

// How many calls of each kind were made.
#[derive(Debug, Clone, Copy)]
pub(crate) struct Counts {
    pub(crate) len: u64,
    pub(crate) read: u64,
    pub(crate) write: u64,
    pub(crate) cut: u64,
    pub(crate) sync: u64,
}

impl Counts {
    // No call.
    pub(crate) fn new() -> Counts
        ensures { result ≡ record { len = 0; read = 0; write = 0; cut = 0; sync = 0 } }
    {
        Counts {
            len: 0,
            read: 0,
            write: 0,
            cut: 0,
            sync: 0,
        }
    }

    // Counts a call, and says its number. At 2^64 - 1 the count stays.
    pub(crate) fn next(&mut self, kind: CallKind) -> u64
        ensures number { result ≡ count_of kind self.old }
        ensures counts { self.new ≡ one_more kind self.old }
    {
        let number;
        match kind {
            CallKind::Len => {
                number = self.len;
                self.len = number.saturating_add(1);
            }
            CallKind::Read => {
                number = self.read;
                self.read = number.saturating_add(1);
            }
            CallKind::Write => {
                number = self.write;
                self.write = number.saturating_add(1);
            }
            CallKind::Cut => {
                number = self.cut;
                self.cut = number.saturating_add(1);
            }
            CallKind::Sync => {
                number = self.sync;
                self.sync = number.saturating_add(1);
            }
        }
        number
    }
}

// Whether the call of a kind with a number is one of those that fail.
pub(crate) fn fails(failing: &[Failing], kind: CallKind, number: u64) -> bool
    ensures { result ≡ is_listed kind number failing.now }
{
    failing
        .iter()
        .any(|f| f.call == kind && f.from <= number && number <= f.to)
}

// Whether the call with a number over all kinds is one from which on each call fails.
pub(crate) fn is_past(stop: Option<u64>, number: u64) -> bool
    ensures { result ≡ is_stopped number stop }
{
    match stop {
        Some(after) => after <= number,
        None => false,
    }
}
