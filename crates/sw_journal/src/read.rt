//! Reading a part, whatever pieces the disk gives.

ghost use Rattle.std.specs.Prelude.{◌≡◌, ◌+◌, ◌-◌, ◌<◌, ◌≤◌, length, take, IfOk, IsErr, IsErrOf};
ghost use Rattle.sw_disk.specs.Image.{get};
ghost use Rattle.sw_disk.specs.DiskRule.{ForTold};
ghost use Rattle.sw_data.specs.Faults.{Rose};
ghost use Rattle.sw_journal.specs.Quiet.{LeavesAlone};
ghost use Rattle.sw_journal.specs.declared.read.ReadError.TheVariants.{NoMemory, DiskFault};

use std::alloc::{AllocError, Global};
use sw_disk::{Disk, Failed, Part};

// Reads on from a place, up to the end of `bytes`, and says how many bytes more it read: none only at the part's end.
fn read_on<D: Disk>(disk: &mut D, part: Part, at: usize, bytes: &mut [u8]) -> Result<usize, Failed>
    requires { at ≤ length bytes.old }
    ensures fits { IfOk result (λ n. at + n ≤ length bytes.new) }
    ensures front { ForTold (D.seen disk.old)
        (λ image. IfOk result (λ n. take at bytes.old ≡ take at (get part image)
        → take (at + n) bytes.new ≡ take (at + n) (get part image))) }
    ensures within { ForTold (D.seen disk.old)
        (λ image. IfOk result (λ n. n ≤ length (get part image) - at)) }
    ensures some { ForTold (D.seen disk.old)
        (λ image. IfOk result (λ n. at < length bytes.old → n ≡ 0 → length (get part image) ≤ at)) }
    ensures quiet { LeavesAlone D.Disk disk.old disk.new }
    ensures calls { D.clock disk.new ≤ D.clock disk.old + 1 }
    ensures fault { IsErr result → Rose (D.faults disk.old) (D.faults disk.new) }
{
    disk.read_at(part, at as u64, &mut bytes[at..])
}

// Reads the front of a part into `bytes`, and says how many bytes that are.
pub(crate) fn read_front<D: Disk>(
    disk: &mut D,
    part: Part,
    bytes: &mut [u8],
) -> Result<usize, Failed>
    ensures fits { IfOk result (λ n. n ≤ length bytes.new) }
    ensures front { ForTold (D.seen disk.old)
        (λ image. IfOk result (λ n. take n bytes.new ≡ take (length bytes.new) (get part image))) }
    ensures quiet { LeavesAlone D.Disk disk.old disk.new }
    ensures calls { D.clock disk.new ≤ D.clock disk.old + length bytes.new }
    ensures fault { IsErr result → Rose (D.faults disk.old) (D.faults disk.new) }
{
    let mut at = 0;
    while at < bytes.len() {
        let more = read_on(disk, part, at, bytes)?;
        if more == 0 {
            return Ok(at);
        }
        at += more;
    }
    Ok(at)
}

// Why a part was not read.
pub(crate) enum ReadError {
    NoMemory,
    DiskFault,
}

impl From<AllocError> for ReadError {
    ghost from_gives = { λ _ e. e ≡ NoMemory };

    fn from(_: AllocError) -> ReadError {
        ReadError::NoMemory
    }
}

impl From<Failed> for ReadError {
    ghost from_gives = { λ _ e. e ≡ DiskFault };

    fn from(_: Failed) -> ReadError {
        ReadError::DiskFault
    }
}

// How many bytes are read at a time.
const CHUNK: u64 = 65_536;

// All bytes of a part. Memory is reserved as they come.
pub(crate) fn read_part<D: Disk>(
    alloc: Global,
    disk: &mut D,
    part: Part,
) -> Result<Vec<u8>, ReadError>
    ensures bytes { ForTold (D.seen disk.old)
        (λ image. IfOk result (λ bytes. bytes.items ≡ get part image)) }
    ensures quiet { LeavesAlone D.Disk disk.old disk.new }
    ensures fault { IsErrOf result ReadError.DiskFault
        → Rose (D.faults disk.old) (D.faults disk.new) }
{
    let all = disk.len(part)?;
    let mut bytes = Vec::new(alloc);
    while (bytes.len() as u64) < all {
        let at = bytes.len();
        let room = (all - at as u64).min(CHUNK) as usize;
        bytes.resize(at + room, 0)?;
        let more = read_on(disk, part, at, &mut bytes)?;
        bytes.truncate(at + more);
        if more == 0 {
            return Ok(bytes);
        }
    }
    Ok(bytes)
}
