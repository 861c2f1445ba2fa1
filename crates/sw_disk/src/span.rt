//! Reads and writes of a vector of bytes from a place on.

ghost use Rattle.std.specs.Prelude.{◌≡◌, ◌+◌, ◌-◌, ◌≤◌, min, length, vec_len, OnOk, OnErr};
ghost use Rattle.sw_disk.specs.DiskRule.{written, ReadsAt};

use sw_data::Failed;

// Writes bytes over what a vector holds from a place on, and past its end.
pub(crate) fn overwrite(file: &mut Vec<u8>, at: usize, bytes: &[u8]) -> Result<(), Failed>
    requires { at ≤ vec_len file.old }
    ensures ok { OnOk result (file.new.items ≡ written at bytes.now file.old.items) }
    ensures err { OnErr result (file.new.items ≡ file.old.items) }
{
    let over = bytes.len().min(file.len() - at);
    if file.extend_from_slice(bytes.split_at(over).1).is_err() {
        return Err(Failed);
    }
    file[at..at + over].copy_from_slice(bytes.split_at(over).0);
    Ok(())
}

// Reads what is there from a place on.
pub(crate) fn read_into(file: &[u8], at: u64, into: &mut [u8]) -> usize
    ensures fits { result ≤ length into.new }
    ensures bytes { ReadsAt file.now at into.new result }
{
    let from = (at as usize).min(file.len());
    let count = into.len().min(file.len() - from);
    into[..count].copy_from_slice(&file[from..from + count]);
    count
}
