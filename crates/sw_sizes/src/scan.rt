//! The usage by a scan.

ghost use Rattle.std.specs.Prelude.{◌≡◌, ◌+◌, IfOk};
ghost use Rattle.sw_caches.specs.Bytes.{bytes_of};
ghost use Rattle.sw_sizes.specs.Usage.{registration_bytes, registration_size};

use crate::row::{Parts, sum};
use sw_caches::Caches;
use sw_data::{KeptRegistration, NoMemory};

// The bytes of a registration.
#[tactic(auto, using(crate::proofs::PartsLemmas::parts_weigh))]
fn registration_size(row: &KeptRegistration) -> Result<u64, NoMemory>
    ensures { IfOk result (λ size. size ≡ registration_size row.now) }
{
    Parts::of(row)?.bytes()
}

/// The usage of a content of these registrations and these caches. It scans the registrations.
pub fn scanned_usage(rows: &[KeptRegistration], caches: &Caches) -> Result<u64, NoMemory>
    ensures { IfOk result (λ bytes. bytes ≡ registration_bytes rows.now + bytes_of caches.now.rows) }
{
    let mut bytes = caches.bytes();
    for row in rows {
        bytes = sum(bytes, registration_size(row)?)?;
    }
    Ok(bytes)
}
