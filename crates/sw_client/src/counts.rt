//! Counts of users, by the number of a registration.

ghost use Rattle.std.specs.Prelude.{◌≡◌, ◌+◌, ◌-◌, ◌<◌, ◌^◌, ℕ, slice_index_or, IfSome, Some, if◌then◌else◌};
ghost use Rattle.std.specs.Vec.{vec_len};
ghost use Rattle.sw_rules.specs.Rows.{is_number};

// The count of a registration; none is kept for an unknown one.
pub(crate) fn count_of(counts: &[u32], registration: u32) -> u32
    ensures { result ≡ slice_index_or counts.now registration 0 }
{
    match counts.get(registration as usize) {
        Some(count) => *count,
        None => 0,
    }
}

// One user of a registration less.
pub(crate) fn lower(counts: &mut Vec<u32>, registration: Option<u32>)
    requires { IfSome registration (λ r. 0 < slice_index_or counts.old.items r 0) }
    ensures count { (asked : ℕ) → slice_index_or counts.new.items asked 0
        ≡ slice_index_or counts.old.items asked 0
        - (if is_number registration asked then 1 else 0) }
    ensures len { vec_len counts.new ≡ vec_len counts.old }
{
    if let Some(registration) = registration {
        counts[registration as usize] -= 1;
    }
}

// One user of a registration more.
pub(crate) fn raise(counts: &mut Vec<u32>, registration: Option<u32>)
    requires { IfSome registration (λ r. (r < vec_len counts.old)
        × (slice_index_or counts.old.items r 0 < 2 ^ 32 - 1)) }
    ensures count { (asked : ℕ) → slice_index_or counts.new.items asked 0
        ≡ slice_index_or counts.old.items asked 0
        + (if is_number registration asked then 1 else 0) }
    ensures len { vec_len counts.new ≡ vec_len counts.old }
{
    if let Some(registration) = registration {
        counts[registration as usize] += 1;
    }
}

// One user of a registration less, where there is one, and one user of another more.
pub(crate) fn exchange(counts: &mut Vec<u32>, from: Option<u32>, to: u32)
    requires from { IfSome from (λ r. 0 < slice_index_or counts.old.items r 0) }
    requires to { (to < vec_len counts.old)
        × (slice_index_or counts.old.items to 0
        - (if is_number from to then 1 else 0) < 2 ^ 32 - 1) }
    ensures count { (asked : ℕ) → slice_index_or counts.new.items asked 0
        ≡ slice_index_or counts.old.items asked 0 - (if is_number from asked then 1 else 0)
        + (if is_number (Some to) asked then 1 else 0) }
    ensures len { vec_len counts.new ≡ vec_len counts.old }
{
    lower(counts, from);
    raise(counts, Some(to));
}
