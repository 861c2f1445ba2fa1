//! Whether two jobs are equivalent.

ghost use Rattle.std.specs.Prelude.{◌≡◌};
ghost use Rattle.sw_rules.specs.Jobs.{is_equivalent, same_job_kind, same_kind, same_mode};

use sw_data::{Job, JobKind};
use sw_rules::{same_kind, same_mode};

// Whether two jobs are of one type.
fn same_job_kind(one: JobKind, other: JobKind) -> bool
    ensures { result ≡ same_job_kind one other }
{
    one == other
}

// Whether two jobs are equivalent: of one type, key and scope, and unless they unregister of one script, kind and mode.
pub(crate) fn is_equivalent(one: &Job, other: &Job) -> bool
    ensures { result ≡ is_equivalent one.now other.now }
{
    same_job_kind(one.what, other.what)
        && one.key == other.key
        && one.scope == other.scope
        && (one.what == JobKind::Unregister
            || (one.script == other.script
                && same_kind(one.kind, other.kind)
                && same_mode(one.mode, other.mode)))
}
