//! What two jobs, or a job and a worker, have in common.

ghost use Rattle.std.specs.Prelude.{◌≡◌};
ghost use Rattle.sw_rules.specs.Jobs.{same_kind, same_mode};

use sw_data::{Kind, Mode};

/// Whether two scripts are of one kind. It takes no memory.
pub fn same_kind(one: Kind, other: Kind) -> bool
    ensures { result ≡ same_kind one other }
{
    one == other
}

/// Whether two modes are the same. It takes no memory.
pub fn same_mode(one: Mode, other: Mode) -> bool
    ensures { result ≡ same_mode one other }
{
    one == other
}
