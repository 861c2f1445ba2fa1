//! Why what is asked of the clients is refused.

use sw_data::NoMemory;

/// Why what is asked of the clients is refused.
#[derive(Debug, Clone, Copy, PartialEq, Eq)]
pub enum RosterFault {
    /// No client of this number is open.
    NoClient,
    /// There is no worker of this number, or it is redundant.
    NoWorker,
    NoMemory,
}

impl From<NoMemory> for RosterFault {
    ghost use Rattle.std.specs.Prelude.{◌≡◌};
    ghost use Rattle.sw_roster.specs.declared.faults.RosterFault.TheVariants as fault;

    ghost from_gives = { λ _ made. made ≡ fault.NoMemory };

    fn from(_: NoMemory) -> RosterFault {
        RosterFault::NoMemory
    }
}
