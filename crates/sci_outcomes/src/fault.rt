//! Why the outcomes of a script's runs aren't counted.

use sci_runs::RunFault;
use std::alloc::AllocError;

/// Why the outcomes of a script's runs aren't counted.
#[derive(Clone, Copy, Debug, PartialEq, Eq)]
pub(crate) enum TrialsFault {
    /// Memory was refused.
    Memory,
    /// A run is given up.
    GivenUp,
    /// The outcomes have more than 16,000,000 operations in all.
    Crowded,
}

impl From<AllocError> for TrialsFault {
    ghost use Rattle.std.specs.Prelude.{◌≡◌};
    ghost use Rattle.sci_outcomes.specs.declared.fault.TrialsFault.TheVariants.{Memory};

    ghost from_gives = { λ error fault. fault ≡ Memory };

    fn from(_error: AllocError) -> TrialsFault {
        TrialsFault::Memory
    }
}

impl From<RunFault> for TrialsFault {
    ghost use Rattle.std.specs.Prelude.{◌≡◌};
    ghost use Rattle.sci_outcomes.specs.Trials.{fault_of};

    ghost from_gives = { λ run fault. fault ≡ fault_of run };

    fn from(fault: RunFault) -> TrialsFault {
        match fault {
            RunFault::Memory => TrialsFault::Memory,
            RunFault::TooMany => TrialsFault::GivenUp,
        }
    }
}
