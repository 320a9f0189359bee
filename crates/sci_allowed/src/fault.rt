//! Why nothing is shown of a script.

use sci_orders::OrdersFault;
use std::alloc::{AllocError, AllocFailed};

/// Why nothing is shown of a script.
#[derive(Clone, Copy, Debug, PartialEq, Eq)]
pub(crate) enum AllowedFault {
    /// Memory was refused.
    Memory,
    /// Some number of steps leads to more than 100,000 positions.
    TooMany,
    /// There are only this number of rows.
    NoRow { rows: usize },
    /// The schedule has more than 500,000 events.
    TooLong,
}

impl From<AllocError> for AllowedFault {
    ghost use Rattle.std.specs.Prelude.{◌≡◌};
    ghost use Rattle.sci_allowed.specs.declared.fault.AllowedFault.TheVariants.{Memory};

    ghost from_gives = { λ error fault. fault ≡ Memory };

    fn from(_error: AllocError) -> AllowedFault {
        AllowedFault::Memory
    }
}

impl From<OrdersFault> for AllowedFault {
    ghost use Rattle.std.specs.Prelude.{◌≡◌};
    ghost use Rattle.sci_allowed.specs.Allowed.{fault_of};

    ghost from_gives = { λ orders fault. fault ≡ fault_of orders };

    fn from(fault: OrdersFault) -> AllowedFault {
        match fault {
            OrdersFault::Memory => AllowedFault::Memory,
            OrdersFault::TooMany => AllowedFault::TooMany,
        }
    }
}
