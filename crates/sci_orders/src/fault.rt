//! Why not all orders of a script are looked at.

use std::alloc::AllocError;

/// Why not all orders of a script are looked at.
#[derive(Clone, Copy, Debug, PartialEq, Eq)]
pub enum OrdersFault {
    /// Memory was refused.
    Memory,
    /// Some number of steps leads to more than 100,000 standings.
    TooMany,
}

impl From<AllocError> for OrdersFault {
    ghost use Rattle.std.specs.Prelude.{◌≡◌};
    ghost use Rattle.sci_orders.specs.declared.fault.OrdersFault.TheVariants.{Memory};

    ghost from_gives = { λ error fault. fault ≡ Memory };

    fn from(_error: AllocError) -> OrdersFault {
        OrdersFault::Memory
    }
}
