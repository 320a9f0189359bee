//! The events of a schedule that weren't enabled.

ghost use Rattle.std.specs.Prelude.{◌≡◌};
ghost use Rattle.sci_c_values.specs.Dead.{dead_struct};

use crate::obstacle::obstacle_out;
use sci_core::DeadEvents;

/// The events of a schedule that weren't enabled when they came: how many they are, how many events stand before the first of
/// them, and the number of what stood in its way. If there are none, all is 0.
#[repr(C)]
#[derive(Clone, Copy)]
pub struct SciDead {
    pub count: u32,
    pub place: u32,
    pub obstacle: u32,
}

/// The struct of dead events.
pub fn dead_out(dead: Option<DeadEvents>) -> SciDead
    ensures { result ≡ dead_struct dead }
{
    match dead {
        None => SciDead {
            count: 0,
            place: 0,
            obstacle: 0,
        },
        Some(dead) => SciDead {
            count: dead.count,
            place: dead.place,
            obstacle: obstacle_out(Some(dead.obstacle)),
        },
    }
}
