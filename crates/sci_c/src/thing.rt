//! What an object can keep.

use crate::controller::Controller;
use crate::journal::Journal;
use sci_core::Machine;
use sci_windows::Scoreboard;

/// What an object can keep.
#[derive(Drop)]
pub enum Thing {
    Machine(Machine),
    Node(Controller),
    Logs(Journal),
    Scoreboard(Scoreboard),
}
