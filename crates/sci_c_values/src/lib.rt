//! The structs of the C interface, and the values that they stand for.
#![tactic(auto)]

mod dead;
mod entry;
mod line_states;
mod obstacle;
mod operation;
mod packet;
mod seen;
mod stamped;
mod status;
mod verdict;
mod want;

pub use dead::{SciDead, dead_out};
pub use entry::{SciEntry, entry_in, entry_out};
pub use line_states::{SciHeld, SciHome, held_out, home_out};
pub use obstacle::obstacle_out;
pub use operation::{SciEvent, SciOp, event_in, op_in, op_out};
pub use packet::{PacketRefusal, SciPacket, packet_in, packet_out, status_of_fault};
pub use seen::{SciSeen, seen_entry, seen_nothing, seen_packet};
pub use stamped::{SciStamped, stamped_in, stamped_out};
pub use status::{
    SCI_BAD_IDENTIFIER, SCI_BAD_OFFSET, SCI_FULL, SCI_MISUSE, SCI_NO_MEMORY, SCI_NOT_ENABLED,
    SCI_OK, SCI_RANGE, SCI_SHORT, SCI_TEXT, SCI_UNKNOWN_COMMAND,
};
pub use verdict::{SciTextFault, SciVerdict, text_fault_out, verdict_out};
pub use want::{SciWant, decision_out, want_out};
