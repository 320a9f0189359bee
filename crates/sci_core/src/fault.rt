//! Why an event was not applied.

use std::alloc::AllocError;

/// Why an event was not applied to a machine.
#[derive(Debug, Drop, PartialEq, Eq)]
pub enum ApplyFault {
    /// The event is not enabled in the machine's state.
    NotEnabled,
    /// The event is an Ask or a Reply, and there was no memory for one packet more in its lane.
    Memory(AllocError),
}
