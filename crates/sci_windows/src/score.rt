//! What a scoreboard says of an entry.

use sci_history::FaultKind;

/// What a scoreboard says of an entry that it is told.
#[derive(Clone, Copy, Debug, PartialEq, Eq)]
pub enum Score {
    /// The entry goes on from what was told, as one memory of one thread does.
    Taken,
    /// Nothing can be said now: its version is ahead of its line, or it is a load of a version that its line has left.
    NotNext,
    /// No lawful run has the entry after what was told. The kind isn't LastDiffers.
    Fault(FaultKind),
}
