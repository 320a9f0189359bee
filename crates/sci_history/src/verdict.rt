//! What an audit of logs reports.

/// The kinds of fault, in the order in which they are looked for on a line.
#[derive(Clone, Copy, Debug, PartialEq, Eq)]
pub enum FaultKind {
    /// Two makers have the same version.
    VersionTwice,
    /// A maker has version 0 or one above the number of makers, or a load has one above it.
    VersionMissing,
    /// A reply isn't that of the operation's effect.
    WrongReply,
    /// A node's entries don't stand in the order of its log.
    OutOfOrder,
    /// The last words, or the number of makers, differ from the last contents.
    LastDiffers,
}

/// What an audit finds.
#[derive(Clone, Copy, Debug, PartialEq, Eq)]
pub enum Verdict {
    /// The logs are lawful.
    Lawful,
    /// The first fault: the lowest line that has one, and on it the first kind that fails.
    Fault {
        line: u8,
        kind: FaultKind,
        /// Node and serial of the entry where the rule fails; none if the last contents differ.
        at: Option<(u8, u32)>,
    },
}
