//! Why a cache refuses.

/// Why a cache makes no request.
#[derive(Clone, Copy, Debug, PartialEq, Eq)]
pub enum AskFault {
    /// The line has no entry, and every version slot is taken. It is reported only if the state asks this kind.
    NoSlot,
    /// The line's state doesn't ask this kind. This is checked first.
    NotNow,
}

/// The line's state doesn't await the answer, or its control number isn't that of the line's last ask.
#[derive(Clone, Copy, Debug, PartialEq, Eq)]
pub struct NotAwaited;
