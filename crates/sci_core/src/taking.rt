//! What a node does with a packet that has come to it.

use crate::lane::LaneKind;

/// What a node does with the oldest packet of a lane: it serves or refuses a request, or accepts an answer.
#[derive(Clone, Copy, Debug, PartialEq, Eq)]
pub(crate) enum Taking {
    Serve,
    Refuse,
    Accept,
}

impl Taking {
    ghost use Rattle.std.specs.Prelude.{◌≡◌};
    ghost use Rattle.sci_core.specs.Taking.{lane_kind};

    /// The kind of lane that the packet comes by.
    pub(crate) fn lane_kind(self) -> LaneKind
        ensures { result ≡ lane_kind self }
    {
        match self {
            Taking::Serve | Taking::Refuse => LaneKind::Requests,
            Taking::Accept => LaneKind::Answers,
        }
    }
}
