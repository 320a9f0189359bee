//! The states of a cache for one line, each a type of its own. The names in brackets are those of IEEE Std
//! 1596-1992 for its stable states; the others are this project's own. They are `Copy`, so that a line changes in place.

use sci_packets::NodeId;
use sci_words::Stamped;

/// No entry in the line's list.
#[derive(Clone, Copy, Debug, PartialEq, Eq)]
pub struct OutState;

/// An Mread or Fread is sent to the home.
#[derive(Clone, Copy, Debug, PartialEq, Eq)]
pub struct Asking;

/// Told who the old head is: a Cread is sent to it, or not yet.
#[derive(Clone, Copy, Debug, PartialEq, Eq)]
pub struct Joining {
    pub old_head: NodeId,
    pub sent: bool,
}

/// Told the contents and who the old head is: a Cread is sent to it, or not yet.
#[derive(Clone, Copy, Debug, PartialEq, Eq)]
pub struct FreshJoining {
    pub contents: Stamped,
    pub old_head: NodeId,
    pub sent: bool,
}

/// The head of a list that may write (ONLY_DIRTY if there is no next entry, else HEAD_DIRTY).
#[derive(Clone, Copy, Debug, PartialEq, Eq)]
pub struct HeadState {
    pub contents: Stamped,
    pub forward: Option<NodeId>,
}

/// The head of a list that began under a fresh home (ONLY_FRESH if there is no next entry, else HEAD_FRESH). A later
/// mread makes the home GONE.
#[derive(Clone, Copy, Debug, PartialEq, Eq)]
pub struct FreshHead {
    pub contents: Stamped,
    pub forward: Option<NodeId>,
}

/// An entry behind another (TAIL_VALID if there is no next entry, else MID_VALID).
#[derive(Clone, Copy, Debug, PartialEq, Eq)]
pub struct Below {
    pub contents: Stamped,
    pub forward: Option<NodeId>,
    pub backward: NodeId,
}

/// The head, with a Purge sent to the next entry.
#[derive(Clone, Copy, Debug, PartialEq, Eq)]
pub struct Purging {
    pub contents: Stamped,
    pub next: NodeId,
}

/// The head of a fresh list, with a Claim sent to the home.
#[derive(Clone, Copy, Debug, PartialEq, Eq)]
pub struct Claiming {
    pub contents: Stamped,
    pub forward: Option<NodeId>,
}

/// The only entry of a fresh list, with a Clear sent to the home.
#[derive(Clone, Copy, Debug, PartialEq, Eq)]
pub struct Clearing {
    pub contents: Stamped,
}

/// The only entry of a list, with a Wback sent to the home.
#[derive(Clone, Copy, Debug, PartialEq, Eq)]
pub struct Returning {
    pub contents: Stamped,
}

/// An entry behind another, with a Roll sent to the entry before it.
#[derive(Clone, Copy, Debug, PartialEq, Eq)]
pub struct Rolling {
    pub contents: Stamped,
    pub forward: Option<NodeId>,
    pub backward: NodeId,
}

/// Out of the list, and must tell `behind` that `before` is now the entry before it: a Setback is sent, or not
/// yet.
#[derive(Clone, Copy, Debug, PartialEq, Eq)]
pub struct Telling {
    pub behind: NodeId,
    pub before: NodeId,
    pub sent: bool,
}

/// Purged while its Roll was unanswered.
#[derive(Clone, Copy, Debug, PartialEq, Eq)]
pub struct Fading;
