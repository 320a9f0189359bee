//! Kinds of states, by which a node's lines are found.

use crate::held::Held;

/// What the state of a line is to the planner of a node's requests. A state may be of several kinds, or of none.
#[derive(Clone, Copy, Debug, PartialEq, Eq)]
pub enum LineKind {
    /// The head of a list that may write, with a next entry.
    HasSharers,
    /// The head of a fresh list, with a next entry.
    HasFreshSharers,
    /// On the way into a list.
    Joins,
    /// With a request to send before anything else can come of it.
    MustSend,
    /// On the way out of a list, or out of the way of a writer.
    GivesWay,
    /// With an entry that could begin to give way.
    CouldGiveWay,
    /// On the way into a list or giving way. No operation on such a line asks for anything.
    Moves,
}

impl Held {
    ghost use Rattle.std.specs.Prelude.{◌≡◌};
    ghost use Rattle.sci_cache.specs.{Held.{state_of}, Kinds.{is_of as is_state_of}};

    /// Whether the state is of this kind.
    pub fn is_of(&self, kind: LineKind) -> bool
        ensures { result ≡ is_state_of kind (state_of self.now) }
    {
        match kind {
            LineKind::HasSharers => matches!(self, Held::Head(head) if head.forward.is_some()),
            LineKind::HasFreshSharers => {
                matches!(self, Held::FreshHead(head) if head.forward.is_some())
            }
            LineKind::Joins => matches!(self, Held::Joining(_) | Held::FreshJoining(_)),
            LineKind::MustSend => match self {
                Held::Joining(state) => !state.sent,
                Held::FreshJoining(state) => !state.sent,
                Held::Telling(state) => !state.sent,
                _ => false,
            },
            LineKind::GivesWay => matches!(
                self,
                Held::Purging(_)
                    | Held::Claiming(_)
                    | Held::Clearing(_)
                    | Held::Returning(_)
                    | Held::Rolling(_)
                    | Held::Telling(_)
                    | Held::Fading(_)
            ),
            LineKind::CouldGiveWay => {
                matches!(self, Held::Head(_) | Held::FreshHead(_) | Held::Below(_))
            }
            LineKind::Moves => !matches!(
                self,
                Held::Out(_) | Held::Asking(_) | Held::Head(_) | Held::FreshHead(_) | Held::Below(_)
            ),
        }
    }
}
