//! What a state says of a line's entry: between which nodes it stands, whether it awaits an answer, and its contents.

use crate::held::Held;
use sci_packets::NodeId;
use sci_words::Stamped;

impl Held {
    ghost use Rattle.std.specs.Prelude.{◌≡◌};
    ghost use Rattle.sci_cache.specs.{Held.{state_of}, Member.{link_of, contents_held as contents_held_of}, Asking.{asked_node as asked_node_of}};
    ghost use Rattle.sci_cache.specs.State.{backward_of, contents_of, forward_of, is_sent as is_sent_of, waits as waits_of};

    /// Whether the line awaits an answer.
    pub fn waits(&self) -> bool
        ensures { result ≡ waits_of (state_of self.now) }
    {
        match self {
            Held::Out(_) | Held::Head(_) | Held::FreshHead(_) | Held::Below(_) => false,
            Held::Joining(state) => state.sent,
            Held::FreshJoining(state) => state.sent,
            Held::Telling(state) => state.sent,
            _ => true,
        }
    }

    /// Whether the request was sent, of the states that come before and after it.
    #[tactic(auto, unfolding(crate::specs::State::is_sent))]
    pub fn is_sent(&self) -> bool
        ensures { result ≡ is_sent_of (state_of self.now) }
    {
        match self {
            Held::Joining(state) => state.sent,
            Held::FreshJoining(state) => state.sent,
            Held::Telling(state) => state.sent,
            _ => false,
        }
    }

    /// The entry behind a member of the line's list, or none at its end. None for a line that is no member.
    #[tactic(auto, unfolding(crate::specs::State::forward_of))]
    pub fn link(&self) -> Option<Option<NodeId>>
        ensures { result ≡ link_of (state_of self.now) }
    {
        match self {
            Held::Out(_) | Held::Asking(_) | Held::Telling(_) | Held::Fading(_) => None,
            _ => Some(self.forward()),
        }
    }

    /// The contents of the one member that may change the line or is about to: the authority. None for every other.
    pub fn contents_held(&self) -> Option<Stamped>
        ensures { result ≡ contents_held_of (state_of self.now) }
    {
        match self {
            Held::FreshJoining(_) | Held::Below(_) | Held::Rolling(_) => None,
            _ => self.contents(),
        }
    }

    /// The node to which the request of a line that waits went, as its state has it. That of a node that leaves may have
    /// gone to an entry that was before it. None if the state doesn't say.
    pub fn asked_node(&self, home: u16) -> Option<u16>
        ensures { result ≡ asked_node_of home (state_of self.now) }
    {
        match self {
            Held::Asking(_) | Held::Claiming(_) | Held::Clearing(_) | Held::Returning(_) => Some(
                home,
            ),
            Held::Joining(state) => Some(state.old_head.get()),
            Held::FreshJoining(state) => Some(state.old_head.get()),
            Held::Purging(state) => Some(state.next.get()),
            Held::Rolling(state) => Some(state.backward.get()),
            Held::Telling(state) => Some(state.behind.get()),
            _ => None,
        }
    }

    /// The node behind an entry, or the old head for one that is joining.
    #[tactic(auto, unfolding(crate::specs::State::forward_of))]
    pub fn forward(&self) -> Option<NodeId>
        ensures { result ≡ forward_of (state_of self.now) }
    {
        match self {
            Held::Joining(state) => Some(state.old_head),
            Held::FreshJoining(state) => Some(state.old_head),
            Held::Head(state) => state.forward,
            Held::FreshHead(state) => state.forward,
            Held::Below(state) => state.forward,
            Held::Purging(state) => Some(state.next),
            Held::Claiming(state) => state.forward,
            Held::Rolling(state) => state.forward,
            Held::Telling(state) => Some(state.behind),
            _ => None,
        }
    }

    /// The node before an entry.
    #[tactic(auto, unfolding(crate::specs::State::backward_of))]
    pub fn backward(&self) -> Option<NodeId>
        ensures { result ≡ backward_of (state_of self.now) }
    {
        match self {
            Held::Below(state) => Some(state.backward),
            Held::Rolling(state) => Some(state.backward),
            Held::Telling(state) => Some(state.before),
            _ => None,
        }
    }

    /// The contents that a state has.
    pub fn contents(&self) -> Option<Stamped>
        ensures { result ≡ contents_of (state_of self.now) }
    {
        match self {
            Held::FreshJoining(state) => Some(state.contents),
            Held::Head(state) => Some(state.contents),
            Held::FreshHead(state) => Some(state.contents),
            Held::Below(state) => Some(state.contents),
            Held::Purging(state) => Some(state.contents),
            Held::Claiming(state) => Some(state.contents),
            Held::Clearing(state) => Some(state.contents),
            Held::Returning(state) => Some(state.contents),
            Held::Rolling(state) => Some(state.contents),
            _ => None,
        }
    }
}
