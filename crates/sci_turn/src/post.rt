//! A node's post: where a turn finds the node and the lanes.

use sci_core::{LaneKind, Node};
use sci_packets::Packet;
use sci_words::Event;

/// A node's post: the node itself, and the lanes to it and from it.
pub trait Post {
    ghost use Rattle.std.specs.Prelude.{◌≡◌, ◌<◌, ◌≤◌, ℕ, true, false, [], IfOk, IfSome, IsErr};
    ghost use Rattle.sci_cache.specs.{Cache.{letter_of}, LineSet.{IsBefore}};
    ghost use Rattle.sci_core.specs.declared.lane.LaneKind.{LaneKind, TheVariants.{Answers}};
    ghost use Rattle.sci_turn.specs.Posts.{HasTakenFront, IsFront, IsFull, IsMade, IsPost, IsStill, MaySend, MayTakeFront, PostOf, lane_to, node_in};
    ghost use Rattle.sci_turn.specs.Posts.{nodes_in};

    /// Why a turn stops before its end.
    type Stop;

    ghost post: { Self → PostOf };

    // What no call changes, but in one direction.
    ghost stays: { Self → Self → Type 0 };

    // A packet was seen in the lane of a kind from a node, and not taken yet.
    ghost sees: { Self → LaneKind → ℕ → Type 0 };

    // A call may have stopped here.
    ghost may_stop: { Self → Type 0 };

    /// The node's number.
    fn me(&self) -> u8
        ensures { result ≡ (post self.now).me };

    /// How many nodes there are.
    fn nodes(&self) -> u8
        ensures { result ≡ nodes_in (post self.now) };

    /// The node.
    fn node(&self) -> &Node
        ensures node { result.now ≡ node_in (post self.now) }
        ensures post { IsPost (post self.now) };

    /// The first node from one on whose lane of answers is to be looked at, or None if no more is. Nothing has come by the
    /// lanes that are passed over. A post that doesn't know of such lanes passes over none.
    fn next_answering(&self, from: u8) -> Option<u8>
        ensures order { IfSome result (λ node. from ≤ node) }
        ensures here { IfSome result (λ node. node < nodes_in (post self.now)) }
        ensures passed { (other : ℕ) → from ≤ other → other < nodes_in (post self.now) →
            IsBefore other result → lane_to (post self.now) Answers other ≡ [] }
    {
        if from < self.nodes() {
            Some(from)
        } else {
            None
        }
    }

    /// Looks whether a packet has come by the lane of a kind from a node. It stays there. Requires that there
    /// is such a node.
    fn look(&mut self, kind: LaneKind, from: u8) -> Result<bool, Self::Stop>
        requires { from < nodes_in (post self.old) }
        ensures still { IsStill (post self.old) (post self.new) }
        ensures seen { IfOk result (λ come. come ≡ true → sees self.new kind from) }
        ensures none { IfOk result
            (λ come. come ≡ false → lane_to (post self.new) kind from ≡ []) }
        ensures stays { stays self.old self.new }
        ensures stops { IsErr result → may_stop self.new };

    /// The oldest packet of a lane, which the last look has seen.
    fn front(&self, kind: LaneKind, from: u8) -> &Packet
        requires from { from < nodes_in (post self.now) }
        requires sees { sees self.now kind from }
        ensures { IsFront (post self.now) kind from (letter_of result.now) };

    /// Takes the packet that the last look has seen, by an event of the node. Refused, with no event made, if the turn
    /// stops.
    fn take(&mut self, kind: LaneKind, from: u8, event: &Event) -> Result<(), Self::Stop>
        requires may { MayTakeFront (post self.old) kind from event.now }
        requires sees { sees self.old kind from }
        ensures taken { IfOk result
            (λ _. HasTakenFront (post self.old) kind from event.now (post self.new)) }
        ensures cut { IsErr result → IsStill (post self.old) (post self.new) }
        ensures stays { stays self.old self.new }
        ensures stops { IsErr result → may_stop self.new };

    /// Sends a packet by an event of the node. False if its lane has no room. Refused, with no event made, if the turn
    /// stops.
    fn send(&mut self, kind: LaneKind, packet: &Packet, event: &Event) -> Result<bool, Self::Stop>
        requires { MaySend (post self.old) kind (letter_of packet.now) event.now }
        ensures sent { IfOk result (λ sent. sent ≡ true →
            IsMade (post self.old) event.now (post self.new)) }
        ensures still { IfOk result (λ sent. sent ≡ false →
            IsStill (post self.old) (post self.new)) }
        ensures full { IfOk result (λ sent. sent ≡ false →
            IsFull (post self.new) kind packet.now.target) }
        ensures cut { IsErr result → IsStill (post self.old) (post self.new) }
        ensures stays { stays self.old self.new }
        ensures stops { IsErr result → may_stop self.new };

    ghost stays_itself: { (x : Self) → stays x x };

    ghost stays_through: { (x y z : Self) → stays x y → stays y z → stays x z };
}
