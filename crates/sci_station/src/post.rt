//! A station's end of the lanes, as the post of its node.

use crate::budget::{Budget, Spent};
use crate::kept::Kept;
use crate::receiving::{Seen, read_packet, see};
use crate::sending::{send, target_of};
use crate::unanswered::Unanswered;
use sci_core::{LaneKind, Node};
use sci_history::Entry;
use sci_lanes::{HasEnd, LaneEnd};
use sci_packets::Packet;
use sci_turn::Post;
use sci_words::{Event, Op};
use std::marker::Model;

/// An end of the lanes, with what its node remembers of them, and how many more steps on words a turn may make. Contracts
/// see all of it. What is remembered is always right: a count is the number of answers that a node owes, and a kept packet
/// is the oldest of its lane.
#[derive(Drop)]
pub(crate) struct StationPost {
    end: LaneEnd,
    unanswered: Unanswered,
    kept: Kept,
    budget: Budget,
}

impl Model for StationPost {
    ghost use Rattle.sci_station.specs.Posts.{Remembers, StationPostOf};

    ghost Value = { StationPostOf };

    ghost view = { λ post. record {
      end = post.end;
      unanswered = post.unanswered;
      kept = post.kept;
      left = post.budget.left;
    } };

    ghost invariant = { λ post. Remembers post.end post.unanswered post.kept };
}

impl HasEnd for StationPost {
    ghost end_of = { λ post. post.end };

    fn end(&self) -> &LaneEnd {
        &self.end
    }

    fn into_end(self) -> LaneEnd {
        self.end
    }
}

impl StationPost {
    ghost use Rattle.std.specs.Prelude.{◌≡◌, ◌<◌, [], true, false, Some, None, IfSome, IsErr, IsOk};
    ghost use Rattle.sci_station.specs.{Budgets.{HasNoMore}, Ends.{IsStill, SeesFirst}, Posts.{IsRead, is_kept, post_of}};
    ghost use Rattle.sci_turn.specs.Posts.{lane_to};
    ghost use Rattle.sci_core.specs.Node.{node_issuing, node_performing};
    ghost use Rattle.sci_lanes.specs.{Ends.{HasIssued, HasPerformed, nodes_in}, Telling.{IsSameNode, IsShown}};

    /// The post at an end in whose machine nothing was done yet.
    pub(crate) fn new(end: LaneEnd) -> StationPost
        requires { end.part.schedule ≡ [] }
        ensures { result.end ≡ end }
    {
        // Read, so that the prover knows that the node is one of a state.
        let _node = end.node();
        StationPost {
            end,
            unanswered: Unanswered::new(),
            kept: Kept::new(),
            budget: Budget { left: None },
        }
    }

    /// Allows a turn this many more steps on words, or as many as it likes. The node is one of a state.
    pub(crate) fn allow(&mut self, left: Option<u32>)
        ensures allowed { self.new ≡ record self.old { left = left } }
        ensures shown { IsShown self.new.end.part }
    {
        self.budget = Budget { left };
    }

    /// How many more steps on words a turn may make. The node is one of a state.
    pub(crate) fn left(&self) -> Option<u32>
        ensures left { result ≡ self.now.left }
        ensures shown { IsShown self.now.end.part }
    {
        self.budget.left
    }

    /// Issues an operation at the node, and gives its serial. None, unchanged, if the node can't issue it.
    #[inline(always)]
    pub(crate) fn issue(&mut self, op: Op) -> Option<u32>
        ensures issued { IfSome result (λ serial. HasIssued self.old.end op serial self.new.end) }
        ensures none { result ≡ None → node_issuing self.old.end.part.node op ≡ None }
        ensures unchanged { result ≡ None → self.new ≡ self.old }
        ensures rest { self.new ≡ record self.old { end = self.new.end } }
        ensures same { IsSameNode self.old.end.part self.new.end.part }
    {
        self.end.issue(op)
    }

    /// Performs the operation that is pending on a line at the node, and gives its entry. None, unchanged, if the node can't
    /// perform it.
    #[inline(always)]
    pub(crate) fn perform(&mut self, line: u8) -> Option<Entry>
        ensures performed { IfSome result
            (λ entry. HasPerformed self.old.end line entry self.new.end) }
        ensures none { result ≡ None → node_performing self.old.end.part.node line ≡ None }
        ensures unchanged { result ≡ None → self.new ≡ self.old }
        ensures rest { self.new ≡ record self.old { end = self.new.end } }
        ensures same { IsSameNode self.old.end.part self.new.end.part }
    {
        self.end.perform(line)
    }

    /// Whether the lane of a kind from a node is empty, as far as is known without a look: a lane of answers is, if the node
    /// owes none. Nothing is known of lanes of requests.
    #[inline(always)]
    fn knows_empty(&self, kind: LaneKind, from: u8) -> bool
        requires { from < nodes_in self.now.end.part }
        ensures { result ≡ true → lane_to (post_of self.now.end) kind from ≡ [] }
    {
        match kind {
            LaneKind::Answers => !self.unanswered.owes(from),
            LaneKind::Requests => false,
        }
    }

    /// Reads the packet whose first word was seen in a lane. A request of another node is kept from then on, until it is taken.
    /// Out of line, so that a look that finds nothing is short.
    #[inline(never)]
    fn read(&mut self, kind: LaneKind, from: u8, first: u64) -> Result<(), Spent>
        requires seen { SeesFirst self.old.end.part kind from first }
        requires fresh { is_kept self.old.kept kind from ≡ false }
        ensures read { IsOk result → IsRead self.new.end self.new.kept kind from }
        ensures still { IsStill self.old.end self.new.end }
        ensures shown { IsShown self.new.end.part }
        ensures budget { HasNoMore self.old.left self.new.left }
        ensures spent { IsErr result → self.new.left ≡ Some 0 }
    {
        // Here, not where it was seen: a look for which nothing has come needs no cell.
        let cell = self.end.next_to_take(kind, from);
        let read = read_packet(&mut self.end, &mut self.budget, Seen { cell, first });
        // Read, so that the prover knows that the node is one of a state.
        let _node = self.end.node();
        // By a `match`: the toolchain builds no proof for a packet behind `?`.
        let packet = match read {
            Ok(packet) => packet,
            Err(_) => return Err(Spent),
        };
        match kind {
            LaneKind::Answers => {
                self.kept.answer_read(&packet);
                Ok(())
            }
            LaneKind::Requests => {
                let me = self.end.me();
                self.kept.request_read(from, &packet, from != me);
                Ok(())
            }
        }
    }
}

impl Post for StationPost {
    ghost use Rattle.std.specs.Prelude.{◌≡◌, Some};
    ghost use Rattle.sci_station.specs.{Budgets.{HasNoMore}, Ends.{IsSameEnd}, Posts.{IsRead, post_of}};
    ghost use Rattle.std.proofs.Common.{arith, refl, ◌∙◌};

    type Stop = Spent;

    ghost post = { λ post. post_of post.end };

    ghost stays = { λ old new. IsSameEnd old.end new.end × HasNoMore old.left new.left };

    ghost sees = { λ post kind from. IsRead post.end post.kept kind from };

    ghost may_stop = { λ post. post.left ≡ Some 0 };

    #[inline(always)]
    fn me(&self) -> u8 {
        self.end.me()
    }

    #[inline(always)]
    fn nodes(&self) -> u8 {
        self.end.nodes()
    }

    #[inline(always)]
    fn node(&self) -> &Node {
        self.end.node()
    }

    #[inline(always)]
    fn next_answering(&self, from: u8) -> Option<u8> {
        self.unanswered.next_from(from)
    }

    #[inline(always)]
    fn look(&mut self, kind: LaneKind, from: u8) -> Result<bool, Spent> {
        if self.kept.is_kept(kind, from) {
            return Ok(true);
        }
        if self.knows_empty(kind, from) {
            return Ok(false);
        }
        let seen = see(&mut self.end, &mut self.budget, kind, from);
        // Read, so that the prover knows that the node is one of a state.
        let _node = self.end.node();
        match seen? {
            Some(first) => {
                self.read(kind, from, first)?;
                Ok(true)
            }
            None => Ok(false),
        }
    }

    #[inline(always)]
    fn front(&self, kind: LaneKind, from: u8) -> &Packet {
        match self.kept.packet(kind, from) {
            Some(packet) => packet,
            None => unreachable!(),
        }
    }

    // In place in its two callers: there the compiler knows the kind of the event, and leaves out a jump through a table.
    #[inline(always)]
    fn take(&mut self, kind: LaneKind, from: u8, event: &Event) -> Result<(), Spent> {
        self.budget.spend()?;
        let cell = self.end.next_to_take(kind, from);
        let packet = match self.kept.packet(kind, from) {
            Some(packet) => packet,
            None => unreachable!(),
        };
        self.end.free(cell, event, packet);
        match kind {
            LaneKind::Answers => {
                self.unanswered.accepted(from);
                Ok(())
            }
            LaneKind::Requests => {
                self.kept.request_taken(from);
                Ok(())
            }
        }
    }

    fn send(&mut self, kind: LaneKind, packet: &Packet, event: &Event) -> Result<bool, Spent> {
        let to = target_of(&self.end, packet);
        let sent = send(&mut self.end, &mut self.budget, kind, packet, event);
        // Read, so that the prover knows that the node is one of a state.
        let _node = self.end.node();
        if !sent? {
            return Ok(false);
        }
        match kind {
            LaneKind::Answers => Ok(true),
            LaneKind::Requests => {
                self.unanswered.asked(to);
                Ok(true)
            }
        }
    }

    ghost stays_itself = { λ x. (
      record { table = refl; node = record { me = refl; sized = refl } },
      record { limit = refl; fewer = Prim.omega arith },
    ) };

    ghost stays_through = { λ x y z one two. (
      record {
        table = two.0.table ∙ one.0.table;
        node = record { me = two.0.node.me ∙ one.0.node.me; sized = two.0.node.sized ∙ one.0.node.sized };
      },
      record { limit = two.1.limit ∙ one.1.limit; fewer = (let later = two.1.fewer in let earlier = one.1.fewer in Prim.omega arith) },
    ) };
}
