//! Why an event isn't enabled.

ghost use Rattle.std.specs.Prelude.{◌≡◌, is_some};
ghost use Rattle.sci_cache.specs.{Asking.{asking}, State.{Out}};

use crate::apply::node_of;
use crate::machine::Machine;
use crate::node::Node;
use crate::submit::SubmitFault;
use crate::taking::Taking;
use sci_packets::{Body, Packet};
use sci_words::{AskKind, Event, Op};

/// Why an event isn't enabled: the first thing that stands in its way.
#[derive(Clone, Copy, Debug, PartialEq, Eq)]
pub enum Obstacle {
    /// The machine has no node of the event's number.
    NoSuchNode,
    /// A Serve, a Refuse or an Accept: the machine has no node of the sender's number.
    NoSuchSender,
    /// An Issue or an Ask: the machine has no such line.
    NoSuchLine,
    /// An Issue: a line has no such word.
    NoSuchWord,
    /// An Issue: an operation of the node is pending on the line.
    AlreadyPending,
    /// An Issue: the node has issued as many operations as it may.
    NoIssueLeft,
    /// A Perform: no operation of the node is pending on the line.
    NothingPending,
    /// A Perform: the line's state in the node's cache doesn't allow the pending operation.
    NotAllowed,
    /// An Ask: the line's state in the node's cache doesn't ask this kind.
    NotAsked,
    /// An Ask that its line's state asks: the line has no entry, and every version slot is taken.
    NoSlot,
    /// A Serve, a Refuse or an Accept: no such packet is under way from the sender to the node.
    NothingUnderWay,
    /// A Serve or a Refuse: an answer of the node waits, and has to be sent first.
    AnswerWaits,
    /// A Refuse: the request is a Setback, which isn't refused.
    SetbackComes,
    /// A Reply: no answer of the node waits.
    NoAnswerWaits,
}

impl Obstacle {
    ghost use Rattle.std.specs.Prelude.{◌≡◌, ◌≤◌, length};
    ghost use Rattle.sci_core.specs.Obstacles.{obstacle_name};

    /// Its name, in small letters with hyphens.
    #[tactic(auto, unfolding(crate::specs::Obstacles::obstacle_name))]
    pub fn name(self) -> &'static str
        ensures name { result.now ≡ obstacle_name self }
        ensures short { length result.now ≤ 20 }
    {
        match self {
            Obstacle::NoSuchNode => "no-such-node",
            Obstacle::NoSuchSender => "no-such-sender",
            Obstacle::NoSuchLine => "no-such-line",
            Obstacle::NoSuchWord => "no-such-word",
            Obstacle::AlreadyPending => "already-pending",
            Obstacle::NoIssueLeft => "no-issue-left",
            Obstacle::NothingPending => "nothing-pending",
            Obstacle::NotAllowed => "not-allowed",
            Obstacle::NotAsked => "not-asked",
            Obstacle::NoSlot => "no-slot",
            Obstacle::NothingUnderWay => "nothing-under-way",
            Obstacle::AnswerWaits => "answer-waits",
            Obstacle::SetbackComes => "setback-comes",
            Obstacle::NoAnswerWaits => "no-answer-waits",
        }
    }
}

/// Whether a line without an entry asks this kind.
fn begins(kind: AskKind) -> bool
    ensures { result ≡ is_some (asking Out kind) }
{
    matches!(kind, AskKind::Mread | AskKind::Fread)
}

impl Node {
    ghost use Rattle.std.specs.Prelude.{◌≡◌, is_none, is_some};
    ghost use Rattle.sci_core.specs.Node.{node_issuing, node_performing, node_asking, node_replying};
    ghost use Rattle.sci_core.specs.Obstacles.{issue_obstacle as issue_obstacle_of, perform_obstacle as perform_obstacle_of};
    ghost use Rattle.sci_core.specs.Obstacles.{ask_obstacle as ask_obstacle_of, reply_obstacle as reply_obstacle_of};
    ghost use Rattle.sci_core.specs.Obstacles.{packet_obstacle as packet_obstacle_of};
    ghost use Rattle.sci_cache.specs.Cache.{letter_of};

    /// Why an operation can't be issued, or None if it can.
    fn issue_obstacle(&self, op: &Op) -> Option<Obstacle>
        ensures obstacle { result ≡ issue_obstacle_of self.now op.now }
        ensures enabled { is_none result ≡ is_some (node_issuing self.now op.now) }
    {
        if self.may_issue(op) {
            return None;
        }
        Some(SubmitFault::of(self, op).obstacle())
    }

    /// Why the operation that is pending on a line can't be performed, or None if it can.
    fn perform_obstacle(&self, line: u8) -> Option<Obstacle>
        ensures obstacle { result ≡ perform_obstacle_of self.now line }
        ensures enabled { is_none result ≡ is_some (node_performing self.now line) }
    {
        if self.pending(line).is_none() {
            Some(Obstacle::NothingPending)
        } else if !self.may_perform(line) {
            Some(Obstacle::NotAllowed)
        } else {
            None
        }
    }

    /// Why a request of this kind can't be made about a line, or None if it can.
    fn ask_obstacle(&self, line: u8, kind: AskKind) -> Option<Obstacle>
        ensures obstacle { result ≡ ask_obstacle_of self.now line kind }
        ensures enabled { is_none result ≡ is_some (node_asking self.now line kind) }
    {
        if line >= self.extent().lines {
            return Some(Obstacle::NoSuchLine);
        }
        if self.asked(line, kind).is_some() {
            return None;
        }
        if self.held(line).is_out() && begins(kind) {
            Some(Obstacle::NoSlot)
        } else {
            Some(Obstacle::NotAsked)
        }
    }

    /// Why no answer can be sent, or None if one can.
    fn reply_obstacle(&self) -> Option<Obstacle>
        ensures obstacle { result ≡ reply_obstacle_of self.now }
        ensures enabled { is_none result ≡ is_some (node_replying self.now) }
    {
        if self.waiting().is_none() {
            Some(Obstacle::NoAnswerWaits)
        } else {
            None
        }
    }

    /// Why a packet that comes can't be taken so, or None if it can.
    fn packet_obstacle(&self, taking: Taking, packet: &Packet) -> Option<Obstacle>
        ensures { result ≡ packet_obstacle_of taking self.now (letter_of packet.now) }
    {
        let waits = self.waiting().is_some();
        let sets_back = matches!(packet.body, Body::Setback { .. });
        match taking {
            Taking::Serve | Taking::Refuse if waits => Some(Obstacle::AnswerWaits),
            Taking::Refuse if sets_back => Some(Obstacle::SetbackComes),
            _ => None,
        }
    }
}

impl Machine {
    ghost use Rattle.std.specs.Prelude.{◌≡◌, ◌<◌, is_none, is_some};
    ghost use Rattle.sci_core.specs.Core.{stepping};
    ghost use Rattle.sci_core.specs.Obstacles.{obstacle_to as obstacle_to_of, take_obstacle as take_obstacle_of};

    /// Why an event isn't enabled, or None if it is: whether `apply` would apply it, if memory allows. Of several reasons
    /// it is the first, in the order in which they are listed.
    pub fn obstacle_to(&self, event: &Event) -> Option<Obstacle>
        ensures obstacle { result ≡ obstacle_to_of self.now event.now }
        ensures enabled { is_none result ≡ is_some (stepping self.now event.now) }
    {
        if node_of(event) >= self.extent().nodes {
            return Some(Obstacle::NoSuchNode);
        }
        match *event {
            Event::Issue { node, op } => self.node(node).issue_obstacle(&op),
            Event::Perform { node, line } => self.node(node).perform_obstacle(line),
            Event::Ask { node, line, kind } => self.node(node).ask_obstacle(line, kind),
            Event::Serve { from, node } => self.take_obstacle(Taking::Serve, from, node),
            Event::Refuse { from, node } => self.take_obstacle(Taking::Refuse, from, node),
            Event::Reply { node } => self.node(node).reply_obstacle(),
            Event::Accept { from, node } => self.take_obstacle(Taking::Accept, from, node),
        }
    }

    /// Why the oldest packet of a lane to a node can't be taken so, or None if it can.
    fn take_obstacle(&self, taking: Taking, from: u8, n: u8) -> Option<Obstacle>
        requires { n < self.now.size.nodes }
        ensures { result ≡ take_obstacle_of self.now taking from n }
    {
        if from >= self.extent().nodes {
            return Some(Obstacle::NoSuchSender);
        }
        match self.front(taking.lane_kind(), from, n) {
            Some(packet) => self.node(n).packet_obstacle(taking, packet),
            None => Some(Obstacle::NothingUnderWay),
        }
    }
}
