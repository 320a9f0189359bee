//! The state of a machine: its nodes and its lanes, and how one of them changes.

use crate::lane::{Lane, LaneKind};
use crate::node::Node;
use sci_history::Logs;
use sci_packets::{Body, Packet};
use sci_words::Extent;
use std::alloc::{AllocError, Global};
use std::marker::Model;

/// The nodes of a machine and the lanes between them.
#[derive(Drop)]
pub(crate) struct State {
    extent: Extent,
    limit: u32,
    pub(crate) nodes: Vec<Node>,
    lanes: Vec<Lane>,
}

impl Model for State {
    ghost use Rattle.sci_core.specs.Core.{Core, HasSize, core_of};

    ghost Value = { Core };

    ghost view = { λ state. core_of state.extent state.limit state.nodes.items state.lanes.items };

    ghost invariant = { λ state. HasSize (core_of state.extent state.limit state.nodes.items state.lanes.items) };
}

impl State {
    ghost use Rattle.std.specs.Prelude.{◌≡◌, ◌<◌, ◌≤◌, ◌*◌, ◌++◌, ◌∷◌, [], Some, None, true, false, IfOk, IfSome, OnOk, OnErr, IsTrue, option_map};
    ghost use Rattle.std.specs.Prelude.{option_copied, slice_get, length, drop};
    ghost use Rattle.sci_words.specs.declared.limits.TheConstants.{MAX_LINES, MAX_OPERATIONS};
    ghost use Rattle.sci_cache.specs.Cache.{letter_of};
    ghost use Rattle.sci_core.specs.Network.{overtaken};
    ghost use Rattle.sci_core.specs.Node.{NodeOf};
    ghost use Rattle.sci_core.specs.Core.{core_of, lane_place, lane_of, with_lane, with_sent, node_at, opening, HasSize};
    ghost use Rattle.sci_core.specs.{Size.{size_of}, Outcome.{logs_of}, WellFormed.{IsWellFormed}};

    /// Where a lane stands among all: in the order of kinds, then of senders, then of receivers.
    fn place(&self, kind: LaneKind, from: usize, to: usize) -> usize
        requires from { from < self.now.size.nodes }
        requires to { to < self.now.size.nodes }
        ensures place { result ≡ lane_place self.now.size.nodes kind from to }
        ensures below { result < 2 * self.now.size.nodes * self.now.size.nodes }
    {
        let nodes = usize::from(self.extent.nodes);
        (kind.index() * nodes + from) * nodes + to
    }

    /// All lines Out and HOME with zero words at version 0, and all else empty. Refused if memory is.
    pub(crate) fn new(alloc: Global, extent: Extent, limit: u32) -> Result<State, AllocError>
        requires some { 1 ≤ limit }
        requires few { limit ≤ MAX_OPERATIONS }
        ensures { IfOk result (λ state. state ≡ opening (size_of extent limit)) }
    {
        let mut nodes = Vec::with_capacity(alloc, usize::from(extent.nodes))?;
        for me in 0..extent.nodes {
            nodes.push(Node::new(alloc, me, extent, limit)?)?;
        }
        let count = 2 * usize::from(extent.nodes) * usize::from(extent.nodes);
        let mut lanes = Vec::with_capacity(alloc, count)?;
        for _place in 0..count {
            lanes.push(Lane::new(alloc))?;
        }
        Ok(State {
            extent,
            limit,
            nodes,
            lanes,
        })
    }

    /// These nodes and lanes.
    pub(crate) fn of_parts(extent: Extent, limit: u32, nodes: Vec<Node>, lanes: Vec<Lane>) -> State
        requires { HasSize (core_of extent limit nodes.items lanes.items) }
        ensures { result ≡ core_of extent limit nodes.items lanes.items }
    {
        State {
            extent,
            limit,
            nodes,
            lanes,
        }
    }

    /// The logs of all nodes; those beyond the machine's are empty. Takes no memory.
    pub(crate) fn into_logs(self, alloc: Global) -> Logs
        requires { IsWellFormed self }
        ensures { result ≡ logs_of self }
    {
        let mut logs = Logs::new(alloc);
        for node in self.nodes {
            logs.put(node.me(), node.into_log());
        }
        logs
    }

    /// A copy of all nodes and lanes. Refused if memory is.
    pub(crate) fn try_clone(&self, alloc: Global) -> Result<State, AllocError>
        ensures { IfOk result (λ state. state ≡ self.now) }
    {
        let mut nodes = Vec::with_capacity(alloc, self.nodes.len())?;
        for node in &self.nodes {
            nodes.push(node.try_clone(alloc)?)?;
        }
        let mut lanes = Vec::with_capacity(alloc, self.lanes.len())?;
        for lane in &self.lanes {
            lanes.push(lane.try_clone(alloc)?)?;
        }
        Ok(State {
            extent: self.extent,
            limit: self.limit,
            nodes,
            lanes,
        })
    }

    /// How many nodes, lines and version slots there are.
    pub(crate) fn extent(&self) -> Extent
        ensures nodes { result.nodes ≡ self.now.size.nodes }
        ensures lines { result.lines ≡ self.now.size.lines }
        ensures slots { result.slots ≡ self.now.size.slots }
    {
        self.extent
    }

    /// How many operations each node may issue.
    pub(crate) fn limit(&self) -> u32
        ensures { result ≡ self.now.size.limit }
    {
        self.limit
    }

    /// How many nodes there are.
    pub(crate) fn nodes(&self) -> u8
        ensures nodes { result ≡ self.now.size.nodes }
        ensures sizes { HasSize self.now }
    {
        self.extent.nodes
    }

    /// How many lines there are.
    pub(crate) fn lines(&self) -> u8
        ensures lines { result ≡ self.now.size.lines }
        ensures some { 1 ≤ result }
        ensures few { result ≤ MAX_LINES }
    {
        self.extent.lines
    }

    /// A node.
    pub(crate) fn node(&self, n: u8) -> &Node
        requires { n < self.now.size.nodes }
        ensures { result.now ≡ node_at self.now n }
    {
        &self.nodes[usize::from(n)]
    }

    /// A lane.
    pub(crate) fn lane(&self, kind: LaneKind, from: u8, to: u8) -> &Lane
        requires from { from < self.now.size.nodes }
        requires to { to < self.now.size.nodes }
        ensures { result.now ≡ lane_of self.now kind from to }
    {
        let place = self.place(kind, usize::from(from), usize::from(to));
        &self.lanes[place]
    }

    /// Sends a packet: it ends the lane to its target. Unchanged if memory is refused.
    pub(crate) fn send(
        &mut self,
        kind: LaneKind,
        from: u8,
        packet: &Packet,
    ) -> Result<(), AllocError>
        requires from { from < self.old.size.nodes }
        requires to { packet.now.target < self.old.size.nodes }
        ensures ok { OnOk result (self.new ≡ with_sent self.old kind from (letter_of packet.now)) }
        ensures err { OnErr result (self.new ≡ self.old) }
    {
        let place = self.place(kind, usize::from(from), usize::from(packet.target.get()));
        self.lanes[place].send(packet)
    }

    /// Brings a packet of a lane before the others, if there is one at this place.
    pub(crate) fn bring_forward(&mut self, kind: LaneKind, from: u8, to: u8, place: usize)
        requires from { from < self.old.size.nodes }
        requires to { to < self.old.size.nodes }
        ensures { self.new ≡ overtaken self.old (lane_place self.old.size.nodes kind from to) place }
    {
        let lane = self.place(kind, usize::from(from), usize::from(to));
        self.lanes[lane].bring_forward(place);
    }

    /// Takes the oldest packet of a lane away, if there is one.
    pub(crate) fn drop_front(&mut self, kind: LaneKind, from: u8, to: u8)
        requires from { from < self.old.size.nodes }
        requires to { to < self.old.size.nodes }
        ensures { self.new
            ≡ with_lane self.old (lane_place self.old.size.nodes kind from to)
            (drop 1 (lane_of self.old kind from to)) }
    {
        let place = self.place(kind, usize::from(from), usize::from(to));
        let _taken = self.lanes[place].take();
    }
}
