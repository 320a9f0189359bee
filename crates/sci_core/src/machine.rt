//! The machine: any list of single events, applied one after another.

use crate::fault::ApplyFault;
use crate::lane::{Lane, LaneKind};
use crate::node::Node;
use crate::obstacle::Obstacle;
use crate::sharing_list::Sharing;
use crate::state::State;
use sci_history::{Entry, Last, Logs};
use sci_packets::Packet;
use sci_words::{Event, Extent, Op, Stamped};
use std::alloc::{AllocError, Global};
use std::marker::Model;

/// A machine of nodes, homes and lanes, in a state that events lead to, over a network that may keep no order. Contracts see it
/// as that state.
#[derive(Drop)]
pub struct Machine {
    state: State,
}

impl Model for Machine {
    ghost use Rattle.sci_core.specs.{Core.{Core}, Reached.{IsReached}};

    ghost Value = { Core };

    ghost view = { λ machine. machine.state };

    ghost invariant = { λ machine. IsReached machine.state };
}

impl Machine {
    ghost use Rattle.std.specs.Prelude.{◌≡◌, ◌<◌, ◌≤◌, ℕ, Some, None, IfSome, IfOk, IfErr, IsErr, OnOk, OnErr, option_map, option_copied, slice_get};
    ghost use Rattle.std.specs.Prelude.{is_none, is_some, length};
    ghost use Rattle.sci_words.specs.declared.limits.TheConstants.{MAX_OPERATIONS};
    ghost use Rattle.sci_words.specs.declared.event.Event.TheVariants.{Issue, Perform};
    ghost use Rattle.sci_cache.specs.Cache.{letter_of};
    ghost use Rattle.sci_core.specs.Core.{IsEnabled, core_of, lane_of, node_at, opening, step, stepping, run_from};
    ghost use Rattle.sci_core.specs.{Core.{lane_place}, Dead.{obstacle_if_dead}, Network.{overtaken}};
    ghost use Rattle.sci_core.specs.{Node.{node_issuing, node_performing}, Fault.{IsFaultOf}, Size.{size_of}};
    ghost use Rattle.sci_core.specs.{Reached.{IsReached}, Stopped.{IsStoppedAt}, Coherent.{IsCoherent}};
    ghost use Rattle.sci_core.specs.{Done.{LastChanges, made_by}, Outcome.{logs_of}, Sharing.{last_at, last_of}};
    ghost use Rattle.sci_core.specs.{Shape.{IsAuthority}, SharingList.{IsSharingList}, Work.{IsIssued, IsLogged}};
    ghost use Rattle.sci_history.specs.{Audit.{AreWithin}, Lawful.{Lawful}, Sequential.{IsSequentiallyConsistent}};

    /// A machine of this size in which no line was touched: all lines are HOME with zero words at version 0, and
    /// all else is empty. Each node may issue `limit` operations. Requires that this is 1 to
    /// 65,536. Refused if memory is.
    pub fn new(alloc: Global, extent: Extent, limit: u32) -> Result<Machine, AllocError>
        requires some { 1 ≤ limit }
        requires few { limit ≤ MAX_OPERATIONS }
        ensures opening { IfOk result (λ machine. machine ≡ opening (size_of extent limit)) }
        ensures reached { IfOk result IsReached }
        ensures coherent { IfOk result IsCoherent }
    {
        Ok(Machine {
            state: State::new(alloc, extent, limit)?,
        })
    }

    /// Applies an event. Unchanged on refusal: NotEnabled exactly if the event is not enabled, and Memory
    /// only for an Ask or a Reply that is enabled, if its lane could not grow. A Perform answers on its line's
    /// last contents, and changes them as its operation says; no other event changes the last contents of a line.
    pub fn apply(&mut self, event: &Event) -> Result<(), ApplyFault>
        ensures done { IfOk result (λ _. stepping self.old event.now ≡ Some self.new) }
        ensures refused { IfErr result (IsFaultOf (stepping self.old event.now) event.now) }
        ensures same { IsErr result → self.new ≡ self.old }
        ensures effect { IfOk result
            (λ _. LastChanges self.old self.new (made_by self.old event.now)) }
        ensures size { self.new.size ≡ self.old.size }
        ensures coherent { IsCoherent self.new }
    {
        self.state.apply(event)
    }

    /// Applies an event of a schedule, and gives what stands in its way if it isn't enabled: it changes nothing then.
    /// Unchanged if memory is refused, as it can be for an Ask or a Reply alone.
    pub fn step(&mut self, event: &Event) -> Result<Option<Obstacle>, AllocError>
        ensures ok { OnOk result (self.new ≡ step self.old event.now) }
        ensures obstacle { IfOk result (λ obstacle. obstacle ≡ obstacle_if_dead self.old event.now) }
        ensures enabled { IfOk result (λ obstacle. is_none obstacle ≡ is_some (stepping self.old event.now)) }
        ensures err { OnErr result (self.new ≡ self.old) }
        ensures size { self.new.size ≡ self.old.size }
        ensures coherent { IsCoherent self.new }
    {
        match self.apply(event) {
            Ok(()) => Ok(None),
            Err(ApplyFault::NotEnabled) => Ok(self.obstacle_to(event)),
            Err(ApplyFault::Memory(refused)) => Err(refused),
        }
    }

    /// Makes an event. Requires that it is enabled. Unchanged if memory is refused, as it can be for an Ask or a Reply alone.
    pub fn make(&mut self, event: &Event) -> Result<(), AllocError>
        requires { IsEnabled self.old event.now }
        ensures ok { OnOk result (stepping self.old event.now ≡ Some self.new) }
        ensures err { OnErr result (self.new ≡ self.old) }
        ensures size { self.new.size ≡ self.old.size }
        ensures coherent { IsCoherent self.new }
    {
        match self.apply(event) {
            Ok(()) => Ok(()),
            Err(ApplyFault::Memory(refused)) => Err(refused),
            Err(ApplyFault::NotEnabled) => unreachable!(),
        }
    }

    /// Issues an operation at a node, as the event Issue does, and gives its serial: the count of operations issued there
    /// before. Requires that there is such a node. None, unchanged, if the Issue is not enabled.
    pub fn issue(&mut self, node: u8, op: Op) -> Option<u32>
        requires { node < self.old.size.nodes }
        ensures done { IfSome result (λ serial. stepping self.old (Issue node op) ≡ Some self.new) }
        ensures issued { IfSome result
            (λ serial. node_issuing (node_at self.old node) op ≡ Some (node_at self.new node)) }
        ensures serial { IfSome result (λ serial. serial ≡ (node_at self.old node).issued) }
        ensures pending { IfSome result
            (λ serial. IsIssued (node_at self.old node) (node_at self.new node) op) }
        ensures none { result ≡ None → node_issuing (node_at self.old node) op ≡ None }
        ensures not { result ≡ None → stepping self.old (Issue node op) ≡ None }
        ensures same { result ≡ None → self.new ≡ self.old }
        ensures size { self.new.size ≡ self.old.size }
        ensures coherent { IsCoherent self.new }
    {
        self.state.issue(node, op)
    }

    /// Performs the operation that is pending on a line at a node, as the event Perform does, and gives its entry, which now
    /// ends the node's log. Requires that there is such a node. None, unchanged, if the Perform is not enabled.
    pub fn perform(&mut self, node: u8, line: u8) -> Option<Entry>
        requires { node < self.old.size.nodes }
        ensures done { IfSome result (λ entry. stepping self.old (Perform node line) ≡ Some self.new) }
        ensures performed { IfSome result (λ entry.
            node_performing (node_at self.old node) line ≡ Some (node_at self.new node, entry)) }
        ensures logged { IfSome result
            (λ entry. IsLogged (node_at self.old node) (node_at self.new node) line entry) }
        ensures none { result ≡ None → node_performing (node_at self.old node) line ≡ None }
        ensures not { result ≡ None → stepping self.old (Perform node line) ≡ None }
        ensures same { result ≡ None → self.new ≡ self.old }
        ensures size { self.new.size ≡ self.old.size }
        ensures coherent { IsCoherent self.new }
    {
        self.state.perform(node, line)
    }

    /// The network brings a packet of a lane before those that were sent earlier: the one at this place, counted from the
    /// oldest, if there is one; else nothing changes. So it is the next that its receiver takes. Requires that there are such
    /// nodes.
    pub fn bring_forward(&mut self, kind: LaneKind, from: u8, to: u8, place: usize)
        requires from { from < self.old.size.nodes }
        requires to { to < self.old.size.nodes }
        ensures overtaken { self.new
            ≡ overtaken self.old (lane_place self.old.size.nodes kind from to) place }
        ensures effect { LastChanges self.old self.new None }
        ensures size { self.new.size ≡ self.old.size }
        ensures coherent { IsCoherent self.new }
    {
        self.state.bring_forward(kind, from, to, place);
    }

    /// Applies events in their order; those that are not enabled change nothing. If memory is refused, the
    /// machine stands where the events before the refused one lead.
    pub fn run(&mut self, events: &[Event]) -> Result<(), AllocError>
        ensures ok { OnOk result (self.new ≡ run_from self.old events.now) }
        ensures err { IsErr result → IsStoppedAt self.old self.new events.now }
        ensures size { self.new.size ≡ self.old.size }
        ensures coherent { IsCoherent self.new }
    {
        for event in events {
            match self.apply(event) {
                Ok(()) | Err(ApplyFault::NotEnabled) => {}
                Err(ApplyFault::Memory(refused)) => return Err(refused),
            }
        }
        // Read once more, so that the prover knows that the state is reached.
        let _reached = &self.state;
        Ok(())
    }

    /// The machine of these parts, which are together a state that some schedule leads to: the condition says so.
    /// `nodes` are the nodes in order; `lanes` are those of requests and then those of answers, for each sender in
    /// order the lanes to each receiver in order.
    pub fn of_parts(extent: Extent, limit: u32, nodes: Vec<Node>, lanes: Vec<Lane>) -> Machine
        requires { IsReached (core_of extent limit nodes.items lanes.items) }
        ensures parts { result ≡ core_of extent limit nodes.items lanes.items }
        ensures coherent { IsCoherent result }
    {
        Machine {
            state: State::of_parts(extent, limit, nodes, lanes),
        }
    }

    /// A copy of the machine, whose logs have room for as many operations. Refused if memory is.
    pub fn try_clone(&self, alloc: Global) -> Result<Machine, AllocError>
        ensures { IfOk result (λ machine. machine ≡ self.now) }
    {
        Ok(Machine {
            state: self.state.try_clone(alloc)?,
        })
    }

    /// The size of the machine.
    pub fn extent(&self) -> Extent
        ensures nodes { result.nodes ≡ self.now.size.nodes }
        ensures lines { result.lines ≡ self.now.size.lines }
        ensures slots { result.slots ≡ self.now.size.slots }
        ensures reached { IsReached self.now }
    {
        self.state.extent()
    }

    /// How many operations each node may issue.
    pub fn limit(&self) -> u32
        ensures { result ≡ self.now.size.limit }
    {
        self.state.limit()
    }

    /// A node. Requires that there is such a node.
    pub fn node(&self, n: u8) -> &Node
        requires { n < self.now.size.nodes }
        ensures node { result.now ≡ node_at self.now n }
        ensures reached { IsReached self.now }
    {
        self.state.node(n)
    }

    /// A lane. Requires that there are such nodes.
    pub fn lane(&self, kind: LaneKind, from: u8, to: u8) -> &Lane
        requires from { from < self.now.size.nodes }
        requires to { to < self.now.size.nodes }
        ensures { result.now ≡ lane_of self.now kind from to }
    {
        self.state.lane(kind, from, to)
    }

    /// The oldest packet of a lane, or None if it has none. Requires that there are such nodes.
    pub fn front(&self, kind: LaneKind, from: u8, to: u8) -> Option<&Packet>
        requires from { from < self.now.size.nodes }
        requires to { to < self.now.size.nodes }
        ensures front { option_map letter_of (option_copied result)
            ≡ slice_get (lane_of self.now kind from to) 0 }
    {
        self.state.lane(kind, from, to).front()
    }

    /// How many packets a lane has. Requires that there are such nodes.
    pub fn count(&self, kind: LaneKind, from: u8, to: u8) -> usize
        requires from { from < self.now.size.nodes }
        requires to { to < self.now.size.nodes }
        ensures { result ≡ length (lane_of self.now kind from to) }
    {
        self.state.lane(kind, from, to).count()
    }

    /// The logs of all nodes; those beyond the machine's are empty. With the last contents they are lawful, as an
    /// audit finds, and sequentially consistent. Refused if memory is.
    pub fn logs(&self, alloc: Global) -> Result<Logs, AllocError>
        ensures logs { IfOk result (λ logs. logs ≡ logs_of self.now) }
        ensures within { IfOk result (AreWithin self.now.size.lines) }
        ensures lawful { IfOk result (λ logs. Lawful logs (last_of self.now)) }
        ensures consistent { IfOk result (λ logs. IsSequentiallyConsistent logs (last_of self.now)) }
        ensures reached { IsReached self.now }
    {
        let mut logs = Logs::new(alloc);
        for n in 0..self.state.nodes() {
            logs.put(n, Vec::from_slice(alloc, self.state.node(n).log())?);
        }
        Ok(logs)
    }

    /// The sharing list of a line: the numbers of its members, each once, from the home's head along their links.
    /// Requires that there is such a line. Refused if memory is.
    pub fn sharing_list(&self, alloc: Global, line: u8) -> Result<Vec<u8>, AllocError>
        requires { line < self.now.size.lines }
        ensures { IfOk result (λ nodes. IsSharingList self.now line nodes.items) }
    {
        Ok(self.sharing(alloc, line)?.nodes)
    }

    /// The sharing list of a line, the one node that may change it or is about to, and its last contents: what
    /// `sharing_list`, `authority` and `last_contents` give, found in one walk along the list. Requires that
    /// there is such a line. Refused if memory is.
    pub fn sharing(&self, alloc: Global, line: u8) -> Result<Sharing, AllocError>
        requires { line < self.now.size.lines }
        ensures list { IfOk result (λ sharing. IsSharingList self.now line sharing.nodes.items) }
        ensures here { IfOk result (λ sharing.
            IfSome sharing.authority (λ n. n < self.now.size.nodes)) }
        ensures found { IfOk result (λ sharing.
            IfSome sharing.authority (IsAuthority self.now line)) }
        ensures none { IfOk result (λ sharing. sharing.authority ≡ None → (n : ℕ) →
            n < self.now.size.nodes → IsAuthority self.now line n → ⊥) }
        ensures last { IfOk result (λ sharing. sharing.last ≡ last_at self.now line) }
    {
        self.state.sharing(alloc, line)
    }

    /// The one node that may change a line or is about to, or None if the home has the line alone.
    /// Requires that there is such a line.
    pub fn authority(&self, line: u8) -> Option<u8>
        requires { line < self.now.size.lines }
        ensures here { IfSome result (λ n. n < self.now.size.nodes) }
        ensures found { IfSome result (IsAuthority self.now line) }
        ensures none { result ≡ None → (n : ℕ) → n < self.now.size.nodes
            → IsAuthority self.now line n → ⊥ }
    {
        self.state.first_authority(line)
    }

    /// The last contents of a line, as in `last`. Requires that there is such a line.
    pub fn last_contents(&self, line: u8) -> Stamped
        requires { line < self.now.size.lines }
        ensures { result ≡ last_at self.now line }
    {
        self.state.last_at(line)
    }

    /// The last contents of each line: its home's if nobody may have written since, and else those of the one
    /// node that may change the line or is about to. The logs are lawful with them, and sequentially consistent.
    pub fn last(&self) -> Last
        ensures last { result ≡ last_of self.now }
        ensures lines { length result ≡ self.now.size.lines }
        ensures lawful { Lawful (logs_of self.now) result }
        ensures consistent { IsSequentiallyConsistent (logs_of self.now) result }
        ensures reached { IsReached self.now }
    {
        let lines = self.state.lines();
        let mut last = Last::zero(lines);
        for line in 0..lines {
            last.set(line, self.state.last_at(line));
        }
        last
    }

    /// Ends the machine, and gives its logs and its last contents, which are those of `logs` and `last`. Takes no memory.
    pub fn finish(self, alloc: Global) -> (Logs, Last)
        ensures logs { result.0 ≡ logs_of self }
        ensures last { result.1 ≡ last_of self }
        ensures within { AreWithin self.size.lines result.0 }
        ensures lines { length result.1 ≡ self.size.lines }
        ensures lawful { Lawful result.0 result.1 }
        ensures consistent { IsSequentiallyConsistent result.0 result.1 }
    {
        let last = self.last();
        (self.state.into_logs(alloc), last)
    }
}
