//! An end of the lanes: one node, with its seat at the table.

use crate::cell::{CellId, first_places};
use crate::event::{make_sending, make_taking};
use crate::seat::NodeSeat;
use sci_core::{LaneKind, Node};
use sci_history::Entry;
use sci_packets::Packet;
use sci_words::{Event, LANE_CELLS, Op};
use std::alloc::{AllocError, Global};
use std::marker::{Brand, Model};

/// A value that has an end of the lanes, and maybe more.
pub trait HasEnd {
    ghost use Rattle.std.specs.Prelude.{◌≡◌};
    ghost use Rattle.sci_lanes.specs.Ends.{EndOf};

    ghost end_of: { Self → EndOf };

    /// The end.
    fn end(&self) -> &LaneEnd
        ensures { result.now ≡ end_of self.now };

    /// Gives the end away, and drops what else there is.
    fn into_end(self) -> LaneEnd
        ensures { result ≡ end_of self };
}

impl HasEnd for LaneEnd {
    ghost end_of = { λ end. end };

    fn end(&self) -> &LaneEnd {
        self
    }

    fn into_end(self) -> LaneEnd {
        self
    }
}

/// A node, and its end of every lane that it sends or receives in. Contracts see the table that it is of, and what it
/// knows.
#[derive(Drop)]
pub struct LaneEnd {
    seat: NodeSeat,
    node: Node,
    me: u8,
    nodes: u8,
    /// For each lane the number of the cell into which the node sends next, 0 to 3.
    turns: Vec<u8>,
    /// For each lane to the node the number of the cell from which it takes next, 0 to 3.
    inbox_turns: Vec<u8>,
    /// Where each of these cells begins in the table.
    inbox_places: Vec<usize>,
}

impl Model for LaneEnd {
    ghost use Rattle.sci_lanes.specs.Ends.{ArePlaces, EndOf, FitsInside};

    ghost Value = { EndOf };

    ghost view = { λ end. end.seat };

    ghost invariant = { λ end.
        FitsInside end.seat.part end.node end.me end.nodes end.turns.items end.inbox_turns.items
        × ArePlaces end.nodes end.me end.inbox_turns.items end.inbox_places.items };
}

impl LaneEnd {
    ghost use Rattle.std.specs.Prelude.{◌≡◌, ◌≢◌, ◌<◌, ◌≤◌, ◌*◌, ◌⊎◌, [], IfOk, IfSome, Some, None, length, replicate};
    ghost use Rattle.sci_words.specs.declared.limits.TheConstants.{LANE_CELLS};
    ghost use Rattle.sci_lanes.specs.{Cells.{lane_count}, Shown.{inbound_at, IsSeen, me_of}, Gathering.{HasTurns}};
    ghost use Rattle.sci_lanes.specs.Telling.{IsMade, IsSameNode, IsShown, IsTaken, SomeLineWaits, state_of};
    ghost use Rattle.sci_lanes.specs.Ends.{FitsInside, HasIssued, HasPerformed, IsNextToSend, IsNextToTake, IsPlaceOf, LooksFor, MayBeat, MayFill, MayFree};
    ghost use Rattle.sci_lanes.specs.Ends.{MayPublish, MayRead, after_event, beaten, filled_at, freed_at, informed_at, lane_at_cell, looked_at, nodes_in};
    ghost use Rattle.sci_lanes.specs.Ends.{published_at, read_at, taken_by};
    ghost use Rattle.sci_packets.specs.Spelling.{SpellsInWords};
    ghost use Rattle.sci_cache.specs.Cache.{letter_of};
    ghost use Rattle.sci_core.specs.{declared.lane.LaneKind.TheVariants.{Requests}, Core.{lane_of, side}};
    ghost use Rattle.sci_core.specs.Node.{node_issuing, node_performing};

    /// The end of a node in a machine of this many nodes, in which nothing was done yet. Refused if memory is.
    pub(crate) fn new(
        alloc: Global,
        seat: NodeSeat,
        node: Node,
        nodes: u8,
    ) -> Result<LaneEnd, AllocError>
        requires { FitsInside seat.part node node.cache.me nodes (replicate (lane_count nodes) 0)
            (replicate (2 * nodes) 0) }
        ensures { IfOk result (λ end. end ≡ seat) }
    {
        let pairs = usize::from(nodes) * usize::from(nodes);
        let turns = vec![in alloc; 0; 2 * pairs]?;
        let inbox_turns = vec![in alloc; 0; 2 * usize::from(nodes)]?;
        let me = node.me();
        let inbox_places = first_places(alloc, me, nodes)?;
        Ok(LaneEnd {
            seat,
            node,
            me,
            nodes,
            turns,
            inbox_turns,
            inbox_places,
        })
    }

    /// The end in parts: its seat, its node, and for each lane to it the number of the cell from which it takes next.
    pub(crate) fn into_parts(self) -> (NodeSeat, Node, Vec<u8>)
        ensures seat { result.0 ≡ self }
        ensures node { result.1 ≡ self.part.node }
        ensures turns { HasTurns (nodes_in self.part) self.part result.2.items }
    {
        let LaneEnd {
            seat,
            node,
            inbox_turns,
            ..
        } = self;
        (seat, node, inbox_turns)
    }

    /// The node. It is one of a state where a schedule leads.
    pub fn node(&self) -> &Node
        ensures node { result.now ≡ self.now.part.node }
        ensures shown { IsShown self.now.part }
    {
        &self.node
    }

    /// The node's number.
    pub fn me(&self) -> u8
        ensures { result ≡ me_of self.now.part }
    {
        self.me
    }

    /// How many nodes the machine has.
    pub fn nodes(&self) -> u8
        ensures { result ≡ nodes_in self.now.part }
    {
        self.nodes
    }

    /// The cell into which the node sends next in its lane of a kind to another. Requires that there is such
    /// a node.
    pub fn next_to_send(&self, kind: LaneKind, to: u8) -> CellId
        requires { to < nodes_in self.now.part }
        ensures cell { (result.kind ≡ kind) × (result.receiver ≡ to) }
        ensures next { IsNextToSend self.now.part result }
    {
        let cell = CellId {
            kind,
            sender: self.me,
            receiver: to,
            number: 0,
        };
        let number = self.turns[cell.lane(self.nodes)];
        CellId { number, ..cell }
    }

    /// The cell from which the node takes next in the lane of a kind from another. Requires that there is
    /// such a node.
    pub fn next_to_take(&self, kind: LaneKind, from: u8) -> CellId
        requires { from < nodes_in self.now.part }
        ensures cell { (result.kind ≡ kind) × (result.sender ≡ from) }
        ensures next { IsNextToTake self.now.part result }
    {
        let cell = CellId {
            kind,
            sender: from,
            receiver: self.me,
            number: 0,
        };
        let number = self.inbox_turns[cell.inbox(self.nodes)];
        CellId { number, ..cell }
    }

    /// Looks at the first word of the cell from which the node takes next in the lane of a kind from another, and gives it:
    /// 0 if the cell is empty. Requires that there is such a node. It is quicker than `look`, since the end
    /// remembers where these cells stand. If the cell is empty, so is the lane.
    pub fn look_for(&mut self, kind: LaneKind, from: u8) -> u64
        requires { from < nodes_in self.old.part }
        ensures looked { LooksFor kind from result self.old self.new }
        ensures shown { IsShown self.new.part }
        ensures empty { result ≡ 0 → lane_of (state_of self.new.part) kind from (me_of self.new.part) ≡ [] }
    {
        let cell = self.next_to_take(kind, from);
        let place = self.inbox_places[cell.inbox(self.nodes)];
        self.seat.look(&cell, self.nodes, place)
    }

    /// Looks at the first word of a cell, and gives it: 0 if the cell is empty. Requires that the cell is
    /// the next to send into, or the next to take from. A sender that finds a cell full knows that its lane is, and if it
    /// is one of requests, that some line of its node awaits an answer.
    pub fn look(&mut self, cell: CellId) -> u64
        requires { IsNextToSend self.old.part cell ⊎ IsNextToTake self.old.part cell }
        ensures part { self.new ≡ informed_at self.new.part.schedule (looked_at cell result self.old) }
        ensures seen { IsSeen self.old.part self.new.part.schedule }
        ensures shown { IsShown self.new.part }
        ensures waits { cell.kind ≡ Requests → IsNextToSend self.old.part cell → result ≢ 0 →
            SomeLineWaits self.new.part.node }
        ensures full { IsNextToSend self.old.part cell → result ≢ 0 → LANE_CELLS ≤ length
            (lane_of (state_of self.new.part) cell.kind (me_of self.new.part) cell.receiver) }
    {
        self.seat.look(&cell, self.nodes, cell.place(self.nodes, 0))
    }

    /// Stores a word, with its number in the cell, into the next cell to send into. Requires that the cell is
    /// known to be empty, and that the words before this one are filled, all but the first. Words that were filled after
    /// it no longer count.
    pub fn fill(&mut self, cell: CellId, index: usize, word: u64)
        requires { MayFill self.old.part cell index }
        ensures part { self.new ≡ informed_at self.new.part.schedule (filled_at cell index word self.old) }
        ensures seen { IsSeen self.old.part self.new.part.schedule }
        ensures shown { IsShown self.new.part }
    {
        let place = self.place_of(cell);
        self.fill_at(cell, index, place, word);
    }

    /// Where the first word of a cell stands in the table: a sender or receiver of several words asks for it once, and
    /// says it with each word.
    pub fn place_of(&self, cell: CellId) -> usize
        ensures { IsPlaceOf self.now.part cell result }
    {
        cell.place(self.nodes, 0)
    }

    /// The same as `fill`, for a caller that knows the place of the cell. Requires besides that this is it.
    #[inline(always)]
    pub fn fill_at(&mut self, cell: CellId, index: usize, place: usize, word: u64)
        requires may { MayFill self.old.part cell index }
        requires place { IsPlaceOf self.old.part cell place }
        ensures part { self.new ≡ informed_at self.new.part.schedule (filled_at cell index word self.old) }
        ensures seen { IsSeen self.old.part self.new.part.schedule }
        ensures shown { IsShown self.new.part }
    {
        self.seat.fill(&cell, index, place + index, word);
    }

    /// Loads the word with this number of the next cell to take from. Requires that the words before it were
    /// found. Words that were found after it no longer count.
    pub fn read_word(&mut self, cell: CellId, index: usize) -> u64
        requires { MayRead self.old.part cell index }
        ensures part { self.new ≡ informed_at self.new.part.schedule (read_at cell index result self.old) }
        ensures seen { IsSeen self.old.part self.new.part.schedule }
        ensures shown { IsShown self.new.part }
    {
        let place = self.place_of(cell);
        self.read_at(cell, index, place)
    }

    /// The same as `read_word`, for a caller that knows the place of the cell. Requires besides that this is it.
    #[inline(always)]
    pub fn read_at(&mut self, cell: CellId, index: usize, place: usize) -> u64
        requires may { MayRead self.old.part cell index }
        requires place { IsPlaceOf self.old.part cell place }
        ensures part { self.new ≡ informed_at self.new.part.schedule (read_at cell index result self.old) }
        ensures seen { IsSeen self.old.part self.new.part.schedule }
        ensures shown { IsShown self.new.part }
    {
        self.seat.read(&cell, index, place + index)
    }

    /// Stores the first word of a packet whose other words are filled, into the next cell to send into: from this moment
    /// the packet is under way. Requires that the cell is known to be empty, and that the packet is the one
    /// that this event of the node sends, to the receiver of the cell. The node makes its side of the event.
    pub fn publish(&mut self, cell: CellId, first: u64, event: &Event)
        requires { MayPublish self.old.part cell first event.now }
        ensures part { self.new ≡ informed_at self.new.part.schedule
            (published_at cell (after_event self.old event.now) self.old) }
        ensures made { IsMade self.old.part event.now self.new.part.schedule }
        ensures same { IsSameNode self.old.part self.new.part }
        ensures shown { IsShown self.new.part }
    {
        make_sending(&mut self.node, event);
        self.seat
            .publish::<Brand>(&cell, self.nodes, first, event, &self.node);
        let lane = cell.lane(self.nodes);
        self.turns[lane] = (cell.number + 1) % LANE_CELLS;
    }

    /// Stores 0 to the first word of the next cell to take from: from this moment the packet that was found there is
    /// taken. Requires that all its words were found, and that this event of the node takes it, and gives the
    /// packet that the words spell. The node makes its side of the event.
    #[inline(always)]
    pub fn free(&mut self, cell: CellId, event: &Event, packet: &Packet)
        requires may { MayFree self.old.part cell event.now }
        requires spelled { SpellsInWords packet.now
            (inbound_at self.old.part (lane_at_cell self.old.part cell)).found }
        ensures part { self.new ≡ informed_at self.new.part.schedule (freed_at cell self.new.part.node self.old) }
        ensures oldest { IsTaken self.old.part (lane_at_cell self.old.part cell) event.now
            self.new.part.schedule }
        ensures taken { taken_by (side self.old.part.node event.now) (letter_of packet.now)
            ≡ Some self.new.part.node }
        ensures same { IsSameNode self.old.part self.new.part }
        ensures shown { IsShown self.new.part }
    {
        make_taking(&mut self.node, event, packet);
        self.seat
            .free::<Brand>(&cell, self.nodes, event, &self.node);
        let place = cell.inbox(self.nodes);
        let number = (cell.number + 1) % LANE_CELLS;
        self.inbox_turns[place] = number;
        self.inbox_places[place] = CellId { number, ..cell }.place(self.nodes, 0);
    }

    /// Issues an operation at the node, and gives its serial: the count of operations issued before. None, unchanged, if the
    /// node can't issue it.
    #[inline(always)]
    pub fn issue(&mut self, op: Op) -> Option<u32>
        ensures issued { IfSome result (λ serial. HasIssued self.old op serial self.new) }
        ensures none { result ≡ None → node_issuing self.old.part.node op ≡ None }
        ensures unchanged { result ≡ None → self.new ≡ self.old }
        ensures same { IsSameNode self.old.part self.new.part }
        ensures shown { IsShown self.new.part }
    {
        let serial = self.node.issue(op)?;
        let event = Event::Issue { node: self.me, op };
        self.seat
            .beat::<Brand>(self.me, self.nodes, &event, &self.node);
        Some(serial)
    }

    /// Performs the operation that is pending on a line at the node, and gives its entry, which now ends the log. None,
    /// unchanged, if none is pending there or the line's state doesn't allow it.
    #[inline(always)]
    pub fn perform(&mut self, line: u8) -> Option<Entry>
        ensures performed { IfSome result (λ entry. HasPerformed self.old line entry self.new) }
        ensures none { result ≡ None → node_performing self.old.part.node line ≡ None }
        ensures unchanged { result ≡ None → self.new ≡ self.old }
        ensures same { IsSameNode self.old.part self.new.part }
        ensures shown { IsShown self.new.part }
    {
        let entry = self.node.perform(line)?;
        let event = Event::Perform {
            node: self.me,
            line,
        };
        self.seat
            .beat::<Brand>(self.me, self.nodes, &event, &self.node);
        Some(entry)
    }

    /// Makes an event of the node that concerns no lane: an Issue or a Perform. Requires that it is enabled.
    pub fn beat(&mut self, event: &Event)
        requires { MayBeat self.old.part event.now }
        ensures part { self.new ≡ informed_at self.new.part.schedule
            (beaten (after_event self.old event.now) self.old) }
        ensures made { IsMade self.old.part event.now self.new.part.schedule }
        ensures same { IsSameNode self.old.part self.new.part }
        ensures shown { IsShown self.new.part }
    {
        match *event {
            Event::Issue { op, .. } => {
                self.issue(op);
            }
            Event::Perform { line, .. } => {
                self.perform(line);
            }
            _ => unreachable!(),
        }
    }
}
