//! Gathering: all ends are joined, and the state that their lanes show is read.

use crate::cell::{CELL_WORDS, own_word};
use crate::end::HasEnd;
use crate::lanes::Lanes;
use crate::rule::{Gather, LaneTable};
use crate::view::View;
use atomic_table::Seat;
use sci_core::{Lane, Machine, Node};
use sci_history::{Last, Logs};
use sci_packets::{Packet, from_words};
use sci_words::LANE_CELLS;
use std::alloc::{AllocError, Global};
use std::collections::VecDeque;

/// Why the ends can't be gathered.
#[derive(Clone, Copy, Debug, PartialEq, Eq)]
pub enum FinishFault {
    /// They are not the ends of all nodes, each once.
    Missing,
    /// Memory was refused.
    Memory,
}

impl Lanes {
    ghost use Rattle.std.specs.Prelude.{◌≡◌, IfErr, IfOk, length, map};
    ghost use Rattle.sci_history.specs.{Audit.{AreWithin}, Lawful.{Lawful}, Sequential.{IsSequentiallyConsistent}};
    ghost use Rattle.sci_lanes.specs.declared.gather.FinishFault.TheVariants.{Memory, Missing};
    ghost use Rattle.sci_lanes.specs.Gathering.{AreAll, AreGathered, AreOf, HaveLogs, IsFresh, IsStateOf};

    /// Joins the ends, and gives the machine in the state that the table shows. The ends may come in any order, and packets
    /// may still be in their lanes. Requires that they are ends of these lanes.
    ///
    /// Refused with the first of these, and then all comes back as it was:
    ///
    /// - Missing if the ends are not those of all nodes, each once.
    /// - Memory if memory is refused.
    pub fn join<E: HasEnd + Drop>(
        self,
        alloc: Global,
        ends: Vec<E>,
    ) -> Result<Machine, (FinishFault, Lanes, Vec<E>)>
        requires own { AreOf self (map E.end_of ends.items) }
        ensures state { IfOk result (IsStateOf self.size (map E.end_of ends.items)) }
        ensures all { IfOk result (λ _. AreAll self.size.nodes (map E.end_of ends.items)) }
        ensures missing { IfErr result (λ back. back.0 ≡ Missing → ¬ AreAll self.size.nodes (map E.end_of ends.items)) }
        ensures memory { IfErr result (λ back. back.0 ≡ Memory → AreAll self.size.nodes (map E.end_of ends.items)) }
        ensures lanes { IfErr result (λ back. back.1 ≡ self) }
        ensures ends { IfErr result (λ back. back.2.items ≡ ends.items) }
    {
        if !are_all(&ends, self.extent.nodes) {
            return Err((FinishFault::Missing, self, ends));
        }
        match Room::new(alloc, self.extent.nodes) {
            Ok(room) => Ok(self.read(ends, room)),
            Err(_) => Err((FinishFault::Memory, self, ends)),
        }
    }

    /// Joins the ends as `join` does, and gives the logs of all nodes, and the last contents of each line.
    pub fn gather<E: HasEnd + Drop>(
        self,
        alloc: Global,
        ends: Vec<E>,
    ) -> Result<(Logs, Last), (FinishFault, Lanes, Vec<E>)>
        requires own { AreOf self (map E.end_of ends.items) }
        ensures gathered { IfOk result
            (λ done. AreGathered self.size (map E.end_of ends.items) done.0 done.1) }
        ensures all { IfOk result (λ _. AreAll self.size.nodes (map E.end_of ends.items)) }
        ensures logs { IfOk result (λ done. HaveLogs (map E.end_of ends.items) done.0) }
        ensures within { IfOk result (λ done. AreWithin (length done.1) done.0) }
        ensures lines { IfOk result (λ done. length done.1 ≡ self.size.lines) }
        ensures lawful { IfOk result (λ done. Lawful done.0 done.1) }
        ensures consistent { IfOk result (λ done. IsSequentiallyConsistent done.0 done.1) }
        ensures missing { IfErr result (λ back. back.0 ≡ Missing → ¬ AreAll self.size.nodes (map E.end_of ends.items)) }
        ensures memory { IfErr result (λ back. back.0 ≡ Memory → AreAll self.size.nodes (map E.end_of ends.items)) }
        ensures lanes { IfErr result (λ back. back.1 ≡ self) }
        ensures ends { IfErr result (λ back. back.2.items ≡ ends.items) }
    {
        Ok(self.join(alloc, ends)?.finish(alloc))
    }

    /// Joins the ends, and reads the state that the table shows.
    fn read<E: HasEnd + Drop>(self, ends: Vec<E>, room: Room) -> Machine
        requires own { AreOf self (map E.end_of ends.items) }
        requires all { AreAll self.size.nodes (map E.end_of ends.items) }
        requires fresh { IsFresh self.size.nodes room }
        ensures { IsStateOf self.size (map E.end_of ends.items) result }
    {
        let Lanes {
            table,
            mut seat,
            extent,
            limit,
        } = self;
        let Room {
            mut nodes,
            mut inbox_turns,
            mut words,
            packets,
            mut lanes,
        } = room;
        join_all(&mut seat, ends, &mut nodes, &mut inbox_turns, extent.nodes);
        read_words(&table, &mut seat, &mut words, extent.nodes);
        read_lanes(&mut lanes, packets, &words, &inbox_turns, extent.nodes);
        Machine::of_parts(extent, limit, nodes, lanes)
    }
}

ghost use Rattle.std.specs.Prelude.{◌≡◌, ◌≢◌, ℕ, ◌+◌, ◌*◌, ◌%◌, ◌<◌, ◌≤◌, true, false, [], ◌∷◌, ◌++◌, List, length, map, None, Some, IfOk, IfSome};
ghost use Rattle.std.specs.{Prelude.{slice_get, slice_index}, List.{AllByRecursion}};
ghost use Rattle.std.specs.VecDeque.{deque_capacity, deque_len};
ghost use Rattle.sci_words.specs.declared.limits.TheConstants.{LANE_CELLS, MAX_NODES};
ghost use Rattle.sci_packets.specs.declared.packet.Packet.{Packet};
ghost use Rattle.sci_cache.specs.Cache.{letter_of};
ghost use Rattle.sci_core.specs.Size.{size_of};
ghost use Rattle.sci_lanes.specs.declared.{cell.TheConstants.{CELL_WORDS}, view.Inbound.{Inbound}};
ghost use Rattle.sci_lanes.specs.{declared.view.Outbound.{Outbound}, Cells.{lane_count, word_count}};
ghost use Rattle.sci_lanes.specs.{Shown.{Fits, me_of}, Ends.{EndOf, no_view, nodes_in}};
ghost use Rattle.sci_lanes.specs.Gathering.{AreAll, AreJoined, AreKept, AreLanes, HasEndOf, HasFour, HasNodes, HasRoom, HaveInboxTurns, IsFresh};
ghost use Rattle.sci_lanes.specs.Gathering.{IsPacketAt, IsReadOff};

/// Memory for a gathering, all of it made before the first end is joined.
struct Room {
    nodes: Vec<Node>,
    /// For each node the numbers of the cells from which it takes next, for each lane to it.
    inbox_turns: Vec<Vec<u8>>,
    words: Vec<u64>,
    /// The packets of each lane.
    packets: Vec<VecDeque<Packet>>,
    lanes: Vec<Lane>,
}

impl Room {
    /// Memory for the gathering of this many nodes.
    fn new(alloc: Global, nodes: u8) -> Result<Room, AllocError>
        requires few { nodes ≤ MAX_NODES }
        ensures fresh { IfOk result (IsFresh nodes) }
    {
        let count = usize::from(nodes);
        let lane_count = 2 * count * count;
        let mut packets = Vec::with_capacity(alloc, lane_count)?;
        for _lane in 0..lane_count {
            packets.push_reserved(VecDeque::with_capacity(alloc, usize::from(LANE_CELLS))?);
        }
        Ok(Room {
            nodes: Vec::with_capacity(alloc, count)?,
            inbox_turns: Vec::with_capacity(alloc, count)?,
            words: Vec::with_capacity(alloc, own_word(nodes, nodes))?,
            packets,
            lanes: Vec::with_capacity(alloc, lane_count)?,
        })
    }
}

/// Where the end of a node is.
fn place_of<E: HasEnd>(ends: &[E], n: u8) -> Option<usize>
    ensures some { IfSome result (λ place. (end : EndOf) × (slice_get (map E.end_of ends.now) place ≡ Some end)
        × (me_of end.part ≡ n)) }
    ensures none { result ≡ None → ¬ HasEndOf (map E.end_of ends.now) n }
{
    for (place, end) in ends.iter().enumerate() {
        if end.end().me() == n {
            return Some(place);
        }
    }
    None
}

/// Whether these are the ends of all nodes, each once.
fn are_all<E: HasEnd>(ends: &[E], nodes: u8) -> bool
    ensures all { result ≡ true → AreAll nodes (map E.end_of ends.now) }
    ensures not { result ≡ false → ¬ AreAll nodes (map E.end_of ends.now) }
{
    for n in 0..nodes {
        if place_of(ends, n).is_none() {
            return false;
        }
    }
    ends.len() == usize::from(nodes)
}

/// Joins the ends to a seat that has no node, in the order of their nodes, and keeps their nodes and the numbers of the
/// cells from which they take next.
// Out of line, so that the places of its ends on the stack are free again when it returns.
#[inline(never)]
fn join_all<E: HasEnd + Drop>(
    seat: &mut Seat<(), View>,
    mut ends: Vec<E>,
    nodes: &mut Vec<Node>,
    inbox_turns: &mut Vec<Vec<u8>>,
    count: u8,
)
    requires own { (place : ℕ) (end : EndOf) →
        slice_get (map E.end_of ends.items) place ≡ Some end →
        (end.table ≡ seat.old.table_id) × (nodes_in end.part ≡ count) }
    requires all { AreAll count (map E.end_of ends.items) }
    requires spent { seat.old.me ≡ (no_view, []) }
    requires nodes { HasRoom count nodes.old }
    requires inbox_turns { HasRoom count inbox_turns.old }
    ensures same { seat.new.table_id ≡ seat.old.table_id }
    ensures knows { seat.new.me ≡ (record { parts = seat.new.me.0.parts; words = [] }, []) }
    ensures joined { AreJoined count count seat.new.me.0.parts nodes.new.items
        inbox_turns.new.items }
    ensures kept { AreKept (map E.end_of ends.items) [] seat.new.me.0.parts }
{
    for n in 0..count {
        let Some(place) = place_of(&ends, n) else {
            unreachable!()
        };
        let (part, node, turns) = ends.remove(place).into_end().into_parts();
        part.join(seat);
        nodes.push_reserved(node);
        inbox_turns.push_reserved(turns);
    }
}

/// Reads all words of the table with a seat that has every node.
fn read_words(table: &LaneTable, seat: &mut Seat<(), View>, words: &mut Vec<u64>, nodes: u8)
    requires some { 0 < nodes }
    requires sized { (size_of table.now.shared.key.0 table.now.shared.key.1).nodes ≡ nodes }
    requires long { table.now.shared.table_id.words ≡ word_count nodes }
    requires same { seat.old.table_id ≡ table.now.shared.table_id }
    requires every { HasNodes nodes seat.old.me.0.parts }
    requires unread { seat.old.me ≡ (record { parts = seat.old.me.0.parts; words = [] }, []) }
    requires words { HasRoom (word_count nodes) words.old }
    ensures read { IsReadOff (record { parts = seat.old.me.0.parts; words = words.new.items }) }
    ensures long { length words.new.items ≡ word_count nodes }
{
    for place in 0..own_word(nodes, nodes) {
        words.push_reserved(table.shared.load::<Gather>(seat, place));
    }
}

/// Reads the packets of all lanes off the words of the table.
fn read_lanes(
    lanes: &mut Vec<Lane>,
    packets: Vec<VecDeque<Packet>>,
    words: &[u64],
    inbox_turns: &[Vec<u8>],
    nodes: u8,
)
    requires some { 0 < nodes }
    requires words { length words.now ≡ word_count nodes }
    requires inbox_turns { length inbox_turns.now ≡ nodes }
    requires long { length packets.items ≡ lane_count nodes }
    requires packets { AllByRecursion (λ q. HasFour q.items (deque_len q) (deque_capacity q))
        packets.items }
    requires lanes { HasRoom (lane_count nodes) lanes.old }
    requires turns { HaveInboxTurns nodes inbox_turns.now }
    ensures { AreLanes nodes words.now inbox_turns.now (lane_count nodes) lanes.new.items }
{
    let nodes = usize::from(nodes);
    for room in packets {
        let lane = lanes.len();
        let turn = inbox_turns[lane % nodes][lane / nodes];
        lanes.push_reserved(read_lane(words, lane, turn, room));
    }
}

/// The packets of a lane, oldest first, by its words and the number of the cell to take from.
fn read_lane(words: &[u64], lane: usize, turn: u8, mut packets: VecDeque<Packet>) -> Lane
    requires inside { (lane + 1) * (LANE_CELLS * CELL_WORDS) ≤ length words.now }
    requires room { HasFour packets.items (deque_len packets) (deque_capacity packets) }
    ensures { (shown : List Packet) (o : Outbound) (i : Inbound) → Fits words.now lane shown o i →
        turn ≡ i.taken % LANE_CELLS → result ≡ map letter_of shown }
{
    let cells = usize::from(LANE_CELLS);
    for passed in 0..LANE_CELLS {
        let number = usize::from(turn % LANE_CELLS + passed) % cells;
        let place = (lane * cells + number) * CELL_WORDS;
        if !read_cell(&mut packets, words, place) {
            break;
        }
    }
    Lane::of_packets(packets)
}

/// Ends a deque with the packet whose words begin at a place, and gives whether there is one. Words that are of no packet
/// have none, too.
fn read_cell(packets: &mut VecDeque<Packet>, words: &[u64], place: usize) -> bool
    requires inside { place < length words.now }
    requires room { deque_len packets.old < deque_capacity packets.old }
    ensures empty { slice_index words.now place ≡ 0 →
        (result ≡ false) × (packets.new ≡ packets.old) }
    ensures full { (packet : Packet) → slice_index words.now place ≢ 0 →
        IsPacketAt words.now place packet →
        (result ≡ true) × (packets.new.items ≡ packets.old.items ++ packet ∷ []) }
    ensures len { deque_len packets.new ≤ deque_len packets.old + 1 }
    ensures capacity { deque_capacity packets.new ≡ deque_capacity packets.old }
{
    if words[place] == 0 {
        return false;
    }
    match from_words(&words[place..]) {
        Ok((packet, _)) => {
            packets.push_back_reserved(packet);
            true
        }
        Err(_) => false,
    }
}
