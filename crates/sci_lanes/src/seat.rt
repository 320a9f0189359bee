//! A seat at the table that has one node.

use crate::cell::{CellId, own_word};
use crate::rule::{Beat, Becomes, Both, Fill, Free, LaneTable, Look, Publish, Read};
use crate::view::View;
use atomic_table::Seat;
use sci_core::Node;
use sci_words::Event;
use std::marker::Model;
use std::sync::Arc;

/// A seat that has one node, with the table. Contracts see the table's name and what the seat knows.
#[derive(Drop)]
pub(crate) struct NodeSeat {
    table: Arc<LaneTable>,
    seat: Seat<(), View>,
}

impl Model for NodeSeat {
    ghost use Rattle.std.specs.Arc.{arc_value};
    ghost use Rattle.sci_lanes.specs.{Ends.{EndOf, IsSeated}, Telling.{part_of}};

    ghost Value = { EndOf };

    ghost view = { λ s. record { table = s.seat.table_id; part = part_of s.seat.me.0 } };

    ghost invariant = { λ s.
        IsSeated (arc_value s.table).shared.key (arc_value s.table).shared.table_id s.seat.table_id s.seat.me };
}

impl NodeSeat {
    ghost use Rattle.std.specs.{Prelude.{◌≡◌, ◌≢◌, ◌+◌, ◌⊎◌, []}, Arc.{arc_value}};
    ghost use Rattle.sci_lanes.specs.{Cells.{cell_place, lane_number}, Gathering.{joined_with}};
    ghost use Rattle.sci_lanes.specs.Shown.{informed, IsSeen, me_of};
    ghost use Rattle.sci_lanes.specs.Telling.{IsBeating, IsFull, IsMade, IsSameNode, IsSending, IsShown, IsTaken, IsTaking, part_of, state_of};
    ghost use Rattle.sci_lanes.specs.Ends.{IsNextToSend, IsNextToTake, IsSeated, MayFill, MayRead, beaten, filled_at, freed_at, informed_at, lane_at_cell};
    ghost use Rattle.sci_lanes.specs.Ends.{looked_at, nodes_in, published_at, read_at};
    ghost use Rattle.sci_core.specs.Core.{lane_at};

    /// A seat that has one node, at its table.
    pub(crate) fn new(table: Arc<LaneTable>, seat: Seat<(), View>) -> NodeSeat
        requires { IsSeated (arc_value table).shared.key (arc_value table).shared.table_id
            seat.table_id seat.me }
        ensures table { result.table ≡ seat.table_id }
        ensures part { result.part ≡ part_of seat.me.0 }
    {
        NodeSeat { table, seat }
    }

    /// Looks at the first word of a cell, the next to send into or to take from, which stands at this place.
    pub(crate) fn look(&mut self, cell: &CellId, nodes: u8, place: usize) -> u64
        requires nodes { nodes ≡ nodes_in self.old.part }
        requires next { IsNextToSend self.old.part cell.now ⊎ IsNextToTake self.old.part cell.now }
        requires place { place ≡ cell_place (lane_number nodes cell.now) cell.now.number + 0 }
        ensures part { self.new ≡ informed_at self.new.part.schedule (looked_at cell.now result self.old) }
        ensures seen { IsSeen self.old.part self.new.part.schedule }
        ensures shown { IsShown self.new.part }
        ensures full { IsNextToSend self.old.part cell.now → result ≢ 0 →
            IsFull (informed self.new.part.schedule self.old.part) (lane_at_cell self.old.part cell.now) }
        ensures empty { IsNextToTake self.old.part cell.now → result ≡ 0 →
            lane_at (state_of (informed self.new.part.schedule self.old.part)) (lane_at_cell self.old.part cell.now) ≡ [] }
    {
        let shared = &self.table.shared;
        shared.load::<Look>(&mut self.seat, place)
    }

    /// Stores a further word of the next cell to send into, which stands at this place.
    pub(crate) fn fill(&mut self, cell: &CellId, index: usize, place: usize, word: u64)
        requires may { MayFill self.old.part cell.now index }
        requires place { place ≡ cell_place (lane_number (nodes_in self.old.part) cell.now) cell.now.number + index }
        ensures part { self.new ≡ informed_at self.new.part.schedule (filled_at cell.now index word self.old) }
        ensures seen { IsSeen self.old.part self.new.part.schedule }
        ensures shown { IsShown self.new.part }
    {
        let shared = &self.table.shared;
        shared.store::<Fill>(&mut self.seat, place, word);
    }

    /// Loads a further word of the next cell to take from, which stands at this place.
    pub(crate) fn read(&mut self, cell: &CellId, index: usize, place: usize) -> u64
        requires may { MayRead self.old.part cell.now index }
        requires place { place ≡ cell_place (lane_number (nodes_in self.old.part) cell.now) cell.now.number + index }
        ensures part { self.new ≡ informed_at self.new.part.schedule (read_at cell.now index result self.old) }
        ensures seen { IsSeen self.old.part self.new.part.schedule }
        ensures shown { IsShown self.new.part }
    {
        let shared = &self.table.shared;
        shared.load::<Read>(&mut self.seat, place)
    }

    /// Stores the first word of the next cell to send into: the packet of this event is sent, and the node becomes
    /// `after`.
    pub(crate) fn publish<B: Becomes>(
        &mut self,
        cell: &CellId,
        nodes: u8,
        first: u64,
        event: &Event,
        after: &Node,
    )
        requires event { event.now ≡ B.event }
        requires after { after.now ≡ B.next }
        requires nodes { nodes ≡ nodes_in self.old.part }
        requires next { IsNextToSend self.old.part cell.now }
        requires sending { IsSending self.old.part (lane_at_cell self.old.part cell.now) first B.event B.next }
        ensures part { self.new ≡ informed_at self.new.part.schedule (published_at cell.now B.next self.old) }
        ensures made { IsMade self.old.part B.event self.new.part.schedule }
        ensures same { IsSameNode self.old.part self.new.part }
        ensures shown { IsShown self.new.part }
    {
        let place = cell.place(nodes, 0);
        let shared = &self.table.shared;
        shared.store::<Publish<B>>(&mut self.seat, place, first);
    }

    /// Stores 0 to the first word of the next cell to take from: the packet is taken, and the node becomes
    /// `after`.
    pub(crate) fn free<B: Becomes>(&mut self, cell: &CellId, nodes: u8, event: &Event, after: &Node)
        requires event { event.now ≡ B.event }
        requires after { after.now ≡ B.next }
        requires nodes { nodes ≡ nodes_in self.old.part }
        requires next { IsNextToTake self.old.part cell.now }
        requires taking { IsTaking self.old.part (lane_at_cell self.old.part cell.now) B.event B.next }
        ensures part { self.new ≡ informed_at self.new.part.schedule (freed_at cell.now B.next self.old) }
        ensures taken { IsTaken self.old.part (lane_at_cell self.old.part cell.now) B.event
            self.new.part.schedule }
        ensures same { IsSameNode self.old.part self.new.part }
        ensures shown { IsShown self.new.part }
    {
        let place = cell.place(nodes, 0);
        let shared = &self.table.shared;
        shared.store::<Free<B>>(&mut self.seat, place, 0);
    }

    /// Loads the own word of the node `me`, which is the seat's: the node becomes `after`. No store is needed, since no
    /// other node has to see it; a load of a word that no node stores costs next to nothing.
    pub(crate) fn beat<B: Becomes>(&mut self, me: u8, nodes: u8, event: &Event, after: &Node)
        requires event { event.now ≡ B.event }
        requires after { after.now ≡ B.next }
        requires me { me ≡ me_of self.old.part }
        requires nodes { nodes ≡ nodes_in self.old.part }
        requires beating { IsBeating self.old.part B.event B.next }
        ensures part { self.new ≡ informed_at self.new.part.schedule (beaten B.next self.old) }
        ensures made { IsMade self.old.part B.event self.new.part.schedule }
        ensures same { IsSameNode self.old.part self.new.part }
        ensures shown { IsShown self.new.part }
    {
        let place = own_word(nodes, me);
        let shared = &self.table.shared;
        let _word = shared.load::<Beat<B>>(&mut self.seat, place);
    }

    /// Gives the node to a seat of the same table that has read no word.
    pub(crate) fn join(self, root: &mut Seat<(), View>)
        requires same { root.old.table_id ≡ self.table }
        requires unread { root.old.me.0.words ≡ [] }
        requires none { root.old.me.1 ≡ [] }
        ensures same { root.new.table_id ≡ root.old.table_id }
        ensures knows { root.new.me ≡ (joined_with self.part root.old.me.0, []) }
    {
        let NodeSeat { table, seat } = self;
        let shared = &table.shared;
        shared.join_seat::<Both>(root, seat);
    }
}
