//! The cells of the table.

ghost use Rattle.std.specs.Prelude.{◌≡◌, ◌+◌, ◌*◌, ◌/◌, ◌^◌, ◌<◌, ◌≤◌, IfOk, replicate};
ghost use Rattle.sci_lanes.specs.{Cells.{cell_place, lane_number, own_place}, declared.cell.TheConstants.{CELL_WORDS}};
ghost use Rattle.sci_lanes.specs.Ends.{ArePlaces};

use sci_core::LaneKind;
use sci_words::LANE_CELLS;
use std::alloc::{AllocError, Global};

/// The words of a cell: a packet has at most eleven.
pub(crate) const CELL_WORDS: usize = 11;

/// A cell: one of the four in the lane of a kind from one node to another.
#[derive(Clone, Copy, Debug, PartialEq, Eq)]
pub struct CellId {
    pub kind: LaneKind,
    /// The node that sends.
    pub sender: u8,
    /// The node that receives.
    pub receiver: u8,
    /// The number of the cell in its lane, 0 to 3.
    pub number: u8,
}

impl CellId {
    /// The number of the cell's lane among all those of a machine of this many nodes: the lanes of requests stand before
    /// those of answers, for each sender in order those to each receiver in order.
    pub(crate) fn lane(&self, nodes: u8) -> usize
        ensures { result ≡ lane_number nodes self.now }
    {
        let nodes = usize::from(nodes);
        (self.kind.index() * nodes + usize::from(self.sender)) * nodes + usize::from(self.receiver)
    }

    /// The number of the cell's lane among the lanes to its receiver: the quotient of `lane` by the number of nodes.
    /// Requires that the receiver is one of them.
    pub(crate) fn inbox(&self, nodes: u8) -> usize
        requires { self.now.receiver < nodes }
        ensures place { result ≡ lane_number nodes self.now / nodes }
        ensures few { self.now.sender < nodes → result < 2 * nodes }
    {
        let sender = self.sender;
        self.kind.index() * usize::from(nodes) + usize::from(sender)
    }

    /// Where a word of the cell stands in the table of a machine of this many nodes.
    #[tactic(auto, unfolding(crate::specs::Cells::cell_place))]
    pub(crate) fn place(&self, nodes: u8, index: usize) -> usize
        requires { index < CELL_WORDS }
        ensures place { result ≡ cell_place (lane_number nodes self.now) self.now.number + index }
        ensures few { result < 2 ^ 32 }
    {
        let cells = usize::from(LANE_CELLS);
        (self.lane(nodes) * cells + usize::from(self.number) % cells) * CELL_WORDS + index
    }
}

/// Where the first cell of each lane to a node begins in the table of a machine of this many nodes, in the order of inboxes.
/// Refused if memory is.
pub(crate) fn first_places(alloc: Global, me: u8, nodes: u8) -> Result<Vec<usize>, AllocError>
    ensures { IfOk result (λ places. ArePlaces nodes me (replicate (2 * nodes) 0) places.items) }
{
    let inboxes = 2 * usize::from(nodes);
    let mut places = Vec::with_capacity(alloc, inboxes)?;
    for inbox in 0..inboxes {
        let lane = inbox * usize::from(nodes) + usize::from(me);
        places.push(lane * usize::from(LANE_CELLS) * CELL_WORDS)?;
    }
    Ok(places)
}

/// Where the own word of a node stands in the table of a machine of this many nodes.
pub(crate) fn own_word(nodes: u8, node: u8) -> usize
    ensures { result ≡ own_place nodes node }
{
    let pairs = usize::from(nodes) * usize::from(nodes);
    2 * pairs * usize::from(LANE_CELLS) * CELL_WORDS + usize::from(node)
}
