//! The table of all lanes.

use crate::cell::own_word;
use crate::end::LaneEnd;
use crate::rule::{First, LaneTable};
use crate::seat::NodeSeat;
use crate::view::View;
use atomic_table::Seat;
use sci_core::Node;
use sci_words::Extent;
use std::alloc::{AllocError, Global};
use std::marker::Model;
use std::sync::Arc;

/// The lanes of a machine: the table of words that the ends share. Contracts see which table it is, and the size of the
/// machine.
#[derive(Drop)]
pub struct Lanes {
    pub(crate) table: Arc<LaneTable>,
    pub(crate) seat: Seat<(), View>,
    pub(crate) extent: Extent,
    pub(crate) limit: u32,
}

impl Model for Lanes {
    ghost use Rattle.std.specs.Arc.{arc_value};
    ghost use Rattle.sci_core.specs.Size.{size_of};
    ghost use Rattle.sci_lanes.specs.Ends.{IsRoot, LanesOf};

    ghost Value = { LanesOf };

    ghost view = { λ lanes. record { table = lanes.seat.table_id; size = size_of lanes.extent lanes.limit } };

    ghost invariant = { λ lanes.
        IsRoot (arc_value lanes.table).shared.key (arc_value lanes.table).shared.table_id
        lanes.seat.table_id lanes.seat.me lanes.extent lanes.limit };
}

impl Lanes {
    ghost use Rattle.std.specs.Prelude.{◌≡◌, ◌≤◌, IfOk};
    ghost use Rattle.sci_words.specs.declared.limits.TheConstants.{MAX_OPERATIONS};
    ghost use Rattle.sci_core.specs.Size.{size_of};
    ghost use Rattle.sci_lanes.specs.Ends.{opening_ends};

    /// The lanes of a machine of this size in which nothing was done yet, and the end of each node in order. Each node
    /// may issue `limit` operations. Requires that this is 1 to 65,536. Refused if memory is. No call of an
    /// end takes memory.
    pub fn new(
        alloc: Global,
        extent: Extent,
        limit: u32,
    ) -> Result<(Lanes, Vec<LaneEnd>), AllocError>
        requires some { 1 ≤ limit }
        requires few { limit ≤ MAX_OPERATIONS }
        ensures size { IfOk result (λ made. made.0.size ≡ size_of extent limit) }
        ensures ends { IfOk result (λ made.
            made.1.items ≡ opening_ends made.0.table (size_of extent limit) extent.nodes) }
    {
        let words = vec![in alloc; 0; own_word(extent.nodes, extent.nodes)]?;
        let (table, mut seat) = LaneTable::of_words(alloc, &words, &(extent, limit))?;
        let table = Arc::new(alloc, table)?;
        let mut ends = Vec::with_capacity(alloc, usize::from(extent.nodes))?;
        for node in 0..extent.nodes {
            ends.push(split_off(alloc, &table, &mut seat, node, extent, limit)?)?;
        }
        Ok((
            Lanes {
                table,
                seat,
                extent,
                limit,
            },
            ends,
        ))
    }
}

ghost use Rattle.std.specs.{Prelude.{◌≡◌, ◌≤◌, ◌<◌, ◌+◌, IfOk, []}, Arc.{arc_value}};
ghost use Rattle.sci_words.specs.declared.limits.TheConstants.{MAX_OPERATIONS};
ghost use Rattle.sci_core.specs.Size.{size_of};
ghost use Rattle.sci_lanes.specs.{Cells.{word_count}, Shown.{opening_part}, Ends.{rest_view}};

/// Takes a node off a seat that has this node and those after it, and makes its end.
fn split_off(
    alloc: Global,
    table: &Arc<LaneTable>,
    seat: &mut Seat<(), View>,
    node: u8,
    extent: Extent,
    limit: u32,
) -> Result<LaneEnd, AllocError>
    requires node { node < extent.nodes }
    requires some { 1 ≤ limit }
    requires few { limit ≤ MAX_OPERATIONS }
    requires key { (arc_value table.now).shared.key ≡ (extent, limit) }
    requires same { seat.old.table_id ≡ (arc_value table.now).shared.table_id }
    requires long { seat.old.table_id.words ≡ word_count extent.nodes }
    requires knows { seat.old.me ≡ (rest_view (size_of extent limit) node, []) }
    ensures same { seat.new.table_id ≡ seat.old.table_id }
    ensures knows { seat.new.me ≡ (rest_view (size_of extent limit) (node + 1), []) }
    ensures end { IfOk result (λ end. end
        ≡ record { table = seat.old.table_id; part = opening_part (size_of extent limit) node }) }
{
    let shared = &table.shared;
    let part = shared.split_seat::<First>(seat);
    let seat = NodeSeat::new(Arc::try_clone(table)?, part);
    LaneEnd::new(
        alloc,
        seat,
        Node::new(alloc, node, extent, limit)?,
        extent.nodes,
    )
}
