//! What a chart is drawn of, and where.

ghost use Rattle.std.specs.Prelude.{◌≡◌, IfOk};

use crate::arrows::Flight;
use crate::charting::ChartRequest;
use crate::elements::{Point, Way};
use crate::layout::Layout;
use sci_packets::Packet;
use sci_text::Schedule;
use sci_words::Extent;
use std::alloc::{AllocError, Global};

/// How far the arrow of a packet of a node to itself goes to the left, and how much farther that of the next one goes which
/// is under way with it.
const LOOP: i16 = 26;

const NEXT_LOOP: i16 = 7;

/// What a chart is drawn of, and where its columns are.
#[derive(Clone, Copy)]
pub struct ChartPlan {
    pub alloc: Global,
    pub extent: Extent,
    pub request: ChartRequest,
    pub layout: Layout,
}

/// From one height of a chart to another, farther down.
#[derive(Clone, Copy)]
pub struct Heights {
    pub from: u64,
    pub to: u64,
}

impl ChartPlan {
    /// The plan of the chart of a schedule. Refused if memory is.
    pub fn of(
        alloc: Global,
        schedule: &Schedule,
        request: ChartRequest,
    ) -> Result<ChartPlan, AllocError>
        ensures { IfOk result (λ plan. plan.request ≡ request) }
    {
        Ok(ChartPlan {
            alloc,
            extent: schedule.extent(),
            request,
            layout: Layout::of(alloc, schedule)?,
        })
    }

    /// Whether labels say which line they are about.
    pub fn names_lines(&self) -> bool {
        self.request.line.is_none() && self.extent.lines > 1
    }
}

/// The way of a packet's arrow between two heights: from its sender's column to its receiver's.
pub fn way_of(layout: Layout, packet: &Packet, flight: &Flight, heights: Heights) -> Way {
    let from = Point {
        x: layout.column(packet.source.get()),
        y: heights.from,
    };
    let to = Point {
        x: layout.column(packet.target.get()),
        y: heights.to,
    };
    if packet.source == packet.target {
        let left = LOOP + NEXT_LOOP * i16::from(flight.track.min(5));
        Way::Around {
            from,
            left: to.moved(-left, 0),
        }
    } else {
        Way::Straight { from, to }
    }
}
