//! What one node did.

ghost use Rattle.std.specs.Prelude.{◌≡◌, IfOk};
ghost use Rattle.sci_statistics.specs.Figures.{at_node as at_node_of, node_figures};

use crate::event_figures::count_of;
use crate::packet_figures::packets_sent;
use crate::passage::Passage;
use sci_words::EventKind;
use std::alloc::{AllocError, Global};

/// What one node did.
#[derive(Clone, Copy)]
pub struct NodeFigures {
    /// Operations that it issued.
    pub issued: u64,
    /// Operations that it performed.
    pub performed: u64,
    /// Operations that it issued and didn't perform.
    pub pending: u64,
    /// Packets that it sent.
    pub sent: u64,
    /// Requests that it served.
    pub served: u64,
}

/// The events of a node. Refused if memory is.
fn at_node(alloc: Global, passages: &[Passage], node: u8) -> Result<Vec<Passage>, AllocError>
    ensures { IfOk result (λ found. found.items ≡ at_node_of node passages.now) }
{
    let mut found = Vec::new(alloc);
    for it in passages {
        if it.is_at(node) {
            found.push(*it)?;
        }
    }
    Ok(found)
}

impl NodeFigures {
    /// What a node did. Refused if memory is.
    #[tactic(auto, unfolding(crate::specs::Figures::node_figures))]
    pub fn of(alloc: Global, passages: &[Passage], node: u8) -> Result<NodeFigures, AllocError>
        ensures { IfOk result (λ figures. figures ≡ node_figures (at_node_of node passages.now)) }
    {
        let own = at_node(alloc, passages, node)?;
        let issued = count_of(&own, EventKind::Issue, true);
        let performed = count_of(&own, EventKind::Perform, true);
        Ok(NodeFigures {
            issued,
            performed,
            pending: issued.saturating_sub(performed),
            sent: packets_sent(&own),
            served: count_of(&own, EventKind::Serve, true),
        })
    }
}
