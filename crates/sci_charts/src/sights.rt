//! What is seen of a line at a node, and what a chart says of its change.

use sci_cache::Held;
use sci_core::Machine;
use sci_home::HomeState;
use sci_packets::NodeId;
use sci_statistics::{held_at, home_at};
use sci_text::{push_field, push_text};
use sci_traces::push_node;
use std::alloc::AllocError;

/// What a chart says of a cache's state: its name and its neighbours.
#[derive(Clone, Copy, PartialEq, Eq)]
struct CacheSight {
    name: &'static str,
    forward: Option<NodeId>,
    backward: Option<NodeId>,
}

impl CacheSight {
    /// What is said of a state.
    fn of(held: &Held) -> CacheSight {
        CacheSight {
            name: held.name(),
            forward: held.forward(),
            backward: held.backward(),
        }
    }

    /// Appends it, as `Below fwd 0 back 2`.
    fn push(&self, out: &mut Vec<u8>) -> Result<(), AllocError> {
        push_text(out, self.name)?;
        push_node(out, b" fwd", self.forward)?;
        push_node(out, b" back", self.backward)
    }
}

/// What is seen of one line at one node.
#[derive(Clone, Copy)]
pub struct Sight {
    /// What is said of the cache's state for the line, if there is such a line.
    cache: Option<CacheSight>,
    /// What the home of the line knows, if it is at the node.
    home: Option<HomeState>,
}

/// What is seen of a line at a node before an event, and after it.
#[derive(Clone, Copy)]
pub struct Change {
    pub before: Sight,
    pub after: Sight,
}

/// Where an event happens: at a node, and to a line if it is about one.
#[derive(Clone, Copy)]
pub struct Spot {
    pub node: u8,
    pub line: Option<u8>,
}

impl Sight {
    /// What is seen at a spot. Nothing is seen if there is no such node, or no line.
    pub fn at(machine: &Machine, spot: Spot) -> Sight {
        match spot.line {
            None => Sight {
                cache: None,
                home: None,
            },
            Some(line) => Sight {
                cache: held_at(machine, spot.node, line).map(|held| CacheSight::of(held)),
                home: home_at(machine, spot.node, line).map(|home| home.state()),
            },
        }
    }
}

/// Appends what a home knows, as `GONE 2`.
fn push_home(out: &mut Vec<u8>, state: &HomeState) -> Result<(), AllocError> {
    push_text(out, state.name())?;
    match state.head() {
        Some(head) => push_field(out, u64::from(head.get())),
        None => Ok(()),
    }
}

/// Appends how the cache's state changed, as `Head fwd 1 -> Head fwd 0`, if its name or a neighbour did.
fn push_cache_change(out: &mut Vec<u8>, change: &Change) -> Result<(), AllocError> {
    let (Some(before), Some(after)) = (&change.before.cache, &change.after.cache) else {
        return Ok(());
    };
    if before == after {
        return Ok(());
    }
    push_between(out)?;
    before.push(out)?;
    push_text(out, " -> ")?;
    after.push(out)
}

/// Appends how the home's state changed, as `home HOME -> GONE 2`, if it did.
fn push_home_change(out: &mut Vec<u8>, change: &Change) -> Result<(), AllocError> {
    let (Some(before), Some(after)) = (&change.before.home, &change.after.home) else {
        return Ok(());
    };
    if before == after {
        return Ok(());
    }
    push_between(out)?;
    push_text(out, "home ")?;
    push_home(out, before)?;
    push_text(out, " -> ")?;
    push_home(out, after)
}

/// Appends what stands between what is said already, if something is, and what comes next.
fn push_between(out: &mut Vec<u8>) -> Result<(), AllocError> {
    if out.is_empty() {
        return Ok(());
    }
    push_text(out, ", ")
}

/// Appends how the states of a line changed at a node. Refused if memory is.
pub fn push_change(out: &mut Vec<u8>, change: &Change) -> Result<(), AllocError> {
    push_cache_change(out, change)?;
    push_home_change(out, change)
}
