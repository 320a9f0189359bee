//! How many events pass between the Issue of an operation and its Perform.

ghost use Rattle.std.specs.Prelude.{◌≡◌, ◌≤◌, EachIndex, IfOk, length, map, max, min, slice_index, sum};
ghost use Rattle.std.specs.{List.{reduce}, Option.{unwrap_or}};
ghost use Rattle.sci_words.specs.declared.limits.TheConstants.{MAX_EVENTS};
ghost use Rattle.sci_statistics.specs.Waits.{issued_line as issued_line_of, node_waits, performed_at as performed_at_of, wait_figures, waits as waits_of};
ghost use Rattle.sci_statistics.specs.Waits.{waits_by as waits_by_of};

use crate::kind::Access;
use crate::passage::Passage;
use sci_words::EventKind;
use std::alloc::{AllocError, Global};

/// How long an operation waited that was performed.
#[derive(Clone, Copy)]
struct Wait {
    /// What the operation does.
    access: Access,
    /// The events between its Issue and its Perform.
    events: u32,
}

/// How many events there were between the Issue and the Perform of some operations.
#[derive(Clone, Copy)]
pub struct WaitFigures {
    /// The operations.
    pub count: u64,
    /// The fewest events, or 0 if there are no operations.
    pub least: u64,
    /// The events of all operations, added up.
    pub total: u64,
    /// The most events, or 0 if there are no operations.
    pub greatest: u64,
}

/// How long the operations waited that a node performed.
#[derive(Clone, Copy)]
pub struct NodeWaits {
    /// All of them.
    pub all: WaitFigures,
    /// Loads.
    pub loads: WaitFigures,
    /// Stores and lock operations.
    pub makers: WaitFigures,
}

impl Passage {
    /// The line about which it is an enabled Issue of this node, or None if it isn't one.
    #[tactic(auto, unfolding(crate::specs::Waits::issued_line))]
    fn issued_line(&self, node: u8) -> Option<u8>
        ensures { result ≡ issued_line_of node self.now }
    {
        if self.comes(EventKind::Issue, true) && self.is_at(node) {
            self.line
        } else {
            None
        }
    }

    /// The operation that it performed at this node, as what it does and its line. None if it performed none.
    #[tactic(auto, unfolding(crate::specs::Waits::performed_at))]
    fn performed_at(&self, node: u8) -> Option<(Access, u8)>
        ensures { result ≡ performed_at_of node self.now }
    {
        match (self.made, self.line) {
            (Some(access), Some(line)) if self.is_at(node) => Some((access, line)),
            _ => None,
        }
    }
}

/// The lines that an event can name.
const NAMED_LINES: usize = 256;

/// Place 0 for each line that an event can name. Refused if memory is.
fn no_places(alloc: Global) -> Result<Vec<u32>, AllocError>
    ensures long { IfOk result (λ places. length places.items ≡ NAMED_LINES) }
    ensures zero { IfOk result (λ places. EachIndex places.items (λ line. slice_index places.items line ≡ 0)) }
{
    vec![in alloc; 0; NAMED_LINES]
}

/// The waits of the operations that a node performed, in order. Requires that there are at most 500,000 events. Refused if
/// memory is.
fn waits_at(alloc: Global, passages: &[Passage], node: u8) -> Result<Vec<Wait>, AllocError>
    requires { length passages.now ≤ MAX_EVENTS }
    ensures waits { IfOk result (λ found. found.items ≡ waits_of node passages.now) }
    ensures few { IfOk result (λ found. length found.items ≤ length passages.now) }
{
    let mut behind_issue = no_places(alloc)?;
    let mut found = Vec::new(alloc);
    for (place, it) in passages.iter().enumerate() {
        let place = place as u32;
        if let Some((access, line)) = it.performed_at(node) {
            let events = place - behind_issue[usize::from(line)];
            found.push(Wait { access, events })?;
        }
        if let Some(line) = it.issued_line(node) {
            behind_issue[usize::from(line)] = place + 1;
        }
    }
    Ok(found)
}

/// The waits of operations that do this. Refused if memory is.
fn waits_by(alloc: Global, waits: &[Wait], access: Access) -> Result<Vec<Wait>, AllocError>
    ensures waits { IfOk result (λ found. found.items ≡ waits_by_of access waits.now) }
    ensures few { IfOk result (λ found. length found.items ≤ length waits.now) }
{
    let mut found = Vec::new(alloc);
    for it in waits {
        if it.access == access {
            found.push(*it)?;
        }
    }
    Ok(found)
}

/// The least of some waits, or 0 if there are none.
fn least(waits: &[Wait]) -> u64
    ensures { result ≡ unwrap_or (reduce min (map (λ w. w.events) waits.now)) 0 }
{
    waits
        .iter()
        .map(|it| u64::from(it.events))
        .min()
        .unwrap_or(0)
}

/// Some waits, added up. Requires that there are at most 500,000.
fn total(waits: &[Wait]) -> u64
    requires { length waits.now ≤ MAX_EVENTS }
    ensures { result ≡ sum (map (λ w. w.events) waits.now) }
{
    waits.iter().map(|it| u64::from(it.events)).sum()
}

/// The greatest of some waits, or 0 if there are none.
fn greatest(waits: &[Wait]) -> u64
    ensures { result ≡ unwrap_or (reduce max (map (λ w. w.events) waits.now)) 0 }
{
    waits
        .iter()
        .map(|it| u64::from(it.events))
        .max()
        .unwrap_or(0)
}

impl WaitFigures {
    /// The figures of some waits. Requires that there are at most 500,000.
    #[tactic(auto, unfolding(crate::specs::Waits::wait_figures))]
    fn of(waits: &[Wait]) -> WaitFigures
        requires { length waits.now ≤ MAX_EVENTS }
        ensures { result ≡ wait_figures waits.now }
    {
        WaitFigures {
            count: waits.len() as u64,
            least: least(waits),
            total: total(waits),
            greatest: greatest(waits),
        }
    }
}

impl NodeWaits {
    /// How long the operations waited that a node performed: the events between their Issue and their Perform, enabled or
    /// not, of all nodes. Requires that there are at most 500,000 events. Refused if memory is.
    #[tactic(auto, unfolding(crate::specs::Waits::node_waits))]
    pub fn of(alloc: Global, passages: &[Passage], node: u8) -> Result<NodeWaits, AllocError>
        requires { length passages.now ≤ MAX_EVENTS }
        ensures { IfOk result (λ waits. waits ≡ node_waits node passages.now) }
    {
        let all = waits_at(alloc, passages, node)?;
        let loads = waits_by(alloc, &all, Access::Load)?;
        let makers = waits_by(alloc, &all, Access::Maker)?;
        Ok(NodeWaits {
            all: WaitFigures::of(&all),
            loads: WaitFigures::of(&loads),
            makers: WaitFigures::of(&makers),
        })
    }
}
