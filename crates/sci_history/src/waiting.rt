//! Entries that can't be placed, and what they wait for.

ghost use Rattle.std.specs.Prelude.{◌≡◌, ◌≤◌, ◌<◌, ◌*◌, ◌++◌, ℕ, true, IfSome, IfOk, Some, None, List, length, slice_get, slice_index_or};
ghost use Rattle.std.specs.List.{AllByRecursion};
ghost use Rattle.sci_words.specs.declared.limits.TheConstants.{MAX_NODES};
ghost use Rattle.sci_history.specs.declared.{entry.Entry.{Entry}, order_verdict.Step.{Step}};
ghost use Rattle.sci_history.specs.{Cycle.{HasNoShortcut, IsCycle}, Placed.{log_of}};
ghost use Rattle.sci_history.specs.Placing.{AreBlocked, IsBlocker, LeadsTo, line_reason, rests_of};

use crate::entry::Entry;
use crate::logs::Logs;
use crate::order_verdict::{Reason, Step, reason_after};
use crate::shortcuts::without_shortcuts;
use sci_words::MAX_NODES;
use std::alloc::{AllocError, Global};

const NODES: usize = MAX_NODES as usize;

/// The first place in a log, from one on, of an entry that comes before this one on its line.
fn blocker_in(log: &[Entry], from: usize, entry: &Entry) -> Option<(usize, Reason)>
    ensures found { IfSome result (λ found. (from ≤ found.0) × ((other : Entry)
        × (slice_get log.now found.0 ≡ Some other) × (line_reason entry.now other ≡ Some found.1))) }
    ensures none { result ≡ None → (place : ℕ) (other : Entry) → from ≤ place →
        slice_get log.now place ≡ Some other → line_reason entry.now other ≡ None }
{
    for place in from..log.len() {
        if let Some(reason) = reason_after(entry, &log[place]) {
            return Some((place, reason));
        }
    }
    None
}

/// Where an entry stands that another waits for, and why.
#[derive(Clone, Copy)]
struct Blocker {
    node: u8,
    place: usize,
    reason: Reason,
}

/// Of the entries of a node that are left and come before this one on its line, the first.
fn blocker_of(logs: &Logs, next: &[usize; NODES], node: u8, entry: &Entry) -> Option<Blocker>
    requires { node < MAX_NODES }
    ensures found { IfSome result (λ found.
        IsBlocker logs.now next.now entry.now found.node found.place found.reason) }
    ensures none { result ≡ None → AllByRecursion (λ other. line_reason entry.now other ≡ None)
        (log_of (rests_of logs.now next.now) node) }
{
    let (place, reason) = blocker_in(logs.of(node), next[node as usize], entry)?;
    Some(Blocker {
        node,
        place,
        reason,
    })
}

/// Of the entries that are left and come before this one on its line, the first of the first node that has one.
fn find_blocker(logs: &Logs, next: &[usize; NODES], entry: &Entry) -> Option<Blocker>
    ensures found { IfSome result (λ found.
        IsBlocker logs.now next.now entry.now found.node found.place found.reason) }
    ensures none { result ≡ None → (node : ℕ) →
        AllByRecursion (λ other. line_reason entry.now other ≡ None)
        (log_of (rests_of logs.now next.now) node) }
{
    for node in 0..MAX_NODES {
        if let Some(found) = blocker_of(logs, next, node, entry) {
            return Some(found);
        }
    }
    None
}

/// Ends the steps with the entry of a node that is left first, and then with the one that it waits for, unless that is
/// left first itself. Answers the node of that one.
fn push_wait(
    logs: &Logs,
    next: &[usize; NODES],
    node: u8,
    steps: &mut Vec<Step>,
) -> Result<u8, AllocError>
    requires node { node < MAX_NODES }
    requires left { slice_index_or next.now node 0 < length (log_of logs.now node) }
    requires blocked { AreBlocked (rests_of logs.now next.now) }
    ensures known { IfOk result (λ to. to < MAX_NODES) }
    ensures left { IfOk result (λ to. slice_index_or next.now to 0 < length (log_of logs.now to)) }
    ensures leads { IfOk result (λ to. (added : List Step)
        × (steps.new.items ≡ steps.old.items ++ added) × LeadsTo logs.now next.now added node to) }
{
    let place = next[node as usize];
    let entry = logs.of(node)[place];
    let Some(found) = find_blocker(logs, next, &entry) else {
        unreachable!()
    };
    steps.push(Step {
        entry,
        place,
        reason: found.reason,
    })?;
    if next[found.node as usize] < found.place {
        steps.push(Step {
            entry: logs.of(found.node)[found.place],
            place: found.place,
            reason: Reason::Logged,
        })?;
    }
    Ok(found.node)
}

/// A cycle of entries that are left, none of which can be left out: entries that are left first in their logs, each of
/// which is followed by what it waits for. It has at most two entries for each node.
pub fn cycle(
    alloc: Global,
    logs: &Logs,
    next: &[usize; NODES],
    first: u8,
) -> Result<Vec<Step>, AllocError>
    requires node { first < MAX_NODES }
    requires left { slice_index_or next.now first 0 < length (log_of logs.now first) }
    requires blocked { AreBlocked (rests_of logs.now next.now) }
    ensures cycle { IfOk result (λ steps. IsCycle logs.now steps.items) }
    ensures bare { IfOk result (λ steps. HasNoShortcut steps.items) }
    ensures few { IfOk result (λ steps. length steps.items ≤ 2 * MAX_NODES) }
{
    let mut starts: [Option<usize>; NODES] = [None; NODES];
    let mut steps = Vec::new(alloc);
    let mut node = first;
    for _ in 0..=MAX_NODES {
        if let Some(start) = starts[node as usize] {
            return without_shortcuts(alloc, &steps[start..]);
        }
        starts[node as usize] = Some(steps.len());
        node = push_wait(logs, next, node, &mut steps)?;
    }
    // Each turn marks another node.
    unreachable!()
}
