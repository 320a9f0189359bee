//! The entries of a window's logs in an order, and in a cycle, of its relative logs.

ghost use Rattle.std.specs.Prelude.{◌≡◌, ◌<◌, ◌==◌, ℕ, All, IfOk, filter, length, map};
ghost use Rattle.sci_words.specs.declared.limits.TheConstants.{MAX_NODES};
ghost use Rattle.sci_history.specs.Placed.{is_of_node, log_of};
ghost use Rattle.sci_windows.specs.Order.{step_in};

use sci_history::{Entry, Logs, Step};
use sci_words::MAX_NODES;
use std::alloc::{AllocError, Global};

const NODES: usize = MAX_NODES as usize;

/// The nodes of some entries.
pub fn nodes_of(alloc: Global, entries: &[&Entry]) -> Result<Vec<u8>, AllocError>
    ensures { IfOk result (λ nodes. nodes.items ≡ map (λ entry. entry.now.node) entries.now) }
{
    entries.iter().map(|entry| entry.node).collect(alloc)
}

/// The entries of all logs, in the order in which their nodes stand. Requires that each node stands there once for each entry
/// of its log.
pub fn in_turn(alloc: Global, logs: &Logs, nodes: &[u8]) -> Result<Vec<Entry>, AllocError>
    requires known { All (λ node. node < MAX_NODES) nodes.now }
    requires each { (node : ℕ) → length (filter (λ other. other == node) nodes.now)
        ≡ length (log_of logs.now node) }
    ensures nodes { IfOk result (λ made. map (λ entry. entry.node) made.items ≡ nodes.now) }
    ensures own { IfOk result (λ made. (node : ℕ) →
        filter (is_of_node node) made.items ≡ log_of logs.now node) }
{
    // Asked, so that the prover knows that there are sixteen logs.
    let _sixteen = logs.nodes();
    let mut next: [usize; NODES] = [0; NODES];
    let mut made = Vec::with_capacity(alloc, nodes.len())?;
    for node in nodes {
        let place = next[*node as usize];
        made.push(logs.of(*node)[place])?;
        next[*node as usize] = place + 1;
    }
    Ok(made)
}

/// Steps with the entries that stand at their places. Requires that there are such places.
pub fn steps_in(alloc: Global, logs: &Logs, steps: &[Step]) -> Result<Vec<Step>, AllocError>
    requires known { All (λ step. step.entry.node < MAX_NODES) steps.now }
    requires within { All (λ step. step.place < length (log_of logs.now step.entry.node)) steps.now }
    ensures { IfOk result (λ made. made.items ≡ map (step_in logs.now) steps.now) }
{
    let mut made = Vec::with_capacity(alloc, steps.len())?;
    for step in steps {
        made.push(Step {
            entry: logs.of(step.entry.node)[step.place],
            place: step.place,
            reason: step.reason,
        })?;
    }
    Ok(made)
}
