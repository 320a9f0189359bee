//! Submitting and performing on a machine that is lent.

ghost use Rattle.std.specs.Prelude.{◌≡◌, ◌<◌, Some, None, IfErr, IfOk, IfSome, IsErr, IsOk};
ghost use Rattle.sci_words.specs.declared.event.Event.TheVariants.{Issue, Perform};
ghost use Rattle.sci_core.specs.{Core.{node_at, stepping}, Node.{node_performing}, Obstacles.{submit_fault}};

use sci_core::{Machine, SubmitFault};
use sci_history::Entry;
use sci_words::Op;

/// Submits an operation at a node: an Issue, whose serial it gives. Requires that there is such a node.
/// Refused, unchanged, with the first of `SubmitFault`'s causes that holds.
pub fn submit_on(machine: &mut Machine, node: u8, op: Op) -> Result<u32, SubmitFault>
    requires { node < machine.old.size.nodes }
    ensures issued { IfOk result
        (λ serial. stepping machine.old (Issue node op) ≡ Some machine.new) }
    ensures serial { IfOk result (λ serial. serial ≡ (node_at machine.old node).issued) }
    ensures may { IsOk result → submit_fault (node_at machine.old node) op ≡ None }
    ensures fault { IfErr result
        (λ fault. submit_fault (node_at machine.old node) op ≡ Some fault) }
    ensures same { IsErr result → machine.new ≡ machine.old }
    ensures size { machine.new.size ≡ machine.old.size }
{
    match machine.issue(node, op) {
        Some(serial) => Ok(serial),
        None => Err(SubmitFault::of(machine.node(node), &op)),
    }
}

/// Performs the operation that is pending on a line at a node: a Perform, whose entry it gives, which now ends the node's
/// log. Requires that there is such a node. None, unchanged, if none is pending there or the line's state
/// doesn't allow it.
pub fn perform_on(machine: &mut Machine, node: u8, line: u8) -> Option<Entry>
    requires { node < machine.old.size.nodes }
    ensures performed { IfSome result
        (λ entry. node_performing (node_at machine.old node) line
        ≡ Some (node_at machine.new node, entry)) }
    ensures event { IfSome result
        (λ entry. stepping machine.old (Perform node line) ≡ Some machine.new) }
    ensures none { result ≡ None → node_performing (node_at machine.old node) line ≡ None }
    ensures same { result ≡ None → machine.new ≡ machine.old }
    ensures size { machine.new.size ≡ machine.old.size }
{
    machine.perform(node, line)
}
