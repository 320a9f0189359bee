//! Cycles of many nodes: each node stores to a line of its own, and then loads the line of the node after it, whose store
//! it doesn't see.

ghost use Rattle.std.specs.Prelude.{IfOk, length};
ghost use Rattle.sci_history.specs.Audit.{AreWithin};

use sci_history::{Last, Logs, OrderVerdict, Reason, Step, sequential_order};
use sci_text::{Tap, push_text, read_logs};
use std::alloc::Global;
use std::test::*;

/// For each node the one whose line it loads. Nodes 0 to 13 are a ring, and nodes 14 and 15 another.
const LONG_AND_SHORT: [u8; 16] = [1, 2, 3, 4, 5, 6, 7, 8, 9, 10, 11, 12, 13, 0, 15, 14];

/// The logs of rings, in which each node loads the line of the node that stands after it, and of more entries.
fn rings(alloc: Global, after: &[u8], more: &str) -> Result<(Logs, Last), Fail>
    ensures { IfOk result (λ read. AreWithin (length read.1) read.0) }
{
    let nodes = after.len();
    let mut text = format!(in alloc; "log 2 {nodes} {nodes}\n")?.into_bytes();
    for line in 0..nodes {
        let last = format!(in alloc; "last {line} @1 1 0 0 0 0 0 0 0\n")?;
        push_text(&mut text, &last)?;
    }
    for (node, next) in after.iter().enumerate() {
        let log = format!(in alloc;
            "{node} 0 store {node} 0 1 = - @1\n{node} 1 load {next} 0 = 0 @0\n"
        )?;
        push_text(&mut text, &log)?;
    }
    push_text(&mut text, more)?;
    let (_nodes, logs, last) = read_logs(alloc, &mut Tap::new(text.as_slice()))?;
    Ok((logs, last))
}

/// Whether steps go back through the ring of node 0, from its store to its load: from the store of each node to the load of
/// the node before it, which stands in that one's log behind its store.
fn go_round(steps: &[Step], after: &[u8]) -> bool {
    let mut node = 0;
    for (at, step) in steps.iter().enumerate() {
        let is_right = if at % 2 == 0 {
            step.entry.node == node && step.place == 0 && step.reason == Reason::FromRead
        } else {
            after.get(usize::from(step.entry.node)) == Some(&node)
                && step.place == 1
                && step.reason == Reason::Logged
        };
        if !is_right {
            return false;
        }
        node = step.entry.node;
    }
    node == 0
}

/// The cycle that is found in rings goes through node 0 and has this many entries.
fn expect_ring(alloc: Global, after: &[u8], more: &str, count: usize) -> Result<(), Fail> {
    let (logs, last) = rings(alloc, after, more)?;
    match sequential_order(alloc, &logs, &last)? {
        OrderVerdict::Cycle(steps) => {
            if steps.len() == count && go_round(&steps, after) {
                return Ok(());
            }
            Err(Fail::new(format_args!("{steps:?}")))
        }
        other => Err(Fail::new(format_args!("{other:?}"))),
    }
}

/// Rings of 2 to 16 nodes.
#[test]
fn rings_of_every_size(rt: HostRuntime) -> Result<(), Fail> {
    for nodes in 2u8..=16 {
        let mut after = Vec::new(rt.alloc());
        for node in 1..nodes {
            after.push(node)?;
        }
        after.push(0u8)?;
        expect_ring(rt.alloc(), &after, "", usize::from(nodes).wrapping_mul(2))?;
    }
    Ok(())
}

/// The first store waits for the last load of a long ring, and for a load of node 15, from which no way leads back.
#[test]
fn a_long_ring_beside_a_short_one(rt: HostRuntime) -> Result<(), Fail> {
    expect_ring(rt.alloc(), &LONG_AND_SHORT, "15 2 load 0 0 = 0 @0\n", 28)
}
