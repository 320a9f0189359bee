//! What each node does of a script.

ghost use Rattle.std.specs.Prelude.{◌≡◌, ◌<◌, ◌≤◌, ℕ, All, IfOk, length, slice_index_or};
ghost use Rattle.sci_words.specs.declared.limits.TheConstants.{MAX_OPERATIONS};
ghost use Rattle.sci_text.specs.Script.{operations_of};

use crate::script::Script;
use sci_words::Op;
use std::alloc::{AllocError, Global};

/// The operations of each node, in their order. Refused if memory is.
pub fn operations_by_node(alloc: Global, script: &Script) -> Result<Vec<Vec<Op>>, AllocError>
    ensures nodes { IfOk result (λ all. length all.items ≡ script.now.nodes) }
    ensures each { IfOk result (λ all. (node : ℕ) (d : _) → node < script.now.nodes →
        (slice_index_or all.items node d).items ≡ operations_of node script.now.operations) }
    ensures few { IfOk result (λ all. All
        (λ own. length own.items ≤ MAX_OPERATIONS) all.items) }
{
    let nodes = script.extent().nodes;
    let mut all = Vec::with_capacity(alloc, nodes as usize)?;
    for node in 0..nodes {
        // Counted first, so that no list grows beside the others.
        let count = script
            .operations()
            .iter()
            .filter(|own| own.0 == node)
            .count();
        all.push(Vec::with_capacity(alloc, count)?)?;
    }
    for (node, op) in script.operations() {
        let own = &mut all[*node as usize];
        own.push(*op)?;
    }
    Ok(all)
}
