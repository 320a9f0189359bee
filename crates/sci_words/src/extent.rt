//! The size of a machine.

ghost use Rattle.std.specs.Prelude.{◌≡◌, ◌≤◌, ◌↔◌, IfSome, IsSome};
ghost use Rattle.sci_words.specs.declared.limits.TheConstants.{MAX_LINES, MAX_NODES, MAX_SLOTS};
ghost use Rattle.sci_words.specs.Extent.{AreWithinLimits};

use crate::limits::{MAX_LINES, MAX_NODES, MAX_SLOTS};

/// The size of a machine, each number within its limits.
#[derive(Clone, Copy, Debug, PartialEq, Eq)]
pub struct Extent {
    /// Nodes, 1 to 16.
    pub nodes: u8,
    /// Lines, 1 to 64.
    pub lines: u8,
    /// Version slots of a node, 1 to 8.
    pub slots: u8,
    pub ghost has_node: { 1 ≤ nodes },
    pub ghost few_nodes: { nodes ≤ MAX_NODES },
    pub ghost has_line: { 1 ≤ lines },
    pub ghost few_lines: { lines ≤ MAX_LINES },
    pub ghost has_slot: { 1 ≤ slots },
    pub ghost few_slots: { slots ≤ MAX_SLOTS },
}

impl Extent {
    /// The extent of these numbers, or None if one of them is outside its limits.
    pub fn new(nodes: u8, lines: u8, slots: u8) -> Option<Extent>
        ensures within { IsSome result ↔ AreWithinLimits nodes lines slots }
        ensures nodes { IfSome result (λ extent. extent.nodes ≡ nodes) }
        ensures lines { IfSome result (λ extent. extent.lines ≡ lines) }
        ensures slots { IfSome result (λ extent. extent.slots ≡ slots) }
    {
        let within = (1..=MAX_NODES).contains(&nodes)
            && (1..=MAX_LINES).contains(&lines)
            && (1..=MAX_SLOTS).contains(&slots);
        if !within {
            return None;
        }
        Some(Extent {
            nodes,
            lines,
            slots,
        })
    }
}
