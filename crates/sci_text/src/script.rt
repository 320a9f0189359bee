//! Scripts: the operations that the nodes of a machine are to do.

use crate::fault::TextFaultKind;
use sci_words::{Extent, MAX_NODES, MAX_OPERATIONS, Op, WORDS_PER_LINE};
use std::alloc::Global;
use std::marker::Model;

const NODES: usize = MAX_NODES as usize;

/// A machine's size, and operations of its nodes in text order. Each node is one of the machine's, with at
/// most 65,536 operations, and each operation's line and word are in range. Contracts see the numbers of the
/// size and the list of the operations with their nodes.
#[derive(Debug, Drop)]
pub struct Script {
    extent: Extent,
    operations: Vec<(u8, Op)>,
    counts: [u32; NODES],
}

impl Model for Script {
    ghost use Rattle.std.specs.Prelude.{◌≤◌};
    ghost use Rattle.sci_words.specs.declared.limits.TheConstants.{MAX_OPERATIONS};
    ghost use Rattle.sci_text.specs.Script.{ScriptValue, AreWithin, AreCounts};

    ghost Value = { ScriptValue };

    ghost view = { λ s. record {
      nodes = s.extent.nodes;
      lines = s.extent.lines;
      slots = s.extent.slots;
      operations = s.operations.items;
    } };

    ghost invariant = { λ s. AreWithin s.extent.nodes s.extent.lines s.operations.items
        × AreCounts s.counts s.operations.items };
}

/// Why an operation can't be added to a script.
#[derive(Clone, Copy, Debug, PartialEq, Eq)]
pub enum PushFault {
    /// The node, the line or the word is outside the machine.
    Range,
    /// The node has 65,536 operations.
    TooMany,
    /// Memory was refused.
    Memory,
}

impl From<PushFault> for TextFaultKind {
    ghost use Rattle.std.specs.Prelude.{◌≡◌};
    ghost use Rattle.sci_text.specs.Script.{kind_of};

    ghost from_gives = { λ fault kind. kind ≡ kind_of fault };

    fn from(fault: PushFault) -> TextFaultKind {
        match fault {
            PushFault::Range => TextFaultKind::Range,
            PushFault::TooMany => TextFaultKind::TooMany,
            PushFault::Memory => TextFaultKind::Memory,
        }
    }
}

ghost use Rattle.std.specs.Prelude.{◌↔◌, IsTrue};
ghost use Rattle.sci_text.specs.Script.{IsWithin};

/// Whether an operation is one of this machine's.
pub(crate) fn is_operation_within(extent: Extent, node: u8, op: Op) -> bool
    ensures { IsTrue result ↔ IsWithin extent.nodes extent.lines node op }
{
    node < extent.nodes && op.line < extent.lines && (op.word as usize) < WORDS_PER_LINE
}

impl Script {
    ghost use Rattle.std.specs.Prelude.{◌≡◌, ◌≤◌, ◌<◌, ◌++◌, [], ◌∷◌, OnOk, OnErr, IfErr};
    ghost use Rattle.sci_words.specs.declared.limits.TheConstants.{MAX_OPERATIONS};
    ghost use Rattle.sci_text.specs.Script.{IsScript, IsWithin, count_of, with_operation, PushRefusal};

    /// The script of a machine of this size with no operation.
    pub fn new(alloc: Global, extent: Extent) -> Script
        ensures value { result ≡ record {
          nodes = extent.nodes;
          lines = extent.lines;
          slots = extent.slots;
          operations = [];
        } }
        ensures good { IsScript result }
    {
        Script {
            extent,
            operations: Vec::new(alloc),
            counts: [0; NODES],
        }
    }

    /// The size of the machine.
    pub fn extent(&self) -> Extent
        ensures nodes { result.nodes ≡ self.now.nodes }
        ensures lines { result.lines ≡ self.now.lines }
        ensures slots { result.slots ≡ self.now.slots }
    {
        self.extent
    }

    /// The operations with their nodes, in text order.
    pub fn operations(&self) -> &[(u8, Op)]
        ensures value { result.now ≡ self.now.operations }
        ensures good { IsScript self.now }
    {
        &self.operations
    }

    /// Adds an operation of a node at the end. A refusal changes nothing: Range if the node, the line or
    /// the word is outside the machine, else TooMany if the node has 65,536 operations.
    pub fn push(&mut self, node: u8, op: Op) -> Result<(), PushFault>
        ensures ok { OnOk result (self.new ≡ with_operation self.old node op) }
        ensures within { OnOk result (IsWithin self.old.nodes self.old.lines node op) }
        ensures room { OnOk result (count_of node self.old.operations < MAX_OPERATIONS) }
        ensures refused { IfErr result (PushRefusal self.old node op) }
        ensures same { OnErr result (self.new ≡ self.old) }
        ensures good { IsScript self.new }
    {
        if !is_operation_within(self.extent, node, op) {
            return Err(PushFault::Range);
        }
        let place = node as usize;
        if self.counts[place] >= MAX_OPERATIONS {
            return Err(PushFault::TooMany);
        }
        let Ok(()) = self.operations.push((node, op)) else {
            return Err(PushFault::Memory);
        };
        self.counts[place] += 1;
        Ok(())
    }
}
