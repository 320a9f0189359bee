//! Nodes with operations to do, which go again and again until all is performed.

use crate::nodes::Nodes;
use sci_history::Verdict;
use sci_policy::SubmitFault;
use sci_words::{Act, Op};
use std::alloc::Global;
use std::test::*;

/// How many operations of a node may be pending.
const MOST_PENDING: usize = 4;

/// A node's operations, and how many of them were submitted and performed.
#[derive(Drop)]
struct Script {
    ops: Vec<Op>,
    submitted: usize,
    performed: usize,
}

/// Nodes with operations to do.
#[derive(Drop)]
pub(crate) struct Busy<N> {
    nodes: N,
    lines: u8,
    scripts: Vec<Script>,
    /// How many packets the nodes have taken.
    pub(crate) packets: u64,
}

impl<N: Nodes + Drop> Busy<N> {
    /// The nodes of a machine with this many nodes and lines, which have nothing to do.
    pub(crate) fn new(alloc: Global, nodes: N, count: u8, lines: u8) -> Result<Busy<N>, Fail> {
        let mut scripts = Vec::new(alloc);
        for _node in 0..count {
            scripts.push(Script {
                ops: Vec::new(alloc),
                submitted: 0,
                performed: 0,
            })?;
        }
        Ok(Busy {
            nodes,
            lines,
            scripts,
            packets: 0,
        })
    }

    /// The nodes of a machine with this many nodes and one line, each of which has these operations on word 0 to do.
    pub(crate) fn sharing(
        alloc: Global,
        nodes: N,
        count: u8,
        acts: &[(u8, Act)],
    ) -> Result<Busy<N>, Fail> {
        let mut busy = Busy::new(alloc, nodes, count, 1)?;
        for (node, act) in acts {
            let op = Op {
                line: 0,
                word: 0,
                act: *act,
            };
            busy.add(*node, op)?;
        }
        Ok(busy)
    }

    /// A node has an operation more to do.
    pub(crate) fn add(&mut self, node: u8, op: Op) -> Result<(), Fail> {
        let script = self.scripts.get_mut(usize::from(node)).ok_or("no node")?;
        script.ops.push(op)?;
        Ok(())
    }

    /// A node submits its next operation if it can, performs what it can, and takes a turn.
    pub(crate) fn go(&mut self, node: u8) -> Result<(), Fail> {
        let script = self.scripts.get_mut(usize::from(node)).ok_or("no node")?;
        if script.submitted < script.performed.saturating_add(MOST_PENDING) {
            if let Some(op) = script.ops.get(script.submitted) {
                match self.nodes.submit(node, *op)? {
                    Ok(_serial) => script.submitted = script.submitted.saturating_add(1),
                    Err(SubmitFault::LineTaken) => {}
                    Err(fault) => return Err(Fail::from(fault)),
                }
            }
        }
        for line in 0..self.lines {
            if self.nodes.perform(node, line)?.is_some() {
                script.performed = script.performed.saturating_add(1);
            }
        }
        let progress = self.nodes.turn(node)?;
        let taken = u64::from(progress.accepted).saturating_add(u64::from(progress.served));
        self.packets = self.packets.saturating_add(taken);
        Ok(())
    }

    /// Nodes go in this order.
    pub(crate) fn go_all(&mut self, order: &[u8]) -> Result<(), Fail> {
        for node in order {
            self.go(*node)?;
        }
        Ok(())
    }

    /// Whether a node has performed all its operations.
    pub(crate) fn has_done(&self, node: u8) -> bool {
        match self.scripts.get(usize::from(node)) {
            Some(script) => script.performed >= script.ops.len(),
            None => false,
        }
    }

    /// Whether every operation was performed.
    pub(crate) fn is_done(&self) -> bool {
        self.scripts
            .iter()
            .all(|script| script.performed >= script.ops.len())
    }

    /// Nodes go in this order, again and again, until all is done: how many rounds that took. An error if it takes more than
    /// `most`.
    pub(crate) fn rounds(&mut self, order: &[u8], most: u32) -> Result<u32, Fail> {
        for round in 0..most {
            if self.is_done() {
                return Ok(round);
            }
            self.go_all(order)?;
        }
        Err(Fail::from("turns that don't end"))
    }

    /// An error unless the logs are lawful.
    pub(crate) fn is_lawful(self, alloc: Global) -> Result<(), Fail> {
        let (verdict, _text) = self.nodes.finish(alloc)?;
        if verdict != Verdict::Lawful {
            return Err(Fail::from(verdict));
        }
        Ok(())
    }

    /// Nodes go in this order, again and again, at most 1,000 times, until all is done. An error if it isn't done then, or the
    /// logs are not lawful.
    pub(crate) fn end(mut self, alloc: Global, order: &[u8]) -> Result<(), Fail> {
        let _rounds = self.rounds(order, 1_000)?;
        self.is_lawful(alloc)
    }
}
