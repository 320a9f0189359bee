//! What tests of ends and of stations have in common: operations on word 0 of line 0, and the orders of three nodes.

use sci_history::Entry;
use sci_words::{Act, Op, Reply};

/// An operation on word 0 of line 0.
pub(crate) fn op(act: Act) -> Op {
    Op {
        line: 0,
        word: 0,
        act,
    }
}

/// The entry of a node's first operation, a store of a word that made a version.
pub(crate) fn stored(node: u8, word: u64, version: u64) -> Entry {
    Entry {
        node,
        serial: 0,
        op: op(Act::Store(word)),
        reply: Reply::Stored,
        version,
    }
}

/// By which swaps three things come in each order.
pub(crate) const ORDERS: [[(usize, usize); 2]; 6] = [
    [(0, 0), (0, 0)],
    [(0, 1), (0, 0)],
    [(0, 2), (0, 0)],
    [(1, 2), (0, 0)],
    [(0, 1), (1, 2)],
    [(0, 1), (0, 2)],
];
