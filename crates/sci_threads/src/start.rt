//! Whether all nodes of a run have begun.

use std::sync::atomic::{AtomicU64, Ordering};

/// How many nodes of a run have begun, and whether one has given up waiting for the others: a thread can't be made, say.
#[derive(Drop)]
pub(crate) struct Start {
    nodes: u64,
    begun: AtomicU64,
    given_up: AtomicU64,
}

impl Start {
    /// None of this many nodes has begun.
    pub(crate) fn new(nodes: usize) -> Start {
        Start {
            nodes: nodes as u64,
            begun: AtomicU64::new(0),
            given_up: AtomicU64::new(0),
        }
    }

    /// One more node has begun.
    pub(crate) fn begin(&self) {
        let _before = self.begun.fetch_add(1, Ordering::SeqCst);
    }

    /// Whether all nodes have begun.
    pub(crate) fn all_begun(&self) -> bool {
        self.begun.load(Ordering::SeqCst) >= self.nodes
    }

    /// A node gives up waiting for the others to begin.
    pub(crate) fn give_up(&self) {
        self.given_up.store(1, Ordering::SeqCst);
    }

    /// Whether a node has given up.
    pub(crate) fn has_given_up(&self) -> bool {
        self.given_up.load(Ordering::SeqCst) != 0
    }
}
