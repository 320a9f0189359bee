//! What a log keeps of an operation.

use sci_words::{Op, Reply};

/// An operation that was performed, as its node's log keeps it.
#[derive(Clone, Copy, Debug, PartialEq, Eq)]
pub struct Entry {
    /// The node, below 16.
    pub node: u8,
    /// The node's number of the operation in the order of issue, from 0.
    pub serial: u32,
    /// The operation.
    pub op: Op,
    /// What it answered.
    pub reply: Reply,
    /// Of a maker the version that it made, of a load the version that it read.
    pub version: u64,
}
