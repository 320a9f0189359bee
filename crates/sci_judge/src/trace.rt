//! What a trace says.

use crate::access::Access;
use sci_words::Word;
use std::collections::BTreeMap;

/// A trace: what processors did, and the last words that are known.
#[derive(Drop)]
pub struct Trace {
    /// The operations, those of each processor in program order.
    pub accesses: Vec<Access>,
    /// The last word at each address where it is known.
    pub last: BTreeMap<u64, Word>,
}
