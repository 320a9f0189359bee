//! What a look for one order of all entries of a window finds.

use sci_history::{Entry, FaultKind, Step};

/// What a look for one order of all entries of a window finds.
#[derive(Debug, Drop)]
pub enum WindowOrder {
    /// The window isn't lawful: what an audit reports of it.
    Fault {
        line: u8,
        kind: FaultKind,
        /// Node and serial of the entry where the rule fails; none if the last contents differ.
        at: Option<(u8, u32)>,
    },
    /// All entries, in an order that one memory of one thread explains.
    Order(Vec<Entry>),
    /// There is no such order: each of these entries would have to come after the next, and the last after the first.
    Cycle(Vec<Step>),
}
