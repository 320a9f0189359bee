//! What a look for one order of all entries finds.

ghost use Rattle.std.specs.Prelude.{◌≡◌};
ghost use Rattle.sci_history.specs.Placing.{line_reason};

use crate::entry::Entry;
use crate::verdict::FaultKind;

/// Why an entry comes after another in every order that makes logs sequentially consistent.
#[derive(Clone, Copy, Debug, PartialEq, Eq)]
pub enum Reason {
    /// The other stands before it in their node's log (program order).
    Logged,
    /// It is a load of the version that the other made (reads-from).
    ReadsFrom,
    /// It made a version above the one at which the other, a load, read the line (from-read).
    FromRead,
    /// It made a version above the one that the other made (coherence order).
    Coherence,
}

/// Why an entry comes after another by what both are on their line, or None if it doesn't.
pub(crate) fn reason_after(entry: &Entry, other: &Entry) -> Option<Reason>
    ensures { result ≡ line_reason entry.now other.now }
{
    if other.op.line != entry.op.line {
        return None;
    }
    match (entry.op.is_maker(), other.op.is_maker()) {
        (true, true) if other.version < entry.version => Some(Reason::Coherence),
        (true, false) if other.version < entry.version => Some(Reason::FromRead),
        (false, true) if other.version == entry.version => Some(Reason::ReadsFrom),
        _ => None,
    }
}

/// An entry of a cycle, and why it comes after the next one; the first is next to the last.
#[derive(Clone, Copy, Debug, PartialEq, Eq)]
pub struct Step {
    /// The entry.
    pub entry: Entry,
    /// Its place in the log of its node, from 0.
    pub place: usize,
    /// Why it comes after the next entry of the cycle.
    pub reason: Reason,
}

/// What a look for one order of all entries finds.
#[derive(Debug, Drop)]
pub enum OrderVerdict<'a> {
    /// The logs aren't lawful: what an audit reports of them.
    Fault {
        line: u8,
        kind: FaultKind,
        /// Node and serial of the entry where the rule fails; none if the last contents differ.
        at: Option<(u8, u32)>,
    },
    /// All entries, in an order that makes the logs sequentially consistent.
    Order(Vec<&'a Entry>),
    /// There is no such order: each of these entries would have to come after the next, and the last after the first.
    Cycle(Vec<Step>),
}
