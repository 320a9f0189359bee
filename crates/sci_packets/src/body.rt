//! What packets say.

use crate::node_id::NodeId;
use sci_words::Stamped;

/// What a packet says: one variant for each command. An identifier that a command leaves unused is no field
/// of its variant.
#[derive(Clone, Copy, Debug, PartialEq, Eq)]
pub enum Body {
    /// Request to the home: a copy, with the wish to write (mread64).
    Mread,
    /// Request to the old head: its contents (cread64).
    Cread,
    /// Request of the head to the next entry: leave the list.
    Purge,
    /// Request of a leaver to the entry before it: its forward identifier, or none.
    Roll {
        forward: Option<NodeId>,
    },
    /// Request to the home: take the contents back.
    Wback(Stamped),
    /// Request of a leaver to the entry behind it: its new backward identifier.
    Setback {
        backward: NodeId,
    },
    /// Request to the home: a copy, with the wish to read alone (mread64 with a read wish).
    Fread,
    /// Request to the home: let the head of a fresh list write.
    Claim,
    /// Request to the home: let the only entry of a fresh list leave.
    Clear,
    /// Answer to Mread: the home's contents.
    Mdata(Stamped),
    /// Answer to Mread or Fread: the old head, which has the contents.
    Mgone {
        old_head: NodeId,
    },
    /// Answer to Cread: the contents.
    Cdata(Stamped),
    /// Answer to Purge: the forward identifier of the entry that left, or none.
    Purged {
        forward: Option<NodeId>,
    },
    /// Answer to Roll: the leaver is out of the list.
    Rolled,
    /// Answer to Wback, Claim or Clear: done.
    Wbok,
    /// Answer to Wback, Claim or Clear: not done.
    Wbno,
    /// Answer to Setback.
    Told,
    /// Answer to any request but Setback: nothing was done.
    Busy,
    /// Answer to Fread: the home's contents, and the old head, or none.
    Fdata {
        old_head: Option<NodeId>,
        contents: Stamped,
    },
}
