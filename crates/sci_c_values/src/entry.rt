//! Entries of logs.

ghost use Rattle.std.specs.Prelude.{◌≡◌, MatchOption};
ghost use Rattle.sci_c_values.specs.{Entry.{SaysEntry, SaysReplyTo, entry_struct}, Saying.{SaysNone}};

use crate::operation::{SciOp, op_in, op_out};
use sci_history::Entry;
use sci_words::{Act, Reply};

/// An entry of a log. `has_word` is 1 if the operation answered `word`, and 0 for a store.
#[repr(C)]
#[derive(Clone, Copy)]
pub struct SciEntry {
    pub node: u8,
    pub has_word: u8,
    pub reserved: u16,
    pub serial: u32,
    pub op: SciOp,
    pub word: u64,
    pub version: u64,
}

/// The reply that the struct says, or None if it says none that an operation of this act can have.
fn reply_in(entry: &SciEntry, act: Act) -> Option<Reply>
    ensures { MatchOption result (SaysNone (SaysReplyTo act entry.now)) (SaysReplyTo act entry.now) }
{
    match act {
        Act::Store(_) => match entry.has_word {
            0 => Some(Reply::Stored),
            _ => None,
        },
        Act::Load | Act::Lock(_) => match entry.has_word {
            1 => Some(Reply::Got(entry.word)),
            _ => None,
        },
    }
}

/// The entry that the struct says, or None if it says none.
pub fn entry_in(entry: &SciEntry) -> Option<Entry>
    ensures { MatchOption result (SaysNone (SaysEntry entry.now)) (SaysEntry entry.now) }
{
    let op = op_in(&entry.op)?;
    Some(Entry {
        node: entry.node,
        serial: entry.serial,
        op,
        reply: reply_in(entry, op.act)?,
        version: entry.version,
    })
}

/// The struct of an entry. A word that it doesn't have is 0.
pub fn entry_out(entry: &Entry) -> SciEntry
    ensures { result ≡ entry_struct entry.now }
{
    let (has_word, word) = match entry.reply {
        Reply::Stored => (0, 0),
        Reply::Got(word) => (1, word),
    };
    SciEntry {
        node: entry.node,
        has_word,
        reserved: 0,
        serial: entry.serial,
        op: op_out(&entry.op),
        word,
        version: entry.version,
    }
}
