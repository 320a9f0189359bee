//! The word that a wrong reply should have had, and who made it.

ghost use Rattle.std.specs.Prelude.{◌≡◌, ◌≤◌, ◌<◌, ◌+◌, ℕ, List, IfOk, length};
ghost use Rattle.sci_words.specs.declared.limits.TheConstants.{MAX_LINES, MAX_OPERATIONS};
ghost use Rattle.sci_history.specs.{Audit.{AreWithin}, Placed.{log_of}};
ghost use Rattle.sci_reports.specs.{ReadLog.{IsReadLog}, Wanted.{IsWanted, IsWantedOf, wanted_by}};

use crate::explaining::subject_of;
use crate::faulty::{Cause, FaultyEntry};
use crate::finding::Finding;
use crate::numbered::entries_by_line;
use crate::read_log::ReadLog;
use sci_history::{Entry, FaultKind, Last, LineFault, Logs, Verdict, audit};
use sci_words::Word;
use std::alloc::{AllocError, Global};

/// The word that one memory of one thread has where a reply is wrong.
#[derive(Clone, Copy, Debug, PartialEq, Eq)]
pub struct Wanted {
    /// The word.
    pub word: Word,
    /// The entry that made it. None if it is the zero that was there at first.
    pub maker: Option<Entry>,
}

/// What is wanted where an entry is at fault.
fn wanted_at(found: &Option<FaultyEntry>) -> Option<Wanted>
    ensures { result ≡ wanted_by found.now }
{
    match found {
        Some(
            FaultyEntry {
                cause: Cause::OtherWord(word, maker),
                ..
            },
        ) => Some(Wanted {
            word: *word,
            maker: maker.map(|it| *it.entry),
        }),
        _ => None,
    }
}

/// What is wanted where an audit of a log finds a wrong reply, of a text with this many lines before the entries.
fn wanted_in(
    alloc: Global,
    before: usize,
    logs: &Logs,
    last: &Last,
) -> Result<Option<Wanted>, AllocError>
    requires within { AreWithin (length last.now) logs.now }
    requires lines { length last.now ≤ before }
    requires before { before ≤ MAX_LINES + 1 }
    requires few { (n : ℕ) → length (log_of logs.now n) ≤ MAX_OPERATIONS }
    ensures { IfOk result (IsWanted before logs.now last.now) }
{
    // Read, so that the prover knows that there are sixteen logs, and that each has its own node's entries.
    let _nodes = logs.nodes();
    let Verdict::Fault {
        line,
        kind: FaultKind::WrongReply,
        at,
    } = audit(alloc, logs, last)?
    else {
        return Ok(None);
    };
    let fault = LineFault {
        kind: FaultKind::WrongReply,
        at,
    };
    let mut lists = entries_by_line(alloc, logs, before, last.lines())?;
    let entries = lists.swap_remove(line as usize);
    let subject = subject_of(before, last, line, entries);
    let finding = Finding::of(alloc, fault, subject)?;
    Ok(wanted_at(&finding.found))
}

impl ReadLog {
    /// Where an audit of the log finds a wrong reply, the word that one memory of one thread has there, and the entry that made it;
    /// None if it finds something else. Refused if memory is.
    pub fn wanted(&self, alloc: Global) -> Result<Option<Wanted>, AllocError>
        requires { (text : List ℕ) × IsReadLog text self.now }
        ensures { (text : List ℕ) → IsReadLog text self.now → IfOk result (IsWantedOf text) }
    {
        wanted_in(alloc, self.before, &self.logs, &self.last)
    }
}
