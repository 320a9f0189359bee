//! Logs with first and last contents.

ghost use Rattle.std.specs.Prelude.{◌≡◌, ◌≤◌, ◌↔◌, IfOk, IsTrue, length, replicate};
ghost use Rattle.sci_words.specs.{declared.limits.TheConstants.{MAX_LINES}, Stamped.{zero_stamped}};
ghost use Rattle.sci_windows.specs.Relative.{AreEarly};

use sci_c_values::{SCI_FULL, SCI_NO_MEMORY, SCI_OK, SciEntry};
use sci_history::{Entry, Last, Logs, PushFault};
use sci_words::{Line, Stamped, WORDS_PER_LINE};
use std::alloc::{AllocError, Global};
use std::marker::Model;

/// No version of first contents is above this, so that no window comes to the end of the versions.
pub(crate) const MAX_FIRST_VERSION: u64 = 1 << 63;

/// The logs of a machine of some nodes, the contents with which they begin, if they were given, and its last contents. Each entry
/// is on one of its lines, and on a word of it.
#[derive(Drop)]
pub struct Journal {
    nodes: u8,
    logs: Logs,
    first: Option<Box<Last, Global>>,
    last: Box<Last, Global>,
}

/// Whether no version of contents is above that of first contents.
fn are_early(contents: &Last) -> bool
    ensures { IsTrue result ↔ AreEarly contents.now }
{
    for line in 0..contents.lines() {
        if contents.get(line).version > MAX_FIRST_VERSION {
            return false;
        }
    }
    true
}

/// Zero words at version 0 on some lines, on the heap, as they take some KB. Refused if memory is. Requires that there are 1 to 64.
#[inline(never)]
pub(crate) fn zeros(alloc: Global, lines: u8) -> Result<Box<Last, Global>, AllocError>
    requires some { 1 ≤ lines }
    requires few { lines ≤ MAX_LINES }
    ensures { IfOk result (λ zeros. zeros.value ≡ replicate lines zero_stamped) }
{
    Ok(Box::new(alloc, Last::zero(lines))?)
}

/// Makes lines the same as others. Requires that there are as many.
fn put_same(copy: &mut Last, contents: &Last)
    requires { length copy.old ≡ length contents.now }
    ensures { copy.new ≡ contents.now }
{
    for line in 0..contents.lines() {
        copy.set(line, contents.get(line));
    }
}

/// The same contents, on the heap. Refused if memory is.
fn copied(alloc: Global, contents: &Last) -> Result<Box<Last, Global>, AllocError>
    ensures { IfOk result (λ copy. copy.value ≡ contents.now) }
{
    let mut copy = zeros(alloc, contents.lines())?;
    put_same(&mut copy, contents);
    Ok(copy)
}

impl Model for Journal {
    ghost use Rattle.std.specs.Prelude.{option_map};
    ghost use Rattle.sci_c.specs.Journal.{JournalOf, IsJournal};

    ghost Value = { JournalOf };

    ghost view = { λ journal. record { nodes = journal.nodes; logs = journal.logs; first = option_map (λ first. first.value) journal.first; last = journal.last.value } };

    ghost invariant = { λ journal. IsJournal (record { nodes = journal.nodes; logs = journal.logs; first = option_map (λ first. first.value) journal.first; last = journal.last.value }) };
}

impl Journal {
    ghost use Rattle.std.specs.Prelude.{◌≡◌, ◌≢◌, ◌^◌, ◌<◌, ◌≤◌, ◌↔◌, ◌⊎◌, IsTrue, IfOk, OnOk, OnErr, true, false, length, option_map};
    ghost use Rattle.sci_words.specs.declared.limits.TheConstants.{MAX_NODES, MAX_OPERATIONS};
    ghost use Rattle.sci_history.specs.{Audit.{AreWithin, IsWithin}, Memory.{stamped_at}, Placed.{log_of}};
    ghost use Rattle.sci_text.specs.LogValue.{IsSize};
    ghost use Rattle.sci_c_values.specs.declared.status.TheConstants.{SCI_FULL, SCI_NO_MEMORY, SCI_OK};
    ghost use Rattle.sci_windows.specs.Relative.{AreEarly};
    ghost use Rattle.sci_c.specs.Journal.{FitsJournal, IsBeginning, empty_journal, first_of, journal_of, next_window, with_entry, with_first, with_last};

    /// Logs without entries, and zero words at version 0. Refused if memory is. Requires that there are 1 to 16 nodes and 1 to 64 lines.
    pub(crate) fn new(alloc: Global, nodes: u8, lines: u8) -> Result<Journal, AllocError>
        requires { IsSize nodes lines }
        ensures { IfOk result (λ journal. journal ≡ empty_journal nodes lines) }
    {
        let last = zeros(alloc, lines)?;
        Ok(Journal {
            nodes,
            logs: Logs::new(alloc),
            first: None,
            last,
        })
    }

    /// These logs and last contents. Requires that they fit together.
    pub(crate) fn of(nodes: u8, logs: Logs, last: Box<Last, Global>) -> Journal
        requires some { 1 ≤ nodes }
        requires few { nodes ≤ MAX_NODES }
        requires within { AreWithin (length last.value) logs }
        ensures { result ≡ journal_of nodes logs last.value }
    {
        Journal {
            nodes,
            logs,
            first: None,
            last,
        }
    }

    /// How many nodes the machine has.
    pub(crate) fn nodes(&self) -> u8
        ensures { result ≡ self.now.nodes }
    {
        self.nodes
    }

    /// The logs.
    pub(crate) fn logs(&self) -> &Logs
        ensures logs { result.now ≡ self.now.logs }
        ensures within { AreWithin (length self.now.last) self.now.logs }
    {
        &self.logs
    }

    /// The contents with which the logs begin, or None if they were not given: zero words at version 0.
    pub(crate) fn first(&self) -> Option<&Last>
        ensures first { option_map (λ first. first.now) result ≡ self.now.first }
        ensures begins { IsBeginning (length self.now.last) self.now.first }
    {
        match &self.first {
            Some(first) => Some(first),
            None => None,
        }
    }

    /// The last contents.
    pub(crate) fn last(&self) -> &Last
        ensures { result.now ≡ self.now.last }
    {
        &self.last
    }

    /// Whether the node, the line and the word that the struct says are those of the logs.
    pub(crate) fn takes(&self, entry: &SciEntry) -> bool
        ensures { IsTrue result ↔ FitsJournal self.now entry.now }
    {
        entry.node < self.nodes
            && entry.op.line < self.last.lines()
            && usize::from(entry.op.word) < WORDS_PER_LINE
    }

    /// Ends the log of the entry's node with the entry, and answers a status. Requires that the logs have its
    /// node, its line and its word.
    pub(crate) fn push(&mut self, entry: Entry) -> u32
        requires node { entry.node < self.old.nodes }
        requires within { IsWithin (length self.old.last) entry }
        ensures done { result ≡ SCI_OK → self.new ≡ with_entry self.old entry }
        ensures full { result ≡ SCI_FULL
            → MAX_OPERATIONS ≤ length (log_of self.old.logs entry.node) }
        ensures status { (result ≡ SCI_OK) ⊎ ((result ≡ SCI_FULL) ⊎ (result ≡ SCI_NO_MEMORY)) }
        ensures same { result ≢ SCI_OK → self.new ≡ self.old }
    {
        match self.logs.push(entry) {
            Ok(()) => SCI_OK,
            Err(PushFault::Full) => SCI_FULL,
            Err(PushFault::Memory(_)) => SCI_NO_MEMORY,
        }
    }

    /// Replaces the last contents of a line. Requires that there is such a line.
    pub(crate) fn set_last(&mut self, line: u8, contents: Stamped)
        requires { line < length self.old.last }
        ensures { self.new ≡ with_last self.old line contents }
    {
        self.last.set(line, contents);
    }

    /// The contents with which a line begins. Requires that there is such a line.
    pub(crate) fn first_contents(&self, line: u8) -> Stamped
        requires { line < length self.now.last }
        ensures { result ≡ stamped_at (first_of self.now) line }
    {
        match &self.first {
            Some(first) => first.get(line),
            None => Stamped {
                line: Line::zero(),
                version: 0,
            },
        }
    }

    /// Replaces the contents with which a line begins. Refused, unchanged, if memory is. Requires that there is such a line, and that
    /// the version isn't above 2^63.
    pub(crate) fn set_first(
        &mut self,
        alloc: Global,
        line: u8,
        contents: Stamped,
    ) -> Result<(), AllocError>
        requires line { line < length self.old.last }
        requires early { contents.version ≤ 2 ^ 63 }
        ensures done { OnOk result (self.new ≡ with_first self.old line contents) }
        ensures same { OnErr result (self.new ≡ self.old) }
    {
        match &mut self.first {
            Some(first) => first.set(line, contents),
            None => {
                let mut first = zeros(alloc, self.last.lines())?;
                first.set(line, contents);
                self.first = Some(first);
            }
        }
        Ok(())
    }

    /// Drops all entries, and begins with the last contents. False, unchanged, if a version of theirs is above 2^63. Refused,
    /// unchanged, if memory is.
    pub(crate) fn go_on(&mut self, alloc: Global) -> Result<bool, AllocError>
        ensures done { IfOk result (λ done. done ≡ true → self.new ≡ next_window self.old) }
        ensures late { IfOk result (λ done. done ≡ false → AreEarly self.old.last → ⊥) }
        ensures not { IfOk result (λ done. done ≡ false → self.new ≡ self.old) }
        ensures same { OnErr result (self.new ≡ self.old) }
    {
        if !are_early(&self.last) {
            return Ok(false);
        }
        let first = copied(alloc, &self.last)?;
        self.first = Some(first);
        self.logs = Logs::new(alloc);
        Ok(true)
    }
}
