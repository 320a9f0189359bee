//! A line as far as its operations were told, and what is said of the next one.

ghost use Rattle.std.specs.Prelude.{◌≡◌, Option};
ghost use Rattle.sci_windows.specs.Scoreboard.{is_behind as is_behind_of};

use crate::score::Score;
use sci_history::{Entry, FaultKind};
use sci_words::{MAX_NODES, Stamped, effect};

const NODES: usize = MAX_NODES as usize;

/// Where a node stands on a line: serial and version of the latest of its operations there.
#[derive(Clone, Copy)]
pub struct Latest {
    pub serial: u32,
    pub version: u64,
}

/// A line as far as its operations were told.
#[derive(Clone, Copy)]
pub struct LineSoFar {
    /// The version with which it began.
    pub first: u64,
    /// Its contents after the operations that were told.
    pub contents: Stamped,
    /// Where each node stands on it; None if nothing was told of the node there.
    pub latest: [Option<Latest>; NODES],
}

/// Whether an operation doesn't follow the latest one of its node on the line.
fn is_behind(latest: Option<Latest>, entry: &Entry) -> bool
    ensures { result ≡ is_behind_of latest entry.now }
{
    match latest {
        None => false,
        Some(latest) => entry.serial <= latest.serial || entry.version < latest.version,
    }
}

impl LineSoFar {
    ghost use Rattle.std.specs.Prelude.{◌≡◌, ◌<◌, ◌↔◌, IsTrue};
    ghost use Rattle.sci_words.specs.declared.limits.TheConstants.{MAX_NODES, WORDS_PER_LINE};
    ghost use Rattle.sci_windows.specs.Scoreboard.{IsNext, IsScore, begun_with, early_fault, with_entry};

    /// A line that begins with these contents.
    pub(crate) fn begun(contents: Stamped) -> LineSoFar
        ensures { result ≡ begun_with contents }
    {
        LineSoFar {
            first: contents.version,
            contents,
            latest: [None; NODES],
        }
    }

    /// The rule that an entry breaks whatever the line has: its version was there before the line began, or is made already,
    /// or its node is past it. Requires that the node is below 16.
    fn early_fault(&self, entry: &Entry) -> Option<FaultKind>
        requires { entry.now.node < MAX_NODES }
        ensures { result ≡ early_fault self.now entry.now }
    {
        let makes = entry.op.is_maker();
        if entry.version < self.first || (makes && entry.version == self.first) {
            return Some(FaultKind::VersionMissing);
        }
        if makes && entry.version <= self.contents.version {
            return Some(FaultKind::VersionTwice);
        }
        if is_behind(self.latest[entry.node as usize], entry) {
            return Some(FaultKind::OutOfOrder);
        }
        None
    }

    /// Whether the line comes to the entry's version by the entry.
    fn is_next(&self, entry: &Entry) -> bool
        ensures { IsTrue result ↔ IsNext self.now entry.now }
    {
        let version = self.contents.version;
        if entry.op.is_maker() {
            entry.version > version && entry.version - version == 1
        } else {
            entry.version == version
        }
    }

    /// What is said of an entry. Requires that its node is below 16, and its word below 8.
    pub(crate) fn score(&self, entry: &Entry) -> Score
        requires node { entry.now.node < MAX_NODES }
        requires word { entry.now.op.word < WORDS_PER_LINE }
        ensures { IsScore self.now entry.now result }
    {
        if let Some(kind) = self.early_fault(entry) {
            return Score::Fault(kind);
        }
        if !self.is_next(entry) {
            return Score::NotNext;
        }
        let (_, reply) = effect(entry.op, self.contents.line.word(entry.op.word));
        if reply == entry.reply {
            Score::Taken
        } else {
            Score::Fault(FaultKind::WrongReply)
        }
    }

    /// Takes an entry. Requires that it is the next one, that its node is below 16, and its word below 8.
    pub(crate) fn take(&mut self, entry: &Entry)
        requires next { IsNext self.old entry.now }
        requires node { entry.now.node < MAX_NODES }
        requires word { entry.now.op.word < WORDS_PER_LINE }
        ensures { self.new ≡ with_entry self.old entry.now }
    {
        let _reply = self.contents.apply(entry.op);
        self.latest[entry.node as usize] = Some(Latest {
            serial: entry.serial,
            version: entry.version,
        });
    }
}
