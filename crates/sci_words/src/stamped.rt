//! Lines with their versions.

use crate::limits::WORDS_PER_LINE;
use crate::line::Line;
use crate::operation::{Op, Reply, effect};

/// A line's contents with the number of their version: how many operations have made a new version of the
/// line so far.
#[derive(Clone, Copy, Debug, PartialEq, Eq)]
pub struct Stamped {
    pub line: Line,
    pub version: u64,
}

impl Stamped {
    ghost use Rattle.std.specs.Prelude.{◌≡◌, ◌+◌, ◌^◌, ◌<◌};
    ghost use Rattle.sci_words.specs.{Operation.{IsMaker}, Stamped.{after as stamped_after, reply_of}};

    /// What the line becomes by an operation, and the reply: the operation's word by its effect, and the
    /// version one more for a maker. Requires that the word's place is below eight and, for a
    /// maker, that the version is below the greatest u64.
    pub fn after(self, op: Op) -> (Stamped, Reply)
        requires word { op.word < WORDS_PER_LINE }
        requires room { IsMaker op → self.version < u64.MAX }
        ensures after { result.0 ≡ stamped_after self op }
        ensures reply { result.1 ≡ reply_of self.line op }
    {
        let mut after = self;
        let reply = after.apply(op);
        (after, reply)
    }

    /// Does an operation here, and gives the reply: what `after` gives, in place. The conditions are those of `after`.
    pub fn apply(&mut self, op: Op) -> Reply
        requires word { op.word < WORDS_PER_LINE }
        requires room { IsMaker op → self.old.version < u64.MAX }
        ensures after { self.new ≡ stamped_after self.old op }
        ensures reply { result ≡ reply_of self.old.line op }
    {
        let (word, reply) = effect(op, self.line.word(op.word));
        if op.is_maker() {
            self.version += 1;
        }
        self.line.set(op.word, word);
        reply
    }
}
