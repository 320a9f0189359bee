//! A memory that one thread works on.

ghost use Rattle.std.specs.Prelude.{◌≡◌, ◌≤◌, ◌<◌, ◌∷◌, [], ◌+◌, length, replicate, map, if◌then◌else◌};
ghost use Rattle.sci_words.specs.declared.limits.TheConstants.{MAX_LINES, WORDS_PER_LINE};
ghost use Rattle.sci_words.specs.{Operation.{IsMaker, is_maker}, Stamped.{zero_stamped}};
ghost use Rattle.sci_history.specs.Memory.{IsRun, contents_after, stamped_at, words_of_lines};

use crate::last::Last;
use sci_words::{MAX_LINES, Op, Reply, WORDS_PER_LINE};
use std::marker::Model;

/// A memory of 1 to 64 lines that one thread works on. Each line counts its makers in its version. Contracts
/// see the list of its stamped lines.
#[derive(Drop)]
pub struct Memory {
    contents: Last,
}

impl Model for Memory {
    ghost use Rattle.std.specs.Prelude.{List};
    ghost use Rattle.sci_words.specs.declared.stamped.Stamped.{Stamped};

    ghost Value = { List Stamped };

    ghost view = { λ memory. memory.contents };
}

impl Memory {
    /// That many lines of zero words at version 0. Requires that there are 1 to 64.
    pub fn new(lines: u8) -> Memory
        requires some { 1 ≤ lines }
        requires few { lines ≤ MAX_LINES }
        ensures { result ≡ replicate lines zero_stamped }
    {
        Memory {
            contents: Last::zero(lines),
        }
    }

    /// Does an operation, and answers its reply and the version of its line afterwards: the number of makers on
    /// the line so far, the operation included if it is one. Requires that line and word are in
    /// range and, for a maker, that the line's version is below the greatest u64.
    pub fn do_op(&mut self, op: Op) -> (Reply, u64)
        requires line { op.line < length self.old }
        requires word { op.word < WORDS_PER_LINE }
        requires room { IsMaker op → (stamped_at self.old op.line).version < u64.MAX }

        // It is one step of a run.
        ensures run { IsRun
            ((op, result.0) ∷ []) (words_of_lines self.old) (words_of_lines self.new) }

        // The line has its effect and the next version if it is a maker, and every other line stays.
        ensures after { self.new ≡ contents_after self.old op }
        ensures version { result.1
            ≡ (stamped_at self.old op.line).version + (if is_maker op then 1 else 0) }
    {
        let before = self.contents.get(op.line);
        let (after, reply) = before.after(op);
        let version = after.version;
        self.contents.set(op.line, after);
        (reply, version)
    }

    /// The contents of all lines.
    pub fn last(&self) -> Last
        ensures { result ≡ self.now }
    {
        self.contents.copy()
    }
}
