//! Why an operation can't be submitted.

use crate::node::Node;
use crate::obstacle::Obstacle;
use sci_words::{Op, WORDS_PER_LINE};

/// Why an operation can't be submitted, in the order in which the causes are looked for.
#[derive(Clone, Copy, Debug, PartialEq, Eq)]
pub enum SubmitFault {
    /// The machine has no such line.
    NoSuchLine,
    /// A line has no such word.
    NoSuchWord,
    /// An operation of this node on that line is pending.
    LineTaken,
    /// The node has submitted as many operations as it may.
    LogFull,
}

impl SubmitFault {
    ghost use Rattle.std.specs.Prelude.{◌≡◌, Some, None};
    ghost use Rattle.sci_core.specs.Node.{node_issuing};
    ghost use Rattle.sci_core.specs.Obstacles.{submit_fault, obstacle_of};

    /// Why an operation can't be issued at a node: the first cause that holds. Requires that it can't be issued there.
    pub fn of(node: &Node, op: &Op) -> SubmitFault
        requires { node_issuing node.now op.now ≡ None }
        ensures { submit_fault node.now op.now ≡ Some result }
    {
        // Read, so that the prover knows that the operands are words.
        let _may = node.may_issue(op);
        if op.line >= node.extent().lines {
            return SubmitFault::NoSuchLine;
        }
        if usize::from(op.word) >= WORDS_PER_LINE {
            return SubmitFault::NoSuchWord;
        }
        if node.pending(op.line).is_some() {
            return SubmitFault::LineTaken;
        }
        SubmitFault::LogFull
    }

    /// The same cause, as that of an Issue.
    pub(crate) fn obstacle(self) -> Obstacle
        ensures { result ≡ obstacle_of self }
    {
        match self {
            SubmitFault::NoSuchLine => Obstacle::NoSuchLine,
            SubmitFault::NoSuchWord => Obstacle::NoSuchWord,
            SubmitFault::LineTaken => Obstacle::AlreadyPending,
            SubmitFault::LogFull => Obstacle::NoIssueLeft,
        }
    }
}
