//! Nodes of one machine that run by themselves: what tests do with them, whatever they are.

use sci_history::{Entry, Verdict};
use sci_policy::{Progress, SubmitFault};
use sci_words::Op;
use std::alloc::Global;
use std::test::*;

/// The nodes of one machine. Each call is an error if there is no such node.
pub(crate) trait Nodes {
    /// Submits an operation at a node: its serial, or why it is refused.
    fn submit(&mut self, node: u8, op: Op) -> Result<Result<u32, SubmitFault>, Fail>;

    /// Performs the operation that is pending on a line at a node, if it can be.
    fn perform(&mut self, node: u8, line: u8) -> Result<Option<Entry>, Fail>;

    /// A node takes a turn.
    fn turn(&mut self, node: u8) -> Result<Progress, Fail>;

    /// A node takes a turn of at most `most` steps on words. The second part is how many it made.
    fn turn_within(&mut self, node: u8, most: u32) -> Result<(Progress, u32), Fail>;

    /// What an audit says of all logs and last contents, and their text.
    fn finish(self, alloc: Global) -> Result<(Verdict, Vec<u8>), Fail>;
}
