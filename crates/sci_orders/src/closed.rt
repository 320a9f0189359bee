//! Lines to which nothing more comes before an operation is performed there.

ghost use Rattle.std.specs.Prelude.{◌≡◌, ◌≤◌, length};
ghost use Rattle.sci_orders.specs.Eager.{IsChosen, has_to_come as has_to_come_of, has_waiting as has_waiting_of, is_closed as is_closed_of};
ghost use Rattle.sci_orders.specs.Positions.{Fits, lists_of, position_of};

use crate::orders::Orders;
use crate::standing::{Answer, Standing, is_waiting};
use sci_words::{Op, WORDS_PER_LINE};

/// Whether an operation of a node waits on a line, if these are its operations and what they have come to.
fn has_waiting(own: &[Op], answers: &[Answer], line: usize) -> bool
    requires { length answers.now ≤ length own.now }
    ensures { result ≡ has_waiting_of own.now answers.now line }
{
    for j in 0..answers.len() {
        if is_waiting(answers[j]) {
            if usize::from(own[j].line) == line {
                return true;
            }
        }
    }
    false
}

/// Whether a node has still to issue an operation on a line, if it has issued this number of its own.
fn has_to_come(own: &[Op], issued: usize, line: usize) -> bool
    ensures { result ≡ has_to_come_of own.now issued line }
{
    for i in 0..own.len() {
        if issued <= i {
            if usize::from(own[i].line) == line {
                return true;
            }
        }
    }
    false
}

impl<'a> Orders<'a> {
    /// Whether some operation waits on a line, and nothing more comes there before one that waits is performed: each node that
    /// has still to issue one there has one that waits there.
    fn is_closed(&self, standing: &Standing, line: usize) -> bool
        requires { Fits (lists_of self.now.operations.now) (position_of standing.now) }
        ensures { result ≡ is_closed_of (lists_of self.now.operations.now) (position_of standing.now) line }
    {
        let mut waits = false;
        for n in 0..self.operations.len() {
            let own = &self.operations[n];
            let answers = &standing.answers[n];
            if has_waiting(own, answers, line) {
                waits = true;
            } else if has_to_come(own, answers.len(), line) {
                return false;
            }
        }
        waits
    }

    /// The first such line, if there is one.
    pub(crate) fn closed_line(&self, standing: &Standing) -> Option<usize>
        requires { Fits (lists_of self.now.operations.now) (position_of standing.now) }
        ensures { IsChosen (lists_of self.now.operations.now) (position_of standing.now) result }
    {
        for line in 0..standing.words.len() / WORDS_PER_LINE + 1 {
            if self.is_closed(standing, line) {
                return Some(line);
            }
        }
        None
    }
}
