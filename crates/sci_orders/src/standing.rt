//! How far the operations of a script have come on one memory of one thread.

ghost use Rattle.std.specs.Prelude.{◌≡◌, ◌<◌, ◌≤◌, ◌*◌, ◌++◌, length, map, All, IfOk, OnOk, option_map};
ghost use Rattle.sci_words.specs.declared.limits.TheConstants.{WORDS_PER_LINE};
ghost use Rattle.sci_orders.specs.Positions.{answer_of as answer_of_reply, is_waiting as is_waiting_answer, may_issue_next};

use crate::orders::Orders;
use sci_words::{Op, Reply, WORDS_PER_LINE, Word, effect};
use std::alloc::{AllocError, Global};

/// What an operation that is issued has come to.
#[derive(Clone, Copy, Debug, PartialEq, Eq, PartialOrd, Ord)]
pub enum Answer {
    /// It isn't performed yet.
    Waiting,
    /// A store was done.
    Stored,
    /// The word as it was before the operation.
    Got(Word),
}

/// How far a script has come.
#[derive(Debug, Drop, PartialEq, Eq, PartialOrd, Ord)]
pub struct Standing {
    /// For each node what its operations have come to, as far as they are issued, in their order.
    pub answers: Vec<Vec<Answer>>,
    /// Each word of memory, by line, then by place.
    pub words: Vec<Word>,
}

/// What a reply is as an answer.
fn answer_of(reply: Reply) -> Answer
    ensures { result ≡ answer_of_reply reply }
{
    match reply {
        Reply::Stored => Answer::Stored,
        Reply::Got(word) => Answer::Got(word),
    }
}

/// Whether the operation waits that has this answer.
pub(crate) fn is_waiting(answer: Answer) -> bool
    ensures { result ≡ is_waiting_answer answer }
{
    matches!(answer, Answer::Waiting)
}

/// Whether a node can issue operation i of its own next, if it has issued those that have these answers.
fn may_issue(own: &[Op], answers: &[Answer], window: usize, i: usize) -> bool
    requires i { i < length own.now }
    requires issued { length answers.now ≤ length own.now }
    ensures { result ≡ may_issue_next own.now answers.now window i }
{
    if answers.len() != i {
        return false;
    }
    let mut waiting = 0;
    for j in 0..answers.len() {
        if is_waiting(answers[j]) {
            if own[j].line == own[i].line {
                return false;
            }
            waiting += 1;
        }
    }
    waiting < window
}

impl Standing {
    ghost use Rattle.std.specs.Prelude.{◌≡◌, ◌≤◌, ◌<◌, ◌*◌, IfOk, length, option_map, All};
    ghost use Rattle.sci_orders.specs.Positions.{Fits, answers_of, lists_of, opening_position, operation_at, own_of, position_of, step_at, with_issued_at, with_performed_at, word_place};

    /// Nothing is issued at any of this number of nodes, and all words of this number of lines are zero. Refused if
    /// memory is.
    pub(crate) fn opening(
        alloc: Global,
        lines: u8,
        operations: &[Vec<Op>],
    ) -> Result<Standing, AllocError>
        ensures { IfOk result
            (λ standing. position_of standing ≡ opening_position lines (lists_of operations.now)) }
    {
        let mut answers = Vec::with_capacity(alloc, operations.len())?;
        for _own in operations {
            answers.push(Vec::new(alloc))?;
        }
        let count = usize::from(lines) * WORDS_PER_LINE;
        let mut words = Vec::with_capacity(alloc, count)?;
        for _word in 0..count {
            words.push(0)?;
        }
        Ok(Standing { answers, words })
    }

    /// The answers of all nodes once more. Refused if memory is.
    fn copied_answers(&self, alloc: Global) -> Result<Vec<Vec<Answer>>, AllocError>
        ensures { IfOk result (λ answers. lists_of answers.items ≡ lists_of self.now.answers.items) }
    {
        let mut copied = Vec::with_capacity(alloc, self.answers.len())?;
        for own in &self.answers {
            copied.push(Vec::from_slice(alloc, own)?)?;
        }
        Ok(copied)
    }

    /// The same with the next operation of a node issued. Refused if memory is.
    fn with_issued(&self, alloc: Global, n: usize) -> Result<Standing, AllocError>
        requires { n < length self.now.answers.items }
        ensures { IfOk result
            (λ standing. position_of standing ≡ with_issued_at (position_of self.now) n) }
    {
        let mut answers = self.copied_answers(alloc)?;
        answers[n].push(Answer::Waiting)?;
        let words = Vec::from_slice(alloc, &self.words)?;
        Ok(Standing { answers, words })
    }

    /// The same with operation i of a node performed. Refused if memory is.
    fn with_performed(
        &self,
        alloc: Global,
        op: Op,
        n: usize,
        i: usize,
    ) -> Result<Standing, AllocError>
        requires node { n < length self.now.answers.items }
        requires own { i < length (answers_of (position_of self.now) n) }
        requires word { word_place op < length self.now.words.items }
        ensures { IfOk result
            (λ standing. position_of standing ≡ with_performed_at op (position_of self.now) n i) }
    {
        let place = usize::from(op.line) * WORDS_PER_LINE + usize::from(op.word);
        let (word, reply) = effect(op, self.words[place]);
        let mut answers = self.copied_answers(alloc)?;
        answers[n][i] = answer_of(reply);
        let mut words = Vec::from_slice(alloc, &self.words)?;
        words[place] = word;
        Ok(Standing { answers, words })
    }

    /// Operation i of node n comes one step further: it is issued, or performed. None if it can't. Refused if memory is.
    #[tactic(auto, unfolding(crate::specs::Positions::step_at))]
    pub fn step(
        &self,
        alloc: Global,
        orders: &Orders,
        n: usize,
        i: usize,
    ) -> Result<Option<Standing>, AllocError>
        requires fits { Fits (lists_of orders.now.operations.now) (position_of self.now) }
        requires node { n < length orders.now.operations.now }
        requires own { i < length (own_of (lists_of orders.now.operations.now) n) }
        ensures { IfOk result (λ next. option_map position_of next
            ≡ step_at (lists_of orders.now.operations.now) orders.now.window (position_of self.now) n i) }
    {
        let own = &orders.operations[n];
        let answers = &self.answers[n];
        match answers.get(i) {
            None => {
                if may_issue(own, answers, orders.window, i) {
                    Ok(Some(self.with_issued(alloc, n)?))
                } else {
                    Ok(None)
                }
            }
            Some(Answer::Waiting) => Ok(Some(self.with_performed(alloc, own[i], n, i)?)),
            Some(Answer::Stored | Answer::Got(_)) => Ok(None),
        }
    }
}
