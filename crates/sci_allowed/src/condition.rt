//! Conditions on the outcomes of a script.

ghost use Rattle.std.specs.Prelude.{◌≡◌};
ghost use Rattle.sci_allowed.specs.{Condition.{has_reply as has_reply_of, has_word as has_word_of, satisfies, says_of}, Outcome.{shown_of}};

use crate::outcome::{FinalWord, Outcome, Replied};

/// What one term says of an outcome.
#[derive(Clone, Copy, Debug, PartialEq, Eq)]
pub enum Term {
    /// That an operation replied a word.
    Replied(Replied),
    /// That a word of memory holds a value at the end.
    Held(FinalWord),
}

/// What is said of an outcome.
#[derive(Drop)]
pub enum Condition {
    /// One term.
    Term(Term),
    /// A condition in parentheses.
    Group(Box<Condition>),
    /// That a condition doesn't hold.
    Not(Box<Condition>),
    /// That both of two conditions hold.
    And(Box<Condition>, Box<Condition>),
    /// That one of two conditions holds, or both.
    Or(Box<Condition>, Box<Condition>),
}

/// For which outcomes a condition is to hold.
#[derive(Clone, Copy, Debug, PartialEq, Eq)]
pub enum Quantifier {
    /// For one of them at least.
    Exists,
    /// For each of them.
    Forall,
    /// For none of them.
    Never,
}

/// What is said of all outcomes of a script.
#[derive(Drop)]
pub struct FinalCondition {
    /// For which outcomes the condition is to hold.
    pub quantifier: Quantifier,
    /// What is said of each.
    pub condition: Condition,
}

/// Whether this is one of the replies.
fn has_reply(replies: &[Replied], said: Replied) -> bool
    ensures { result ≡ has_reply_of said replies.now }
{
    replies.iter().any(|r| r.node == said.node && r.serial == said.serial && r.word == said.word)
}

/// Whether this is what one of the words holds.
fn has_word(words: &[FinalWord], said: FinalWord) -> bool
    ensures { result ≡ has_word_of said words.now }
{
    words.iter().any(|h| h.line == said.line && h.word == said.word && h.value == said.value)
}

impl Term {
    /// Whether an outcome is as the term says.
    fn holds(self, outcome: &Outcome) -> bool
        ensures { result ≡ says_of self (shown_of outcome.now) }
    {
        match self {
            Term::Replied(said) => has_reply(&outcome.replies, said),
            Term::Held(said) => has_word(&outcome.last, said),
        }
    }
}

impl Condition {
    /// Whether an outcome satisfies the condition.
    pub fn holds(&self, outcome: &Outcome) -> bool
        ensures { result ≡ satisfies self.now (shown_of outcome.now) }
    {
        match self {
            Condition::Term(term) => term.holds(outcome),
            Condition::Group(inside) => inside.holds(outcome),
            Condition::Not(inside) => !inside.holds(outcome),
            Condition::And(left, right) => left.holds(outcome) && right.holds(outcome),
            Condition::Or(left, right) => left.holds(outcome) || right.holds(outcome),
        }
    }
}
