//! Reads a condition.

ghost use Rattle.std.specs.Prelude.{◌≡◌, ◌≢◌, ◌≤◌, ◌++◌, List, ℕ, true, Some, codes, length, IfOk, MatchOption};
ghost use Rattle.sci_text.specs.Number.{number as number_text};
ghost use Rattle.sci_allowed.specs.Allowed.{IsLitmus};
ghost use Rattle.sci_allowed.specs.Conditioned.{IsQuantified};
ghost use Rattle.sci_allowed.specs.Condition.{IsRead, IsSaidBy, has_term, quantifier_word, rank, term_text};

use crate::condition::{Condition, FinalCondition, Quantifier, Term};
use crate::litmus::Litmus;
use crate::outcome::{FinalWord, Replied};
use sci_text::whole_number;
use std::alloc::{AllocError, Global};

/// What is wrong with the line of a condition.
#[derive(Clone, Copy)]
pub(crate) struct ConditionFault {
    /// Whether it is of the right form, and something is out of range.
    pub(crate) is_range: bool,
    /// How many bytes of the line stand from the fault on.
    pub(crate) left: usize,
    /// What was expected there.
    pub(crate) expected: &'static str,
}

/// Why no condition is read.
#[derive(Clone, Copy)]
pub(crate) enum Unread {
    /// Memory was refused.
    Memory,
    /// The line has a fault.
    Fault(ConditionFault),
}

impl From<AllocError> for Unread {
    fn from(_error: AllocError) -> Unread {
        Unread::Memory
    }
}

/// How strongly what is read binds at least.
#[derive(Clone, Copy, PartialEq, Eq)]
pub(crate) enum Binding {
    /// As `or`, or more strongly.
    Or,
    /// As `and`, or more strongly.
    And,
    /// As `not`, a term or parentheses.
    Not,
}

/// Reads the condition of a script.
#[derive(Clone, Copy)]
pub(crate) struct ConditionReader<'a> {
    pub(crate) alloc: Global,
    /// The script.
    pub(crate) litmus: &'a Litmus,
    /// Whether numbers have to be within their limits, and terms of the script.
    pub(crate) judges: bool,
}

/// That something else was expected where the rest of the line begins.
pub(crate) fn syntax(rest: &[u8], expected: &'static str) -> Unread {
    Unread::Fault(ConditionFault {
        is_range: false,
        left: rest.len(),
        expected,
    })
}

/// That what stands at the front of the rest is out of range.
fn range(rest: &[u8], expected: &'static str) -> Unread {
    Unread::Fault(ConditionFault {
        is_range: true,
        left: rest.len(),
        expected,
    })
}

/// What stands for a term that isn't judged.
const NO_TERM: Term = Term::Held(FinalWord {
    line: 0,
    word: 0,
    value: 0,
});

/// The bytes after a word, if they begin with it.
fn after<'t>(bytes: &'t [u8], word: &[u8]) -> Option<&'t [u8]>
    ensures { MatchOption result ((rest : List ℕ) → bytes.now ≢ word.now ++ rest)
        (λ rest. bytes.now ≡ word.now ++ rest.now) }
{
    bytes.strip_prefix(word)
}

/// The quantifier at the front of bytes, and the bytes after its word.
pub(crate) fn quantifier_in_front(bytes: &[u8]) -> Option<(Quantifier, &[u8])>
    ensures { MatchOption result (IsQuantified bytes.now → ⊥)
        (λ x. bytes.now ≡ quantifier_word x.0 ++ x.1.now) }
{
    if let Some(rest) = after(bytes, b"exists") {
        return Some((Quantifier::Exists, rest));
    }
    if let Some(rest) = after(bytes, b"forall") {
        return Some((Quantifier::Forall, rest));
    }
    let rest = after(bytes, b"never")?;
    Some((Quantifier::Never, rest))
}

/// How many digits stand at the front of bytes.
fn digits_in_front(bytes: &[u8]) -> usize
    ensures { result ≤ length bytes.now }
{
    for (count, byte) in bytes.iter().enumerate() {
        if !byte.is_ascii_digit() {
            return count;
        }
    }
    bytes.len()
}

/// Whether digits are a number, however great: there is one, and no zero leads others.
fn are_number(digits: &[u8]) -> bool {
    match digits {
        [] => false,
        [b'0', _, ..] => false,
        _ => true,
    }
}

/// A condition in a box of its own.
fn boxed(alloc: Global, condition: Condition) -> Result<Box<Condition>, AllocError>
    ensures { IfOk result (λ boxed. boxed.value ≡ condition) }
{
    Ok(Box::new(alloc, condition)?)
}

/// A number at the front of bytes, and the bytes after it.
type NumberRead<'t> = Result<(u64, &'t [u8]), Unread>;

/// A term at the front of bytes, and the bytes after it.
type TermRead<'t> = Result<(Term, &'t [u8]), Unread>;

/// A condition at the front of bytes, and the bytes after it.
type ConditionRead<'t> = Result<(Condition, &'t [u8]), Unread>;

impl ConditionReader<'_> {
    /// Reads a number.
    fn number<'t>(self, bytes: &'t [u8]) -> NumberRead<'t>
        ensures text { IfOk result (λ x. self.entry.judges ≡ true → bytes.now ≡ number_text x.0 ++ x.1.now) }
        ensures shorter { IfOk result (λ x. length x.1.now ≤ length bytes.now) }
    {
        let (digits, rest) = bytes.split_at(digits_in_front(bytes));
        if !are_number(digits) {
            return Err(syntax(bytes, "a number"));
        }
        match whole_number(digits) {
            Some(number) => Ok((number, rest)),
            None if self.judges => Err(range(bytes, "a number below 2^64")),
            None => Ok((0, rest)),
        }
    }

    /// Reads `=` and a number.
    fn value<'t>(self, bytes: &'t [u8]) -> NumberRead<'t>
        ensures text { IfOk result (λ x. self.entry.judges ≡ true →
            bytes.now ≡ codes "=" ++ (number_text x.0 ++ x.1.now)) }
        ensures shorter { IfOk result (λ x. length x.1.now ≤ length bytes.now) }
    {
        match after(bytes, b"=") {
            Some(rest) => self.number(rest),
            None => Err(syntax(bytes, "\"=\"")),
        }
    }

    /// A term that was read at the front of bytes, if its numbers fit and the script has what it names.
    fn known(self, term: Option<Term>, bytes: &[u8], expected: &'static str) -> Result<Term, Unread>
        requires { IsLitmus self.litmus.now }
        ensures { IfOk result (λ known. self.entry.judges ≡ true →
            (term ≡ Some known) × (has_term self.entry.litmus.now.script known ≡ true)) }
    {
        match term {
            Some(term) if self.litmus.has(term) => Ok(term),
            _ if self.judges => Err(range(bytes, expected)),
            _ => Ok(NO_TERM),
        }
    }

    /// Reads the rest of a term that says what an operation of a node replied.
    fn replied<'t>(self, bytes: &'t [u8], node: u64, rest: &'t [u8]) -> TermRead<'t>
        requires { IsLitmus self.litmus.now }
        ensures term { IfOk result (λ x. self.entry.judges ≡ true →
            (number_text node ++ (codes ":" ++ rest.now) ≡ term_text x.0 ++ x.1.now)
            × (has_term self.entry.litmus.now.script x.0 ≡ true)) }
        ensures shorter { IfOk result (λ x. length x.1.now ≤ length rest.now) }
    {
        let (serial, rest) = self.number(rest)?;
        let (word, rest) = self.value(rest)?;
        let term = match (u8::try_from(node), u32::try_from(serial)) {
            (Ok(node), Ok(serial)) => Some(Term::Replied(Replied { node, serial, word })),
            _ => None,
        };
        let term = self.known(term, bytes, "the reply of an operation of the script")?;
        Ok((term, rest))
    }

    /// Reads the rest of a term that says what a word of a line holds.
    fn held<'t>(self, bytes: &'t [u8], line: u64, rest: &'t [u8]) -> TermRead<'t>
        requires { IsLitmus self.litmus.now }
        ensures term { IfOk result (λ x. self.entry.judges ≡ true →
            (number_text line ++ (codes "." ++ rest.now) ≡ term_text x.0 ++ x.1.now)
            × (has_term self.entry.litmus.now.script x.0 ≡ true)) }
        ensures shorter { IfOk result (λ x. length x.1.now ≤ length rest.now) }
    {
        let (word, rest) = self.number(rest)?;
        let (value, rest) = self.value(rest)?;
        let term = match (u8::try_from(line), u8::try_from(word)) {
            (Ok(line), Ok(word)) => Some(Term::Held(FinalWord { line, word, value })),
            _ => None,
        };
        let term = self.known(
            term,
            bytes,
            "a word that an operation of the script may write",
        )?;
        Ok((term, rest))
    }

    /// Reads a term.
    fn term<'t>(self, bytes: &'t [u8]) -> TermRead<'t>
        requires { IsLitmus self.litmus.now }
        ensures term { IfOk result (λ x. self.entry.judges ≡ true →
            (bytes.now ≡ term_text x.0 ++ x.1.now) × (has_term self.entry.litmus.now.script x.0 ≡ true)) }
        ensures shorter { IfOk result (λ x. length x.1.now ≤ length bytes.now) }
    {
        let (first, rest) = self.number(bytes)?;
        if let Some(behind) = after(rest, b":") {
            return self.replied(bytes, first, behind);
        }
        match after(rest, b".") {
            Some(behind) => self.held(bytes, first, behind),
            None => Err(syntax(rest, "\":\" or \".\"")),
        }
    }

    /// Reads a condition that binds at least so strongly.
    fn read<'t>(self, least: Binding, bytes: &'t [u8]) -> ConditionRead<'t>
        requires { IsLitmus self.litmus.now }
        ensures read { IfOk result (λ x. self.entry.judges ≡ true →
            IsRead self.entry.litmus.now.script (rank least) bytes.now x.0 x.1.now) }
        ensures shorter { IfOk result (λ x. length x.1.now ≤ length bytes.now) }
    {
        match least {
            Binding::Or => {
                let (left, behind) = self.read(Binding::And, bytes)?;
                let Some(behind) = after(behind, b" or ") else {
                    return Ok((left, behind));
                };
                let (right, rest) = self.read(Binding::Or, behind)?;
                let left = boxed(self.alloc, left)?;
                let right = boxed(self.alloc, right)?;
                Ok((Condition::Or(left, right), rest))
            }
            Binding::And => {
                let (left, behind) = self.read(Binding::Not, bytes)?;
                let Some(behind) = after(behind, b" and ") else {
                    return Ok((left, behind));
                };
                let (right, rest) = self.read(Binding::And, behind)?;
                let left = boxed(self.alloc, left)?;
                let right = boxed(self.alloc, right)?;
                Ok((Condition::And(left, right), rest))
            }
            Binding::Not => {
                if let Some(behind) = after(bytes, b"(") {
                    let (inside, behind) = self.read(Binding::Or, behind)?;
                    let Some(rest) = after(behind, b")") else {
                        return Err(syntax(behind, "\"and\", \"or\" or \")\""));
                    };
                    return Ok((Condition::Group(boxed(self.alloc, inside)?), rest));
                }
                if let Some(behind) = after(bytes, b"not ") {
                    let (inside, rest) = self.read(Binding::Not, behind)?;
                    return Ok((Condition::Not(boxed(self.alloc, inside)?), rest));
                }
                let (term, rest) = self.term(bytes)?;
                Ok((Condition::Term(term), rest))
            }
        }
    }

    /// Reads the quantifier and the condition of a line without its line feed.
    pub(crate) fn final_condition(self, line: &[u8]) -> Result<FinalCondition, Unread>
        requires { IsLitmus self.litmus.now }
        ensures { IfOk result (λ said. self.entry.judges ≡ true →
            IsSaidBy self.entry.litmus.now.script said line.now) }
    {
        let Some((quantifier, behind)) = quantifier_in_front(line) else {
            return Err(syntax(line, "\"exists\", \"forall\" or \"never\""));
        };
        let Some(behind) = after(behind, b" ") else {
            return Err(syntax(behind, "a condition"));
        };
        let (condition, rest) = self.read(Binding::Or, behind)?;
        if !rest.is_empty() {
            return Err(syntax(rest, "\"and\", \"or\" or the end of the line"));
        }
        Ok(FinalCondition {
            quantifier,
            condition,
        })
    }
}
