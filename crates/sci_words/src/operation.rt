//! Operations on one word of a line, and the table of what each does.

ghost use Rattle.std.specs.Prelude.{◌≡◌};
ghost use Rattle.sci_words.specs.Operation.{effect as effect_of, is_maker as is_maker_of};

use crate::line::Word;

/// An operation that changes a word by a rule that looks at it. The names of the subcommands are those of
/// IEEE 1212-1991; what each does and answers is this project's own table.
#[derive(Clone, Copy, Debug, PartialEq, Eq)]
pub enum LockOp {
    /// Takes the bits of `datum` where `arg` has a one.
    MaskSwap { arg: Word, datum: Word },
    /// Becomes `datum` if the word is `arg`.
    CompareSwap { arg: Word, datum: Word },
    /// Adds `datum`, modulo 2^64.
    FetchAdd { datum: Word },
    /// Adds `datum`, modulo 2^64, if the word isn't `arg`.
    BoundedAdd { arg: Word, datum: Word },
    /// Adds `datum`, modulo 2^64, if the word isn't `arg`, and else becomes `datum`.
    WrapAdd { arg: Word, datum: Word },
}

/// What an operation does with its word.
#[derive(Clone, Copy, Debug, PartialEq, Eq)]
pub enum Act {
    /// Answers the word and leaves it.
    Load,
    /// Replaces the word.
    Store(Word),
    /// Changes the word by a rule, and answers the word before.
    Lock(LockOp),
}

/// An operation of a processor on one word.
#[derive(Clone, Copy, Debug, PartialEq, Eq)]
pub struct Op {
    /// What is done.
    pub act: Act,
    /// The number of the line, from 0.
    pub line: u8,
    /// The place of the word in its line, 0 to 7.
    pub word: u8,
}

/// What an operation answers.
#[derive(Clone, Copy, Debug, PartialEq, Eq)]
pub enum Reply {
    /// A store was done.
    Stored,
    /// The word as it was before the operation.
    Got(Word),
}

impl Op {
    /// Whether the operation makes a new version of its line: a store or a lock operation, also if the
    /// word keeps its value.
    pub fn is_maker(&self) -> bool
        ensures { result ≡ is_maker_of self.now }
    {
        !matches!(self.act, Act::Load)
    }
}

/// The new word and the reply of an operation on the word `old`. Sums are modulo 2^64.
pub fn effect(op: Op, old: Word) -> (Word, Reply)
    ensures { result ≡ effect_of op old }
{
    match op.act {
        Act::Load => (old, Reply::Got(old)),
        Act::Store(word) => (word, Reply::Stored),
        Act::Lock(lock) => (lock.new_word(old), Reply::Got(old)),
    }
}

impl LockOp {
    ghost use Rattle.std.specs.Prelude.{◌≡◌};
    ghost use Rattle.sci_words.specs.Operation.{locked_word};

    fn new_word(self, old: Word) -> Word
        ensures { result ≡ locked_word self old }
    {
        match self {
            LockOp::MaskSwap { arg, datum } => (datum & arg) | (old & !arg),
            LockOp::CompareSwap { arg, datum } if old == arg => datum,
            LockOp::CompareSwap { .. } => old,
            LockOp::FetchAdd { datum } => old.wrapping_add(datum),
            LockOp::BoundedAdd { arg, .. } if old == arg => old,
            LockOp::BoundedAdd { datum, .. } => old.wrapping_add(datum),
            LockOp::WrapAdd { arg, datum } if old == arg => datum,
            LockOp::WrapAdd { datum, .. } => old.wrapping_add(datum),
        }
    }
}
