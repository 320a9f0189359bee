//! Lines, operations and kinds of asks that are drawn.

ghost use Rattle.std.specs.Prelude.{◌≡◌, ◌<◌, ◌==◌, if◌then◌else◌, min, slice_get, true};
ghost use Rattle.sci_random.specs.Drawing.{IsActOf, after, drawn, word_of};
ghost use Rattle.sci_words.specs.{Operation.{has_words}, declared.event.TheConstants.AskKind.{ALL}};
ghost use Rattle.sci_words.specs.declared.limits.TheConstants.{WORDS_PER_LINE};

use crate::random::Random;
use sci_words::{Act, AskKind, LockOp, Op};

/// A line of a machine with this many lines, mostly one of the first two, so that many nodes share it. 0 if there is none.
pub fn any_line(random: &mut Random, lines: u8) -> u8
    ensures drawn { result
        ≡ drawn (if drawn 3 random.old == 0 then lines else min lines 2) (after random.old) }
    ensures after { random.new ≡ after (after random.old) }
    ensures within { 0 < lines → result < lines }
    ensures none { lines ≡ 0 → result ≡ 0 }
{
    if random.once_in(3) {
        return random.below(lines);
    }
    random.below(lines.min(2))
}

/// A small word, so that swaps and bounds often meet the word that they name.
fn any_word(random: &mut Random) -> u64
    ensures drawn { result ≡ word_of random.old }
    ensures after { random.new ≡ after random.old }
{
    match random.below(12) {
        0 => u64::MAX,
        small => u64::from(small % 4),
    }
}

/// What an operation does: three times in ten a load, and twice a store.
fn any_act(random: &mut Random) -> Act
    ensures drawn { IsActOf random.old result }
    ensures words { has_words result ≡ true }
    ensures after { random.new ≡ after (after (after random.old)) }
{
    let (arg, datum) = (any_word(random), any_word(random));
    match random.below(10) {
        0 => Act::Lock(LockOp::MaskSwap { arg, datum }),
        1 => Act::Lock(LockOp::CompareSwap { arg, datum }),
        2 => Act::Lock(LockOp::FetchAdd { datum }),
        3 => Act::Lock(LockOp::BoundedAdd { arg, datum }),
        4 => Act::Lock(LockOp::WrapAdd { arg, datum }),
        5 | 6 => Act::Store(datum),
        _ => Act::Load,
    }
}

/// An operation on a line, on any of its eight words.
pub fn any_operation(random: &mut Random, line: u8) -> Op
    ensures line { result.line ≡ line }
    ensures drawn { result.word ≡ min (drawn 9 random.old) 7 }
    ensures word { result.word < WORDS_PER_LINE }
    ensures act { IsActOf (after random.old) result.act }
    ensures words { has_words result.act ≡ true }
    ensures after { random.new ≡ after (after (after (after random.old))) }
{
    let word = random.below(9).min(7);
    let act = any_act(random);
    Op { line, word, act }
}

/// A kind of ask, each as often as the others.
pub fn any_kind(random: &mut Random) -> AskKind
    ensures drawn { slice_get ALL (drawn 9 random.old) ≡ Some result }
    ensures after { random.new ≡ after random.old }
{
    AskKind::ALL[usize::from(random.below(9))]
}
