//! Operations, as all texts write them: a word, the line, the place of the word in it, and the operands.

ghost use Rattle.std.specs.Prelude.{◌≡◌};
ghost use Rattle.sci_text.specs.Reading.{Gives, after, byte, pair_read, command_read, operands_read, made, operation_after, operation_read};

use crate::number::{Number, field};
use sci_words::{Act, LockOp, Op};

/// What an operation's word names.
#[derive(Clone, Copy, Debug, PartialEq, Eq)]
pub enum Command {
    Load,
    Store,
    MaskSwap,
    CompareSwap,
    FetchAdd,
    BoundedAdd,
    WrapAdd,
}

/// The bytes after `word`, if they begin with it.
pub fn after<'a>(bytes: &'a [u8], word: &[u8]) -> Option<&'a [u8]>
    ensures { Gives (λ rest. rest.now) result (after word.now bytes.now) }
{
    bytes.strip_prefix(word)
}

/// The number, if it is below 256.
#[tactic(auto, unfolding(crate::specs::Reading::byte))]
pub fn byte(number: Number) -> Option<u8>
    ensures { result ≡ byte number }
{
    u8::try_from(number?).ok()
}

/// The word at the front of `bytes`, and the bytes after it.
#[tactic(auto, unfolding(crate::specs::Reading::command_read, crate::specs::Reading::after))]
pub fn command_of(bytes: &[u8]) -> Option<(Command, &[u8])>
    ensures { Gives (λ x. (x.0, x.1.now)) result (command_read bytes.now) }
{
    let (command, word): (Command, &[u8]) = match bytes.first()? {
        b'l' => (Command::Load, b"load"),
        b's' => (Command::Store, b"store"),
        b'm' => (Command::MaskSwap, b"mask-swap"),
        b'c' => (Command::CompareSwap, b"compare-swap"),
        b'f' => (Command::FetchAdd, b"fetch-add"),
        b'b' => (Command::BoundedAdd, b"bounded-add"),
        b'w' => (Command::WrapAdd, b"wrap-add"),
        _ => return None,
    };
    let rest = after(bytes, word)?;
    Some((command, rest))
}

/// Two numbers, each behind one space, and the bytes after them.
#[tactic(auto, unfolding(crate::specs::Reading::pair_read))]
pub fn pair(bytes: &[u8]) -> Option<(Option<(u64, u64)>, &[u8])>
    ensures { Gives (λ x. (x.0, x.1.now)) result (pair_read bytes.now) }
{
    let (first, rest) = field(bytes)?;
    let (second, rest) = field(rest)?;
    Some((first.zip(second), rest))
}

/// The operands of a command and the bytes after them, with what is done, or None if an operand is 2^64
/// or more.
#[tactic(auto, unfolding(crate::specs::Reading::operands_read))]
fn operands(command: Command, bytes: &[u8]) -> Option<(Option<Act>, &[u8])>
    ensures { Gives (λ x. (x.0, x.1.now)) result (operands_read command bytes.now) }
{
    match command {
        Command::Load => Some((Some(Act::Load), bytes)),
        Command::Store => {
            let (word, rest) = field(bytes)?;
            Some((word.map(Act::Store), rest))
        }
        Command::FetchAdd => {
            let (datum, rest) = field(bytes)?;
            let act = datum.map(|datum| Act::Lock(LockOp::FetchAdd { datum }));
            Some((act, rest))
        }
        Command::MaskSwap => {
            let (numbers, rest) = pair(bytes)?;
            let act = numbers.map(|(arg, datum)| Act::Lock(LockOp::MaskSwap { arg, datum }));
            Some((act, rest))
        }
        Command::CompareSwap => {
            let (numbers, rest) = pair(bytes)?;
            let act = numbers.map(|(arg, datum)| Act::Lock(LockOp::CompareSwap { arg, datum }));
            Some((act, rest))
        }
        Command::BoundedAdd => {
            let (numbers, rest) = pair(bytes)?;
            let act = numbers.map(|(arg, datum)| Act::Lock(LockOp::BoundedAdd { arg, datum }));
            Some((act, rest))
        }
        Command::WrapAdd => {
            let (numbers, rest) = pair(bytes)?;
            let act = numbers.map(|(arg, datum)| Act::Lock(LockOp::WrapAdd { arg, datum }));
            Some((act, rest))
        }
    }
}

/// The operation of these parts, if its numbers fit.
#[tactic(auto, unfolding(crate::specs::Reading::made))]
fn made(line: Number, word: Number, act: Option<Act>) -> Option<Op>
    ensures { result ≡ made line word act }
{
    let line = byte(line)?;
    let word = byte(word)?;
    Some(Op {
        line,
        word,
        act: act?,
    })
}

/// The operation whose word stood before `bytes`, or None if one of its numbers doesn't fit an `Op`, and the bytes
/// after it.
#[tactic(auto, unfolding(crate::specs::Reading::operation_after))]
pub fn operation_after(command: Command, bytes: &[u8]) -> Option<(Option<Op>, &[u8])>
    ensures { Gives (λ x. (x.0, x.1.now)) result (operation_after command bytes.now) }
{
    let (line, rest) = field(bytes)?;
    let (word, rest) = field(rest)?;
    let (act, rest) = operands(command, rest)?;
    Some((made(line, word, act), rest))
}

/// The operation at the front of `bytes`, or None if one of its numbers doesn't fit an `Op`, and the bytes
/// after it.
#[tactic(auto, unfolding(crate::specs::Reading::operation_read))]
pub fn operation(bytes: &[u8]) -> Option<(Option<Op>, &[u8])>
    ensures { Gives (λ x. (x.0, x.1.now)) result (operation_read bytes.now) }
{
    let (command, rest) = command_of(bytes)?;
    operation_after(command, rest)
}
