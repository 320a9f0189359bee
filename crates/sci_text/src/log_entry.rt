//! The lines of a log, each read from left to right.

ghost use Rattle.std.specs.Prelude.{◌≡◌, [], Some};
ghost use Rattle.sci_text.specs.Reading.{Gives};
ghost use Rattle.sci_text.specs.LogReading.{version_read, pair_and, words_read, stamped_of, last_line_read, reply_read, serial_of, entry_of, issue_read};
ghost use Rattle.sci_text.specs.LogReading.{outcome_read, entry_line_read, log_line_read};

use crate::number::{Number, field, number};
use crate::operation::{Command, after, byte, command_of, operation_after, pair};
use sci_history::Entry;
use sci_words::{Line, Op, Reply, Stamped, Word};

/// Two words, if both are below 2^64.
type Words = Option<(Word, Word)>;

/// The version behind ` @` at the front of `bytes`, and the bytes after it.
#[tactic(auto, unfolding(crate::specs::LogReading::version_read))]
fn version(bytes: &[u8]) -> Option<(Number, &[u8])>
    ensures { Gives (λ x. (x.0, x.1.now)) result (version_read bytes.now) }
{
    number(after(bytes, b" @")?)
}

/// The line of eight words.
#[tactic(auto, unfolding(crate::specs::LogReading::pair_and))]
fn line_of(first: Words, second: Words, third: Words, fourth: Words) -> Option<Line>
    ensures { result ≡ pair_and first (pair_and second (pair_and third (pair_and fourth (Some [])))) }
{
    let a = first?;
    let b = second?;
    let c = third?;
    let d = fourth?;
    Some(Line::of_words(&[a.0, a.1, b.0, b.1, c.0, c.1, d.0, d.1]))
}

/// The eight words at the front of `bytes`, each behind a space, and the bytes after them.
#[tactic(auto, unfolding(crate::specs::LogReading::words_read))]
fn words(bytes: &[u8]) -> Option<(Option<Line>, &[u8])>
    ensures { Gives (λ x. (x.0, x.1.now)) result (words_read 4 bytes.now) }
{
    let (first, rest) = pair(bytes)?;
    let (second, rest) = pair(rest)?;
    let (third, rest) = pair(rest)?;
    let (fourth, rest) = pair(rest)?;
    Some((line_of(first, second, third, fourth), rest))
}

/// The stamped line of these parts, if its numbers fit.
#[tactic(auto, unfolding(crate::specs::LogReading::stamped_of))]
fn stamped(line: Option<Line>, version: Number) -> Option<Stamped>
    ensures { result ≡ stamped_of line version }
{
    let line = line?;
    Some(Stamped {
        line,
        version: version?,
    })
}

/// What a `last` line says: its number, and its contents if they fit.
#[derive(Clone, Copy, Debug, PartialEq, Eq)]
pub struct LastSaid {
    pub line: Number,
    pub stamped: Option<Stamped>,
}

/// The number and the contents of the line `last L @V w0 w1 w2 w3 w4 w5 w6 w7` at the front of `bytes`, or None
/// if one doesn't fit, and the bytes after the line.
#[tactic(auto, unfolding(crate::specs::LogReading::last_line_read))]
pub fn last_line(bytes: &[u8]) -> Option<(LastSaid, &[u8])>
    ensures { Gives (λ x. ((x.0.line, x.0.stamped), x.1.now)) result (last_line_read bytes.now) }
{
    let rest = after(bytes, b"last")?;
    let (line, rest) = field(rest)?;
    let (number, rest) = version(rest)?;
    let Some((contents, rest)) = words(rest) else {
        return None;
    };
    let rest = after(rest, b"\n")?;
    let stamped = stamped(contents, number);
    Some((LastSaid { line, stamped }, rest))
}

/// The reply of such an operation at the front of `bytes`, or None if it is 2^64 or more, and the bytes after it.
#[tactic(auto, unfolding(crate::specs::LogReading::reply_read))]
fn reply(command: Command, bytes: &[u8]) -> Option<(Option<Reply>, &[u8])>
    ensures { Gives (λ x. (x.0, x.1.now)) result (reply_read command bytes.now) }
{
    match command {
        Command::Store => {
            let rest = after(bytes, b"-")?;
            Some((Some(Reply::Stored), rest))
        }
        _ => {
            let (word, rest) = number(bytes)?;
            Some((word.map(Reply::Got), rest))
        }
    }
}

/// The number, if it is below 2^32.
#[tactic(auto, unfolding(crate::specs::LogReading::serial_of))]
fn serial_number(number: Number) -> Option<u32>
    ensures { result ≡ serial_of number }
{
    u32::try_from(number?).ok()
}

/// The entry of these parts, if its numbers fit.
#[tactic(auto, unfolding(crate::specs::LogReading::entry_of))]
fn entry(
    node: Number,
    serial: Number,
    op: Option<Op>,
    reply: Option<Reply>,
    version: Number,
) -> Option<Entry>
    ensures { result ≡ entry_of node serial op reply version }
{
    let node = byte(node)?;
    let serial = serial_number(serial)?;
    let op = op?;
    let reply = reply?;
    Some(Entry {
        node,
        serial,
        op,
        reply,
        version: version?,
    })
}

/// Node, serial, command and operation of `n serial OP` at the front of `bytes`, and the bytes after it.
#[tactic(auto, unfolding(crate::specs::LogReading::issue_read, crate::specs::Reading::operation_read))]
fn issue(bytes: &[u8]) -> Option<((Number, Number, Command, Option<Op>), &[u8])>
    ensures { Gives (λ x. (x.0, x.1.now)) result (issue_read bytes.now) }
{
    let (node, rest) = number(bytes)?;
    let (serial, rest) = field(rest)?;
    let gap = after(rest, b" ")?;
    let (command, rest) = command_of(gap)?;
    let (op, rest) = operation_after(command, rest)?;
    Some(((node, serial, command, op), rest))
}

/// Reply and version of ` = REPLY @V` at the front of `bytes`, of such an operation, and the bytes after it.
#[tactic(auto, unfolding(crate::specs::LogReading::outcome_read))]
fn outcome(command: Command, bytes: &[u8]) -> Option<((Option<Reply>, Number), &[u8])>
    ensures { Gives (λ x. (x.0, x.1.now)) result (outcome_read command bytes.now) }
{
    let rest = after(bytes, b" = ")?;
    let (reply, rest) = reply(command, rest)?;
    let (version, rest) = version(rest)?;
    Some(((reply, version), rest))
}

/// The node and the entry of the line `n serial OP = REPLY @V` at the front of `bytes`, or None if one of its
/// numbers doesn't fit an `Entry`, and the bytes after the line.
#[tactic(auto, unfolding(crate::specs::LogReading::entry_line_read))]
pub fn entry_line(bytes: &[u8]) -> Option<((Number, Option<Entry>), &[u8])>
    ensures { Gives (λ x. (x.0, x.1.now)) result (entry_line_read bytes.now) }
{
    let ((node, serial, command, op), rest) = issue(bytes)?;
    let ((reply, version), rest) = outcome(command, rest)?;
    let rest = after(rest, b"\n")?;
    Some(((node, entry(node, serial, op, reply, version)), rest))
}

/// The numbers of the line `log 2 N M` at the front of `bytes`, and the bytes after the line.
#[tactic(auto, unfolding(crate::specs::LogReading::log_line_read))]
pub fn log_line(bytes: &[u8]) -> Option<((Number, Number), &[u8])>
    ensures { Gives (λ x. (x.0, x.1.now)) result (log_line_read bytes.now) }
{
    let rest = after(bytes, b"log 2")?;
    let (nodes, rest) = field(rest)?;
    let (lines, rest) = field(rest)?;
    let rest = after(rest, b"\n")?;
    Some(((nodes, lines), rest))
}
