//! Events, as schedules write them: a word, the first node, and what else the event has.

ghost use Rattle.std.specs.Prelude.{◌≡◌};
ghost use Rattle.sci_text.specs.Reading.{Gives, byte, both};
ghost use Rattle.sci_text.specs.ScheduleReading.{kind_read, verb_read, ended_read, details_read, line_after_read, event_line_read};

use crate::number::{Number, field};
use crate::operation::{after, byte, operation};
use sci_words::{AskKind, Event, EventKind};

/// The kind of ask that the word at the front of `bytes` names, and the bytes after it.
#[tactic(auto, unfolding(crate::specs::ScheduleReading::kind_read, crate::specs::Reading::after))]
fn kind_of(bytes: &[u8]) -> Option<(AskKind, &[u8])>
    ensures { Gives (λ x. (x.0, x.1.now)) result (kind_read bytes.now) }
{
    let (kind, word): (AskKind, &[u8]) = match bytes {
        [b'm', ..] => (AskKind::Mread, b"mread"),
        [b'f', ..] => (AskKind::Fread, b"fread"),
        [b'c', b'r', ..] => (AskKind::Cread, b"cread"),
        [b'c', b'l', b'a', ..] => (AskKind::Claim, b"claim"),
        [b'c', b'l', b'e', ..] => (AskKind::Clear, b"clear"),
        [b'p', ..] => (AskKind::Purge, b"purge"),
        [b'r', ..] => (AskKind::Roll, b"roll"),
        [b'w', ..] => (AskKind::Wback, b"wback"),
        [b's', ..] => (AskKind::Setback, b"setback"),
        _ => return None,
    };
    let rest = after(bytes, word)?;
    Some((kind, rest))
}

/// The word at the front of `bytes`, and the bytes after it.
#[tactic(auto, unfolding(crate::specs::ScheduleReading::verb_read, crate::specs::Reading::after))]
fn verb_of(bytes: &[u8]) -> Option<(EventKind, &[u8])>
    ensures { Gives (λ x. (x.0, x.1.now)) result (verb_read bytes.now) }
{
    let (verb, word): (EventKind, &[u8]) = match bytes {
        [b'i', ..] => (EventKind::Issue, b"issue"),
        [b'p', ..] => (EventKind::Perform, b"perform"),
        [b'a', b's', ..] => (EventKind::Ask, b"ask"),
        [b'a', b'c', ..] => (EventKind::Accept, b"accept"),
        [b's', ..] => (EventKind::Serve, b"serve"),
        [b'r', b'e', b'f', ..] => (EventKind::Refuse, b"refuse"),
        [b'r', b'e', b'p', ..] => (EventKind::Reply, b"reply"),
        _ => return None,
    };
    let rest = after(bytes, word)?;
    Some((verb, rest))
}

/// Two numbers, if both are below 256.
fn bytes_of(first: Number, second: Number) -> Option<(u8, u8)>
    ensures { result ≡ both (byte first) (byte second) }
{
    byte(first).zip(byte(second))
}

/// The event and the bytes after a line feed, which stands at the front of `bytes`.
#[tactic(auto, unfolding(crate::specs::Reading::after))]
fn ended(event: Option<Event>, bytes: &[u8]) -> Option<(Option<Event>, &[u8])>
    ensures { Gives (λ x. (x.0, x.1.now)) result (ended_read event bytes.now) }
{
    match bytes {
        [b'\n', rest @ ..] => Some((event, rest)),
        _ => None,
    }
}

/// The event of this word and first node whose details stand at the front of `bytes` and end its line, or None if
/// one of its numbers doesn't fit an `Event`, and the bytes after the line.
#[tactic(auto, unfolding(crate::specs::ScheduleReading::details_read, crate::specs::ScheduleReading::numbered_read))]
fn details(verb: EventKind, first: Number, bytes: &[u8]) -> Option<(Option<Event>, &[u8])>
    ensures { Gives (λ x. (x.0, x.1.now)) result (line_after_read verb first bytes.now) }
{
    match verb {
        EventKind::Issue => {
            let (op, rest) = operation(after(bytes, b" ")?)?;
            let event = byte(first)
                .zip(op)
                .map(|(node, op)| Event::Issue { node, op });
            ended(event, rest)
        }
        EventKind::Perform => {
            let (line, rest) = field(bytes)?;
            let event = bytes_of(first, line).map(|(node, line)| Event::Perform { node, line });
            ended(event, rest)
        }
        EventKind::Ask => {
            let (line, rest) = field(bytes)?;
            let (kind, rest) = kind_of(after(rest, b" ")?)?;
            let event = bytes_of(first, line).map(|(node, line)| Event::Ask { node, line, kind });
            ended(event, rest)
        }
        EventKind::Serve => {
            let (node, rest) = field(bytes)?;
            let event = bytes_of(first, node).map(|(from, node)| Event::Serve { from, node });
            ended(event, rest)
        }
        EventKind::Refuse => {
            let (node, rest) = field(bytes)?;
            let event = bytes_of(first, node).map(|(from, node)| Event::Refuse { from, node });
            ended(event, rest)
        }
        EventKind::Reply => {
            let event = byte(first).map(|node| Event::Reply { node });
            ended(event, bytes)
        }
        EventKind::Accept => {
            let (node, rest) = field(bytes)?;
            let event = bytes_of(first, node).map(|(from, node)| Event::Accept { from, node });
            ended(event, rest)
        }
    }
}

/// The event of the line at the front of `bytes`, or None if a number doesn't fit its type, and the bytes
/// after the line.
#[tactic(auto, unfolding(crate::specs::ScheduleReading::event_line_read))]
pub fn event_line(bytes: &[u8]) -> Option<(Option<Event>, &[u8])>
    ensures { Gives (λ x. (x.0, x.1.now)) result (event_line_read bytes.now) }
{
    let (verb, rest) = verb_of(bytes)?;
    let (first, rest) = field(rest)?;
    details(verb, first, rest)
}
