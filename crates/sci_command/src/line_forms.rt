//! What the lines of scripts, schedules and logs should say.

use crate::line_words::{ANY, Expected, Limits, LineWords, Mismatch};
use sci_words::{MAX_LINES, MAX_NODES, MAX_SLOTS, WORDS_PER_LINE};

/// How many nodes and lines a text is about.
#[derive(Clone, Copy)]
pub struct Sizes {
    pub nodes: u64,
    pub lines: u64,
}

/// What can stand on a line of a text.
#[derive(Clone, Copy)]
pub enum Form {
    /// The first line of a text that may be of any kind.
    Any,
    /// The size of a machine.
    Machine,
    /// An operation of a script.
    Operation(Sizes),
    /// An event of a schedule.
    Event(Sizes),
    /// The size of a log.
    Log,
    /// The last contents of this line of memory.
    Last(u64),
    /// An entry of a log whose nodes have this many serials.
    Entry { sizes: Sizes, serials: u32 },
}

/// The numbers from 1 up to a limit.
fn from_one(greatest: u8) -> Limits {
    Limits {
        least: 1,
        greatest: u64::from(greatest),
    }
}

/// Reads `machine`, which a message names so, and the machine's size.
fn read_machine<'a>(words: &mut LineWords<'a>, name: &'static str) -> Result<(), Mismatch<'a>> {
    words.word("machine", name)?;
    words.number("a number of nodes", from_one(MAX_NODES))?;
    words.number("a number of lines", from_one(MAX_LINES))?;
    words.number("a number of version slots", from_one(MAX_SLOTS))
}

/// Reads `log 2` and the log's size.
fn read_log<'a>(words: &mut LineWords<'a>) -> Result<(), Mismatch<'a>> {
    words.word("log", "\"log\" or \"last\"")?;
    words.exactly("format", 2)?;
    words.number("a number of nodes", from_one(MAX_NODES))?;
    words.number("a number of lines", from_one(MAX_LINES))
}

/// Reads `last`, this line of memory, and its contents. Behind the last line that a memory can have any line of one is
/// expected.
fn read_last<'a>(words: &mut LineWords<'a>, line: u64) -> Result<(), Mismatch<'a>> {
    words.word("last", "\"last\"")?;
    if line < u64::from(MAX_LINES) {
        words.exactly("line", line)?;
    } else {
        words.number("a line", Limits::below(u64::from(MAX_LINES)))?;
    }
    words.version()?;
    for _ in 0..WORDS_PER_LINE {
        words.number("a word", ANY)?;
    }
    Ok(())
}

/// Reads the number of a node.
fn read_node<'a>(words: &mut LineWords<'a>, sizes: Sizes) -> Result<(), Mismatch<'a>> {
    words.number("a node", Limits::below(sizes.nodes))
}

/// Reads the number of a line of memory.
fn read_line<'a>(words: &mut LineWords<'a>, sizes: Sizes) -> Result<(), Mismatch<'a>> {
    words.number("a line", Limits::below(sizes.lines))
}

/// What was expected where an operation is missing.
const OPERATION: Expected = Expected::OneOf(
    "an operation",
    "load, store, mask-swap, compare-swap, fetch-add, bounded-add or wrap-add",
);

/// What was expected where the kind of a request is missing.
const REQUEST: Expected = Expected::OneOf(
    "a request",
    "mread, fread, cread, claim, clear, purge, roll, wback or setback",
);

/// What was expected where an event is missing.
const EVENT: Expected = Expected::OneOf(
    "an event",
    "issue, perform, ask, serve, refuse, reply or accept",
);

/// How many operands an operation of this name has. None if there is no such operation.
fn operands_of(name: &str) -> Option<u8> {
    match name {
        "load" => Some(0),
        "store" | "fetch-add" => Some(1),
        "mask-swap" | "compare-swap" | "bounded-add" | "wrap-add" => Some(2),
        _ => None,
    }
}

/// Reads an operation.
fn read_operation<'a>(words: &mut LineWords<'a>, sizes: Sizes) -> Result<(), Mismatch<'a>> {
    let Some(operands) = words.next().and_then(operands_of) else {
        return Err(words.mismatch(OPERATION));
    };
    words.pass();
    read_line(words, sizes)?;
    words.number("a word of the line", Limits::below(WORDS_PER_LINE as u64))?;
    for _ in 0..operands {
        words.number("an operand", ANY)?;
    }
    Ok(())
}

/// Reads the kind of a request.
fn read_kind<'a>(words: &mut LineWords<'a>) -> Result<(), Mismatch<'a>> {
    match words.next() {
        Some(
            "mread"
            | "fread"
            | "cread"
            | "claim"
            | "clear"
            | "purge"
            | "roll"
            | "wback"
            | "setback",
        ) => {
            words.pass();
            Ok(())
        }
        _ => Err(words.mismatch(REQUEST)),
    }
}

/// Reads what stands behind the word of an event.
fn read_event<'a>(words: &mut LineWords<'a>, sizes: Sizes) -> Result<(), Mismatch<'a>> {
    let verb = words.next().unwrap_or("");
    if !matches!(
        verb,
        "issue" | "perform" | "ask" | "serve" | "refuse" | "reply" | "accept"
    ) {
        return Err(words.mismatch(EVENT));
    }
    words.pass();
    read_node(words, sizes)?;
    match verb {
        "issue" => read_operation(words, sizes),
        "perform" => read_line(words, sizes),
        "ask" => {
            read_line(words, sizes)?;
            read_kind(words)
        }
        "reply" => Ok(()),
        _ => read_node(words, sizes),
    }
}

/// Reads an entry of a log whose nodes have this many serials.
fn read_entry<'a>(
    words: &mut LineWords<'a>,
    sizes: Sizes,
    serials: u32,
) -> Result<(), Mismatch<'a>> {
    read_node(words, sizes)?;
    words.number("a serial", Limits::below(u64::from(serials)))?;
    let stores = words.next() == Some("store");
    read_operation(words, sizes)?;
    words.word("=", "\"=\"")?;
    if stores {
        words.word("-", "\"-\", the reply of a store")?;
    } else {
        words.number("a reply", ANY)?;
    }
    words.version()
}

/// Reads a line that should have this form, up to the first place where it hasn't. Numbers have to be within their limits if
/// these are judged.
pub fn read_form<'a>(line: &'a str, form: Form, judges_limits: bool) -> Result<(), Mismatch<'a>> {
    let mut words = LineWords::new(line, judges_limits);
    match form {
        Form::Any => read_machine(&mut words, "\"machine\", \"log\" or \"last\"")?,
        Form::Machine => read_machine(&mut words, "\"machine\"")?,
        Form::Operation(sizes) => {
            words.word("p", "\"p\"")?;
            read_node(&mut words, sizes)?;
            read_operation(&mut words, sizes)?;
        }
        Form::Event(sizes) => read_event(&mut words, sizes)?,
        Form::Log => read_log(&mut words)?,
        Form::Last(line) => read_last(&mut words, line)?,
        Form::Entry { sizes, serials } => read_entry(&mut words, sizes, serials)?,
    }
    words.end()
}
