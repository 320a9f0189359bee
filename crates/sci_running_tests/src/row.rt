//! Rows of nodes that run by themselves, as texts.
//!
//! A row is a text of commands, on lines or with `;` between them. A line that begins with `//` is a comment. N is a
//! node, L a line:
//!
//! - `submit N OPERATION serial S`: node N submits the operation, as a script has it, and it gets this serial.
//! - `submit N OPERATION refused CAUSE`: it is refused, for a cause of `SubmitFault`.
//! - `perform N L = ENTRY`: node N performs the operation on line L, with this entry, as a log has it.
//! - `perform N L = none`: it can't.
//! - `turn N WORDS`: node N takes a turn, of which each word must hold. `accepted K` and `served K` count packets;
//!   `replied`, `asked` and `ready L` say what else it did, and `no-reply`, `no-ask` and `unready` that it didn't;
//!   `idle` says that it did nothing.
//! - `turn N within K steps S WORDS`: the turn may make K steps on words at most, and makes S.

use crate::nodes::Nodes;
use sci_policy::{Progress, SubmitFault};
use sci_text::push_entry;
use sci_words::{Act, LockOp, Op};
use std::alloc::Global;
use std::fmt::Debug;
use std::str::SplitWhitespace;
use std::test::*;

/// How many words a command has at most.
const MOST_WORDS: usize = 20;

/// Does what a row says, command by command. An error names the command that ends otherwise.
pub(crate) fn play<N: Nodes>(alloc: Global, nodes: &mut N, row: &str) -> Result<(), Fail> {
    for line in row.trim().lines() {
        if !line.trim().starts_with("//") {
            for text in line.split(';') {
                play_command(alloc, nodes, text.trim())?;
            }
        }
    }
    Ok(())
}

fn play_command<N: Nodes>(alloc: Global, nodes: &mut N, text: &str) -> Result<(), Fail> {
    let mut command = Command {
        text,
        words: text.split_whitespace(),
    };
    match command.word()? {
        "submit" => submit(nodes, &mut command),
        "perform" => perform(alloc, nodes, &mut command),
        "turn" => turn(nodes, &mut command),
        _ => Err(command.wrong("no such command")),
    }
}

/// A command of a row, and its words that are left.
#[derive(Drop)]
struct Command<'a> {
    text: &'a str,
    words: SplitWhitespace<'a>,
}

impl<'a> Command<'a> {
    /// The error that this was found in place of what the command says.
    fn wrong<D: Debug + Drop>(&self, found: D) -> Fail {
        Fail::new(format_args!("{}: {found:?}", self.text))
    }

    /// The next word.
    fn word(&mut self) -> Result<&'a str, Fail> {
        Ok(self.words.next().ok_or("a word is missing")?)
    }

    /// The next word, as a number.
    fn number(&mut self) -> Result<u64, Fail> {
        Ok(self.word()?.parse::<u64>()?)
    }

    /// The next word, as a small number: of a node, a line or a word.
    fn small(&mut self) -> Result<u8, Fail> {
        Ok(self.word()?.parse::<u8>()?)
    }

    /// An operation, as a script has it.
    fn operation(&mut self) -> Result<Op, Fail> {
        let name = self.word()?;
        let (line, word) = (self.small()?, self.small()?);
        let act = match name {
            "load" => Act::Load,
            "store" => Act::Store(self.number()?),
            "fetch-add" => Act::Lock(LockOp::FetchAdd {
                datum: self.number()?,
            }),
            _ => return Err(self.wrong("no such operation")),
        };
        Ok(Op { line, word, act })
    }
}

fn submit<N: Nodes>(nodes: &mut N, command: &mut Command) -> Result<(), Fail> {
    let node = command.small()?;
    let op = command.operation()?;
    let wanted = match command.word()? {
        "serial" => Ok(command.word()?.parse::<u32>()?),
        "refused" => Err(cause(command.word()?)?),
        _ => return Err(command.wrong("no such word")),
    };
    let found = nodes.submit(node, op)?;
    if found != wanted {
        return Err(command.wrong(found));
    }
    Ok(())
}

/// The cause of this name.
fn cause(name: &str) -> Result<SubmitFault, Fail> {
    match name {
        "NoSuchLine" => Ok(SubmitFault::NoSuchLine),
        "NoSuchWord" => Ok(SubmitFault::NoSuchWord),
        "LineTaken" => Ok(SubmitFault::LineTaken),
        "LogFull" => Ok(SubmitFault::LogFull),
        _ => Err(Fail::from("no such cause")),
    }
}

fn perform<N: Nodes>(alloc: Global, nodes: &mut N, command: &mut Command) -> Result<(), Fail> {
    let (node, line) = (command.small()?, command.small()?);
    let (_front, wanted) = command.text.split_once(" = ").ok_or("no entry")?;
    let found = nodes.perform(node, line)?;
    let mut text = Vec::new(alloc);
    match &found {
        Some(entry) => push_entry(&mut text, entry)?,
        None => text.extend_from_slice(b"none")?,
    }
    if text.as_slice() != wanted.trim_end().as_bytes() {
        return Err(command.wrong(found));
    }
    Ok(())
}

fn turn<N: Nodes>(nodes: &mut N, command: &mut Command) -> Result<(), Fail> {
    let node = command.small()?;
    if !command.text.contains(" within ") {
        let progress = nodes.turn(node)?;
        return expect(command, &progress);
    }
    command.word()?;
    let most = command.word()?.parse::<u32>()?;
    command.word()?;
    let wanted = command.word()?.parse::<u32>()?;
    let (progress, steps) = nodes.turn_within(node, most)?;
    if steps != wanted {
        return Err(command.wrong(steps));
    }
    expect(command, &progress)
}

/// An error unless each word that is left holds of what a turn did.
fn expect(command: &mut Command, progress: &Progress) -> Result<(), Fail> {
    for _place in 0..MOST_WORDS {
        let Some(word) = command.words.next() else {
            return Ok(());
        };
        let holds = match word {
            "accepted" => command.number()? == u64::from(progress.accepted),
            "served" => command.number()? == u64::from(progress.served),
            "replied" => progress.replied,
            "no-reply" => !progress.replied,
            "asked" => progress.asked,
            "no-ask" => !progress.asked,
            "ready" => Some(command.small()?) == progress.ready,
            "unready" => progress.ready.is_none(),
            "idle" => progress.is_idle(),
            _ => false,
        };
        if !holds {
            return Err(command.wrong(*progress));
        }
    }
    Err(command.wrong("too many words"))
}
