//! What the program says of words that choose no command.

ghost use Rattle.std.specs.Prelude.{◌≡◌};
ghost use Rattle.sci_options.specs.Given.{lacks_memory};
ghost use Rattle.sciview.specs.Choice.{is_refused};

use crate::help::{MANUAL, USAGE};
use crate::verb::Verb;
use sci_options::{Argument, Given, OptionName, Wrong};
use std::fmt;
use std::fmt::{Display, Formatter};

/// What is wrong with the words behind a command.
#[derive(Clone, Copy, Drop)]
pub enum Problem<'a> {
    /// A word gives nothing.
    Word(Wrong<'a>),
    /// A word is one too many, since the command reads one file.
    Extra(&'a str),
    /// The words aren't the five numbers of a walk.
    NoWalk,
    /// Two options exclude each other.
    TwoOrders,
    /// Transitions are those of all lines and nodes.
    Transitions,
    /// No word is the title.
    NoTitle,
}

/// Why words choose no command.
#[derive(Clone, Copy, Drop)]
pub enum Complaint<'a> {
    /// They begin with no command.
    NoCommand,
    /// The words behind a command are wrong.
    Words(Verb, Problem<'a>),
    /// There is no memory for the words.
    Memory,
}

impl<'a> Complaint<'a> {
    /// What is wrong with a word behind a command, if it isn't that there is no memory.
    pub fn of_word(verb: Verb, wrong: Wrong<'a>) -> Complaint<'a>
        ensures { is_refused result ≡ lacks_memory wrong.entry }
    {
        match wrong {
            Wrong::Memory => Complaint::Memory,
            Wrong::NoOption(_) | Wrong::NoValue(..) | Wrong::Again(_) => {
                Complaint::Words(verb, Problem::Word(wrong))
            }
        }
    }
}

impl<'a> Problem<'a> {
    /// What is wrong with options and words that stand alone, though the command takes each option.
    pub fn of(verb: Verb, given: &Given<'a>) -> Problem<'a> {
        if let Verb::Random = verb {
            return Problem::NoWalk;
        }
        let titled = given.has(OptionName::Title);
        if titled && given.alone.is_empty() {
            return Problem::NoTitle;
        }
        if given.has(OptionName::Transitions) {
            return Problem::Transitions;
        }
        match given.alone.get(1 + usize::from(titled)) {
            Some(word) => Problem::Extra(*word),
            None => Problem::TwoOrders,
        }
    }
}

/// Writes what an option takes.
fn write_expected<W: fmt::Write>(argument: Argument, f: &mut Formatter<W>) -> fmt::Result {
    match argument {
        Argument::Nothing => write!(f, "no value"),
        Argument::Place { count } => write!(f, "a number from 0 to {}", count.saturating_sub(1)),
        Argument::Number { least, greatest } if greatest < u64::MAX => {
            write!(f, "a number from {least} to {greatest}")
        }
        Argument::Number { .. } => write!(f, "a number below 2^64"),
        Argument::TwoNumbers => {
            write!(f, "two numbers below 2^64, the first not above the last")
        }
    }
}

impl Display for Problem<'_> {
    fn fmt<W: fmt::Write>(&self, f: &mut Formatter<W>) -> fmt::Result {
        match self {
            Problem::Word(Wrong::NoOption(word)) => write!(f, "{word}: no such option"),
            Problem::Word(Wrong::NoValue(OptionName::Title, _)) => {
                write!(f, "--title: the title is a word of its own")
            }
            Problem::Word(Wrong::NoValue(name, argument)) => {
                write!(f, "{}: expected ", name.word())?;
                write_expected(*argument, f)
            }
            Problem::Word(Wrong::Memory) => write!(f, "no memory"),
            Problem::Word(Wrong::Again(name)) => write!(f, "{}: given twice", name.word()),
            Problem::Extra(word) => write!(f, "{word}: one FILE at most"),
            Problem::NoWalk => write!(f, "expected five numbers below 2^64"),
            Problem::TwoOrders => write!(f, "--seed and --threads exclude each other"),
            Problem::Transitions => write!(f, "--transitions excludes --line and --node"),
            Problem::NoTitle => write!(f, "--title: expected a title"),
        }
    }
}

impl Display for Complaint<'_> {
    fn fmt<W: fmt::Write>(&self, f: &mut Formatter<W>) -> fmt::Result {
        match self {
            Complaint::NoCommand => write!(f, "{USAGE}\n{MANUAL}"),
            Complaint::Words(verb, problem) => {
                write!(f, "{}: {problem}\n{}", verb.name(), verb.usage())
            }
            Complaint::Memory => write!(f, "sciview: there is no memory for the words"),
        }
    }
}
