//! The words of the command line.

ghost use Rattle.std.specs.Prelude.{◌≡◌, ◌↔◌, ◌≤◌, ◌∷◌, [], ℕ, IfOk, Some, map};
ghost use Rattle.sci_words.specs.declared.limits.TheConstants.{MAX_TURNS};
ghost use Rattle.sci_text.specs.Number.{number};
ghost use Rattle.scimem.specs.{declared.choice.Command.{Command}, Choice.{Chooses}};

use sci_command::texts_of;
use sci_text::whole_number;
use sci_words::MAX_TURNS;
use std::alloc::{AllocError, Global};
use std::rt::Env;
use std::{env, io};

/// The words that the program knows.
pub const USAGE: &str =
    "usage: scimem oracle | replay | threads [--turns T] | audit | decode | upgrade";

/// What stands below it: the range of its number.
pub const TURNS: &str = "--turns T: a number from 1 to 1000000000";

/// What stands below both on standard error.
pub const MANUAL: &str =
    "A command reads standard input to its end. The manual is scimem(1), and its formats are in scimem(5).";

/// What the program is asked to do.
#[derive(Clone, Copy)]
pub enum Command {
    /// Write the log of one memory that does a script's operations.
    Oracle,
    /// Write the log of the machine after a schedule.
    Replay,
    /// Write the log of a run with one thread a node, each for at most this many turns, 1 to 1,000,000,000.
    Threads { turns: u32 },
    /// Write a line for each packet of the input.
    Decode,
    /// Write whether a log is lawful, or the first rule that it breaks.
    Audit,
    /// Write a log in format 2.
    Upgrade,
}

impl Command {
    /// The program and the word that chooses the command, as its messages name it.
    pub fn name(self) -> &'static str {
        match self {
            Command::Oracle => "scimem oracle",
            Command::Replay => "scimem replay",
            Command::Threads { .. } => "scimem threads",
            Command::Decode => "scimem decode",
            Command::Audit => "scimem audit",
            Command::Upgrade => "scimem upgrade",
        }
    }
}

/// The number of turns that a word says, from 1 to the most. None if it says none.
fn turns_of(word: &str) -> Option<u32>
    ensures { (turns : ℕ) → (result ≡ Some turns) ↔
        ((word.now ≡ number turns) × (1 ≤ turns) × (turns ≤ MAX_TURNS)) }
{
    let turns = whole_number(word.as_bytes())?;
    if turns < 1 || turns > u64::from(MAX_TURNS) {
        return None;
    }
    Some(turns as u32)
}

/// The command that one word chooses.
fn chosen_by(word: &str) -> Option<Command>
    ensures { (command : Command)
        → (result ≡ Some command) ↔ Chooses (word.now ∷ []) command }
{
    match word {
        "oracle" => Some(Command::Oracle),
        "replay" => Some(Command::Replay),
        "threads" => Some(Command::Threads { turns: MAX_TURNS }),
        "decode" => Some(Command::Decode),
        "audit" => Some(Command::Audit),
        "upgrade" => Some(Command::Upgrade),
        _ => None,
    }
}

/// The command that the words of the command line choose, the program's own name left out.
pub fn chosen(words: &[&str]) -> Option<Command>
    ensures { (command : Command)
        → (result ≡ Some command) ↔ Chooses (map (λ word. word.now) words.now) command }
{
    match words {
        [word] => chosen_by(word),
        ["threads", "--turns", turns] => {
            let turns = turns_of(turns)?;
            Some(Command::Threads { turns })
        }
        _ => None,
    }
}

/// The same of words as they are read, the program's own name left out. Refused if memory is.
pub fn choice_of(alloc: Global, words: &[String]) -> Result<Option<Command>, AllocError>
    ensures { IfOk result (λ choice. (command : Command)
        → (choice ≡ Some command) ↔
        Chooses (map (λ word. word.bytes.items) words.now) command) }
{
    let texts = texts_of(alloc, words)?;
    Ok(chosen(&texts))
}

/// The command that the program was asked to do, or None if the command line chooses none. It fails if the command line
/// can't be read, or memory is refused. No contract says what a command line has: `choice_of` has the contract.
pub fn asked(rt: &(impl Env + AllocGlobal)) -> io::Result<Option<Command>> {
    let words: Vec<String> = env::args(rt)?.skip(1).collect(rt.alloc())?;
    Ok(choice_of(rt.alloc(), &words)?)
}
