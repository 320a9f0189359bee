//! Tables: texts of which each line says what a command does in a state.
//!
//! A line is `STATE: COMMAND, then STATE`, or `STATE: COMMAND = WORDS, then STATE` if something comes of the command. The
//! first state is that of a new part; each other state is one that a line before leads to.

use std::alloc::Global;
use std::test::*;

/// A part of a node that a table is about.
pub trait Part: Drop {
    /// A copy of the part.
    fn copy(&self, alloc: Global) -> Result<Self, Fail>;

    /// The state in words.
    fn state(&self, alloc: Global) -> Result<String, Fail>;

    /// What comes of a command, in words.
    fn act(&mut self, alloc: Global, command: &str) -> Result<String, Fail>;
}

/// A part in the state that these words say.
#[derive(Drop)]
struct Known<P: Part> {
    state: String,
    part: P,
}

/// The states that the lines so far lead to.
#[derive(Drop)]
pub struct Table<P: Part> {
    alloc: Global,
    known: Vec<Known<P>>,
}

impl<P: Part> Table<P> {
    /// The table of a new part, before any line.
    pub fn new(alloc: Global, part: P) -> Result<Table<P>, Fail> {
        let mut known = Vec::new(alloc);
        let state = part.state(alloc)?;
        known.push(Known { state, part })?;
        Ok(Table { alloc, known })
    }

    /// Plays lines. An error names the line that failed.
    pub fn play(&mut self, rt: &impl Eprint, lines: &str) -> Result<(), Fail> {
        for line in lines.trim().lines() {
            if let Err(fail) = self.play_line(line.trim()) {
                let _ = rt.eprintln(format_args!("in a table, {line}"));
                return Err(fail);
            }
        }
        Ok(())
    }

    fn play_line(&mut self, line: &str) -> Result<(), Fail> {
        let (state, rest) = line.split_once(": ").ok_or("no state")?;
        let (command, next) = rest.split_once(", then ").ok_or("no next state")?;
        let (command, wanted) = command.split_once(" = ").unwrap_or((command, ""));
        let mut part = self
            .known(state)
            .ok_or("no line before leads to the state")?
            .copy(self.alloc)?;
        is_found(&part.act(self.alloc, command)?, wanted)?;
        let state = part.state(self.alloc)?;
        is_found(&state, next)?;
        if self.known(next).is_none() {
            self.known.push(Known { state, part })?;
        }
        Ok(())
    }

    /// A part in the state that these words say.
    fn known(&self, state: &str) -> Option<&P> {
        let found = self
            .known
            .iter()
            .find(|known| known.state.as_str() == state)?;
        Some(&found.part)
    }
}

/// An error if other words are found than are wanted.
fn is_found(found: &String, wanted: &str) -> Result<(), Fail> {
    if found.as_str() != wanted {
        return Err(Fail::new(format_args!("{found}, and not {wanted}")));
    }
    Ok(())
}
