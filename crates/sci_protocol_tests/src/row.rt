//! Rows: texts that say what happens in a machine, and what is seen of it.
//!
//! A row begins with a line `row NAME`. The next line is that of a schedule, `machine NODES LINES SLOTS`, unless other
//! lines come before each row. Each other line has commands with `;` between them. With `1000 times: ` in front it is
//! played a thousand times. A line that begins with `//` is a comment.
//!
//! - `EVENT` is an event as in a schedule, and must be enabled. `EVENT = WORDS` also says what comes of it: of an ask the
//!   request, its target and its control number, as `roll forward none to 1 #2`; of a serve and a refuse the answer, as
//!   `busy`; of a reply the answer and its target, as `busy to 1`; of a perform the reply and the version, as `7 @1`.
//! - `not EVENT` must not be enabled. `not EVENT = OBSTACLE` also says what stands in its way.
//! - `state NODE LINE = WORDS` is the state of a line in a cache, as `Below forward none backward 1 @1 7`. Contents are the
//!   version and the words up to the last one that isn't 0. `home LINE = WORDS` is the state of a home, as `GONE 2`.
//! - `entries NODE = COUNT` is how many operations a node has performed. `list LINE = [NODE, ..]`, `authority LINE = NODE`
//!   and `last LINE = CONTENTS` are what the machine says of a line.
//! - `overtake requests FROM TO` and `overtake answers FROM TO`: in this lane the second packet comes before the first.
//! - `drain = COUNT` and `settle = COUNT` are how many events these take, and `next NODE LINE = REPLY @VERSION` performs the
//!   operation that is pending there before any other. No event comes after them in a row.
//! - `log NODES NODES LINES`, the last command, is the text of the logs and the last contents, to the end of the row. Its
//!   lines may stand on one, with `;` between them.
//!
//! Each event happens in a `Machine`, and once more in caches and homes between which its packets are carried by hand.
//! Both must show the same after it.

use crate::reading::{event_of, extent_of, numbers};
use crate::states::{home_text, state_text};
use crate::twins::Twins;
use crate::words::{push_contents, reply_text};
use sci_core::LaneKind;
use std::alloc::Global;
use std::test::*;

/// Plays rows. An error names the row and the command that failed.
pub fn play(rt: &(impl Eprint + AllocGlobal), rows: &str) -> Result<(), Fail> {
    play_after(rt, "", rows)
}

/// Plays rows that all begin with these lines.
pub fn play_after(rt: &(impl Eprint + AllocGlobal), first: &str, rows: &str) -> Result<(), Fail> {
    let alloc = rt.alloc();
    let (_blank, rows) = rows.split_once("row ").ok_or("no row")?;
    for row in rows.split("row ") {
        let (name, rest) = row.split_once('\n').ok_or("no commands")?;
        let text = format!(in alloc; "{first}{rest}")?;
        let (machine, commands) = text.trim().split_once('\n').ok_or("no machine")?;
        let twins = Twins::new(alloc, extent_of(alloc, machine)?)?;
        if let Err(fail) = (Row { alloc, twins }).play(rt, commands) {
            let _ = rt.eprintln(format_args!("in the row {name}"));
            return Err(fail);
        }
    }
    Ok(())
}

/// A machine that a row is played on.
#[derive(Drop)]
struct Row {
    alloc: Global,
    twins: Twins,
}

impl Row {
    fn play(&mut self, rt: &impl Eprint, text: &str) -> Result<(), Fail> {
        let (commands, log) = match text.split_once("log ") {
            Some((commands, log)) => (commands, Some(log)),
            None => (text, None),
        };
        for line in commands.lines() {
            if !line.trim().starts_with("//") {
                self.play_line(rt, line)?;
            }
        }
        match log {
            Some(log) => self.logged(log),
            None => Ok(()),
        }
    }

    fn play_line(&mut self, rt: &impl Eprint, line: &str) -> Result<(), Fail> {
        let (times, commands) = match line.split_once(" times: ") {
            Some((times, commands)) => (times.trim().parse::<u32>()?, commands),
            None => (1, line),
        };
        for _time in 0..times {
            for command in commands.split(';') {
                if let Err(fail) = self.command(command.trim()) {
                    let _ = rt.eprintln(format_args!("at the command {command}"));
                    return Err(fail);
                }
            }
        }
        Ok(())
    }

    /// Plays a command. If it has words, these must be found.
    fn command(&mut self, command: &str) -> Result<(), Fail> {
        let Some((said, wanted)) = command.split_once(" = ") else {
            return self.event(command);
        };
        let found = self.found(said)?;
        if found.as_str() != wanted {
            return Err(Fail::new(format_args!("{found}, and not {wanted}")));
        }
        Ok(())
    }

    /// Has an event happen, or sees that it can't. Nothing happens at the end of a line.
    fn event(&mut self, command: &str) -> Result<(), Fail> {
        if command.is_empty() {
            return Ok(());
        }
        if let Some(lane) = command.strip_prefix("overtake ") {
            return self.overtake(lane);
        }
        let _found = match command.strip_prefix("not ") {
            Some(event) => self.obstacle(event)?,
            None => self.happens(command)?,
        };
        Ok(())
    }

    fn overtake(&mut self, lane: &str) -> Result<(), Fail> {
        let (kind, nodes) = lane.split_once(' ').ok_or("no lane")?;
        let (from, to) = numbers(nodes)?;
        let kind = match kind {
            "requests" => LaneKind::Requests,
            "answers" => LaneKind::Answers,
            _ => return Err(Fail::from("no kind of lane")),
        };
        self.twins.overtake(kind, from, to)
    }

    /// The words that are found where a command says some.
    fn found(&mut self, said: &str) -> Result<String, Fail> {
        let (word, rest) = said.split_once(' ').unwrap_or((said, ""));
        match word {
            "not" => self.obstacle(rest),
            "drain" => Ok(format!(in self.alloc; "{}", self.twins.machine_mut().drain()?)?),
            "next" => {
                let (node, line) = numbers(rest)?;
                let entry = self.twins.machine_mut().perform_next(node, line)?;
                Ok(reply_text(self.alloc, entry.reply, entry.version)?)
            }
            "settle" => Ok(format!(in self.alloc; "{}", self.twins.machine_mut().settle()?)?),
            "state" | "home" | "entries" | "list" | "authority" | "last" => self.seen(word, rest),
            _ => self.happens(said),
        }
    }

    /// What is seen of the machine: of a node, or of a line.
    fn seen(&self, word: &str, rest: &str) -> Result<String, Fail> {
        let (alloc, machine) = (self.alloc, self.twins.machine());
        let (first, second) = numbers(rest)?;
        match word {
            "state" => {
                let held = machine.held(first, second).ok_or("no such line")?;
                Ok(state_text(alloc, held)?)
            }
            "home" => {
                let home = machine.home(first).ok_or("no such home")?;
                Ok(home_text(alloc, &home.state())?)
            }
            "entries" => Ok(format!(in alloc; "{}", machine.entries(first))?),
            "list" => {
                let list = machine.sharing_list(alloc, first)?;
                Ok(format!(in alloc; "{list:?}")?)
            }
            "authority" => Ok(format!(in alloc; "{:?}", machine.authority(first))?),
            _ => {
                let mut text = String::new(alloc);
                let last = machine.last_contents(first).ok_or("no such line")?;
                push_contents(&mut text, &last)?;
                Ok(text)
            }
        }
    }

    /// An error if the logs and the last contents have another text.
    fn logged(&self, log: &str) -> Result<(), Fail> {
        let mut wanted = String::from_str(self.alloc, "log ")?;
        for line in log.trim().lines() {
            for entry in line.split(';') {
                wanted.push_str(entry.trim())?;
                wanted.push('\n')?;
            }
        }
        let found = self.twins.machine().text(self.alloc)?;
        if found.as_slice() != wanted.as_bytes() {
            let found = String::from_utf8_lossy(self.alloc, &found)?;
            return Err(Fail::new(format_args!("{found}, and not {wanted}")));
        }
        Ok(())
    }

    /// What comes of an event, which must be enabled.
    fn happens(&mut self, event: &str) -> Result<String, Fail> {
        let event = event_of(self.alloc, event)?;
        if let Some(obstacle) = self.twins.obstacle_to(&event)? {
            return Err(Fail::new(format_args!("{obstacle:?}")));
        }
        Ok(self.twins.apply(&event)?.ok_or("it is not enabled")?)
    }

    /// What stands in the way of an event, which must not be enabled.
    fn obstacle(&mut self, event: &str) -> Result<String, Fail> {
        let event = event_of(self.alloc, event)?;
        let obstacle = self.twins.obstacle_to(&event)?;
        if self.twins.apply(&event)?.is_some() {
            return Err(Fail::from("it is enabled"));
        }
        let obstacle = obstacle.ok_or("nothing stands in its way")?;
        Ok(format!(in self.alloc; "{obstacle:?}")?)
    }
}
