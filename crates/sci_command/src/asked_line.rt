//! The line of memory that a command of a schedule is asked for.

ghost use Rattle.std.specs.Prelude.{◌≡◌, false, None, IfOk, IfErr, IsSome};
ghost use Rattle.sci_text.specs.declared.fault.TextFaultKind.TheVariants.{Range};
ghost use Rattle.sci_text.specs.{Schedule.{IsSchedule, schedule_text}, Tap.{has_failed, is_called_again, tapped}};
ghost use Rattle.sci_command.specs.{Input.{IsReadAs}, AskedLine.{HasLine, IsAskedFault, is_asked as is_asked_of}};

use crate::reading::read_schedule;
use crate::refusal::{Note, Refusal};
use sci_text::{Schedule, Tap, TextFaultKind, push_field, push_text};
use std::alloc::{AllocError, Global};
use std::io::Read;

/// The line that is asked for, if the machine of a schedule doesn't have it.
fn line_lacking(schedule: &Schedule, asked: Option<u8>) -> Option<u8>
    ensures has { result ≡ None → HasLine asked schedule.now }
    ensures lacks { IsSome result → HasLine asked schedule.now → ⊥ }
{
    let line = asked?;
    if line < schedule.extent().lines {
        None
    } else {
        Some(line)
    }
}

/// What a word of the command line says that names a number which isn't one of a schedule's machine, and what could stand
/// there: the numbers below `count`.
fn lacking(alloc: Global, asked: Asked, number: u8, count: u8) -> Result<Vec<u8>, AllocError> {
    let mut note = Vec::new(alloc);
    push_text(&mut note, asked.word())?;
    push_field(&mut note, u64::from(number))?;
    push_text(&mut note, asked.expected())?;
    push_field(&mut note, u64::from(count.saturating_sub(1)))?;
    Ok(note)
}

/// What a command of a schedule is asked for by number.
#[derive(Clone, Copy)]
pub enum Asked {
    /// A line of memory.
    Line,
    /// A node.
    Node,
}

impl Asked {
    /// The word of the command line.
    fn word(self) -> &'static str {
        match self {
            Asked::Line => "--line",
            Asked::Node => "--node",
        }
    }

    /// What is expected behind it, up to the greatest number.
    fn expected(self) -> &'static str {
        match self {
            Asked::Line => ": expected a line of the schedule's machine, from 0 to",
            Asked::Node => ": expected a node of the schedule's machine, from 0 to",
        }
    }

    /// The refusal of a number that isn't one of a schedule's machine, which has as many lines or nodes as said: Range, at
    /// line 0.
    pub fn refused(self, alloc: Global, number: u8, count: u8) -> Refusal
        ensures line { result.fault.line ≡ 0 }
        ensures kind { result.fault.kind ≡ Range }
    {
        let note = Note::of_made(lacking(alloc, self, number, count));
        Refusal::of_input(TextFaultKind::Range, note)
    }
}

/// The schedule that the reader gives, read to its end. A refusal names its first fault; or it is Range at line 0, if the
/// schedule's machine doesn't have the line that is asked for.
pub fn read_asked<R: Read>(
    alloc: Global,
    asked: Option<u8>,
    reader: &mut Tap<R>,
) -> Result<Schedule, Refusal>
    requires { has_failed reader.old ≡ false }
    ensures read { IfOk result (λ schedule.
        IsReadAs (R.remaining (tapped reader.old)) (has_failed reader.new)
        (λ input. input ≡ schedule_text schedule)) }
    ensures good { IfOk result IsSchedule }
    ensures has { IfOk result (HasLine asked) }
    ensures fault { IfErr result (λ refusal. IsAskedFault asked refusal.fault.kind
        (R.remaining (tapped reader.old)) (has_failed reader.new) refusal.fault.line) }
    ensures again { is_called_again reader.new ≡ is_called_again reader.old }
{
    let schedule = read_schedule(alloc, reader)?;
    match line_lacking(&schedule, asked) {
        Some(line) => Err(Asked::Line.refused(alloc, line, schedule.extent().lines)),
        None => Ok(schedule),
    }
}

/// Whether what is about a line, or about none, is asked for.
pub fn is_asked(asked: Option<u8>, about: Option<u8>) -> bool
    ensures { result ≡ is_asked_of asked about }
{
    match (asked, about) {
        (None, _) => true,
        (Some(line), Some(about)) => about == line,
        (Some(_), None) => false,
    }
}
