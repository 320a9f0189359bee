//! What a command answers.

ghost use Rattle.std.specs.Prelude.{◌≡◌, None, Ok};
ghost use Rattle.sci_command.specs.{Answer.{IsShownOf, IsWrittenOf, answer_in, dead_in, refusal_of}, Writing.{HasWritten}};
ghost use Rattle.sci_text.specs.Tap.{has_failed, is_called_again, tapped};

use crate::outcome::Outcome;
use crate::refusal::{Refusal, refusal_line};
use crate::writing::write_answer;
use sci_core::DeadEvents;
use sci_text::Tap;
use std::io::Write;

/// What a command writes, and how it ends then.
#[derive(Debug, Drop)]
pub struct Answer {
    /// All bytes that are written.
    pub text: Vec<u8>,
    /// How the command ends, if no write fails.
    pub outcome: Outcome,
}

/// What comes of a command: its answer, or why its input is refused.
pub type Answered = Result<Answer, Refusal>;

/// What comes of a command that goes through the events of a schedule: its answer, and the events that weren't enabled; or why
/// its input is refused.
pub type Replayed = Result<(Answer, Option<DeadEvents>), Refusal>;

/// Parts the answer of such a command from the events that weren't enabled.
pub fn parted(replayed: Replayed) -> (Answered, Option<DeadEvents>)
    ensures answer { result.0 ≡ answer_in replayed }
    ensures dead { result.1 ≡ dead_in replayed }
{
    match replayed {
        Ok((answer, dead)) => (Ok(answer), dead),
        Err(refusal) => (Err(refusal), None),
    }
}

/// How a command ended.
#[derive(Debug, Drop)]
pub struct Ended {
    /// How it ended. It is Refused, too, if a write failed.
    pub outcome: Outcome,
    /// Why its input is refused, if it is.
    pub refusal: Option<Refusal>,
    /// The events of its schedule that weren't enabled, if there are any of which standard error is to say so.
    pub dead: Option<DeadEvents>,
}

impl Ended {
    /// Ended so, beside these events of its schedule that weren't enabled.
    pub fn beside(self, dead: Option<DeadEvents>) -> Ended
        ensures outcome { result.outcome ≡ self.outcome }
        ensures refusal { result.refusal ≡ self.refusal }
        ensures dead { result.dead ≡ dead }
    {
        Ended { dead, ..self }
    }
}

impl Answer {
    /// Writes the answer, and says how the command ended.
    fn write<W: Write>(&self, writer: &mut Tap<W>) -> Ended
        ensures written { HasWritten (W.contents (tapped writer.old)) (W.contents (tapped writer.new))
            (has_failed writer.new) result.outcome (IsWrittenOf (Ok self.now)) }
        ensures refusal { result.refusal ≡ None }
        ensures dead { result.dead ≡ None }
        ensures again { is_called_again writer.new ≡ is_called_again writer.old }
    {
        Ended {
            outcome: write_answer(writer, &self.text, self.outcome),
            refusal: None,
            dead: None,
        }
    }
}

/// Writes the answer of a command, or the line that refuses its input, and says how the command ended.
pub fn finish<W: Write>(writer: &mut Tap<W>, answered: Answered) -> Ended
    ensures written { HasWritten (W.contents (tapped writer.old)) (W.contents (tapped writer.new))
        (has_failed writer.new) result.outcome (IsWrittenOf answered) }
    ensures refusal { result.refusal ≡ refusal_of answered }
    ensures dead { result.dead ≡ None }
    ensures again { is_called_again writer.new ≡ is_called_again writer.old }
{
    match answered {
        Ok(answer) => answer.write(writer),
        Err(refusal) => Ended {
            outcome: write_answer(
                writer,
                refusal_line(refusal.fault).as_slice(),
                Outcome::Refused,
            ),
            refusal: Some(refusal),
            dead: None,
        },
    }
}

/// Writes the answer of a command, or nothing if its input is refused, and says how the command ended.
pub fn show<W: Write>(writer: &mut Tap<W>, answered: Answered) -> Ended
    ensures written { HasWritten (W.contents (tapped writer.old)) (W.contents (tapped writer.new))
        (has_failed writer.new) result.outcome (IsShownOf answered) }
    ensures refusal { result.refusal ≡ refusal_of answered }
    ensures dead { result.dead ≡ None }
    ensures again { is_called_again writer.new ≡ is_called_again writer.old }
{
    match answered {
        Ok(answer) => answer.write(writer),
        Err(refusal) => Ended {
            outcome: Outcome::Refused,
            refusal: Some(refusal),
            dead: None,
        },
    }
}
