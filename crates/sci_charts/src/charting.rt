//! The command `chart`: a message sequence chart of a schedule.

ghost use Rattle.std.specs.Prelude.{◌≡◌, ◌&&◌, false, IfOk};
ghost use Rattle.sci_text.specs.Tap.{has_failed, tapped};
ghost use Rattle.sci_command.specs.{Answer.{HasAnswered, answer_in}, Beginning.{AreDeadIn}, Input.{IsReadAs}};
ghost use Rattle.sci_command.specs.AskedLine.{IsAskedFault, is_asked};
ghost use Rattle.sci_charts.specs.{ChartAnswer.{IsChart, IsChartAnswer}, Rows.{is_past, is_within}};

use crate::drawing::Drawing;
use crate::layout::FIRST_LINE;
use sci_command::{Answer, Outcome, Replayed, is_asked, read_asked};
use sci_core::{DeadEvents, Machine};
use sci_text::{Schedule, Tap};
use sci_words::MAX_OPERATIONS;
use std::alloc::{AllocError, Global};
use std::io::Read;

/// The lines of a schedule from one to another.
#[derive(Clone, Copy)]
pub struct TextLines {
    pub first: u64,
    pub last: u64,
}

/// What is asked of a chart.
#[derive(Clone, Copy)]
pub struct ChartRequest {
    /// The line of memory that it is about, if it isn't about all.
    pub line: Option<u8>,
    /// The lines of the schedule whose events it shows, if it doesn't show all.
    pub events: Option<TextLines>,
}

impl ChartRequest {
    /// Whether a line of the schedule is one of those that are asked for.
    pub fn is_within(&self, number: u64) -> bool
        ensures { result ≡ is_within self.now.events number }
    {
        match self.events {
            Some(lines) => lines.first <= number && number <= lines.last,
            None => true,
        }
    }

    /// Whether an event is shown that is about a line of memory, or none, and stands on a line of the schedule.
    pub fn shows(&self, line: Option<u8>, number: u64) -> bool
        ensures { result ≡ (is_asked self.now.line line && is_within self.now.events number) }
    {
        is_asked(self.line, line) && self.is_within(number)
    }

    /// Whether a line of the schedule stands behind those that are asked for.
    pub fn is_past(&self, number: u64) -> bool
        ensures { result ≡ is_past self.now.events number }
    {
        match self.events {
            Some(lines) => lines.last < number,
            None => false,
        }
    }
}

/// The chart of a schedule. The events on lines before those that are asked for happen above it.
fn chart_of(
    alloc: Global,
    schedule: &Schedule,
    request: ChartRequest,
) -> Result<Vec<u8>, AllocError>
    ensures { IfOk result (λ text. IsChart request schedule.now text.items) }
{
    let mut machine = Machine::new(alloc, schedule.extent(), MAX_OPERATIONS)?;
    let mut drawing = Drawing::new(alloc, schedule, request)?;
    let mut number = FIRST_LINE;
    for event in schedule.events() {
        if request.is_past(number) {
            return drawing.finish();
        }
        match drawing.draw(&mut machine, number, event) {
            Ok(()) => {}
            Err(refused) => return Err(refused),
        }
        number += 1;
    }
    drawing.finish()
}

/// Reads a schedule to its end, applies its events in text order to a new machine whose nodes may each issue 65,536
/// operations (events that are not enabled change nothing), and gives a message sequence chart of them in SVG: Done. With a
/// line it shows the events and the packets about that line alone, and else all. With lines of the schedule it shows the
/// events on these alone: a packet that was sent before them comes in from above, and one that is taken after them goes on
/// to the end. Beside it are the events of the schedule that weren't enabled. A schedule with a fault is refused, as are a reader that fails, too long an input and running out of memory,
/// at line 0, and a line that the machine doesn't have, as `range` at line 0. After a failed read nothing more is read.
pub fn chart<R: Read>(alloc: Global, request: ChartRequest, reader: &mut Tap<R>) -> Replayed
    requires { has_failed reader.old ≡ false }
    ensures answer { HasAnswered R.remaining reader.old reader.new
        (IsChartAnswer request) (IsAskedFault request.line) (answer_in result) }
    ensures dead { IfOk result (λ answered. IsReadAs (R.remaining (tapped reader.old))
        (has_failed reader.new) (λ bytes. AreDeadIn bytes answered.1)) }
{
    let schedule = read_asked(alloc, request.line, reader)?;
    let text = chart_of(alloc, &schedule, request)?;
    let dead = DeadEvents::of(alloc, schedule.extent(), schedule.events())?;
    let answer = Answer {
        text,
        outcome: Outcome::Done,
    };
    Ok((answer, dead))
}
