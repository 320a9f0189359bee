//! The command `trace`: what each event of a schedule does.

ghost use Rattle.std.specs.Prelude.{◌≡◌, ◌++◌, ◌&&◌, not, false, is_some, IfOk, OnOk};
ghost use Rattle.sci_text.specs.Tap.{has_failed};
ghost use Rattle.sci_core.specs.Core.{step, stepping};
ghost use Rattle.sci_command.specs.{Answer.{HasAnswered}, declared.outcome.Outcome.{Outcome}, AskedLine.{IsAskedFault}};
ghost use Rattle.sci_traces.specs.TraceAnswer.{is_traced as is_traced_of, IsTrace, IsTraceAnswer, shown_text};

use crate::event_words::push_event;
use crate::json_event::push_json;
use sci_command::{Answer, Answered, Outcome, is_asked, read_asked};
use sci_core::Machine;
use sci_statistics::{applied, line_about};
use sci_text::{Schedule, Tap};
use sci_words::{Event, MAX_OPERATIONS};
use std::alloc::{AllocError, Global};
use std::io::Read;

/// The line in which the first event of a schedule stands.
const FIRST_EVENT_LINE: u64 = 2;

/// What is asked of a trace.
#[derive(Clone, Copy)]
pub struct TraceRequest {
    /// Whether each event is a JSON object.
    pub json: bool,
    /// Whether it ends behind the first event that isn't enabled.
    pub strict: bool,
    /// The line of memory that its events are about, or None for all events.
    pub line: Option<u8>,
}

/// Whether an event is traced.
fn is_traced(machine: &Machine, request: TraceRequest, event: &Event) -> bool
    ensures { result ≡ is_traced_of request machine.now event.now }
{
    is_asked(request.line, line_about(machine, event))
}

/// Takes a step, appends the event and what comes of it, as JSON or in words, and answers whether it was enabled. Refused if
/// memory is.
fn push_shown(
    text: &mut Vec<u8>,
    machine: &mut Machine,
    json: bool,
    number: u64,
    event: &Event,
) -> Result<bool, AllocError>
    ensures text { OnOk result
        (text.new.items ≡ text.old.items ++ shown_text json machine.old number event.now) }
    ensures enabled { IfOk result
        (λ enabled. enabled ≡ is_some (stepping machine.old event.now)) }
    ensures step { OnOk result (machine.new ≡ step machine.old event.now) }
{
    if json {
        push_json(text, machine, number, event)
    } else {
        push_event(*text.allocator(), text, machine, number, event)
    }
}

/// Whether a trace ends behind an event that is enabled or not.
fn ends_at(strict: bool, enabled: bool) -> bool
    ensures { result ≡ (strict && not enabled) }
{
    strict && !enabled
}

/// The trace of a schedule, and how it ends.
fn traced(alloc: Global, request: TraceRequest, schedule: &Schedule) -> Result<Answer, AllocError>
    ensures trace { IfOk result (λ x. IsTrace request schedule.now x.text.items x.outcome) }
    ensures judged { IfOk result (λ x. x.outcome ≡ Outcome.Refused → ⊥) }
{
    let mut machine = Machine::new(alloc, schedule.extent(), MAX_OPERATIONS)?;
    let mut text = Vec::new(alloc);
    let mut number = FIRST_EVENT_LINE;
    for event in schedule.events() {
        if !is_traced(&machine, request, event) {
            let _enabled = applied(&mut machine, event)?;
            number += 1;
            continue;
        }
        let enabled = match push_shown(&mut text, &mut machine, request.json, number, event) {
            Ok(enabled) => enabled,
            Err(refused) => return Err(refused),
        };
        if ends_at(request.strict, enabled) {
            return Ok(Answer {
                text,
                outcome: Outcome::Unlawful,
            });
        }
        number += 1;
    }
    Ok(Answer {
        text,
        outcome: Outcome::Done,
    })
}

/// Reads a schedule to its end, applies its events in text order to a new machine whose nodes may each issue 65,536
/// operations, and says what each does. `K: EVENT` comes first, with the number of the event's line in the schedule; then
/// lines that are indented by two blanks: the packet that the event sent or took, the states of its line in its node's
/// cache and at a home that is there, before and after, if they changed, and the entry that it logged; or `not enabled: `
/// and why. It is Done. If a line of memory is asked for, only the events about that line are there: those that name it,
/// and those that take or send a packet about it. A strict trace ends behind the first of its events that isn't enabled,
/// and is Unlawful then. A schedule with a fault is refused, as are a reader that fails, too long an input and running out
/// of memory, at line 0, and a line that the machine doesn't have, as `range` at line 0. After a failed read nothing more
/// is read.
pub fn trace<R: Read>(alloc: Global, request: TraceRequest, reader: &mut Tap<R>) -> Answered
    requires { has_failed reader.old ≡ false }
    ensures { HasAnswered R.remaining reader.old reader.new
        (IsTraceAnswer request) (IsAskedFault request.line) result }
{
    let schedule = read_asked(alloc, request.line, reader)?;
    Ok(traced(alloc, request, &schedule)?)
}
