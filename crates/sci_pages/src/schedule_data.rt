//! The data of a page of a schedule.

ghost use Rattle.std.specs.Prelude.{◌≡◌, ◌++◌, ◌<◌, ℕ, List, length, None, IfErr, IfOk, IfSome, OnOk};
ghost use Rattle.sci_text.specs.{Schedule.{IsSchedule, schedule_text}};
ghost use Rattle.sci_core.specs.{Core.{step}, Reached.{IsReached}};
ghost use Rattle.sci_charts.specs.Rows.{shown_places};
ghost use Rattle.sci_command.specs.AskedLine.{HasLine};
ghost use Rattle.sci_pages.specs.declared.kind.PageKind.{PageKind};
ghost use Rattle.sci_pages.specs.{PageAnswer.{AreData, AreDataOf, IsPart}, WithoutData.{IsUnasked, IsWithoutData}};

use crate::limits::MAX_PAGE_EVENTS;
use crate::refusals::too_many_events;
use sci_charts::ChartRequest;
use sci_command::{Asked, Refusal, TextKind};
use sci_core::Machine;
use sci_statistics::{applied, line_about};
use sci_text::{Schedule, push_machine_line, schedule_of};
use sci_traces::{ListPlace, listed_line, push_json, push_list_behind};
use sci_words::{Event, MAX_OPERATIONS};
use std::alloc::{AllocError, Global};

/// The line in which the first event of a schedule stands.
const FIRST_EVENT_LINE: u64 = 2;

/// Takes a step, and appends what a trace writes of the event as JSON, and the list behind it, if it may have changed one.
fn push_part(
    out: &mut Vec<u8>,
    machine: &mut Machine,
    number: u64,
    event: &Event,
) -> Result<(), AllocError>
    requires { IsReached machine.old }
    ensures part { OnOk result ((text : List ℕ) × (out.new.items ≡ out.old.items ++ text)
        × IsPart (record { core = machine.old; number = number; event = event.now }) text) }
    ensures step { OnOk result (machine.new ≡ step machine.old event.now) }
{
    let line = listed_line(machine, None, event);
    if push_json(out, machine, number, event)? {
        push_list_behind(*out.allocator(), out, machine, ListPlace { number, line })
    } else {
        Ok(())
    }
}

/// The data of a page: the size of the machine, and the events that are asked for. None if they are too many.
fn data_of(
    alloc: Global,
    schedule: &Schedule,
    request: ChartRequest,
) -> Result<Option<Vec<u8>>, AllocError>
    ensures some { IfOk result (λ found. IfSome found (λ body. AreData request schedule.now body.items)) }
    ensures none { IfOk result (λ found. found ≡ None →
        MAX_PAGE_EVENTS < length (shown_places request schedule.now)) }
{
    let mut machine = Machine::new(alloc, schedule.extent(), MAX_OPERATIONS)?;
    let mut data = Vec::new(alloc);
    push_machine_line(&mut data, schedule.extent())?;
    let mut number = FIRST_EVENT_LINE;
    let mut count = 0;
    for event in schedule.events() {
        if !request.shows(line_about(&machine, event), number) {
            let _enabled = applied(&mut machine, event)?;
            number += 1;
            continue;
        }
        if count == MAX_PAGE_EVENTS {
            return Ok(None);
        }
        match push_part(&mut data, &mut machine, number, event) {
            Ok(()) => {}
            Err(refused) => return Err(refused),
        }
        number += 1;
        count += 1;
    }
    Ok(Some(data))
}

/// The schedule that a text says, whose machine has the line that is asked for.
fn asked_schedule(alloc: Global, asked: Option<u8>, text: &[u8]) -> Result<Schedule, Refusal>
    ensures read { IfOk result (λ schedule. text.now ≡ schedule_text schedule) }
    ensures good { IfOk result IsSchedule }
    ensures has { IfOk result (HasLine asked) }
    ensures fault { IfErr result (λ refusal. IsUnasked asked text.now refusal.fault) }
{
    let schedule = match schedule_of(alloc, text) {
        Ok(schedule) => schedule,
        Err(fault) => return Err(Refusal::of_text(alloc, TextKind::Schedule.known(), text, fault)),
    };
    let Some(line) = asked else {
        return Ok(schedule);
    };
    let lines = schedule.extent().lines;
    if line < lines {
        return Ok(schedule);
    }
    Err(Asked::Line.refused(alloc, line, lines))
}

/// The data of the page of a schedule, from its text. Refused for the first fault of the text; or as `range` at line 0, if its
/// machine doesn't have the line that is asked for; or as `too-many` at line 0, if more events are asked for than a page has.
pub fn schedule_data(alloc: Global, request: ChartRequest, text: &[u8]) -> Result<Vec<u8>, Refusal>
    ensures data { IfOk result (λ body. AreDataOf request text.now body.items) }
    ensures fault { IfErr result (λ refusal. IsWithoutData PageKind.Schedule request text.now refusal.fault) }
{
    let schedule = asked_schedule(alloc, request.line, text)?;
    match data_of(alloc, &schedule, request)? {
        None => Err(too_many_events()),
        Some(data) => Ok(data),
    }
}
