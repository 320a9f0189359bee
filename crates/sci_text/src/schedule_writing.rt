//! Writing schedules: the whole text is made first, and then written.

ghost use Rattle.std.specs.{Prelude.{◌≡◌, ◌+◌, ◌≤◌, ◌++◌, false, length, IfOk, IfErr, OnOk}, Io.KnownBytes.{Appends}};
ghost use Rattle.sci_words.specs.declared.limits.TheConstants.{MAX_INPUT_BYTES, MAX_TEXT_LINE_BYTES};
ghost use Rattle.sci_text.specs.Writing.{IsWriteFault};
ghost use Rattle.sci_text.specs.Schedule.{IsSchedule, event_details, event_line, event_lines, event_word as word_of_event, first_node as node_of_event};
ghost use Rattle.sci_text.specs.{Schedule.{schedule_text as text_of}, Script.{machine_line}};
ghost use Rattle.sci_text.specs.Tap.{has_failed, is_called_again, tapped};

use crate::fault::TextFault;
use crate::line_end::LineEnd;
use crate::printing::{push_field, push_text, put_operation};
use crate::schedule::Schedule;
use crate::schedule_laws::schedules_are_short;
use crate::tap::Tap;
use crate::writing::write_text;
use sci_words::{Event, EventKind, Extent};
use std::alloc::{AllocError, Global};
use std::io::Write;

/// The node behind an event's word.
fn first_node(event: Event) -> u8
    ensures { result ≡ node_of_event event }
{
    match event {
        Event::Issue { node, .. }
        | Event::Perform { node, .. }
        | Event::Ask { node, .. }
        | Event::Reply { node } => node,
        Event::Serve { from, .. } | Event::Refuse { from, .. } | Event::Accept { from, .. } => from,
    }
}

/// Puts what stands behind the first node.
fn put_details(line: &mut LineEnd, event: Event)
    requires { 97 + length line.old ≤ MAX_TEXT_LINE_BYTES }
    ensures text { line.new ≡ event_details event ++ line.old }
    ensures short { length line.new ≤ 97 + length line.old }
{
    match event {
        Event::Issue { op, .. } => {
            put_operation(line, op);
            line.put_text(" ");
        }
        Event::Perform { line: number, .. } => line.put_field(u64::from(number)),
        Event::Ask {
            line: number,
            kind,
            ..
        } => {
            line.put_text(kind.word());
            line.put_text(" ");
            line.put_field(u64::from(number));
        }
        Event::Serve { node, .. } | Event::Refuse { node, .. } | Event::Accept { node, .. } => {
            line.put_field(u64::from(node));
        }
        Event::Reply { .. } => {}
    }
}

/// Appends the line of an event, as it stands in a schedule. Refused if memory is.
#[tactic(auto, unfolding(crate::specs::Schedule::event_line))]
pub fn push_event_line(out: &mut Vec<u8>, event: Event) -> Result<(), AllocError>
    ensures { OnOk result (out.new.items ≡ out.old.items ++ event_line event) }
{
    let mut line = LineEnd::new();
    line.put_text("\n");
    put_details(&mut line, event);
    line.put_field(u64::from(first_node(event)));
    line.put_text(EventKind::of(&event).word());
    out.extend_from_slice(line.as_slice())
}

/// Appends the line of a machine's size, with which a script and a schedule begin. Refused if memory is.
#[tactic(auto, unfolding(crate::specs::Script::machine_line))]
pub fn push_machine_line(out: &mut Vec<u8>, extent: Extent) -> Result<(), AllocError>
    ensures { OnOk result (
        out.new.items ≡ out.old.items ++ machine_line extent.nodes extent.lines extent.slots) }
{
    push_text(out, "machine")?;
    push_field(out, u64::from(extent.nodes))?;
    push_field(out, u64::from(extent.lines))?;
    push_field(out, u64::from(extent.slots))?;
    push_text(out, "\n")
}

fn push_events(out: &mut Vec<u8>, events: &[Event]) -> Result<(), AllocError>
    ensures { OnOk result (out.new.items ≡ out.old.items ++ event_lines events.now) }
{
    for event in events {
        push_event_line(out, *event)?;
    }
    Ok(())
}

/// The text of a schedule, which `read_schedule` reads as this schedule. Refused if memory is.
pub fn schedule_text(alloc: Global, schedule: &Schedule) -> Result<Vec<u8>, AllocError>
    ensures text { IfOk result (λ text. text.items ≡ text_of schedule.now) }
    ensures good { IsSchedule schedule.now }
{
    let events = schedule.events();
    let mut text = Vec::new(alloc);
    push_machine_line(&mut text, schedule.extent())?;
    push_events(&mut text, events)?;
    Ok(text)
}

/// Writes the text of a schedule, which `read_schedule` reads as this schedule. The whole text is made before its first
/// byte is written. A refusal is Write if the writer failed, and then a prefix of the text may have gone out; or Memory
/// if an allocation failed, and then nothing has. Both have line 0.
pub fn write_schedule<W: Write>(
    alloc: Global,
    writer: &mut Tap<W>,
    schedule: &Schedule,
) -> Result<(), TextFault>
    requires { has_failed writer.old ≡ false }
    ensures text { OnOk result (
        Appends (W.contents (tapped writer.old)) (W.contents (tapped writer.new))
        (text_of schedule.now)) }
    ensures few { length (text_of schedule.now) ≤ MAX_INPUT_BYTES }
    ensures unfailed { OnOk result (has_failed writer.new ≡ false) }
    ensures line { IfErr result (λ fault. fault.line ≡ 0) }
    ensures fault { IfErr result (λ fault. IsWriteFault fault.kind
        (W.contents (tapped writer.old)) (W.contents (tapped writer.new))
        (has_failed writer.new) (text_of schedule.now)) }
    ensures again { is_called_again writer.new ≡ is_called_again writer.old }
{
    schedules_are_short();
    let text = schedule_text(alloc, schedule)?;
    write_text(writer, &text)
}
