//! What a search for an order finds, as a JSON object.

ghost use Rattle.std.specs.{Prelude.{◌≡◌, ◌++◌, IfOk, OnOk, codes, false, true}, List.{flat_map}};
ghost use Rattle.sci_history.specs.Audit.{entries_of};
ghost use Rattle.sci_json.specs.Members.{Adds, array_member, object_member, optional_member, text_member};
ghost use Rattle.sci_reports.specs.OrderJson.{at_members, cycle_json as cycle_json_of, entry_object, fault_json as fault_json_of};
ghost use Rattle.sci_reports.specs.OrderJson.{fault_members, fault_name as fault_name_of, found_json as found_json_of, judged_members};
ghost use Rattle.sci_reports.specs.OrderWords.{reason_text};
ghost use Rattle.sci_reports.specs.OrderJson.{shown_members, step_members, step_object};

use crate::ordering::{NodeOrder, NumberedStep, OrderRequest, order_name, reason_words};
use json::Writer;
use sci_history::{Entry, FaultKind, LineFault, Reason};
use sci_json::{into_line, write_entry, write_number, write_text, write_truth};
use std::alloc::{AllocError, Global};

/// The name of a kind of fault.
#[tactic(auto, unfolding(crate::specs::OrderJson::fault_name))]
fn fault_name(kind: FaultKind) -> &'static str
    ensures { result.now ≡ fault_name_of kind }
{
    match kind {
        FaultKind::VersionTwice => "version-twice",
        FaultKind::VersionMissing => "version-missing",
        FaultKind::WrongReply => "wrong-reply",
        FaultKind::OutOfOrder => "out-of-order",
        FaultKind::LastDiffers => "last-differs",
    }
}

/// Writes the node and the serial of an entry at fault, if there is one.
#[tactic(auto, unfolding(crate::specs::OrderJson::at_members))]
fn write_at(out: &mut Writer, at: Option<(u8, u32)>) -> Result<(), AllocError>
    ensures { OnOk result (Adds out.old out.new (at_members at)) }
{
    match at {
        None => Ok(()),
        Some((node, serial)) => {
            write_number(out, "node", u64::from(node))?;
            write_number(out, "serial", u64::from(serial))
        }
    }
}

/// Writes a fault of a line of memory: its kind, the line, and the node and the serial of the entry at fault, if there is one.
#[tactic(auto, unfolding(crate::specs::OrderJson::fault_members))]
pub(crate) fn write_fault(out: &mut Writer, fault: LineFault, line: u8) -> Result<(), AllocError>
    ensures { OnOk result (Adds out.old out.new (fault_members line fault.kind fault.at)) }
{
    write_text(out, "kind", fault_name(fault.kind))?;
    write_number(out, "line", u64::from(line))?;
    write_at(out, fault.at)
}

/// Writes the object of a fault.
#[tactic(auto, unfolding(sci_json::specs::Members::object_member))]
fn write_fault_object(out: &mut Writer, fault: LineFault, line: u8) -> Result<(), AllocError>
    ensures { OnOk result (Adds out.old out.new
        (object_member (codes "fault") (fault_members line fault.kind fault.at))) }
{
    out.key("fault")?;
    out.begin_object()?;
    write_fault(out, fault, line)?;
    out.end_object()
}

/// What is written of the fault of logs that aren't lawful: one JSON object, and a line feed. Refused if memory is.
#[tactic(auto, unfolding(sci_json::specs::Members::object_line, sci_json::specs::Members::object_of, crate::specs::OrderJson::unlawful_members))]
pub(crate) fn fault_json(alloc: Global, fault: LineFault, line: u8) -> Result<Vec<u8>, AllocError>
    ensures { IfOk result (λ text. text.items ≡ fault_json_of line fault.kind fault.at) }
{
    let mut writer = Writer::new(Vec::new(alloc));
    writer.begin_object()?;
    write_truth(&mut writer, "lawful", false)?;
    write_fault_object(&mut writer, fault, line)?;
    writer.end_object()?;
    into_line(writer)
}

/// Writes that logs are lawful, which order is asked for, and whether there is one.
#[tactic(auto, unfolding(crate::specs::OrderJson::judged_members))]
fn write_judged(out: &mut Writer, keeps: NodeOrder, consistent: bool) -> Result<(), AllocError>
    ensures { OnOk result (Adds out.old out.new (judged_members keeps consistent)) }
{
    write_truth(out, "lawful", true)?;
    write_text(out, "order", order_name(keeps))?;
    write_truth(out, "sequentially_consistent", consistent)
}

/// Writes the object of an entry.
#[tactic(auto, unfolding(crate::specs::OrderJson::entry_object, sci_json::specs::Members::object_of))]
fn write_entry_object(out: &mut Writer, entry: &Entry) -> Result<(), AllocError>
    ensures { OnOk result (Adds out.old out.new (entry_object entry.now)) }
{
    out.begin_object()?;
    write_entry(out, entry)?;
    out.end_object()
}

/// Writes the objects of entries.
fn write_entries(out: &mut Writer, order: &[&Entry]) -> Result<(), AllocError>
    ensures { OnOk result (Adds out.old out.new (flat_map entry_object (entries_of order.now))) }
{
    for entry in order {
        write_entry_object(out, entry)?;
    }
    Ok(())
}

/// Writes the entries of an order, if they are shown.
#[tactic(auto, unfolding(crate::specs::OrderJson::shown_members, sci_json::specs::Members::array_member))]
fn write_shown(out: &mut Writer, shows: bool, order: &[&Entry]) -> Result<(), AllocError>
    ensures { OnOk result (Adds out.old out.new (shown_members shows (entries_of order.now))) }
{
    if !shows {
        return Ok(());
    }
    out.key("entries")?;
    out.begin_array()?;
    write_entries(out, order)?;
    out.end_array()
}

/// What is written of an order: one JSON object, and a line feed. Refused if memory is.
#[tactic(auto, unfolding(sci_json::specs::Members::object_line, sci_json::specs::Members::object_of, crate::specs::OrderJson::found_members))]
pub(crate) fn found_json(
    alloc: Global,
    request: OrderRequest,
    order: &[&Entry],
) -> Result<Vec<u8>, AllocError>
    ensures { IfOk result
        (λ text. text.items ≡ found_json_of request (entries_of order.now)) }
{
    let mut writer = Writer::new(Vec::new(alloc));
    writer.begin_object()?;
    write_judged(&mut writer, request.keeps, true)?;
    write_shown(&mut writer, request.shows, order)?;
    writer.end_object()?;
    into_line(writer)
}

/// Writes the number of the text's line on which an entry stands, if it stands on one.
#[tactic(auto, unfolding(sci_json::specs::Members::optional_member))]
fn write_text_line(out: &mut Writer, line: Option<usize>) -> Result<(), AllocError>
    ensures { OnOk result (Adds out.old out.new (optional_member (codes "text_line") line)) }
{
    match line {
        None => Ok(()),
        Some(line) => write_number(out, "text_line", line as u64),
    }
}

/// Writes why an entry comes after the next one.
fn write_reason(out: &mut Writer, keeps: NodeOrder, reason: Reason) -> Result<(), AllocError>
    ensures { OnOk result (Adds out.old out.new
        (text_member (codes "comes_after_next") (reason_text keeps reason))) }
{
    write_text(out, "comes_after_next", reason_words(keeps, reason))
}

/// Writes an entry of a cycle.
#[tactic(auto, unfolding(crate::specs::OrderJson::step_members))]
fn write_step(out: &mut Writer, keeps: NodeOrder, it: &NumberedStep) -> Result<(), AllocError>
    ensures { OnOk result (Adds out.old out.new (step_members keeps it.now)) }
{
    write_text_line(out, it.line)?;
    write_entry(out, &it.step.entry)?;
    write_reason(out, keeps, it.step.reason)
}

/// Writes the object of an entry of a cycle.
#[tactic(auto, unfolding(crate::specs::OrderJson::step_object, sci_json::specs::Members::object_of))]
fn write_step_object(
    out: &mut Writer,
    keeps: NodeOrder,
    it: &NumberedStep,
) -> Result<(), AllocError>
    ensures { OnOk result (Adds out.old out.new (step_object keeps it.now)) }
{
    out.begin_object()?;
    write_step(out, keeps, it)?;
    out.end_object()
}

/// Writes the objects of the entries of a cycle.
fn write_steps(out: &mut Writer, keeps: NodeOrder, steps: &[NumberedStep]) -> Result<(), AllocError>
    ensures { OnOk result (Adds out.old out.new (flat_map (step_object keeps) steps.now)) }
{
    for step in steps {
        write_step_object(out, keeps, step)?;
    }
    Ok(())
}

/// Writes the array of the entries of a cycle.
#[tactic(auto, unfolding(sci_json::specs::Members::array_member))]
fn write_cycle(out: &mut Writer, keeps: NodeOrder, steps: &[NumberedStep]) -> Result<(), AllocError>
    ensures { OnOk result (Adds out.old out.new
        (array_member (codes "cycle") (flat_map (step_object keeps) steps.now))) }
{
    out.key("cycle")?;
    out.begin_array()?;
    write_steps(out, keeps, steps)?;
    out.end_array()
}

/// What is written of a cycle: one JSON object, and a line feed. Refused if memory is.
#[tactic(auto, unfolding(sci_json::specs::Members::object_line, sci_json::specs::Members::object_of, crate::specs::OrderJson::cycle_members))]
pub(crate) fn cycle_json(
    alloc: Global,
    keeps: NodeOrder,
    steps: &[NumberedStep],
) -> Result<Vec<u8>, AllocError>
    ensures { IfOk result (λ text. text.items ≡ cycle_json_of keeps steps.now) }
{
    let mut writer = Writer::new(Vec::new(alloc));
    writer.begin_object()?;
    write_judged(&mut writer, keeps, false)?;
    write_cycle(&mut writer, keeps, steps)?;
    writer.end_object()?;
    into_line(writer)
}
