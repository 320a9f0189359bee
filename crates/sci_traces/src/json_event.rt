//! What an event does, as a JSON object.

ghost use Rattle.std.specs.Prelude.{◌≡◌, ◌++◌, IfOk, OnOk, is_some, option_map};
ghost use Rattle.sci_cache.specs.Cache.{letter_of};
ghost use Rattle.sci_core.specs.Core.{step, stepping};
ghost use Rattle.{sci_json.specs.Members.{Adds}, sci_traces.specs.declared.json_event.When.{When}};
ghost use Rattle.sci_traces.specs.JsonEvent.{cache_member, cache_name, home_member, home_name, json_line, line_member, logged_member, moved_members};
ghost use Rattle.sci_traces.specs.JsonEvent.{outcome_members, packet_member, part_members, standing_members};
ghost use Rattle.sci_traces.specs.JsonEvent.{naming_members, taking_members};

use crate::event_words::entry_of;
use json::Writer;
use sci_core::{Machine, node_of};
use sci_history::Entry;
use sci_json::{
    into_line, write_entry, write_home, write_number, write_operation, write_packet, write_state,
    write_text, write_truth,
};
use sci_packets::Packet;
use sci_statistics::{held_at, home_at, line_changed, sent, taken};
use sci_words::{Event, EventKind};
use std::alloc::{AllocError, Global};

/// Writes the sender and the node of an event that takes a packet.
#[tactic(auto, unfolding(crate::specs::JsonEvent::taking_members))]
fn write_taking(out: &mut Writer, from: u8, n: u8) -> Result<(), AllocError>
    ensures { OnOk result (Adds out.old out.new (taking_members from n)) }
{
    write_number(out, "from", u64::from(from))?;
    write_number(out, "node", u64::from(n))
}

/// Writes the node and the line of an event that names both.
#[tactic(auto, unfolding(crate::specs::JsonEvent::naming_members))]
fn write_naming(out: &mut Writer, n: u8, line: u8) -> Result<(), AllocError>
    ensures { OnOk result (Adds out.old out.new (naming_members n line)) }
{
    write_number(out, "node", u64::from(n))?;
    write_number(out, "line", u64::from(line))
}

/// Writes what an event has beside its word.
#[tactic(auto, unfolding(crate::specs::JsonEvent::part_members))]
fn write_parts(out: &mut Writer, event: &Event) -> Result<(), AllocError>
    ensures { OnOk result (Adds out.old out.new (part_members event.now)) }
{
    match *event {
        Event::Issue { node, op } => {
            write_number(out, "node", u64::from(node))?;
            write_operation(out, op)
        }
        Event::Perform { node, line } => write_naming(out, node, line),
        Event::Ask { node, line, kind } => {
            write_naming(out, node, line)?;
            write_text(out, "request", kind.word())
        }
        Event::Serve { from, node } | Event::Refuse { from, node } | Event::Accept { from, node } =>
            write_taking(out, from, node),
        Event::Reply { node } => write_number(out, "node", u64::from(node)),
    }
}

/// Writes a packet, if there is one.
#[tactic(auto, unfolding(crate::specs::JsonEvent::packet_member, sci_json::specs::Members::object_member))]
fn write_moved(out: &mut Writer, name: &str, packet: Option<Packet>) -> Result<(), AllocError>
    ensures { OnOk result
        (Adds out.old out.new (packet_member name.now (option_map letter_of packet))) }
{
    let Some(packet) = packet else {
        return Ok(());
    };
    out.key(name)?;
    out.begin_object()?;
    write_packet(out, &packet)?;
    out.end_object()
}

/// Whether a state is that before an event or after it.
#[derive(Clone, Copy)]
enum When {
    Before,
    After,
}

/// The name of a cache's state.
#[tactic(auto, unfolding(crate::specs::JsonEvent::cache_name))]
fn cache_name(when: When) -> &'static str
    ensures { result.now ≡ cache_name when }
{
    match when {
        When::Before => "cache_before",
        When::After => "cache_after",
    }
}

/// The name of a home's state.
#[tactic(auto, unfolding(crate::specs::JsonEvent::home_name))]
fn home_name(when: When) -> &'static str
    ensures { result.now ≡ home_name when }
{
    match when {
        When::Before => "home_before",
        When::After => "home_after",
    }
}

/// A node of a machine, or none if it has no such node.
#[derive(Clone, Copy)]
struct At<'a> {
    machine: &'a Machine,
    node: u8,
}

/// Writes the state of a line in a node's cache, if there are both.
#[tactic(auto, unfolding(crate::specs::JsonEvent::cache_member, sci_json::specs::Members::object_member))]
fn write_cache(out: &mut Writer, when: When, at: At<'_>, line: u8) -> Result<(), AllocError>
    ensures { OnOk result
        (Adds out.old out.new (cache_member (cache_name when) at.entry.machine.now at.entry.node line)) }
{
    let Some(held) = held_at(at.machine, at.node, line) else {
        return Ok(());
    };
    out.key(cache_name(when))?;
    out.begin_object()?;
    write_state(out, held)?;
    out.end_object()
}

/// Writes the state of a line's home, if it is at this node.
#[tactic(auto, unfolding(crate::specs::JsonEvent::home_member, sci_json::specs::Members::object_member))]
fn write_home_at(out: &mut Writer, when: When, at: At<'_>, line: u8) -> Result<(), AllocError>
    ensures { OnOk result
        (Adds out.old out.new (home_member (home_name when) at.entry.machine.now at.entry.node line)) }
{
    let Some(home) = home_at(at.machine, at.node, line) else {
        return Ok(());
    };
    out.key(home_name(when))?;
    out.begin_object()?;
    write_home(out, home)?;
    out.end_object()
}

/// Writes the states of a line at a node, if there is a line.
#[tactic(auto, unfolding(crate::specs::JsonEvent::standing_members))]
fn write_standing(
    out: &mut Writer,
    when: When,
    at: At<'_>,
    line: Option<u8>,
) -> Result<(), AllocError>
    ensures { OnOk result
        (Adds out.old out.new (standing_members when at.entry.machine.now at.entry.node line)) }
{
    let Some(line) = line else {
        return Ok(());
    };
    write_cache(out, when, at, line)?;
    write_home_at(out, when, at, line)
}

/// Writes the number of a line, if there is one and no word of the event names it.
#[tactic(auto, unfolding(crate::specs::JsonEvent::line_member, sci_json::specs::Members::optional_member))]
fn write_line(out: &mut Writer, event: &Event, line: Option<u8>) -> Result<(), AllocError>
    ensures { OnOk result (Adds out.old out.new (line_member event.now line)) }
{
    let Some(line) = line else {
        return Ok(());
    };
    match event {
        Event::Issue { .. } | Event::Perform { .. } | Event::Ask { .. } => Ok(()),
        Event::Serve { .. } | Event::Refuse { .. } | Event::Reply { .. } | Event::Accept { .. } =>
            write_number(out, "line", u64::from(line)),
    }
}

/// Writes the entry of an operation that was performed, if there is one.
#[tactic(auto, unfolding(crate::specs::JsonEvent::logged_member, sci_json::specs::Members::object_member))]
fn write_logged(out: &mut Writer, entry: Option<Entry>) -> Result<(), AllocError>
    ensures { OnOk result (Adds out.old out.new (logged_member entry)) }
{
    let Some(entry) = entry else {
        return Ok(());
    };
    out.key("entry")?;
    out.begin_object()?;
    write_entry(out, &entry)?;
    out.end_object()
}

/// Writes the packets that an event sends and takes.
#[tactic(auto, unfolding(crate::specs::JsonEvent::moved_members))]
fn write_packets(out: &mut Writer, machine: &Machine, event: &Event) -> Result<(), AllocError>
    ensures { OnOk result (Adds out.old out.new (moved_members machine.now event.now)) }
{
    write_moved(out, "sent", sent(machine, event))?;
    write_moved(out, "taken", taken(machine, event))
}

/// Takes a step, writes what comes of it, and answers whether the event was enabled.
fn write_outcome(out: &mut Writer, machine: &mut Machine, event: &Event) -> Result<bool, AllocError>
    ensures members { OnOk result (Adds out.old out.new
        (outcome_members machine.old event.now (stepping machine.old event.now))) }
    ensures enabled { IfOk result
        (λ enabled. enabled ≡ is_some (stepping machine.old event.now)) }
    ensures step { OnOk result (machine.new ≡ step machine.old event.now) }
{
    let (node, line) = (node_of(event), line_changed(machine, event));
    let obstacle = machine.obstacle_to(event);
    write_truth(out, "enabled", obstacle.is_none())?;
    if let Some(obstacle) = obstacle {
        write_text(out, "obstacle", obstacle.name())?;
        write_line(out, event, line)?;
        write_standing(out, When::Before, At { machine, node }, line)?;
        return Ok(false);
    }
    write_packets(out, machine, event)?;
    write_standing(out, When::Before, At { machine, node }, line)?;
    machine.make(event)?;
    write_standing(out, When::After, At { machine, node }, line)?;
    write_logged(out, entry_of(machine, event))?;
    Ok(true)
}

/// Takes a step, and appends a JSON object and a line feed: the number of the event's line, the event and what comes of
/// it. Answers whether it was enabled. Refused if memory is.
#[tactic(auto, unfolding(crate::specs::JsonEvent::json_line, crate::specs::JsonEvent::event_members, sci_json::specs::Members::object_line, sci_json::specs::Members::object_of))]
pub fn push_json(
    out: &mut Vec<u8>,
    machine: &mut Machine,
    number: u64,
    event: &Event,
) -> Result<bool, AllocError>
    ensures text { OnOk result
        (out.new.items ≡ out.old.items ++ json_line machine.old number event.now) }
    ensures enabled { IfOk result
        (λ enabled. enabled ≡ is_some (stepping machine.old event.now)) }
    ensures step { OnOk result (machine.new ≡ step machine.old event.now) }
{
    let mut writer = Writer::new(Vec::new(*out.allocator()));
    writer.begin_object()?;
    write_number(&mut writer, "number", number)?;
    write_text(&mut writer, "event", EventKind::of(event).word())?;
    write_parts(&mut writer, event)?;
    let enabled = write_outcome(&mut writer, machine, event)?;
    writer.end_object()?;
    out.extend_from_slice(&into_line(writer)?)?;
    Ok(enabled)
}
