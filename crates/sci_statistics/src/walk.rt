//! The walk along the events of a schedule.

ghost use Rattle.std.specs.Prelude.{◌≡◌, ◌≤◌, IfOk, OnOk, IfSome, is_some, option_map, length};
ghost use Rattle.sci_words.specs.declared.{event.Event.TheVariants.{Perform}, limits.TheConstants.{MAX_EVENTS}};
ghost use Rattle.sci_cache.specs.Cache.{letter_of};
ghost use Rattle.sci_core.specs.{Core.{step, stepping}, Done.{made_by}};
ghost use Rattle.sci_statistics.specs.Passages.{access_in as access_in_of, command_in as command_in_of, passage_of, passages_from, waiting_at};

use crate::about::{line_about, sent, taken};
use crate::kind::Access;
use crate::passage::Passage;
use sci_core::{ApplyFault, Machine, node_of};
use sci_history::Entry;
use sci_packets::{Command, Packet};
use sci_words::{Event, EventKind, Extent, MAX_OPERATIONS};
use std::alloc::{AllocError, Global};

/// Whether an event happened, and the entry that it made.
#[derive(Clone, Copy)]
struct Happening {
    enabled: bool,
    entry: Option<Entry>,
}

/// The command of a packet, if there is one.
fn command_in(packet: Option<Packet>) -> Option<Command>
    ensures { result ≡ command_in_of (option_map letter_of packet) }
{
    match packet {
        Some(packet) => Some(packet.body.command()),
        None => None,
    }
}

/// What an operation does that was performed, if one was.
fn access_in(entry: Option<Entry>) -> Option<Access>
    ensures { result ≡ access_in_of entry }
{
    match entry {
        Some(entry) => Some(Access::of(&entry.op)),
        None => None,
    }
}

/// The answer that waits at a node, or None if none does or there is no such node.
fn waiting(machine: &Machine, node: u8) -> Option<Packet>
    ensures { option_map letter_of result ≡ waiting_at machine.now node }
{
    if node < machine.extent().nodes {
        machine.node(node).waiting().copied()
    } else {
        None
    }
}

/// Applies a Perform, and gives its entry, or None if it isn't enabled.
fn performed(machine: &mut Machine, node: u8, line: u8) -> Option<Entry>
    ensures entry { result ≡ made_by machine.old (Perform node line) }
    ensures enabled { is_some result ≡ is_some (stepping machine.old (Perform node line)) }
    ensures step { machine.new ≡ step machine.old (Perform node line) }
{
    if node < machine.extent().nodes {
        machine.perform(node, line)
    } else {
        None
    }
}

/// Applies an event, and gives whether it was enabled. Refused if memory is.
pub fn applied(machine: &mut Machine, event: &Event) -> Result<bool, AllocError>
    ensures step { OnOk result (machine.new ≡ step machine.old event.now) }
    ensures enabled { IfOk result
        (λ enabled. enabled ≡ is_some (stepping machine.old event.now)) }
{
    match machine.apply(event) {
        Ok(()) => Ok(true),
        Err(ApplyFault::NotEnabled) => Ok(false),
        Err(ApplyFault::Memory(refused)) => Err(refused),
    }
}

/// Applies an event, and gives what happened. Refused if memory is.
fn happened(machine: &mut Machine, event: &Event) -> Result<Happening, AllocError>
    ensures entry { IfOk result (λ it. it.entry ≡ made_by machine.old event.now) }
    ensures enabled { IfOk result (λ it. it.enabled ≡ is_some (stepping machine.old event.now)) }
    ensures step { OnOk result (machine.new ≡ step machine.old event.now) }
{
    if let Event::Perform { node, line } = *event {
        let entry = performed(machine, node, line);
        return Ok(Happening {
            enabled: entry.is_some(),
            entry,
        });
    }
    Ok(Happening {
        enabled: applied(machine, event)?,
        entry: None,
    })
}

/// Applies an event, and gives what came of it. Refused if memory is.
fn come_of(machine: &mut Machine, event: &Event) -> Result<Passage, AllocError>
    ensures passage { IfOk result (λ it. it ≡ passage_of machine.old event.now) }
    ensures step { OnOk result (machine.new ≡ step machine.old event.now) }
{
    let line = line_about(machine, event);
    let sent = sent(machine, event);
    let front = taken(machine, event);
    let happening = happened(machine, event)?;
    let taken = if happening.enabled { front } else { None };
    let node = node_of(event);
    Ok(Passage {
        event: EventKind::of(event),
        enabled: happening.enabled,
        node,
        line,
        made: access_in(happening.entry),
        sent: command_in(sent),
        taken: command_in(taken),
        answer: command_in(waiting(machine, node)),
    })
}

/// What came of each event of a schedule of a machine of this size, whose nodes may each issue 65,536 operations: the
/// events are applied one after another, and those that aren't enabled change nothing. Refused if memory is.
pub fn passages_of(
    alloc: Global,
    extent: Extent,
    events: &[Event],
) -> Result<Vec<Passage>, AllocError>
    ensures passages { IfOk result (λ found. found.items ≡ passages_from extent events.now) }
    ensures length { IfOk result (λ found. length found.items ≡ length events.now) }
{
    let mut machine = Machine::new(alloc, extent, MAX_OPERATIONS)?;
    let mut found = Vec::new(alloc);
    for event in events {
        found.push(come_of(&mut machine, event)?)?;
    }
    Ok(found)
}
