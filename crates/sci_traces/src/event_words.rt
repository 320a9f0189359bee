//! What an event does to a machine, in words.

ghost use Rattle.std.specs.Prelude.{◌≡◌, ◌++◌, IfOk, OnOk, is_some, option_map};
ghost use Rattle.sci_cache.specs.Cache.{letter_of};
ghost use Rattle.sci_core.specs.Core.{step, stepping};
ghost use Rattle.sci_traces.specs.Logged.{entry_logged, last_entry as last_entry_of};
ghost use Rattle.sci_traces.specs.TraceAnswer.{arrow_text, cache_label, cache_on, cache_text, change_text, changes_text, entry_text, event_text};
ghost use Rattle.sci_traces.specs.TraceAnswer.{home_label, home_on, home_words as home_words_of, moved_text, outcome_of, reason_line, reason_text};

use crate::obstacle_words::{line_named, push_obstacle};
use crate::state_words::{push_home, push_state};
use sci_command::{push_labelled, push_packet};
use sci_core::{ApplyFault, Machine, Obstacle, node_of};
use sci_history::Entry;
use sci_packets::Packet;
use sci_statistics::{held_at, home_at, line_changed, sent, taken};
use sci_text::{push_entry, push_event_line, push_number, push_text};
use sci_words::Event;
use std::alloc::{AllocError, Global};

/// The words for the state of a line in a node's cache: none if there is no such node or line.
#[tactic(auto, unfolding(crate::specs::TraceAnswer::cache_text))]
fn cache_words(alloc: Global, machine: &Machine, n: u8, line: u8) -> Result<Vec<u8>, AllocError>
    ensures { IfOk result (λ text. text.items ≡ cache_text machine.now n line) }
{
    let mut text = Vec::new(alloc);
    if let Some(held) = held_at(machine, n, line) {
        push_state(&mut text, held)?;
    }
    Ok(text)
}

/// The words for the state of a line's home: none if it isn't at this node.
#[tactic(auto, unfolding(crate::specs::TraceAnswer::home_words))]
fn home_words(alloc: Global, machine: &Machine, n: u8, line: u8) -> Result<Vec<u8>, AllocError>
    ensures { IfOk result (λ text. text.items ≡ home_words_of machine.now n line) }
{
    let mut text = Vec::new(alloc);
    if let Some(home) = home_at(machine, n, line) {
        push_home(&mut text, home)?;
    }
    Ok(text)
}

/// Appends what was done with a packet, if there is one, and its line.
#[tactic(auto, unfolding(crate::specs::TraceAnswer::moved_text, crate::specs::TraceAnswer::letter_line, sci_command::specs::PacketLine::packet_line))]
fn push_moved(out: &mut Vec<u8>, done: &str, packet: Option<Packet>) -> Result<(), AllocError>
    ensures { OnOk result
        (out.new.items ≡ out.old.items ++ moved_text done.now (option_map letter_of packet)) }
{
    match packet {
        None => Ok(()),
        Some(packet) => {
            push_text(out, done)?;
            push_packet(out, &packet)
        }
    }
}

/// Appends what was and what is.
#[tactic(auto, unfolding(crate::specs::TraceAnswer::arrow_text))]
fn push_arrow(out: &mut Vec<u8>, old: &[u8], new: &[u8]) -> Result<(), AllocError>
    ensures { OnOk result (out.new.items ≡ out.old.items ++ arrow_text old.now new.now) }
{
    out.extend_from_slice(old)?;
    push_text(out, " -> ")?;
    out.extend_from_slice(new)?;
    push_text(out, "\n")
}

/// Appends what stands before a change in a node's cache.
#[tactic(auto, unfolding(crate::specs::TraceAnswer::cache_label))]
fn push_cache_label(out: &mut Vec<u8>, n: u8, line: u8) -> Result<(), AllocError>
    ensures { OnOk result (out.new.items ≡ out.old.items ++ cache_label n line) }
{
    push_labelled(out, b"  cache of", u64::from(n))?;
    push_labelled(out, b", line", u64::from(line))?;
    push_text(out, ": ")?;
    Ok(())
}

/// Appends what stands before a change at a home.
#[tactic(auto, unfolding(crate::specs::TraceAnswer::home_label))]
fn push_home_label(out: &mut Vec<u8>, line: u8) -> Result<(), AllocError>
    ensures { OnOk result (out.new.items ≡ out.old.items ++ home_label line) }
{
    push_labelled(out, b"  home of line", u64::from(line))?;
    push_text(out, ": ")?;
    Ok(())
}

/// Appends how the state of a line in a node's cache changed, if it did.
#[tactic(auto, unfolding(crate::specs::TraceAnswer::change_text))]
fn push_cache_change(
    out: &mut Vec<u8>,
    n: u8,
    line: u8,
    old: &[u8],
    new: &[u8],
) -> Result<(), AllocError>
    ensures { OnOk result
        (out.new.items ≡ out.old.items ++ change_text (cache_label n line) old.now new.now) }
{
    if old == new {
        return Ok(());
    }
    push_cache_label(out, n, line)?;
    push_arrow(out, old, new)?;
    Ok(())
}

/// Appends how the state of a line's home changed, if it did.
#[tactic(auto, unfolding(crate::specs::TraceAnswer::change_text))]
fn push_home_change(out: &mut Vec<u8>, line: u8, old: &[u8], new: &[u8]) -> Result<(), AllocError>
    ensures { OnOk result
        (out.new.items ≡ out.old.items ++ change_text (home_label line) old.now new.now) }
{
    if old == new {
        return Ok(());
    }
    push_home_label(out, line)?;
    push_arrow(out, old, new)?;
    Ok(())
}

/// The last entry of a node's log, if there is such a node and it has one.
fn last_entry(machine: &Machine, n: u8) -> Option<Entry>
    ensures { result ≡ last_entry_of machine.now n }
{
    if n < machine.extent().nodes {
        machine.node(n).log().last().copied()
    } else {
        None
    }
}

/// The entry that a Perform has put at the end of its node's log.
pub fn entry_of(machine: &Machine, event: &Event) -> Option<Entry>
    ensures { result ≡ entry_logged machine.now event.now }
{
    match *event {
        Event::Perform { node, .. } => last_entry(machine, node),
        _ => None,
    }
}

/// Appends the entry of an operation that was performed, if there is one.
#[tactic(auto, unfolding(crate::specs::TraceAnswer::entry_text))]
fn push_logged(out: &mut Vec<u8>, entry: Option<Entry>) -> Result<(), AllocError>
    ensures { OnOk result (out.new.items ≡ out.old.items ++ entry_text entry) }
{
    match entry {
        None => Ok(()),
        Some(entry) => {
            push_text(out, "  logged ")?;
            push_entry(out, &entry)?;
            push_text(out, "\n")
        }
    }
}

/// The words for a line's states at a node.
#[derive(Drop)]
pub struct LineWords {
    cache: Vec<u8>,
    home: Vec<u8>,
}

/// The words for a line's states at a node now, if there is a line.
pub fn standing(
    alloc: Global,
    machine: &Machine,
    n: u8,
    line: Option<u8>,
) -> Result<LineWords, AllocError>
    ensures cache { IfOk result (λ words. words.cache.items ≡ cache_on machine.now n line) }
    ensures home { IfOk result (λ words. words.home.items ≡ home_on machine.now n line) }
{
    match line {
        None => Ok(LineWords {
            cache: Vec::new(alloc),
            home: Vec::new(alloc),
        }),
        Some(line) => Ok(LineWords {
            cache: cache_words(alloc, machine, n, line)?,
            home: home_words(alloc, machine, n, line)?,
        }),
    }
}

/// Appends how a line's states at a node changed from what they were.
#[tactic(auto, unfolding(crate::specs::TraceAnswer::changes_text))]
pub fn push_changes(
    alloc: Global,
    out: &mut Vec<u8>,
    machine: &Machine,
    n: u8,
    line: Option<u8>,
    old: &LineWords,
) -> Result<(), AllocError>
    ensures { OnOk result (out.new.items ≡ out.old.items
        ++ changes_text old.now.cache.items old.now.home.items machine.now n line) }
{
    let new = standing(alloc, machine, n, line)?;
    match line {
        None => Ok(()),
        Some(line) => {
            push_cache_change(out, n, line, &old.cache, &new.cache)?;
            push_home_change(out, line, &old.home, &new.home)
        }
    }
}

/// Appends the line that says what stands in the way of an event.
#[tactic(auto, unfolding(crate::specs::TraceAnswer::reason_line))]
fn push_reason_line(
    out: &mut Vec<u8>,
    obstacle: Obstacle,
    event: &Event,
    state: &[u8],
) -> Result<(), AllocError>
    ensures { OnOk result
        (out.new.items ≡ out.old.items ++ reason_line obstacle event.now state.now) }
{
    push_text(out, "  not enabled: ")?;
    push_obstacle(out, obstacle, event, state)?;
    push_text(out, "\n")?;
    Ok(())
}

/// Appends what stands in the way of an event.
#[tactic(auto, unfolding(crate::specs::TraceAnswer::reason_text))]
fn push_reason(
    alloc: Global,
    out: &mut Vec<u8>,
    machine: &Machine,
    event: &Event,
    obstacle: Option<Obstacle>,
) -> Result<(), AllocError>
    ensures { OnOk result
        (out.new.items ≡ out.old.items ++ reason_text machine.now event.now obstacle) }
{
    match obstacle {
        None => Ok(()),
        Some(obstacle) => {
            let state = cache_words(alloc, machine, node_of(event), line_named(event))?;
            push_reason_line(out, obstacle, event, &state)
        }
    }
}

/// Takes a step, appends what comes of it, and answers whether the event was enabled.
fn push_outcome(
    alloc: Global,
    out: &mut Vec<u8>,
    machine: &mut Machine,
    event: &Event,
) -> Result<bool, AllocError>
    ensures text { OnOk result (out.new.items ≡ out.old.items
        ++ outcome_of machine.old event.now (stepping machine.old event.now)) }
    ensures enabled { IfOk result
        (λ enabled. enabled ≡ is_some (stepping machine.old event.now)) }
    ensures step { OnOk result (machine.new ≡ step machine.old event.now) }
{
    let node = node_of(event);
    let sent = sent(machine, event);
    let taken = taken(machine, event);
    let line = line_changed(machine, event);
    let old = standing(alloc, machine, node, line)?;
    match machine.apply(event) {
        Ok(()) => {}
        Err(ApplyFault::NotEnabled) => {
            push_reason(alloc, out, machine, event, machine.obstacle_to(event))?;
            return Ok(false);
        }
        Err(ApplyFault::Memory(refused)) => return Err(refused),
    }
    push_moved(out, "  sent ", sent)?;
    push_moved(out, "  took ", taken)?;
    push_changes(alloc, out, machine, node, line, &old)?;
    push_logged(out, entry_of(machine, event))?;
    Ok(true)
}

/// Takes a step, appends the number of the event's line, the event and what comes of it, and answers whether it was
/// enabled. Refused if memory is.
#[tactic(auto, unfolding(crate::specs::TraceAnswer::event_text))]
pub fn push_event(
    alloc: Global,
    out: &mut Vec<u8>,
    machine: &mut Machine,
    number: u64,
    event: &Event,
) -> Result<bool, AllocError>
    ensures text { OnOk result
        (out.new.items ≡ out.old.items ++ event_text machine.old number event.now) }
    ensures enabled { IfOk result
        (λ enabled. enabled ≡ is_some (stepping machine.old event.now)) }
    ensures step { OnOk result (machine.new ≡ step machine.old event.now) }
{
    push_number(out, number)?;
    push_text(out, ": ")?;
    push_event_line(out, *event)?;
    push_outcome(alloc, out, machine, event)
}
