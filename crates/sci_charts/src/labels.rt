//! What a chart says beside the column of a node.

use crate::arrows::Origin;
use crate::mark::Mark;
use crate::sights::{Change, push_change};
use sci_command::push_labelled;
use sci_core::Machine;
use sci_packets::{Body, NodeId, Packet};
use sci_text::{push_entry, push_field, push_text};
use std::alloc::{AllocError, Global};

/// Appends the newest entry of a node's log, as it stands in a log.
fn push_performed(out: &mut Vec<u8>, machine: &Machine, node: u8) -> Result<(), AllocError> {
    if node >= machine.extent().nodes {
        return Ok(());
    }
    match machine.node(node).log().last() {
        Some(entry) => push_entry(out, entry),
        None => Ok(()),
    }
}

/// Appends a label and a node that a packet names, or `none`.
fn push_named(out: &mut Vec<u8>, label: &str, node: Option<NodeId>) -> Result<(), AllocError> {
    push_text(out, label)?;
    match node {
        Some(node) => push_field(out, u64::from(node.get())),
        None => push_text(out, " none"),
    }
}

/// Appends the name of a packet, and the node that it names: `mgone 2`, `roll none`, `purged -> 0`.
fn push_packet(out: &mut Vec<u8>, packet: &Packet) -> Result<(), AllocError> {
    push_text(out, packet.body.command().name())?;
    match &packet.body {
        Body::Roll { forward } => push_named(out, "", *forward),
        Body::Setback { backward } => push_named(out, "", Some(*backward)),
        Body::Mgone { old_head } => push_named(out, "", Some(*old_head)),
        Body::Purged { forward } => push_named(out, " ->", *forward),
        Body::Fdata { old_head, .. } => push_named(out, "", *old_head),
        _ => Ok(()),
    }
}

/// Appends how many events an operation waited, if it is known.
fn push_wait(out: &mut Vec<u8>, wait: Option<u64>) -> Result<(), AllocError> {
    match wait {
        Some(events) => push_labelled(out, b", wait", events),
        None => Ok(()),
    }
}

/// Appends the name of a packet that was sent, with its receiver if it is under way at the end of the chart.
fn push_sent(out: &mut Vec<u8>, packet: &Packet, goes_on: bool) -> Result<(), AllocError> {
    push_packet(out, packet)?;
    if !goes_on {
        return Ok(());
    }
    push_labelled(out, b" to", u64::from(packet.target.get()))
}

/// Appends the name of a packet that was taken and came from far, with its sender if it came from above.
fn push_taken(out: &mut Vec<u8>, packet: &Packet, origin: Origin) -> Result<(), AllocError> {
    match origin {
        Origin::Near => Ok(()),
        Origin::Far => push_packet(out, packet),
        Origin::Above => {
            push_packet(out, packet)?;
            push_labelled(out, b" from", u64::from(packet.source.get()))
        }
    }
}

/// What a chart knows of an event beside what it did.
#[derive(Clone, Copy)]
pub struct About {
    /// From where a packet came that it took.
    pub origin: Origin,
    /// Whether a packet that it sent is under way at the end of the chart.
    pub goes_on: bool,
    /// How many events an operation waited that it performed.
    pub wait: Option<u64>,
}

impl About {
    /// Nothing is known.
    pub fn nothing() -> About {
        About {
            origin: Origin::Near,
            goes_on: false,
            wait: None,
        }
    }
}

/// What an event did, and how its line's states changed at its node.
#[derive(Clone, Copy)]
pub struct Effect {
    pub mark: Mark,
    pub about: About,
    pub change: Change,
}

/// The label of an event.
#[derive(Drop)]
pub struct Label {
    /// Whether it says which line it is about.
    names_line: bool,
    /// What is said, without the line.
    said: Vec<u8>,
    text: Vec<u8>,
}

impl Label {
    /// A label that says nothing.
    pub fn new(alloc: Global, names_line: bool) -> Label {
        Label {
            names_line,
            said: Vec::new(alloc),
            text: Vec::new(alloc),
        }
    }

    /// Its words.
    pub fn text(&self) -> &[u8] {
        &self.text
    }

    /// Says what an event did at a node: the entry of what was performed, with how many events it waited; the name of a packet
    /// that was sent, with its receiver if it wasn't taken, or of one that was taken and came from far, with its sender if it
    /// came from above; and how the line's states changed. Refused if memory is.
    pub fn tell(&mut self, machine: &Machine, node: u8, effect: &Effect) -> Result<(), AllocError> {
        self.said.clear();
        match &effect.mark {
            Mark::Performed => {
                push_performed(&mut self.said, machine, node)?;
                push_wait(&mut self.said, effect.about.wait)?;
            }
            Mark::Sent(packet) => push_sent(&mut self.said, packet, effect.about.goes_on)?,
            Mark::Taken(packet) | Mark::Refused(packet) => {
                push_taken(&mut self.said, packet, effect.about.origin)?
            }
            _ => {}
        }
        push_change(&mut self.said, &effect.change)?;
        self.text.clear();
        if self.said.is_empty() {
            return Ok(());
        }
        self.push_line(&effect.mark)?;
        self.text.extend_from_slice(&self.said)
    }

    /// Appends the line that a packet is about, if there is a packet.
    fn push_line(&mut self, mark: &Mark) -> Result<(), AllocError> {
        match mark.packet() {
            Some(packet) if self.names_line => {
                push_labelled(&mut self.text, b"line", packet.line)?;
                push_text(&mut self.text, ": ")
            }
            _ => Ok(()),
        }
    }
}
