//! Which packet an event sends or takes, and which line it is about.

ghost use Rattle.std.specs.Prelude.{◌≡◌, option_map};
ghost use Rattle.sci_cache.specs.Cache.{letter_of};
ghost use Rattle.sci_statistics.specs.About.{front_of, letter_sent, letter_taken, line_about as line_about_of, line_changed as line_changed_of};
ghost use Rattle.sci_statistics.specs.About.{line_in as line_in_of};

use sci_core::{LaneKind, Machine};
use sci_packets::Packet;
use sci_words::Event;

/// The packet that an event sends now, or None if it sends none.
pub fn sent(machine: &Machine, event: &Event) -> Option<Packet>
    ensures { option_map letter_of result ≡ letter_sent machine.now event.now }
{
    let nodes = machine.extent().nodes;
    match *event {
        Event::Ask { node, line, kind } if node < nodes => machine.node(node).asked(line, kind),
        Event::Reply { node } if node < nodes => machine.node(node).waiting().copied(),
        _ => None,
    }
}

/// The oldest packet of a lane, or None if it has none or there are no such nodes.
fn front(machine: &Machine, kind: LaneKind, from: u8, to: u8) -> Option<Packet>
    ensures { option_map letter_of result ≡ front_of machine.now kind from to }
{
    let nodes = machine.extent().nodes;
    if from < nodes && to < nodes {
        machine.front(kind, from, to).copied()
    } else {
        None
    }
}

/// The packet that an event takes now, or None if it takes none.
pub fn taken(machine: &Machine, event: &Event) -> Option<Packet>
    ensures { option_map letter_of result ≡ letter_taken machine.now event.now }
{
    match *event {
        Event::Serve { from, node } | Event::Refuse { from, node } => {
            front(machine, LaneKind::Requests, from, node)
        }
        Event::Accept { from, node } => front(machine, LaneKind::Answers, from, node),
        _ => None,
    }
}

/// The line of a packet.
fn line_in(machine: &Machine, packet: Option<Packet>) -> Option<u8>
    ensures { result ≡ line_in_of machine.now (option_map letter_of packet) }
{
    match packet {
        Some(packet) if packet.line < u64::from(machine.extent().lines) => Some(packet.line as u8),
        _ => None,
    }
}

/// The line that an event may change: the one that a Perform or an Ask names, or that of the packet which is taken. None
/// if there is none.
pub fn line_changed(machine: &Machine, event: &Event) -> Option<u8>
    ensures { result ≡ line_changed_of machine.now event.now }
{
    match *event {
        Event::Perform { line, .. } | Event::Ask { line, .. } => Some(line),
        Event::Serve { .. } | Event::Refuse { .. } | Event::Accept { .. } => {
            line_in(machine, taken(machine, event))
        }
        _ => None,
    }
}

/// The line that an event is about: the one that it names, or else that of the packet which it takes or sends. None if
/// there is none.
pub fn line_about(machine: &Machine, event: &Event) -> Option<u8>
    ensures { result ≡ line_about_of machine.now event.now }
{
    match *event {
        Event::Issue { op, .. } => Some(op.line),
        Event::Reply { .. } => line_in(machine, sent(machine, event)),
        _ => line_changed(machine, event),
    }
}
