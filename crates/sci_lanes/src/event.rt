//! A node's side of an event, made at the node.

ghost use Rattle.std.specs.Prelude.{◌≡◌, Some, IsSome};
ghost use Rattle.sci_cache.specs.Cache.{letter_of};
ghost use Rattle.sci_core.specs.Core.{side};
ghost use Rattle.sci_lanes.specs.Ends.{node_after, taken_by, MayBeGiven, SendsPacket};

use sci_core::Node;
use sci_packets::Packet;
use sci_words::Event;

/// Makes the node's side of an event that sends a packet. Requires that it sends one.
#[inline(always)]
pub(crate) fn make_sending(node: &mut Node, event: &Event)
    requires { SendsPacket (side node.old event.now) }
    ensures { node.new ≡ node_after node.old (side node.old event.now) }
{
    match *event {
        Event::Ask { line, kind, .. } => node.apply_ask(line, kind),
        Event::Reply { .. } => {
            node.take_answer();
        }
        _ => unreachable!(),
    }
}

/// Makes the node's side of an event that takes this packet. Requires that the node takes it by this event.
#[inline(always)]
pub(crate) fn make_taking(node: &mut Node, event: &Event, packet: &Packet)
    requires takable { MayBeGiven event.now node.old (letter_of packet.now) }
    requires takes { IsSome (taken_by (side node.old event.now) (letter_of packet.now)) }
    ensures { taken_by (side node.old event.now) (letter_of packet.now) ≡ Some node.new }
{
    match event {
        Event::Serve { .. } => {
            node.serve(packet);
        }
        Event::Refuse { .. } => {
            node.refuse(packet);
        }
        Event::Accept { .. } => {
            node.accept(packet);
        }
        Event::Issue { .. } | Event::Perform { .. } | Event::Ask { .. } | Event::Reply { .. } => {}
    }
}
