//! Where the answer that a line awaits is looked for first: its state says to which node the request went.

ghost use Rattle.std.specs.{Prelude.{◌≡◌, ◌&&◌, map}, List.{list_any}};
ghost use Rattle.sci_packets.specs.Table.{is_request};
ghost use Rattle.sci_cache.specs.Cache.{letter_of};
ghost use Rattle.sci_core.specs.Sharing.{asks_about};

use crate::lane::{Lane, LaneKind};
use crate::state::State;
use sci_packets::{Body, Packet};

/// Whether a packet is the request of an ask of node `n` about a line.
fn asks(packet: &Packet, n: u8, line: u8) -> bool
    ensures { result ≡ asks_about n line (letter_of packet.now) }
{
    packet.is_request() && packet.line == u64::from(line) && packet.source.get() == u16::from(n)
}

/// Whether one of the packets is.
fn any_asks(packets: &[Packet], n: u8, line: u8) -> bool
    ensures { result ≡ list_any (asks_about n line) (map letter_of packets.now) }
{
    for packet in packets {
        if asks(packet, n, line) {
            return true;
        }
    }
    false
}

impl Lane {
    ghost use Rattle.std.specs.{Prelude.{◌≡◌}, List.{list_any}};
    ghost use Rattle.sci_core.specs.Sharing.{asks_about};

    /// Whether the request of an ask of node `n` about a line is in this lane.
    pub(crate) fn has_request(&self, n: u8, line: u8) -> bool
        ensures { result ≡ list_any (asks_about n line) self.now }
    {
        let (older, newer) = self.slices();
        any_asks(older, n, line) || any_asks(newer, n, line)
    }
}

impl State {
    ghost use Rattle.std.specs.Prelude.{◌≡◌, ◌<◌, IfSome};
    ghost use Rattle.sci_core.specs.{Sharing.{answer_to as answer_to_of}, Tidy.{IsTidy}, WellFormed.{IsWellFormed}};

    /// The answer that is under way to node `n` about a line, or that there is none, as the line's state and the node
    /// that it asked tell: no answer comes if none is awaited, or if the request is still in its lane. None if they don't
    /// tell.
    pub(crate) fn answer_where_asked(&self, n: u8, line: u8) -> Option<Option<Body>>
        requires well { IsWellFormed self.now }
        requires tidy { IsTidy self.now }
        requires n { n < self.now.size.nodes }
        requires line { line < self.now.size.lines }
        ensures { IfSome result (λ answer. answer ≡ answer_to_of self.now n line) }
    {
        let held = self.node(n).held(line);
        if !held.waits() {
            return Some(None);
        }
        let home = u16::from(line % self.nodes());
        let asked = held.asked_node(home)?;
        if asked >= u16::from(self.nodes()) {
            return None;
        }
        let from = asked as u8;
        if let Some(body) = self.answer_from(from, n, line) {
            return Some(Some(body));
        }
        if self.lane(LaneKind::Requests, n, from).has_request(n, line) {
            return Some(None);
        }
        None
    }
}
