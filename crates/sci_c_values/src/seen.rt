//! What a step did.

ghost use Rattle.std.specs.Prelude.{◌≡◌, Some, None};
ghost use Rattle.sci_cache.specs.Cache.{letter_of};
ghost use Rattle.sci_c_values.specs.Seen.{SaysSeen, entry_none, packet_none};

use crate::entry::{SciEntry, entry_out};
use crate::operation::SciOp;
use crate::packet::{SciPacket, packet_out};
use sci_history::Entry;
use sci_packets::Packet;

/// What a step did. `has_packet` is 1 if it sent or took `packet`, and `has_entry` is 1 if `entry` ended a log.
#[repr(C)]
#[derive(Clone, Copy)]
pub struct SciSeen {
    pub has_packet: u32,
    pub has_entry: u32,
    pub packet: SciPacket,
    pub entry: SciEntry,
}

/// No packet: all is 0.
fn no_packet() -> SciPacket
    ensures { result ≡ packet_none }
{
    SciPacket {
        target: 0,
        command: 0,
        source: 0,
        control: 0,
        line: 0,
        identifier: 0,
        has_contents: 0,
        reserved: 0,
        version: 0,
        words: [0; 8],
    }
}

/// No entry: all is 0.
fn no_entry() -> SciEntry
    ensures { result ≡ entry_none }
{
    SciEntry {
        node: 0,
        has_word: 0,
        reserved: 0,
        serial: 0,
        op: SciOp {
            act: 0,
            line: 0,
            word: 0,
            reserved: 0,
            arg: 0,
            datum: 0,
        },
        word: 0,
        version: 0,
    }
}

/// The struct of a step that sent or took this packet.
pub fn seen_packet(packet: &Packet) -> SciSeen
    ensures { SaysSeen result (Some (letter_of packet.now)) None }
{
    SciSeen {
        has_packet: 1,
        has_entry: 0,
        packet: packet_out(packet),
        entry: no_entry(),
    }
}

/// The struct of a step that logged this entry.
pub fn seen_entry(entry: &Entry) -> SciSeen
    ensures { SaysSeen result None (Some entry.now) }
{
    SciSeen {
        has_packet: 0,
        has_entry: 1,
        packet: no_packet(),
        entry: entry_out(entry),
    }
}

/// The struct of a step that did neither.
pub fn seen_nothing() -> SciSeen
    ensures { SaysSeen result None None }
{
    SciSeen {
        has_packet: 0,
        has_entry: 0,
        packet: no_packet(),
        entry: no_entry(),
    }
}
