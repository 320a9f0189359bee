//! What a network does between two events of a walk: it may keep the order of each lane, or not, or lose packets.

use crate::walked::{Happening, Walked};
use sci_core::LaneKind;
use sci_packets::Packet;
use sci_random::Random;
use sci_words::Event;
use std::test::*;

/// A network.
#[derive(Clone, Copy, Debug, PartialEq, Eq)]
pub enum Network {
    /// The packets of a lane come in the order in which they were made.
    Ordered,
    /// Any packet of a lane comes next.
    Unordered,
    /// The same, and some packets don't come while others do.
    Losing,
}

/// Whether a packet is lost: about line 0, the request of the fourth ask of an even node, and the answer to that of an odd
/// one.
fn is_lost(packet: &Packet, kind: LaneKind) -> bool {
    let asker_is_odd = match kind {
        LaneKind::Requests => packet.source.get() % 2 == 1,
        LaneKind::Answers => packet.target.get() % 2 == 1,
    };
    packet.line == 0 && packet.control == 3 && asker_is_odd == (kind == LaneKind::Answers)
}

/// The lane whose front an event takes.
fn lane_of(event: &Event) -> Option<(LaneKind, u8, u8)> {
    match *event {
        Event::Serve { from, node } | Event::Refuse { from, node } => {
            Some((LaneKind::Requests, from, node))
        }
        Event::Accept { from, node } => Some((LaneKind::Answers, from, node)),
        _ => None,
    }
}

impl Network {
    /// Whether the next packet of a lane is lost.
    fn loses_front(self, walked: &Walked, kind: LaneKind, from: u8, to: u8) -> bool {
        let Some(lane) = walked.lane(kind, from, to) else {
            return false;
        };
        match lane.front() {
            Some(next) => self == Network::Losing && is_lost(next, kind),
            None => false,
        }
    }

    /// Whether an event would take a packet that is lost.
    pub fn loses(self, walked: &Walked, event: &Event) -> bool {
        match lane_of(event) {
            Some((kind, from, to)) => self.loses_front(walked, kind, from, to),
            None => false,
        }
    }

    /// Brings a packet of a lane before the others, and lets others pass a packet that is lost.
    pub fn carry(self, random: &mut Random, walked: &mut Walked) -> Result<(), Fail> {
        if self == Network::Ordered {
            return Ok(());
        }
        for from in 0..walked.extent.nodes {
            for to in 0..walked.extent.nodes {
                for kind in [LaneKind::Requests, LaneKind::Answers] {
                    self.carry_lane(random, walked, (kind, from, to))?;
                }
            }
        }
        Ok(())
    }

    fn carry_lane(
        self,
        random: &mut Random,
        walked: &mut Walked,
        lane: (LaneKind, u8, u8),
    ) -> Result<(), Fail> {
        let (kind, from, to) = lane;
        let count = u8::try_from(walked.machine.count(kind, from, to))?;
        if count < 2 {
            return Ok(());
        }
        if random.once_in(2) {
            walked.counts.count(Happening::Overtook);
            walked.bring_forward(kind, from, to, random.below(count))?;
        }
        if self.loses_front(walked, kind, from, to) {
            walked.counts.count(Happening::PassedALostOne);
            walked.bring_forward(kind, from, to, 1)?;
        }
        Ok(())
    }
}
