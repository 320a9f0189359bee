//! Lanes: the packets that are under way from one node to another.

ghost use Rattle.std.specs.Prelude.{◌≡◌, ◌∷◌, [], ◌++◌, IfSome, IsErr, OnOk, OnErr, IfOk, option_map, option_copied, slice_get, length, drop, map, None};
ghost use Rattle.std.specs.Prelude.{Some};
ghost use Rattle.sci_cache.specs.Cache.{letter_of};
ghost use Rattle.sci_core.specs.Network.{brought};

use sci_packets::Packet;
use std::alloc::{AllocError, Global};
use std::collections::VecDeque;
use std::marker::Model;

/// What a lane carries.
#[derive(Clone, Copy, Debug, PartialEq, Eq)]
pub enum LaneKind {
    Requests,
    Answers,
}

impl LaneKind {
    ghost use Rattle.std.specs.Prelude.{◌≡◌, ◌<◌};
    ghost use Rattle.sci_core.specs.Core.{kind_number};

    /// Its number in the order of lanes: those of requests stand before those of answers.
    pub fn index(self) -> usize
        ensures number { result ≡ kind_number self }
        ensures below { result < 2 }
    {
        match self {
            LaneKind::Requests => 0,
            LaneKind::Answers => 1,
        }
    }
}

/// The packets of one kind that are under way from one node to another, oldest first. Contracts see the list of
/// them.
#[derive(Drop)]
pub struct Lane {
    packets: VecDeque<Packet>,
}

impl Model for Lane {
    ghost use Rattle.std.specs.Prelude.{List, map};
    ghost use Rattle.sci_cache.specs.Cache.{Letter, letter_of};

    ghost Value = { List Letter };

    ghost view = { λ lane. map letter_of lane.packets.items };
}

impl Lane {
    /// A lane with no packet.
    pub fn new(alloc: Global) -> Lane
        ensures { result ≡ [] }
    {
        Lane {
            packets: VecDeque::new(alloc),
        }
    }

    /// The lane of these packets, oldest first. No memory is taken.
    pub fn of_packets(packets: VecDeque<Packet>) -> Lane
        ensures { result ≡ map letter_of packets.items }
    {
        Lane { packets }
    }

    /// A copy of the lane. Refused if memory is.
    pub fn try_clone(&self, alloc: Global) -> Result<Lane, AllocError>
        ensures { IfOk result (λ lane. lane ≡ self.now) }
    {
        let mut lane = Lane::new(alloc);
        let (older, newer) = self.slices();
        lane.send_all(older)?;
        lane.send_all(newer)?;
        Ok(lane)
    }

    /// Sends packets, one after another.
    fn send_all(&mut self, packets: &[Packet]) -> Result<(), AllocError>
        ensures { OnOk result (self.new ≡ self.old ++ map letter_of packets.now) }
    {
        for packet in packets {
            self.send(packet)?;
        }
        Ok(())
    }

    /// Sends a packet: it ends the lane. Unchanged if memory is refused.
    pub fn send(&mut self, packet: &Packet) -> Result<(), AllocError>
        ensures ok { OnOk result (self.new ≡ self.old ++ letter_of packet.now ∷ []) }
        ensures err { OnErr result (self.new ≡ self.old) }
    {
        // Makes an option, so that the prover learns the types inside a packet.
        let _told = Some(*packet);
        push(&mut self.packets, *packet)
    }

    /// Takes the oldest packet away, if there is one.
    pub(crate) fn take(&mut self) -> Option<Packet>
        ensures some { IfSome result (λ packet. self.old ≡ letter_of packet ∷ self.new) }
        ensures none { result ≡ None → self.old ≡ [] }
        ensures same { result ≡ None → self.new ≡ self.old }
    {
        self.packets.pop_front()
    }

    /// Brings the packet at a place, counted from the oldest, before the others, if there is one.
    pub(crate) fn bring_forward(&mut self, place: usize)
        ensures { self.new ≡ brought place self.old }
    {
        bring_forward(&mut self.packets, place);
    }

    /// The oldest packet, if there is one.
    pub fn front(&self) -> Option<&Packet>
        ensures { option_map letter_of (option_copied result) ≡ slice_get self.now 0 }
    {
        self.packets.front()
    }

    /// The packets, as two slices one after the other.
    pub(crate) fn slices(&self) -> (&[Packet], &[Packet])
        ensures { map letter_of result.0.now ++ map letter_of result.1.now ≡ self.now }
    {
        self.packets.as_slices()
    }

    /// The packet at a place, counted from the oldest, or None if there are no more.
    pub fn get(&self, place: usize) -> Option<&Packet>
        ensures { option_map letter_of (option_copied result) ≡ slice_get self.now place }
    {
        self.packets.get(place)
    }

    /// How many packets there are.
    pub fn count(&self) -> usize
        ensures { result ≡ length self.now }
    {
        self.packets.len()
    }
}

/// Ends a queue with an item. Unchanged if memory is refused.
fn push<T: Drop>(queue: &mut VecDeque<T>, item: T) -> Result<(), AllocError>
    ensures ok { OnOk result (queue.new.items ≡ queue.old.items ++ item ∷ []) }
    ensures err { OnErr result (queue.new.items ≡ queue.old.items) }
{
    queue.push_back(item)?;
    Ok(())
}

/// Brings an item before the others, if there is one at this place.
fn bring_forward<T: Drop>(queue: &mut VecDeque<T>, place: usize)
    ensures { queue.new.items ≡ brought place queue.old.items }
{
    if let Some(item) = queue.remove(place) {
        queue.push_front_reserved(item);
    }
}
