//! The packets of a chart: when each was sent, and when it was taken.

ghost use Rattle.std.specs.Prelude.{◌≡◌};
ghost use Rattle.sci_cache.specs.Cache.{letter_of};
ghost use Rattle.sci_charts.specs.Rows.{ShowsPacket, kind_class};

use crate::mark::Mark;
use sci_packets::{Body, Packet};
use sci_words::MAX_NODES;
use std::alloc::{AllocError, Global};
use std::collections::VecDeque;

/// If a packet is under way for more rows than these, both ends of its arrow name it.
const FAR: u32 = 10;

/// The last of the ways on which packets of a node to itself go side by side.
const LAST_TRACK: u8 = 5;

/// What kind of packet an arrow shows.
#[derive(Clone, Copy)]
pub enum ArrowKind {
    /// A request that was served, or was not taken.
    Request,
    /// A request that was answered busy.
    Refused,
    /// An answer that isn't busy.
    Answer,
    /// The answer busy.
    Busy,
}

impl ArrowKind {
    /// The kind of a packet.
    pub fn of(packet: &Packet, flight: &Flight) -> ArrowKind
        ensures { ShowsPacket result (letter_of packet.now) }
    {
        match packet.body {
            Body::Busy => ArrowKind::Busy,
            _ if !packet.is_request() => ArrowKind::Answer,
            _ if flight.is_refused => ArrowKind::Refused,
            _ => ArrowKind::Request,
        }
    }

    /// The letter for it, by which a chart's style knows it: most elements of a chart have one, so it is short.
    pub fn class(self) -> &'static str
        ensures { result.now ≡ kind_class self }
    {
        match self {
            ArrowKind::Request => "q",
            ArrowKind::Refused => "x",
            ArrowKind::Answer => "a",
            ArrowKind::Busy => "b",
        }
    }
}

/// When a packet was sent and taken.
#[derive(Clone, Copy)]
pub struct Flight {
    /// The row where it was sent, unless that was before the first row.
    pub sent: Option<u32>,
    /// The row where it was taken, if it was.
    pub taken: Option<u32>,
    /// Whether it was taken before the first row.
    pub is_past: bool,
    /// Whether it was answered busy.
    pub is_refused: bool,
    /// Which of the ways of packets of a node to itself is its own, from 0: none that is under way with it has the same, unless
    /// there are more than five.
    pub track: u8,
}

impl Flight {
    /// Of no packet.
    pub fn none() -> Flight {
        Flight::begun(None, 0)
    }

    /// Of a packet that is sent in a row, or before the first one.
    fn begun(sent: Option<u32>, track: u8) -> Flight {
        Flight {
            sent,
            taken: None,
            is_past: false,
            is_refused: false,
            track,
        }
    }

    /// From where it came to the row where it was taken.
    fn origin(&self) -> Origin {
        match (self.sent, self.taken) {
            (Some(sent), Some(taken)) if taken.saturating_sub(sent) > FAR => Origin::Far,
            (Some(_), _) => Origin::Near,
            (None, _) => Origin::Above,
        }
    }

    /// Whether it goes on to where the columns end.
    pub fn goes_on(&self) -> bool {
        self.taken.is_none() && !self.is_past
    }
}

/// From where a packet comes that is taken in a row.
#[derive(Clone, Copy)]
pub enum Origin {
    /// From one of the rows above.
    Near,
    /// From a row many rows above.
    Far,
    /// From before the first row.
    Above,
}

/// The packets that were sent, and those of them that are under way. A second pass over the schedule asks for each once more, in
/// their order.
#[derive(Drop)]
pub struct Arrows {
    /// Of all packets, in the order in which they were sent.
    flights: Vec<Flight>,
    /// Those that were sent before the first row.
    early: Vec<Packet>,
    /// Of the packets that were taken in rows, in the order in which they were taken: from where they came.
    origins: Vec<Origin>,
    /// For each lane the places of the packets that are under way in it, oldest first.
    lanes: Vec<VecDeque<usize>>,
    /// How many of those that were sent in rows were asked for.
    asked_sent: usize,
    /// How many of those that were taken in rows were asked for.
    asked_taken: usize,
}

/// The place of a packet's lane: requests and answers in turn, for each sender the lanes to each receiver.
fn lane_of(packet: &Packet) -> usize {
    let source = usize::from(packet.source.get());
    let target = usize::from(packet.target.get());
    let pair = source * usize::from(MAX_NODES) + target;
    2 * pair + usize::from(!packet.is_request())
}

impl Arrows {
    /// No packet. Refused if memory is.
    pub fn new(alloc: Global) -> Result<Arrows, AllocError> {
        let mut lanes = Vec::new(alloc);
        for _sender in 0..MAX_NODES {
            for _lane in 0..2 * MAX_NODES {
                lanes.push(VecDeque::new(alloc))?;
            }
        }
        Ok(Arrows {
            flights: Vec::new(alloc),
            early: Vec::new(alloc),
            origins: Vec::new(alloc),
            lanes,
            asked_sent: 0,
            asked_taken: 0,
        })
    }

    /// The packets that were sent before the first row, with when they were taken.
    pub fn early(&self) -> (&[Packet], &[Flight]) {
        (&self.early, &self.flights)
    }

    /// Whether a packet in a lane goes on a way.
    fn has_track(&self, lane: usize, track: u8) -> bool {
        let Some(places) = self.lanes.get(lane) else {
            return false;
        };
        for place in places.iter() {
            if let Some(flight) = self.flights.get(*place) {
                if flight.track == track {
                    return true;
                }
            }
        }
        false
    }

    /// The first way on which no packet of a packet's sender to itself is, if that is whom it is for; the last one, if one is on
    /// each.
    fn free_track(&self, packet: &Packet) -> u8 {
        if packet.source != packet.target {
            return 0;
        }
        let lane = lane_of(packet);
        for track in 0..LAST_TRACK {
            if !self.has_track(lane, track) && !self.has_track(lane ^ 1, track) {
                return track;
            }
        }
        LAST_TRACK
    }

    /// A packet is sent in a row, or before the first one.
    fn send(&mut self, packet: &Packet, row: Option<u32>) -> Result<(), AllocError> {
        // Makes an option, so that the prover learns the types inside a packet.
        let _told = Some(*packet);
        let place = self.flights.len();
        let track = self.free_track(packet);
        self.flights.push(Flight::begun(row, track))?;
        if row.is_none() {
            self.early.push(*packet)?;
        }
        if let Some(lane) = self.lanes.get_mut(lane_of(packet)) {
            lane.push_back(place)?;
        }
        Ok(())
    }

    /// A packet is taken in a row, or before the first one: it is the oldest of its lane. Gives its flight.
    fn take(&mut self, packet: &Packet, row: Option<u32>) -> Option<&mut Flight> {
        let lane = self.lanes.get_mut(lane_of(packet))?;
        let place = lane.pop_front()?;
        let flight = self.flights.get_mut(place)?;
        flight.taken = row;
        flight.is_past = row.is_none();
        Some(flight)
    }

    /// Notes which packet an event sent or took in a row, or before the first one. From where one came that it took. Refused if
    /// memory is.
    pub fn note(&mut self, mark: &Mark, row: Option<u32>) -> Result<Origin, AllocError> {
        let origin = match mark {
            Mark::Sent(packet) => {
                self.send(packet, row)?;
                return Ok(Origin::Near);
            }
            Mark::Taken(packet) => match self.take(packet, row) {
                Some(flight) => flight.origin(),
                None => Origin::Near,
            },
            Mark::Refused(packet) => match self.take(packet, row) {
                Some(flight) => {
                    flight.is_refused = true;
                    flight.origin()
                }
                None => Origin::Near,
            },
            Mark::Dead | Mark::Issued | Mark::Performed => return Ok(Origin::Near),
        };
        if row.is_some() {
            self.origins.push(origin)?;
        }
        Ok(origin)
    }

    /// The flight of the packet that is sent in the next row where one is.
    pub fn next_sent(&mut self) -> Flight {
        let place = self.early.len().saturating_add(self.asked_sent);
        self.asked_sent = self.asked_sent.saturating_add(1);
        match self.flights.get(place) {
            Some(flight) => *flight,
            None => Flight::none(),
        }
    }

    /// From where the packet came that is taken in the next row where one is.
    pub fn next_origin(&mut self) -> Origin {
        let place = self.asked_taken;
        self.asked_taken = self.asked_taken.saturating_add(1);
        match self.origins.get(place) {
            Some(origin) => *origin,
            None => Origin::Near,
        }
    }
}
