//! A machine on which the events of a walk or a row happen, and the packets under way as the events that happened say.

use crate::bounded::Bounded;
use crate::requests::{is_answered_by, request_of};
use sci_cache::Held;
use sci_core::LaneKind;
use sci_packets::{Body, NodeId, Packet};
use sci_words::{AskKind, Event, Extent};
use std::alloc::{AllocError, Global};
use std::collections::VecDeque;
use std::test::*;

/// How many operations a node may issue.
pub const LIMIT: u32 = 300;

/// Something that happens in walks.
#[derive(Clone, Copy, Debug, PartialEq, Eq)]
pub enum Happening {
    Loaded,
    Made,
    Joined,
    Purged,
    Rolled,
    WroteBack,
    Claimed,
    Cleared,
    Lost,
    WasBusy,
    Overtook,
    PassedALostOne,
}

/// What happens when an operation is performed.
pub const OPERATIONS: [Happening; 2] = [Happening::Loaded, Happening::Made];

/// What else happens.
pub const OTHERS: [Happening; 8] = [
    Happening::Joined,
    Happening::Purged,
    Happening::Rolled,
    Happening::WroteBack,
    Happening::Claimed,
    Happening::Cleared,
    Happening::Lost,
    Happening::WasBusy,
];

/// How often each of these happened.
#[derive(Clone, Copy, Debug, PartialEq, Eq)]
pub struct Counts([u64; 12]);

impl Counts {
    pub fn none() -> Counts {
        Counts([0; 12])
    }

    /// Adds what happened in other walks.
    pub fn add(&mut self, more: &Counts) {
        for (count, more) in self.0.iter_mut().zip(&more.0) {
            *count = count.wrapping_add(*more);
        }
    }

    /// How often it happened.
    pub fn of(&self, what: Happening) -> u64 {
        self.0.get(what as usize).copied().unwrap_or(0)
    }

    /// It happened once more.
    pub fn count(&mut self, what: Happening) {
        if let Some(count) = self.0.get_mut(what as usize) {
            *count = count.wrapping_add(1);
        }
    }

    /// One more of what an answer that was accepted ends.
    fn count_answer(&mut self, asked: &Held, answer: &Body) {
        self.count(match (asked, answer) {
            (_, Body::Busy) => Happening::WasBusy,
            (_, Body::Wbno) => Happening::Lost,
            (Held::Claiming(_), _) => Happening::Claimed,
            (Held::Clearing(_), _) => Happening::Cleared,
            (Held::Returning(_), _) => Happening::WroteBack,
            (Held::Purging(_), _) => Happening::Purged,
            (Held::Rolling(_), _) => Happening::Rolled,
            (Held::Joining(_) | Held::FreshJoining(_), _) => Happening::Joined,
            _ => return,
        });
    }
}

/// Ends a queue with an item.
fn push<T: Drop>(queue: &mut VecDeque<T>, item: T) -> Result<(), AllocError> {
    queue.push_back(item)?;
    Ok(())
}

/// Brings the item at a place of a queue before the others, if there is one.
fn bring_forward<T: Drop>(queue: &mut VecDeque<T>, place: usize) -> Result<(), AllocError> {
    if let Some(item) = queue.remove(place) {
        queue.push_front(item)?;
    }
    Ok(())
}

/// A machine, the packets in its lanes as the events that happened say, and how often each node asked about each
/// line.
#[derive(Drop)]
pub struct Walked {
    pub extent: Extent,
    pub machine: Bounded,
    pub counts: Counts,
    lanes: Vec<VecDeque<Packet>>,
    asks: Vec<u16>,
    issued: Vec<u32>,
}

impl Walked {
    /// The machine of a size before any event.
    pub fn new(alloc: Global, extent: Extent) -> Result<Walked, Fail> {
        let nodes = usize::from(extent.nodes);
        let mut lanes = Vec::new(alloc);
        for _place in 0..2 * nodes * nodes {
            lanes.push(VecDeque::new(alloc))?;
        }
        let mut asks = Vec::new(alloc);
        for _place in 0..nodes * usize::from(extent.lines) {
            asks.push(0)?;
        }
        let mut issued = Vec::new(alloc);
        for _node in 0..nodes {
            issued.push(0)?;
        }
        Ok(Walked {
            extent,
            machine: Bounded::new(alloc, extent, LIMIT)?,
            counts: Counts::none(),
            lanes,
            asks,
            issued,
        })
    }

    fn place(&self, kind: LaneKind, from: u8, to: u8) -> usize {
        let nodes = usize::from(self.extent.nodes);
        (kind.index() * nodes + usize::from(from)) * nodes + usize::from(to)
    }

    /// The packets under way from one node to another, oldest first.
    pub fn lane(&self, kind: LaneKind, from: u8, to: u8) -> Option<&VecDeque<Packet>> {
        if from >= self.extent.nodes || to >= self.extent.nodes {
            return None;
        }
        self.lanes.get(self.place(kind, from, to))
    }

    /// Whether no packet is under way from one node to another.
    pub fn is_clear(&self, kind: LaneKind, from: u8, to: u8) -> bool {
        match self.lane(kind, from, to) {
            Some(lane) => lane.is_empty(),
            None => true,
        }
    }

    /// The oldest packet under way from one node to another.
    pub fn oldest(&self, kind: LaneKind, from: u8, to: u8) -> Option<Packet> {
        self.lane(kind, from, to)?.front().copied()
    }

    /// How many operations a node has issued.
    pub fn issued(&self, n: u8) -> u32 {
        self.issued.get(usize::from(n)).copied().unwrap_or(0)
    }

    /// The request that a node would send now, by its state and the count of its asks.
    fn asked(&self, n: u8, line: u8, kind: AskKind) -> Option<Packet> {
        let (to, body) = request_of(self.machine.held(n, line)?, kind)?;
        let home = NodeId::new(u16::from(line % self.extent.nodes))?;
        let place = usize::from(n) * usize::from(self.extent.lines) + usize::from(line);
        Some(Packet {
            target: to.unwrap_or(home),
            source: NodeId::new(u16::from(n))?,
            control: *self.asks.get(place)?,
            line: u64::from(line),
            body,
        })
    }

    /// Applies an event and carries the packets as it says; gives whether it was enabled.
    pub fn step(&mut self, event: &Event) -> Result<bool, Fail> {
        match *event {
            Event::Issue { node, .. } => self.issue(event, node),
            Event::Perform { node, line } => self.perform(event, node, line),
            Event::Ask { node, line, kind } => {
                let request = self.asked(node, line, kind);
                self.ask(event, node, line, request)
            }
            Event::Serve { from, node } => self.answer(event, from, node, false),
            Event::Refuse { from, node } => self.answer(event, from, node, true),
            Event::Reply { node } => self.reply(event, node),
            Event::Accept { from, node } => self.accept(event, from, node),
        }
    }

    fn issue(&mut self, event: &Event, n: u8) -> Result<bool, Fail> {
        if !self.machine.apply(event)? {
            return Ok(false);
        }
        if let Some(issued) = self.issued.get_mut(usize::from(n)) {
            *issued = issued.wrapping_add(1);
        }
        Ok(true)
    }

    fn perform(&mut self, event: &Event, n: u8, line: u8) -> Result<bool, Fail> {
        let pending = self.machine.pending(n, line);
        if !self.machine.apply(event)? {
            return Ok(false);
        }
        match pending {
            None => return Err(Fail::from("nothing was pending")),
            Some(pending) if pending.op.is_maker() => self.counts.count(Happening::Made),
            Some(_) => self.counts.count(Happening::Loaded),
        }
        Ok(true)
    }

    fn ask(
        &mut self,
        event: &Event,
        n: u8,
        line: u8,
        request: Option<Packet>,
    ) -> Result<bool, Fail> {
        if !self.machine.apply(event)? {
            return Ok(false);
        }
        let place = usize::from(n) * usize::from(self.extent.lines) + usize::from(line);
        let asks = self.asks.get_mut(place).ok_or("there is no such line")?;
        *asks = asks.wrapping_add(1);
        self.send(LaneKind::Requests, n, request)?;
        Ok(true)
    }

    /// Serves or refuses the oldest request from a node.
    fn answer(&mut self, event: &Event, from: u8, n: u8, refused: bool) -> Result<bool, Fail> {
        let waited = self.machine.waiting(n).is_some();
        if !self.machine.apply(event)? {
            return Ok(false);
        }
        let request = self.take(LaneKind::Requests, from, n)?;
        let answer = self.machine.waiting(n).ok_or("no answer waits")?;
        let fits = if refused {
            answer.body == Body::Busy && !matches!(request.body, Body::Setback { .. })
        } else {
            is_answered_by(&request.body, &answer.body)
        };
        if waited || !fits || answer != request.answer(answer.body) {
            return Err(Fail::from("another answer"));
        }
        Ok(true)
    }

    fn reply(&mut self, event: &Event, n: u8) -> Result<bool, Fail> {
        let waiting = self.machine.waiting(n);
        if !self.machine.apply(event)? {
            return Ok(false);
        }
        if self.machine.waiting(n).is_some() {
            return Err(Fail::from("the answer still waits"));
        }
        self.send(LaneKind::Answers, n, waiting)?;
        Ok(true)
    }

    fn accept(&mut self, event: &Event, from: u8, n: u8) -> Result<bool, Fail> {
        let mut counts = self.counts;
        if let Some(answer) = self.oldest(LaneKind::Answers, from, n) {
            let line = u8::try_from(answer.line)?;
            let asked = self.machine.held(n, line).ok_or("an answer to no node")?;
            counts.count_answer(asked, &answer.body);
        }
        if !self.machine.apply(event)? {
            return Ok(false);
        }
        self.counts = counts;
        let _answer = self.take(LaneKind::Answers, from, n)?;
        Ok(true)
    }

    /// Ends a lane with the packet that the node's state sends. It is an error if that sends none.
    fn send(&mut self, kind: LaneKind, from: u8, packet: Option<Packet>) -> Result<(), Fail> {
        let packet = packet.ok_or("the state sends no packet")?;
        let to = u8::try_from(packet.target.get())?;
        let place = self.place(kind, from, to);
        let lane = self.lanes.get_mut(place).ok_or("there is no such lane")?;
        push(lane, packet)?;
        self.shows(kind, from, to)
    }

    /// Takes the oldest packet of a lane.
    fn take(&mut self, kind: LaneKind, from: u8, to: u8) -> Result<Packet, Fail> {
        let place = self.place(kind, from, to);
        let lane = self.lanes.get_mut(place).ok_or("there is no such lane")?;
        let packet = lane.pop_front().ok_or("the lane is empty")?;
        self.shows(kind, from, to)?;
        Ok(packet)
    }

    /// The network brings the packet at a place of a lane before the others, if there is one.
    pub fn bring_forward(
        &mut self,
        kind: LaneKind,
        from: u8,
        to: u8,
        place: u8,
    ) -> Result<(), Fail> {
        self.machine.bring_forward(kind, from, to, place);
        let lane = self.place(kind, from, to);
        let lane = self.lanes.get_mut(lane).ok_or("there is no such lane")?;
        bring_forward(lane, usize::from(place))?;
        self.shows(kind, from, to)
    }

    /// An error if the machine doesn't show the packets that the events have left in a lane.
    fn shows(&self, kind: LaneKind, from: u8, to: u8) -> Result<(), Fail> {
        let lane = self.lane(kind, from, to).ok_or("there is no such lane")?;
        if self.machine.front(kind, from, to) != lane.front() {
            return Err(Fail::from("another front"));
        }
        if self.machine.count(kind, from, to) != lane.len() {
            return Err(Fail::from("another count"));
        }
        Ok(())
    }

    /// An error if the machine doesn't show the packets that the events have left in its lanes.
    pub fn shows_all(&self) -> Result<(), Fail> {
        for from in 0..self.extent.nodes {
            for to in 0..self.extent.nodes {
                self.shows(LaneKind::Requests, from, to)?;
                self.shows(LaneKind::Answers, from, to)?;
            }
        }
        Ok(())
    }
}
