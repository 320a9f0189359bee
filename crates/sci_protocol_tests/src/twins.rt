//! A machine, and beside it caches and homes between which packets are carried by hand.

use crate::bounded::Bounded;
use crate::sharer::Sharer;
use crate::walked::Walked;
use crate::words::{answer_text, body_text, packet_text, reply_text, request_text};
use sci_cache::AskFault;
use sci_core::{LaneKind, Obstacle};
use sci_home::{Home, is_for_home};
use sci_packets::{Body, Packet};
use sci_words::{AskKind, Event, Extent};
use std::alloc::Global;
use std::test::*;

/// A machine whose packets are followed, and the caches and homes of its nodes once more. An event happens in the machine
/// and by hand, and both must show the same after it.
#[derive(Drop)]
pub struct Twins {
    alloc: Global,
    walked: Walked,
    sharers: Vec<Sharer>,
    homes: Vec<Home>,
}

impl Twins {
    /// The machine of a size, before any event.
    pub fn new(alloc: Global, extent: Extent) -> Result<Twins, Fail> {
        let mut sharers = Vec::new(alloc);
        for n in 0..extent.nodes {
            sharers.push(Sharer::new(alloc, n, extent)?)?;
        }
        let mut homes = Vec::new(alloc);
        for _line in 0..extent.lines {
            homes.push(Home::new())?;
        }
        Ok(Twins {
            alloc,
            walked: Walked::new(alloc, extent)?,
            sharers,
            homes,
        })
    }

    /// The machine.
    pub fn machine(&self) -> &Bounded {
        &self.walked.machine
    }

    /// The machine, to which more happens than by hand.
    pub fn machine_mut(&mut self) -> &mut Bounded {
        &mut self.walked.machine
    }

    /// The second packet of a lane comes before the first.
    pub fn overtake(&mut self, kind: LaneKind, from: u8, to: u8) -> Result<(), Fail> {
        self.walked.bring_forward(kind, from, to, 1)
    }

    /// Why an event isn't enabled, or None if it is. A cache by hand must give the same reason.
    pub fn obstacle_to(&mut self, event: &Event) -> Result<Option<Obstacle>, Fail> {
        let obstacle = self.machine().obstacle_to(event);
        if let Event::Ask { node, line, kind } = *event {
            let no_slot = obstacle == Some(Obstacle::NoSlot);
            let sharer = self.sharer(node).ok_or("no such node")?;
            if obstacle.is_some()
                && no_slot != (sharer.ask(line, kind) == Some(Err(AskFault::NoSlot)))
            {
                return Err(Fail::from("it is refused for another reason by hand"));
            }
        }
        Ok(obstacle)
    }

    /// Has an event happen. What comes of it, or None if it isn't enabled.
    pub fn apply(&mut self, event: &Event) -> Result<Option<String>, Fail> {
        let by_hand = match *event {
            Event::Issue { .. } => None,
            Event::Perform { node, line } => self.perform(node, line)?,
            Event::Ask { node, line, kind } => self.ask(node, line, kind)?,
            Event::Serve { from, node } => self.serve(from, node)?,
            Event::Refuse { from, node } => self.refuse(from, node)?,
            Event::Reply { node } => self.reply(node)?,
            Event::Accept { from, node } => self.accept(from, node)?,
        };
        let happens = self.walked.step(event)?;
        self.compare()?;
        match event {
            Event::Issue { .. } if happens => Ok(Some(String::new(self.alloc))),
            _ if happens == by_hand.is_some() => Ok(by_hand),
            _ => Err(Fail::from("it is enabled in the machine or by hand alone")),
        }
    }

    /// An error if a cache or a home is in another state by hand than in the machine.
    fn compare(&self) -> Result<(), Fail> {
        let machine = self.machine();
        for line in 0..self.walked.extent.lines {
            if machine.home(line) != self.homes.get(usize::from(line)) {
                return Err(Fail::from("the home is another by hand"));
            }
            for (n, sharer) in (0..self.walked.extent.nodes).zip(&self.sharers) {
                if machine.held(n, line) != sharer.held(line) {
                    return Err(Fail::from("the state is another by hand"));
                }
            }
        }
        Ok(())
    }

    fn sharer(&mut self, n: u8) -> Option<&mut Sharer> {
        self.sharers.get_mut(usize::from(n))
    }

    fn perform(&mut self, n: u8, line: u8) -> Result<Option<String>, Fail> {
        let Some(pending) = self.machine().pending(n, line) else {
            return Ok(None);
        };
        let alloc = self.alloc;
        let sharer = self.sharer(n).ok_or("no such node")?;
        match sharer.perform(pending.op) {
            Some((reply, version)) => Ok(Some(reply_text(alloc, reply, version)?)),
            None => Ok(None),
        }
    }

    fn ask(&mut self, n: u8, line: u8, kind: AskKind) -> Result<Option<String>, Fail> {
        let alloc = self.alloc;
        let Some(sharer) = self.sharer(n) else {
            return Ok(None);
        };
        match sharer.ask(line, kind) {
            Some(Ok(request)) => Ok(Some(request_text(alloc, &request)?)),
            _ => Ok(None),
        }
    }

    /// The oldest request from a node, if no answer waits.
    fn request(&self, from: u8, n: u8) -> Option<Packet> {
        match self.machine().waiting(n) {
            Some(_) => None,
            None => self.walked.oldest(LaneKind::Requests, from, n),
        }
    }

    fn serve(&mut self, from: u8, n: u8) -> Result<Option<String>, Fail> {
        let Some(request) = self.request(from, n) else {
            return Ok(None);
        };
        let answer = if is_for_home(&request.body) {
            let line = usize::try_from(request.line)?;
            let home = self.homes.get_mut(line).ok_or("no such line")?;
            home.serve(&request)
        } else {
            let sharer = self.sharer(n).ok_or("no such node")?;
            sharer.serve(&request).ok_or("it is for another cache")?
        };
        Ok(Some(answer_text(self.alloc, &request, &answer)?))
    }

    fn refuse(&mut self, from: u8, n: u8) -> Result<Option<String>, Fail> {
        match self.request(from, n) {
            None => Ok(None),
            Some(request) if matches!(request.body, Body::Setback { .. }) => Ok(None),
            Some(_) => Ok(Some(body_text(self.alloc, &Body::Busy)?)),
        }
    }

    fn reply(&mut self, n: u8) -> Result<Option<String>, Fail> {
        match self.machine().waiting(n) {
            Some(answer) => Ok(Some(packet_text(self.alloc, &answer)?)),
            None => Ok(None),
        }
    }

    fn accept(&mut self, from: u8, n: u8) -> Result<Option<String>, Fail> {
        let Some(answer) = self.walked.oldest(LaneKind::Answers, from, n) else {
            return Ok(None);
        };
        let sharer = self.sharer(n).ok_or("no such node")?;
        if !sharer.accept(&answer) {
            return Err(Fail::from("the answer is not awaited by hand"));
        }
        Ok(Some(String::new(self.alloc)))
    }
}
