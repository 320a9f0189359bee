//! Ends of lanes that are taken through events by hand, with no policy and no turns.

ghost use Rattle.std.specs.Prelude.{IfSome};
ghost use Rattle.sci_lanes.specs.Ends.{IsNextToTake};
ghost use Rattle.sci_station.specs.Ends.{HasRead, IsStill};

use sci_core::{LaneKind, node_of};
use sci_history::{Last, Logs};
use sci_lanes::{CellId, FinishFault, LaneEnd, Lanes};
use sci_packets::{Body, Packet};
use sci_station::{Budget, Seen, read_packet, see, send};
use sci_words::{AskKind, Event, Extent, Op};
use std::alloc::{AllocError, Global};
use std::marker::Model;
use std::test::*;

/// Lanes with the ends of their nodes.
#[derive(Drop)]
pub(crate) struct ByHand {
    lanes: Lanes,
    ends: Vec<LaneEnd>,
}

impl Model for ByHand {
    ghost use Rattle.std.specs.Prelude.{map};
    ghost use Rattle.sci_lanes.specs.{Ends.{LanesOf}, Gathering.{AreOf}};

    ghost Value = { LanesOf };

    ghost view = { λ hand. hand.lanes };

    ghost invariant = { λ hand. AreOf hand.lanes (map (λ end. end) hand.ends.items) };
}

impl ByHand {
    /// A machine in which nothing was done yet. Each node may issue this many operations, at most 100. Refused if memory
    /// is.
    pub(crate) fn new(alloc: Global, extent: Extent, limit: u32) -> Result<ByHand, AllocError> {
        let (lanes, ends) = Lanes::new(alloc, extent, limit.clamp(1, 100))?;
        Ok(ByHand { lanes, ends })
    }

    /// Makes an event at the end of its node. An error if it can't be made there.
    pub(crate) fn make(&mut self, event: &Event) -> Result<(), Fail> {
        let place = usize::from(node_of(event));
        if place >= self.ends.len() {
            return Err(Fail::from("no such node"));
        }
        make(&mut self.ends[place], event).map_err(Fail::from)
    }

    /// Two ends change places. An error if one isn't there.
    pub(crate) fn swap(&mut self, first: usize, second: usize) -> Result<(), Fail> {
        if first >= self.ends.len() || second >= self.ends.len() {
            return Err(Fail::from("no such end"));
        }
        self.ends.swap(first, second);
        Ok(())
    }

    /// Gathers the ends, the second time if memory was refused. An error if one is missing.
    pub(crate) fn gather(self, alloc: Global) -> Result<(Logs, Last), Fail> {
        let ByHand { lanes, ends } = self;
        let (lanes, ends) = match lanes.gather(alloc, ends) {
            Ok(gathered) => return Ok(gathered),
            Err((FinishFault::Missing, _, _)) => return Err(Fail::from("an end is missing")),
            Err((FinishFault::Memory, lanes, ends)) => (lanes, ends),
        };
        match lanes.gather(alloc, ends) {
            Ok(gathered) => Ok(gathered),
            Err(_) => Err(Fail::from("refused again")),
        }
    }
}

ghost use Rattle.std.specs.Prelude.{◌≡◌};
ghost use Rattle.sci_core.specs.Node.{is_setback};
ghost use Rattle.sci_station.specs.Ends.{IsSameEnd};

/// Makes an event of this node. An error if it can't be made, or there is no room for what it sends.
pub(crate) fn make(end: &mut LaneEnd, event: &Event) -> Result<(), &'static str>
    ensures { IsSameEnd end.old end.new }
{
    match event {
        Event::Issue { op, .. } => issue(end, *op),
        Event::Perform { line, .. } => perform(end, *line),
        Event::Ask { line, kind, .. } => ask(end, *line, *kind),
        Event::Serve { from, .. } => serve(end, *from),
        Event::Refuse { from, .. } => refuse(end, *from),
        Event::Reply { .. } => reply(end),
        Event::Accept { from, .. } => accept(end, *from),
    }
}

fn issue(end: &mut LaneEnd, op: Op) -> Result<(), &'static str>
    ensures { IsSameEnd end.old end.new }
{
    match end.issue(op) {
        Some(_serial) => Ok(()),
        None => Err("not to be issued"),
    }
}

fn perform(end: &mut LaneEnd, line: u8) -> Result<(), &'static str>
    ensures { IsSameEnd end.old end.new }
{
    match end.perform(line) {
        Some(_entry) => Ok(()),
        None => Err("not to be performed"),
    }
}

fn ask(end: &mut LaneEnd, line: u8, kind: AskKind) -> Result<(), &'static str>
    ensures { IsSameEnd end.old end.new }
{
    let request = match end.node().asked(line, kind) {
        Some(request) => request,
        None => return Err("not to be asked"),
    };
    let event = Event::Ask {
        node: end.me(),
        line,
        kind,
    };
    let mut budget = Budget { left: None };
    match send(end, &mut budget, LaneKind::Requests, &request, &event) {
        Ok(true) => Ok(()),
        _ => Err("no room for a request"),
    }
}

fn reply(end: &mut LaneEnd) -> Result<(), &'static str>
    ensures { IsSameEnd end.old end.new }
{
    let answer = match end.node().waiting() {
        Some(answer) => *answer,
        None => return Err("no answer waits"),
    };
    let event = Event::Reply { node: end.me() };
    let mut budget = Budget { left: None };
    match send(end, &mut budget, LaneKind::Answers, &answer, &event) {
        Ok(true) => Ok(()),
        _ => Err("no room for an answer"),
    }
}

/// The packet in the next cell of a lane to this node. It stays there.
fn receive(end: &mut LaneEnd, cell: CellId) -> Option<Packet>
    requires { IsNextToTake end.old.part cell }
    ensures read { IfSome result (HasRead end.new.part cell) }
    ensures still { IsStill end.old end.new }
{
    let mut budget = Budget { left: None };
    let first = match see(end, &mut budget, cell.kind, cell.sender) {
        Ok(Some(first)) => first,
        _ => return None,
    };
    match read_packet(end, &mut budget, Seen { cell, first }) {
        Ok(packet) => Some(packet),
        Err(_) => None,
    }
}

fn serve(end: &mut LaneEnd, from: u8) -> Result<(), &'static str>
    ensures { IsSameEnd end.old end.new }
{
    if from >= end.nodes() || end.node().waiting().is_some() {
        return Err("not to be served");
    }
    let cell = end.next_to_take(LaneKind::Requests, from);
    let request = match receive(end, cell) {
        Some(request) => request,
        None => return Err("no request"),
    };
    let event = Event::Serve {
        from,
        node: end.me(),
    };
    end.free(cell, &event, &request);
    Ok(())
}

/// Whether a request is a Setback.
fn sets_back(request: &Packet) -> bool
    ensures { result ≡ is_setback request.now.body }
{
    matches!(request.body, Body::Setback { .. })
}

fn refuse(end: &mut LaneEnd, from: u8) -> Result<(), &'static str>
    ensures { IsSameEnd end.old end.new }
{
    if from >= end.nodes() || end.node().waiting().is_some() {
        return Err("not to be refused");
    }
    let cell = end.next_to_take(LaneKind::Requests, from);
    let request = match receive(end, cell) {
        Some(request) => request,
        None => return Err("no request"),
    };
    if sets_back(&request) {
        return Err("a setback, which is never refused");
    }
    let event = Event::Refuse {
        from,
        node: end.me(),
    };
    end.free(cell, &event, &request);
    Ok(())
}

fn accept(end: &mut LaneEnd, from: u8) -> Result<(), &'static str>
    ensures { IsSameEnd end.old end.new }
{
    if from >= end.nodes() {
        return Err("no such node");
    }
    let cell = end.next_to_take(LaneKind::Answers, from);
    let answer = match receive(end, cell) {
        Some(answer) => answer,
        None => return Err("no answer"),
    };
    let event = Event::Accept {
        from,
        node: end.me(),
    };
    end.free(cell, &event, &answer);
    Ok(())
}
