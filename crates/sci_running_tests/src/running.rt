//! Stations with the fabric that they are of.

use crate::nodes::Nodes;
use sci_core::Machine;
use sci_history::{Entry, Verdict, audit};
use sci_lanes::FinishFault;
use sci_policy::{Progress, SubmitFault};
use sci_station::{Fabric, Finished, Station};
use sci_text::logs_text;
use sci_words::{Extent, Op};
use std::alloc::{AllocError, Global};
use std::marker::Model;
use std::test::*;

/// A fabric with stations of its own.
#[derive(Drop)]
pub(crate) struct Running {
    fabric: Fabric,
    stations: Vec<Station>,
}

impl Model for Running {
    ghost use Rattle.std.specs.Prelude.{map};
    ghost use Rattle.sci_lanes.specs.{Ends.{LanesOf}, Gathering.{AreOf}};
    ghost use Rattle.sci_station.specs.Station.{end_in};

    ghost Value = { LanesOf };

    ghost view = { λ running. running.fabric };

    ghost invariant = { λ running. AreOf running.fabric (map end_in running.stations.items) };
}

impl Running {
    ghost use Rattle.std.specs.Prelude.{IfOk, length};
    ghost use Rattle.sci_history.specs.Audit.{AreWithin};

    /// A machine in which nothing was done yet. Each station may submit `limit` operations, or 65,536 if that is less.
    /// Refused if memory is.
    pub(crate) fn new(alloc: Global, extent: Extent, limit: u32) -> Result<Running, AllocError> {
        let (fabric, stations) = Fabric::new(alloc, extent, limit.clamp(1, 65_536))?;
        Ok(Running { fabric, stations })
    }

    /// The machine of this size, as `new` makes it.
    pub(crate) fn of(alloc: Global, size: (u8, u8, u8), limit: u32) -> Result<Running, Fail> {
        let extent = Extent::new(size.0, size.1, size.2).ok_or("an extent")?;
        Ok(Running::new(alloc, extent, limit)?)
    }

    /// The entries of a station's log. Empty if it isn't there.
    pub(crate) fn log(&self, node: usize) -> &[Entry] {
        match self.stations.get(node) {
            Some(station) => station.log(),
            None => &[],
        }
    }

    /// Two stations change places. An error if one isn't there.
    pub(crate) fn swap(&mut self, first: usize, second: usize) -> Result<(), Fail> {
        if first >= self.stations.len() || second >= self.stations.len() {
            return Err(Fail::from("no such station"));
        }
        self.stations.swap(first, second);
        Ok(())
    }

    /// The last station is dropped. An error if there is none.
    pub(crate) fn lose(&mut self) -> Result<(), Fail> {
        match self.stations.pop() {
            Some(_station) => Ok(()),
            None => Err(Fail::from("no station")),
        }
    }

    /// The fabric is finished without any station, and comes back. An error if it does not.
    pub(crate) fn without_any(self, alloc: Global) -> Result<Running, Fail> {
        let Running { fabric, stations } = self;
        match fabric.finish(alloc, Vec::new(alloc)) {
            Err((FinishFault::Missing, fabric, _none)) => Ok(Running { fabric, stations }),
            _ => Err(Fail::from("finished without a station")),
        }
    }

    /// Joins the stations at hand to a machine. An error if they can't be joined.
    pub(crate) fn joined(self, alloc: Global) -> Result<Machine, Fail> {
        let Running { fabric, stations } = self;
        match fabric.join(alloc, stations) {
            Ok(machine) => Ok(machine),
            Err(_) => Err(Fail::from("not joined")),
        }
    }

    /// Finishes the stations at hand.
    pub(crate) fn finished(self, alloc: Global) -> Result<Finished, (FinishFault, Running)>
        ensures { IfOk result (λ finished. AreWithin (length finished.last) finished.logs) }
    {
        let Running { fabric, stations } = self;
        match fabric.finish(alloc, stations) {
            Ok(finished) => Ok(finished),
            Err((fault, fabric, stations)) => Err((fault, Running { fabric, stations })),
        }
    }
}

impl Nodes for Running {
    fn submit(&mut self, node: u8, op: Op) -> Result<Result<u32, SubmitFault>, Fail> {
        let place = usize::from(node);
        if place >= self.stations.len() {
            return Err(Fail::from("no such station"));
        }
        Ok(self.stations[place].submit(op))
    }

    fn perform(&mut self, node: u8, line: u8) -> Result<Option<Entry>, Fail> {
        let place = usize::from(node);
        if place >= self.stations.len() {
            return Err(Fail::from("no such station"));
        }
        Ok(self.stations[place].perform(line))
    }

    fn turn(&mut self, node: u8) -> Result<Progress, Fail> {
        let place = usize::from(node);
        if place >= self.stations.len() {
            return Err(Fail::from("no such station"));
        }
        Ok(self.stations[place].turn())
    }

    fn turn_within(&mut self, node: u8, most: u32) -> Result<(Progress, u32), Fail> {
        let place = usize::from(node);
        if place >= self.stations.len() {
            return Err(Fail::from("no such station"));
        }
        Ok(self.stations[place].turn_within(most))
    }

    fn finish(self, alloc: Global) -> Result<(Verdict, Vec<u8>), Fail> {
        let nodes = u8::try_from(self.stations.len())?;
        let finished = finished(alloc, self)?;
        let verdict = audit(alloc, &finished.logs, &finished.last)?;
        let text = logs_text(alloc, nodes, &finished.logs, &finished.last)?;
        Ok((verdict, text))
    }
}

ghost use Rattle.std.specs.Prelude.{IfOk, length};
ghost use Rattle.sci_history.specs.Audit.{AreWithin};

/// The stations at hand are finished, the second time if memory was refused. An error if one is missing.
pub(crate) fn finished(alloc: Global, running: Running) -> Result<Finished, Fail>
    ensures { IfOk result (λ finished. AreWithin (length finished.last) finished.logs) }
{
    let running = match running.finished(alloc) {
        Ok(finished) => return Ok(finished),
        Err((FinishFault::Missing, _)) => return Err(Fail::from("a station is missing")),
        Err((FinishFault::Memory, running)) => running,
    };
    match running.finished(alloc) {
        Ok(finished) => Ok(finished),
        Err(_) => Err(Fail::from("refused again")),
    }
}
