//! The machine that stations make together.

use crate::station::Station;
use sci_core::Machine;
use sci_history::{Last, Logs};
use sci_lanes::{FinishFault, Lanes};
use sci_words::Extent;
use std::alloc::{AllocError, Global};
use std::marker::Model;

/// The lanes between the stations of one machine. Contracts see which table they are in, and the size of the machine.
#[derive(Drop)]
pub struct Fabric {
    lanes: Lanes,
}

impl Model for Fabric {
    ghost use Rattle.sci_lanes.specs.Ends.{LanesOf};

    ghost Value = { LanesOf };

    ghost view = { λ fabric. fabric.lanes };
}

/// The logs of all stations, and the last contents of each line.
#[derive(Drop)]
pub struct Finished {
    pub logs: Logs,
    pub last: Last,
}

impl Fabric {
    ghost use Rattle.std.specs.Prelude.{◌≡◌, ◌≤◌, IfErr, IfOk, length, map};
    ghost use Rattle.sci_history.specs.{Audit.{AreWithin}, Lawful.{Lawful}, Sequential.{IsSequentiallyConsistent}};
    ghost use Rattle.sci_lanes.specs.declared.gather.FinishFault.TheVariants.{Memory, Missing};
    ghost use Rattle.sci_lanes.specs.{Gathering.{AreAll, AreGathered, AreOf, HaveLogs, IsStateOf}, Ends.{opening_ends}};
    ghost use Rattle.sci_words.specs.declared.limits.TheConstants.{MAX_OPERATIONS};
    ghost use Rattle.sci_core.specs.Size.{size_of};
    ghost use Rattle.sci_station.specs.Station.{end_in, opening_station};

    /// The lanes of a machine of this size, and its stations, numbered from 0. Each may submit `limit` operations;
    /// requires that this is 1 to 65,536. Refused if memory is. No call of a station takes memory.
    // Out of line, so that the places of its stations on the stack are free again when it returns.
    #[inline(never)]
    pub fn new(
        alloc: Global,
        extent: Extent,
        limit: u32,
    ) -> Result<(Fabric, Vec<Station>), AllocError>
        requires some { 1 ≤ limit }
        requires few { limit ≤ MAX_OPERATIONS }
        ensures size { IfOk result (λ made. made.0.size ≡ size_of extent limit) }
        ensures stations { IfOk result (λ made. made.1.items
            ≡ map opening_station (opening_ends made.0.table (size_of extent limit) extent.nodes)) }
    {
        let (lanes, ends) = Lanes::new(alloc, extent, limit)?;
        let mut stations = Vec::with_capacity(alloc, ends.len())?;
        for end in ends {
            stations.push(Station::new(end))?;
        }
        Ok((Fabric { lanes }, stations))
    }

    /// Joins the stations, and gives the machine that they made together: it can be looked at, driven on, or finished. The
    /// stations may come in any order, and need not have finished their work. Requires that they are stations of this
    /// fabric.
    ///
    /// Refused with the first of these, and then all comes back as it was:
    ///
    /// - Missing if the stations are not all of the fabric's, each once.
    /// - Memory if memory is refused.
    // Out of line, so that the places of its stations on the stack are free again when it returns.
    #[inline(never)]
    pub fn join(
        self,
        alloc: Global,
        stations: Vec<Station>,
    ) -> Result<Machine, (FinishFault, Fabric, Vec<Station>)>
        requires own { AreOf self (map end_in stations.items) }
        ensures state { IfOk result (IsStateOf self.size (map end_in stations.items)) }
        ensures all { IfOk result (λ _. AreAll self.size.nodes (map end_in stations.items)) }
        ensures missing { IfErr result (λ back. back.0 ≡ Missing →
            ¬ AreAll self.size.nodes (map end_in stations.items)) }
        ensures memory { IfErr result (λ back. back.0 ≡ Memory →
            AreAll self.size.nodes (map end_in stations.items)) }
        ensures fabric { IfErr result (λ back. back.1 ≡ self) }
        ensures stations { IfErr result (λ back. back.2.items ≡ stations.items) }
    {
        match self.lanes.join(alloc, stations) {
            Ok(machine) => Ok(machine),
            Err((fault, lanes, stations)) => Err((fault, Fabric { lanes }, stations)),
        }
    }

    /// Joins the stations as `join` does, and gives the logs of all of them, and the last contents of each line.
    pub fn finish(
        self,
        alloc: Global,
        stations: Vec<Station>,
    ) -> Result<Finished, (FinishFault, Fabric, Vec<Station>)>
        requires own { AreOf self (map end_in stations.items) }
        ensures gathered { IfOk result (λ done.
            AreGathered self.size (map end_in stations.items) done.logs done.last) }
        ensures all { IfOk result (λ _. AreAll self.size.nodes (map end_in stations.items)) }
        ensures logs { IfOk result (λ done. HaveLogs (map end_in stations.items) done.logs) }
        ensures within { IfOk result (λ done. AreWithin (length done.last) done.logs) }
        ensures lines { IfOk result (λ done. length done.last ≡ self.size.lines) }
        ensures lawful { IfOk result (λ done. Lawful done.logs done.last) }
        ensures consistent { IfOk result
            (λ done. IsSequentiallyConsistent done.logs done.last) }
        ensures missing { IfErr result (λ back. back.0 ≡ Missing →
            ¬ AreAll self.size.nodes (map end_in stations.items)) }
        ensures memory { IfErr result (λ back. back.0 ≡ Memory →
            AreAll self.size.nodes (map end_in stations.items)) }
        ensures fabric { IfErr result (λ back. back.1 ≡ self) }
        ensures stations { IfErr result (λ back. back.2.items ≡ stations.items) }
    {
        let (logs, last) = self.join(alloc, stations)?.finish(alloc);
        Ok(Finished { logs, last })
    }
}
