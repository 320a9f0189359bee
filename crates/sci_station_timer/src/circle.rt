//! Stations in one thread, each a round at a time in a circle.

ghost use Rattle.std.specs.Prelude.{◌≤◌, All, IfOk, length};
ghost use Rattle.sci_words.specs.declared.limits.TheConstants.{MAX_OPERATIONS};
ghost use Rattle.sci_drive.specs.Driving.{IsDriven};
ghost use Rattle.sci_station.specs.Station.{node_in};

use crate::runner::Runner;
use sci_station::Fabric;
use sci_text::{Script, operations_by_node};
use sci_threads::new_stations_are_fresh;
use sci_words::{Extent, MAX_OPERATIONS, Op};
use std::alloc::{AllocError, Global};
use std::io;
use std::time::{CpuClock, Duration};

/// After this many rounds a run is given up.
const MOST_ROUNDS: u32 = 1_000_000_000;

/// A run of a script.
#[derive(Clone, Copy)]
pub struct Run {
    /// The rounds that it took.
    pub rounds: u32,
    /// The processor time of these rounds, without the making of the stations.
    pub time: Duration,
}

/// Runs a script on new stations until each operation is answered. None if it isn't after 1,000,000,000 rounds. Refused if
/// memory is, or the clock.
pub fn timed_run<C: CpuClock>(
    clock: &C,
    alloc: Global,
    script: &Script,
) -> io::Result<Option<Run>> {
    let operations = operations_by_node(alloc, script)?;
    let mut runners = new_runners(alloc, script.extent(), &operations)?;
    let start = clock.process_cpu_time()?;
    let Some(rounds) = rounds(&mut runners)? else {
        return Ok(None);
    };
    let time = clock.process_cpu_time()?.saturating_sub(start);
    Ok(Some(Run { rounds, time }))
}

/// New stations, each with its operations.
fn new_runners<'a>(
    alloc: Global,
    extent: Extent,
    operations: &'a [Vec<Op>],
) -> Result<Vec<Runner<'a>>, AllocError>
    requires few { All (λ own. length own.items ≤ MAX_OPERATIONS) operations.now }
    ensures driven { IfOk result (λ runners. All
        (λ runner. IsDriven runner.driver (node_in runner.station)) runners.items) }
{
    let (_fabric, stations) = Fabric::new(alloc, extent, MAX_OPERATIONS)?;
    new_stations_are_fresh();
    let mut runners = Vec::with_capacity(alloc, stations.len())?;
    for (station, own) in stations.into_iter().zip(operations) {
        runners.push(Runner::new(station, own))?;
    }
    Ok(runners)
}

/// Does rounds until each operation is answered, and gives their number. None if some isn't after 1,000,000,000 rounds.
fn rounds(runners: &mut [Runner]) -> Result<Option<u32>, AllocError>
    requires driven { All
        (λ runner. IsDriven runner.driver (node_in runner.station)) runners.old }
{
    for round in 1..=MOST_ROUNDS {
        if all_answered(runners)? {
            return Ok(Some(round));
        }
    }
    Ok(None)
}

/// Does a round of each. Whether all are answered then.
fn all_answered(runners: &mut [Runner]) -> Result<bool, AllocError>
    requires driven { All
        (λ runner. IsDriven runner.driver (node_in runner.station)) runners.old }
    ensures driven { All
        (λ runner. IsDriven runner.driver (node_in runner.station)) runners.new }
{
    let mut all = true;
    for n in 0..runners.len() {
        if !runners[n].round()? {
            all = false;
        }
    }
    Ok(all)
}
