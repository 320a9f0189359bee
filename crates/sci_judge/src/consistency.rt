//! Whether one order of all operations explains a trace.

ghost use Rattle.std.specs.{Bool.{OnTrue}, Prelude.{IfOk}};
ghost use Rattle.sci_judge.specs.{Access.{AreKnown}, Consistency.{AreAllForced, IsConsistency, IsOrdering}};

use crate::cycle::Link;
use crate::finding::Freedom;
use crate::judging::{Judgement, SiteVersions, Way};
use crate::linking::order_cycle;
use crate::logging::{NoLog, log_of};
use crate::trace::Trace;
use sci_history::{OrderVerdict, sequential_order};
use std::alloc::{AllocError, Global};

/// Whether one order of all operations explains a trace.
#[derive(Debug, Drop)]
pub enum Consistency {
    /// One does.
    Sequential,
    /// None does, whatever the versions: each of these operations stands before the next one, and the last one before the first.
    Cycle(Vec<Link>),
    /// None does, since no other versions explain the operations.
    NotSequential,
    /// Neither was found.
    Unknown,
}

/// Whether no other versions explain the operations at any address.
fn are_forced(sites: &[SiteVersions]) -> bool
    ensures { OnTrue result (AreAllForced sites.now) }
{
    for site in sites {
        match site.freedom {
            Freedom::Forced => {}
            Freedom::Free(_) | Freedom::Unknown => return false,
        }
    }
    true
}

/// What the log by versions at each address says: Sequential if it is sequentially consistent, NotSequential if it isn't and no other
/// versions explain the operations, and else Unknown.
#[inline(never)]
fn by_log(
    alloc: Global,
    trace: &Trace,
    sites: &[SiteVersions],
    timed: bool,
) -> Result<Consistency, AllocError>
    requires { AreKnown trace.now.accesses.items }
    ensures { IfOk result (IsConsistency timed trace.now sites.now) }
{
    let log = match log_of(alloc, trace, sites) {
        Ok(log) => log,
        Err(NoLog::Memory(error)) => return Err(error),
        Err(_) => return Ok(Consistency::Unknown),
    };
    match sequential_order(alloc, &log.logs, &log.last)? {
        OrderVerdict::Order(_) => Ok(Consistency::Sequential),
        OrderVerdict::Cycle(_) if are_forced(sites) => Ok(Consistency::NotSequential),
        OrderVerdict::Cycle(_) | OrderVerdict::Fault { .. } => Ok(Consistency::Unknown),
    }
}

/// Whether one order of all operations explains a trace whose operations are explained by versions at each address: Sequential
/// if the log by these versions is sequentially consistent; Cycle if operations stand before one another in a circle, whatever the
/// versions; NotSequential if the log isn't sequentially consistent and no other versions explain the operations; and else Unknown.
/// With `timed`, Cycle is said of versions that respect times.
fn consistency_by(
    alloc: Global,
    trace: &Trace,
    sites: &[SiteVersions],
    timed: bool,
) -> Result<Consistency, AllocError>
    requires { AreKnown trace.now.accesses.items }
    ensures { IfOk result (IsConsistency timed trace.now sites.now) }
{
    let found = by_log(alloc, trace, sites, timed)?;
    match found {
        Consistency::Sequential => {}
        Consistency::Cycle(_) | Consistency::NotSequential | Consistency::Unknown => {
            if let Some(links) = order_cycle(alloc, trace, timed)? {
                return Ok(Consistency::Cycle(links));
            }
        }
    }
    Ok(found)
}

/// Whether one order of all operations explains a trace with this judgement, if that is asked for. Of a trace that isn't coherent it
/// isn't said. Refused only if memory is.
#[inline(never)]
pub fn consistency_of(
    alloc: Global,
    trace: &Trace,
    judgement: &Judgement,
    way: Way,
) -> Result<Option<Consistency>, AllocError>
    requires { AreKnown trace.now.accesses.items }
    ensures { IfOk result (IsOrdering way.timed way.ordered trace.now judgement.now) }
{
    match judgement {
        Judgement::Coherent(sites) if way.ordered => {
            Ok(Some(consistency_by(alloc, trace, sites, way.timed)?))
        }
        _ => Ok(None),
    }
}
