//! One order of all entries that one memory of one thread explains, or why there is none.

ghost use Rattle.std.specs.Prelude.{◌≡◌, ◌<◌, ◌↔◌, IfOk, length};
ghost use Rattle.sci_history.specs.{Audit.{AreWithin}, Cycle.{IsOrderVerdict, IsOrdered}, Lawful.{Lawful}};
ghost use Rattle.sci_history.specs.Sequential.{IsSequentiallyConsistent};

use crate::faults::LineFault;
use crate::last::Last;
use crate::logs::Logs;
use crate::order_verdict::OrderVerdict;
use crate::placing::{Judged, Placed, judge_lines, place_all};
use crate::waiting::cycle;
use sci_words::MAX_NODES;
use std::alloc::{AllocError, Global};

/// Looks for one order of all entries that makes logs sequentially consistent with last contents. If the logs aren't
/// lawful, the answer is the fault that an audit reports; else an order, if there is one; else a cycle, which shows
/// that there is none. The cycle has at most 32 entries, and none can be left out: none comes after another of the cycle
/// than the next. Refused only if a growth was. It takes the time of an audit, and then time linear in the number of
/// entries. Requires that each entry's line is one of `last`, and its word below 8.
pub fn sequential_order<'a>(
    alloc: Global,
    logs: &'a Logs,
    last: &Last,
) -> Result<OrderVerdict<'a>, AllocError>
    requires { AreWithin (length last.now) logs.now }
    ensures verdict { IfOk result (IsOrderVerdict logs.now last.now) }
    ensures order { IfOk result (λ verdict. IsOrdered verdict ↔
        (Lawful logs.now last.now × IsSequentiallyConsistent logs.now last.now)) }
{
    let loads = match judge_lines(alloc, logs, last)? {
        Judged::Fault(line, LineFault { kind, at }) => {
            return Ok(OrderVerdict::Fault { line, kind, at });
        }
        Judged::Loads(loads) => loads,
    };
    let Placed { next, order } = place_all(alloc, logs, &loads)?;
    for node in 0..MAX_NODES {
        if next[node as usize] < logs.of(node).len() {
            return Ok(OrderVerdict::Cycle(cycle(alloc, logs, &next, node)?));
        }
    }
    Ok(OrderVerdict::Order(order))
}
