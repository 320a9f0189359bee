//! Audits and orders whose allocations are refused. With every allocation granted each gives its answer. `make faults`
//! refuses one allocation in turn: the call that needed it says so, and the same call then gives the answer.

ghost use Rattle.std.specs.Prelude.{IfOk, length};
ghost use Rattle.sci_history.specs.Audit.{AreWithin};

use crate::readers::{MEMORY, again};
use sci_history::{Last, Logs, OrderVerdict, Verdict, audit, sequential_order};
use sci_text::{Tap, TextFault, read_logs};
use std::alloc::AllocError;
use std::process::Abort;
use std::test::*;

/// Each of two nodes stores to one line and then loads the other. Node 1 sees the store of node 0.
const ORDERED: &str =
    "log 2 2 2\nlast 0 @1 1 0 0 0 0 0 0 0\nlast 1 @1 1 0 0 0 0 0 0 0\n0 0 store 0 0 1 = - @1\n0 1 load 1 0 = 0 @0\n1 0 store 1 0 1 = - @1\n1 1 load 0 0 = 1 @1\n";

/// The same, but neither sees the other's store.
const STALE: &str =
    "log 2 2 2\nlast 0 @1 1 0 0 0 0 0 0 0\nlast 1 @1 1 0 0 0 0 0 0 0\n0 0 store 0 0 1 = - @1\n0 1 load 1 0 = 0 @0\n1 0 store 1 0 1 = - @1\n1 1 load 0 0 = 0 @0\n";

/// The logs of a text.
fn logs_of(rt: &(impl Abort + AllocGlobal), log: &str) -> Result<(Logs, Last), TextFault>
    ensures { IfOk result (λ read. AreWithin (length read.1) read.0) }
{
    let (_nodes, logs, last) =
        again!(rt; read_logs(rt.alloc(), &mut Tap::new(log.as_bytes())), MEMORY)?;
    Ok((logs, last))
}

/// What a look for one order finds.
fn order_of<'a>(
    rt: &(impl Abort + AllocGlobal),
    logs: &'a Logs,
    last: &Last,
) -> Result<OrderVerdict<'a>, AllocError>
    requires { AreWithin (length last.now) logs.now }
{
    again!(rt; sequential_order(rt.alloc(), logs, last), AllocError)
}

#[test]
fn memory_for_an_audit(rt: HostRuntime) -> Result<(), Fail> {
    let (logs, last) = logs_of(&rt, STALE)?;
    let verdict = again!(rt; audit(rt.alloc(), &logs, &last), AllocError)?;
    assert_eq!(rt; verdict, Verdict::Lawful);
    Ok(())
}

#[test]
fn memory_for_an_order_and_for_a_cycle(rt: HostRuntime) -> Result<(), Fail> {
    for (log, has_order) in [(ORDERED, true), (STALE, false)] {
        let (logs, last) = logs_of(&rt, log)?;
        match order_of(&rt, &logs, &last)? {
            OrderVerdict::Order(entries) => assert!(rt; has_order && entries.len() == 4, "{log}"),
            OrderVerdict::Cycle(steps) => assert!(rt; !has_order && steps.len() == 4, "{log}"),
            other => return Err(Fail::new(format_args!("{other:?}"))),
        }
    }
    Ok(())
}
