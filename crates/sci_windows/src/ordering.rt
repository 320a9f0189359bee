//! One order of all entries of a window.

ghost use Rattle.std.specs.Prelude.{◌≡◌, ◌↔◌, IfOk, length};
ghost use Rattle.sci_history.specs.Audit.{AreWithin};
ghost use Rattle.sci_windows.specs.{Order.{AreOrderedFrom, IsOrderFrom, IsOrderedFrom}, Relative.{AreEarly}, Window.{LawfulFrom}};

use crate::back::{in_turn, nodes_of, steps_in};
use crate::relative::{are_few, relative_contents, relative_logs};
use crate::window_order::WindowOrder;
use sci_history::{Last, Logs, OrderVerdict, sequential_order};
use std::alloc::{AllocError, Global};

/// Looks for one order of all entries of logs that begin with the first contents: one that keeps the order of each node's
/// log, and that one memory of one thread explains, from the first contents to the last ones. If the window isn't lawful, the
/// answer is the fault that `audit_from` reports; else an order, if there is one; else a cycle, as of
/// `sci_history::sequential_order`. When it is refused and what it requires is as of `audit_from`.
pub fn order_from(
    alloc: Global,
    logs: &Logs,
    first: &Last,
    last: &Last,
) -> Result<WindowOrder, AllocError>
    requires within { AreWithin (length last.now) logs.now }
    requires lines { length first.now ≡ length last.now }
    requires early { AreEarly first.now }
    ensures found { IfOk result (IsOrderFrom logs.now first.now last.now) }
    ensures order { IfOk result (λ found. IsOrderedFrom found ↔
        (LawfulFrom logs.now first.now last.now × AreOrderedFrom logs.now first.now last.now)) }
{
    if !are_few(logs) {
        return Err(AllocError);
    }
    let relative = relative_logs(alloc, logs, first)?;
    let contents = relative_contents(alloc, first, last)?;
    match sequential_order(alloc, &relative, &contents)? {
        OrderVerdict::Fault { line, kind, at } => Ok(WindowOrder::Fault { line, kind, at }),
        OrderVerdict::Order(order) => {
            let nodes = nodes_of(alloc, &order)?;
            let made = in_turn(alloc, logs, &nodes)?;
            Ok(WindowOrder::Order(made))
        }
        OrderVerdict::Cycle(steps) => {
            let made = steps_in(alloc, logs, &steps)?;
            Ok(WindowOrder::Cycle(made))
        }
    }
}
