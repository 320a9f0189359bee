//! The command `threads`: the log of a run of a script with one thread a node.

ghost use Rattle.std.specs.Prelude.{◌≡◌, false};
ghost use Rattle.sci_text.specs.{FirstFault.{IsTold}, ScriptFault.{IsScriptFault}, Tap.{has_failed}};
ghost use Rattle.sci_command.specs.Answer.{HasAnswered};
ghost use Rattle.scimem.specs.ThreadsAnswer.{IsThreadsAnswer};

use sci_command::{Answer, Answered, Outcome, read_script};
use sci_drive::Issuing;
use sci_text::{Tap, logs_text, operations_by_node};
use sci_threads::{ThreadPlan, YieldingGate, run_plan};
use std::alloc::Global;
use std::io::Read;
use std::sync::atomic::AtomicU64;
use std::thread::Threads;

/// Reads a script to its end, runs it with one thread a node, each for at most `turns` turns, and gives the logs and the
/// last contents in format 2: Done if each node has come to its end, else Unlawful. A script with a fault is
/// refused, as by `oracle`. After a failed read nothing more is read.
///
/// The logs are lawful and sequentially consistent, whatever the threads did. A node whose thread can't be made is driven
/// without one, and the run may then end Unlawful.
pub fn threads<T: Threads + Sync, R: Read>(
    rt: &T,
    alloc: Global,
    reader: &mut Tap<R>,
    turns: u32,
) -> Answered
    requires { has_failed reader.old ≡ false }
    ensures { HasAnswered R.remaining reader.old reader.new (IsThreadsAnswer turns)
        (IsTold IsScriptFault) result }
{
    let script = read_script(alloc, reader)?;
    let extent = script.extent();
    let operations = operations_by_node(alloc, &script)?;
    drop(script);
    let done = AtomicU64::new(0);
    let gates = YieldingGate::for_nodes(alloc, extent.nodes, &done)?;
    let plan = ThreadPlan {
        operations: &operations,
        issuing: Issuing::Ahead,
        turns,
    };
    let (machine, finished) = run_plan(rt, alloc, extent, gates, plan)?;
    drop(operations);
    let (logs, last) = machine.finish(alloc);
    let text = logs_text(alloc, extent.nodes, &logs, &last)?;
    let outcome = if finished {
        Outcome::Done
    } else {
        Outcome::Unlawful
    };
    Ok(Answer { text, outcome })
}
