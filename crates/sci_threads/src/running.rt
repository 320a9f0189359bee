//! A script that is run by threads.

ghost use Rattle.std.specs.Prelude.{◌≡◌, ◌≤◌, All, IfOk, true, length};
ghost use Rattle.sci_words.specs.declared.limits.TheConstants.{MAX_OPERATIONS};
ghost use Rattle.sci_history.specs.{Lawful.{Lawful}, Sequential.{AreInProgramOrder, IsSequentiallyConsistent}};
ghost use Rattle.sci_core.specs.{Outcome.{logs_of}, Size.{size_of}};
ghost use Rattle.sci_lanes.specs.Gathering.{IsLedTo};
ghost use Rattle.sci_drive.specs.declared.driver.Issuing.TheVariants.{Ahead, InOrder};
ghost use Rattle.sci_drive.specs.Script.{IsFrontOf, IsLogOf, IsWholeLogOf};
ghost use Rattle.sci_drive.specs.ScriptLogs.{HaveFrontLogsOf, HaveLogsOf, HaveWholeLogsOf, IsOfEachLog};
ghost use Rattle.sci_threads.specs.Shares.{AreLedTo};
ghost use Rattle.sci_text.specs.Script.{operations_of};
ghost use Rattle.sci_drive.specs.ScriptLogs.{size_for};
ghost use Rattle.sci_threads.specs.{Shares.{own_of}, Slices.{AreDrivenThrough}};

use crate::shares::{ThreadPlan, gathered, run_all, shares};
use sci_core::Machine;
use sci_drive::{Gate, Issuing};
use sci_history::{Last, Logs};
use sci_lanes::FinishFault;
use sci_station::Fabric;
use sci_text::{Script, operations_by_node};
use sci_words::{Extent, MAX_OPERATIONS};
use std::alloc::{AllocError, Global};
use std::thread::Threads;

/// Runs the operations of each node: its station is driven through them, with its own gate, in a thread of its own, for at
/// most as many turns as the plan says. If a thread hasn't begun after some 250,000 turns of another, as when it can't be
/// made, all nodes go on in the calling thread, a turn each in a circle. Gives the machine that the stations made, which can
/// be looked at, driven on, or finished; and whether all nodes have finished. Requires that there are one gate and one list of
/// at most 65,536 operations for each node. Refused if memory is.
///
/// - A schedule leads the machine to its state, whatever the threads did.
/// - In each node's log each entry has the operation of the node that its serial names, and no serial stands twice.
/// - If all have finished, each operation has just one entry.
/// - Each node is driven in slices, one after another: each slice is rounds of the node's driver with the node's own gate, as
///   `Driver::go_on` promises. The node's events in the schedule are those of these rounds: what it issues and performs, and
///   whole turns by its policy. If a node has finished, the last call of its gate was an `all_done` that answered true. Else
///   it has used up its turns.
///
/// Ahead, a node has up to four operations pending at once, each on another line, and may perform them in another order than
/// they stand. In order, it issues an operation only when all before it are performed. So its log has its first operations,
/// in their order, whether it has finished or not.
pub fn run_plan<R: Threads + Sync, G: Gate + Send + Drop>(
    rt: &R,
    alloc: Global,
    extent: Extent,
    gates: Vec<G>,
    plan: ThreadPlan<'_>,
) -> Result<(Machine, bool), AllocError>
    requires gates { length gates.items ≡ extent.nodes }
    requires lists { length plan.operations.now ≡ extent.nodes }
    requires few { All (λ own. length own.items ≤ MAX_OPERATIONS) plan.operations.now }
    ensures named { IfOk result (λ ran.
        IsOfEachLog IsLogOf extent.nodes (own_of plan.entry.operations.now) (logs_of ran.0)) }
    ensures whole { IfOk result (λ ran. ran.1 ≡ true →
        IsOfEachLog IsWholeLogOf extent.nodes (own_of plan.entry.operations.now) (logs_of ran.0)) }
    ensures ordered { IfOk result
        (λ ran. plan.entry.issuing ≡ InOrder → AreInProgramOrder (logs_of ran.0)) }
    ensures front { IfOk result (λ ran. plan.entry.issuing ≡ InOrder →
        IsOfEachLog IsFrontOf extent.nodes (own_of plan.entry.operations.now) (logs_of ran.0)) }
    ensures rounds { IfOk result (λ ran. (led : IsLedTo (size_of extent MAX_OPERATIONS) ran.0)
        × AreDrivenThrough G.hears plan.entry.turns plan.entry.issuing
        (own_of plan.entry.operations.now) gates.items ran.0 led.schedule ran.1) }
{
    let (fabric, stations) = Fabric::new(alloc, extent, MAX_OPERATIONS)?;
    let turns = plan.turns;
    let mut shares = shares(alloc, stations, gates, plan)?;
    run_all(rt, &mut shares, turns);
    let (stations, finished) = gathered(alloc, shares)?;
    match fabric.join(alloc, stations) {
        Ok(machine) => Ok((machine, finished)),
        Err((FinishFault::Memory, _fabric, _stations)) => Err(AllocError),
        Err((FinishFault::Missing, _fabric, _stations)) => unreachable!(),
    }
}

/// Runs a script, as `run_plan` does with the operations of each node in the script. Requires that there is one gate for each
/// node.
pub fn run_to_machine<R: Threads + Sync, G: Gate + Send + Drop>(
    rt: &R,
    alloc: Global,
    script: &Script,
    gates: Vec<G>,
    issuing: Issuing,
    turns: u32,
) -> Result<(Machine, bool), AllocError>
    requires gates { length gates.items ≡ script.now.nodes }
    ensures named { IfOk result (λ ran. HaveLogsOf script.now (logs_of ran.0)) }
    ensures whole { IfOk result
        (λ ran. ran.1 ≡ true → HaveWholeLogsOf script.now (logs_of ran.0)) }
    ensures ordered { IfOk result
        (λ ran. issuing ≡ InOrder → AreInProgramOrder (logs_of ran.0)) }
    ensures front { IfOk result
        (λ ran. issuing ≡ InOrder → HaveFrontLogsOf script.now (logs_of ran.0)) }
    ensures rounds { IfOk result (λ ran. (led : IsLedTo (size_for script.now) ran.0)
        × AreDrivenThrough G.hears turns issuing
        (λ node. operations_of node script.now.operations) gates.items ran.0 led.schedule ran.1) }
{
    let operations = operations_by_node(alloc, script)?;
    let plan = ThreadPlan {
        operations: &operations,
        issuing,
        turns,
    };
    run_plan(rt, alloc, script.extent(), gates, plan)
}

/// Runs a script ahead, as `run_to_machine` does. Gives the logs and the last contents of the machine, and whether all nodes
/// have finished.
pub fn run_nodes<R: Threads + Sync, G: Gate + Send + Drop>(
    rt: &R,
    alloc: Global,
    script: &Script,
    gates: Vec<G>,
    turns: u32,
) -> Result<(Logs, Last, bool), AllocError>
    requires gates { length gates.items ≡ script.now.nodes }
    ensures named { IfOk result (λ ran. HaveLogsOf script.now ran.0) }
    ensures whole { IfOk result (λ ran. ran.2 ≡ true → HaveWholeLogsOf script.now ran.0) }
    ensures led { IfOk result (λ ran. AreLedTo (size_for script.now) ran.0 ran.1) }
    ensures lawful { IfOk result (λ ran. Lawful ran.0 ran.1) }
    ensures consistent { IfOk result (λ ran. IsSequentiallyConsistent ran.0 ran.1) }
    ensures rounds { IfOk result (λ ran. (led : AreLedTo (size_for script.now) ran.0 ran.1)
        × AreDrivenThrough G.hears turns Ahead (λ node. operations_of node script.now.operations)
        gates.items led.core led.led.schedule ran.2) }
{
    let (machine, finished) = run_to_machine(rt, alloc, script, gates, Issuing::Ahead, turns)?;
    let (logs, last) = machine.finish(alloc);
    Ok((logs, last, finished))
}

/// Runs a script in order, as `run_to_machine` does, and gives what `run_nodes` gives. The run is sequentially consistent in
/// Lamport's sense ("How to Make a Multiprocessor Computer That Correctly Executes Multiprocess Programs", 1979): its result
/// is that of all operations in one order, in which those of each node stand in the order of the script.
pub fn run_in_order<R: Threads + Sync, G: Gate + Send + Drop>(
    rt: &R,
    alloc: Global,
    script: &Script,
    gates: Vec<G>,
    turns: u32,
) -> Result<(Logs, Last, bool), AllocError>
    requires gates { length gates.items ≡ script.now.nodes }
    ensures ordered { IfOk result (λ ran. AreInProgramOrder ran.0) }
    ensures front { IfOk result (λ ran. HaveFrontLogsOf script.now ran.0) }
    ensures consistent { IfOk result (λ ran. IsSequentiallyConsistent ran.0 ran.1) }
    ensures named { IfOk result (λ ran. HaveLogsOf script.now ran.0) }
    ensures whole { IfOk result (λ ran. ran.2 ≡ true → HaveWholeLogsOf script.now ran.0) }
    ensures led { IfOk result (λ ran. AreLedTo (size_for script.now) ran.0 ran.1) }
    ensures lawful { IfOk result (λ ran. Lawful ran.0 ran.1) }
    ensures rounds { IfOk result (λ ran. (led : AreLedTo (size_for script.now) ran.0 ran.1)
        × AreDrivenThrough G.hears turns InOrder (λ node. operations_of node script.now.operations)
        gates.items led.core led.led.schedule ran.2) }
{
    let (machine, finished) = run_to_machine(rt, alloc, script, gates, Issuing::InOrder, turns)?;
    let (logs, last) = machine.finish(alloc);
    Ok((logs, last, finished))
}
