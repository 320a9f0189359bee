//! A script that is run by the policy, one turn after another.

ghost use Rattle.std.specs.Prelude.{◌≡◌, ◌<◌, ◌≤◌, ◌+◌, ◌*◌, ℕ, true, false, None, IfErr, IfOk, length};
ghost use Rattle.sci_words.specs.declared.limits.TheConstants.{MAX_OPERATIONS};
ghost use Rattle.sci_core.specs.Core.{run as run_of};
ghost use Rattle.sci_drive.specs.ScriptLogs.{size_for};
ghost use Rattle.sci_runs.specs.{declared.fault.RunFault.TheVariants.{TooMany}, Played.{IsPlayed, IsTooLong}, Recorded.{raised}, Runs.{IsRunOf}};
ghost use Rattle.sci_runs.specs.Turns.{GivesTurns, circle_turns, finishing_windows, first_order, turns_in};
ghost use Rattle.sci_fair.specs.Steady.{HasWindows};

use crate::fault::RunFault;
use crate::order::Order;
use crate::table::Table;
use sci_core::Machine;
use sci_drive::Issuing;
use sci_text::{Schedule, Script, operations_by_node};
use std::alloc::Global;

/// How a script is run.
#[derive(Clone, Copy)]
pub struct RunPlan {
    /// What the order of turns is drawn from. Without it the nodes take a turn each in a circle.
    pub seed: Option<u64>,
    /// When the operations of a node are submitted.
    pub issuing: Issuing,
    /// How many turns the nodes take at most, all together.
    pub turns: u64,
}

/// A run of a script.
#[derive(Drop)]
pub struct Run {
    /// All events of the run, in their order.
    pub schedule: Schedule,
    /// The machine that they lead to. Its nodes may issue only as many operations as a node of the script has at most.
    pub machine: Machine,
    /// Whether each operation of the script was performed.
    pub done: bool,
    /// How many turns the nodes have taken, all together.
    pub turns: u64,
}

/// Runs a script by the policy on a new machine, whose nodes take one turn after another. It ends with the round in which the
/// last operation of the script is performed, whose turn is still taken, or when the turns are used up. While it isn't done, it
/// makes an event before each node has taken 64 turns. So in a circle 64 turns of each node for each of 500,001 events are
/// always enough: then the run is done, or has too many events.
///
/// And it is done in a time that depends on its size alone, however many events there may be: with S operations on L lines of
/// N nodes, (2S + 1)(141LN + 1) times 1,253 windows are enough. A window is a stretch of turns in which each node has one; in a
/// circle it is one turn of each node.
///
/// The same script and plan give the same run. Refused if memory is, or if there are more than 500,000 events.
pub fn run_script(alloc: Global, script: &Script, plan: RunPlan) -> Result<Run, RunFault>
    ensures run { IfOk result (λ run. IsRunOf script.now plan.issuing run.done run.schedule) }
    ensures played { IfOk result (λ run.
        IsPlayed script.now plan.issuing plan.seed run.turns run.done run.schedule) }
    ensures full { IfErr result (λ fault. fault ≡ TooMany →
        IsTooLong script.now plan.issuing plan.seed plan.turns) }
    ensures turns { IfOk result (λ run. run.turns ≤ plan.turns) }
    ensures all { IfOk result (λ run. run.done ≡ false → run.turns ≡ plan.turns) }
    ensures goes_on { IfOk result (λ run. (window : ℕ) →
        GivesTurns script.now.nodes window (first_order plan.seed) → run.done ≡ false →
        run.turns < window * (length run.schedule.events + 1)) }
    ensures circle { plan.seed ≡ None → circle_turns script.now.nodes ≤ plan.turns →
        IfOk result (λ run. run.done ≡ true) }
    ensures windows { IfOk result (λ run.
        HasWindows script.now.nodes (finishing_windows script.now)
        (turns_in script.now.nodes run.turns (first_order plan.seed)) → run.done ≡ true) }
    ensures finishes { plan.seed ≡ None →
        finishing_windows script.now * script.now.nodes ≤ plan.turns →
        IfOk result (λ run. run.done ≡ true) }
    ensures led { IfOk result (λ run. run_of (size_for script.now) run.schedule.events
        ≡ raised MAX_OPERATIONS run.machine) }
    ensures lines { IfOk result (λ run. run.machine.size.lines ≡ script.now.lines) }
{
    // Read, so that the prover knows that the script is good.
    let _all = script.operations();
    let operations = operations_by_node(alloc, script)?;
    let mut table = Table::new(alloc, script, &operations, plan.issuing)?;
    let mut order = Order::new(plan.seed);
    let ran = table.go_on(&mut order, plan.turns)?;
    let ended = table.finish();
    Ok(Run {
        schedule: ended.schedule,
        machine: ended.machine,
        done: ran.done,
        turns: ran.turns,
    })
}
