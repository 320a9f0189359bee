//! A node's turn on a machine that is lent.

ghost use Rattle.std.specs.Prelude.{◌≡◌, ◌<◌, true, None, IfOk, IsErr};
ghost use Rattle.sci_core.specs.Core.{node_at};
ghost use Rattle.sci_policy.specs.{Rest.{MayIdle}, Turn.{MayPerform, is_idle}, Worker.{HasSameWork}};
ghost use Rattle.sci_turn.specs.{Idle.{IsIdleTurn}, Moves.{IsTurn}, Posts.{post_at}, Whole.{IsWholeTurn}};
ghost use Rattle.sci_locked.specs.Lent.{IsPartOfTurn, KeepsRoom};

use crate::post::Lent;
use sci_core::Machine;
use sci_policy::{Policy, Progress};
use sci_turn::take_turn;
use std::alloc::AllocError;

/// Takes a turn of a node. It sends the answer that waits; accepts up to four answers from each node; serves or refuses
/// up to four requests from each node, beginning after the one served last, and sends each answer; and asks up to four
/// times what the policy wants. A lane takes at most four packets here. Requires that there is such a node.
///
/// - The policy counts the turn, decides each request that is taken, and wants each ask.
/// - The report counts the events. A line that it names has an operation that can be performed.
/// - Nothing is reported only if there was nothing to do. Then no operation is pending at the node, or there are other nodes
///   and some line awaits an answer.
///
/// From the state in which a machine begins, and from each that such turns, `submit_on` and `perform_on` lead to, turns go
/// on: while an operation is pending, some turn reports something before each node has taken 64. And operations are performed
/// in time, if each node performs what it can before each of its turns (`operations_are_performed` of `sci_fair`): submit,
/// perform, and then take a turn.
///
/// A machine that other events have led here may stand still for ever: two nodes may each keep a Cread of the other until
/// its home answers, and what the home has to answer stands behind that Cread. After `Machine::drain` turns go on.
///
/// Refused if memory is, for a lane; what was done before is kept.
pub fn turn_on(machine: &mut Machine, policy: &mut Policy, node: u8) -> Result<Progress, AllocError>
    requires { node < machine.old.size.nodes }
    ensures turn { IfOk result (λ progress. IsTurn policy.old (post_at node machine.old)
        policy.new (post_at node machine.new) progress) }
    ensures kept { IsErr result → IsPartOfTurn node policy.old machine.old policy.new machine.new }
    ensures ready { IfOk result (λ progress. MayPerform (node_at machine.new node) progress.ready) }
    ensures whole { IfOk result (λ progress. IsWholeTurn policy.old (post_at node machine.old)
        policy.new (post_at node machine.new) progress) }
    ensures idle { IfOk result (λ progress. is_idle progress ≡ true → IsIdleTurn
        policy.old (post_at node machine.old) policy.new (post_at node machine.new)) }
    ensures same { IfOk result (λ progress. is_idle progress ≡ true → machine.new ≡ machine.old) }
    ensures rest { IfOk result (λ progress. is_idle progress ≡ true →
        MayIdle (node_at machine.new node)) }
    ensures work { HasSameWork (node_at machine.old node) (node_at machine.new node) }
    ensures room { KeepsRoom machine.old machine.new }
    ensures size { machine.new.size ≡ machine.old.size }
{
    // Read, so that the prover knows that the state is reached.
    let _extent = machine.extent();
    let mut progress = Progress::new();
    let mut lent = Lent { machine, node };
    take_turn(&mut lent, policy, &mut progress)?;
    Ok(progress)
}
