//! A node's turn on a machine whose events are recorded.

ghost use Rattle.std.specs.Prelude.{◌≡◌, ◌≢◌, ◌<◌, true, None, IfOk, IsErr};
ghost use Rattle.sci_core.specs.Core.{node_at};
ghost use Rattle.sci_policy.specs.{declared.progress.Progress.{Progress}, Rest.{MayIdle}, Turn.{is_idle}, Worker.{HasSameWork, IsNodeTurn}};
ghost use Rattle.sci_runs.specs.{Deeds.{IsTurnDone, IsTurnSoFar}, Recorded.{KeepsLoss, SparesOthers, course_of}};

use crate::post::Lent;
use crate::recorder::Recorder;
use sci_policy::{Policy, Progress};
use sci_turn::take_turn;
use std::alloc::AllocError;

/// Takes a turn of a node. Requires that there is such a node. Refused where an event is lost, and the recorder has the
/// reason; what was done before is kept.
pub(crate) fn turn_on(
    recorder: &mut Recorder,
    policy: &mut Policy,
    node: u8,
) -> Result<Progress, AllocError>
    requires { node < recorder.old.core.size.nodes }
    ensures done { IfOk result
        (IsTurnDone node policy.old (course_of recorder.old) policy.new (course_of recorder.new)) }
    ensures part { IsErr result → (progress : Progress) ×
        IsTurnSoFar node policy.old (course_of recorder.old) policy.new (course_of recorder.new) progress }
    ensures keeps { KeepsLoss recorder.old recorder.new }
    ensures lost { IsErr result → recorder.new.lost ≢ None }
    ensures turn { IfOk result
        (IsNodeTurn (node_at recorder.old.core node) (node_at recorder.new.core node)) }
    ensures rest { IfOk result (λ progress. is_idle progress ≡ true →
        MayIdle (node_at recorder.new.core node)) }
    ensures work { HasSameWork (node_at recorder.old.core node) (node_at recorder.new.core node) }
    ensures spares { SparesOthers node recorder.old.core recorder.new.core }
{
    let mut progress = Progress::new();
    let mut lent = Lent { recorder, node };
    take_turn(&mut lent, policy, &mut progress)?;
    Ok(progress)
}
