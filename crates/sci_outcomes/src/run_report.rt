//! The command `run`: the schedule of a script's run.

ghost use Rattle.std.specs.Prelude.{◌≡◌, ◌⊎◌, false, true};
ghost use Rattle.sci_text.specs.{declared.fault.TextFaultKind.TheVariants.{Memory, TooMany}, Tap.{has_failed}};
ghost use Rattle.sci_command.specs.{Answer.{HasAnswered}, declared.outcome.Outcome.{Outcome}};
ghost use Rattle.sci_outcomes.specs.RunAnswer.{IsLongRun, IsRunAnswer, IsRunRefusal};

use sci_command::{Answer, Answered, Note, Outcome, Refusal, read_script};
use sci_drive::Issuing;
use sci_runs::{RunFault, RunPlan, run_script};
use sci_text::{Tap, TextFaultKind, schedule_text};
use sci_words::MAX_TURNS;
use std::alloc::Global;
use std::io::Read;

/// What is asked of a run.
#[derive(Clone, Copy)]
pub struct RunRequest {
    /// What the order of turns is drawn from, or None for a turn each in a circle.
    pub seed: Option<u64>,
    /// When the operations of a node are submitted.
    pub issuing: Issuing,
    /// How many turns the nodes take at most, all together, or None for 1,000,000,000.
    pub turns: Option<u64>,
}

/// How a run ends that is done, or has used up its turns.
fn outcome_of(done: bool) -> Outcome
    ensures yes { done ≡ true → result ≡ Outcome.Done }
    ensures no { done ≡ false → result ≡ Outcome.Unlawful }
{
    if done {
        Outcome::Done
    } else {
        Outcome::Unlawful
    }
}

/// What is said of a run that has too many events.
const TOO_LONG: &str = "the run has more than 500,000 events";

/// Why a run is refused, as a fault of the whole input.
fn refusal_of(fault: RunFault) -> Refusal
    ensures line { result.fault.line ≡ 0 }
    ensures kind { (result.fault.kind ≡ TooMany) ⊎ (result.fault.kind ≡ Memory) }
    ensures many { result.fault.kind ≡ TooMany → fault ≡ RunFault.TooMany }
{
    let (kind, note) = match fault {
        RunFault::Memory => (TextFaultKind::Memory, Note::Kind),
        RunFault::TooMany => (TextFaultKind::TooMany, Note::Fixed(TOO_LONG)),
    };
    Refusal::of_input(kind, note)
}

/// Reads a script to its end, runs it by the policy on a new machine whose nodes take one turn after another, and gives the
/// schedule of the run: every event, in its order. It is Done if each operation of the script was performed, and Unlawful if
/// the turns were used up first, which needs a seed or a limit of turns. A script with a fault is refused, as are a reader that fails, too long an input and running
/// out of memory, at line 0, and a run of more than 500,000 events, as `too-many` at line 0. After a failed read nothing more
/// is read.
pub fn run<R: Read>(alloc: Global, request: RunRequest, reader: &mut Tap<R>) -> Answered
    requires { has_failed reader.old ≡ false }
    ensures { HasAnswered R.remaining reader.old reader.new (IsRunAnswer request)
        (IsRunRefusal (IsLongRun request)) result }
{
    let script = read_script(alloc, reader)?;
    let plan = RunPlan {
        seed: request.seed,
        issuing: request.issuing,
        turns: request.turns.unwrap_or(u64::from(MAX_TURNS)),
    };
    let run = match run_script(alloc, &script, plan) {
        Ok(run) => run,
        Err(fault) => return Err(refusal_of(fault)),
    };
    let text = schedule_text(alloc, &run.schedule)?;
    Ok(Answer {
        text,
        outcome: outcome_of(run.done),
    })
}
