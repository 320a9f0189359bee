//! The command `audit`: whether a log is lawful, or the first rule that it breaks.

ghost use Rattle.std.specs.Prelude.{◌≡◌, false};
ghost use Rattle.sci_text.specs.{FirstFault.{IsTold}, LogFault.{IsLogFault}, Tap.{has_failed}};
ghost use Rattle.sci_command.specs.{Answer.{HasAnswered}, declared.outcome.Outcome.{Outcome}};
ghost use Rattle.scimem.specs.LogAnswer.{IsAuditAnswer, outcome_of};

use sci_command::{Answer, Answered, Outcome, read_logs, verdict_line};
use sci_history::{Verdict, audit};
use sci_text::Tap;
use std::alloc::Global;
use std::io::Read;

/// How an audit ends.
fn end_of(verdict: Verdict) -> Outcome
    ensures { result ≡ outcome_of verdict }
{
    match verdict {
        Verdict::Lawful => Outcome::Done,
        Verdict::Fault { .. } => Outcome::Unlawful,
    }
}

/// Reads a log to its end and judges it: `lawful` is Done, and `fault K NAME line L node N serial S` is Unlawful, the
/// first fault of the lowest line that has one (without node and serial if the last contents differ). A text with
/// a fault is refused at its line, as are a reader that fails, too long an input and running out of memory, at line 0.
/// After a failed read nothing more is read.
pub fn audit_text<R: Read>(alloc: Global, reader: &mut Tap<R>) -> Answered
    requires { has_failed reader.old ≡ false }
    ensures { HasAnswered R.remaining reader.old reader.new IsAuditAnswer (IsTold IsLogFault) result }
{
    let (_, logs, last) = read_logs(alloc, reader)?;
    let verdict = audit(alloc, &logs, &last)?;
    let text = verdict_line(alloc, verdict)?;
    Ok(Answer {
        text,
        outcome: end_of(verdict),
    })
}
