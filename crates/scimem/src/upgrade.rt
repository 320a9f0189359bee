//! The command `upgrade`: the same log in format 2.

ghost use Rattle.std.specs.Prelude.{◌≡◌, false};
ghost use Rattle.sci_text.specs.{FirstFault.{IsTold}, LogFault.{IsLogFault}, Tap.{has_failed}};
ghost use Rattle.sci_command.specs.Answer.{HasAnswered};
ghost use Rattle.scimem.specs.LogAnswer.{IsUpgradeAnswer};

use sci_command::{Answer, Answered, Outcome, read_logs};
use sci_text::{Tap, logs_text};
use std::alloc::Global;
use std::io::Read;

/// Reads a log to its end, and gives it in format 2: Done. It isn't judged, and its entries stay in their order. A
/// text with a fault is refused, as by `audit`. After a failed read nothing more is read.
pub fn upgrade<R: Read>(alloc: Global, reader: &mut Tap<R>) -> Answered
    requires { has_failed reader.old ≡ false }
    ensures { HasAnswered R.remaining reader.old reader.new IsUpgradeAnswer (IsTold IsLogFault) result }
{
    let (nodes, logs, last) = read_logs(alloc, reader)?;
    let text = logs_text(alloc, nodes, &logs, &last)?;
    Ok(Answer {
        text,
        outcome: Outcome::Done,
    })
}
