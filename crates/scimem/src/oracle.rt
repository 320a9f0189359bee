//! The command `oracle`: the log of one memory that does a script's operations in text order.

ghost use Rattle.std.specs.Prelude.{◌≡◌, false};
ghost use Rattle.sci_text.specs.{FirstFault.{IsTold}, ScriptFault.{IsScriptFault}, Tap.{has_failed}};
ghost use Rattle.sci_command.specs.Answer.{HasAnswered};
ghost use Rattle.scimem.specs.OracleAnswer.{IsOracleAnswer};

use sci_command::{Answer, Answered, Outcome, read_script};
use sci_history::run_oracle;
use sci_text::{Tap, logs_text};
use std::alloc::Global;
use std::io::Read;

/// Reads a script to its end, does its operations in text order on one memory of one thread, and gives their log in
/// format 2: Done. A script with a fault is refused at its line, as `syntax`, `range` or `too-many`; at line 0 are refused a
/// reader that fails (`read`), an input of more than 134,217,728 bytes (`too-many`), and an allocation that fails
/// (`memory`). After a failed read nothing more is read.
pub fn oracle<R: Read>(alloc: Global, reader: &mut Tap<R>) -> Answered
    requires { has_failed reader.old ≡ false }
    ensures { HasAnswered R.remaining reader.old reader.new IsOracleAnswer (IsTold IsScriptFault) result }
{
    let script = read_script(alloc, reader)?;
    let extent = script.extent();
    let (logs, last) = run_oracle(alloc, extent.lines, script.operations())?;
    drop(script);
    let text = logs_text(alloc, extent.nodes, &logs, &last)?;
    Ok(Answer {
        text,
        outcome: Outcome::Done,
    })
}
