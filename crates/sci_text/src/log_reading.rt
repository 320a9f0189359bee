//! Reading a log to its end, and judging its text then.

ghost use Rattle.std.specs.Prelude.{ℕ, List, ◌≡◌, ◌≤◌, false, length, IfOk, OnOk, IfErr, Some};
ghost use Rattle.std.specs.Io.KnownBytes.{IsAtEnd};
ghost use Rattle.sci_words.specs.declared.{limits.TheConstants.{MAX_INPUT_BYTES}, stamped.Stamped.{Stamped}};
ghost use Rattle.sci_history.specs.declared.entry.Entry.{Entry};
ghost use Rattle.sci_text.specs.{Tap.{tapped, has_failed, is_called_again}, LogValue.{AreLogs, IsLogs}};
ghost use Rattle.sci_text.specs.{LogFault.{IsLogFault}, FirstFault.{AreRead, GivesOnly, IsTold}};

use crate::fault::TextFault;
use crate::log_laws::{no_log_fault, one_log};
use crate::log_lines::logs_of_text;
use crate::reading::read_input;
use crate::tap::Tap;
use sci_history::{Last, Logs};
use std::alloc::Global;
use std::io::Read;

/// The logs and last contents whose text the reader gives, read to its end, with the number of nodes: in format 2
/// if the first line begins with `log `, else in format 1, which has 8 nodes. A refusal names the first fault and
/// its line, as `read_script` does.
pub fn read_logs<R: Read>(alloc: Global, reader: &mut Tap<R>) -> Result<(u8, Logs, Last), TextFault>
    requires { has_failed reader.old ≡ false }

    // The input is a text of the logs, and each number is within the limits.
    ensures text { IfOk result (λ x. (input : List ℕ)
        × AreRead (R.remaining (tapped reader.old)) input × IsLogs input x.0 x.1 x.2) }
    ensures good { IfOk result (λ x. AreLogs x.0 x.1 x.2) }
    ensures end { OnOk result (IsAtEnd (R.remaining (tapped reader.new))) }
    ensures unfailed { OnOk result (has_failed reader.new ≡ false) }

    // If it is a text of logs, those are read.
    ensures only { (input : List ℕ) (nodes : ℕ) (logs : List (List Entry)) (last : List Stamped)
        → IsLogs input nodes logs last → length input ≤ MAX_INPUT_BYTES
        → R.remaining (tapped reader.old) ≡ Some input → GivesOnly (nodes, logs, last) result }

    // Else the first fault is reported.
    ensures fault { IfErr result (λ fault. IsTold IsLogFault fault.kind
        (R.remaining (tapped reader.old)) (has_failed reader.new) fault.line) }
    ensures again { is_called_again reader.new ≡ is_called_again reader.old }
{
    one_log();
    no_log_fault();
    let bytes = read_input(alloc, reader)?;
    let (nodes, logs, last) = logs_of_text(alloc, bytes)?;
    Ok((nodes, logs, Box::into_inner(last)))
}
