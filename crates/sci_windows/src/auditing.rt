//! The audit of a window.

ghost use Rattle.std.specs.Prelude.{◌≡◌, ◌↔◌, IfOk, length};
ghost use Rattle.sci_history.specs.Audit.{AreWithin};
ghost use Rattle.sci_windows.specs.{Fault.{IsVerdictFrom}, Relative.{AreEarly}, Window.{LawfulFrom}};

use crate::relative::{are_few, relative_contents, relative_logs};
use sci_history::{Last, Logs, Verdict, audit};
use std::alloc::{AllocError, Global};

/// Audits logs that begin with the first contents against the last contents: Lawful exactly if for each line one memory of
/// one thread that begins with the first ones explains both; else the first fault, of the lowest line that has one and there
/// of the first kind. Versions go on from those of the first contents. Refused only if a growth was, or if a log has more than
/// 2^32 entries. It takes the time of an audit. Requires that there are as many first contents as last ones, that each
/// entry's line is one of them, and its word below 8, and that no version of the first contents is above 2^63.
pub fn audit_from(
    alloc: Global,
    logs: &Logs,
    first: &Last,
    last: &Last,
) -> Result<Verdict, AllocError>
    requires within { AreWithin (length last.now) logs.now }
    requires lines { length first.now ≡ length last.now }
    requires early { AreEarly first.now }
    ensures verdict { IfOk result (IsVerdictFrom logs.now first.now last.now) }
    ensures lawful { IfOk result
        (λ verdict. (verdict ≡ Verdict.Lawful) ↔ LawfulFrom logs.now first.now last.now) }
{
    if !are_few(logs) {
        return Err(AllocError);
    }
    let relative = relative_logs(alloc, logs, first)?;
    let contents = relative_contents(alloc, first, last)?;
    audit(alloc, &relative, &contents)
}
