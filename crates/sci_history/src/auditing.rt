//! The audit of logs: whether they are lawful, or the first rule that they break.

ghost use Rattle.std.specs.{Prelude.{◌≡◌, ◌↔◌, IfOk, false, is_some, length}, List.{list_any}};
ghost use Rattle.sci_history.specs.{Audit.{AreFound, AreWithin, IsVerdict}, Lawful.{Lawful}};

use crate::by_line::by_line;
use crate::faults::{LineFault, line_fault};
use crate::last::Last;
use crate::logs::Logs;
use crate::verdict::Verdict;
use std::alloc::{AllocError, Global};

/// Audits logs against last contents: Lawful exactly if for each line one memory of one thread explains both;
/// else the first fault, of the lowest line that has one and there of the first kind. Refused only if a growth
/// was. It takes time n log n in the number of entries. Requires that each entry's line is one of
/// `last`, and its word below 8.
pub fn audit(alloc: Global, logs: &Logs, last: &Last) -> Result<Verdict, AllocError>
    requires { AreWithin (length last.now) logs.now }
    ensures verdict { IfOk result (IsVerdict logs.now last.now) }
    ensures lawful { IfOk result
        (λ verdict. (verdict ≡ Verdict.Lawful) ↔ Lawful logs.now last.now) }
{
    let lines = last.lines();
    let lists = by_line(alloc, logs, lines)?;
    for line in 0..lines {
        if let Some(fault) = line_fault(alloc, &lists[line as usize], last.get(line))? {
            return Ok(Verdict::Fault {
                line,
                kind: fault.kind,
                at: fault.at,
            });
        }
    }
    Ok(Verdict::Lawful)
}

/// The fault of each line, or None where a line has none: on each line the first kind that fails. The logs are lawful exactly
/// if no line has one. Refused only if a growth was. It takes the time of an audit. Requires that each entry's line is one of
/// `last`, and its word below 8.
pub fn line_faults(
    alloc: Global,
    logs: &Logs,
    last: &Last,
) -> Result<Vec<Option<LineFault>>, AllocError>
    requires { AreWithin (length last.now) logs.now }
    ensures found { IfOk result (λ faults.
        AreFound logs.now last.now (length last.now) faults.items) }
    ensures lawful { IfOk result
        (λ faults. (list_any is_some faults.items ≡ false) ↔ Lawful logs.now last.now) }
{
    let lines = last.lines();
    let lists = by_line(alloc, logs, lines)?;
    let mut faults = Vec::with_capacity(alloc, lines as usize)?;
    for line in 0..lines {
        let fault = line_fault(alloc, &lists[line as usize], last.get(line))?;
        faults.push(fault)?;
    }
    Ok(faults)
}
