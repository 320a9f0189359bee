//! The audit of a window that was cut off.

ghost use Rattle.std.specs.Prelude.{◌≡◌, ◌≤◌, ◌↔◌, IfOk, length};
ghost use Rattle.sci_words.specs.declared.limits.TheConstants.{MAX_LINES};
ghost use Rattle.sci_history.specs.Audit.{AreWithin};
ghost use Rattle.sci_windows.specs.{CutOff.{IsBeforeLast, IsVerdictCutOff, LawfulCutOff}, Relative.{AreEarly}};

use crate::relative::{are_few, relative_contents, relative_logs};
use sci_history::{FaultKind, Last, LineFault, Logs, Verdict, line_faults};
use std::alloc::{AllocError, Global};

/// The first of the lines' faults that isn't one of last contents, or Lawful. Requires that there are 64 lines at most.
fn before_last(faults: &[Option<LineFault>]) -> Verdict
    requires { length faults.now ≤ MAX_LINES }
    ensures { IsBeforeLast faults.now result }
{
    for line in 0..faults.len() {
        match faults[line] {
            None => {}
            Some(
                LineFault {
                    kind: FaultKind::LastDiffers,
                    ..
                },
            ) => {}
            Some(LineFault { kind, at }) => {
                return Verdict::Fault {
                    line: line as u8,
                    kind,
                    at,
                };
            }
        }
    }
    Verdict::Lawful
}

/// Audits logs that begin with the first contents, and whose last contents aren't known: Lawful exactly if they are lawful with some
/// last contents; else the first fault, of the lowest line that has one and there of the first kind, which is never that the last
/// contents differ. Versions go on from those of the first contents. Refused only if a growth was, or if a log has more than 2^32
/// entries. It takes the time of an audit. Requires that each entry's line is one of the first contents, and its word below 8, and
/// that no version of theirs is above 2^63.
pub fn audit_cut_off(alloc: Global, logs: &Logs, first: &Last) -> Result<Verdict, AllocError>
    requires within { AreWithin (length first.now) logs.now }
    requires early { AreEarly first.now }
    ensures verdict { IfOk result (IsVerdictCutOff logs.now first.now) }
    ensures lawful { IfOk result
        (λ verdict. (verdict ≡ Verdict.Lawful) ↔ LawfulCutOff logs.now first.now) }
{
    if !are_few(logs) {
        return Err(AllocError);
    }
    let relative = relative_logs(alloc, logs, first)?;
    // Asked, so that the prover knows that there are 64 lines at most.
    let _lines = first.lines();
    let contents = relative_contents(alloc, first, first)?;
    let faults = line_faults(alloc, &relative, &contents)?;
    Ok(before_last(&faults))
}
