//! Reading a schedule to its end, and judging it then.

ghost use Rattle.std.specs.{Prelude.{◌≡◌, ◌≤◌, false, length, IfOk, OnOk, IfErr, Some}, Io.KnownBytes.{IsAtEnd}};
ghost use Rattle.sci_words.specs.declared.limits.TheConstants.{MAX_INPUT_BYTES};
ghost use Rattle.sci_text.specs.Tap.{tapped, has_failed, is_called_again};
ghost use Rattle.sci_text.specs.Schedule.{ScheduleValue, IsSchedule, schedule_text};
ghost use Rattle.sci_text.specs.{FirstFault.{AreRead, GivesOnly, IsTold}, ScheduleFault.{IsScheduleFault}};

use crate::fault::TextFault;
use crate::reading::read_input;
use crate::schedule::Schedule;
use crate::schedule_lines::schedule_of;
use crate::tap::Tap;
use std::alloc::Global;
use std::io::Read;

/// The schedule that the reader gives, read to its end. A refusal names the first fault and its line: Read if the
/// reader failed, TooMany for an input above 134,217,728 bytes and Memory, all for the whole input; else the first
/// faulty line, with Syntax before Range before TooMany. Memory is answered only if an allocation failed.
pub fn read_schedule<R: Read>(alloc: Global, reader: &mut Tap<R>) -> Result<Schedule, TextFault>
    requires { has_failed reader.old ≡ false }

    // The input is the text of the schedule.
    ensures text { IfOk result (λ schedule.
        AreRead (R.remaining (tapped reader.old)) (schedule_text schedule)) }
    ensures good { IfOk result IsSchedule }
    ensures end { OnOk result (IsAtEnd (R.remaining (tapped reader.new))) }
    ensures unfailed { OnOk result (has_failed reader.new ≡ false) }

    // If it is the text of a schedule, that schedule is read.
    ensures only { (schedule : ScheduleValue) → IsSchedule schedule
        → length (schedule_text schedule) ≤ MAX_INPUT_BYTES
        → R.remaining (tapped reader.old) ≡ Some (schedule_text schedule)
        → GivesOnly schedule result }

    // Else the first fault is reported.
    ensures fault { IfErr result (λ fault. IsTold IsScheduleFault fault.kind
        (R.remaining (tapped reader.old)) (has_failed reader.new) fault.line) }
    ensures again { is_called_again reader.new ≡ is_called_again reader.old }
{
    let input = read_input(alloc, reader)?;
    schedule_of(alloc, &input)
}
