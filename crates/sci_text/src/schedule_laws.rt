//! Laws of schedules' texts, each the contract of a function that does nothing.

ghost use Rattle.std.specs.Prelude.{◌≤◌, length};
ghost use Rattle.sci_words.specs.declared.limits.TheConstants.{MAX_INPUT_BYTES};
ghost use Rattle.sci_text.specs.FirstFault.{IsOfOne, HasNoFault, HasOneFault};
ghost use Rattle.sci_text.specs.{Schedule.{ScheduleValue, IsSchedule, schedule_text}, ScheduleFault.{IsScheduleFault}};

/// The text of a schedule determines the schedule.
pub fn one_schedule()
    ensures { IsOfOne IsSchedule schedule_text }
{}

/// The text of a schedule has no line with a fault.
pub fn no_schedule_fault()
    ensures { (s : ScheduleValue) → IsSchedule s → HasNoFault IsScheduleFault (schedule_text s) }
{}

/// Bytes have at most one first line that is faulty in a schedule, and one fault there.
pub fn one_schedule_fault()
    ensures { HasOneFault IsScheduleFault }
{}

/// The text of a schedule is not too long to be read.
pub fn schedules_are_short()
    ensures { (s : ScheduleValue) → IsSchedule s → length (schedule_text s) ≤ MAX_INPUT_BYTES }
{}
