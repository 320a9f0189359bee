//! The whole of a schedule's text.

ghost use Rattle.std.specs.Prelude.{◌≡◌, IfOk, IfErr};
ghost use Rattle.sci_text.specs.{Schedule.{IsSchedule, schedule_text}, FirstFault.{IsRefusal}};
ghost use Rattle.sci_text.specs.ScheduleFault.{IsScheduleFault};

use crate::fault::{TextFault, TextFaultKind};
use crate::schedule::Schedule;
use crate::schedule_events::ScheduleEvents;
use std::alloc::Global;

/// The schedule whose text the bytes are. A refusal names the first line with a fault, or has line 0 if memory was refused; an
/// input that is too long isn't refused here.
pub fn schedule_of(alloc: Global, input: &[u8]) -> Result<Schedule, TextFault>
    ensures ok { IfOk result (λ s. input.now ≡ schedule_text s) }
    ensures good { IfOk result IsSchedule }
    ensures fault { IfErr result (IsRefusal IsScheduleFault input.now) }
{
    let mut lines = ScheduleEvents::of(input)?;
    let mut events = Vec::new(alloc);
    while let Some(event) = lines.next_event()? {
        if events.push(event).is_err() {
            return Err(TextFault::of_input(TextFaultKind::Memory));
        }
    }
    Ok(Schedule {
        extent: lines.extent(),
        events,
    })
}
