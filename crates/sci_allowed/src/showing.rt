//! A schedule that leads to an outcome.

ghost use Rattle.std.specs.Prelude.{◌≡◌, ◌<◌, ◌≤◌, ◌*◌, ℕ, Contains, length, map, slice_index_or, All, Any, IfErr, IfOk};
ghost use Rattle.sci_words.specs.declared.limits.TheConstants.{MAX_EVENTS};
ghost use Rattle.sci_text.specs.Schedule.{AreEventsWithin, IsSchedule};
ghost use Rattle.sci_orders.specs.{Positions.{position_of}, declared.standing.Standing.{Standing}};
ghost use Rattle.sci_allowed.specs.Allowed.{IsAllowed, IsLitmus, IsScheduleTo, IsTooBig, IsTooLong, seen_at};
ghost use Rattle.sci_allowed.specs.{Outcome.{shown_of}, declared.fault.AllowedFault.TheVariants.{NoRow, TooLong, TooMany}};

use crate::fault::AllowedFault;
use crate::litmus::Litmus;
use crate::outcome::Outcome;
use sci_orders::Standing;
use sci_text::{PushFault, Schedule};
use sci_words::{Event, Extent, MAX_OPERATIONS};
use std::alloc::{AllocError, Global};

/// The place of the first standing with an outcome. Requires that there is one. Refused if memory is.
fn place_of(
    alloc: Global,
    litmus: &Litmus,
    standings: &[Standing],
    outcome: &Outcome,
) -> Result<usize, AllocError>
    requires litmus { IsLitmus litmus.now }
    requires nodes { All (λ standing. length standing.answers.items ≡ litmus.now.script.nodes) standings.now }
    requires some { Any (λ standing. shown_of outcome.now ≡ seen_at litmus.now.script (position_of standing)) standings.now }
    ensures { IfOk result (λ place. (place < length standings.now) × ((d : Standing) →
        shown_of outcome.now ≡ seen_at litmus.now.script (position_of (slice_index_or standings.now place d)))) }
{
    for place in 0..standings.len() {
        if litmus.outcome_of(alloc, &standings[place])? == *outcome {
            return Ok(place);
        }
    }
    unreachable!()
}

/// The schedule with these events. Refused if memory is, or if there are more than 500,000.
fn schedule_with(alloc: Global, extent: Extent, events: &[Event]) -> Result<Schedule, AllowedFault>
    requires { AreEventsWithin extent.nodes extent.lines events.now }
    ensures value { IfOk result (λ schedule. schedule ≡ record {
      nodes = extent.nodes;
      lines = extent.lines;
      slots = extent.slots;
      events = events.now;
    }) }
    ensures good { IfOk result IsSchedule }
    ensures long { IfErr result (λ fault. fault ≡ TooLong → MAX_EVENTS < length events.now) }
    ensures other { IfErr result (λ fault. fault ≡ TooMany → ⊥) }
    ensures rows { IfErr result (λ fault. (rows : ℕ) → fault ≡ NoRow rows → ⊥) }
{
    let mut schedule = Schedule::new(alloc, extent);
    for event in events {
        match schedule.push(*event) {
            Ok(()) => {}
            Err(PushFault::Range) => unreachable!(),
            Err(PushFault::TooMany) => return Err(AllowedFault::TooLong),
            Err(PushFault::Memory) => return Err(AllowedFault::Memory),
        }
    }
    Ok(schedule)
}

impl Litmus {
    /// A schedule that is a run of the script and ends with an outcome, which is one of those with this window. Refused as
    /// `outcomes`, and if it has more than 500,000 events.
    pub(crate) fn schedule_to(
        &self,
        alloc: Global,
        window: usize,
        outcome: &Outcome,
    ) -> Result<Schedule, AllowedFault>
        requires litmus { IsLitmus self.now }
        requires allowed { IsAllowed self.now.script window (shown_of outcome.now) }
        ensures schedule { IfOk result (IsScheduleTo self.now.script window outcome.now) }
        ensures many { IfErr result (λ fault. fault ≡ TooMany → IsTooBig self.now.script window) }
        ensures long { IfErr result (λ fault. fault ≡ TooLong → IsTooLong self.now.script) }
        ensures rows { IfErr result (λ fault. (rows : ℕ) → fault ≡ NoRow rows → ⊥) }
    {
        let standings = self.standings(alloc, window)?;
        let place = place_of(alloc, self, &standings, outcome)?;
        let extent = self.script.extent();
        let events = self
            .orders(window)
            .schedule_to(alloc, extent, MAX_OPERATIONS, &standings[place])?;
        schedule_with(alloc, extent, &events)
    }
}
