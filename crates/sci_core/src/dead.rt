//! The events of a schedule that aren't enabled when they come.

ghost use Rattle.std.specs.Prelude.{◌≡◌, ◌<◌, ◌≤◌, ◌++◌, ℕ, ◌+◌, List, IfOk, IfSome, OnOk, length};
ghost use Rattle.sci_words.specs.declared.limits.TheConstants.{MAX_EVENTS, MAX_OPERATIONS};
ghost use Rattle.sci_core.specs.{Coherent.{IsCoherent}, Core.{opening, run_from}, Dead.{dead_at, dead_events, summary}, Size.{size_of}};
ghost use Rattle.sci_core.specs.declared.obstacle.Obstacle.{Obstacle};

use crate::machine::Machine;
use crate::obstacle::Obstacle;
use sci_words::{Event, Extent, MAX_OPERATIONS};
use std::alloc::{AllocError, Global};

/// The events of a schedule that weren't enabled when they came, and so changed nothing.
#[derive(Clone, Copy, Debug, PartialEq, Eq)]
pub struct DeadEvents {
    /// How many there are: at least one.
    pub count: u32,
    /// How many events of the schedule stand before the first of them.
    pub place: u32,
    /// What stands in the way of the first.
    pub obstacle: Obstacle,
}

impl DeadEvents {
    /// The dead events among the first `place` of a schedule, if there are any, and the event behind these, if something stands
    /// in its way. Requires that there is room for it in a schedule.
    pub fn with(
        dead: Option<DeadEvents>,
        place: u32,
        obstacle: Option<Obstacle>,
    ) -> Option<DeadEvents>
        requires room { place < MAX_EVENTS }
        requires few { IfSome dead (λ dead. dead.count ≤ place) }
        ensures summary { (known : List (ℕ × Obstacle)) → dead ≡ summary known →
            result ≡ summary (known ++ dead_at place obstacle) }
        ensures few { IfSome result (λ dead. dead.count ≤ place + 1) }
    {
        match (dead, obstacle) {
            (_, None) => dead,
            (None, Some(obstacle)) => Some(DeadEvents {
                count: 1,
                place,
                obstacle,
            }),
            (Some(first), Some(_)) => Some(DeadEvents {
                count: first.count + 1,
                ..first
            }),
        }
    }

    /// Applies events one after another, and gives those that weren't enabled; None if each was. Requires that they are at most
    /// 500,000, and that the machine is coherent, as each is. Refused if memory is; the machine may then have applied some.
    pub fn among(machine: &mut Machine, events: &[Event]) -> Result<Option<DeadEvents>, AllocError>
        requires few { length events.now ≤ MAX_EVENTS }
        requires coherent { IsCoherent machine.old }
        ensures led { OnOk result (machine.new ≡ run_from machine.old events.now) }
        ensures dead { IfOk result (λ dead. dead ≡ summary (dead_events machine.old 0 events.now)) }
        ensures coherent { IsCoherent machine.new }
    {
        let mut dead = None;
        let mut place = 0;
        for event in events {
            dead = DeadEvents::with(dead, place, machine.step(event)?);
            place += 1;
        }
        Ok(dead)
    }

    /// The dead events of a schedule of a machine of this size, whose nodes may each issue 65,536 operations; None if each
    /// event is enabled. Requires that they are at most 500,000. Refused if memory is.
    pub fn of(
        alloc: Global,
        extent: Extent,
        events: &[Event],
    ) -> Result<Option<DeadEvents>, AllocError>
        requires { length events.now ≤ MAX_EVENTS }
        ensures { IfOk result (λ dead. dead
            ≡ summary (dead_events (opening (size_of extent MAX_OPERATIONS)) 0 events.now)) }
    {
        let mut machine = Machine::new(alloc, extent, MAX_OPERATIONS)?;
        DeadEvents::among(&mut machine, events)
    }
}
