//! Schedules: the events that are to happen in a machine, one after another.

use crate::script::{PushFault, is_operation_within};
use sci_words::{Event, Extent, MAX_EVENTS};
use std::alloc::Global;
use std::marker::Model;

/// A machine's size, and at most 500,000 events in text order, each with nodes, line and word in range. Contracts
/// see the numbers of the size and the list of the events.
#[derive(Debug, Drop)]
pub struct Schedule {
    pub(crate) extent: Extent,
    pub(crate) events: Vec<Event>,
}

impl Model for Schedule {
    ghost use Rattle.std.specs.Prelude.{◌≤◌, length};
    ghost use Rattle.sci_words.specs.declared.limits.TheConstants.{MAX_EVENTS};
    ghost use Rattle.sci_text.specs.Schedule.{ScheduleValue, AreEventsWithin};

    ghost Value = { ScheduleValue };

    ghost view = { λ s. record {
      nodes = s.extent.nodes;
      lines = s.extent.lines;
      slots = s.extent.slots;
      events = s.events.items;
    } };

    ghost invariant = { λ s. AreEventsWithin s.extent.nodes s.extent.lines s.events.items
        × (length s.events.items ≤ MAX_EVENTS) };
}

ghost use Rattle.std.specs.Prelude.{◌↔◌, IsTrue};
ghost use Rattle.sci_text.specs.Schedule.{IsEventWithin};

/// Whether an event's nodes, line and word are this machine's.
pub(crate) fn is_within(extent: Extent, event: Event) -> bool
    ensures { IsTrue result ↔ IsEventWithin extent.nodes extent.lines event }
{
    match event {
        Event::Issue { node, op } => is_operation_within(extent, node, op),
        Event::Perform { node, line } | Event::Ask { node, line, .. } => {
            node < extent.nodes && line < extent.lines
        }
        Event::Serve { from, node } | Event::Refuse { from, node } | Event::Accept { from, node } =>
            from < extent.nodes && node < extent.nodes,
        Event::Reply { node } => node < extent.nodes,
    }
}

impl Schedule {
    ghost use Rattle.std.specs.Prelude.{◌≡◌, ◌<◌, [], None, OnOk, OnErr, IfErr, IfSome, length};
    ghost use Rattle.sci_words.specs.declared.limits.TheConstants.{MAX_EVENTS};
    ghost use Rattle.sci_text.specs.Schedule.{IsSchedule, with_event, EventRefusal};

    /// The schedule of a machine of this size with no event.
    pub fn new(alloc: Global, extent: Extent) -> Schedule
        ensures value { result ≡ record {
          nodes = extent.nodes;
          lines = extent.lines;
          slots = extent.slots;
          events = [];
        } }
        ensures good { IsSchedule result }
    {
        Schedule {
            extent,
            events: Vec::new(alloc),
        }
    }

    /// The size of the machine.
    pub fn extent(&self) -> Extent
        ensures nodes { result.nodes ≡ self.now.nodes }
        ensures lines { result.lines ≡ self.now.lines }
        ensures slots { result.slots ≡ self.now.slots }
    {
        self.extent
    }

    /// The events, in text order.
    pub fn events(&self) -> &[Event]
        ensures value { result.now ≡ self.now.events }
        ensures good { IsSchedule self.now }
    {
        &self.events
    }

    /// Adds an event at the end. A refusal changes nothing: Range if a node, the line or the word is outside
    /// the machine, else TooMany if there are 500,000 events.
    pub fn push(&mut self, event: Event) -> Result<(), PushFault>
        ensures ok { OnOk result (self.new ≡ with_event self.old event) }
        ensures within { OnOk result (IsEventWithin self.old.nodes self.old.lines event) }
        ensures room { OnOk result (length self.old.events < MAX_EVENTS) }
        ensures refused { IfErr result (EventRefusal self.old event) }
        ensures same { OnErr result (self.new ≡ self.old) }
        ensures good { IsSchedule self.new }
    {
        if !is_within(self.extent, event) {
            return Err(PushFault::Range);
        }
        if self.events.len() >= MAX_EVENTS as usize {
            return Err(PushFault::TooMany);
        }
        let Ok(()) = self.events.push(event) else {
            return Err(PushFault::Memory);
        };
        Ok(())
    }

    /// Takes the last event away, and gives it. None, unchanged, if there are no events.
    pub fn pop(&mut self) -> Option<Event>
        ensures popped { IfSome result (λ event. self.old ≡ with_event self.new event) }
        ensures none { result ≡ None → self.old.events ≡ [] }
        ensures same { result ≡ None → self.new ≡ self.old }
        ensures good { IsSchedule self.new }
    {
        self.events.pop()
    }
}
