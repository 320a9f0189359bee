//! The events of a schedule's text, one after another.

use crate::fault::{TextFault, TextFaultKind};
use crate::line_length::said_line;
use crate::schedule::is_within;
use crate::schedule_event::event_line;
use crate::script_lines::machine;
use sci_words::{Event, Extent, MAX_EVENTS};
use std::marker::Model;

/// The events of a schedule's text, which are read one after another, so that no list of them is kept. Contracts see the
/// machine's size, the text, the bytes of it that are left, and how many events stand before them.
#[derive(Debug, Drop)]
pub struct ScheduleEvents<'a> {
    extent: Extent,
    text: &'a [u8],
    rest: &'a [u8],
    count: usize,
}

impl<'a> Model for ScheduleEvents<'a> {
    ghost use Rattle.std.specs.Prelude.{List};
    ghost use Rattle.sci_words.specs.declared.event.Event.{Event};
    ghost use Rattle.sci_text.specs.ScheduleEvents.{AreBefore, EventsOf};

    ghost Value = { EventsOf };

    ghost view = { λ e. record {
      extent = e.extent;
      text = e.text.now;
      rest = e.rest.now;
      count = e.count;
    } };

    ghost invariant = { λ e. (events : List Event) × AreBefore events (record {
      extent = e.extent;
      text = e.text.now;
      rest = e.rest.now;
      count = e.count;
    }) };
}

impl<'a> ScheduleEvents<'a> {
    ghost use Rattle.std.specs.Prelude.{◌≡◌, List, [], IfErr, IfOk, OnErr, Some};
    ghost use Rattle.sci_words.specs.declared.event.Event.{Event};
    ghost use Rattle.sci_text.specs.ScheduleEvents.{AreBefore, IsNext, schedule_with};
    ghost use Rattle.sci_text.specs.ScheduleFault.{EventFault, IsScheduleFault};

    /// The events of a text, of which the first line is read. Refused by the fault of that line.
    pub fn of(text: &'a [u8]) -> Result<ScheduleEvents<'a>, TextFault>
        ensures text { IfOk result (λ events. events.text ≡ text.now) }
        ensures none { IfOk result (AreBefore []) }
        ensures fault { IfErr result (λ fault. IsScheduleFault text.now fault.line fault.kind) }
    {
        match machine(text) {
            Ok((extent, rest)) => Ok(ScheduleEvents {
                extent,
                text,
                rest,
                count: 0,
            }),
            Err(kind) => Err(TextFault { line: 1, kind }),
        }
    }

    /// The size of the machine.
    pub fn extent(&self) -> Extent
        ensures { result ≡ self.now.extent }
    {
        self.extent
    }

    /// The next event, or None at the end of the text. Refused, unchanged, by the fault of the next line, which is the first
    /// of the text.
    pub fn next_event(&mut self) -> Result<Option<Event>, TextFault>
        ensures next { IfOk result (IsNext self.old self.new) }
        ensures fault { IfErr result
            (λ fault. IsScheduleFault self.old.text fault.line fault.kind) }
        ensures same { OnErr result (self.new ≡ self.old) }
        ensures text { self.new.text ≡ self.old.text }
        ensures extent { self.new.extent ≡ self.old.extent }
    {
        if self.rest.is_empty() {
            return Ok(None);
        }
        match self.line() {
            Ok(event) => Ok(Some(event)),
            Err(kind) => Err(TextFault {
                line: self.count + 2,
                kind,
            }),
        }
    }

    /// The event of the next line. Refused, unchanged, by the line's fault.
    fn line(&mut self) -> Result<Event, TextFaultKind>
        ensures next { IfOk result (λ event. IsNext self.old self.new (Some event)) }
        ensures fault { IfErr result (λ kind. (events : List Event) → AreBefore events self.old
            → EventFault (schedule_with self.old.extent events) self.old.rest kind) }
        ensures same { OnErr result (self.new ≡ self.old) }
        ensures text { self.new.text ≡ self.old.text }
        ensures extent { self.new.extent ≡ self.old.extent }
    {
        let (event, rest) = said_line(self.rest, event_line(self.rest))?;
        if !is_within(self.extent, event) {
            return Err(TextFaultKind::Range);
        }
        if self.count >= MAX_EVENTS as usize {
            return Err(TextFaultKind::TooMany);
        }
        self.rest = rest;
        self.count += 1;
        Ok(event)
    }
}
