//! The first pass over a schedule: what a chart has to know before its first row is written.

use crate::arrows::Arrows;
use crate::elements::{Point, push_guides, push_stroke};
use crate::labels::{About, Effect, Label};
use crate::layout::{FIRST_LINE, LABEL, begins_block, block_of, names_at, push_numbered, width_of};
use crate::mark::mark_after;
use crate::plan::ChartPlan;
use crate::sights::{Change, Sight, Spot};
use crate::waits::Waits;
use sci_command::is_asked;
use sci_core::{Machine, node_of};
use sci_statistics::{applied, line_about};
use sci_text::Schedule;
use sci_words::{Event, MAX_OPERATIONS};
use std::alloc::AllocError;

/// How far the line from the text of an event to its column begins from the text.
const GAP: u64 = 4;

/// How many bytes a row has, and what stands beside the rows, without the guides: more than in most charts.
const ROW_BYTES: usize = 200;

const FRAME_BYTES: usize = 8192;

/// What the rows of a chart will have.
#[derive(Drop)]
pub struct Survey {
    plan: ChartPlan,
    /// How many rows there are.
    pub rows: u32,
    /// How far to the right their labels go.
    pub right: u64,
    /// The lines from the texts of the events to their columns, a path for each block of rows.
    pub guides: Vec<u8>,
    /// The packets that are sent and taken in them.
    pub arrows: Arrows,
    /// The operations that are issued and performed in them.
    pub waits: Waits,
    /// What is said of an event.
    label: Label,
    /// The text of an event.
    words: Vec<u8>,
}

impl Survey {
    /// Of no event. Refused if memory is.
    fn new(plan: &ChartPlan) -> Result<Survey, AllocError> {
        let alloc = plan.alloc;
        Ok(Survey {
            plan: *plan,
            rows: 0,
            right: 0,
            guides: Vec::new(alloc),
            arrows: Arrows::new(alloc)?,
            waits: Waits::new(alloc),
            label: Label::new(alloc, plan.names_lines()),
            words: Vec::new(alloc),
        })
    }

    /// Of all events of a schedule that are shown. Refused if memory is.
    pub fn of(plan: &ChartPlan, schedule: &Schedule) -> Result<Survey, AllocError> {
        let mut survey = Survey::new(plan)?;
        let mut machine = Machine::new(plan.alloc, schedule.extent(), MAX_OPERATIONS)?;
        let mut number = FIRST_LINE;
        for event in schedule.events() {
            if plan.request.is_past(number) {
                return Ok(survey);
            }
            survey.note(&mut machine, number, event)?;
            number = number.saturating_add(1);
        }
        Ok(survey)
    }

    /// How many bytes are reserved for the chart, so that it isn't copied while it grows.
    pub fn room(&self) -> usize {
        let rows = ROW_BYTES * self.rows as usize;
        self.guides.len().saturating_add(rows + FRAME_BYTES)
    }

    /// Applies an event that stands on a line of the schedule, and notes what its row will have if it is shown. Of one above the
    /// lines that are asked for it notes the packet.
    fn note(
        &mut self,
        machine: &mut Machine,
        number: u64,
        event: &Event,
    ) -> Result<(), AllocError> {
        let spot = Spot {
            node: node_of(event),
            line: line_about(machine, event),
        };
        if !is_asked(self.plan.request.line, spot.line) {
            let _enabled = applied(machine, event)?;
            return Ok(());
        }
        let before = Sight::at(machine, spot);
        let mark = mark_after(machine, event)?;
        let is_within = self.plan.request.is_within(number);
        let row = if is_within { Some(self.rows) } else { None };
        let about = About {
            origin: self.arrows.note(&mark, row)?,
            // It may go on: there is room for that.
            goes_on: true,
            wait: self.waits.note(&mark, spot, number, row)?,
        };
        if !is_within {
            return Ok(());
        }
        let effect = Effect {
            mark,
            about,
            change: Change {
                before,
                after: Sight::at(machine, spot),
            },
        };
        self.label.tell(machine, spot.node, &effect)?;
        self.note_row(number, event)
    }

    /// Notes the row of an event whose label is made.
    fn note_row(&mut self, number: u64, event: &Event) -> Result<(), AllocError> {
        let at = self.plan.layout.place(u16::from(node_of(event)), self.rows);
        let label = self.label.text();
        if !label.is_empty() {
            let end = at.x.saturating_add(LABEL).saturating_add(width_of(label));
            self.right = self.right.max(end);
        }
        if begins_block(self.rows) {
            push_guides(&mut self.guides, names_at(block_of(self.rows)))?;
        }
        self.words.clear();
        push_numbered(&mut self.words, number, event)?;
        let start = Point {
            x: width_of(&self.words) + GAP,
            y: at.y,
        };
        push_stroke(&mut self.guides, start, at.x)?;
        self.rows = self.rows.saturating_add(1);
        Ok(())
    }
}
