//! The second pass over a schedule: it writes the rows of a chart.

ghost use Rattle.std.specs.Prelude.{◌≡◌, ℕ, List, ◌++◌, IfOk, OnOk, not};
ghost use Rattle.sci_core.specs.Core.{step};
ghost use Rattle.sci_charts.specs.{Drawing.{Adds, Drawn, chart_begin, chart_end, is_dead, letter_in}, Rows.{IsRow}};

use crate::arrows::{Arrows, Flight};
use crate::charting::ChartRequest;
use crate::elements::{Words, push_svg};
use crate::frame::{Frame, title_of};
use crate::labels::{About, Effect, Label};
use crate::layout::{MARGIN, row_at};
use crate::mark::{Mark, mark_after};
use crate::plan::ChartPlan;
use crate::rows::{Row, Rows};
use crate::sights::{Change, Sight, Spot};
use crate::survey::Survey;
use crate::waits::Waits;
use sci_core::{Machine, node_of};
use sci_statistics::{applied, line_about};
use sci_text::Schedule;
use sci_traces::{LineWords, push_changes, standing};
use sci_words::Event;
use std::alloc::{AllocError, Global};
use std::marker::Model;

/// A chart whose rows are being written.
#[derive(Drop)]
pub struct Drawing {
    alloc: Global,
    request: ChartRequest,
    rows: Rows,
    arrows: Arrows,
    waits: Waits,
    label: Label,
    /// How the states of a line changed, as a trace has it.
    title: Vec<u8>,
}

impl Model for Drawing {
    ghost Value = { Drawn };

    ghost view = { λ drawing. record { request = drawing.request; text = drawing.rows } };
}

impl Drawing {
    /// The chart of a schedule with all that it has but its rows. Refused if memory is.
    pub fn new(
        alloc: Global,
        schedule: &Schedule,
        request: ChartRequest,
    ) -> Result<Drawing, AllocError>
        ensures request { IfOk result (λ drawing. drawing.request ≡ request) }
        ensures begins { IfOk result (λ drawing.
            (front : List ℕ) × (drawing.text ≡ chart_begin ++ front)) }
    {
        let plan = ChartPlan::of(alloc, schedule, request)?;
        let survey = Survey::of(&plan, schedule)?;
        let title = title_of(&plan, &survey)?;
        let frame = Frame {
            plan,
            survey: &survey,
            title: &title,
        };
        let mut inside = Vec::new(alloc);
        frame.push(&mut inside)?;
        let mut out = Vec::with_capacity(alloc, survey.room())?;
        push_svg(&mut out, MARGIN, frame.size())?;
        out.extend_from_slice(&inside)?;
        drop(inside);
        let bottom = row_at(survey.rows);
        Ok(Drawing {
            alloc,
            request,
            rows: Rows::new(alloc, plan.layout, bottom, out),
            arrows: survey.arrows,
            waits: survey.waits,
            label: Label::new(alloc, plan.names_lines()),
            title: Vec::new(alloc),
        })
    }

    /// What is known of an event of the next row, and the flight of the packet that it sent, if it sent one.
    fn known(&mut self, mark: &Mark) -> (Flight, About)
        ensures { self.new ≡ self.old }
    {
        let mut flight = Flight::none();
        let mut about = About::nothing();
        match mark {
            Mark::Sent(_) => {
                flight = self.arrows.next_sent();
                about.goes_on = flight.goes_on();
            }
            Mark::Taken(_) | Mark::Refused(_) => about.origin = self.arrows.next_origin(),
            Mark::Performed => about.wait = self.waits.next_wait(),
            Mark::Dead | Mark::Issued => {}
        }
        (flight, about)
    }

    /// Notes how the states of a line changed from what they were.
    fn note_title(
        &mut self,
        machine: &Machine,
        spot: Spot,
        words: &LineWords,
    ) -> Result<(), AllocError>
        ensures { self.new ≡ self.old }
    {
        self.title.clear();
        push_changes(
            self.alloc,
            &mut self.title,
            machine,
            spot.node,
            spot.line,
            words,
        )?;
        // Without the last line feed.
        let _feed = self.title.pop();
        Ok(())
    }

    /// Adds the row of an event whose label and title are noted. Refused if memory is.
    fn add(
        &mut self,
        number: u64,
        event: &Event,
        mark: &Mark,
        flight: Flight,
    ) -> Result<(), AllocError>
        ensures row { OnOk result ((text : List ℕ) × (self.new.text ≡ self.old.text ++ text)
            × IsRow (not (is_dead mark.now)) (letter_in mark.now) number event.now text) }
        ensures request { self.new.request ≡ self.old.request }
    {
        self.rows.add(&Row {
            number,
            event: *event,
            mark: *mark,
            flight,
            label: Words {
                text: self.label.text(),
                // Without the spaces that begin the line of a trace.
                title: self.title.get(2..).unwrap_or(b""),
            },
        })
    }

    /// Applies an event that stands on a line of the schedule, and adds its row if it is shown. Refused if memory is.
    pub fn draw(
        &mut self,
        machine: &mut Machine,
        number: u64,
        event: &Event,
    ) -> Result<(), AllocError>
        ensures rows { OnOk result ((text : List ℕ) × (self.new.text ≡ self.old.text ++ text)
            × Adds self.old.request (record { core = machine.old; number = number; event = event.now }) text) }
        ensures request { self.new.request ≡ self.old.request }
        ensures step { OnOk result (machine.new ≡ step machine.old event.now) }
    {
        let spot = Spot {
            node: node_of(event),
            line: line_about(machine, event),
        };
        if !self.request.shows(spot.line, number) {
            let _enabled = applied(machine, event)?;
            return Ok(());
        }
        let before = Sight::at(machine, spot);
        let words = standing(self.alloc, machine, spot.node, spot.line)?;
        let mark = mark_after(machine, event)?;
        self.note_title(machine, spot, &words)?;
        let (flight, about) = self.known(&mark);
        let after = Sight::at(machine, spot);
        let effect = Effect {
            mark,
            about,
            change: Change { before, after },
        };
        self.label.tell(machine, spot.node, &effect)?;
        self.add(number, event, &mark, flight)
    }

    /// The text of the chart. Refused if memory is.
    pub fn finish(self) -> Result<Vec<u8>, AllocError>
        ensures { IfOk result (λ text. text.items ≡ self.text ++ chart_end) }
    {
        self.rows.finish()
    }
}
