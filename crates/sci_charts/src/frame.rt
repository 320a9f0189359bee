//! What a chart has beside its rows: title and legend, columns, the names of the nodes, and packets from above the first row.

use crate::arrows::{ArrowKind, Flight};
use crate::elements::{Point, Way, push_arrow, push_ground, push_stem, push_use, push_words};
use crate::layout::{MARGIN, names_at, row_at, width_of};
use crate::legend::{RIGHT, push_legend, push_style};
use crate::plan::{ChartPlan, Heights, way_of};
use crate::rows::push_packet_words;
use crate::survey::Survey;
use crate::waits::Wait;
use sci_command::push_labelled;
use sci_packets::Packet;
use sci_text::push_text;
use std::alloc::AllocError;

/// How far the names of the nodes begin to the left of their columns.
const NAME: i16 = 21;

/// With more rows than these the title of a chart names the command that shows one event at a time.
const MANY_ROWS: u32 = 300;

const MANY: &str = " (sciview page shows one at a time)";

/// How far the line of an operation goes to the left of its column, and how much farther that of the next one goes.
const WAIT: i16 = 7;

const NEXT_WAIT: i16 = 5;

/// From the words below the columns to the next ones.
const WORDS: i16 = 16;

/// What a chart has beside its rows.
#[derive(Clone, Copy)]
pub struct Frame<'a> {
    pub plan: ChartPlan,
    pub survey: &'a Survey,
    /// The words above all.
    pub title: &'a [u8],
}

/// The title of a chart. Refused if memory is.
pub fn title_of(plan: &ChartPlan, survey: &Survey) -> Result<Vec<u8>, AllocError> {
    let mut text = Vec::new(plan.alloc);
    push_text(&mut text, "Message sequence chart")?;
    if let Some(line) = plan.request.line {
        push_labelled(&mut text, b" of line", u64::from(line))?;
    }
    if let Some(lines) = plan.request.events {
        push_labelled(&mut text, b", events of lines", lines.first)?;
        push_labelled(&mut text, b" to", lines.last)?;
    }
    push_labelled(&mut text, b": nodes", u64::from(plan.extent.nodes))?;
    push_labelled(&mut text, b", lines", u64::from(plan.extent.lines))?;
    push_labelled(&mut text, b", slots", u64::from(plan.extent.slots))?;
    push_labelled(&mut text, b", events", u64::from(survey.rows))?;
    if survey.rows > MANY_ROWS {
        push_text(&mut text, MANY)?;
    }
    Ok(text)
}

impl Frame<'_> {
    /// Where the columns end.
    fn bottom(&self) -> u64 {
        row_at(self.survey.rows)
    }

    /// How wide and how high the chart is.
    pub fn size(&self) -> Point {
        let columns = self.plan.layout.column(u16::from(self.plan.extent.nodes));
        Point {
            x: columns
                .max(self.survey.right)
                .max(RIGHT)
                .max(width_of(self.title)),
            y: self.bottom().saturating_add(self.passing_height()),
        }
        .moved(2 * MARGIN as i16, 2 * MARGIN as i16)
    }

    /// How high the words are for packets that are under way in all rows.
    fn passing_height(&self) -> u64 {
        let (packets, flights) = self.survey.arrows.early();
        let mut height = 0u64;
        for (_packet, flight) in packets.iter().zip(flights) {
            if flight.goes_on() {
                height = height.saturating_add(WORDS as u64);
            }
        }
        height
    }

    /// Appends the names of the nodes at their columns, which blocks of rows show.
    fn push_names(&self, out: &mut Vec<u8>) -> Result<(), AllocError> {
        let mut text = Vec::new(self.plan.alloc);
        push_text(out, "<defs>\n<g id=\"names\">\n")?;
        for node in 0..self.plan.extent.nodes {
            text.clear();
            push_labelled(&mut text, b"node", u64::from(node))?;
            let x = self.plan.layout.column(u16::from(node));
            push_words(out, "name", Point { x, y: 0 }.moved(-NAME, 0), &text)?;
        }
        push_text(out, "</g>\n</defs>\n")
    }

    /// Appends the columns of all nodes.
    fn push_columns(&self, out: &mut Vec<u8>) -> Result<(), AllocError> {
        push_text(out, "<path class=\"column\" d=\"")?;
        for node in 0..self.plan.extent.nodes {
            let x = self.plan.layout.column(u16::from(node));
            let top = Point { x, y: names_at(0) };
            push_stem(out, top.moved(0, 6), self.bottom())?;
        }
        push_text(out, "\"/>\n")
    }

    /// Appends the arrow of a packet that was sent before the first row: from where the columns begin to the row where it was
    /// taken, or to where the columns end if it wasn't.
    fn push_early(
        &self,
        out: &mut Vec<u8>,
        packet: &Packet,
        flight: &Flight,
    ) -> Result<(), AllocError> {
        let heights = Heights {
            from: names_at(0),
            to: flight.taken.map_or(self.bottom(), row_at),
        };
        let mut title = Vec::new(self.plan.alloc);
        push_packet_words(&mut title, packet)?;
        let way = way_of(self.plan.layout, packet, flight, heights);
        let kind = ArrowKind::of(packet, flight);
        push_arrow(out, kind.class(), &way, &title)?;
        push_text(out, "\n")
    }

    /// Appends the words for each packet that is under way in all rows, below the names of the nodes: no row is its own.
    fn push_passing(&self, out: &mut Vec<u8>) -> Result<(), AllocError> {
        let (packets, flights) = self.survey.arrows.early();
        let mut at = Point {
            x: 0,
            y: self.bottom().saturating_add(2 * WORDS as u64),
        };
        let mut words = Vec::new(self.plan.alloc);
        for (packet, flight) in packets.iter().zip(flights) {
            if flight.goes_on() {
                words.clear();
                push_text(&mut words, "under way in all rows: ")?;
                push_text(&mut words, packet.body.command().name())?;
                push_labelled(&mut words, b" from", u64::from(packet.source.get()))?;
                push_labelled(&mut words, b" to", u64::from(packet.target.get()))?;
                push_words(out, "key", at, &words)?;
                at = at.moved(0, WORDS);
            }
        }
        Ok(())
    }

    /// The line of an operation, beside its node's column: from where it was issued to where it was performed.
    fn way_of_wait(&self, wait: &Wait) -> Way {
        let from = Point {
            x: self.plan.layout.column(u16::from(wait.node)),
            y: wait.issued.map_or(names_at(0), row_at),
        };
        let left = WAIT + NEXT_WAIT * i16::from(wait.track.min(4));
        let end = Point {
            x: from.x,
            y: row_at(wait.performed),
        };
        Way::Around {
            from,
            left: end.moved(-left, 0),
        }
    }

    /// Appends the lines of the operations that were performed.
    fn push_waits(&self, out: &mut Vec<u8>) -> Result<(), AllocError> {
        let mut title = Vec::new(self.plan.alloc);
        for wait in self.survey.waits.performed() {
            title.clear();
            push_labelled(&mut title, b"wait", wait.events)?;
            push_arrow(out, "w", &self.way_of_wait(wait), &title)?;
            push_text(out, "\n")?;
        }
        Ok(())
    }

    /// Appends the names of the nodes below the columns, and above them if there is no row.
    fn push_uses(&self, out: &mut Vec<u8>) -> Result<(), AllocError> {
        if self.survey.rows == 0 {
            push_use(out, names_at(0))?;
        }
        push_use(out, self.bottom().saturating_add(16))
    }

    /// Appends all of it but the tag that begins the chart. A group is left open, which the first block of rows ends, or the
    /// end of the chart.
    pub fn push(&self, out: &mut Vec<u8>) -> Result<(), AllocError> {
        let size = self.size();
        push_style(out)?;
        self.push_names(out)?;
        push_ground(out, MARGIN, size)?;
        push_words(out, "title", Point { x: 0, y: 24 }, self.title)?;
        push_legend(out)?;
        push_text(out, "<path class=\"guide\" d=\"")?;
        out.extend_from_slice(&self.survey.guides)?;
        push_text(out, "\"/>\n")?;
        self.push_columns(out)?;
        self.push_waits(out)?;
        let (packets, flights) = self.survey.arrows.early();
        for (packet, flight) in packets.iter().zip(flights) {
            if !flight.is_past {
                self.push_early(out, packet, flight)?;
            }
        }
        self.push_uses(out)?;
        self.push_passing(out)?;
        push_text(out, "<g>\n")
    }
}
