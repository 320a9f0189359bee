//! The rows of a chart: an event each.

ghost use Rattle.std.specs.Prelude.{◌≡◌, ℕ, List, [], ◌∷◌, ◌++◌, IfOk, OnOk, not};
ghost use Rattle.sci_command.specs.PacketLine.{packet_line};
ghost use Rattle.sci_charts.specs.Drawing.{chart_end, is_dead, letter_in};
ghost use Rattle.sci_charts.specs.Rows.{IsBegun, IsEvent, IsLabelled, IsMarked, IsRow, IsSent, row_class};

use crate::arrows::{ArrowKind, Flight};
use crate::elements::{
    Point, Way, Words, push_arrow, push_block, push_circle, push_cross, push_event, push_label,
};
use crate::layout::{LABEL, Layout, begins_block, block_of, names_at, push_numbered, row_at};
use crate::mark::Mark;
use crate::plan::{Heights, way_of};
use sci_command::push_packet;
use sci_core::node_of;
use sci_packets::Packet;
use sci_text::push_text;
use sci_words::Event;
use std::alloc::{AllocError, Global};
use std::marker::Model;

/// How far a mark goes from its middle.
const REACH: i16 = 4;

/// An event with what a chart says of it.
#[derive(Clone, Copy)]
pub struct Row<'a> {
    /// The number of its line.
    pub number: u64,
    pub event: Event,
    pub mark: Mark,
    /// Of the packet that it sent, if it sent one.
    pub flight: Flight,
    /// What is said beside its node's column.
    pub label: Words<'a>,
}

/// The rows so far, behind what stands above them.
#[derive(Drop)]
pub struct Rows {
    layout: Layout,
    /// Where the columns end.
    bottom: u64,
    /// How many there are.
    count: u32,
    out: Vec<u8>,
    /// A text that is being made.
    words: Vec<u8>,
}

impl Model for Rows {
    ghost Value = { List ℕ };

    ghost view = { λ rows. rows.out.items };
}

/// Appends the words of a packet's line, without the line feed.
pub fn push_packet_words(out: &mut Vec<u8>, packet: &Packet) -> Result<(), AllocError>
    ensures { OnOk result ((words : List ℕ) × (out.new.items ≡ out.old.items ++ words)
        × (packet_line packet.now ≡ words ++ 10 ∷ [])) }
{
    push_packet(out, packet)?;
    let _feed = out.pop();
    Ok(())
}

/// The class of the text of an event.
fn class_of(mark: &Mark) -> &'static str
    ensures { result.now ≡ row_class (not (is_dead mark.now)) }
{
    if mark.is_dead() { "dead" } else { "" }
}

/// Appends what stands at the column of an event's node.
fn push_mark(out: &mut Vec<u8>, row: &Row, at: Point) -> Result<(), AllocError>
    ensures { OnOk result ((text : List ℕ) × (out.new.items ≡ out.old.items ++ text)
        × IsMarked (not (is_dead row.now.mark)) row.now.event text) }
{
    if row.mark.is_dead() {
        return push_cross(out, at.moved(-REACH, -REACH), at.moved(REACH, REACH));
    }
    match row.event {
        Event::Issue { .. } => push_circle(out, "i", at, 4),
        Event::Perform { .. } => push_circle(out, "p", at, 4),
        _ => Ok(()),
    }
}

/// Appends what is said of an event beside its node's column: above an arrow that comes from the left, and below one that comes
/// from the right.
fn push_said(out: &mut Vec<u8>, row: &Row, at: Point) -> Result<(), AllocError>
    ensures { OnOk result ((text : List ℕ) × (out.new.items ≡ out.old.items ++ text) × IsLabelled text) }
{
    if row.label.text.is_empty() {
        return Ok(());
    }
    let down = if row.mark.comes_from_right() {
        3 * REACH
    } else {
        -REACH
    };
    let start = at.moved(LABEL as i16, down);
    push_label(out, "", start, row.label)
}

impl Rows {
    /// No row yet, behind what stands above them. The columns end at `bottom`.
    pub fn new(alloc: Global, layout: Layout, bottom: u64, out: Vec<u8>) -> Rows
        ensures { result ≡ out.items }
    {
        Rows {
            layout,
            bottom,
            count: 0,
            out,
            words: Vec::new(alloc),
        }
    }

    /// Ends a block of rows and begins the next one, if the next row is the first of a block.
    fn begin(&mut self) -> Result<(), AllocError>
        ensures { OnOk result ((text : List ℕ) × (self.new ≡ self.old ++ text) × IsBegun text) }
    {
        if !begins_block(self.count) {
            return Ok(());
        }
        push_block(&mut self.out, names_at(block_of(self.count)))
    }

    /// The way of a packet that is sent in the next row.
    fn way(&self, packet: &Packet, flight: &Flight, from: u64) -> Way {
        let end = flight.taken.map_or(self.bottom, row_at);
        let heights = Heights {
            from,
            to: end.saturating_sub(names_at(block_of(self.count))),
        };
        way_of(self.layout, packet, flight, heights)
    }

    /// Appends the arrow of the packet that an event sent, if it sent one.
    fn push_sent(&mut self, row: &Row, from: u64) -> Result<(), AllocError>
        ensures { OnOk result ((text : List ℕ) × (self.new ≡ self.old ++ text)
            × IsSent (letter_in row.now.mark) text) }
    {
        match &row.mark {
            Mark::Sent(packet) => {
                self.words.clear();
                push_packet_words(&mut self.words, packet)?;
                let way = self.way(packet, &row.flight, from);
                let kind = ArrowKind::of(packet, &row.flight);
                push_arrow(&mut self.out, kind.class(), &way, &self.words)
            }
            _ => Ok(()),
        }
    }

    /// Appends the text of an event at the left.
    fn push_numbered(&mut self, row: &Row, y: u64) -> Result<(), AllocError>
        ensures { OnOk result ((text : List ℕ) × (self.new ≡ self.old ++ text)
            × IsEvent (not (is_dead row.now.mark)) row.now.number row.now.event text) }
    {
        self.words.clear();
        push_numbered(&mut self.words, row.number, &row.event)?;
        push_event(&mut self.out, class_of(&row.mark), y, &self.words)
    }

    /// Adds a row at the end. Refused if memory is.
    pub fn add(&mut self, row: &Row) -> Result<(), AllocError>
        ensures { OnOk result ((text : List ℕ) × (self.new ≡ self.old ++ text)
            × IsRow (not (is_dead row.now.mark)) (letter_in row.now.mark)
            row.now.number row.now.event text) }
    {
        let at = self
            .layout
            .place(u16::from(node_of(&row.event)), self.count);
        self.begin()?;
        self.push_sent(row, at.y)?;
        self.push_numbered(row, at.y.saturating_add(4))?;
        push_mark(&mut self.out, row, at)?;
        push_said(&mut self.out, row, at)?;
        push_text(&mut self.out, "\n")?;
        self.count = self.count.saturating_add(1);
        Ok(())
    }

    /// The text of the chart. Refused if memory is.
    pub fn finish(self) -> Result<Vec<u8>, AllocError>
        ensures { IfOk result (λ text. text.items ≡ self ++ chart_end) }
    {
        let mut out = self.out;
        push_text(&mut out, "</g>\n</svg>\n")?;
        Ok(out)
    }
}
