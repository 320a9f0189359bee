//! Where the columns and the rows of a chart are.

ghost use Rattle.std.specs.Prelude.{◌≡◌, ◌<◌, ◌^◌, ◌++◌, OnOk};
ghost use Rattle.sci_charts.specs.Rows.{row_words};

use crate::elements::Point;
use sci_text::{Schedule, push_event_line, push_number, push_text};
use sci_words::Event;
use std::alloc::{AllocError, Global};

/// How wide a character is at most, in pixels.
const CHARACTER: u64 = 7;

/// How far the texts of events begin from the left edge of a chart, and as much is free at the other edges.
pub const MARGIN: u64 = 24;

/// From one column to the next.
const COLUMN: u64 = 116;

/// Where the names of the nodes stand first; title and legend are above.
const NAMES: u64 = 112;

/// From the names of the nodes to the first row below them, and from the last row above them.
const BAND: u64 = 30;

/// From one row to the next.
const ROW: u64 = 30;

/// How far labels begin to the right of their columns.
pub const LABEL: u64 = 8;

/// After this many rows the names of the nodes stand once more.
pub const ROWS: u32 = 40;

/// The line of a schedule in which its first event stands.
pub const FIRST_LINE: u64 = 2;

/// Appends an event with the line of the schedule in which it stands, as `2: reply 0`. Refused if memory is.
#[tactic(auto, unfolding(crate::specs::Rows::row_words, sci_text::specs::Schedule::event_line))]
pub fn push_numbered(out: &mut Vec<u8>, number: u64, event: &Event) -> Result<(), AllocError>
    ensures { OnOk result (out.new.items ≡ out.old.items ++ row_words number event.now) }
{
    push_number(out, number)?;
    push_text(out, ": ")?;
    push_event_line(out, *event)?;
    // Without the line feed.
    let _feed = out.pop();
    Ok(())
}

/// Where the columns of a chart are.
#[derive(Clone, Copy)]
pub struct Layout {
    /// How many characters the longest text of an event has.
    longest: u16,
}

/// How many characters a text has, if it isn't longer than any that a chart has.
fn count_of(text: &[u8]) -> u16 {
    u16::try_from(text.len()).unwrap_or(u16::MAX)
}

/// How wide a text is at most.
pub fn width_of(text: &[u8]) -> u64
    ensures { result < 2 ^ 20 }
{
    CHARACTER * u64::from(count_of(text))
}

impl Layout {
    /// The layout of the chart of a schedule. Refused if memory is.
    pub fn of(alloc: Global, schedule: &Schedule) -> Result<Layout, AllocError> {
        let mut longest = 0;
        let mut text = Vec::new(alloc);
        let mut line = FIRST_LINE;
        for event in schedule.events() {
            text.clear();
            push_numbered(&mut text, line, event)?;
            longest = longest.max(count_of(&text));
            line = line.saturating_add(1);
        }
        Ok(Layout { longest })
    }

    /// The column of a node.
    pub fn column(self, node: u16) -> u64 {
        2 * MARGIN + CHARACTER * u64::from(self.longest) + COLUMN * u64::from(node)
    }

    /// Where a row meets the column of a node, in its block.
    pub fn place(self, node: u16, row: u32) -> Point {
        Point {
            x: self.column(node),
            y: BAND + ROW * u64::from(row % ROWS),
        }
    }
}

/// The block of a row. Rows and blocks count from 0.
pub fn block_of(row: u32) -> u32 {
    row / ROWS
}

/// Whether a row begins a block.
pub fn begins_block(row: u32) -> bool {
    row % ROWS == 0
}

/// Where the names of the nodes stand above a block of rows.
pub fn names_at(block: u32) -> u64
    ensures { result < 2 ^ 48 }
{
    NAMES + u64::from(block) * (2 * BAND + ROW * u64::from(ROWS - 1))
}

/// Where a row is.
pub fn row_at(row: u32) -> u64 {
    names_at(block_of(row)) + BAND + ROW * u64::from(row % ROWS)
}
