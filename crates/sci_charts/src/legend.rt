//! The style of a chart, and its legend.

use crate::elements::{Point, Way, push_arrow, push_circle, push_cross, push_words};
use sci_text::push_text;
use std::alloc::AllocError;

/// How everything looks. A request (`q`) is whole, a refused one (`x`) dashed, an answer (`a`) has long dashes, and a busy one
/// (`b`) is dotted. An operation that is issued (`i`) is a ring, and one that is performed (`p`) a disc, with a thin line (`w`)
/// from one to the other. The text of an event has no class, nor has a label: it is a text with an `x`.
const STYLE: &str = "\
<style>
text { font: 11px 'DejaVu Sans Mono', ui-monospace, monospace; fill: #222; }
text[x] { paint-order: stroke; stroke: #fff; stroke-width: 4px; stroke-linejoin: round; }
.title, .name { font-weight: bold; }
.dead { fill: #777; font-style: italic; }
.ground { fill: #fff; }
.guide { fill: none; stroke: #eee; }
.column { fill: none; stroke: #999; }
.w { fill: none; stroke: #777; stroke-width: .7; }
.cross { fill: none; stroke: #777; stroke-width: 1.5; }
.i { fill: #fff; stroke: #222; stroke-width: 1.5; }
.p { fill: #222; stroke: #222; stroke-width: 1.5; }
.q, .x, .a, .b { fill: none; stroke-width: 1.5; }
.q { stroke: #1f5fa8; marker-end: url(#request); }
.x { stroke: #b3261e; stroke-dasharray: 6 5; marker-end: url(#refused); }
.a { stroke: #22733c; stroke-dasharray: 18 3; marker-end: url(#answer); }
.b { stroke: #b05a00; stroke-dasharray: 2 4; marker-end: url(#busy); }
</style>
";

/// The heads of the arrows: closed for requests, and open for answers.
const HEADS: &str = "\
<defs>
<marker id=\"request\" viewBox=\"0 0 10 10\" refX=\"10\" refY=\"5\" markerWidth=\"7\" markerHeight=\"7\" orient=\"auto\"><path d=\"M0 1 L10 5 L0 9 z\" fill=\"#1f5fa8\"/></marker>
<marker id=\"refused\" viewBox=\"0 0 10 10\" refX=\"10\" refY=\"5\" markerWidth=\"7\" markerHeight=\"7\" orient=\"auto\"><path d=\"M0 1 L10 5 L0 9 z\" fill=\"#b3261e\"/></marker>
<marker id=\"answer\" viewBox=\"0 0 10 10\" refX=\"10\" refY=\"5\" markerWidth=\"7\" markerHeight=\"7\" orient=\"auto\"><path d=\"M0 1 L10 5 L0 9\" fill=\"none\" stroke=\"#22733c\" stroke-width=\"1.5\"/></marker>
<marker id=\"busy\" viewBox=\"0 0 10 10\" refX=\"10\" refY=\"5\" markerWidth=\"7\" markerHeight=\"7\" orient=\"auto\"><path d=\"M0 1 L10 5 L0 9\" fill=\"none\" stroke=\"#b05a00\" stroke-width=\"1.5\"/></marker>
</defs>
";

/// How far to the right the legend goes.
pub const RIGHT: u64 = 720;

/// From one entry of the legend to the next.
const ENTRY: i16 = 180;

/// How long the arrows of the legend are.
const SAMPLE: i16 = 44;

/// Appends an arrow of a class, and what it shows.
fn push_sample(out: &mut Vec<u8>, class: &str, at: Point, words: &[u8]) -> Result<(), AllocError> {
    let way = Way::Straight {
        from: at,
        to: at.moved(SAMPLE, 0),
    };
    push_arrow(out, class, &way, b"")?;
    push_words(out, "key", at.moved(SAMPLE + 8, 4), words)
}

/// Appends the entries for arrows.
fn push_arrows(out: &mut Vec<u8>, at: Point) -> Result<(), AllocError> {
    push_sample(out, "q", at, b"request")?;
    push_sample(out, "x", at.moved(ENTRY, 0), b"request refused")?;
    push_sample(out, "a", at.moved(2 * ENTRY, 0), b"answer")?;
    push_sample(out, "b", at.moved(3 * ENTRY, 0), b"answer busy")
}

/// Appends the entries for what stands at a column.
fn push_marks(out: &mut Vec<u8>, at: Point) -> Result<(), AllocError> {
    push_circle(out, "i", at, 4)?;
    push_words(out, "key", at.moved(12, 4), b"issue")?;
    let at = at.moved(ENTRY, 0);
    push_circle(out, "p", at, 4)?;
    push_words(out, "key", at.moved(12, 4), b"perform, its entry")?;
    let at = at.moved(ENTRY, 0);
    push_cross(out, at.moved(-4, -4), at.moved(4, 4))?;
    push_words(out, "dead", at.moved(12, 4), b"not enabled")?;
    push_sample(out, "w", at.moved(ENTRY - 8, 0), b"wait, in events")
}

/// Appends the legend of a chart, below the title. Refused if memory is.
pub fn push_legend(out: &mut Vec<u8>) -> Result<(), AllocError> {
    push_arrows(out, Point { x: 0, y: 48 })?;
    push_marks(out, Point { x: 8, y: 70 })
}

/// Appends how a chart looks. Refused if memory is.
pub fn push_style(out: &mut Vec<u8>) -> Result<(), AllocError> {
    push_text(out, STYLE)?;
    push_text(out, HEADS)
}
