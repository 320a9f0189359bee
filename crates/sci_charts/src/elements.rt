//! Elements of SVG, appended to a text. Words have none of the characters to which XML gives a meaning there: `>` is not one.

ghost use Rattle.std.specs.Prelude.{◌≡◌, ◌++◌, ℕ, List, OnOk};
ghost use Rattle.sci_charts.specs.Drawing.{chart_begin};
ghost use Rattle.sci_charts.specs.Elements.{arrow_element, attribute, block_element, circle_element, class_attribute, cross_element, event_element};
ghost use Rattle.sci_charts.specs.Elements.{label_element, opening, point_text, title_element, way_text};

use sci_text::{push_number, push_text};
use std::alloc::AllocError;

/// A place in a chart, in pixels to the right of where the texts of events begin, and below the upper edge of the chart, or
/// below the names of the nodes where a block of rows says so.
#[derive(Clone, Copy)]
pub struct Point {
    pub x: u64,
    pub y: u64,
}

impl Point {
    /// The point so far to the right and below, or on the edge of the chart if that is outside.
    pub fn moved(self, right: i16, down: i16) -> Point {
        Point {
            x: self.x.saturating_add_signed(i64::from(right)),
            y: self.y.saturating_add_signed(i64::from(down)),
        }
    }
}

/// The way of an arrow.
#[derive(Clone, Copy)]
pub enum Way {
    /// From a point to another.
    Straight { from: Point, to: Point },
    /// From a point to the left, down, and back to the column of the point.
    Around { from: Point, left: Point },
}

/// Words, and the title that a viewer shows where they are pointed at; none if that is empty.
#[derive(Clone, Copy)]
pub struct Words<'a> {
    pub text: &'a [u8],
    pub title: &'a [u8],
}

/// Appends an attribute whose value is a number.
#[tactic(auto, unfolding(crate::specs::Elements::attribute))]
fn push_attribute(out: &mut Vec<u8>, name: &str, value: u64) -> Result<(), AllocError>
    ensures { OnOk result (out.new.items ≡ out.old.items ++ attribute name.now value) }
{
    push_text(out, " ")?;
    push_text(out, name)?;
    push_text(out, "=\"")?;
    push_number(out, value)?;
    push_text(out, "\"")
}

/// Appends a class, if there is one.
#[tactic(auto, unfolding(crate::specs::Elements::class_attribute))]
fn push_class(out: &mut Vec<u8>, class: &str) -> Result<(), AllocError>
    ensures { OnOk result (out.new.items ≡ out.old.items ++ class_attribute class.now) }
{
    if class.is_empty() {
        return Ok(());
    }
    push_text(out, " class=\"")?;
    push_text(out, class)?;
    push_text(out, "\"")
}

/// Appends the beginning of an element, as `<path class="cross"`.
#[tactic(auto, unfolding(crate::specs::Elements::opening))]
fn push_opening(out: &mut Vec<u8>, name: &str, class: &str) -> Result<(), AllocError>
    ensures { OnOk result (out.new.items ≡ out.old.items ++ opening name.now class.now) }
{
    push_text(out, "<")?;
    push_text(out, name)?;
    push_class(out, class)
}

/// Appends a title, which a viewer shows where the element that it stands in is pointed at. Nothing if it has no words.
#[tactic(auto, unfolding(crate::specs::Elements::title_element))]
fn push_title(out: &mut Vec<u8>, title: &[u8]) -> Result<(), AllocError>
    ensures { OnOk result (out.new.items ≡ out.old.items ++ title_element title.now) }
{
    if title.is_empty() {
        return Ok(());
    }
    push_text(out, "<title>")?;
    out.extend_from_slice(title)?;
    push_text(out, "</title>")
}

/// Appends the two numbers of a point.
#[tactic(auto, unfolding(crate::specs::Elements::point_text))]
fn push_point(out: &mut Vec<u8>, point: Point) -> Result<(), AllocError>
    ensures { OnOk result (out.new.items ≡ out.old.items ++ point_text point) }
{
    push_number(out, point.x)?;
    push_text(out, " ")?;
    push_number(out, point.y)
}

/// Appends the steps of a way.
#[tactic(auto, unfolding(crate::specs::Elements::way_text))]
fn push_way(out: &mut Vec<u8>, way: &Way) -> Result<(), AllocError>
    ensures { OnOk result (out.new.items ≡ out.old.items ++ way_text way.now) }
{
    push_text(out, "M")?;
    match way {
        Way::Straight { from, to } => {
            push_point(out, *from)?;
            push_text(out, " ")?;
            push_point(out, *to)
        }
        Way::Around { from, left } => {
            push_point(out, *from)?;
            push_text(out, "H")?;
            push_number(out, left.x)?;
            push_text(out, "V")?;
            push_number(out, left.y)?;
            push_text(out, "H")?;
            push_number(out, from.x)
        }
    }
}

/// Appends an arrow with a title.
#[tactic(auto, unfolding(crate::specs::Elements::arrow_element))]
pub fn push_arrow(out: &mut Vec<u8>, class: &str, way: &Way, title: &[u8]) -> Result<(), AllocError>
    ensures { OnOk result
        (out.new.items ≡ out.old.items ++ arrow_element class.now way.now title.now) }
{
    push_opening(out, "path", class)?;
    push_text(out, " d=\"")?;
    push_way(out, way)?;
    push_text(out, "\">")?;
    push_title(out, title)?;
    push_text(out, "</path>")
}

/// Appends a cross between its left upper and its right lower end.
#[tactic(auto, unfolding(crate::specs::Elements::cross_element))]
pub fn push_cross(out: &mut Vec<u8>, upper: Point, lower: Point) -> Result<(), AllocError>
    ensures { OnOk result (out.new.items ≡ out.old.items ++ cross_element upper lower) }
{
    push_opening(out, "path", "cross")?;
    push_text(out, " d=\"")?;
    push_way(
        out,
        &Way::Straight {
            from: upper,
            to: lower,
        },
    )?;
    push_way(
        out,
        &Way::Straight {
            from: Point {
                x: lower.x,
                y: upper.y,
            },
            to: Point {
                x: upper.x,
                y: lower.y,
            },
        },
    )?;
    push_text(out, "\"/>")
}

/// Appends a circle.
#[tactic(auto, unfolding(crate::specs::Elements::circle_element))]
pub fn push_circle(
    out: &mut Vec<u8>,
    class: &str,
    centre: Point,
    radius: u64,
) -> Result<(), AllocError>
    ensures { OnOk result
        (out.new.items ≡ out.old.items ++ circle_element class.now centre radius) }
{
    push_opening(out, "circle", class)?;
    push_attribute(out, "cx", centre.x)?;
    push_attribute(out, "cy", centre.y)?;
    push_attribute(out, "r", radius)?;
    push_text(out, "/>")
}

/// Appends the words of an event, at the left.
#[tactic(auto, unfolding(crate::specs::Elements::event_element))]
pub fn push_event(out: &mut Vec<u8>, class: &str, y: u64, words: &[u8]) -> Result<(), AllocError>
    ensures { OnOk result
        (out.new.items ≡ out.old.items ++ event_element class.now y words.now) }
{
    push_opening(out, "text", class)?;
    push_attribute(out, "y", y)?;
    push_text(out, ">")?;
    out.extend_from_slice(words)?;
    push_text(out, "</text>")
}

/// Appends words that begin at a point of their base line.
#[tactic(auto, unfolding(crate::specs::Elements::label_element))]
pub fn push_label(out: &mut Vec<u8>, class: &str, at: Point, words: Words) -> Result<(), AllocError>
    ensures { OnOk result (out.new.items
        ≡ out.old.items ++ label_element class.now at words.entry.text.now words.entry.title.now) }
{
    push_opening(out, "text", class)?;
    push_attribute(out, "x", at.x)?;
    push_attribute(out, "y", at.y)?;
    push_text(out, ">")?;
    out.extend_from_slice(words.text)?;
    push_title(out, words.title)?;
    push_text(out, "</text>")
}

/// Appends a text without a title that begins at a point of its base line, on a line of its own.
pub fn push_words(
    out: &mut Vec<u8>,
    class: &str,
    at: Point,
    text: &[u8],
) -> Result<(), AllocError> {
    push_label(out, class, at, Words { text, title: b"" })?;
    push_text(out, "\n")
}

/// Appends the end of a block of rows, and the beginning of the next: the names of the nodes at a height, from which the
/// places in the block count.
#[tactic(auto, unfolding(crate::specs::Elements::block_element))]
pub fn push_block(out: &mut Vec<u8>, y: u64) -> Result<(), AllocError>
    ensures { OnOk result (out.new.items ≡ out.old.items ++ block_element y) }
{
    push_text(out, "</g>\n<g transform=\"translate(0 ")?;
    push_number(out, y)?;
    push_text(out, ")\"><use href=\"#names\"/>\n")
}

/// Appends a line from the left to the right, as a step of a path.
pub fn push_stroke(out: &mut Vec<u8>, from: Point, x: u64) -> Result<(), AllocError> {
    push_text(out, "M")?;
    push_point(out, from)?;
    push_text(out, "H")?;
    push_number(out, x)
}

/// Appends a line from the top down, as a step of a path.
pub fn push_stem(out: &mut Vec<u8>, from: Point, y: u64) -> Result<(), AllocError> {
    push_text(out, "M")?;
    push_point(out, from)?;
    push_text(out, "V")?;
    push_number(out, y)
}

/// Appends the end of a path of guides, and the beginning of the next one, for a block of rows whose names stand at a height.
pub fn push_guides(out: &mut Vec<u8>, y: u64) -> Result<(), AllocError> {
    push_text(out, "\"/>\n")?;
    push_opening(out, "path", "guide")?;
    push_text(out, " transform=\"translate(0 ")?;
    push_number(out, y)?;
    push_text(out, ")\" d=\"")
}

/// Appends the names of the nodes at a height.
pub fn push_use(out: &mut Vec<u8>, y: u64) -> Result<(), AllocError> {
    push_text(out, "<use href=\"#names\"")?;
    push_attribute(out, "y", y)?;
    push_text(out, "/>\n")
}

/// Appends a white rectangle of this size, which everything else is drawn on; so much of it is to the left of 0.
pub fn push_ground(out: &mut Vec<u8>, margin: u64, size: Point) -> Result<(), AllocError> {
    push_opening(out, "rect", "ground")?;
    push_text(out, " x=\"-")?;
    push_number(out, margin)?;
    push_text(out, "\"")?;
    push_attribute(out, "width", size.x)?;
    push_attribute(out, "height", size.y)?;
    push_text(out, "/>\n")
}

/// Appends the opening tag of a chart of this size, of which so much is to the left of 0.
pub fn push_svg(out: &mut Vec<u8>, margin: u64, size: Point) -> Result<(), AllocError>
    ensures { OnOk result ((more : List ℕ) × (out.new.items ≡ out.old.items ++ (chart_begin ++ more))) }
{
    push_text(out, "<svg ")?;
    push_text(out, "xmlns=\"http://www.w3.org/2000/svg\"")?;
    push_attribute(out, "width", size.x)?;
    push_attribute(out, "height", size.y)?;
    push_text(out, " viewBox=\"-")?;
    push_number(out, margin)?;
    push_text(out, " 0 ")?;
    push_point(out, size)?;
    push_text(out, "\">\n")
}
