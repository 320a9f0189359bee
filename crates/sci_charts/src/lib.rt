//! Message sequence charts of schedules, in SVG.
#![tactic(auto)]

mod arrows;
mod charting;
mod drawing;
mod elements;
mod frame;
mod labels;
mod layout;
mod legend;
mod mark;
mod plan;
mod rows;
mod sights;
mod survey;
mod waits;

pub use charting::{ChartRequest, TextLines, chart};
