//! Figures of a schedule: what each of its events did, and how often each of these things happened.
#![tactic(auto)]

mod about;
mod counting;
mod coverage;
mod coverage_lines;
mod covering;
mod event_figures;
mod figures;
mod kind;
pub mod laws;
mod levels;
mod line_figures;
mod meeting;
mod node_figures;
mod node_states;
mod packet_figures;
mod passage;
mod rows;
mod stats_json;
mod tables;
mod transition;
mod waits;
mod walk;

pub use about::{line_about, line_changed, sent, taken};
pub use counting::{StatsRequest, stats};
pub use coverage::Coverage;
pub use coverage_lines::coverage_text;
pub use covering::{add_transitions, transitions};
pub use event_figures::{EventFigures, Tally};
pub use kind::Access;
pub use levels::{Level, LevelFigures};
pub use line_figures::LineFigures;
pub use meeting::transition_of;
pub use node_figures::NodeFigures;
pub use node_states::{held_at, home_at};
pub use packet_figures::{bytes_sent, packets_sent, packets_with};
pub use passage::Passage;
pub use stats_json::coverage_json;
pub use tables::pairs;
pub use transition::{Met, StateKind, Transition};
pub use waits::{NodeWaits, WaitFigures};
pub use walk::{applied, passages_of};
