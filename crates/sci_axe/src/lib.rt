//! Traces in the notation of Axe: their reader, and the command that judges them.
#![tactic(auto)]

mod judging;
mod line;
mod misread;
mod notation;
mod reading;
mod sharing;
mod telling;

pub use judging::{JudgeRequest, judge_trace};
pub use reading::trace_of;
