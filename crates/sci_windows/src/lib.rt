//! Windows of a run: logs that begin with given contents of each line, so that a run of any length is judged in parts.
#![tactic(auto)]

mod auditing;
mod back;
mod cut_off;
mod laws;
mod line_so_far;
mod ordering;
mod relative;
mod score;
mod scoreboard;
mod window_order;

pub use auditing::audit_from;
pub use cut_off::audit_cut_off;
pub use laws::{
    what_breaks_is_unlawful, what_is_taken_is_lawful, windows_from_zeros, windows_go_on,
    windows_meet,
};
pub use line_so_far::{Latest, LineSoFar};
pub use ordering::order_from;
pub use score::Score;
pub use scoreboard::Scoreboard;
pub use window_order::WindowOrder;
