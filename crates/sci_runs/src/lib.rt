//! Runs of scripts: the schedule of events that the policy makes of a script, one turn after another.
#![tactic(auto)]

mod fault;
mod order;
mod player;
mod post;
mod recorder;
mod running;
mod seat;
mod table;
mod turn;

pub use fault::RunFault;
pub use running::{Run, RunPlan, run_script};
