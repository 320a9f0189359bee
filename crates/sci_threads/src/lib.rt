//! Runs a script by threads: each node's station is driven by a thread of its own.
#![tactic(auto)]

mod gate;
mod laws;
mod running;
mod share;
mod shares;
mod start;

pub use gate::YieldingGate;
pub use laws::new_stations_are_fresh;
pub use running::{run_in_order, run_nodes, run_plan, run_to_machine};
pub use shares::ThreadPlan;
