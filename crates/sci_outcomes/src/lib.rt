//! Reports on the runs of a script: the schedule of one, and the outcomes of many.
#![tactic(auto)]

mod fault;
mod histogram;
mod outcome;
mod outcomes_json;
mod outcomes_report;
mod run_report;
mod said;
mod trials;

pub use outcomes_report::{MAX_RUNS, OutcomesRequest, outcomes_of};
pub use run_report::{RunRequest, run};
pub use trials::Turns;
