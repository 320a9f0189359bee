//! That turns go on: laws of machines whose nodes take turns, each the contract of a function that does nothing.
#![tactic(auto)]

pub mod answers;
pub mod progress;
pub mod rank;
pub mod steady;
pub mod turns;
