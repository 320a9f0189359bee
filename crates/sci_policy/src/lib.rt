//! What a controller does next: which request it sends, which requests of others it keeps or refuses, and what it did in
//! a turn.
#![tactic(auto)]

mod decision;
pub mod laws;
mod line_marks;
mod lines;
mod policy;
mod progress;
mod rules;
mod want;
mod worker;

pub use decision::Decision;
pub use policy::{PATIENCE, Policy};
pub use progress::Progress;
pub use sci_core::SubmitFault;
pub use want::Want;
pub use worker::Worker;
